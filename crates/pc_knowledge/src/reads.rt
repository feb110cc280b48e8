//! Whether the reads of a transaction are good: by refreshes of their very spans, as a commit sends them, or else by all replies.

ghost use Rattle.std.specs.Prelude.{◌≡◌, ◌↔◌, ◌≤◌, ℕ, All, IsTrue, Option, Some, true};
ghost use Rattle.pc_files.specs.Filing.{KeepsFiles};
ghost use Rattle.pc_knowledge.specs.Keeping.{KeepsKnowledge};
ghost use Rattle.pc_knowledge.specs.LastGood.{AreGoodUpTo, AreLastGood};
ghost use Rattle.pc_world.specs.Known.{Known, first_if, known_after, open_txn};
ghost use Rattle.pc_world.specs.Known.Reads.{IsGoodAt, IsGoodTo};
ghost use Rattle.pc_world.specs.Known.Traffic.{Heard};
ghost use Rattle.pc_world.specs.Known.Transactions.{IsGood, Txn};

use crate::good::{is_by, is_good_up_to};
use crate::knowledge::Knowledge;
use pc_base::{Timestamp, TxnId};
use pc_files::Files;
use pc_known::number;
use pc_own::{OwnRead, OwnTxn, Txns};
use pc_proto::{Event, Request};

/// Whether the read is good at this timestamp or at a later one, by itself or by refreshes of its very span.
fn is_refreshed<'a>(files: &Files<'a>, id: TxnId, read: &OwnRead<'a>, ts: Timestamp) -> bool
    ensures { (k : Known) → KeepsFiles k files.now → IsTrue result → (good : ℕ) × IsGoodTo id k.heard read.now.span read.now.ts good × (ts ≤ good) }
{
    is_by(ts, read.ts) || files.is_refreshed(id, read.span, read.ts, ts)
}

fn are_refreshed<'a>(files: &Files<'a>, id: TxnId, reads: &[OwnRead<'a>], ts: Timestamp) -> bool
    ensures { (k : Known) → KeepsFiles k files.now → IsTrue result → AreGoodUpTo id k.heard ts reads.now }
{
    for read in reads {
        if !is_refreshed(files, id, read, ts) {
            return false;
        }
    }
    true
}

/// How far the reads of the last transaction begun are known to be good, after one more event, 0 where that is not known.
/// The first refresh of a commit asks them all.
pub(crate) fn good_after<'a>(good: u128, txns: &Txns<'a>, files: &Files<'a>, event: &Event) -> u128
    ensures { (k : Known) (h : Option Heard) (top high : ℕ) → KeepsFiles k files.now → txns.now ≡ k.txns → AreLastGood k good → AreLastGood (known_after event.now h top high k) result }
{
    match event {
        Event::Tell(_) => 0,
        Event::Send { request, .. } => good_sent(good, txns, files, request),
        _ => good,
    }
}

fn good_sent<'a>(good: u128, txns: &Txns<'a>, files: &Files<'a>, request: &Request) -> u128
    ensures { (k : Known) → KeepsFiles k files.now → txns.now ≡ k.txns → AreLastGood k good → AreLastGood k result }
{
    match request {
        Request::Refresh { from, .. } => good_from(good, txns, files, *from),
        _ => good,
    }
}

fn good_from<'a>(good: u128, txns: &Txns<'a>, files: &Files<'a>, from: Timestamp) -> u128
    ensures { (k : Known) → KeepsFiles k files.now → txns.now ≡ k.txns → AreLastGood k good → AreLastGood k result }
{
    match txns.open(true) {
        Some(t) => good_of(good, files, t, from),
        None => good,
    }
}

fn good_of<'a>(good: u128, files: &Files<'a>, t: &OwnTxn<'a>, from: Timestamp) -> u128
    ensures { (k : Known) → KeepsFiles k files.now → first_if true k.txns ≡ Some t.now → AreLastGood k good → AreLastGood k result }
{
    let at = number(from);
    if good < at && are_refreshed(files, t.id(), t.reads().as_slice(), from) {
        at
    } else {
        good
    }
}

/// Whether the read is good at this timestamp, or at a later one.
fn is_good_by<'a>(known: &Knowledge<'a>, id: TxnId, read: &OwnRead<'a>, ts: Timestamp) -> bool
    ensures { (k : Known) → KeepsKnowledge k known.now → IsTrue result ↔ ((good : ℕ) × IsGoodTo id k.heard read.now.span read.now.ts good × (ts ≤ good)) }
{
    is_refreshed(known.files(), id, read, ts) || is_good_at_all(known, id, read, ts)
}

fn is_good_at_all(known: &Knowledge<'_>, id: TxnId, read: &OwnRead<'_>, ts: Timestamp) -> bool
    ensures { (k : Known) → KeepsKnowledge k known.now → IsTrue result ↔ ((good : ℕ) × IsGoodTo id k.heard read.now.span read.now.ts good × (ts ≤ good)) }
{
    is_good_up_to(id, known.replies(id), read, ts)
}

fn are_all_good<'a>(known: &Knowledge<'a>, id: TxnId, reads: &[OwnRead<'a>], ts: Timestamp) -> bool
    ensures { (k : Known) → KeepsKnowledge k known.now → IsTrue result ↔ AreGoodUpTo id k.heard ts reads.now }
{
    for read in reads {
        if !is_good_by(known, id, read, ts) {
            return false;
        }
    }
    true
}

fn are_own_good<'a>(known: &Knowledge<'a>, t: &OwnTxn<'a>, ts: Timestamp) -> bool
    ensures { (k : Known) → KeepsKnowledge k known.now → IsTrue result ↔ AreGoodUpTo t.now.id k.heard ts t.now.reads }
{
    are_all_good(known, t.id(), t.reads().as_slice(), ts)
}

fn is_known_good(known: &Knowledge<'_>, ts: Timestamp) -> bool
    ensures { (k : Known) (t : Txn) → KeepsKnowledge k known.now → open_txn k ≡ Some t → IsTrue result → AreGoodUpTo t.id k.heard ts t.reads }
{
    number(ts) <= known.good()
}

/// Whether each read of the open transaction's epoch is good at this timestamp, or at a later one.
pub fn are_good_up_to<'a>(known: &Knowledge<'a>, t: &OwnTxn<'a>, ts: Timestamp) -> bool
    ensures { (k : Known) → KeepsKnowledge k known.now → open_txn k ≡ Some t.now → IsTrue result ↔ AreGoodUpTo t.now.id k.heard ts t.now.reads }
{
    is_known_good(known, ts) || are_own_good(known, t, ts)
}

fn is_good_at<'a>(known: &Knowledge<'a>, id: TxnId, ts: Timestamp, read: &OwnRead<'a>) -> bool
    ensures { (k : Known) → KeepsKnowledge k known.now → IsTrue result ↔ IsGoodAt id k.heard ts read.now }
{
    is_by(read.ts, ts) && is_good_by(known, id, read, ts)
}

fn are_good_at<'a>(known: &Knowledge<'a>, id: TxnId, ts: Timestamp, reads: &[OwnRead<'a>]) -> bool
    ensures { (k : Known) → KeepsKnowledge k known.now → IsTrue result ↔ All (IsGoodAt id k.heard ts) reads.now }
{
    for read in reads {
        if !is_good_at(known, id, ts, read) {
            return false;
        }
    }
    true
}

/// Whether each read of the transaction's epoch is good at this timestamp, which is not below the begin timestamp.
pub fn is_good<'a>(known: &Knowledge<'a>, t: &OwnTxn<'a>, ts: Timestamp) -> bool
    ensures { (k : Known) → KeepsKnowledge k known.now → IsTrue result ↔ IsGood k.heard t.now ts }
{
    is_by(t.begin(), ts) && are_good_at(known, t.id(), ts, t.reads().as_slice())
}
