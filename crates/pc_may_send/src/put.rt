//! Put: for the first time by the call that asks for it; again, as long as the write is not proved.

ghost use Rattle.std.specs.Prelude.{◌≡◌, ◌↔◌, ◌+◌, ◌⊎◌, IsTrue, unwrap_or};
ghost use Rattle.std.specs.Option.{option_copied};
ghost use Rattle.pc_knowledge.specs.Keeping.{KeepsKnowledge};
ghost use Rattle.pc_may_send.specs.Again.{IsSentAgain, IsAnySentAgain};
ghost use Rattle.pc_world.specs.Known.{Known};
ghost use Rattle.pc_world.specs.Known.Transactions.{IsMetaOf, meta_of};
ghost use Rattle.pc_world.specs.Known.Writes.{last_seq_of};
ghost use Rattle.pc_world.specs.Send.Put.{MaySendAgain, MaySendFirst, MaySendPut};

use pc_base::{Key, Timestamp, Value};
use pc_knowledge::{Knowledge, asks_for, same_value};
use pc_known::{is_key, number};
use pc_own::{OwnTxn, OwnWrite};
use pc_proto::TxnMeta;

/// A put that is to be sent.
#[derive(Drop)]
pub struct Put<'a> {
    pub meta: &'a TxnMeta,
    pub seq: u32,
    pub ts: Timestamp,
    pub key: &'a Key,
    pub value: Option<&'a Value>,
}

/// Whether the meta is the transaction's; its first put's key becomes the anchor.
fn is_first_meta(t: &OwnTxn<'_>, meta: &TxnMeta, key: &Key) -> bool
    ensures { IsTrue result ↔ (meta.now ≡ meta_of t.now (unwrap_or t.now.anchor key.now)) }
{
    match t.anchor() {
        None => t.is_meta_at(meta, key),
        Some(anchor) => t.is_meta_at(meta, anchor),
    }
}

fn is_next_seq(t: &OwnTxn<'_>, seq: u32) -> bool
    ensures { IsTrue result ↔ (seq ≡ last_seq_of t.now.writes + 1) }
{
    seq as u64 == t.writes().last_seq() as u64 + 1
}

/// Whether the transaction may send this put for the first time.
fn may_send_first(known: &Knowledge<'_>, put: &Put<'_>) -> bool
    ensures { (k : Known) → KeepsKnowledge k known.now → IsTrue result ↔ MaySendFirst k put.now.meta.now put.now.seq put.now.ts put.now.key.now (option_copied put.now.value) }
{
    match known.open_txn() {
        None => false,
        Some(t) => {
            asks_for(known.call(), put.key, put.value)
                && is_first_meta(t, put.meta, put.key)
                && is_next_seq(t, put.seq)
                && number(put.ts) == t.write_ts()
                && t.writes().are_proved_on(put.key)
                && known.is_uncommitted(t.id())
        }
    }
}

fn is_again(t: &OwnTxn<'_>, write: &OwnWrite<'_>, put: &Put<'_>) -> bool
    ensures { IsTrue result ↔ IsSentAgain t.now put.now.seq put.now.ts put.now.key.now (option_copied put.now.value) write.now }
{
    !write.is_proved()
        && put.seq == write.seq
        && is_key(put.key, write.key)
        && same_value(put.value, write.value)
        && (number(put.ts) == t.write_ts() || write.was_asked_at(put.ts))
}

/// Whether it is so of the write of this sequence.
fn is_own_again(t: &OwnTxn<'_>, put: &Put<'_>) -> bool
    ensures { IsTrue result → IsAnySentAgain t.now put.now.seq put.now.ts put.now.key.now (option_copied put.now.value) }
{
    match t.writes().of(put.seq) {
        Some(write) => is_again(t, write, put),
        None => false,
    }
}

fn is_some_again(t: &OwnTxn<'_>, put: &Put<'_>) -> bool
    ensures { IsTrue result ↔ IsAnySentAgain t.now put.now.seq put.now.ts put.now.key.now (option_copied put.now.value) }
{
    t.writes()
        .as_slice()
        .iter()
        .any(|write| is_again(t, write, put))
}

fn is_any_again(t: &OwnTxn<'_>, put: &Put<'_>) -> bool
    ensures { IsTrue result ↔ IsAnySentAgain t.now put.now.seq put.now.ts put.now.key.now (option_copied put.now.value) }
{
    is_own_again(t, put) || is_some_again(t, put)
}

/// Whether the meta is the transaction's, and the put sends one of its writes again.
fn is_put_again(t: &OwnTxn<'_>, put: &Put<'_>) -> bool
    ensures { IsTrue result ↔ (IsMetaOf t.now put.now.meta.now × IsAnySentAgain t.now put.now.seq put.now.ts put.now.key.now (option_copied put.now.value)) }
{
    t.is_meta(put.meta) && is_any_again(t, put)
}

/// Whether a transaction of the session may send this put again.
fn may_send_again(known: &Knowledge<'_>, put: &Put<'_>) -> bool
    ensures { (k : Known) → KeepsKnowledge k known.now → IsTrue result ↔ MaySendAgain k put.now.meta.now put.now.seq put.now.ts put.now.key.now (option_copied put.now.value) }
{
    match known.own_txn(put.meta.id) {
        None => false,
        Some(t) => is_put_again(t, put),
    }
}

/// Whether the session may send this put, for the first time or again.
pub fn may_send_put(known: &Knowledge<'_>, put: &Put<'_>) -> bool
    ensures { (k : Known) → KeepsKnowledge k known.now → IsTrue result ↔ MaySendPut k put.now.meta.now put.now.seq put.now.ts put.now.key.now (option_copied put.now.value) }
{
    may_send_first(known, put) || may_send_again(known, put)
}
