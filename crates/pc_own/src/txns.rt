ghost use Rattle.std.specs.Prelude.{◌≡◌, ◌∷◌, ◌↔◌, [], Some, Contains, OnOk, length, map, slice_get};
ghost use Rattle.std.specs.Option.{option_copied};
ghost use Rattle.pc_known.specs.Sends.{KeepsSends};
ghost use Rattle.pc_own.specs.Changes.{ChangesAt, raised_by, writer_of};
ghost use Rattle.pc_own.specs.Numbered.{AreBegunInOrder};
ghost use Rattle.pc_world.specs.Known.{Known, first_if, told_first};
ghost use Rattle.pc_world.specs.Known.Traffic.{replies_to};
ghost use Rattle.pc_world.specs.Known.Transactions.{Txn, txn_heard, txn_sent, txn_told};

use crate::txn::OwnTxn;
use pc_base::{NoMemory, TxnId};
use pc_known::{Hearing, Message, Sends};
use pc_proto::{Answer, Request};
use std::alloc::Global;
use std::marker::Model;

/// The transactions of a session, by number from 1. Contracts see the last one begun first.
#[derive(Drop)]
pub struct Txns<'a> {
    alloc: Global,
    txns: Vec<OwnTxn<'a>>,
}

impl<'a> Model for Txns<'a> {
    ghost use Rattle.std.specs.Prelude.{List, reverse};
    ghost use Rattle.pc_world.specs.Known.Transactions.{Txn};

    ghost Value = { List Txn };

    ghost view = { λ x. reverse x.txns.items };
}

impl<'a> Txns<'a> {
    /// No transaction was begun.
    pub fn new(alloc: Global) -> Txns<'a>
        ensures { result ≡ [] }
    {
        Txns {
            alloc,
            txns: Vec::new(alloc),
        }
    }

    /// The last one begun, where it is open.
    pub fn open(&self, is_open: bool) -> Option<&OwnTxn<'a>>
        ensures { option_copied result ≡ first_if is_open self.now }
    {
        if is_open { self.txns.last() } else { None }
    }

    /// The one of this id.
    pub fn own(&self, id: TxnId) -> Option<&OwnTxn<'a>>
        ensures { AreBegunInOrder self.now → (t : Txn) → (option_copied result ≡ Some t) ↔ (Contains self.now t × (t.id ≡ id)) }
    {
        match id.number.checked_sub(1) {
            Some(place) => one_of(at(&self.txns, place as usize), id),
            None => None,
        }
    }

    /// The next one was begun.
    pub fn begin(&mut self, txn: OwnTxn<'a>) -> Result<(), NoMemory>
        ensures { OnOk result (self.new ≡ txn.entry ∷ self.old) }
    {
        self.txns.push(txn)?;
        Ok(())
    }

    /// The transactions after their session sent a message. After a refusal nothing is known.
    pub fn send(&mut self, request: &'a Request) -> Result<(), NoMemory>
        ensures { AreBegunInOrder self.old → OnOk result (self.new ≡ map (txn_sent request.now) self.old) }
    {
        match writer_of(request) {
            None => Ok(()),
            Some(number) => send_at(&mut self.txns, self.alloc, number, request),
        }
    }

    /// The transactions after their session heard a reply. After a refusal nothing is known.
    pub fn hear(&mut self, sent: &[Message<'_>], hearing: &Hearing<'_>) -> Result<(), NoMemory>
        ensures { AreBegunInOrder self.old → OnOk result (self.new ≡ map (txn_heard sent.now (Some hearing.now)) self.old) }
    {
        match raised_by(hearing.request) {
            None => Ok(()),
            Some(number) => hear_at(&mut self.txns, number, sent, hearing),
        }
    }

    /// The transactions after the last one, which is open, was told an answer. After a refusal nothing is known.
    pub fn tell(
        &mut self,
        answer: &'a Answer,
        sends: &Sends<'a>,
        heard_now: &[Hearing<'a>],
    ) -> Result<(), NoMemory>
        ensures { (k : Known) → KeepsSends k sends.now → OnOk result (self.new ≡ told_first answer.now (replies_to k.sent_now heard_now.now) self.old) }
    {
        tell_last(&mut self.txns, answer, sends, heard_now)
    }
}

/// The transaction at a place.
fn at<'b, 'a>(txns: &'b [OwnTxn<'a>], place: usize) -> Option<&'b OwnTxn<'a>>
    ensures { option_copied result ≡ slice_get txns.now place }
{
    txns.get(place)
}

/// The transaction, where it has this id.
fn one_of<'b, 'a>(txn: Option<&'b OwnTxn<'a>>, id: TxnId) -> Option<&'b OwnTxn<'a>>
    ensures { (t : Txn) → (option_copied result ≡ Some t) ↔ ((option_copied txn.entry ≡ Some t) × (t.id ≡ id)) }
{
    match txn {
        Some(txn) if txn.id() == id => Some(txn),
        _ => None,
    }
}

/// The number of the transaction that sending the request may change.
fn writer_of(request: &Request) -> Option<u32>
    ensures { result ≡ writer_of request.now }
{
    match request {
        Request::Put { meta, .. } | Request::Stage { meta, .. } | Request::Commit { meta, .. } =>
            Some(meta.id.number),
        _ => None,
    }
}

/// The number of the transaction that a reply to the request may change.
fn raised_by(request: &Request) -> Option<u32>
    ensures { result ≡ raised_by request.now }
{
    match request {
        Request::Put { meta, .. }
        | Request::Beat { meta, .. }
        | Request::Stage { meta, .. }
        | Request::Commit { meta, .. } => Some(meta.id.number),
        Request::Query { id, .. } => Some(id.number),
        _ => None,
    }
}

fn send_at<'a>(
    txns: &mut Vec<OwnTxn<'a>>,
    alloc: Global,
    number: u32,
    request: &'a Request,
) -> Result<(), NoMemory>
    ensures { OnOk result (ChangesAt number (txn_sent request.now) txns.old.items txns.new.items) }
{
    if let Some(place) = number.checked_sub(1)
        && let Some(txn) = txns.get_mut(place as usize)
    {
        txn.send(alloc, request)?;
    }
    Ok(())
}

fn hear_at<'a>(
    txns: &mut Vec<OwnTxn<'a>>,
    number: u32,
    sent: &[Message<'_>],
    hearing: &Hearing<'_>,
) -> Result<(), NoMemory>
    ensures { OnOk result (ChangesAt number (txn_heard sent.now (Some hearing.now)) txns.old.items txns.new.items) }
{
    if let Some(place) = number.checked_sub(1)
        && let Some(txn) = txns.get_mut(place as usize)
    {
        txn.hear(sent, hearing)?;
    }
    Ok(())
}

fn tell_last<'a>(
    txns: &mut Vec<OwnTxn<'a>>,
    answer: &'a Answer,
    sends: &Sends<'a>,
    heard_now: &[Hearing<'a>],
) -> Result<(), NoMemory>
    ensures { (k : Known) → KeepsSends k sends.now → OnOk result (ChangesAt (length txns.old.items) (txn_told answer.now (replies_to k.sent_now heard_now.now)) txns.old.items txns.new.items) }
{
    if let Some(place) = txns.as_slice().len().checked_sub(1)
        && let Some(txn) = txns.get_mut(place)
    {
        txn.tell(answer, sends, heard_now)?;
    }
    Ok(())
}
