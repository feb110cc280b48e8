ghost use Rattle.std.specs.Prelude.{◌≡◌, IfOk, MatchOption, OnOk, OnErr, max};
ghost use Rattle.std.specs.Option.{option_copied};
ghost use Rattle.pc_base.specs.Keyed.{at};
ghost use Rattle.pc_base.specs.Transaction.{same_txn};
ghost use Rattle.pc_proto.specs.Place.{Become, Finish, after, view_of};
ghost use Rattle.pc_proto.specs.RecordRows.Records.{listed_metas};
ghost use Rattle.pc_proto.specs.Table.{applied_to, empty_table, place_of};
ghost use Rattle.pc_record.specs.RecordOf.{becoming};

use crate::place::{Place, record_view};
use crate::records::listed;
use pc_base::{NoMemory, TxnId};
use pc_proto::{Metas, Record, Reply, Status, View};
use std::alloc::Global;
use std::collections::BTreeMap;
use std::marker::Model;

/// The records and marks of a range, by transaction.
#[derive(Debug, Drop)]
pub struct RecordTable {
    alloc: Global,
    records: BTreeMap<TxnId, Record>,
    marks: BTreeMap<TxnId, Status>,
}

impl Model for RecordTable {
    ghost use Rattle.std.specs.List.Sorted.{IsStrictlySortedBy};
    ghost use Rattle.std.specs.Map.{keys_of};
    ghost use Rattle.pc_base.specs.Transaction.{txn_cmp};
    ghost use Rattle.pc_proto.specs.Table.{Table as table};

    ghost Value = { table };

    ghost view = { λ t. record { records = t.records.entries; marks = t.marks.entries } };

    ghost invariant = { λ t. IsStrictlySortedBy txn_cmp (keys_of t.records.entries) };
}

impl RecordTable {
    /// A range of which no transaction has a record.
    pub fn new(alloc: Global) -> RecordTable
        ensures { result ≡ empty_table }
    {
        RecordTable {
            alloc,
            records: BTreeMap::new(alloc),
            marks: BTreeMap::new(alloc),
        }
    }

    /// What the range tells of a transaction.
    pub fn status(&self, id: TxnId) -> Result<View, NoMemory>
        ensures { IfOk result (λ made. made ≡ view_of (place_of id self.now)) }
    {
        self.place(id).view(self.alloc())
    }

    pub(crate) fn alloc(&self) -> Global {
        self.alloc
    }

    /// The transaction's record.
    pub fn record(&self, id: TxnId) -> Option<&Record>
        ensures { option_copied result ≡ at same_txn id self.now.records }
    {
        self.records.get(&id)
    }

    /// The mark that the transaction's removed record left.
    pub fn mark(&self, id: TxnId) -> Option<&Status>
        ensures { option_copied result ≡ at same_txn id self.now.marks }
    {
        self.marks.get(&id)
    }

    /// What the range has of a transaction.
    pub(crate) fn place(&self, id: TxnId) -> Place<'_>
        ensures { result ≡ place_of id self.now }
    {
        Place::new(self.record(id), self.mark(id))
    }

    /// Writes a transaction's record, where there is one to write, and tells what stands there then.
    pub(crate) fn write(&mut self, id: TxnId, written: Option<Record>) -> Result<Reply, NoMemory>
        ensures reply { IfOk result (λ made. made ≡ Reply.Status (view_of (after (place_of id self.old) (becoming written)))) }
        ensures after { OnOk result (self.new ≡ applied_to id (becoming written) self.old) }
        ensures err { OnErr result (self.new ≡ self.old) }
    {
        let view = match &written {
            Some(record) => record_view(record)?,
            None => self.status(id)?,
        };
        if let Some(record) = written {
            self.put(id, record)?;
        }
        Ok(Reply::Status(view))
    }

    /// Writes a transaction's record in the place of the one that it has.
    fn put(&mut self, id: TxnId, kept: Record) -> Result<(), NoMemory>
        ensures ok { OnOk result (self.new ≡ applied_to id (Become kept) self.old) }
        ensures err { OnErr result (self.new ≡ self.old) }
    {
        self.records.insert(id, kept)?;
        Ok(())
    }

    /// The transaction was active at this reading, as its record says from now on, where it has one.
    pub(crate) fn stay_active(&mut self, id: TxnId, now: u64)
        ensures { MatchOption (at same_txn id self.old.records) (self.new ≡ self.old) (λ kept. self.new ≡ applied_to id (Become (record kept { activity = max kept.activity now })) self.old) }
    {
        let Some(record) = self.records.get_mut(&id) else {
            return;
        };
        record.activity = record.activity.max(now);
    }

    /// Puts a transaction's mark in the place of its record.
    pub(crate) fn finish(&mut self, id: TxnId, status: Status) -> Result<(), NoMemory>
        ensures ok { OnOk result (self.new ≡ applied_to id (Finish status) self.old) }
        ensures err { OnErr result (self.new ≡ self.old) }
    {
        self.marks.insert(id, status)?;
        self.records.remove(&id);
        Ok(())
    }

    /// The metas of the records, by transaction.
    pub(crate) fn list(&self) -> Result<Metas, NoMemory>
        ensures { IfOk result (λ made. made ≡ listed_metas self.now.records) }
    {
        listed(self.alloc, &self.records)
    }
}
