//! Scan: reads the keys of a span. It closes the same race as a get, for every key of the span, also those that nobody has
//! written yet: the read bound keeps later writes above the read's timestamp.

ghost use Rattle.std.specs.Prelude.{◌≡◌, IfOk, OnOk, OnErr, ◌++◌};
ghost use Rattle.std.specs.List.{filter_map};
ghost use Rattle.std.specs.Option.{option_to_list};
ghost use Rattle.pc_eval.specs.RowOf.{row_of};
ghost use Rattle.pc_mvcc.specs.VisibleIn.{visible_in};
ghost use Rattle.pc_world.specs.Evaluation.{reply, state_after};
ghost use Rattle.pc_world.specs.Evaluation.Scan.{keys_in, row_found, rows_in};

use crate::state::RangeState;
use pc_base::{Items, Key, NoMemory, Span, Timestamp, TryCopy, TxnId, Value, Version};
use pc_intent::conflict;
use pc_proto::{Origin, Reply, Request, Rows};
use std::collections::BTreeSet;

impl RangeState {
    pub(crate) fn scan(
        &mut self,
        id: TxnId,
        epoch: u32,
        seq: u32,
        ts: Timestamp,
        span: &Span,
    ) -> Result<Reply, NoMemory>
        ensures reply { IfOk result (λ made. made ≡ reply (Request.Scan id epoch seq ts span.now) self.old) }
        ensures after { OnOk result (self.new ≡ state_after (Request.Scan id epoch seq ts span.now) self.old) }
        ensures err { OnErr result (self.new ≡ self.old) }
    {
        if let Some((key, other)) = self.intents.first_other(span, ts, id) {
            return conflict(other, key);
        }
        let rows = self.rows_in(id, epoch, seq, ts, span)?;
        self.bound.raise(ts, Some(id));
        Ok(Reply::Rows(rows))
    }

    /// The rows that the scan finds.
    fn rows_in(
        &self,
        id: TxnId,
        epoch: u32,
        seq: u32,
        ts: Timestamp,
        span: &Span,
    ) -> Result<Rows, NoMemory>
        ensures { IfOk result (λ made. made ≡ rows_in id epoch seq ts span.now self.now) }
    {
        if self.intents.any_in(span) {
            self.rows_at_keys(id, epoch, seq, ts, span)
        } else {
            self.rows_of_versions(ts, span)
        }
    }

    /// The rows of the versions that the scan sees.
    fn rows_of_versions(&self, ts: Timestamp, span: &Span) -> Result<Rows, NoMemory>
        ensures { IfOk result (λ made. made ≡ filter_map row_of (visible_in span.now ts self.now.versions)) }
    {
        let seen = self.versions.visible_in(span, ts)?;
        let mut rows = Items::new(self.alloc);
        for version in &seen {
            add_version(&mut rows, version)?;
        }
        Ok(rows)
    }

    /// The rows that a get would find at each key, its own writes among them.
    #[tactic(auto, using(crate::proofs::KeysAndRows::rows_more))]
    fn rows_at_keys(
        &self,
        id: TxnId,
        epoch: u32,
        seq: u32,
        ts: Timestamp,
        span: &Span,
    ) -> Result<Rows, NoMemory>
        ensures { IfOk result (λ made. made ≡ rows_in id epoch seq ts span.now self.now) }
    {
        let mut rows = Items::new(self.alloc);
        for key in self.keys_in(span)? {
            let found = self.found_at(id, epoch, seq, ts, &key)?;
            add_row(&mut rows, key, found)?;
        }
        Ok(rows)
    }

    /// The keys of the span at which the range has a version or an intent.
    fn keys_in(&self, span: &Span) -> Result<BTreeSet<Key>, NoMemory>
        ensures { IfOk result (λ made. made.keys ≡ keys_in span.now self.now) }
    {
        let mut keys = BTreeSet::new(self.alloc);
        self.versions.add_keys(span, &mut keys)?;
        self.intents.add_keys(span, &mut keys)?;
        Ok(keys)
    }
}

/// Adds the row of a key, where a value was found.
fn add_row(rows: &mut Rows, key: Key, found: (Origin, Option<Value>)) -> Result<(), NoMemory>
    ensures { OnOk result (rows.new ≡ rows.old ++ option_to_list (row_found key found)) }
{
    let (origin, value) = found;
    if let Some(value) = value {
        rows.add((key, origin, value))?;
    }
    Ok(())
}

/// Adds the row of a version, where it has a value.
fn add_version(rows: &mut Rows, version: &Version) -> Result<(), NoMemory>
    ensures { OnOk result (rows.new ≡ rows.old ++ option_to_list (row_of version.now)) }
{
    if let Some(value) = &version.value {
        let key = version.key.copy()?;
        rows.add((key, Origin::At(version.ts), value.copy()?))?;
    }
    Ok(())
}
