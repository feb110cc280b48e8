ghost use Rattle.std.specs.Prelude.{◌≡◌, ◌&&◌, ◌==◌, IfOk};
ghost use Rattle.std.specs.Option.{option_copied};
ghost use Rattle.pc_proto.specs.Place.{Kept, Marked, is_decided, is_final, view_of};
ghost use Rattle.pc_proto.specs.Table.{record_or_mark};
ghost use Rattle.pc_proto.specs.RecordRows.Reached.{activity_of, alive_at, epoch_from, is_reached, is_staged_at, is_staging, ts_of};
ghost use Rattle.pc_proto.specs.RecordRows.Push.{is_staged, reaches_goal};
ghost use Rattle.pc_record.specs.RecordOf.{record_of};

use pc_base::{Items, NoMemory, Timestamp, TryCopy};
use pc_proto::{Goal, Record, Standing, Status, View};
use std::alloc::Global;
use std::marker::Model;

/// What a range has of one transaction: its record, else its mark, else nothing.
#[derive(Drop)]
pub(crate) struct Place<'a> {
    record: Option<&'a Record>,
    mark: Option<&'a Status>,
}

impl<'a> Model for Place<'a> {
    ghost use Rattle.std.specs.Option.{option_copied};
    ghost use Rattle.pc_proto.specs.Place.{Place as place};
    ghost use Rattle.pc_proto.specs.Table.{record_or_mark};

    ghost Value = { place };

    ghost view = { λ p. record_or_mark (option_copied p.record) (option_copied p.mark) };
}

impl<'a> Place<'a> {
    pub(crate) fn new(kept: Option<&'a Record>, mark: Option<&'a Status>) -> Place<'a>
        ensures { result ≡ record_or_mark (option_copied kept.entry) (option_copied mark.entry) }
    {
        Place { record: kept, mark }
    }

    /// The record that stands there.
    pub(crate) fn record(&self) -> Option<&'a Record>
        ensures { option_copied result ≡ record_of self.now }
    {
        self.record
    }

    /// Whether it is a mark, or a final record.
    pub(crate) fn is_decided(&self) -> bool
        ensures { result ≡ is_decided self.now }
    {
        match self.record {
            Some(record) => is_final(&record.status.standing),
            None => self.mark.is_some(),
        }
    }

    /// Whether a record stands at or below this epoch and timestamp, or there is nothing.
    pub(crate) fn is_reached(&self, epoch: u32, ts: Timestamp) -> bool
        ensures { result ≡ is_reached self.now epoch ts }
    {
        match self.record {
            Some(record) => record.status.epoch <= epoch && record.status.ts <= ts,
            None => self.mark.is_none(),
        }
    }

    /// The last reading at which the transaction was known alive; with no record, the one given.
    pub(crate) fn activity_or(&self, born: u64) -> u64
        ensures { result ≡ activity_of self.now born }
    {
        self.record.map_or(born, |record| record.activity)
    }

    /// The record's activity and this reading, the greater.
    pub(crate) fn alive_at(&self, now: u64) -> u64
        ensures { result ≡ alive_at self.now now }
    {
        self.record.map_or(now, |record| record.activity.max(now))
    }

    /// The record's epoch and this one, the greater.
    pub(crate) fn epoch_from(&self, epoch: u32) -> u32
        ensures { result ≡ epoch_from self.now epoch }
    {
        self.record
            .map_or(epoch, |record| record.status.epoch.max(epoch))
    }

    /// The record's timestamp, or none at all.
    pub(crate) fn ts(&self) -> Timestamp
        ensures { result ≡ ts_of self.now }
    {
        self.record
            .map_or(Timestamp::ZERO, |record| record.status.ts)
    }

    /// Whether a record stands at this timestamp or above it.
    pub(crate) fn is_kept_at(&self, ts: Timestamp) -> bool
        ensures { result ≡ reaches_goal (Goal.Move ts) self.now }
    {
        self.record.is_some_and(|record| ts <= record.status.ts)
    }

    /// Whether it is a staging record.
    pub(crate) fn is_staged(&self) -> bool
        ensures { result ≡ is_staged self.now }
    {
        self.record
            .is_some_and(|record| is_staging(&record.status.standing))
    }

    /// Whether it is a staging record of just this epoch and timestamp.
    pub(crate) fn is_staged_at(&self, epoch: u32, ts: Timestamp) -> bool
        ensures { result ≡ is_staged_at self.now epoch ts }
    {
        self.record
            .is_some_and(|record| is_staged_at(&record.status, epoch, ts))
    }

    /// How the place is told.
    pub(crate) fn view(&self, alloc: Global) -> Result<View, NoMemory>
        ensures { IfOk result (λ made. made ≡ view_of self.now) }
    {
        match (self.record, self.mark) {
            (Some(record), _) => record_view(record),
            (None, Some(mark)) => mark_view(alloc, mark),
            (None, None) => Ok(View::Nothing),
        }
    }
}

fn is_final(standing: &Standing) -> bool
    ensures { result ≡ is_final standing.now }
{
    matches!(standing, Standing::Committed | Standing::Aborted(_))
}

fn is_staging(standing: &Standing) -> bool
    ensures { result ≡ is_staging standing.now }
{
    matches!(standing, Standing::Staging)
}

fn is_staged_at(status: &Status, epoch: u32, ts: Timestamp) -> bool
    ensures { result ≡ (is_staging status.now.standing && (status.now.epoch == epoch && status.now.ts == ts)) }
{
    is_staging(&status.standing) && status.epoch == epoch && status.ts == ts
}

/// How a record is told.
pub(crate) fn record_view(kept: &Record) -> Result<View, NoMemory>
    ensures { IfOk result (λ made. made ≡ view_of (Kept kept.now)) }
{
    let Status {
        standing,
        epoch,
        ts,
    } = &kept.status;
    let (epoch, ts) = (*epoch, *ts);
    match standing {
        Standing::Pending => Ok(View::Pending { epoch, ts }),
        Standing::Staging => Ok(View::Staging {
            epoch,
            ts,
            writes: kept.writes.copy()?,
        }),
        Standing::Committed => Ok(View::Committed {
            epoch,
            ts,
            locks: kept.locks.copy()?,
        }),
        Standing::Aborted(why) => {
            let why = why.copy()?;
            let locks = kept.locks.copy()?;
            Ok(View::Aborted { epoch, why, locks })
        }
    }
}

fn mark_view(alloc: Global, mark: &Status) -> Result<View, NoMemory>
    ensures { IfOk result (λ made. made ≡ view_of (Marked mark.now)) }
{
    let Status {
        standing,
        epoch,
        ts,
    } = mark;
    let (epoch, ts) = (*epoch, *ts);
    match standing {
        Standing::Pending => Ok(View::Pending { epoch, ts }),
        Standing::Staging => Ok(View::Staging {
            epoch,
            ts,
            writes: Items::new(alloc),
        }),
        Standing::Committed => Ok(View::Committed {
            epoch,
            ts,
            locks: Items::new(alloc),
        }),
        Standing::Aborted(why) => Ok(View::Aborted {
            epoch,
            why: why.copy()?,
            locks: Items::new(alloc),
        }),
    }
}
