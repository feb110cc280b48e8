ghost use Rattle.std.specs.Prelude.{◌≡◌};
ghost use Rattle.pc_proto.specs.Stamps.{greatest_of, view_stamps};
ghost use Rattle.pc_proto.specs.Views.{fate_after, final_fate};

use crate::fate::{Fate, Goal};
use crate::request::{Keys, Writes};
use crate::why::Why;
use pc_base::{NoMemory, Timestamp, TryCopy};

/// What a range tells of a transaction's record or mark.
#[derive(Debug, PartialEq, Eq, Drop)]
pub enum View {
    /// There is neither.
    Nothing,
    Pending {
        epoch: u32,
        ts: Timestamp,
    },
    /// It is committed as soon as each of these writes stands at or below the staged timestamp.
    Staging {
        epoch: u32,
        ts: Timestamp,
        writes: Writes,
    },
    Committed {
        epoch: u32,
        ts: Timestamp,
        locks: Keys,
    },
    Aborted {
        epoch: u32,
        why: Why,
        locks: Keys,
    },
}

impl View {
    /// The fate that a final view shows.
    pub fn fate(&self) -> Option<Fate>
        ensures { result ≡ final_fate self.now }
    {
        match self {
            View::Committed { epoch, ts, .. } => Some(Fate::Committed {
                epoch: *epoch,
                ts: *ts,
            }),
            View::Aborted { .. } => Some(Fate::Aborted),
            View::Nothing | View::Pending { .. } | View::Staging { .. } => None,
        }
    }

    /// The fate of an intent after a push that showed this view: that of a final one, or the move that the push asked for.
    pub fn fate_after(&self, goal: Goal) -> Option<Fate>
        ensures { result ≡ fate_after goal self.now }
    {
        match (self.fate(), goal) {
            (Some(fate), _) => Some(fate),
            (None, Goal::Move(ts)) => Some(Fate::Pending { ts }),
            (None, Goal::Abort) => None,
        }
    }

    /// The greatest timestamp in the view, zero where there is none.
    pub fn last_stamp(&self) -> Timestamp
        ensures { result ≡ greatest_of (view_stamps self.now) }
    {
        match self {
            View::Pending { ts, .. } | View::Staging { ts, .. } | View::Committed { ts, .. } => *ts,
            View::Aborted {
                why: Why::Refresh { ts, .. },
                ..
            } => *ts,
            View::Aborted { .. } | View::Nothing => Timestamp::ZERO,
        }
    }
}

impl TryCopy for View {
    fn copy(&self) -> Result<View, NoMemory> {
        match self {
            View::Nothing => Ok(View::Nothing),
            View::Pending { epoch, ts } => Ok(View::Pending {
                epoch: *epoch,
                ts: *ts,
            }),
            View::Staging { epoch, ts, writes } => Ok(View::Staging {
                epoch: *epoch,
                ts: *ts,
                writes: writes.copy()?,
            }),
            View::Committed { epoch, ts, locks } => Ok(View::Committed {
                epoch: *epoch,
                ts: *ts,
                locks: locks.copy()?,
            }),
            View::Aborted { epoch, why, locks } => {
                let why = why.copy()?;
                let locks = locks.copy()?;
                Ok(View::Aborted {
                    epoch: *epoch,
                    why,
                    locks,
                })
            }
        }
    }
}
