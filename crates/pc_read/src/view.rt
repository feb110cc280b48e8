ghost use Rattle.std.specs.Prelude.{◌≡◌, IfOk, IsSome, Some};
ghost use Rattle.pc_read.specs.Given.{StandsFor};
ghost use Rattle.pc_read.specs.Lines.{own_finding, own_view};
ghost use Rattle.pc_spelling.specs.ReadingLines.{fate_at, finding_at, goal_at, view_at};

use crate::cut::{cut, is, word_of};
use crate::list::{keys, owned_keys, owned_writes, writes};
use crate::name::who;
use crate::number::{number32, timestamp};
use crate::part::{WhyRef, why};
use crate::text::{key, owned_key};
use pc_base::{NoMemory, Timestamp, Who};
use pc_proto::{Fate, Finding, Goal, View};
use std::alloc::Global;

/// What a range shows of a transaction, its lists as they stand in the input.
#[derive(Clone, Copy, Debug)]
pub enum ViewRef<'a> {
    Nothing,
    Pending {
        epoch: u32,
        ts: Timestamp,
    },
    Staging {
        epoch: u32,
        ts: Timestamp,
        writes: &'a [u8],
    },
    Committed {
        epoch: u32,
        ts: Timestamp,
        locks: &'a [u8],
    },
    Aborted {
        epoch: u32,
        why: WhyRef<'a>,
        locks: &'a [u8],
    },
}

/// What a recovery found, the key as it stands in the input.
#[derive(Clone, Copy, Debug)]
pub enum FindingRef<'a> {
    All,
    Missing { key: &'a [u8], by: Who },
}

#[tactic(auto, unfolding(pc_spelling::specs::ReadingLines::view_at))]
pub fn view(bytes: &[u8]) -> Option<ViewRef<'_>>
    ensures { StandsFor own_view result (view_at bytes.now) }
{
    let (word, rest) = word_of(b' ', bytes);
    let Some(rest) = rest else {
        return if is(word, b"none") {
            Some(ViewRef::Nothing)
        } else {
            None
        };
    };
    let (epoch, rest) = cut(b' ', rest)?;
    let epoch = number32(epoch)?;
    if is(word, b"pending") {
        let ts = timestamp(rest)?;
        return Some(ViewRef::Pending { epoch, ts });
    }
    let (second, last) = cut(b' ', rest)?;
    if is(word, b"staging") {
        let ts = timestamp(second)?;
        let writes = writes(last)?;
        Some(ViewRef::Staging { epoch, ts, writes })
    } else if is(word, b"committed") {
        let ts = timestamp(second)?;
        let locks = keys(last)?;
        Some(ViewRef::Committed { epoch, ts, locks })
    } else if is(word, b"aborted") {
        let Some(why) = why(second) else {
            return None;
        };
        let locks = keys(last)?;
        Some(ViewRef::Aborted { epoch, why, locks })
    } else {
        None
    }
}

#[tactic(auto, unfolding(pc_spelling::specs::ReadingLines::goal_at))]
pub fn goal(bytes: &[u8]) -> Option<Goal>
    ensures { result ≡ goal_at bytes.now }
{
    match word_of(b' ', bytes) {
        (word, None) if is(word, b"abort") => Some(Goal::Abort),
        (word, Some(rest)) if is(word, b"move") => Some(Goal::Move(timestamp(rest)?)),
        _ => None,
    }
}

#[tactic(auto, unfolding(pc_spelling::specs::ReadingLines::finding_at))]
pub fn finding(bytes: &[u8]) -> Option<FindingRef<'_>>
    ensures { StandsFor own_finding result (finding_at bytes.now) }
{
    match word_of(b' ', bytes) {
        (word, None) if is(word, b"found") => Some(FindingRef::All),
        (word, Some(rest)) if is(word, b"missing") => {
            let (named, by) = cut(b' ', rest)?;
            let key = key(named)?;
            let by = who(by)?;
            Some(FindingRef::Missing { key, by })
        }
        _ => None,
    }
}

#[tactic(auto, unfolding(pc_spelling::specs::ReadingLines::fate_at))]
pub fn fate(bytes: &[u8]) -> Option<Fate>
    ensures { result ≡ fate_at bytes.now }
{
    match word_of(b' ', bytes) {
        (word, None) if is(word, b"aborted") => Some(Fate::Aborted),
        (word, Some(rest)) if is(word, b"pending") => {
            let ts = timestamp(rest)?;
            Some(Fate::Pending { ts })
        }
        (word, Some(rest)) if is(word, b"committed") => {
            let (epoch, ts) = cut(b' ', rest)?;
            let epoch = number32(epoch)?;
            let ts = timestamp(ts)?;
            Some(Fate::Committed { epoch, ts })
        }
        _ => None,
    }
}

impl<'a> ViewRef<'a> {
    /// The view in memory of its own.
    pub fn view(&self, alloc: Global) -> Result<View, NoMemory>
        requires { IsSome (own_view self.now) }
        ensures { IfOk result (λ made. own_view self.now ≡ Some made) }
    {
        match self {
            ViewRef::Nothing => Ok(View::Nothing),
            ViewRef::Pending { epoch, ts } => Ok(View::Pending {
                epoch: *epoch,
                ts: *ts,
            }),
            ViewRef::Staging { epoch, ts, writes } => Ok(View::Staging {
                epoch: *epoch,
                ts: *ts,
                writes: owned_writes(alloc, writes)?,
            }),
            ViewRef::Committed { epoch, ts, locks } => Ok(View::Committed {
                epoch: *epoch,
                ts: *ts,
                locks: owned_keys(alloc, locks)?,
            }),
            ViewRef::Aborted { epoch, why, locks } => {
                let why = why.why(alloc)?;
                let locks = owned_keys(alloc, locks)?;
                Ok(View::Aborted {
                    epoch: *epoch,
                    why,
                    locks,
                })
            }
        }
    }
}

impl<'a> FindingRef<'a> {
    /// The finding in memory of its own.
    pub fn finding(&self, alloc: Global) -> Result<Finding, NoMemory>
        requires { IsSome (own_finding self.now) }
        ensures { IfOk result (λ made. own_finding self.now ≡ Some made) }
    {
        match self {
            FindingRef::All => Ok(Finding::All),
            FindingRef::Missing { key, by } => Ok(Finding::Missing {
                key: owned_key(alloc, key)?,
                by: *by,
            }),
        }
    }
}
