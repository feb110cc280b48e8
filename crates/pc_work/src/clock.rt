ghost use Rattle.std.specs.Prelude.{◌≡◌};
ghost use Rattle.serde_json.specs.View.{view};
ghost use Rattle.pc_work.specs.Reading.{Gives};
ghost use Rattle.pc_work.specs.Clock.{clock_of};
ghost use Rattle.pc_work.specs.Members.{member_if, whole_in};
ghost use Rattle.pc_work.specs.RefusedActor.{clock_refusal};

use crate::fault::Misfit;
use crate::json::has_only;
use crate::judge::Judged;
use crate::refusal::{OTHER_FORM, unless};
use serde_json::Value as Json;

/// A clock that a workload states: reading i, from 0, is `start + i * step`, held at `2^64 - 1`.
#[derive(Clone, Copy, Debug, PartialEq, Eq)]
pub struct ClockWork {
    /// Nanoseconds since 1970.
    pub start: u64,
    pub step: u64,
}

#[tactic(auto, unfolding(crate::specs::Clock::clock_of))]
fn clock_in(json: &Json) -> Option<ClockWork>
    ensures { result ≡ clock_of (view json.now) }
{
    if !has_only(json, &["start", "step"]) {
        return None;
    }
    let start = whole_in(json, "start")?;
    let step = whole_in(json, "step")?;
    Some(ClockWork { start, step })
}

/// The whole number in the member of this name.
pub(crate) fn whole_in(json: &Json, name: &str) -> Option<u64>
    ensures { result ≡ whole_in name.now (view json.now) }
{
    json.get(name)?.as_u64()
}

impl Judged for ClockWork {
    ghost refusal_in = { clock_refusal };

    fn refusal(json: &Json) -> Option<u8> {
        unless(clock_in(json).is_some(), OTHER_FORM)
    }
}

/// The clock in the member of this name, where it is there.
pub(crate) fn clock_if(json: &Json, name: &str) -> Result<Option<ClockWork>, Misfit>
    ensures { Gives result (member_if clock_of name.now (view json.now)) }
{
    match json.get(name) {
        Some(stated) => Ok(Some(clock_in(stated).ok_or(Misfit::OtherForm)?)),
        None => Ok(None),
    }
}
