ghost use Rattle.std.specs.Prelude.{◌≡◌};
ghost use Rattle.serde_json.specs.View.{view};
ghost use Rattle.pc_work.specs.Number.{number_in};
ghost use Rattle.pc_work.specs.RefusedWork.{turn_refusal};
ghost use Rattle.pc_work.specs.Turn.{is_turn_there, turn_in, turn_of};

use crate::fault::Misfit;
use crate::json::FromJson;
use crate::judge::Judged;
use crate::number::is_number;
use crate::refusal::{OTHER_FORM, unless};
use pc_base::Items;
use serde_json::Value as Json;
use std::alloc::Global;

/// Whose turn it is, by number from 1.
#[derive(Clone, Copy, Debug, PartialEq, Eq)]
pub enum Turn {
    /// A session, which goes on with its script.
    Session(u32),
    /// The finishing job of a session.
    Job(u32),
    /// One round of a recoverer.
    Recoverer(u32),
}

/// Turns in order.
pub type Turns = Items<Turn>;

impl Turn {
    /// Whether it is the turn of one that is there, among so many sessions and recoverers.
    pub(crate) fn is_there(self, sessions: usize, recoverers: usize) -> bool
        ensures { result ≡ is_turn_there sessions recoverers self }
    {
        match self {
            Turn::Session(number) | Turn::Job(number) => number >= 1 && number as usize <= sessions,
            Turn::Recoverer(number) => number >= 1 && number as usize <= recoverers,
        }
    }
}

impl FromJson for Turn {
    ghost found_in = { turn_of };

    fn from_json(_alloc: Global, json: &Json) -> Result<Turn, Misfit> {
        turn_of(json).ok_or(Misfit::OtherForm)
    }
}

impl Judged for Turn {
    ghost refusal_in = { turn_refusal };

    fn refusal(json: &Json) -> Option<u8> {
        unless(turn_of(json).is_some(), OTHER_FORM)
    }
}

#[tactic(auto, unfolding(crate::specs::Turn::turn_of))]
fn turn_of(json: &Json) -> Option<Turn>
    ensures { result ≡ turn_of (view json.now) }
{
    turn_in(json.as_str()?)
}

fn turn_in(text: &str) -> Option<Turn>
    ensures { result ≡ turn_in text.now }
{
    if let Some(digits) = text.strip_prefix('s') {
        Some(Turn::Session(number_in(digits)?))
    } else if let Some(digits) = text.strip_prefix('b') {
        Some(Turn::Job(number_in(digits)?))
    } else {
        let digits = text.strip_prefix('v')?;
        Some(Turn::Recoverer(number_in(digits)?))
    }
}

/// The number that a text spells. No actor has the greatest number of 32 bits, so greater ones count as that.
#[tactic(auto, unfolding(crate::specs::Number::number_in))]
fn number_in(text: &str) -> Option<u32>
    ensures { result ≡ number_in text.now }
{
    if !is_number(text.as_bytes()) {
        return None;
    }
    Some(text.parse().unwrap_or(u32::MAX))
}
