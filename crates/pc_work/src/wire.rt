ghost use Rattle.std.specs.Prelude.{◌≡◌};
ghost use Rattle.serde_json.specs.Find.{as_str};
ghost use Rattle.serde_json.specs.View.{view};
ghost use Rattle.pc_work.specs.Refusal.{in_member, number_refusal};
ghost use Rattle.pc_work.specs.RefusedWire.{names_verdict, verdict_refusal, verdicts_refusal, wire_refusal};
ghost use Rattle.pc_work.specs.declared.limits.TheConstants.{MOST_SENDS};

use crate::json::has_only;
use crate::judge::{Judged, in_member, number_refusal};
use crate::limits::MOST_SENDS;
use crate::refusal::{NOT_BUILT, OTHER_FORM, least};
use pc_base::Items;
use serde_json::Value as Json;

/// What becomes of the messages of a session or a recoverer. It is judged and not kept, since none is accepted yet.
#[derive(Drop)]
pub(crate) struct Wire;

/// What becomes of one message.
#[derive(Drop)]
pub(crate) struct Verdict;

/// For how many sends a message is held or repeated, or after how many a verdict comes again.
#[derive(Drop)]
pub(crate) struct Sends;

impl Judged for Wire {
    ghost refusal_in = { wire_refusal };

    fn refusal(json: &Json) -> Option<u8> {
        least(verdicts_refusal(json), Some(NOT_BUILT))
    }
}

#[tactic(auto, unfolding(crate::specs::RefusedWire::verdicts_refusal))]
fn verdicts_refusal(json: &Json) -> Option<u8>
    ensures { result ≡ verdicts_refusal (view json.now) }
{
    if has_only(json, &["list"]) {
        in_member::<Items<Verdict>>(json, "list")
    } else if has_only(json, &["period", "verdict"]) {
        let period = in_member::<Sends>(json, "period");
        least(period, in_member::<Verdict>(json, "verdict"))
    } else {
        Some(OTHER_FORM)
    }
}

impl Judged for Verdict {
    ghost refusal_in = { verdict_refusal };

    #[tactic(auto, unfolding(crate::specs::RefusedWire::verdict_refusal))]
    fn refusal(json: &Json) -> Option<u8> {
        if names_verdict(json) {
            None
        } else if has_only(json, &["repeat"]) {
            in_member::<Sends>(json, "repeat")
        } else if has_only(json, &["hold"]) {
            in_member::<Sends>(json, "hold")
        } else {
            Some(OTHER_FORM)
        }
    }
}

/// Whether it is the text of a verdict that has no number.
fn names_verdict(json: &Json) -> bool
    ensures { result ≡ names_verdict (as_str (view json.now)) }
{
    match json.as_str() {
        Some(text) => text == "deliver" || text == "lose_request" || text == "lose_reply",
        None => false,
    }
}

impl Judged for Sends {
    ghost refusal_in = { number_refusal 1 MOST_SENDS };

    fn refusal(json: &Json) -> Option<u8> {
        number_refusal(json, 1, u64::from(MOST_SENDS))
    }
}
