ghost use Rattle.std.specs.Prelude.{◌≡◌};
ghost use Rattle.serde_json.specs.View.{view};
ghost use Rattle.pc_work.specs.Reading.{Gives};
ghost use Rattle.pc_work.specs.Members.{member_or};
ghost use Rattle.pc_work.specs.Priority.{priority_in, priority_of};
ghost use Rattle.pc_work.specs.RefusedItem.{priority_refusal};

use crate::fault::Misfit;
use crate::judge::Judged;
use crate::refusal::{OTHER_FORM, unless};
use pc_base::Priority;
use serde_json::Value as Json;

/// The priority that a transaction states; normal where it states none.
pub(crate) fn priority_or_normal(json: &Json, name: &str) -> Result<Priority, Misfit>
    ensures { Gives result (member_or Priority.Normal priority_of name.now (view json.now)) }
{
    match json.get(name) {
        Some(stated) => priority_of(stated),
        None => Ok(Priority::Normal),
    }
}

fn priority_of(json: &Json) -> Result<Priority, Misfit>
    ensures { Gives result (priority_of (view json.now)) }
{
    priority_if(json).ok_or(Misfit::OtherForm)
}

fn priority_if(json: &Json) -> Option<Priority>
    ensures { result ≡ priority_of (view json.now) }
{
    priority_in(json.as_str()?)
}

impl Judged for Priority {
    ghost refusal_in = { priority_refusal };

    fn refusal(json: &Json) -> Option<u8> {
        unless(priority_if(json).is_some(), OTHER_FORM)
    }
}

#[tactic(auto, unfolding(crate::specs::Priority::priority_in))]
fn priority_in(text: &str) -> Option<Priority>
    ensures { result ≡ priority_in text.now }
{
    match text {
        "low" => Some(Priority::Low),
        "normal" => Some(Priority::Normal),
        "high" => Some(Priority::High),
        _ => None,
    }
}
