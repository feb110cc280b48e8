ghost use Rattle.std.specs.Prelude.{◌≡◌, true};
ghost use Rattle.serde_json.specs.View.{view};
ghost use Rattle.pc_work.specs.Reading.{Gives};
ghost use Rattle.pc_work.specs.Members.{member_or};
ghost use Rattle.pc_work.specs.Ending.{commits_in, commits_of};
ghost use Rattle.pc_work.specs.RefusedItem.{ending_refusal};

use crate::fault::Misfit;
use crate::judge::Judged;
use crate::refusal::{OTHER_FORM, unless};
use serde_json::Value as Json;

/// Whether a transaction says that it commits; where it says nothing, it commits.
pub(crate) fn commits_or_true(json: &Json, name: &str) -> Result<bool, Misfit>
    ensures { Gives result (member_or true commits_of name.now (view json.now)) }
{
    match json.get(name) {
        Some(stated) => commits_of(stated),
        None => Ok(true),
    }
}

fn commits_of(json: &Json) -> Result<bool, Misfit>
    ensures { Gives result (commits_of (view json.now)) }
{
    commits_if(json).ok_or(Misfit::OtherForm)
}

fn commits_if(json: &Json) -> Option<bool>
    ensures { result ≡ commits_of (view json.now) }
{
    commits_in(json.as_str()?)
}

/// How a transaction ends.
#[derive(Drop)]
pub(crate) struct Ending;

impl Judged for Ending {
    ghost refusal_in = { ending_refusal };

    fn refusal(json: &Json) -> Option<u8> {
        unless(commits_if(json).is_some(), OTHER_FORM)
    }
}

#[tactic(auto, unfolding(crate::specs::Ending::commits_in))]
fn commits_in(text: &str) -> Option<bool>
    ensures { result ≡ commits_in text.now }
{
    match text {
        "commit" => Some(true),
        "rollback" => Some(false),
        _ => None,
    }
}
