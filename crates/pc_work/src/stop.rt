ghost use Rattle.serde_json.specs.View.{view};
ghost use Rattle.pc_work.specs.Members.{member_if};
ghost use Rattle.pc_work.specs.Reading.{Gives};
ghost use Rattle.pc_work.specs.Stop.{stop_of};

use crate::fault::Misfit;
use crate::json::whole_between;
use pc_base::limits::MOST_ENTRIES;
use serde_json::Value as Json;

/// The stop in the member of this name, where it is there.
pub(crate) fn stop_if(json: &Json, name: &str) -> Result<Option<u64>, Misfit>
    ensures { Gives result (member_if stop_of name.now (view json.now)) }
{
    match json.get(name) {
        Some(stated) => Ok(Some(whole_between(stated, 1, MOST_ENTRIES)?)),
        None => Ok(None),
    }
}
