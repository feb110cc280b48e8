ghost use Rattle.std.specs.Prelude.{◌≡◌, []};
ghost use Rattle.serde_json.specs.View.{view};
ghost use Rattle.pc_work.specs.Reading.{Gives};
ghost use Rattle.pc_work.specs.Members.{member_or};
ghost use Rattle.pc_base.specs.Rising.{keys_rise};
ghost use Rattle.pc_work.specs.Splits.{splits_of};

use crate::fault::Misfit;
use crate::json::list;
use pc_base::limits::MOST_SPLITS;
use pc_base::{Items, Key};
use pc_proto::Keys;
use serde_json::Value as Json;
use std::alloc::Global;

/// The splits that a workload states; none where it states none.
pub(crate) fn splits_or_none(alloc: Global, json: &Json, name: &str) -> Result<Keys, Misfit>
    ensures { Gives result (member_or [] splits_of name.now (view json.now)) }
{
    match json.get(name) {
        Some(stated) => splits_of(alloc, stated),
        None => Ok(Items::new(alloc)),
    }
}

#[tactic(auto, unfolding(crate::specs::Splits::splits_of))]
pub(crate) fn splits_of(alloc: Global, json: &Json) -> Result<Keys, Misfit>
    ensures { Gives result (splits_of (view json.now)) }
{
    let keys: Keys = list(alloc, json)?;
    if keys.len() > MOST_SPLITS || !rises(keys.as_slice()) {
        return Err(Misfit::OtherForm);
    }
    Ok(keys)
}

/// Whether each key stands before the one behind it.
fn rises(keys: &[Key]) -> bool
    ensures { result ≡ keys_rise keys.now }
{
    keys.is_sorted_by(|key, next| key < next)
}
