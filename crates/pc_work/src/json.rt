ghost use Rattle.std.specs.Prelude.{◌≡◌, IfNone, IfSome, Option, map, option_map, string_bytes};
ghost use Rattle.std.specs.List.{list_all};
ghost use Rattle.std.specs.BTreeMap.{keys};
ghost use Rattle.serde_json.specs.Data.{Data, object};
ghost use Rattle.serde_json.specs.Find.{get, as_bool};
ghost use Rattle.serde_json.specs.View.{view, items_view, members_view};
ghost use Rattle.pc_work.specs.Reading.{Gives, GivesBy};
ghost use Rattle.pc_work.specs.Lists.{items_by, list_by, two_of, pair_of};
ghost use Rattle.pc_work.specs.Members.{is_among, has_only, whole_between, whole_of, whole_up_to};
ghost use Rattle.pc_work.specs.Sole.{sole, HasNoSole};

use crate::fault::Misfit;
use pc_base::Items;
use serde_json::{Map, Value as Json};
use std::alloc::Global;

/// Whether the value is an object in which each member has one of these names.
#[tactic(auto, using(crate::proofs::Names::only_among_keys))]
pub(crate) fn has_only(json: &Json, names: &[&str]) -> bool
    ensures { result ≡ has_only (map (λ name. name.now) names.now) (view json.now) }
{
    match json.as_object() {
        Some(members) => are_among(members, names),
        None => false,
    }
}

fn are_among(members: &Map<String, Json>, names: &[&str]) -> bool
    ensures { result ≡ list_all (λ key. is_among (map (λ name. name.now) names.now) (string_bytes key)) (keys members.now) }
{
    members.keys().all(|key| is_among(key.as_str(), names))
}

fn is_among(name: &str, names: &[&str]) -> bool
    ensures { result ≡ is_among (map (λ name. name.now) names.now) name.now }
{
    names.contains(&name)
}

/// The name and the value of an object's only member, where it has exactly one.
pub(crate) fn sole(json: &Json) -> Option<(&str, &Json)>
    ensures some { IfSome result (λ found. view json.now ≡ sole found.0.now (view found.1.now)) }
    ensures none { IfNone result (HasNoSole (view json.now)) }
{
    sole_of(json.as_object()?)
}

fn sole_of(members: &Map<String, Json>) -> Option<(&str, &Json)>
    ensures some { IfSome result (λ found. object (members_view members.now.entries) ≡ sole found.0.now (view found.1.now)) }
    ensures none { IfNone result (HasNoSole (object (members_view members.now.entries))) }
{
    if members.len() != 1 {
        return None;
    }
    let (name, value) = members.first_key_value()?;
    Some((name.as_str(), value))
}

/// The member of this name.
pub(crate) fn member<'a>(json: &'a Json, name: &str) -> Result<&'a Json, Misfit>
    ensures { GivesBy (λ found. view found.now) result (get name.now (view json.now)) }
{
    json.get(name).ok_or(Misfit::OtherForm)
}

/// The whole number that this is.
pub(crate) fn whole(json: &Json) -> Result<u64, Misfit>
    ensures { Gives result (whole_of (view json.now)) }
{
    json.as_u64().ok_or(Misfit::OtherForm)
}

/// The whole number that this is, where it is at most `most`.
pub(crate) fn whole_up_to(json: &Json, most: u32) -> Result<u32, Misfit>
    ensures { Gives result (whole_up_to most (view json.now)) }
{
    let number = whole(json)?;
    if number > u64::from(most) {
        return Err(Misfit::OtherForm);
    }
    Ok(number as u32)
}

/// The whole number that this is, where it is from `least` to `most`.
pub(crate) fn whole_between(json: &Json, least: u64, most: u64) -> Result<u64, Misfit>
    ensures { Gives result (whole_between least most (view json.now)) }
{
    let number = whole(json)?;
    if number < least || number > most {
        return Err(Misfit::OtherForm);
    }
    Ok(number)
}

/// The truth value that this is.
pub(crate) fn flag(json: &Json) -> Result<bool, Misfit>
    ensures { Gives result (as_bool (view json.now)) }
{
    json.as_bool().ok_or(Misfit::OtherForm)
}

/// A part of a workload that is read out of one JSON value.
pub(crate) trait FromJson: Drop {
    ghost found_in: { Data → Option Self };

    fn from_json(alloc: Global, json: &Json) -> Result<Self, Misfit>
        ensures { Gives result (found_in (view json.now)) };
}

/// All items of a list.
pub(crate) fn list<T: FromJson>(alloc: Global, json: &Json) -> Result<Items<T>, Misfit>
    ensures { Gives result (list_by T.found_in (view json.now)) }
{
    let values = json.as_array().ok_or(Misfit::OtherForm)?;
    let items = all_of(alloc, values.as_slice())?;
    Ok(Items::from_vec(items))
}

fn all_of<T: FromJson>(alloc: Global, values: &[Json]) -> Result<Vec<T>, Misfit>
    ensures { GivesBy (λ items. items.items) result (items_by T.found_in (items_view values.now)) }
{
    let mut items = Vec::new(alloc);
    for value in values {
        items.push(T::from_json(alloc, value)?)?;
    }
    Ok(items)
}

/// The two items of a list of exactly two.
pub(crate) fn pair(json: &Json) -> Result<(&Json, &Json), Misfit>
    ensures { GivesBy (λ both. (view both.0.now, view both.1.now)) result (pair_of (view json.now)) }
{
    two_of(json).ok_or(Misfit::OtherForm)
}

/// The two items of a list of exactly two, where it is one.
#[tactic(auto, unfolding(crate::specs::Lists::pair_of))]
pub(crate) fn two_of(json: &Json) -> Option<(&Json, &Json)>
    ensures { option_map (λ both. (view both.0.now, view both.1.now)) result ≡ pair_of (view json.now) }
{
    two(json.as_array()?.as_slice())
}

#[tactic(auto, using(crate::proofs::Pairs::two_of_none))]
fn two(values: &[Json]) -> Option<(&Json, &Json)>
    ensures { option_map (λ both. (view both.0.now, view both.1.now)) result ≡ two_of (items_view values.now) }
{
    if values.len() != 2 {
        return None;
    }
    Some((&values[0], &values[1]))
}
