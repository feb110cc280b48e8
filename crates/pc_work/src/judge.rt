//! Judging a value of JSON part by part: which rule each part breaks, and the least number of all.
ghost use Rattle.std.specs.Prelude.{◌≡◌, ℕ, Option};
ghost use Rattle.serde_json.specs.Data.{Data, array};
ghost use Rattle.serde_json.specs.View.{view, items_view};
ghost use Rattle.pc_work.specs.Refusal.{in_counted, in_items, in_list, in_member, in_stated, number_refusal};

use crate::refusal::{OTHER_FORM, WRONG_COUNT, WRONG_NUMBER, least, unless};
use pc_base::Items;
use serde_json::Value as Json;

/// A part of a workload that breaks some rule, or none.
pub(crate) trait Judged {
    ghost refusal_in: { Data → Option ℕ };

    /// The least number of the rules that it breaks.
    fn refusal(json: &Json) -> Option<u8>
        ensures { result ≡ refusal_in (view json.now) };
}

/// The member of this name, which has to be there.
pub(crate) fn in_member<T: Judged>(json: &Json, name: &str) -> Option<u8>
    ensures { result ≡ in_member T.refusal_in name.now (view json.now) }
{
    match json.get(name) {
        Some(stated) => T::refusal(stated),
        None => Some(OTHER_FORM),
    }
}

/// The member of this name, where it is stated.
pub(crate) fn in_stated<T: Judged>(json: &Json, name: &str) -> Option<u8>
    ensures { result ≡ in_stated T.refusal_in name.now (view json.now) }
{
    match json.get(name) {
        Some(stated) => T::refusal(stated),
        None => None,
    }
}

impl<T: Judged> Judged for Items<T> {
    ghost refusal_in = { in_list T.refusal_in };

    fn refusal(json: &Json) -> Option<u8> {
        match json.as_array() {
            Some(values) => in_items::<T>(values.as_slice()),
            None => Some(OTHER_FORM),
        }
    }
}

/// A list of at least and at most so many items.
#[tactic(auto, using(crate::proofs::Judging::count_is))]
pub(crate) fn in_counted<T: Judged>(json: &Json, fewest: usize, most: usize) -> Option<u8>
    ensures { result ≡ in_counted fewest most T.refusal_in (view json.now) }
{
    match json.as_array() {
        Some(values) => in_some::<T>(values.as_slice(), fewest, most),
        None => Some(OTHER_FORM),
    }
}

#[tactic(auto, using(crate::proofs::Judging::count_is))]
fn in_some<T: Judged>(values: &[Json], fewest: usize, most: usize) -> Option<u8>
    ensures { result ≡ in_counted fewest most T.refusal_in (array (items_view values.now)) }
{
    let fits = values.len() >= fewest && values.len() <= most;
    least(unless(fits, WRONG_COUNT), in_items::<T>(values))
}

fn in_items<T: Judged>(values: &[Json]) -> Option<u8>
    ensures { result ≡ in_items T.refusal_in (items_view values.now) }
{
    let mut found = None;
    for value in values {
        found = least(found, T::refusal(value));
    }
    found
}

/// The member of this name, where it is stated: a whole number, from the one to the other.
pub(crate) fn in_number(json: &Json, name: &str, low: u64, high: u64) -> Option<u8>
    ensures { result ≡ in_stated (number_refusal low high) name.now (view json.now) }
{
    match json.get(name) {
        Some(stated) => number_refusal(stated, low, high),
        None => None,
    }
}

/// A whole number, from the one to the other.
pub(crate) fn number_refusal(json: &Json, low: u64, high: u64) -> Option<u8>
    ensures { result ≡ number_refusal low high (view json.now) }
{
    match json.as_u64() {
        Some(number) => unless(number >= low && number <= high, WRONG_NUMBER),
        None => Some(OTHER_FORM),
    }
}
