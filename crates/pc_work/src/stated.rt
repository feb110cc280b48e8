ghost use Rattle.std.specs.Prelude.{◌≡◌, ℕ, [], true};
ghost use Rattle.serde_json.specs.Find.{as_bool};
ghost use Rattle.serde_json.specs.View.{view};
ghost use Rattle.pc_base.specs.declared.limits.TheConstants.{MOST_RECOVERERS, MOST_RERUNS, MOST_SESSIONS};
ghost use Rattle.pc_work.specs.Reading.{Gives};
ghost use Rattle.pc_work.specs.Lists.{list_by};
ghost use Rattle.pc_work.specs.Members.{has_only, member_if, member_or, whole_between, whole_of, whole_up_to};
ghost use Rattle.pc_work.specs.Recoverer.{recoverer_of};
ghost use Rattle.pc_work.specs.Stated.{counted, counted_by, stated_of, workload_names};
ghost use Rattle.pc_work.specs.Turn.{turn_of};
ghost use Rattle.pc_work.specs.declared.limits.TheConstants.{MOST_TRIES};

use crate::fault::Misfit;
use crate::json::{FromJson, flag, has_only, list, member, whole, whole_between, whole_up_to};
use crate::limits::MOST_TRIES;
use crate::recoverer::Recoverers;
use crate::session::Sessions;
use crate::splits::splits_or_none;
use crate::turn::Turns;
use pc_base::Items;
use pc_base::limits::{
    DEFAULT_ENTRIES, DEFAULT_RERUNS, DEFAULT_TRIES, LEAST_ENTRIES, MOST_ENTRIES, MOST_RECOVERERS,
    MOST_RERUNS, MOST_SESSIONS,
};
use pc_proto::Keys;
use serde_json::Value as Json;
use std::alloc::Global;

/// What a value states as a workload, part by part, before the parts are judged together.
#[derive(Drop)]
pub(crate) struct Stated {
    pub(crate) pipelining: bool,
    pub(crate) splits: Keys,
    pub(crate) limit: u64,
    pub(crate) tries: u32,
    pub(crate) reruns: u32,
    pub(crate) opening: u64,
    pub(crate) sessions: Sessions,
    pub(crate) recoverers: Recoverers,
    pub(crate) turns: Option<Turns>,
}

/// What the members of a value state.
#[tactic(auto, unfolding(crate::specs::Stated::stated_of))]
pub(crate) fn stated_of(alloc: Global, json: &Json) -> Result<Stated, Misfit>
    ensures { Gives result (stated_of (view json.now)) }
{
    if !has_known_members(json) {
        return Err(Misfit::OtherForm);
    }
    let pipelining = pipelining_or_default(json, "pipelining")?;
    let splits = splits_or_none(alloc, json, "splits")?;
    let limit = limit_or_default(json, "limit")?;
    let tries = tries_or_default(json, "tries")?;
    let reruns = reruns_or_default(json, "reruns")?;
    let opening = opening_or_default(json, "opening")?;
    let turns = turns_if(alloc, json, "turns")?;
    let recoverers = recoverers_or_none(alloc, json, "recoverers")?;
    let sessions: Sessions = counted(alloc, member(json, "sessions")?, 1, MOST_SESSIONS)?;
    Ok(Stated {
        pipelining,
        splits,
        limit,
        tries,
        reruns,
        opening,
        sessions,
        recoverers,
        turns,
    })
}

/// Whether the value is an object in which each member is one of a workload's.
pub(crate) fn has_known_members(json: &Json) -> bool
    ensures { result ≡ has_only workload_names (view json.now) }
{
    has_only(
        json,
        &[
            "version",
            "pipelining",
            "splits",
            "limit",
            "tries",
            "reruns",
            "opening",
            "turns",
            "recoverers",
            "sessions",
        ],
    )
}

/// All items of a list that has at least and at most so many.
fn counted<T: FromJson>(
    alloc: Global,
    json: &Json,
    fewest: usize,
    most: usize,
) -> Result<Items<T>, Misfit>
    ensures { Gives result (counted_by fewest most T.found_in (view json.now)) }
{
    let items: Items<T> = list(alloc, json)?;
    if items.len() < fewest || items.len() > most {
        return Err(Misfit::OtherForm);
    }
    Ok(items)
}

/// Whether writes are pipelined, as they are by default.
fn pipelining_or_default(json: &Json, name: &str) -> Result<bool, Misfit>
    ensures { Gives result (member_or true as_bool name.now (view json.now)) }
{
    match json.get(name) {
        Some(stated) => flag(stated),
        None => Ok(true),
    }
}

/// The most entries of one actor, by default as the limits say.
fn limit_or_default(json: &Json, name: &str) -> Result<u64, Misfit>
    ensures { Gives result (member_or DEFAULT_ENTRIES (whole_between LEAST_ENTRIES MOST_ENTRIES) name.now (view json.now)) }
{
    match json.get(name) {
        Some(stated) => whole_between(stated, LEAST_ENTRIES, MOST_ENTRIES),
        None => Ok(DEFAULT_ENTRIES),
    }
}

/// How often a request is sent in all, by default as the limits say.
fn tries_or_default(json: &Json, name: &str) -> Result<u32, Misfit>
    ensures { Gives result (member_or DEFAULT_TRIES (whole_between 1 MOST_TRIES) name.now (view json.now)) }
{
    match json.get(name) {
        Some(stated) => tries_of(stated),
        None => Ok(DEFAULT_TRIES),
    }
}

fn tries_of(json: &Json) -> Result<u32, Misfit>
    ensures { Gives result (whole_between 1 MOST_TRIES (view json.now)) }
{
    let tries = whole(json)?;
    if tries < 1 || tries > u64::from(MOST_TRIES) {
        return Err(Misfit::OtherForm);
    }
    Ok(tries as u32)
}

/// The turns in the member of this name, where it is there.
fn turns_if(alloc: Global, json: &Json, name: &str) -> Result<Option<Turns>, Misfit>
    ensures { Gives result (member_if (list_by turn_of) name.now (view json.now)) }
{
    match json.get(name) {
        Some(stated) => Ok(Some(list(alloc, stated)?)),
        None => Ok(None),
    }
}

/// The recoverers in the member of this name, by default none.
fn recoverers_or_none(alloc: Global, json: &Json, name: &str) -> Result<Recoverers, Misfit>
    ensures { Gives result (member_or [] (counted_by 0 MOST_RECOVERERS recoverer_of) name.now (view json.now)) }
{
    match json.get(name) {
        Some(stated) => counted(alloc, stated, 0, MOST_RECOVERERS),
        None => Ok(Recoverers::from_vec(Vec::new(alloc))),
    }
}

/// How often a transaction may be asked again, by default as the limits say.
fn reruns_or_default(json: &Json, name: &str) -> Result<u32, Misfit>
    ensures { Gives result (member_or DEFAULT_RERUNS (whole_up_to MOST_RERUNS) name.now (view json.now)) }
{
    match json.get(name) {
        Some(stated) => whole_up_to(stated, MOST_RERUNS),
        None => Ok(DEFAULT_RERUNS),
    }
}

/// How many items of the first session run ahead, by default none.
fn opening_or_default(json: &Json, name: &str) -> Result<u64, Misfit>
    ensures { Gives result (member_or 0 whole_of name.now (view json.now)) }
{
    match json.get(name) {
        Some(stated) => whole(stated),
        None => Ok(0),
    }
}
