ghost use Rattle.std.specs.Prelude.{◌≡◌, IfOk};
ghost use Rattle.serde_json.specs.View.{view};
ghost use Rattle.pc_base.specs.declared.limits.TheConstants.{MOST_RECOVERERS, MOST_SESSIONS};
ghost use Rattle.pc_work.specs.Refusal.{in_counted, in_stated};
ghost use Rattle.pc_work.specs.RefusedActor.{recoverer_refusal, session_refusal};
ghost use Rattle.pc_work.specs.RefusedWork.{flag_refusal, is_one, members_refusal, parts_refusal, splits_refusal, text_refusal, version_refusal, whole_refusal};

use crate::clock::whole_in;
use crate::fault::Misfit;
use crate::judge::{Judged, in_counted, in_member, in_number, in_stated};
use crate::limits::MOST_TRIES;
use crate::recoverer::RecovererWork;
use crate::refusal::{NO_WORKLOAD, OTHER_FORM, WRONG_SPLITS, least, unless};
use crate::session::SessionWork;
use crate::splits::splits_of;
use crate::stated::has_known_members;
use crate::turn::Turns;
use pc_base::limits::{LEAST_ENTRIES, MOST_ENTRIES, MOST_RECOVERERS, MOST_RERUNS, MOST_SESSIONS};
use pc_base::{Items, NoMemory};
use serde_json::Value as Json;
use std::alloc::Global;

/// Which rule a workload breaks in its parts, each of which is judged by itself.
pub(crate) fn parts_refusal(alloc: Global, json: &Json) -> Result<Option<u8>, NoMemory>
    ensures { IfOk result (λ refusal. refusal ≡ parts_refusal (view json.now)) }
{
    let members = members_refusal(alloc, json)?;
    Ok(least(version_refusal(json), members))
}

fn version_refusal(json: &Json) -> Option<u8>
    ensures { result ≡ version_refusal (view json.now) }
{
    unless(is_one(whole_in(json, "version")), NO_WORKLOAD)
}

fn is_one(number: Option<u64>) -> bool
    ensures { result ≡ is_one number }
{
    match number {
        Some(number) => number == 1,
        None => false,
    }
}

/// Which rule the members of a workload but for its version break.
#[tactic(auto, unfolding(crate::specs::RefusedWork::members_refusal))]
fn members_refusal(alloc: Global, json: &Json) -> Result<Option<u8>, NoMemory>
    ensures { IfOk result (λ refusal. refusal ≡ members_refusal (view json.now)) }
{
    if !has_known_members(json) {
        return Ok(Some(OTHER_FORM));
    }
    let splits = splits_if(alloc, json, "splits")?;
    let pipelining = in_stated::<Flag>(json, "pipelining");
    let limit = in_number(json, "limit", LEAST_ENTRIES, MOST_ENTRIES);
    let tries = in_number(json, "tries", 1, u64::from(MOST_TRIES));
    let reruns = in_number(json, "reruns", 0, u64::from(MOST_RERUNS));
    let opening = in_stated::<Whole>(json, "opening");
    let turns = in_stated::<Turns>(json, "turns");
    let recoverers = in_stated::<FewRecoverers>(json, "recoverers");
    let sessions = in_member::<FewSessions>(json, "sessions");
    let actors = least(turns, least(recoverers, sessions));
    let numbers = least(limit, least(tries, least(reruns, least(opening, actors))));
    Ok(least(pipelining, least(splits, numbers)))
}

/// The splits, where they are stated.
fn splits_if(alloc: Global, json: &Json, name: &str) -> Result<Option<u8>, NoMemory>
    ensures { IfOk result (λ refusal. refusal ≡ in_stated splits_refusal name.now (view json.now)) }
{
    match json.get(name) {
        Some(stated) => splits_refusal(alloc, stated),
        None => Ok(None),
    }
}

fn splits_refusal(alloc: Global, json: &Json) -> Result<Option<u8>, NoMemory>
    ensures { IfOk result (λ refusal. refusal ≡ splits_refusal (view json.now)) }
{
    let texts = Items::<Text>::refusal(json);
    match splits_of(alloc, json) {
        Ok(_splits) => Ok(texts),
        Err(Misfit::OtherForm) => Ok(least(texts, Some(WRONG_SPLITS))),
        Err(Misfit::NoMemory) => Err(NoMemory),
    }
}

/// A truth value.
#[derive(Drop)]
struct Flag;

/// A text.
#[derive(Drop)]
struct Text;

/// A whole number, whose limits are judged elsewhere.
#[derive(Drop)]
struct Whole;

/// Recoverers, no more than there may be.
#[derive(Drop)]
struct FewRecoverers;

/// Sessions, one at least and no more than there may be.
#[derive(Drop)]
struct FewSessions;

impl Judged for Flag {
    ghost refusal_in = { flag_refusal };

    fn refusal(json: &Json) -> Option<u8> {
        unless(json.as_bool().is_some(), OTHER_FORM)
    }
}

impl Judged for Text {
    ghost refusal_in = { text_refusal };

    fn refusal(json: &Json) -> Option<u8> {
        unless(json.as_str().is_some(), OTHER_FORM)
    }
}

impl Judged for Whole {
    ghost refusal_in = { whole_refusal };

    fn refusal(json: &Json) -> Option<u8> {
        unless(json.as_u64().is_some(), OTHER_FORM)
    }
}

impl Judged for FewRecoverers {
    ghost refusal_in = { in_counted 0 MOST_RECOVERERS recoverer_refusal };

    fn refusal(json: &Json) -> Option<u8> {
        in_counted::<RecovererWork>(json, 0, MOST_RECOVERERS)
    }
}

impl Judged for FewSessions {
    ghost refusal_in = { in_counted 1 MOST_SESSIONS session_refusal };

    fn refusal(json: &Json) -> Option<u8> {
        in_counted::<SessionWork>(json, 1, MOST_SESSIONS)
    }
}
