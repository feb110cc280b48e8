ghost use Rattle.std.specs.Prelude.{◌≡◌, ◌++◌, ◌∷◌, [], IfOk, Ok, None};
ghost use Rattle.pc_check.specs.FirstBroken.{FindsFirst, Judges, head_with};
ghost use Rattle.pc_sent.specs.Sending.{AreSendsOf};
ghost use Rattle.pc_world.specs.Run.{IsRun};

use crate::actors::has_actor;
use crate::causes::{is_caused, named};
use crate::judge::Judge;
use crate::rule::{Rule, rule_of};
use pc_base::{Entry, NoMemory};
use pc_proto::{Event, Keys};
use pc_sent::Sent;
use std::alloc::Global;

/// The first entry that may not follow those before it, by its place, and the rule that it breaks; nothing where the entries are a run.
pub fn first_broken<'a, J: Judge<'a>>(
    judge: &mut J,
    splits: &Keys,
    sessions: u32,
    recoverers: u32,
    entries: &'a [Entry<Event>],
    alloc: Global,
) -> Result<Option<(usize, Rule)>, NoMemory>
    requires { J.keeps (head_with splits.now sessions recoverers) [] judge.old }
    ensures { IfOk result (λ found. FindsFirst (head_with splits.now sessions recoverers) entries.now found) }
{
    let mut sends = Sent::new(alloc);
    for (place, entry) in entries.iter().enumerate() {
        let (before, _) = entries.split_at(place);
        if let Some(rule) = broken(judge, splits, sessions, recoverers, before, &sends, entry)? {
            return Ok(Some((place, rule)));
        }
        sends.add(before, entry)?;
    }
    Ok(None)
}

/// The rule that the entry breaks, or nothing where it may follow; then the judge takes it.
fn broken<'a, J: Judge<'a>>(
    judge: &mut J,
    splits: &Keys,
    sessions: u32,
    recoverers: u32,
    before: &'a [Entry<Event>],
    sends: &Sent,
    entry: &'a Entry<Event>,
) -> Result<Option<Rule>, NoMemory>
    requires kept { J.keeps (head_with splits.now sessions recoverers) before.now judge.old }
    requires run { IsRun (head_with splits.now sessions recoverers) before.now }
    requires sends { AreSendsOf before.now sends.now }
    ensures judged { IfOk result (λ rule. Judges (head_with splits.now sessions recoverers) before.now entry.now rule) }
    ensures taken { result ≡ Ok None → J.keeps (head_with splits.now sessions recoverers) (before.now ++ entry.now ∷ []) judge.new }
{
    if entry.step != before.len() as u64 {
        return Ok(Some(Rule::Step));
    }
    if !has_actor(splits, sessions, recoverers, entry.actor) {
        return Ok(Some(Rule::Actor));
    }
    let named = named(before, sends, &entry.event);
    if is_caused(before, sends, &entry.event, entry.actor) && judge.take(before, entry, named)? {
        Ok(None)
    } else {
        Ok(Some(rule_of(&entry.event)))
    }
}
