ghost use Rattle.std.specs.Prelude.{◌≡◌, length};
ghost use Rattle.std.specs.List.{list_all};
ghost use Rattle.pc_work.specs.Together.{are_all_there, are_few_statements, are_few_turns, are_numbers_right, are_turns_there, first_items, is_script_there, together_refusal};
ghost use Rattle.pc_work.specs.Turn.{is_turn_there};

use crate::count::Counted;
use crate::refusal::{MANY_STATEMENTS, NOBODY_THERE, WRONG_NUMBER, least, unless};
use crate::session::{SessionWork, Sessions};
use crate::stated::Stated;
use crate::turn::{Turn, Turns};
use pc_base::limits::{MOST_STATEMENTS, MOST_TURNS};

/// Which rule the parts of a workload break together.
pub(crate) fn together_refusal(stated: &Stated) -> Option<u8>
    ensures { result ≡ together_refusal stated.now }
{
    let numbers = unless(are_numbers_right(stated), WRONG_NUMBER);
    let statements = unless(are_few_statements(stated), MANY_STATEMENTS);
    let names = unless(are_all_there(stated), NOBODY_THERE);
    least(numbers, least(statements, names))
}

/// Whether no more items run ahead than the first session has, and the turns are no more than their limit.
fn are_numbers_right(stated: &Stated) -> bool
    ensures { result ≡ are_numbers_right stated.now }
{
    stated.opening <= first_items(&stated.sessions) && are_few_turns(&stated.turns)
}

/// How many items the first session has.
fn first_items(sessions: &Sessions) -> u64
    ensures { result ≡ first_items sessions.now }
{
    match sessions.get(0) {
        Some(first) => first.script.len() as u64,
        None => 0,
    }
}

fn are_few_turns(turns: &Option<Turns>) -> bool
    ensures { result ≡ are_few_turns turns.now }
{
    match turns {
        Some(turns) => turns.len() <= MOST_TURNS,
        None => true,
    }
}

fn are_few_statements(stated: &Stated) -> bool
    ensures { result ≡ are_few_statements stated.now }
{
    stated.sessions.count() <= MOST_STATEMENTS
}

/// Whether each that a turn or a learn names is there, and a learn stands in stated turns alone.
fn are_all_there(stated: &Stated) -> bool
    ensures { result ≡ are_all_there stated.now }
{
    are_turns_there(
        &stated.turns,
        stated.sessions.len(),
        stated.recoverers.len(),
    ) && are_scripts_there(&stated.sessions, &stated.turns)
}

fn are_turns_there(turns: &Option<Turns>, sessions: usize, recoverers: usize) -> bool
    ensures { result ≡ are_turns_there sessions recoverers turns.now }
{
    match turns {
        Some(turns) => are_there(turns.as_slice(), sessions, recoverers),
        None => true,
    }
}

fn are_there(turns: &[Turn], sessions: usize, recoverers: usize) -> bool
    ensures { result ≡ list_all (is_turn_there sessions recoverers) turns.now }
{
    turns.iter().all(|turn| turn.is_there(sessions, recoverers))
}

/// Whether each learn may stand where it does.
fn are_scripts_there(sessions: &Sessions, turns: &Option<Turns>) -> bool
    ensures { result ≡ list_all (is_script_there (length sessions.now) turns.now) sessions.now }
{
    sessions
        .as_slice()
        .iter()
        .all(|session| is_script_there(session, sessions.len(), turns))
}

/// Whether each learn of the session may stand where it does, among so many sessions.
fn is_script_there(session: &SessionWork, sessions: usize, turns: &Option<Turns>) -> bool
    ensures { result ≡ is_script_there sessions turns.now session.now }
{
    session
        .script
        .as_slice()
        .iter()
        .all(|item| item.is_there(sessions, turns))
}
