ghost use Rattle.std.specs.Prelude.{◌≡◌, ◌++◌, All, IfOk, List};
ghost use Rattle.pc_closing.specs.Leaving.{Leaver as Left};
ghost use Rattle.pc_ends.specs.Finishing.{HaveGivenInRounds, HaveGivenSessions};
ghost use Rattle.pc_ends.specs.SessionClock.{session_rule};
ghost use Rattle.pc_rounds.specs.Counted.{GoesInRounds};
ghost use Rattle.pc_runs.specs.Laws.{HaveFinished};
ghost use Rattle.pc_scripted.specs.Scripted.{IsScripted};

use crate::beginning::{RoundRunner, Runner};
use pc_base::NoMemory;
use pc_clock::Clock;
use pc_closing::Leaver;
use pc_history::Named;
use pc_range::{CommitWorld, Gate};
use std::alloc::Global;

/// What all sessions and then all recoverers leave: the actor of each, to be handed in, and what is still in its outbox.
pub fn finish<N: Named<CommitWorld>, C: Clock + Drop, G: Gate>(
    alloc: Global,
    sessions: Vec<Runner<'_, N, C, G>>,
    recoverers: Vec<RoundRunner<'_, N, C, G>>,
) -> Result<Vec<Leaver<N>>, NoMemory>
    requires sessions { All IsScripted sessions.items }
    requires recoverers { All GoesInRounds recoverers.items }
    ensures { IfOk result (λ leavers. HaveFinished (session_rule C.rule) (record { sessions = sessions.entry.items; recoverers = recoverers.entry.items }) leavers.items) }
{
    let leavers = finish_sessions(alloc, sessions)?;
    finish_recoverers(leavers, recoverers)
}

/// What all sessions leave, in order.
fn finish_sessions<N: Named<CommitWorld>, C: Clock + Drop, G: Gate>(
    alloc: Global,
    sessions: Vec<Runner<'_, N, C, G>>,
) -> Result<Vec<Leaver<N>>, NoMemory>
    requires { All IsScripted sessions.items }
    ensures { IfOk result (λ leavers. HaveGivenSessions (session_rule C.rule) sessions.entry.items leavers.items) }
{
    let mut leavers = Vec::new(alloc);
    for session in sessions {
        leavers.push(session.finish())?;
    }
    Ok(leavers)
}

/// These, and behind them what all recoverers leave, in order.
fn finish_recoverers<N: Named<CommitWorld>, C: Clock + Drop, G: Gate>(
    leavers: Vec<Leaver<N>>,
    recoverers: Vec<RoundRunner<'_, N, C, G>>,
) -> Result<Vec<Leaver<N>>, NoMemory>
    requires { All GoesInRounds recoverers.items }
    ensures { IfOk result (λ all. (more : List Left) × (all.items ≡ leavers.items ++ more) × HaveGivenInRounds (session_rule C.rule) recoverers.entry.items more) }
{
    let mut leavers = leavers;
    for recoverer in recoverers {
        leavers.push(recoverer.finish())?;
    }
    Ok(leavers)
}
