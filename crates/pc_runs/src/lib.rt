//! Laws of a workload's run: what its sessions and recoverers leave is one history, which follows the workload.
#![tactic(auto)]

ghost use Rattle.pc_runs.specs.Laws.{ClientsLeave, HistoryFollows, LearnsAreKept, TransactionsLearnNothing, TurnsAreAsStated};

use pc_clock::Clock;

/// A law: sessions and recoverers that have finished leave what may be closed, and each of their entries keeps its work.
pub fn clients_leave<C: Clock>()
    ensures { ClientsLeave C.rule }
{}

/// A law: where all sessions and recoverers took their turns, as their own lists say, the history goes in the turns that are stated.
pub fn turns_are_as_stated<C: Clock>()
    ensures { TurnsAreAsStated C }
{}

/// A law: where all sessions learn of commits in the order of their entries, they do so in the history.
pub fn learns_are_kept<C: Clock>()
    ensures { LearnsAreKept C }
{}

/// A law: where each item of each script is a transaction, no learn in the history is told out of order.
pub fn transactions_learn_nothing<C: Clock>()
    ensures { TransactionsLearnNothing C }
{}

/// A law: the history that sessions and recoverers leave follows their workload, where all are at their ends, it goes as the workload states, and each learn in it
/// is told in order.
pub fn history_follows<C: Clock>()
    ensures { HistoryFollows C }
{}
