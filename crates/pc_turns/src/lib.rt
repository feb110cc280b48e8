//! Laws of how sessions and recoverers, in turns or on threads, make one history: their own lists, put together by the steps.
#![tactic(auto)]

ghost use Rattle.pc_turns.specs.Laws.{BeginningsComeFirst, ClientsKeepOrder, ClosedIsServed, MarksKeepOrder, MarksPutAfter, ServedIsEvaluatedOnce, SharesMakeUp, ThreadsGoOn, TurnsAddUp, TurnsAreKept, UnspentIsNeverEvaluated};

/// A law: where each client stored just its share of entries whose steps rise, the history has the clients' entries in that order.
pub fn clients_keep_order()
    ensures { ClientsKeepOrder }
{}

/// A law: what each client begins with, and goes on after all of, comes first in the history.
pub fn beginnings_come_first()
    ensures { BeginningsComeFirst }
{}

/// A law: a message is evaluated just once where one use was given of its sending, and its sender was told of an evaluation.
pub fn served_is_evaluated_once()
    ensures { ServedIsEvaluatedOnce }
{}

/// A law: a message of an actor that was handed in is served, where it gave one use of its sending at most and was told of an evaluation.
pub fn closed_is_served()
    ensures { ClosedIsServed }
{}

/// A law: a message of an actor that was handed in is never evaluated, where the actor has all uses itself that it gave of its sending.
pub fn unspent_is_never_evaluated()
    ensures { UnspentIsNeverEvaluated }
{}

/// A law: what an actor makes after it took a mark of the last of some entries whose steps rise comes after all of them.
pub fn marks_put_after()
    ensures { MarksPutAfter }
{}

/// A law: where each actor that moves took a mark of the last entry before it, the steps rise from turn to turn.
pub fn marks_keep_order()
    ensures { MarksKeepOrder }
{}

/// A law: where one more client took the mark of the last entry and made its entries, all own lists are their clients' shares still.
pub fn turns_add_up()
    ensures { TurnsAddUp }
{}

/// A law: own lists that are the clients' shares make up what the clients stored, once they were handed in.
pub fn shares_make_up()
    ensures { SharesMakeUp }
{}

/// A law: where the clients stored entries that go in stated turns, the history goes in those turns.
pub fn turns_are_kept()
    ensures { TurnsAreKept }
{}

/// A law: where all others took a mark of the opening's end, and each session went by itself to its end, the history goes so on threads.
pub fn threads_go_on()
    ensures { ThreadsGoOn }
{}
