ghost use Rattle.pc_coord.specs.Awaiting.{HearsAllAwaited, HearsInTurn, MeetsAllAwaited};
ghost use Rattle.pc_coord.specs.Laws.{AwaitsItsPuts, CoordinatingGoesOn};

/// A law: between calls a coordinator knows what its session knows, whatever messages of rounds and jobs that sends and hears beside it,
/// once its clock has heard of them.
pub fn coordinating_goes_on()
    ensures { CoordinatingGoesOn }
{}

/// A law: each message whose reply is waited for is of a kind that is sent for the open call.
pub fn awaits_its_puts()
    ensures { AwaitsItsPuts }
{}

/// A law: where a reply to a put or a stage may be heard, each put for which the call waits was heard, or its reply is waited for.
pub fn hears_all_awaited()
    ensures { HearsAllAwaited }
{}

/// A law: where a conflict is to have its round, each put for which the call waits was heard.
pub fn meets_all_awaited()
    ensures { MeetsAllAwaited }
{}

/// A law: what is heard next is heard in turn.
pub fn hears_in_turn()
    ensures { HearsInTurn }
{}
