ghost use Rattle.pc_refusals.specs.Moves.{RefusalsGoOn};

/// A law: the count stands on whatever the session sends, and whatever it hears that moves no stage or commit.
pub fn refusals_go_on()
    ensures { RefusalsGoOn }
{}
