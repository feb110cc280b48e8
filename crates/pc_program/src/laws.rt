ghost use Rattle.pc_program.specs.OutputsAreAccepted.{OutputsAreAccepted};

/// A law: what mode run writes is a run with its report, and that is the one right verdict on it.
pub fn outputs_are_accepted()
    ensures { OutputsAreAccepted }
{}
