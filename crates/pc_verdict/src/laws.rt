ghost use Rattle.pc_verdict.specs.OneVerdict.{OneVerdictIsRight};

/// A law: of each text at most one verdict is right, so that the one that is found is the only one.
pub fn one_verdict_is_right()
    ensures { OneVerdictIsRight }
{}
