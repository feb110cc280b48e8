ghost use Rattle.pc_implicit.specs.Causes.{AbortsHaveCauses};

/// A law: where a record or mark says that its transaction is aborted, the cause that it names is what it says.
pub fn aborts_have_causes()
    ensures { AbortsHaveCauses }
{}
