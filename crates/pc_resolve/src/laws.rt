ghost use Rattle.pc_resolve.specs.Laws.{ResolvingGoesOn};

/// A law: what a machine stands by it stands by while its actor sends and hears other things.
pub fn resolving_goes_on()
    ensures { ResolvingGoesOn }
{}
