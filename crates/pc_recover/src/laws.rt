ghost use Rattle.pc_recover.specs.Laws.{RecoveringGoesOn};

/// A law: what a machine stands by it stands by while its actor sends and hears other things.
pub fn recovering_goes_on()
    ensures { RecoveringGoesOn }
{}
