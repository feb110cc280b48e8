ghost use Rattle.pc_push.specs.Laws.{PushingGoesOn};

/// A law: what a machine stands by it stands by while its actor sends and hears other things.
pub fn pushing_goes_on()
    ensures { PushingGoesOn }
{}
