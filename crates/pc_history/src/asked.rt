use std::marker::Brand;

/// What one step of the table is about. The call that makes the step picks it.
pub(crate) trait Asked<X> {
    ghost use Rattle.std.specs.Prelude.{Option};

    ghost asked: { Option X };
}

impl<X> Asked<X> for Brand {
    ghost use Rattle.std.specs.Prelude.{None};

    ghost asked = { None };
}
