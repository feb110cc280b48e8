use pc_base::NoMemory;
use std::alloc::{AllocError, AllocFailed};
use thiserror::Error;

/// Why bytes are no workload.
#[derive(Clone, Copy, Debug, PartialEq, Eq, Error)]
pub enum WorkFault {
    /// The least number of a refusal that applies: 1 where the bytes are no JSON, and else that of a rule which the value breaks.
    #[error("workload refused: W{number}")]
    Refused { number: u8 },
    /// Memory ran out before the answer was known.
    #[error("out of memory")]
    NoMemory,
}

/// Why a part of a workload was not read out of its JSON value.
#[derive(Clone, Copy, Debug, PartialEq, Eq)]
pub(crate) enum Misfit {
    OtherForm,
    NoMemory,
}

impl From<NoMemory> for Misfit {
    ghost use Rattle.std.specs.Prelude.{◌≡◌};
    ghost use Rattle.pc_work.specs.declared.fault.Misfit.TheVariants.{NoMemory as no_memory};

    ghost from_gives = { λ _ misfit. misfit ≡ no_memory };

    fn from(_refused: NoMemory) -> Misfit {
        Misfit::NoMemory
    }
}

impl From<AllocError> for Misfit {
    ghost use Rattle.std.specs.Prelude.{◌≡◌};
    ghost use Rattle.pc_work.specs.declared.fault.Misfit.TheVariants.{NoMemory as no_memory};

    ghost from_gives = { λ _ misfit. misfit ≡ no_memory };

    fn from(_refused: AllocError) -> Misfit {
        Misfit::NoMemory
    }
}

impl<T: Drop> From<AllocFailed<T>> for Misfit {
    ghost use Rattle.std.specs.Prelude.{◌≡◌};
    ghost use Rattle.pc_work.specs.declared.fault.Misfit.TheVariants.{NoMemory as no_memory};

    ghost from_gives = { λ _ misfit. misfit ≡ no_memory };

    fn from(_refused: AllocFailed<T>) -> Misfit {
        Misfit::NoMemory
    }
}
