//! Why a request isn't counted.
use std::alloc::{AllocError, AllocFailed};

/// Why a request isn't counted.
#[derive(Debug, PartialEq, Eq, Drop)]
pub enum RunsFault {
    /// No memory was left.
    Memory,
    /// More was found than can be counted.
    TooMany,
}

impl From<AllocError> for RunsFault {
    ghost use Rattle.std.specs.Prelude.{◌≡◌};
    ghost use Rattle.curve_runs.specs.declared.fault.RunsFault.TheVariants.{Memory};

    ghost from_gives = { λ _ fault. fault ≡ Memory };

    fn from(_error: AllocError) -> RunsFault {
        RunsFault::Memory
    }
}

impl<T: Drop> From<AllocFailed<T>> for RunsFault {
    ghost use Rattle.std.specs.Prelude.{◌≡◌};
    ghost use Rattle.curve_runs.specs.declared.fault.RunsFault.TheVariants.{Memory};

    ghost from_gives = { λ _ fault. fault ≡ Memory };

    fn from(_error: AllocFailed<T>) -> RunsFault {
        RunsFault::Memory
    }
}
