//! Why a curve stops.
use curve_heights::HeightFault;
use std::alloc::{AllocError, AllocFailed};

/// Why a request isn't counted.
#[derive(Debug, PartialEq, Eq, Drop)]
pub enum CurveFault {
    /// No memory was left.
    Memory,
    /// Entries and holes would weigh 2^64 or more.
    TooHeavy,
    /// More than 2^64 - 1 requests that ask, or that remove, or more entries than have slots.
    TooMany,
}

impl From<AllocError> for CurveFault {
    ghost use Rattle.std.specs.Prelude.{◌≡◌};
    ghost use Rattle.curve_sizes.specs.declared.fault.CurveFault.TheVariants.{Memory};

    ghost from_gives = { λ _ fault. fault ≡ Memory };

    fn from(_error: AllocError) -> CurveFault {
        CurveFault::Memory
    }
}

impl<T: Drop> From<AllocFailed<T>> for CurveFault {
    ghost use Rattle.std.specs.Prelude.{◌≡◌};
    ghost use Rattle.curve_sizes.specs.declared.fault.CurveFault.TheVariants.{Memory};

    ghost from_gives = { λ _ fault. fault ≡ Memory };

    fn from(_error: AllocFailed<T>) -> CurveFault {
        CurveFault::Memory
    }
}

impl From<HeightFault> for CurveFault {
    ghost use Rattle.std.specs.Prelude.{◌≡◌};
    ghost use Rattle.curve_sizes.specs.Causes.{fault_of};

    ghost from_gives = { λ fault result. result ≡ fault_of fault };

    fn from(fault: HeightFault) -> CurveFault {
        match fault {
            HeightFault::Memory => CurveFault::Memory,
            HeightFault::TooHeavy => CurveFault::TooHeavy,
            HeightFault::TooMany => CurveFault::TooMany,
        }
    }
}
