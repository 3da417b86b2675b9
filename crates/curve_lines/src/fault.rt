//! Why a run ends early.
ghost use Rattle.std.specs.Prelude.{◌≡◌};
ghost use Rattle.curve_lines.specs.Faults.{IsToldAs, IsRunFault, fault_of};
ghost use Rattle.curve_lines.specs.declared.fault.RunFault.TheVariants.{Memory};

use curve_sizes::CurveFault;
use std::alloc::{AllocError, AllocFailed};
use std::io;
use thiserror::Error;

/// Why a run ended early.
#[derive(Debug, Drop, Error)]
pub enum RunFault {
    /// A read or a write failed.
    #[error("{0}")]
    Stream(io::Error),
    /// No memory was left.
    #[error("out of memory")]
    Memory,
    /// The weights would add up to 2^64 or more.
    #[error("the entries weigh 2^64 bytes or more")]
    TooHeavy,
    /// More requests, lines, keys or bytes than can be counted.
    #[error("more requests than can be counted")]
    TooMany,
}

impl From<io::Error> for RunFault {
    ghost from_gives = { λ error fault. IsRunFault fault × IsToldAs error fault };

    fn from(error: io::Error) -> RunFault {
        match error.kind() {
            io::ErrorKind::OutOfMemory => RunFault::Memory,
            _ => RunFault::Stream(error),
        }
    }
}

impl From<AllocError> for RunFault {
    ghost from_gives = { λ _ fault. IsRunFault fault × (fault ≡ Memory) };

    fn from(_error: AllocError) -> RunFault {
        RunFault::Memory
    }
}

impl<T: Drop> From<AllocFailed<T>> for RunFault {
    ghost from_gives = { λ _ fault. IsRunFault fault × (fault ≡ Memory) };

    fn from(_error: AllocFailed<T>) -> RunFault {
        RunFault::Memory
    }
}

impl From<CurveFault> for RunFault {
    ghost from_gives = { λ fault result. IsRunFault result × (result ≡ fault_of fault) };

    fn from(fault: CurveFault) -> RunFault {
        match fault {
            CurveFault::Memory => RunFault::Memory,
            CurveFault::TooHeavy => RunFault::TooHeavy,
            CurveFault::TooMany => RunFault::TooMany,
        }
    }
}
