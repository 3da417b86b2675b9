//! Why a lock gives nothing.
ghost use Rattle.std.specs.Prelude.{Some};
ghost use Rattle.cache_lock.specs.FaultText.{lock_fault_text};

use std::alloc::AllocError;
use std::error::Error;
use std::fmt;

/// Why a lock gave neither a permit nor a read lock.
#[derive(Clone, Copy, PartialEq, Eq, Debug)]
pub enum LockFault {
    /// There is no memory.
    Memory = 1,
    /// Each number of a core was given, or 2^64 - 1 permits and read locks name the key's core.
    CoreNumbersSpent = 2,
}

impl fmt::Display for LockFault {
    ghost output = { λ fault. Some (lock_fault_text fault) };

    fn fmt<W: fmt::Write>(&self, f: &mut fmt::Formatter<W>) -> fmt::Result {
        f.write_str(match self {
            LockFault::Memory => "out of memory",
            LockFault::CoreNumbersSpent => "no number is left for a lock",
        })
    }
}

impl Error for LockFault {}

impl From<AllocError> for LockFault {
    ghost use Rattle.std.specs.Prelude.{◌≡◌};
    ghost use Rattle.cache_lock.specs.declared.fault.LockFault.TheVariants.{Memory};

    ghost from_gives = { λ _ fault. fault ≡ Memory };

    fn from(_error: AllocError) -> LockFault {
        LockFault::Memory
    }
}
