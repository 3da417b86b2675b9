//! Why an entry isn't put first.
use std::alloc::{AllocError, AllocFailed};

/// Why an entry isn't put first.
#[derive(Debug, PartialEq, Eq, Drop)]
pub enum HeightFault {
    /// No memory was left.
    Memory,
    /// Entries and holes would weigh 2^64 or more.
    TooHeavy,
    /// There are no 2^32 - 1 slots, at four an entry and 64, and no entry has that number.
    TooMany,
}

impl From<AllocError> for HeightFault {
    ghost use Rattle.std.specs.Prelude.{◌≡◌};
    ghost use Rattle.curve_heights.specs.declared.fault.HeightFault.TheVariants.{Memory};

    ghost from_gives = { λ _ fault. fault ≡ Memory };

    fn from(_error: AllocError) -> HeightFault {
        HeightFault::Memory
    }
}
