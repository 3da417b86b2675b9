//! Why a call isn't answered.
ghost use Rattle.std.specs.Prelude.{◌≡◌};
ghost use Rattle.rules_ffi_arguments.specs.declared.bad.Bad.TheVariants.{Memory};

use std::alloc::{AllocError, AllocFailed};

/// Why a call isn't answered.
#[derive(Clone, Copy, Debug, PartialEq, Eq)]
pub enum Bad {
    /// Out of memory.
    Memory,
    /// An option is out of its range, or a struct wasn't filled by a call.
    Call,
}

impl From<AllocError> for Bad {
    ghost from_gives = { λ _ e. e ≡ Memory };

    fn from(_e: AllocError) -> Bad {
        Bad::Memory
    }
}

impl<T: Drop> From<AllocFailed<T>> for Bad {
    ghost from_gives = { λ _ e. e ≡ Memory };

    fn from(_e: AllocFailed<T>) -> Bad {
        Bad::Memory
    }
}
