//! Why bytes could not be read, or a value could not be written.
ghost use Rattle.std.specs.Prelude.{Some};
ghost use Rattle.cache_words.specs.FaultTexts.{fault_text, write_fault_text};

use std::alloc::AllocError;
use std::error::Error;
use std::fmt;

/// What is wrong with bytes that are read as MessagePack: the first fault from the left.
#[derive(Clone, Copy, Debug, PartialEq, Eq)]
pub enum PackFault {
    /// The input ends within the value.
    Short = 1,
    /// The form is another one than the value has.
    Kind = 2,
    /// A number is too great for its field.
    Range = 3,
    /// A text isn't UTF-8.
    Utf8 = 4,
    /// An array has another length than the value has.
    Length = 5,
}

impl fmt::Display for PackFault {
    ghost output = { λ fault. Some (fault_text fault) };

    fn fmt<W: fmt::Write>(&self, f: &mut fmt::Formatter<W>) -> fmt::Result {
        f.write_str(match self {
            PackFault::Short => "the input ends within a value",
            PackFault::Kind => "a value of another kind",
            PackFault::Range => "a number out of range",
            PackFault::Utf8 => "a text that is not UTF-8",
            PackFault::Length => "an array of another length",
        })
    }
}

impl Error for PackFault {}

/// Why a value could not be written.
#[derive(Clone, Copy, Debug, PartialEq, Eq)]
pub enum PackWriteFault {
    /// There is no memory for the bytes.
    Memory,
    /// A text or byte string has 2^32 bytes or more, and no form counts them.
    TooLong,
}

impl fmt::Display for PackWriteFault {
    ghost output = { λ fault. Some (write_fault_text fault) };

    fn fmt<W: fmt::Write>(&self, f: &mut fmt::Formatter<W>) -> fmt::Result {
        f.write_str(match self {
            PackWriteFault::Memory => "out of memory",
            PackWriteFault::TooLong => "a text or byte string of 2^32 bytes or more",
        })
    }
}

impl Error for PackWriteFault {}

impl From<AllocError> for PackWriteFault {
    ghost use Rattle.std.specs.Prelude.{◌≡◌};
    ghost use Rattle.cache_words.specs.declared.pack.fault.PackWriteFault.TheVariants.{Memory};

    ghost from_gives = { λ _ fault. fault ≡ Memory };

    fn from(_error: AllocError) -> PackWriteFault {
        PackWriteFault::Memory
    }
}
