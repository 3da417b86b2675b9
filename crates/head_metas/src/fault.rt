//! Why a meta could not be written or read.
ghost use Rattle.std.specs.Prelude.{Some};
ghost use Rattle.head_metas.specs.FaultTexts.{fault_text, read_fault_text};

use cache_words::pack::PackFault;
use std::alloc::AllocError;
use std::fmt;

/// Why a meta could not be written.
#[derive(Clone, Copy, Debug, PartialEq, Eq)]
pub enum MetaFault {
    /// Out of memory.
    Memory = 1,
    /// One of its moments is before 1970.
    MetaMoment = 2,
}

impl fmt::Display for MetaFault {
    ghost output = { λ fault. Some (fault_text fault) };

    fn fmt<W: fmt::Write>(&self, f: &mut fmt::Formatter<W>) -> fmt::Result {
        f.write_str(match self {
            MetaFault::Memory => "out of memory",
            MetaFault::MetaMoment => "a moment before 1970",
        })
    }
}

impl std::error::Error for MetaFault {}

impl From<AllocError> for MetaFault {
    ghost use Rattle.std.specs.Prelude.{◌≡◌};
    ghost use Rattle.head_metas.specs.declared.fault.MetaFault.TheVariants.{Memory};

    ghost from_gives = { λ _ fault. fault ≡ Memory };

    fn from(_error: AllocError) -> MetaFault {
        MetaFault::Memory
    }
}

/// Why a meta could not be read.
#[derive(Clone, Copy, Debug, PartialEq, Eq)]
pub enum MetaReadFault {
    /// Out of memory.
    Memory,
    /// The bytes are not a meta: the first fault from the left.
    Pack(PackFault),
}

impl fmt::Display for MetaReadFault {
    ghost output = { λ fault. Some (read_fault_text fault) };

    fn fmt<W: fmt::Write>(&self, f: &mut fmt::Formatter<W>) -> fmt::Result {
        f.write_str(match self {
            MetaReadFault::Memory => "out of memory",
            MetaReadFault::Pack(_) => "not a meta",
        })
    }
}

impl std::error::Error for MetaReadFault {}

impl From<AllocError> for MetaReadFault {
    ghost use Rattle.std.specs.Prelude.{◌≡◌};
    ghost use Rattle.head_metas.specs.declared.fault.MetaReadFault.TheVariants.{Memory};

    ghost from_gives = { λ _ fault. fault ≡ Memory };

    fn from(_error: AllocError) -> MetaReadFault {
        MetaReadFault::Memory
    }
}

impl From<PackFault> for MetaReadFault {
    ghost use Rattle.std.specs.Prelude.{◌≡◌};
    ghost use Rattle.head_metas.specs.declared.fault.MetaReadFault.TheVariants.{Pack};

    ghost from_gives = { λ pack fault. fault ≡ Pack pack };

    fn from(pack: PackFault) -> MetaReadFault {
        MetaReadFault::Pack(pack)
    }
}
