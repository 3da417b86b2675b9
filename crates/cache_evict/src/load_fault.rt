//! Why rows aren't loaded.

ghost use Rattle.std.specs.Prelude.{Some};
ghost use Rattle.cache_evict.specs.LoadTexts.{load_fault_text};

use crate::tracker::Refusal;
use cache_words::pack::PackFault;
use std::error::Error;
use std::fmt;

/// Why the rows of a text weren't all loaded. Those before the fault are.
#[derive(Clone, Copy, Debug, PartialEq, Eq)]
pub enum LoadFault {
    /// The text can't be read further.
    Text(PackFault),
    /// There is no memory for one more entry.
    Memory,
    /// The weight of a shard would pass (2^64 - 1) / N, so that it could not be counted.
    Weight,
    /// A shard has (2^64 - 1) / N entries, or all shards together have 2415919104, which is the most.
    Length,
    /// Each number below 2^64 of the entry's shard has an entry.
    NumbersSpent,
}

impl From<PackFault> for LoadFault {
    ghost use Rattle.std.specs.Prelude.{◌≡◌};
    ghost use Rattle.cache_evict.specs.declared.load_fault.LoadFault.TheVariants.{Text};

    ghost from_gives = { λ fault result. result ≡ Text fault };

    fn from(fault: PackFault) -> LoadFault {
        LoadFault::Text(fault)
    }
}

impl From<Refusal> for LoadFault {
    ghost use Rattle.std.specs.Prelude.{◌≡◌};
    ghost use Rattle.cache_evict.specs.LoadTexts.{fault_of};

    ghost from_gives = { λ refusal result. result ≡ fault_of refusal };

    fn from(refusal: Refusal) -> LoadFault {
        match refusal {
            Refusal::Memory => LoadFault::Memory,
            Refusal::Weight => LoadFault::Weight,
            Refusal::Length => LoadFault::Length,
            Refusal::Spent => LoadFault::NumbersSpent,
        }
    }
}

impl fmt::Display for LoadFault {
    ghost output = { λ fault. Some (load_fault_text fault) };

    fn fmt<W: fmt::Write>(&self, f: &mut fmt::Formatter<W>) -> fmt::Result {
        match self {
            LoadFault::Text(fault) => fmt::Display::fmt(fault, f),
            LoadFault::Memory => f.write_str("out of memory"),
            LoadFault::Weight => f.write_str("the weight of the shard could not be counted"),
            LoadFault::Length => f.write_str("there is no room for one more entry"),
            LoadFault::NumbersSpent => f.write_str("no number is left for the entry's hash"),
        }
    }
}

impl Error for LoadFault {}
