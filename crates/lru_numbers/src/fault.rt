//! Why an entry gets no number.

ghost use Rattle.std.specs.Prelude.{Some};
ghost use Rattle.lru_numbers.specs.FaultTexts.{numbers_fault_text};

use cache_entries::entry::CacheEntryKey;
use std::error::Error;
use std::fmt;

/// Why an entry got no number, with the entry.
#[derive(Debug, Drop, PartialEq)]
pub enum NumbersFault {
    /// There is no memory for one more number.
    Memory(CacheEntryKey),
    /// 2415919104 entries have a number, which is the most.
    Length(CacheEntryKey),
    /// Each number that the entry's hash allows has an entry.
    NumbersSpent(CacheEntryKey),
}

impl fmt::Display for NumbersFault {
    ghost output = { λ fault. Some (numbers_fault_text fault) };

    fn fmt<W: fmt::Write>(&self, f: &mut fmt::Formatter<W>) -> fmt::Result {
        f.write_str(match self {
            NumbersFault::Memory(_) => "out of memory",
            NumbersFault::Length(_) => "there is no room for one more entry",
            NumbersFault::NumbersSpent(_) => "no number is left for the entry's hash",
        })
    }
}

impl Error for NumbersFault {}
