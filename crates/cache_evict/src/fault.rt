//! Why entries aren't tracked or evicted.

ghost use Rattle.std.specs.Prelude.{◌≡◌, [], Some};
ghost use Rattle.cache_evict.specs.Faults.{evicted_of, cause_of, evict_fault_text};

use crate::tracker::Refusal;
use cache_entries::entry::CacheEntryKey;
use std::alloc::Global;
use std::error::Error;
use std::fmt;

/// Why a call of a manager stopped, with the entries that it had evicted until then, in order.
#[derive(Debug, Drop, PartialEq, Eq)]
pub enum EvictFault {
    /// There is no memory.
    Memory(Vec<CacheEntryKey>),
    /// The weight of a shard would pass (2^64 - 1) / N, so that it could not be counted.
    Weight(Vec<CacheEntryKey>),
    /// A shard has (2^64 - 1) / N entries, or all shards together have 2415919104, which is the most.
    Length(Vec<CacheEntryKey>),
    /// Each number below 2^64 of the entry's shard has an entry.
    NumbersSpent(Vec<CacheEntryKey>),
    /// A file could not be read or written.
    File(Vec<CacheEntryKey>),
}

impl EvictFault {
    // The fault of a refusal before any eviction.
    pub(crate) fn of(alloc: Global, refusal: Refusal) -> EvictFault
        ensures why { cause_of result ≡ Some refusal }
        ensures none { evicted_of result ≡ [] }
    {
        match refusal {
            Refusal::Memory => EvictFault::Memory(Vec::new(alloc)),
            Refusal::Weight => EvictFault::Weight(Vec::new(alloc)),
            Refusal::Length => EvictFault::Length(Vec::new(alloc)),
            Refusal::Spent => EvictFault::NumbersSpent(Vec::new(alloc)),
        }
    }
}

impl fmt::Display for EvictFault {
    ghost output = { λ fault. Some (evict_fault_text fault) };

    fn fmt<W: fmt::Write>(&self, f: &mut fmt::Formatter<W>) -> fmt::Result {
        f.write_str(match self {
            EvictFault::Memory(_) => "out of memory",
            EvictFault::Weight(_) => "the weight of the shard could not be counted",
            EvictFault::Length(_) => "there is no room for one more entry",
            EvictFault::NumbersSpent(_) => "no number is left for the entry's hash",
            EvictFault::File(_) => "a file could not be read or written",
        })
    }
}

impl Error for EvictFault {}
