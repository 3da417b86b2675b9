//! Why a shard does not take a row.

ghost use Rattle.std.specs.Prelude.{◌≡◌, Some};
ghost use Rattle.lru_core.specs.FaultTexts.{fault_text};
ghost use Rattle.lru_core.specs.Faults.{shard_fault};

use lru_list::linked_list::ListFault;
use std::error::Error;
use std::fmt;

/// Why a row was not inserted or a weight not set, with what the caller handed in.
#[derive(Debug, Drop)]
pub enum LruFault<D> {
    /// There is no memory for one more row.
    Memory(D),
    /// The weight of the shard would pass its bound.
    Weight(D),
    /// The number of rows of the shard would pass its bound, or `MOST_ROWS`.
    Length(D),
}

impl<D> From<ListFault<D>> for LruFault<D> {
    ghost from_gives = { λ fault of_shard. of_shard ≡ shard_fault fault };

    fn from(fault: ListFault<D>) -> LruFault<D> {
        match fault {
            ListFault::Memory(back) => LruFault::Memory(back),
            ListFault::Full(back) => LruFault::Length(back),
        }
    }
}

impl<D> fmt::Display for LruFault<D> {
    ghost output = { λ fault. Some (fault_text fault) };

    fn fmt<W: fmt::Write>(&self, f: &mut fmt::Formatter<W>) -> fmt::Result {
        f.write_str(match self {
            LruFault::Memory(_) => "out of memory",
            LruFault::Weight(_) => "the weight of the shard would pass its bound",
            LruFault::Length(_) => "the shard has no room for one more row",
        })
    }
}

impl<D: fmt::Debug + Drop> Error for LruFault<D> {}
