//! Why a list does not take an item.

ghost use Rattle.std.specs.Prelude.{Some};
ghost use Rattle.lru_list.specs.FaultTexts.{fault_text};

use std::error::Error;
use std::fmt;

/// Why an item was not inserted, with the item.
#[derive(Debug, Drop)]
pub enum ListFault<K> {
    /// There is no memory for one more slot.
    Memory(K),
    /// There are `MOST_ITEMS` items.
    Full(K),
}

impl<K> fmt::Display for ListFault<K> {
    ghost output = { λ fault. Some (fault_text fault) };

    fn fmt<W: fmt::Write>(&self, f: &mut fmt::Formatter<W>) -> fmt::Result {
        f.write_str(match self {
            ListFault::Memory(_) => "out of memory",
            ListFault::Full(_) => "the list is full",
        })
    }
}

impl<K: fmt::Debug + Drop> Error for ListFault<K> {}
