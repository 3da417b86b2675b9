//! Entries as keys of a table.

ghost use Rattle.std.specs.Prelude.{◌≡◌};
ghost use Rattle.std.specs.Cmp.{partial_equiv_from_equiv};
ghost use Rattle.cache_entries.specs.Entry.{same_entry};
ghost use Rattle.cache_entries.specs.SameEntry.{entries_equivalence, same-hashed, same_entry-tells};
ghost use Rattle.lru_numbers.specs.Hashed.{table_writes};

use crate::query::Query;
use cache_entries::entry::{CacheEntryKey, CacheEntryKeyRef};
use std::hash::{Hash, Hasher};
use std::marker::Model;

// An entry as a key of a table: each of its parts is hashed in a write or two, and not byte by byte as the arrays in an entry are.
#[derive(Drop)]
pub(crate) struct TableKey {
    entry: CacheEntryKey,
}

impl Model for TableKey {
    ghost use Rattle.cache_entries.specs.declared.entry.CacheEntryKey.{CacheEntryKey};
    ghost use Rattle.cache_entries.specs.contracts.entry.CacheEntryKey.{the_row};

    ghost Value = { CacheEntryKey };

    ghost coded = { the_row.coded };

    ghost view = { λ k. k.entry };
}

impl TableKey {
    pub(crate) fn new(entry: CacheEntryKey) -> TableKey
        ensures { result ≡ entry }
    {
        TableKey { entry }
    }

    // Lends the entry.
    pub(crate) fn entry(&self) -> &CacheEntryKey
        ensures { result.now ≡ self.now }
    {
        &self.entry
    }

    // Returns the entry.
    pub(crate) fn into_entry(self) -> CacheEntryKey
        ensures { result ≡ self }
    {
        self.entry
    }
}

impl PartialEq for TableKey {
    ghost eq = { same_entry };

    ghost laws = { partial_equiv_from_equiv entries_equivalence };

    fn eq(&self, other: &TableKey) -> bool {
        self.entry == other.entry
    }
}

impl Eq for TableKey {
    ghost laws = { entries_equivalence };
}

impl Hash for TableKey {
    ghost hash_input = { table_writes };

    ghost respects_eq = { same-hashed same_entry same_entry-tells table_writes };

    fn hash<H: Hasher>(&self, state: &mut H) {
        Query::of(CacheEntryKeyRef::from(&self.entry)).hash(state);
    }
}
