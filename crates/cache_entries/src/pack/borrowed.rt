//! Entries whose tag is borrowed.
ghost use Rattle.std.specs.Prelude.{◌≡◌, IfOk};
ghost use Rattle.cache_entries.specs.BorrowedEntry.{borrowed_entry};

use super::BorrowedEntry;
use crate::entry::CacheEntryKey;
use std::alloc::{AllocError, Global};

impl<'a> BorrowedEntry<'a> {
    /// The entry with a tag of its own.
    pub fn to_entry(&self, alloc: Global) -> Result<CacheEntryKey, AllocError>
        ensures { IfOk result (λ entry. entry ≡ borrowed_entry self.now) }
    {
        Ok(CacheEntryKey::from_entry_id(self.key.to_compact(alloc)?, self.id))
    }
}
