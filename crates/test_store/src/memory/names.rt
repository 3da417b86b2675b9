//! The names under which the steps write, look and purge.
use super::rows::Target;
use crate::samples::known;
use cache_entries::entry::{CacheEntryId, CacheEntryKey};
use cache_store::storage::PurgeTarget;
use cache_words::key::{CacheKey, CompactCacheKey};
use std::alloc::{AllocError, Global};

// A key, and its entries without an id and with one.
#[derive(Drop)]
pub(super) struct Names {
    pub(super) alloc: Global,
    pub(super) aa: CacheKey,
    entry: CacheEntryKey,
    identified: CacheEntryKey,
}

fn entry(alloc: Global, key: &CacheKey, id: Option<CacheEntryId>) -> CacheEntryKey {
    let compact = match key.to_compact() {
        Ok(compact) => compact,
        Err(AllocError) => CompactCacheKey::empty(alloc),
    };
    CacheEntryKey::from_entry_id(compact, id)
}

impl Names {
    pub(super) fn new(alloc: Global) -> Names {
        let aa = known(alloc, b"aa");
        let plain = entry(alloc, &aa, None);
        let identified = entry(alloc, &aa, Some(CacheEntryId::new(1)));
        Names {
            alloc,
            aa,
            entry: plain,
            identified,
        }
    }

    pub(super) fn target(&self, target: Target) -> PurgeTarget<'_> {
        match target {
            Target::Key => PurgeTarget::Active(self.entry.key()),
            Target::Entry => PurgeTarget::Exact(&self.entry),
            Target::Id => PurgeTarget::Exact(&self.identified),
        }
    }
}
