//! Managers of a cache's order of use: over shards of one thread, over one list, and over shards whose changes are messages.

pub use cache_evict::{
    CacheEntryId, CacheEntryKey, CacheEntryKeyRef, EvictFault, EvictionManager, KeyParts,
    LoadFault, PackFault, PackWriteFault, lru, numbers, simple_lru,
};
pub use lru_async_manager as async_lru;
pub use lru_files::persistence::{self, Folder, ShardLoadReport, ShardSaveReport};
