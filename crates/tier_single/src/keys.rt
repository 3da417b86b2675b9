//! Requested keys as they are kept.
ghost use Rattle.std.specs.Prelude.{◌≡◌};
ghost use Rattle.cache_changes.specs.Changes.{stored_key};
ghost use Rattle.cache_evict.specs.Parts.{entry_with_parts};
ghost use Rattle.tier_model.specs.Keys.{entry_of, alone, stored_key_of};

use cache_evict::KeyParts;
use cache_words::key::{CacheHashKey, CacheKey, CompactCacheKey, HashBinary};
use std::alloc::Global;

// The parts of a requested key as it is kept, and its stored key. Each part is hashed once.
pub(crate) fn parts_of(key: &CacheKey) -> (KeyParts<'_>, HashBinary)
    ensures entry { entry_with_parts result.0 ≡ alone (entry_of key.now) }
    ensures stored { result.1 ≡ stored_key_of key.now }
{
    let parts = KeyParts {
        primary: key.primary_bin(),
        variance: key.variance_bin(),
        user_tag: key.user_tag(),
    };
    (parts, parts.combined_bin())
}

// A kept key that is stored under that stored key. It takes no memory.
pub(crate) fn named_by(alloc: Global, stored: HashBinary) -> CompactCacheKey
    ensures { stored_key result ≡ stored }
{
    let mut key = CompactCacheKey::empty(alloc);
    key.primary = stored;
    key
}
