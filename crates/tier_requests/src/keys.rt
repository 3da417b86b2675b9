//! Requested keys as they are kept.
ghost use Rattle.std.specs.Prelude.{◌≡◌, IfOk};
ghost use Rattle.cache_words.specs.Key.{key_of};

use cache_words::key::{CacheHashKey, CacheKey};
use std::alloc::{AllocError, Global};

/// Returns a key that is kept as that one is: the bytes that it names aren't copied, but their hash.
///
/// # Errors
///
/// Out of memory.
pub fn kept_key(alloc: Global, key: &CacheKey) -> Result<CacheKey, AllocError>
    ensures { IfOk result (λ kept. key_of kept ≡ key_of key.now) }
{
    let tag = String::from_str(alloc, key.user_tag())?;
    let mut kept = CacheKey::new(Vec::new(alloc), tag);
    kept.set_primary_bin_override(key.primary_bin());
    if let Some(variance) = key.variance_bin() {
        kept.set_variance_key(variance);
    }
    Ok(kept)
}
