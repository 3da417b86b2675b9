//! The head of what is found.
ghost use Rattle.std.specs.Prelude.{◌≡◌, MatchResult, IsSome, option_map};
ghost use Rattle.store_memory.specs.Shown.{meta_shown};
ghost use Rattle.tier_model.specs.Keys.{stored_key_of};
ghost use Rattle.tier_model.specs.Shelf.{look};
ghost use Rattle.tier_requests.specs.Shown.{meta_found};

use super::Tier;
use crate::keys::parts_of;
use cache_heads::CacheMeta;
use cache_words::key::CacheKey;
use std::alloc::{AllocError, Global};
use std::hash::BuildHasher;
use store_memory::ShownMeta;

impl<const N: usize, S: BuildHasher> Tier<N, S> {
    /// Lends the meta of what a look-up of a key finds now: status and header lines, when it came, until when it is fresh, and the
    /// windows in which it may be served stale. Of a write in flight it is that of its head, of a finished body the one that is stored
    /// with it; None where nothing is found. Right after a look-up answered Found it is the head of what was found.
    ///
    /// It takes no memory, counts no look-up, and is no use.
    pub fn shown(&self, key: &CacheKey) -> Option<ShownMeta<'_>>
        ensures { option_map meta_shown result ≡ meta_found (look (stored_key_of key.now) self.now.shelf) }
    {
        let (_, stored) = parts_of(key);
        self.parts.store.shown_meta(&stored)
    }

    /// Returns a copy of the meta that `shown` lends, as for a caller that hands the tier back to others before it sends the head.
    ///
    /// # Errors
    ///
    /// `AllocError` where something is found and there is no memory for its copy.
    pub fn shown_meta(&self, alloc: Global, key: &CacheKey) -> Result<Option<CacheMeta>, AllocError>
        ensures { MatchResult result (λ found. found ≡ meta_found (look (stored_key_of key.now) self.now.shelf))
            (λ _. IsSome (meta_found (look (stored_key_of key.now) self.now.shelf))) }
    {
        let Some(shown) = self.shown(key) else {
            return Ok(None);
        };
        match shown.to_meta(alloc) {
            Ok(meta) => Ok(Some(meta)),
            Err(fault) => Err(fault),
        }
    }
}
