//! The finished body that a look-up shows.
ghost use Rattle.std.specs.Prelude.{◌≡◌, List, ℕ, option_map};
ghost use Rattle.cache_heads.specs.declared.meta.CacheMeta.{CacheMeta as Meta};
ghost use Rattle.cache_store.specs.Answers.{look_up};
ghost use Rattle.store_memory.specs.Shown.{whole_shown};

use super::MemCache;
use crate::flight::Shown;
use bytes::Bytes;
use cache_words::key::HashBinary;
use head_packed::PackedMeta;
use std::hash::BuildHasher;

impl<S: BuildHasher> MemCache<S> {
    /// Lends the finished body of a stored key, with its meta and what it weighs, where that is what a look-up of the key shows: none where a
    /// write in flight is. No memory is taken.
    pub fn shown_body(&self, key: &HashBinary) -> Option<(&PackedMeta, &Bytes, usize)>
        ensures { option_map {U = Meta × List ℕ × ℕ} (λ f. (f.0.now, f.1.now, f.2)) result ≡ whole_shown (look_up key.now self.now.store) }
    {
        match self.shown(key)? {
            Shown::Flying(_, _) => None,
            Shown::Body(kept) => {
                Some((kept.body().meta.packed(), &kept.body().bytes, kept.weight()))
            }
        }
    }
}
