//! What is kept of finished bodies, without a look at writes in flight.
ghost use Rattle.std.specs.Prelude.{◌≡◌, ◌-◌, ◌^◌, List, ℕ, length, map, min, nat_eq, option_map};
ghost use Rattle.std.specs.Cmp.Lexicographic.{pointwise};
ghost use Rattle.std.specs.List.{IsDistinct, sum_by};
ghost use Rattle.cache_changes.specs.Store.{body_at, shown_at};
ghost use Rattle.cache_heads.specs.Meta.{meta_length};
ghost use Rattle.cache_heads.specs.declared.meta.CacheMeta.{CacheMeta as Meta};
ghost use Rattle.store_memory.specs.Kept.{body_of};
ghost use Rattle.store_memory.specs.Shown.{meta_shown};

use super::MemCache;
use crate::bodies;
use crate::flight::{Kept, Shown};
use crate::meta::ShownMeta;
use bytes::Bytes;
use cache_words::key::HashBinary;
use head_packed::PackedMeta;
use std::hash::BuildHasher;

impl<S: BuildHasher> MemCache<S> {
    // Lends what is kept of the finished body of a stored key.
    pub(crate) fn kept(&self, key: &HashBinary) -> Option<&Kept>
        ensures { option_map (λ b. body_of (key.now, b.now)) result ≡ body_at key.now self.now.store }
    {
        bodies::get(&self.bodies, key)
    }

    /// Lends the finished body of a stored key, with its meta. Writes in flight are not looked at, and no memory is taken.
    pub fn finished(&self, key: &HashBinary) -> Option<(&PackedMeta, &Bytes)>
        ensures { option_map {U = Meta × List ℕ} (λ f. (f.0.now, f.1.now)) result ≡ option_map (λ x. (x.meta, x.bytes)) (body_at key.now self.now.store) }
    {
        match self.kept(key) {
            Some(kept) => Some((kept.body().meta.packed(), &kept.body().bytes)),
            None => None,
        }
    }

    /// Lends the meta of what a look-up of a stored key shows: of the write in flight that began first of those that no removal met, and without
    /// one of the finished body. No memory is taken.
    pub fn shown_meta(&self, key: &HashBinary) -> Option<ShownMeta<'_>>
        ensures { option_map meta_shown result ≡ option_map (λ x. x.meta) (shown_at key.now self.now.store) }
    {
        match self.shown(key)? {
            Shown::Flying(_, flight) => Some(ShownMeta::InFlight(flight.meta.packed())),
            Shown::Body(kept) => Some(ShownMeta::Finished(kept.body().meta.packed())),
        }
    }

    /// Returns the number of the write whose body a stored key has.
    pub fn body_number(&self, key: &HashBinary) -> Option<u64>
        ensures { result ≡ option_map (λ x. x.write.number) (body_at key.now self.now.store) }
    {
        match self.kept(key) {
            Some(kept) => Some(kept.body().number),
            None => None,
        }
    }

    /// Returns how many finished bodies there are. No key is there twice.
    pub fn finished_len(&self) -> usize
        ensures count { result ≡ length self.now.store.bodies }
        ensures unique { IsDistinct (pointwise nat_eq) (map (λ x. x.write.key) self.now.store.bodies) }
    {
        self.bodies.len()
    }

    /// Returns how many bytes all finished bodies have, counted up to 2^64 - 1. It looks at each body.
    pub fn finished_bytes(&self) -> u64
        ensures { result ≡ min (sum_by (λ x. length x.bytes) self.now.store.bodies) (2 ^ 64 - 1) }
    {
        bodies::bytes_of_all(&self.bodies)
    }

    /// Returns how many bytes the metas of all finished bodies take as they are written, counted up to 2^64 - 1. It looks at each body.
    pub fn finished_meta(&self) -> u64
        ensures { result ≡ min (sum_by (λ x. meta_length x.meta) self.now.store.bodies) (2 ^ 64 - 1) }
    {
        bodies::meta_of_all(&self.bodies)
    }

    /// Returns how many bytes all finished bodies have outside the cache, counted up to 2^64 - 1. It looks at each body.
    pub fn finished_external(&self) -> u64
        ensures { result ≡ min (sum_by (λ x. x.meta.external) self.now.store.bodies) (2 ^ 64 - 1) }
    {
        bodies::external_of_all(&self.bodies)
    }
}
