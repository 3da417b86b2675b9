//! The store, as what a cache asks of one.
ghost use Rattle.std.specs.Prelude.{◌≡◌, ⊤, true, None, option_map, IfOk, IsOk, MatchResult};
ghost use Rattle.cache_words.specs.Key.{combined, key_of};
ghost use Rattle.cache_store.specs.Answers.{look_up};
ghost use Rattle.cache_store.specs.Looks.{LookAnswer, LookAtAnswer, LookFreshAnswer, ReaderAnswer, TagAnswer, Tells, HasHeadAt, HasHeadFresh, HasHeadOf, asked, shows};
ghost use Rattle.cache_store.specs.Purges.{target_key, id_at};
ghost use Rattle.cache_store.specs.Renewals.{ExpireAnswer, StaleAnswer};
ghost use Rattle.cache_store.specs.declared.storage.StoreFault.{StoreFault as Fault};
ghost use Rattle.store_memory.specs.Kept.{weigh};
ghost use Rattle.store_memory.specs.Looks.{MemLookAnswer, MemTagAnswer, tag_number};
ghost use Rattle.store_memory.specs.Misses.{are_numbers_spent};
ghost use Rattle.store_memory.specs.Readings.{head_of, reader_of, weight_of};

use crate::MemCache;
use crate::handlers::{MemHitHandler, MemMissHandler};
use crate::lookup::number_of;
use crate::meta::NewMeta;
use bytes::Bytes;
use cache_entries::entry::{CacheEntryId, CacheEntryKey};
use cache_heads::CacheMeta;
use cache_store::storage::{
    Contents, Found, FoundAt, FreshLook, MissFinishType, PurgeOutcome, PurgeTarget, PurgeType,
    Storage, StoreFault,
};
use cache_words::key::{CacheHashKey, CacheKey};
use cache_words::time::Moment;
use std::hash::BuildHasher;

impl<S: BuildHasher> Contents for MemCache<S> {
    ghost held = { λ c. c };

    ghost ids = { λ _ _. None };

    ghost weigh = { weigh };

    ghost tagged = { tag_number };
}

impl<S: BuildHasher> Storage for MemCache<S> {
    type Hit = MemHitHandler;

    type Miss = MemMissHandler;

    type NewMeta = NewMeta;

    ghost key_in = { λ n. n.key };

    ghost meta_in = { λ n. n.meta };

    ghost is_spent = { are_numbers_spent };

    ghost streams = { true };

    ghost purged_as = { λ _ _ _. ⊤ };

    fn lookup(&mut self, key: &CacheKey) -> Result<Found<MemHitHandler>, StoreFault>
        ensures answer { MemLookAnswer (look_up (combined (key_of key.now)) self.old.store) self.old result self.new }
        ensures look { LookAnswer reader_of (shows true (combined (key_of key.now)) self.old.store) self.old result self.new }
        ensures tells { Tells weight_of (λ _. None) weigh None (shows true (combined (key_of key.now)) self.old.store) result }
        ensures head { HasHeadOf head_of (shows true (combined (key_of key.now)) self.old.store) result }
    {
        self.look(&key.combined_bin())
    }

    // No meta is unpacked: of a stale body a share is given.
    #[inline(always)]
    fn lookup_at(
        &mut self,
        key: &CacheKey,
        moment: Moment,
    ) -> Result<Option<FoundAt<MemHitHandler>>, StoreFault>
        ensures look { LookAtAnswer reader_of weight_of (λ _. None) weigh None moment (shows true (combined (key_of key.now)) self.old.store) self.old result self.new }
        ensures head { HasHeadAt head_of (shows true (combined (key_of key.now)) self.old.store) result }
    {
        self.look_fresh(&key.combined_bin(), moment)
    }

    // No meta is unpacked, of a stale body neither.
    fn lookup_fresh(
        &mut self,
        key: &CacheKey,
        moment: Moment,
    ) -> Result<FreshLook<MemHitHandler>, StoreFault>
        ensures look { LookFreshAnswer reader_of weight_of (λ _. None) weigh None moment (shows true (combined (key_of key.now)) self.old.store) self.old result self.new }
        ensures head { HasHeadFresh head_of (shows true (combined (key_of key.now)) self.old.store) result }
    {
        self.find_fresh(&key.combined_bin(), moment)
    }

    fn lookup_streaming_write(
        &mut self,
        key: &CacheKey,
        tag: Option<&[u8]>,
    ) -> Result<Found<MemHitHandler>, StoreFault>
        ensures answer { let named = tag_number (option_map (λ t. t.now) tag.entry) in
            MemTagAnswer named (asked true (combined (key_of key.now)) named self.old.store) self.old result self.new }
        ensures stream { let named = tag_number (option_map (λ t. t.now) tag.entry) in
            TagAnswer reader_of named (asked true (combined (key_of key.now)) named self.old.store) self.old result self.new }
        ensures tells { let named = tag_number (option_map (λ t. t.now) tag.entry) in
            Tells weight_of (λ _. None) weigh None (asked true (combined (key_of key.now)) named self.old.store) result }
    {
        let key = key.combined_bin();
        match number_of(tag) {
            Some(number) => self.look_at(&key, number),
            None => self.look(&key),
        }
    }

    // The meta stays packed.
    fn lookup_streaming_reader(
        &mut self,
        key: &CacheKey,
        tag: Option<&[u8]>,
    ) -> Result<Option<MemHitHandler>, StoreFault>
        ensures reader { let named = tag_number (option_map (λ t. t.now) tag.entry) in
            ReaderAnswer reader_of weight_of (λ _. None) weigh None named (asked true (combined (key_of key.now)) named self.old.store) self.old result self.new }
    {
        self.read_at(&key.combined_bin(), number_of(tag))
    }

    fn get_miss_handler(
        &mut self,
        key: &CacheKey,
        meta: &CacheMeta,
    ) -> Result<MemMissHandler, StoreFault> {
        self.begin_write(key.combined_bin(), meta)
    }

    fn get_miss_handler_owned(
        &mut self,
        key: &CacheKey,
        meta: CacheMeta,
    ) -> Result<MemMissHandler, StoreFault> {
        self.begin_write(key.combined_bin(), &meta)
    }

    // No look-up can come before the body is there, so no write in flight is kept.
    fn store_whole(
        &mut self,
        key: &CacheKey,
        meta: CacheMeta,
        body: Bytes,
    ) -> Result<(MissFinishType, Option<CacheEntryId>), StoreFault> {
        match self.put_whole(key.combined_bin(), &meta, body) {
            Ok(weight) => Ok((MissFinishType::Created(weight), None)),
            Err(fault) => Err(fault),
        }
    }

    fn purge(&mut self, target: PurgeTarget<'_>, _purge_type: PurgeType) -> PurgeOutcome {
        if matches!(target, PurgeTarget::Exact(CacheEntryKey::Identified { .. })) {
            return PurgeOutcome::NotFound;
        }
        if self.remove(&target.key().combined_bin()) {
            PurgeOutcome::Purged(None)
        } else {
            PurgeOutcome::NotFound
        }
    }

    // It takes no memory.
    fn expire(
        &mut self,
        target: PurgeTarget<'_>,
        moment: Moment,
    ) -> Result<PurgeOutcome, StoreFault>
        ensures answer { IfOk result (λ outcome. ExpireAnswer (target_key (λ _. None) target.entry) moment self.old outcome self.new) × IsOk result }
        ensures stale { let k = target_key (λ _. None) target.entry in
            MatchResult result (λ outcome. StaleAnswer k (id_at (λ _. None) k) moment ⊤ self.old outcome self.new) (λ f. (f ≡ Fault.Memory) × (self.new ≡ self.old)) }
    {
        if matches!(target, PurgeTarget::Exact(CacheEntryKey::Identified { .. })) {
            return Ok(PurgeOutcome::NotFound);
        }
        if self.expire_body(&target.key().combined_bin(), moment) {
            Ok(PurgeOutcome::Expired)
        } else {
            Ok(PurgeOutcome::NotFound)
        }
    }

    fn prepare_meta(
        &self,
        key: &CacheKey,
        meta: &CacheMeta,
    ) -> Result<(NewMeta, usize), StoreFault> {
        self.prepare(key.combined_bin(), meta)
    }

    fn install_meta(&mut self, new: NewMeta) {
        self.install(new);
    }

    // The key is hashed once.
    fn update_meta(&mut self, key: &CacheKey, meta: &CacheMeta) -> Result<(), StoreFault> {
        self.replace_meta(&key.combined_bin(), meta)
    }

    fn support_streaming_partial_write(&self) -> bool {
        true
    }
}
