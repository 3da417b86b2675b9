//! A store that stores nothing: it takes what it can from the traits, and answers the rest as most stores without tags and ids do.
ghost use Rattle.std.specs.Prelude.{⊤, true, false, None, [], ℕ};
ghost use Rattle.cache_changes.specs.Store.{empty_store};
ghost use Rattle.cache_store.specs.Readers.{whole};
ghost use Rattle.cache_store.specs.declared.storage.MissFinishType.TheVariants.{Created};

use crate::samples::{known, meta};
use bytes::Bytes;
use cache_entries::entry::CacheEntryId;
use cache_heads::CacheMeta;
use cache_store::storage::{
    Contents, Found, HandleHit, HandleMiss, MissFault, MissFinishType, PurgeOutcome, PurgeTarget,
    PurgeType, ReadStep, Storage, StoreFault,
};
use cache_words::key::{CacheKey, CompactCacheKey, HashBinary};
use cache_words::time::Moment;
use std::alloc::{AllocError, Global};
use std::test::*;

#[derive(Clone, Copy)]
struct Nothing;

// A reader of no bytes, and a writer of nothing.
#[derive(Clone, Copy)]
struct Nobody;

impl Contents for Nothing {
    ghost held = { λ _. record { store = empty_store; next = 0; readings = [] } };

    ghost ids = { λ _ _. None };

    ghost weigh = { λ _. 0 };

    ghost tagged = { λ _. None };
}

impl Storage for Nothing {
    type Hit = Nobody;

    type Miss = Nobody;

    type NewMeta = (HashBinary, CacheMeta);

    ghost key_in = { λ n. n.0 };

    ghost meta_in = { λ n. n.1 };

    ghost is_spent = { λ _. true };

    ghost streams = { false };

    ghost purged_as = { λ _ _ _. ⊤ };

    fn lookup(&mut self, _key: &CacheKey) -> Result<Found<Nobody>, StoreFault> {
        Ok(None)
    }

    fn lookup_streaming_write(
        &mut self,
        key: &CacheKey,
        _tag: Option<&[u8]>,
    ) -> Result<Found<Nobody>, StoreFault> {
        self.lookup(key)
    }

    fn get_miss_handler(
        &mut self,
        _key: &CacheKey,
        _meta: &CacheMeta,
    ) -> Result<Nobody, StoreFault> {
        Err(StoreFault::WriteNumbersSpent)
    }

    fn purge(&mut self, _target: PurgeTarget<'_>, _purge_type: PurgeType) -> PurgeOutcome {
        PurgeOutcome::NotFound
    }

    fn prepare_meta(
        &self,
        _key: &CacheKey,
        _meta: &CacheMeta,
    ) -> Result<((HashBinary, CacheMeta), usize), StoreFault> {
        Err(StoreFault::NoMeta)
    }

    fn install_meta(&mut self, _new: (HashBinary, CacheMeta)) {}

    fn support_streaming_partial_write(&self) -> bool {
        false
    }
}

impl HandleHit<Nothing> for Nobody {
    ghost reader = { λ _. whole 0 [] [] };

    ghost unread = { λ _. false };

    ghost counts = { λ _. true };

    ghost weight = { λ _. 0 };

    ghost id = { λ _. None };

    ghost seekable = { λ _. false };

    ghost head = { λ _. None };

    fn read_body(&mut self, _store: &mut Nothing) -> Result<ReadStep, StoreFault> {
        Ok(ReadStep::End)
    }

    fn finish(self, _store: &mut Nothing) {}

    fn can_seek(&self) -> bool {
        false
    }

    fn seek(&mut self, _start: usize, _end: Option<usize>) -> Result<(), StoreFault> {
        Err(StoreFault::SeekRange)
    }

    fn should_count_access(&self) -> bool {
        true
    }

    fn get_eviction_weight(&self) -> usize {
        0
    }

    fn entry_id(&self) -> Option<CacheEntryId> {
        None
    }
}

impl HandleMiss<Nothing> for Nobody {
    ghost number = { λ _. 0 };

    ghost tag = { λ _. None };

    ghost id = { λ _. None };

    ghost told = { λ _. Created 0 };

    fn write_body(
        &mut self,
        _store: &mut Nothing,
        _more: Bytes,
        _eof: bool,
    ) -> Result<(), StoreFault> {
        Err(StoreFault::WriteRemoved)
    }

    fn finish(self, _store: &mut Nothing) -> Result<MissFinishType, MissFault<Nobody>> {
        Err(MissFault::WriteRemoved)
    }

    fn len(&self, _store: &Nothing) -> usize {
        0
    }

    fn is_removed(&self, _store: &Nothing) -> bool {
        true
    }

    fn leave(self, _store: &mut Nothing) {}

    fn streaming_write_tag(&self) -> Option<&[u8]> {
        None
    }

    fn entry_id(&self) -> Option<CacheEntryId> {
        None
    }
}

// Whether no write begins, a look-up of one finds none, an expiry meets nothing, and no write is read while it is written.
fn is_nothing_there(alloc: Global, key: &CacheKey, compact: &CompactCacheKey) -> bool {
    let begun = Nothing.get_miss_handler_owned(key, meta(alloc, 1300));
    let found = Nothing.lookup_streaming_write(key, Some(&[0]));
    let outcome = Nothing.expire(PurgeTarget::Active(compact), Moment::from_seconds(1000));
    Nothing.install_meta(([0; 16], meta(alloc, 1300)));
    let updated = Nothing.update_meta(key, &meta(alloc, 1300));
    updated == Err(StoreFault::NoMeta)
        && begun.is_err()
        && matches!(found, Ok(None))
        && matches!(outcome, Ok(PurgeOutcome::NotFound))
        && !Nothing.support_streaming_partial_write()
}

fn is_asked(alloc: Global) -> bool {
    let key = known(alloc, b"aa");
    match key.to_compact() {
        Ok(compact) => is_nothing_there(alloc, &key, &compact),
        Err(AllocError) => false,
    }
}

fn is_nobody(mut hit: Nobody) -> bool {
    matches!(hit.seek(0, None), Err(StoreFault::SeekRange))
        && matches!(hit.seek_multipart(0, None), Err(StoreFault::SeekRange))
        && !hit.can_seek()
        && !hit.can_seek_multipart()
        && hit.should_count_access()
        && hit.get_eviction_weight() == 0
        && <Nobody as HandleHit<Nothing>>::entry_id(&hit).is_none()
        && <Nobody as HandleMiss<Nothing>>::entry_id(&hit).is_none()
        && hit.streaming_write_tag().is_none()
        && hit.len(&Nothing) == 0
        && hit.is_removed(&Nothing)
}

#[test]
fn calls_have_default_bodies(rt: HostRuntime) {
    assert!(rt; is_asked(rt.alloc()) && is_nobody(Nobody));
}
