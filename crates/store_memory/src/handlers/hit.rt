//! Readers, as what a store gives out.
ghost use Rattle.std.specs.Prelude.{◌≡◌, None, true, option_map, MatchResult, IsOk, OnOk};
ghost use Rattle.cache_store.specs.declared.storage.StoreFault.{StoreFault as Fault};
ghost use Rattle.cache_store.specs.Readers.{IsStep, IsEmptyOnce, IsRange, IsSought, ReadsSame, ahead, number_read};
ghost use Rattle.store_memory.specs.Readings.{HitRead, HitSeek, head_of, is_complete, is_unread, reader_of, weight_of};

use super::MemHitHandler;
use crate::MemCache;
use cache_entries::entry::CacheEntryId;
use cache_store::storage::{HandleHit, ReadStep, StoreFault};
use head_packed::SharedHead;
use std::hash::BuildHasher;

// What needs no store has a name of its own, so that a caller need not say which store.
impl MemHitHandler {
    /// Returns the number of the write whose body is read, or which is read as it comes.
    pub fn write_number(&self) -> u64
        ensures { result ≡ number_read (reader_of self.now) }
    {
        match self {
            MemHitHandler::Complete(hit) => hit.number(),
            MemHitHandler::Partial(hit) => hit.number(),
        }
    }

    /// Lends the head of the finished body that is read, as it was when that was found. A clone of it is a share. Of a write it lends none:
    /// `MemCache::write_head` does.
    pub fn head(&self) -> Option<&SharedHead>
        ensures { option_map (λ h. h.now) result ≡ head_of self.now }
    {
        match self {
            MemHitHandler::Complete(hit) => Some(hit.head()),
            MemHitHandler::Partial(_) => None,
        }
    }

    /// Returns whether `seek` can set a range, as it can of a finished body.
    pub fn can_seek(&self) -> bool
        ensures { result ≡ is_complete self.now }
    {
        !matches!(self, MemHitHandler::Partial(_))
    }

    /// Sets what is read next of a finished body: from `start` to `end` or, where that is less, to the body's end.
    ///
    /// # Errors
    ///
    /// `SeekRange` for a write, and where `start` isn't within the body, or `end` is below it; then an earlier range stays.
    pub fn seek(&mut self, start: usize, end: Option<usize>) -> Result<(), StoreFault>
        ensures { HitSeek start end self.old result self.new }
    {
        match self {
            MemHitHandler::Complete(hit) => hit.seek(start, end),
            MemHitHandler::Partial(_) => Err(StoreFault::SeekRange),
        }
    }
}

impl<S: BuildHasher> HandleHit<MemCache<S>> for MemHitHandler {
    ghost reader = { reader_of };

    ghost unread = { is_unread };

    ghost counts = { is_complete };

    ghost weight = { weight_of };

    ghost id = { λ _. None };

    ghost seekable = { is_complete };

    ghost head = { head_of };

    fn read_body(&mut self, store: &mut MemCache<S>) -> Result<ReadStep, StoreFault>
        ensures answer { HitRead self.old store.old result self.new }
        ensures step { IsStep (ahead (reader_of self.old) store.old) result (ahead (reader_of self.new) store.old) }
        ensures once { IsEmptyOnce (is_unread self.old) result (is_unread self.new) }
        ensures reads { ReadsSame (reader_of self.old) (reader_of self.new) }
        ensures same { store.new ≡ store.old }
    {
        match self {
            MemHitHandler::Complete(hit) => hit.read(),
            MemHitHandler::Partial(hit) => hit.read(store),
        }
    }

    fn finish(self, store: &mut MemCache<S>) {
        match self {
            MemHitHandler::Complete(_hit) => {}
            MemHitHandler::Partial(hit) => store.detach(hit.spend()),
        }
    }

    fn can_seek(&self) -> bool {
        MemHitHandler::can_seek(self)
    }

    fn seek(&mut self, start: usize, end: Option<usize>) -> Result<(), StoreFault>
        ensures answer { HitSeek start end self.old result self.new }
        ensures sought { MatchResult result (λ _. IsSought start end (reader_of self.old) (reader_of self.new)) (λ f. (f ≡ Fault.SeekRange) × (reader_of self.new ≡ reader_of self.old)) }
        ensures seekable { OnOk result (is_complete self.old ≡ true) }
        ensures within { is_complete self.old ≡ true → IsRange start end (reader_of self.old) → IsOk result }
    {
        MemHitHandler::seek(self, start, end)
    }

    fn should_count_access(&self) -> bool {
        matches!(self, MemHitHandler::Complete(_))
    }

    fn get_eviction_weight(&self) -> usize {
        match self {
            MemHitHandler::Complete(hit) => hit.weight(),
            MemHitHandler::Partial(_) => 0,
        }
    }

    fn entry_id(&self) -> Option<CacheEntryId> {
        None
    }
}
