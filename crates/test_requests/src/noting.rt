//! A manager of one shard that notes until when it is told that a response is fresh, which no manager looks at.
ghost use Rattle.std.specs.Prelude.{max};
ghost use Rattle.cache_evict.specs.Managed.{pick_by_draws};
ghost use Rattle.cache_evict.specs.Stored.{lru_stored};

use cache_evict::lru::Manager;
use cache_evict::{CacheEntryKey, CacheEntryKeyRef, EvictFault, EvictionManager, LoadFault};
use cache_words::pack::PackWriteFault;
use cache_words::time::Moment;
use lru_files::persistence::{Folder, ShardLoadReport, ShardSaveReport};
use rand_core::Rng;
use std::alloc::Global;

/// What a manager was told.
pub trait Notes {
    /// Until when the response was fresh whose entry was admitted or used last.
    fn told_until(&self) -> Option<Moment>;
}

/// The manager, with what it was told last.
#[derive(Drop)]
pub struct Noting {
    pub manager: Manager<1>,
    pub until: Option<Moment>,
}

impl Notes for Noting {
    fn told_until(&self) -> Option<Moment> {
        self.until
    }
}

impl EvictionManager for Noting {
    ghost managed = { λ n. n.manager };

    ghost shard_count = { 1 };

    ghost weighed = { λ size. max size 1 };

    ghost pick = { pick_by_draws 1 };

    ghost stored = { lru_stored };

    fn shards(&self) -> usize {
        EvictionManager::shards(&self.manager)
    }

    fn total_size(&self) -> usize {
        self.manager.total_size()
    }

    fn total_items(&self) -> usize {
        self.manager.total_items()
    }

    fn evicted_size(&self) -> usize {
        self.manager.evicted_size()
    }

    fn evicted_items(&self) -> usize {
        self.manager.evicted_items()
    }

    fn peek(&self, item: &CacheEntryKey) -> bool {
        self.manager.peek(item)
    }

    fn admit<R: Rng>(
        &mut self,
        alloc: Global,
        item: CacheEntryKey,
        size: usize,
        fresh_until: Moment,
        rng: &mut R,
    ) -> Result<Vec<CacheEntryKey>, EvictFault> {
        self.until = Some(fresh_until);
        self.manager.admit(alloc, item, size, fresh_until, rng)
    }

    fn increment_weight<R: Rng>(
        &mut self,
        alloc: Global,
        item: &CacheEntryKey,
        delta: usize,
        max_weight: Option<usize>,
        rng: &mut R,
    ) -> Result<Vec<CacheEntryKey>, EvictFault> {
        self.manager
            .increment_weight(alloc, item, delta, max_weight, rng)
    }

    fn access(
        &mut self,
        alloc: Global,
        item: CacheEntryKeyRef<'_>,
        size: usize,
        fresh_until: Moment,
    ) -> Result<bool, EvictFault> {
        self.until = Some(fresh_until);
        self.manager.access(alloc, item, size, fresh_until)
    }

    fn reweigh(
        &mut self,
        alloc: Global,
        item: &CacheEntryKey,
        size: usize,
    ) -> Result<Option<usize>, EvictFault> {
        self.manager.reweigh(alloc, item, size)
    }

    fn evict<R: Rng>(
        &mut self,
        alloc: Global,
        rng: &mut R,
    ) -> Result<Vec<CacheEntryKey>, EvictFault> {
        self.manager.evict(alloc, rng)
    }

    fn remove(&mut self, item: CacheEntryKeyRef<'_>) {
        self.manager.remove(item);
    }

    fn save<F: Folder>(
        &self,
        alloc: Global,
        folder: &mut F,
        dir: &str,
        words: &[u32],
    ) -> Result<ShardSaveReport<PackWriteFault>, EvictFault> {
        self.manager.save(alloc, folder, dir, words)
    }

    fn load<F: Folder>(
        &mut self,
        alloc: Global,
        folder: &mut F,
        dir: &str,
    ) -> Result<ShardLoadReport<LoadFault>, EvictFault> {
        self.manager.load(alloc, folder, dir)
    }
}
