//! What a manager is built from.

ghost use Rattle.std.specs.Prelude.{◌≡◌, ◌<◌, Some, IfOk};

use crate::manager::Manager;
use cache_entries::entry::CacheEntryKey;
use lru_async::{AsyncEvictionCallback, AsyncLruBuilder, BuildFault};
use rand_core::Rng;
use seeded_hashing::SeededState;
use std::alloc::Global;
use std::sync::Wait;
use std::thread::Threads;

/// The limits of a manager, and its callback.
#[derive(Drop)]
pub struct ManagerBuilder<C, const N: usize> {
    /// The builder of its lists.
    pub lists: AsyncLruBuilder<CacheEntryKey, C, N>,
}

impl<C, const N: usize> ManagerBuilder<C, N> {
    /// Sets for how many entries there is room from the start. It is a hint.
    pub fn capacity(self, capacity: usize) -> Self
        ensures { result.lists ≡ record self.lists { capacity = capacity } }
    {
        let ManagerBuilder { lists } = self;
        ManagerBuilder {
            lists: lists.capacity(capacity),
        }
    }

    /// Sets a number of entries past which entries are evicted.
    pub fn len_watermark(self, watermark: usize) -> Self
        ensures { result.lists ≡ record self.lists { len_watermark = Some watermark } }
    {
        let ManagerBuilder { lists } = self;
        ManagerBuilder {
            lists: lists.len_watermark(watermark),
        }
    }

    /// Sets how many eviction workers there are at most: with fewer generators there are fewer. At 0 nothing is ever evicted.
    pub fn num_eviction_workers(self, n: usize) -> Self
        ensures { result.lists ≡ record self.lists { eviction_workers = n } }
    {
        let ManagerBuilder { lists } = self;
        ManagerBuilder {
            lists: lists.num_eviction_workers(n),
        }
    }

    /// Sets how many callback workers there are. At 0 nothing is called with an evicted entry.
    pub fn num_callback_workers(self, n: usize) -> Self
        ensures { result.lists ≡ record self.lists { callback_workers = n } }
    {
        let ManagerBuilder { lists } = self;
        ManagerBuilder {
            lists: lists.num_callback_workers(n),
        }
    }

    /// Sets the start of the hashes by which each shard's table finds its rows, for entries that attackers choose: who doesn't know
    /// the start can't choose entries that slow look-ups down. The hashes that name rows and shards keep their fixed start, so two
    /// entries of one hash share a row all the same.
    pub fn with_hasher(self, hasher: SeededState) -> Self
        ensures { result.lists ≡ record self.lists { hasher = hasher } }
    {
        let ManagerBuilder { lists } = self;
        ManagerBuilder {
            lists: lists.with_hasher(hasher),
        }
    }
}

impl<
    C: AsyncEvictionCallback<CacheEntryKey> + Drop + Send + Sync + 'static,
    const N: usize,
> ManagerBuilder<C, N> {
    /// Starts the threads of N shards: an actor for each, an eviction worker for each generator, up to the number that was set, and
    /// the callback workers. Without a generator nothing is ever evicted, whatever the limits.
    ///
    /// # Errors
    ///
    /// No memory, or no more threads. Those that were started have ended.
    pub fn build<H: Threads + Wait + Copy + Send + 'static, G: Rng + Drop + Send + 'static>(
        self,
        rt: &H,
        alloc: Global,
        generators: Vec<G>,
    ) -> Result<Manager<N>, BuildFault>
        requires some { 0 < N }
        requires ready { C.ready self.lists.callback }
        ensures { IfOk result (λ m. m.lru.weight_limit ≡ self.lists.weight_limit) }
    {
        let ManagerBuilder { lists } = self;
        Ok(Manager::from_lru(lists.build(rt, alloc, generators)?))
    }
}
