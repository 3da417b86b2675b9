//! Limits and sums.

ghost use Rattle.std.specs.Prelude.{◌≡◌, ◌<◌, IfOk};
ghost use Rattle.cache_evict.specs.Managed.{IsSharded, fresh, total_size, total_items, Fits};

use super::Tracker;
use lru_core::LruCore;
use lru_numbers::Numbers;
use std::alloc::{AllocError, Global};
use std::hash::BuildHasher;

impl<const N: usize, S: BuildHasher + Copy> Tracker<N, S> {
    /// Returns N shards without entries, whose look-ups hash with that start. `capacity` is a hint.
    pub fn new(
        alloc: Global,
        hasher: S,
        limit: usize,
        capacity: usize,
        watermark: Option<usize>,
    ) -> Result<Self, AllocError>
        requires { 0 < N }
        ensures { IfOk result (λ t. t ≡ fresh N limit watermark) }
    {
        let core = LruCore::with_hasher(alloc, hasher, limit, capacity, watermark)?;
        let numbers = Numbers::with_capacity_and_hasher(alloc, capacity, hasher)?;
        Ok(Tracker {
            numbers,
            core,
            evicted_size: 0,
            evicted_items: 0,
        })
    }
}

impl<const N: usize, S: BuildHasher> Tracker<N, S> {
    /// Returns the number of shards.
    pub fn shards(&self) -> usize
        ensures count { result ≡ N }
        ensures sharded { IsSharded N self.now }
    {
        let _ = &self.numbers;
        self.core.shards()
    }

    // A law: each shard is within its bound, and all weights can be counted. It does nothing.
    pub(crate) fn shards_are_within(&self)
        ensures { Fits N self.now }
    {
        self.core.shards_are_within();
    }

    // A law: each shard has entries of its own alone. It does nothing.
    pub(crate) fn entries_are_sharded(&self)
        ensures { IsSharded N self.now }
    {
        let _ = &self.numbers;
        self.core.shards_are_within();
    }

    /// Returns the weight of all entries.
    pub fn total_size(&self) -> usize
        ensures sum { result ≡ total_size self.now }
        ensures fits { Fits N self.now }
    {
        self.shards_are_within();
        self.core.weight()
    }

    /// Returns the number of all entries.
    pub fn total_items(&self) -> usize
        ensures sum { result ≡ total_items self.now }
        ensures sharded { IsSharded N self.now }
    {
        let _ = &self.numbers;
        self.core.len()
    }
}
