//! Weighted rows for threads: each shard under a lock of its own.

ghost use Rattle.std.specs.Prelude.{◌≡◌, ◌%◌, ◌<◌, vec_len, None, IfOk, OnErr};

mod edits;
mod eviction;
mod looks;

use crate::counts::Counts;
use lru_core::lru_unit::LruUnit;
use std::alloc::{AllocError, Global};
use std::hash::{BuildHasher, BuildHasherDefault, FoldHasher};
use std::sync::atomic::Ordering;
use std::sync::{Mutex, Wait};

/// N shards of rows of distinct keys, each most recent first and under a lock of its own, for threads: key k is in shard k
/// modulo N. A call takes one lock at a time, and does under it what `LruUnit`'s call of that name does.
///
/// Nothing is claimed of what the counters show, also with one thread alone.
///
/// Rows are found by the hashes of their keys. The default hasher starts at a fixed place, for keys that the caller chooses
/// itself; `with_hasher` takes a start of the caller's, for keys that attackers choose, who then can't slow look-ups down.
#[derive(Drop)]
pub struct Lru<T, const N: usize, S: BuildHasher = BuildHasherDefault<FoldHasher>> {
    shards: Vec<Mutex<LruUnit<T, S>>>,
    counts: Counts,
    ghost count: { vec_len shards ≡ N },
    ghost some: { 0 < N },
}

impl<T: Drop, const N: usize> Lru<T, N, BuildHasherDefault<FoldHasher>> {
    /// Returns N shards without rows, under hashes with a fixed start. `capacity` is a hint: room for that many rows is reserved.
    pub fn with_capacity(
        alloc: Global,
        weight_limit: usize,
        capacity: usize,
    ) -> Result<Self, AllocError>
        requires { 0 < N }
        ensures { IfOk result (λ list. list.counts.len_watermark ≡ None) }
    {
        Lru::with_capacity_and_watermark(alloc, weight_limit, capacity, None)
    }

    /// The same, with a number of rows past which an eviction also takes rows.
    pub fn with_capacity_and_watermark(
        alloc: Global,
        weight_limit: usize,
        capacity: usize,
        len_watermark: Option<usize>,
    ) -> Result<Self, AllocError>
        requires { 0 < N }
        ensures { IfOk result (λ list. list.counts.len_watermark ≡ len_watermark) }
    {
        Lru::with_hasher(
            alloc,
            BuildHasherDefault::new(),
            weight_limit,
            capacity,
            len_watermark,
        )
    }
}

impl<T: Drop, const N: usize, S: BuildHasher + Copy> Lru<T, N, S> {
    /// The same, with hashes of that start.
    pub fn with_hasher(
        alloc: Global,
        hasher: S,
        weight_limit: usize,
        capacity: usize,
        len_watermark: Option<usize>,
    ) -> Result<Self, AllocError>
        requires { 0 < N }
        ensures { IfOk result (λ list. list.counts.len_watermark ≡ len_watermark) }
    {
        let mut shards = Vec::new(alloc);
        'made: for _ in 0..N {
            let unit = LruUnit::with_hasher(alloc, hasher, capacity / N, usize::MAX / N)?;
            shards.push(Mutex::new(unit))?;
        }
        Ok(Lru {
            shards,
            counts: Counts::new(weight_limit, len_watermark),
        })
    }
}

impl<T: Drop, const N: usize, S: BuildHasher> Lru<T, N, S> {
    /// Reserves room for `additional` more rows in a shard. It is a hint.
    pub fn reserve_shard<R: Wait>(
        &self,
        rt: &R,
        shard: usize,
        additional: usize,
    ) -> Result<(), AllocError>
        requires { shard < N }
        ensures { OnErr result (0 < additional) }
    {
        self.shards[shard].lock(rt).reserve(additional)
    }
}

impl<T, const N: usize, S: BuildHasher> Lru<T, N, S> {
    /// Returns the number of shards.
    pub fn shards(&self) -> usize
        ensures value { result ≡ N }
        ensures some { 0 < N }
    {
        self.shards.len()
    }

    /// Returns the weight that the rows may have together.
    pub fn weight_limit(&self) -> usize {
        self.counts.weight_limit.load(Ordering::SeqCst)
    }

    /// Sets the weight that the rows may have together. It evicts nothing.
    pub fn set_weight_limit(&self, weight_limit: usize) {
        self.counts
            .weight_limit
            .store(weight_limit, Ordering::SeqCst);
    }

    /// Returns the weight of all rows.
    pub fn weight(&self) -> usize {
        self.counts.weight.load(Ordering::SeqCst)
    }

    /// Returns the number of all rows.
    pub fn len(&self) -> usize {
        self.counts.len.load(Ordering::SeqCst)
    }

    /// Returns the weight of all evicted rows, which wraps at 2^64.
    pub fn evicted_weight(&self) -> usize {
        self.counts.evicted_weight.load(Ordering::SeqCst)
    }

    /// Returns the number of all evicted rows, which wraps at 2^64.
    pub fn evicted_len(&self) -> usize {
        self.counts.evicted_len.load(Ordering::SeqCst)
    }

    // The shard of a key or a draw.
    fn place_of(&self, key: u64) -> usize
        ensures value { result ≡ key % N }
        ensures within { result < N }
    {
        key as usize % self.shards.len()
    }
}
