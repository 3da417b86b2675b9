//! Recorded shards, each under a lock of its own.

ghost use Rattle.std.specs.Prelude.{◌≡◌, ◌%◌, ◌<◌, vec_len, None, IfOk, IfErr, OnErr};
ghost use Rattle.lru_actors.specs.Messages.{lost};
ghost use Rattle.pingora_lru.specs.Records.{IsReply, IsRefused};

mod edits;
mod eviction;
mod looks;

use crate::call::{LruCall, Reply};
use crate::counts::{Counts, Sums};
use crate::recorded::RecordedUnit;
use lru_core::lru_unit::LruFault;
use std::alloc::{AllocError, Global};
use std::hash::{BuildHasher, BuildHasherDefault, FoldHasher};
use std::sync::atomic::Ordering;
use std::sync::{Mutex, Wait};

/// N recorded shards, each under a lock of its own, for threads: key k is in shard k modulo N. What each lock keeps is a
/// `RecordedUnit`, so whenever it is taken the calls kept there lead to the rows that are there. A call that changes a shard
/// is one call of `RecordedUnit` under one lock; the record keeps no looks.
///
/// Nothing is claimed of what the counters show, also with one thread alone.
#[derive(Drop)]
pub struct RecordedLru<T, const N: usize, S: BuildHasher = BuildHasherDefault<FoldHasher>> {
    shards: Vec<Mutex<RecordedUnit<T, S>>>,
    counts: Counts,
    ghost count: { vec_len shards ≡ N },
    ghost some: { 0 < N },
}

impl<T: Drop, const N: usize> RecordedLru<T, N, BuildHasherDefault<FoldHasher>> {
    /// Returns N shards without rows and calls, under hashes with a fixed start. `capacity` is a hint for the room of their rows.
    pub fn with_capacity(
        alloc: Global,
        weight_limit: usize,
        capacity: usize,
    ) -> Result<Self, AllocError>
        requires { 0 < N }
        ensures { IfOk result (λ list. list.counts.len_watermark ≡ None) }
    {
        RecordedLru::with_capacity_and_watermark(alloc, weight_limit, capacity, None)
    }

    /// The same, with a number of rows past which an eviction also takes rows.
    pub fn with_capacity_and_watermark(
        alloc: Global,
        weight_limit: usize,
        capacity: usize,
        len_watermark: Option<usize>,
    ) -> Result<Self, AllocError>
        requires { 0 < N }
        ensures { IfOk result (λ list. list.counts.len_watermark ≡ len_watermark) }
    {
        RecordedLru::with_hasher(
            alloc,
            BuildHasherDefault::new(),
            weight_limit,
            capacity,
            len_watermark,
        )
    }
}

impl<T: Drop, const N: usize, S: BuildHasher + Copy> RecordedLru<T, N, S> {
    /// The same, with hashes of that start.
    pub fn with_hasher(
        alloc: Global,
        hasher: S,
        weight_limit: usize,
        capacity: usize,
        len_watermark: Option<usize>,
    ) -> Result<Self, AllocError>
        requires { 0 < N }
        ensures { IfOk result (λ list. list.counts.len_watermark ≡ len_watermark) }
    {
        let mut shards = Vec::new(alloc);
        'made: for _ in 0..N {
            let unit = RecordedUnit::with_hasher(alloc, hasher, capacity / N, usize::MAX / N)?;
            shards.push(Mutex::new(unit))?;
        }
        Ok(RecordedLru {
            shards,
            counts: Counts::new(weight_limit, len_watermark),
        })
    }
}

impl<T, const N: usize, S: BuildHasher> RecordedLru<T, N, S> {
    /// Returns the number of shards.
    pub fn shards(&self) -> usize
        ensures value { result ≡ N }
        ensures some { 0 < N }
    {
        self.shards.len()
    }

    /// Returns the shard of a key, or of a draw.
    pub fn shard_of(&self, key: u64) -> usize
        ensures value { result ≡ key % N }
        ensures within { result < N }
    {
        key as usize % self.shards.len()
    }

    /// Returns the weight that the rows may have together.
    pub fn weight_limit(&self) -> usize {
        self.counts.weight_limit.load(Ordering::SeqCst)
    }

    /// Sets the weight that the rows may have together. It evicts nothing.
    pub fn set_weight_limit(&self, weight_limit: usize) {
        self.counts
            .weight_limit
            .store(weight_limit, Ordering::SeqCst);
    }

    /// Returns the weight of all rows.
    pub fn weight(&self) -> usize {
        self.counts.weight.load(Ordering::SeqCst)
    }

    /// Returns the number of all rows.
    pub fn len(&self) -> usize {
        self.counts.len.load(Ordering::SeqCst)
    }

    /// Returns the weight of all evicted rows, which wraps at 2^64.
    pub fn evicted_weight(&self) -> usize {
        self.counts.evicted_weight.load(Ordering::SeqCst)
    }

    /// Returns the number of all evicted rows, which wraps at 2^64.
    pub fn evicted_len(&self) -> usize {
        self.counts.evicted_len.load(Ordering::SeqCst)
    }
}

impl<T: Drop, const N: usize, S: BuildHasher> RecordedLru<T, N, S> {
    /// Does a call in a shard under its lock, by `RecordedUnit::step`.
    ///
    /// # Errors
    ///
    /// As there: nothing changes, and the call comes back.
    pub fn step<R: Wait>(
        &self,
        rt: &R,
        shard: usize,
        call: LruCall<T>,
    ) -> Result<Reply<T>, LruFault<LruCall<T>>>
        requires { shard < N }
        ensures reply { IfOk result (λ r. IsReply call r) }
        ensures back { IfErr result (λ fault. lost fault ≡ call) }
        ensures reason { IfErr result (λ fault. IsRefused call fault) }
    {
        let evicts = matches!(call, LruCall::Evict);
        let mut unit = self.shards[shard].lock(rt);
        let before = Sums::of(unit.unit());
        let done = unit.step(call);
        self.counts.recount(unit.unit(), before);
        if let (true, Ok(Reply::Taken(Some(row)))) = (evicts, &done) {
            self.counts.evicted(row.1);
        }
        done
    }

    /// Reserves room for `additional` more rows in a shard. It is a hint.
    pub fn reserve_shard<R: Wait>(
        &self,
        rt: &R,
        shard: usize,
        additional: usize,
    ) -> Result<(), AllocError>
        requires { shard < N }
        ensures { OnErr result (0 < additional) }
    {
        self.shards[shard].lock(rt).reserve(additional)
    }
}
