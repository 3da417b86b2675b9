//! Lists whose changes are messages, with their threads.

ghost use Rattle.std.specs.Prelude.{◌≡◌, ◌%◌, ◌<◌, vec_len, None};

mod asks;
pub mod saving;
mod sends;

use crate::builder::AsyncLruBuilder;
use crate::crew::Crew;
use seeded_hashing::SeededState;
use std::alloc::Global;
use std::marker::PhantomData;
use std::sync::Wait;
use std::sync::atomic::Ordering;

/// N shards of rows that are keyed by the hashes of their keys, each most recent first: hash h is in shard h modulo N. Each
/// shard has an actor, a thread of its own that applies the messages sent to it in their order, so a call that changes a shard
/// takes effect later. Eviction workers evict while a limit is passed, and callback workers call back with each evicted pair.
///
/// Callers in several threads may share one by reference. The threads end by `shutdown`, so each value must be given to it.
///
/// Callers that change rows wait where 256 messages are ahead, over all shards: messages that no actor has applied, and those applied
/// while a limit was passed, until an eviction worker finds the limits kept. So no more rows are past a limit than 256 and one a caller,
/// as far as there are eviction workers with memory for what they evict.
///
/// Nothing is claimed of what the counters show, nor that a message arrives. A message that its shard refuses, for memory,
/// weight or length, is dropped with its key. Evicted pairs that can't be dispatched, for want of memory, wait at their eviction
/// worker, which evicts nothing until they are; those for which there is no memory at the shutdown either are dropped.
pub struct AsyncLru<K, const N: usize> {
    pub(crate) crew: Crew<K>,
    pub(crate) weight_limit: usize,
    pub(crate) alloc: Global,
    pub ghost count: { vec_len crew.shards ≡ N },
    pub ghost some: { 0 < N },
}

impl<K: Drop, const N: usize> AsyncLru<K, N> {
    /// Returns a builder of lists under that limit, without a watermark, with N eviction workers and one callback worker, and
    /// with tables whose hashes start at a fixed place.
    pub fn builder<C>(weight_limit: usize, callback: C) -> AsyncLruBuilder<K, C, N>
        ensures limits { (result.weight_limit ≡ weight_limit) × (result.len_watermark ≡ None) × (result.capacity ≡ 0) }
        ensures workers { (result.eviction_workers ≡ N) × (result.callback_workers ≡ 1) × (result.callback ≡ callback) }
    {
        AsyncLruBuilder {
            weight_limit,
            len_watermark: None,
            capacity: 0,
            eviction_workers: N,
            callback_workers: 1,
            callback,
            hasher: SeededState { word: 0 },
            keys: PhantomData,
        }
    }

    /// Ends all threads: the eviction workers after the step that they are in, whether or not a limit is passed still, the actors once
    /// they have applied all messages, the callback workers once they have called back with all pairs. Returns once the work of each
    /// is over and what it had is dropped.
    pub fn shutdown<H: Wait>(self, rt: &H) {
        let AsyncLru {
            crew,
            weight_limit: _,
            alloc: _,
        } = self;
        crew.shutdown(rt);
    }
}

impl<K, const N: usize> AsyncLru<K, N> {
    /// Returns the number of shards.
    pub fn shards(&self) -> usize
        ensures value { result ≡ N }
        ensures some { 0 < N }
    {
        self.crew.shards.len()
    }

    /// Returns the weight past which rows are evicted.
    pub fn weight_limit(&self) -> usize
        ensures { result ≡ self.now.weight_limit }
    {
        self.weight_limit
    }

    /// Returns the weight of all rows.
    pub fn weight(&self) -> usize {
        self.crew.counts.weight.load(Ordering::SeqCst)
    }

    /// Returns the number of all rows.
    pub fn len(&self) -> usize {
        self.crew.counts.len.load(Ordering::SeqCst)
    }

    /// Returns whether there are no rows.
    pub fn is_empty(&self) -> bool {
        self.len() == 0
    }

    /// Returns the weight of all evicted rows, which wraps at 2^64.
    pub fn evicted_weight(&self) -> usize {
        self.crew.counts.evicted_weight.load(Ordering::SeqCst)
    }

    /// Returns the number of all evicted rows, which wraps at 2^64.
    pub fn evicted_len(&self) -> usize {
        self.crew.counts.evicted_len.load(Ordering::SeqCst)
    }

    /// Returns whether the weight is past the limit, or the number of rows past the watermark.
    pub fn over_limit(&self) -> bool {
        self.crew.counts.is_over()
    }

    /// Returns the number of rows of a shard.
    pub fn shard_len(&self, shard: usize) -> usize
        requires { shard < N }
    {
        self.crew.counts.shard_len(shard)
    }

    // The shard of a hash.
    fn shard_of(&self, hash: u64) -> usize
        ensures value { result ≡ hash % N }
        ensures within { result < N }
    {
        hash as usize % self.crew.shards.len()
    }
}
