//! What an `AsyncLru` is built from.

ghost use Rattle.std.specs.Prelude.{◌≡◌, ◌<◌, Some, IfOk};

use crate::callback::AsyncEvictionCallback;
use crate::counts::Counts;
use crate::crew::Crew;
use crate::fault::BuildFault;
use crate::running::AsyncLru;
use crate::start::start_callers;
use crossbeam_channel::Receiver;
use rand_core::Rng;
use seeded_hashing::SeededState;
use std::alloc::Global;
use std::marker::PhantomData;
use std::sync::{Arc, Wait};
use std::thread::Threads;

/// The limits of an `AsyncLru`, its callback and the numbers of its threads.
#[derive(Drop)]
pub struct AsyncLruBuilder<K, C, const N: usize> {
    /// The weight past which rows are evicted.
    pub weight_limit: usize,
    /// The number of rows past which rows are evicted.
    pub len_watermark: Option<usize>,
    /// How many rows there is room for from the start. It is a hint.
    pub capacity: usize,
    /// How many eviction workers there are at most. At 0 nothing is ever evicted.
    pub eviction_workers: usize,
    /// How many callback workers there are. At 0 nothing is called with an evicted pair.
    pub callback_workers: usize,
    /// What is called with each evicted pair.
    pub callback: C,
    /// The start of the hashes by which each shard's table finds its rows.
    pub hasher: SeededState,
    pub(crate) keys: PhantomData<K>,
}

impl<K, C, const N: usize> AsyncLruBuilder<K, C, N> {
    /// Sets for how many rows there is room from the start. It is a hint.
    pub fn capacity(mut self, capacity: usize) -> Self
        ensures { result ≡ record self { capacity = capacity } }
    {
        self.capacity = capacity;
        self
    }

    /// Sets a number of rows past which rows are evicted.
    pub fn len_watermark(mut self, watermark: usize) -> Self
        ensures { result ≡ record self { len_watermark = Some watermark } }
    {
        self.len_watermark = Some(watermark);
        self
    }

    /// Sets how many eviction workers there are at most: with fewer generators there are fewer. At 0 nothing is ever evicted.
    pub fn num_eviction_workers(mut self, n: usize) -> Self
        ensures { result ≡ record self { eviction_workers = n } }
    {
        self.eviction_workers = n;
        self
    }

    /// Sets how many callback workers there are. At 0 nothing is called with an evicted pair, and the pairs are dropped.
    pub fn num_callback_workers(mut self, n: usize) -> Self
        ensures { result ≡ record self { callback_workers = n } }
    {
        self.callback_workers = n;
        self
    }

    /// Sets the start of the hashes by which each shard's table finds its rows, for keys that attackers choose: who doesn't know the
    /// start can't choose keys that slow look-ups down. `hash_key`, which names rows and shards, keeps its fixed start, so two keys
    /// of one hash share a row all the same.
    pub fn with_hasher(mut self, hasher: SeededState) -> Self
        ensures { result ≡ record self { hasher = hasher } }
    {
        self.hasher = hasher;
        self
    }
}

impl<
    K: Clone + Send + 'static,
    C: AsyncEvictionCallback<K> + Drop + Send + Sync + 'static,
    const N: usize,
> AsyncLruBuilder<K, C, N> {
    /// Starts an actor for each of N shards, an eviction worker for each generator, up to the number that was set, and the callback
    /// workers. Without a generator nothing is ever evicted, whatever the limits.
    ///
    /// # Errors
    ///
    /// No memory, or no more threads. Those that were started have ended.
    pub fn build<H: Threads + Wait + Copy + Send + 'static, G: Rng + Drop + Send + 'static>(
        self,
        rt: &H,
        alloc: Global,
        generators: Vec<G>,
    ) -> Result<AsyncLru<K, N>, BuildFault>
        requires some { 0 < N }
        requires ready { C.ready self.callback }
        ensures { IfOk result (λ l. l.weight_limit ≡ self.weight_limit) }
    {
        let AsyncLruBuilder {
            weight_limit,
            len_watermark,
            capacity,
            eviction_workers,
            callback_workers,
            callback,
            hasher,
            ..
        } = self;
        let Ok(callback) = Arc::new(alloc, callback) else {
            return Err(BuildFault::Memory);
        };
        let counts = Counts::new(alloc, N, weight_limit, len_watermark)?;
        let (crew, pairs) = Crew::start(
            rt,
            alloc,
            hasher,
            N,
            counts,
            capacity,
            eviction_workers,
            generators,
        )?;
        match start_callers(rt, &pairs, &callback, callback_workers, &crew.running) {
            Ok(()) => Ok(AsyncLru {
                crew,
                weight_limit,
                alloc,
            }),
            Err(fault) => {
                crew.shutdown(rt);
                Err(fault)
            }
        }
    }

    /// The same without callback workers: the evicted pairs go to the receiver, and the callback is dropped.
    ///
    /// # Errors
    ///
    /// Those of `build`.
    pub fn build_with_eviction_receiver<
        H: Threads + Wait + Copy + Send + 'static,
        G: Rng + Drop + Send + 'static,
    >(
        self,
        rt: &H,
        alloc: Global,
        generators: Vec<G>,
    ) -> Result<(AsyncLru<K, N>, Receiver<(K, usize)>), BuildFault>
        requires { 0 < N }
        ensures { IfOk result (λ r. r.0.weight_limit ≡ self.weight_limit) }
    {
        let weight_limit = self.weight_limit;
        let counts = Counts::new(alloc, N, weight_limit, self.len_watermark)?;
        let workers = self.eviction_workers;
        let (crew, pairs) = Crew::start(
            rt,
            alloc,
            self.hasher,
            N,
            counts,
            self.capacity,
            workers,
            generators,
        )?;
        let lru = AsyncLru {
            crew,
            weight_limit,
            alloc,
        };
        Ok((lru, pairs))
    }
}
