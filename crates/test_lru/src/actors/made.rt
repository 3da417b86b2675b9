//! Lists that tests make, and what they wait for. `None` is where memory or threads are refused.

ghost use Rattle.std.specs.Prelude.{◌≡◌, ◌<◌};

use crossbeam_channel::Receiver;
use lru_async::{AsyncLru, AsyncLruBuilder};
use rand_core::{Rng, SeedableRng};
use rand_pcg::Pcg64;
use seeded_hashing::SeededState;
use std::alloc::Global;
use std::sync::Wait;
use std::sync::atomic::{AtomicU64, Ordering};
use std::thread;
use std::thread::Threads;

/// What is set of a list.
#[derive(Clone, Copy)]
pub struct Plan {
    pub limit: usize,
    /// A number of rows past which rows are evicted, if one is set.
    pub mark: Option<usize>,
    pub capacity: usize,
    /// How many eviction workers there are at most.
    pub workers: usize,
    /// The word at which the hashes of tables start, if one is set.
    pub start: Option<u64>,
}

/// Of a list of that limit, perhaps a watermark, and so many eviction workers.
pub fn limited(limit: usize, mark: Option<usize>, workers: usize) -> Plan {
    Plan {
        limit,
        mark,
        capacity: 0,
        workers,
        start: None,
    }
}

/// Generators for so many eviction workers.
pub fn generators(alloc: Global, workers: u64) -> Option<Vec<Pcg64>> {
    let mut generators = Vec::new(alloc);
    for seed in 0..workers {
        generators.push(Pcg64::seed_from_u64(seed)).ok()?;
    }
    Some(generators)
}

fn set<K, C, const N: usize>(
    builder: AsyncLruBuilder<K, C, N>,
    plan: Plan,
) -> AsyncLruBuilder<K, C, N>
    ensures { result.callback ≡ builder.callback }
{
    let builder = builder
        .capacity(plan.capacity)
        .num_eviction_workers(plan.workers);
    let builder = match plan.mark {
        Some(mark) => builder.len_watermark(mark),
        None => builder,
    };
    match plan.start {
        Some(word) => builder.with_hasher(SeededState { word }),
        None => builder,
    }
}

/// Returns a list with a callback that does nothing.
pub fn called<
    R: Threads + Wait + Copy + Send + 'static,
    K: Clone + Drop + Send + 'static,
    const N: usize,
>(rt: &R, alloc: Global, plan: Plan, generators: Vec<Pcg64>) -> Option<AsyncLru<K, N>>
    requires { 0 < N }
{
    let builder = AsyncLru::builder(plan.limit, |_: K, _: usize| {});
    set(builder, plan).build(rt, alloc, generators).ok()
}

/// Returns a list without callbacks, and the receiver of its evicted pairs.
pub fn received<
    R: Threads + Wait + Copy + Send + 'static,
    G: Rng + Drop + Send + 'static,
    const N: usize,
>(
    rt: &R,
    alloc: Global,
    plan: Plan,
    generators: Vec<G>,
) -> Option<(AsyncLru<u32, N>, Receiver<(u32, usize)>)>
    requires { 0 < N }
{
    let builder = AsyncLru::builder(plan.limit, |_: u32, _: usize| {});
    set(builder, plan)
        .build_with_eviction_receiver(rt, alloc, generators)
        .ok()
}

/// Waits until a number is past another, for so many turns at most, and returns whether it is.
pub fn comes_past(number: &AtomicU64, least: u64) -> bool {
    for _ in 0..10_000_000 {
        if number.load(Ordering::SeqCst) > least {
            return true;
        }
        thread::yield_now();
    }
    false
}

/// Waits until the rows of a list and those that it evicted have such a weight and are so many, for so many turns at most. Returns
/// whether they have.
pub fn comes_to(list: &AsyncLru<u32, 1>, rows: (usize, usize), evicted: (usize, usize)) -> bool {
    for _ in 0..10_000_000 {
        if (list.weight(), list.len()) == rows
            && (list.evicted_weight(), list.evicted_len()) == evicted
        {
            return true;
        }
        thread::yield_now();
    }
    false
}
