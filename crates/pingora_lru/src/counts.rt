//! Counters of all rows and of the evicted ones, and the limits that they are held against.

ghost use Rattle.std.specs.Prelude.{◌≡◌, ◌≤◌, length};
ghost use Rattle.lru_core.specs.Rows.{total_weight};

use lru_core::lru_unit::LruUnit;
use std::hash::BuildHasher;
use std::sync::atomic::{AtomicUsize, Ordering};

// How many rows all shards have and their weight, and the same of the evicted rows, which wrap; and the limits.
#[derive(Drop)]
pub(crate) struct Counts {
    pub(crate) len: AtomicUsize,
    pub(crate) weight: AtomicUsize,
    pub(crate) evicted_len: AtomicUsize,
    pub(crate) evicted_weight: AtomicUsize,
    pub(crate) weight_limit: AtomicUsize,
    len_watermark: Option<usize>,
}

// How many rows one shard has, and their weight.
#[derive(Clone, Copy)]
pub(crate) struct Sums {
    len: usize,
    weight: usize,
}

impl Sums {
    pub(crate) fn of<T, S: BuildHasher>(unit: &LruUnit<T, S>) -> Sums
        ensures { total_weight unit.now.rows ≤ unit.now.bound }
    {
        Sums {
            len: unit.len(),
            weight: unit.weight(),
        }
    }
}

impl Counts {
    pub(crate) fn new(weight_limit: usize, len_watermark: Option<usize>) -> Counts
        ensures { result.len_watermark ≡ len_watermark }
    {
        Counts {
            len: AtomicUsize::new(0),
            weight: AtomicUsize::new(0),
            evicted_len: AtomicUsize::new(0),
            evicted_weight: AtomicUsize::new(0),
            weight_limit: AtomicUsize::new(weight_limit),
            len_watermark,
        }
    }

    // Whether the weight is past the limit, or the number of rows past the watermark.
    pub(crate) fn is_over(&self) -> bool {
        if self.weight.load(Ordering::SeqCst) > self.weight_limit.load(Ordering::SeqCst) {
            return true;
        }
        match self.len_watermark {
            Some(mark) => self.len.load(Ordering::SeqCst) > mark,
            None => false,
        }
    }

    // Counts a shard again that had the sums `before`, while its lock is held.
    pub(crate) fn recount<T, S: BuildHasher>(&self, unit: &LruUnit<T, S>, before: Sums)
        ensures { total_weight unit.now.rows ≤ unit.now.bound }
    {
        let after = Sums::of(unit);
        self.len
            .fetch_add(after.len.wrapping_sub(before.len), Ordering::SeqCst);
        self.weight
            .fetch_add(after.weight.wrapping_sub(before.weight), Ordering::SeqCst);
    }

    // Counts an evicted row.
    pub(crate) fn evicted(&self, weight: usize) {
        self.evicted_len.fetch_add(1, Ordering::SeqCst);
        self.evicted_weight.fetch_add(weight, Ordering::SeqCst);
    }
}
