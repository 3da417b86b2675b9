//! Counters of all rows and of the evicted ones, and the limits that they are held against.

use crate::gate::Gate;
use lru_core::lru_unit::LruUnit;
use std::alloc::{AllocError, Global};
use std::hash::BuildHasher;
use std::sync::Wait;
use std::sync::atomic::{AtomicBool, AtomicUsize, Ordering};

// How many rows all shards have and their weight, and the same of the evicted rows, which wrap; how many rows each shard has; the
// limits; how far callers are ahead; and whether the threads are to end.
#[derive(Drop)]
pub(crate) struct Counts {
    pub(crate) len: AtomicUsize,
    pub(crate) weight: AtomicUsize,
    pub(crate) evicted_len: AtomicUsize,
    pub(crate) evicted_weight: AtomicUsize,
    pub(crate) shard_lens: Vec<AtomicUsize>,
    pub(crate) gate: Gate,
    pub(crate) closing: AtomicBool,
    weight_limit: usize,
    len_watermark: Option<usize>,
}

// How many rows one shard has, and their weight.
#[derive(Clone, Copy)]
pub(crate) struct Sums {
    len: usize,
    weight: usize,
}

impl Sums {
    pub(crate) fn of<K, S: BuildHasher>(unit: &LruUnit<K, S>) -> Sums {
        Sums {
            len: unit.len(),
            weight: unit.weight(),
        }
    }
}

impl Counts {
    pub(crate) fn new(
        alloc: Global,
        shards: usize,
        weight_limit: usize,
        len_watermark: Option<usize>,
    ) -> Result<Counts, AllocError> {
        let mut shard_lens = Vec::with_capacity(alloc, shards)?;
        'lens: for _ in 0..shards {
            shard_lens.push(AtomicUsize::new(0))?;
        }
        Ok(Counts {
            len: AtomicUsize::new(0),
            weight: AtomicUsize::new(0),
            evicted_len: AtomicUsize::new(0),
            evicted_weight: AtomicUsize::new(0),
            shard_lens,
            gate: Gate::new(),
            closing: AtomicBool::new(false),
            weight_limit,
            len_watermark,
        })
    }

    // Whether the weight is past the limit, or the number of rows past the watermark.
    pub(crate) fn is_over(&self) -> bool {
        if self.weight.load(Ordering::SeqCst) > self.weight_limit {
            return true;
        }
        match self.len_watermark {
            Some(mark) => self.len.load(Ordering::SeqCst) > mark,
            None => false,
        }
    }

    // Whether no limit is passed. The messages that were applied before are no longer ahead then.
    pub(crate) fn settle<R: Wait>(&self, rt: &R) -> bool {
        let applied = self.gate.take_applied();
        if self.is_over() {
            self.gate.put_back(applied);
            return false;
        }
        self.gate.leave(rt, applied);
        true
    }

    // How many rows a shard has.
    pub(crate) fn shard_len(&self, shard: usize) -> usize {
        match self.shard_lens.get(shard) {
            Some(len) => len.load(Ordering::SeqCst),
            None => 0,
        }
    }

    // Reads how many rows each shard has.
    pub(crate) fn read_lens(&self, lens: &mut Vec<usize>) {
        for (shard, len) in lens.iter_mut().enumerate() {
            *len = self.shard_len(shard);
        }
    }

    // Counts a shard again that had the sums `before`.
    pub(crate) fn recount<K, S: BuildHasher>(
        &self,
        shard: usize,
        unit: &LruUnit<K, S>,
        before: Sums,
    ) {
        let after = Sums::of(unit);
        if let Some(len) = self.shard_lens.get(shard) {
            len.store(after.len, Ordering::SeqCst);
        }
        self.len
            .fetch_add(after.len.wrapping_sub(before.len), Ordering::SeqCst);
        self.weight
            .fetch_add(after.weight.wrapping_sub(before.weight), Ordering::SeqCst);
    }

    // Counts an evicted row.
    pub(crate) fn evicted(&self, weight: usize) {
        self.evicted_len.fetch_add(1, Ordering::SeqCst);
        self.evicted_weight.fetch_add(weight, Ordering::SeqCst);
    }
}
