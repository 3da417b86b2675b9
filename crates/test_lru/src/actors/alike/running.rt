//! A manager with its threads running, whose callback notes what was evicted.

use crate::actors::alike::{Call, Gone, LIMIT, MARK, Row, Side, entry};
use crate::actors::made::generators;
use cache_entries::entry::{CacheEntryKey, CacheEntryKeyRef};
use cache_evict::KeyParts;
use cache_words::time::Moment;
use lru_async_manager::Manager;
use std::alloc::Global;
use std::sync::atomic::{AtomicU64, Ordering};
use std::sync::{Arc, Wait};
use std::thread;
use std::thread::Threads;

/// The entry of a shard that has that number there.
fn entry_of(alloc: Global, manager: &Manager<2>, shard: usize, number: u8) -> CacheEntryKey {
    let mut before = number;
    for key in 0..200 {
        let item = entry(alloc, key);
        if manager.get_shard_for_key(&item) == shard {
            if before == 0 {
                return item;
            }
            before = before.wrapping_sub(1);
        }
    }
    entry(alloc, 200)
}

/// Whether a call on an entry answers what it must.
fn does<R: Wait>(rt: &R, manager: &Manager<2>, item: CacheEntryKey, call: Call) -> bool {
    let moment = Moment::from_seconds(0);
    match call {
        Call::Admit(size) => manager.admit(rt, item, size, moment).is_ok(),
        Call::Increment(delta, cap) => {
            manager.increment_weight(rt, &item, delta, Some(cap)) == Ok(())
        }
        Call::Access(size, found) => {
            let item = CacheEntryKeyRef::from(&item);
            manager.access(rt, item, size, moment) == Ok(found)
        }
        Call::Weighs(weight) => {
            manager.peek_weight(rt, &item) == Ok(weight)
                && manager.peek(rt, &item) == Ok(weight.is_some())
        }
        Call::Remove => manager.remove(rt, CacheEntryKeyRef::from(&item)) == Ok(()),
        Call::RemoveParts => {
            let parts = KeyParts {
                primary: item.key().primary,
                variance: None,
                user_tag: "",
            };
            manager.remove_parts(rt, parts) == Ok(())
        }
    }
}

/// Waits until so many entries of such a weight are there and were evicted, for so many turns at most. Returns whether they are.
fn comes_to(manager: &Manager<2>, there: (usize, usize), evicted: (usize, usize)) -> bool {
    for _ in 0..10_000_000 {
        if (manager.total_items(), manager.total_size()) == there
            && (manager.evicted_items(), manager.evicted_size()) == evicted
        {
            return true;
        }
        thread::yield_now();
    }
    false
}

/// Whether a shard is so.
fn shows<R: Wait>(rt: &R, alloc: Global, manager: &Manager<2>, shard: usize, side: Side) -> bool {
    if shard >= 2 {
        return false;
    }
    let (len, weight, last) = side;
    let last = last.map(|number| entry_of(alloc, manager, shard, number));
    manager.peek_lru(rt, shard) == Ok(last)
        && manager.shard_len(shard) == len
        && manager.shard_weight(rt, shard) == Ok(weight)
}

/// Whether a row comes true.
fn plays<R: Wait>(rt: &R, alloc: Global, manager: &Manager<2>, row: Row) -> bool {
    let (shard, number, call, sides, evicted) = row;
    let item = entry_of(alloc, manager, shard, number);
    let items = sides.0.0.wrapping_add(sides.1.0);
    let size = sides.0.1.wrapping_add(sides.1.1);
    does(rt, manager, item, call)
        && comes_to(manager, (items, size), evicted)
        && shows(rt, alloc, manager, 0, sides.0)
        && shows(rt, alloc, manager, 1, sides.1)
}

/// Whether all rows do.
fn all_play<R: Wait>(rt: &R, alloc: Global, manager: &Manager<2>, rows: &[Row]) -> bool {
    for &row in rows {
        if !plays(rt, alloc, manager, row) {
            return false;
        }
    }
    true
}

/// What a callback got, in order, a byte for each: the first byte of a key, and a weight.
#[derive(Drop)]
struct Told {
    keys: AtomicU64,
    weights: AtomicU64,
}

impl Told {
    /// One callback worker calls it.
    fn note(&self, key: CacheEntryKey, weight: usize) {
        let keys = self.keys.load(Ordering::SeqCst);
        let weights = self.weights.load(Ordering::SeqCst);
        let (keys, weights) = with_pair((keys, weights), &key, weight);
        self.keys.store(keys, Ordering::SeqCst);
        self.weights.store(weights, Ordering::SeqCst);
    }
}

/// Both with a pair more.
fn with_pair(told: (u64, u64), key: &CacheEntryKey, weight: usize) -> (u64, u64) {
    let (keys, weights) = told;
    (
        keys.wrapping_mul(256)
            .wrapping_add(u64::from(key.key().primary[0])),
        weights.wrapping_mul(256).wrapping_add(weight as u64),
    )
}

/// The pairs that go, told so.
fn told_of(alloc: Global, manager: &Manager<2>, gone: &[Gone]) -> (u64, u64) {
    let mut told = (0, 0);
    for &(shard, number, weight) in gone {
        let item = entry_of(alloc, manager, shard, number);
        told = with_pair(told, &item, weight);
    }
    told
}

/// Whether a manager answers all rows, and its callback got these, in order.
pub(crate) fn answers<R: Threads + Wait + Copy + Send + 'static>(
    rt: &R,
    alloc: Global,
    rows: &[Row],
    gone: &[Gone],
) -> Option<bool> {
    let keys = AtomicU64::new(0);
    let weights = AtomicU64::new(0);
    let told = Arc::new(alloc, Told { keys, weights }).ok()?;
    let theirs = Arc::try_clone(&told).ok()?;
    let callback = move |key: CacheEntryKey, weight: usize| theirs.note(key, weight);
    let manager = Manager::builder(LIMIT, callback)
        .len_watermark(MARK)
        .num_eviction_workers(1)
        .build(rt, alloc, generators(alloc, 1)?)
        .ok()?;
    let all = all_play(rt, alloc, &manager, rows);
    let wanted = told_of(alloc, &manager, gone);
    manager.shutdown(rt);
    let got = (
        told.keys.load(Ordering::SeqCst),
        told.weights.load(Ordering::SeqCst),
    );
    Some(all && got == wanted)
}
