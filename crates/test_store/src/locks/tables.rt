//! Tables under locks, by one thread.
use request_predictor::{ConcurrentHashTable, ConcurrentLruCache, LruShard};
use std::alloc::Global;
use std::hash::BuildHasherDefault;
use std::sync::Wait;

/// A call of a bounded list, with what it must return.
#[derive(Clone, Copy)]
enum Step {
    Put(u128, u32, Option<u32>),
    Peek(u128, Option<u32>),
    Contains(u128, bool),
    Pop(u128, Option<u32>),
}

/// A list of two: looking doesn't move a key, putting does.
const TWO: &[Step] = &[
    Step::Put(1, 10, None),
    Step::Put(2, 20, None),
    Step::Peek(1, Some(10)),
    Step::Put(3, 30, None),
    Step::Contains(1, false),
    Step::Put(2, 21, Some(20)),
    Step::Put(4, 40, None),
    Step::Peek(3, None),
    Step::Peek(2, Some(21)),
    Step::Pop(2, Some(21)),
    Step::Pop(2, None),
    Step::Contains(4, true),
];

/// A capacity of 0 is 1.
const ONE: &[Step] = &[
    Step::Put(1, 10, None),
    Step::Put(2, 20, None),
    Step::Peek(1, None),
    Step::Peek(2, Some(20)),
];

fn is_done(shard: &mut LruShard<u32>, step: Step) -> bool {
    match step {
        Step::Put(key, value, wanted) => shard.put(key, value).ok() == Some(wanted),
        Step::Peek(key, wanted) => shard.peek(key).copied() == wanted,
        Step::Contains(key, wanted) => shard.contains(key) == wanted,
        Step::Pop(key, wanted) => shard.pop(key) == wanted,
    }
}

fn all_done(shard: &mut LruShard<u32>, steps: &[Step]) -> bool {
    for &step in steps {
        if !is_done(shard, step) {
            return false;
        }
    }
    true
}

fn does(alloc: Global, capacity: usize, steps: &[Step]) -> bool {
    match LruShard::<u32>::with_hasher(alloc, capacity, BuildHasherDefault::new()) {
        Ok(mut shard) => all_done(&mut shard, steps),
        Err(_) => false,
    }
}

#[test]
fn bounded_lists(rt: HostRuntime) {
    assert!(rt; does(rt.alloc(), 2, TWO) && does(rt.alloc(), 0, ONE));
}

/// Keys, each with the number of its shard of three.
const KEYS: &[(u128, usize)] = &[(0, 0), (1, 1), (5, 2), (7, 1), (u128::MAX, 0)];

fn put_in_maps<R: Wait>(rt: &R, table: &ConcurrentHashTable<usize, 3>) -> bool {
    for &(key, shard) in KEYS {
        if table.write(rt, key).insert(key, shard).is_err() {
            return false;
        }
    }
    true
}

fn is_there<R: Wait>(
    rt: &R,
    table: &ConcurrentHashTable<usize, 3>,
    key: u128,
    shard: usize,
) -> bool {
    let there = match table.get_shard_at_idx(shard) {
        Some(map) => map.read(rt).contains_key(&key),
        None => false,
    };
    there && table.read(rt, key).get(&key).copied() == Some(shard)
}

/// Whether each key is where it must be.
fn are_in_their_maps<R: Wait>(rt: &R, table: &ConcurrentHashTable<usize, 3>) -> bool {
    for &(key, shard) in KEYS {
        if !is_there(rt, table, key, shard) {
            return false;
        }
    }
    table.get_shard_at_idx(3).is_none()
}

fn sum_of<R: Wait>(rt: &R, table: &ConcurrentHashTable<usize, 3>) -> usize {
    let mut sum: usize = 0;
    table.for_each(rt, |_, shard| sum = sum.wrapping_add(*shard));
    sum
}

fn maps_have_keys<R: Wait>(rt: &R, table: &ConcurrentHashTable<usize, 3>) -> bool {
    put_in_maps(rt, table) && are_in_their_maps(rt, table) && sum_of(rt, table) == 4
}

#[test]
fn maps_of_keys(rt: HostRuntime) {
    let table = ConcurrentHashTable::new(rt.alloc());
    assert!(rt; table.is_ok());
    if let Ok(table) = table {
        assert!(rt; maps_have_keys(&rt, &table));
    }
}

fn put_in_lists<R: Wait>(rt: &R, cache: &ConcurrentLruCache<u32, 2>) -> bool {
    cache.write(rt, 1).put(1, 10).is_ok()
        && cache.write(rt, 2).put(2, 20).is_ok()
        && cache.get(3).write(rt).put(3, 30).is_ok()
}

fn is_in_lists<R: Wait>(
    rt: &R,
    cache: &ConcurrentLruCache<u32, 2>,
    key: u128,
    wanted: Option<u32>,
) -> bool {
    cache.read(rt, key).peek(key).copied() == wanted
}

/// Whether of three keys in lists of one, of which two share a list, the first is gone.
fn lists_have_keys<R: Wait>(rt: &R, cache: &ConcurrentLruCache<u32, 2>) -> bool {
    put_in_lists(rt, cache)
        && is_in_lists(rt, cache, 1, None)
        && is_in_lists(rt, cache, 2, Some(20))
        && is_in_lists(rt, cache, 3, Some(30))
}

#[test]
fn lists_of_keys(rt: HostRuntime) {
    let cache = ConcurrentLruCache::new(rt.alloc(), 0);
    assert!(rt; cache.is_ok());
    if let Ok(cache) = cache {
        assert!(rt; lists_have_keys(&rt, &cache));
    }
}

/// Whether of three keys in one list of two the first is gone.
fn list_has_two<R: Wait>(rt: &R, cache: &ConcurrentLruCache<u32, 2>) -> bool {
    cache.write(rt, 5).put(5, 50).is_ok()
        && put_in_lists(rt, cache)
        && is_in_lists(rt, cache, 5, None)
        && is_in_lists(rt, cache, 1, Some(10))
        && is_in_lists(rt, cache, 3, Some(30))
}

#[test]
fn lists_have_their_capacity(rt: HostRuntime) {
    let cache = ConcurrentLruCache::new(rt.alloc(), 2);
    assert!(rt; cache.is_ok());
    if let Ok(cache) = cache {
        assert!(rt; list_has_two(&rt, &cache));
    }
}
