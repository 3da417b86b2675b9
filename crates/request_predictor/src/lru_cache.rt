//! Bounded lists under locks.
ghost use Rattle.std.specs.Prelude.{◌≡◌, ◌<◌, ◌%◌, Some, slice_get, vec_len};

use crate::lru_shard::LruShard;
use crate::shards::get_shard;
use std::alloc::{AllocError, Global};
use std::hash::{BuildHasher, BuildHasherDefault, FoldHasher};
use std::sync::{RwLock, RwLockReadGuard, RwLockWriteGuard, Wait};

/// N bounded lists of keys with values, each under a lock of its own: key k is in list k modulo N.
///
/// Keys are found by their hashes. `new` hashes with a fixed start, for keys that the caller chooses itself; `with_hasher`
/// takes a start of the caller's. For keys that attackers choose it is a `SeededState`, which writes a key in two pieces, or a
/// SipHash with keys of its own: `FoldHasher` alone gives chosen keys of sixteen bytes one hash, wherever it starts.
#[derive(Drop)]
pub struct ConcurrentLruCache<
    V: Drop,
    const N: usize,
    S: BuildHasher + Drop = BuildHasherDefault<FoldHasher>,
> {
    lrus: Vec<RwLock<LruShard<V, S>>>,
    ghost count: { vec_len lrus ≡ N },
    ghost some: { 0 < N },
}

impl<V: Drop, const N: usize> ConcurrentLruCache<V, N> {
    /// Returns empty lists of that capacity, under hashes with a fixed start; 0 is 1. No room is reserved.
    ///
    /// # Errors
    ///
    /// Out of memory.
    pub fn new(alloc: Global, shard_capacity: usize) -> Result<Self, AllocError>
        requires { 0 < N }
    {
        ConcurrentLruCache::with_hasher(alloc, shard_capacity, BuildHasherDefault::new())
    }
}

impl<V: Drop, const N: usize, S: BuildHasher + Copy + Drop> ConcurrentLruCache<V, N, S> {
    /// The same, with hashes of that start.
    ///
    /// # Errors
    ///
    /// Out of memory.
    pub fn with_hasher(alloc: Global, shard_capacity: usize, hasher: S) -> Result<Self, AllocError>
        requires { 0 < N }
    {
        let mut lrus = Vec::new(alloc);
        'lrus: for _ in 0..N {
            lrus.push(RwLock::new(LruShard::with_hasher(alloc, shard_capacity, hasher)?))?;
        }
        Ok(ConcurrentLruCache { lrus })
    }
}

impl<V: Drop, const N: usize, S: BuildHasher + Drop> ConcurrentLruCache<V, N, S> {
    /// Returns the lock of a key's list, which is list `key` modulo N.
    pub fn get(&self, key: u128) -> &RwLock<LruShard<V, S>>
        ensures { slice_get self.now.lrus.items (key % N) ≡ Some result.now }
    {
        &self.lrus[get_shard(key, self.lrus.len())]
    }

    /// Waits for the lock of a key's list, to read it. A thread that holds a list to write it waits for ever.
    pub fn read<R: Wait>(&self, rt: &R, key: u128) -> RwLockReadGuard<'_, LruShard<V, S>> {
        self.get(key).read(rt)
    }

    /// Waits for the lock of a key's list, to change it. A thread that holds the list waits for ever.
    pub fn write<R: Wait>(&self, rt: &R, key: u128) -> RwLockWriteGuard<'_, LruShard<V, S>> {
        self.get(key).write(rt)
    }
}
