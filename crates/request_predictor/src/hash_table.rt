//! Maps under locks.
ghost use Rattle.std.specs.Prelude.{◌≡◌, ◌<◌, ◌%◌, ◌↔◌, Some, IsSome, slice_get, vec_len};

use crate::shards::get_shard;
use std::alloc::{AllocError, Global};
use std::collections::HashMap;
use std::hash::{BuildHasher, BuildHasherDefault, FoldHasher};
use std::sync::{RwLock, RwLockReadGuard, RwLockWriteGuard, Wait};

/// N maps of keys to values, each under a lock of its own: key k is in map k modulo N.
///
/// Keys are found by their hashes. `new` hashes with a fixed start, for keys that the caller chooses itself; `with_hasher`
/// takes a start of the caller's. For keys that attackers choose it is a `SeededState`, which writes a key in two pieces, or a
/// SipHash with keys of its own: `FoldHasher` alone gives chosen keys of sixteen bytes one hash, wherever it starts.
#[derive(Drop)]
pub struct ConcurrentHashTable<
    V: Drop,
    const N: usize,
    S: BuildHasher + Drop = BuildHasherDefault<FoldHasher>,
> {
    tables: Vec<RwLock<HashMap<u128, V, S>>>,
    ghost count: { vec_len tables ≡ N },
    ghost some: { 0 < N },
}

impl<V: Drop, const N: usize> ConcurrentHashTable<V, N> {
    /// Returns empty maps, under hashes with a fixed start.
    ///
    /// # Errors
    ///
    /// Out of memory.
    pub fn new(alloc: Global) -> Result<Self, AllocError>
        requires { 0 < N }
    {
        ConcurrentHashTable::with_hasher(alloc, BuildHasherDefault::new())
    }
}

impl<V: Drop, const N: usize, S: BuildHasher + Copy + Drop> ConcurrentHashTable<V, N, S> {
    /// The same, with hashes of that start.
    ///
    /// # Errors
    ///
    /// Out of memory.
    pub fn with_hasher(alloc: Global, hasher: S) -> Result<Self, AllocError>
        requires { 0 < N }
    {
        let mut tables = Vec::new(alloc);
        'tables: for _ in 0..N {
            tables.push(RwLock::new(HashMap::with_hasher(alloc, hasher)))?;
        }
        Ok(ConcurrentHashTable { tables })
    }
}

impl<V: Drop, const N: usize, S: BuildHasher + Drop> ConcurrentHashTable<V, N, S> {
    /// Returns the lock of a key's map, which is map `key` modulo N.
    pub fn get(&self, key: u128) -> &RwLock<HashMap<u128, V, S>>
        ensures { slice_get self.now.tables.items (key % N) ≡ Some result.now }
    {
        &self.tables[get_shard(key, self.tables.len())]
    }

    /// Returns the lock of a map by its number; `None` from N on.
    pub fn get_shard_at_idx(&self, idx: usize) -> Option<&RwLock<HashMap<u128, V, S>>>
        ensures { IsSome result ↔ (idx < N) }
    {
        self.tables.get(idx)
    }

    /// Waits for the lock of a key's map, to read it.
    pub fn read<R: Wait>(&self, rt: &R, key: u128) -> RwLockReadGuard<'_, HashMap<u128, V, S>> {
        self.get(key).read(rt)
    }

    /// Waits for the lock of a key's map, to change it.
    pub fn write<R: Wait>(&self, rt: &R, key: u128) -> RwLockWriteGuard<'_, HashMap<u128, V, S>> {
        self.get(key).write(rt)
    }

    /// Calls `f` with each key and its value, in an order that is left open. It takes one lock at a time, so what other threads
    /// change meanwhile may be seen or not.
    pub fn for_each<R: Wait, F: FnMut(&u128, &V)>(&self, rt: &R, mut f: F)
        requires { F.IsAlwaysCallable f }
    {
        for table in &self.tables {
            let table = table.read(rt);
            for (key, value) in table.iter() {
                f(key, value);
            }
        }
    }
}
