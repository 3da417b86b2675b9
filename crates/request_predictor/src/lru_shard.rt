//! A shard of a bounded table.
ghost use Rattle.std.specs.Prelude.{◌≡◌, [], nat_eq, is_some, option_copied, IfOk, OnOk, OnErr, IfErr};
ghost use Rattle.std.specs.NonZero.{non_zero_usize_get};
ghost use Rattle.std.specs.Map.{lookup, remove_entry};
ghost use Rattle.lru.specs.LruCache.{lru_cache, put_entries};
ghost use Rattle.request_predictor.specs.Capacity.{at_least_one};

use lru::LruCache;
use std::alloc::{AllocError, AllocFailed, Global};
use std::hash::{BuildHasher, BuildHasherDefault, FoldHasher};
use std::marker::Model;
use std::num::NonZeroUsize;

/// A bounded list of keys with values, the key that was put last first. It is no lock. A contract sees the pairs in order and
/// the capacity.
#[derive(Drop)]
pub struct LruShard<V: Drop, S: BuildHasher + Drop = BuildHasherDefault<FoldHasher>> {
    list: LruCache<u128, V, S>,
}

impl<V: Drop, S: BuildHasher + Drop> Model for LruShard<V, S> {
    ghost use Rattle.std.specs.Prelude.{ℕ};
    ghost use Rattle.lru.specs.LruCache.{LruCache as Entries, lru_cache_code};
    ghost use Rattle.std.specs.Coded.{coded_ℕ};

    ghost Value = { Entries ℕ V };

    ghost coded = { lru_cache_code coded_ℕ V.code };

    ghost view = { λ s. s.list };
}

// A capacity; 0 is 1.
fn at_least_one(capacity: usize) -> NonZeroUsize
    ensures { non_zero_usize_get result ≡ at_least_one capacity }
{
    match NonZeroUsize::new(capacity) {
        Some(capacity) => capacity,
        None => NonZeroUsize::MIN,
    }
}

impl<V: Drop, S: BuildHasher + Drop> LruShard<V, S> {
    /// Returns an empty list of that capacity, under hashes of that start; 0 is 1. No room is reserved.
    ///
    /// # Errors
    ///
    /// Out of memory.
    pub fn with_hasher(alloc: Global, capacity: usize, hasher: S) -> Result<Self, AllocError>
        ensures { IfOk result (λ s. s ≡ lru_cache [] (at_least_one capacity)) }
    {
        let mut list = LruCache::unbounded_with_hasher(alloc, hasher)?;
        list.resize(at_least_one(capacity));
        Ok(LruShard { list })
    }

    /// Returns the value of a key, which stays where it is in the list.
    pub fn peek(&self, key: u128) -> Option<&V>
        ensures { option_copied result ≡ lookup (nat_eq key) self.now.entries }
    {
        self.list.peek(&key)
    }

    /// Returns whether the key is listed.
    pub fn contains(&self, key: u128) -> bool
        ensures { result ≡ is_some (lookup (nat_eq key) self.now.entries) }
    {
        self.list.contains(&key)
    }

    /// Puts the key first, with that value, and returns the value that it had. A full list loses its last key for one that is
    /// new.
    ///
    /// # Errors
    ///
    /// Out of memory. Nothing changes, and the key and value come back.
    pub fn put(&mut self, key: u128, value: V) -> Result<Option<V>, AllocFailed<(u128, V)>>
        ensures old { IfOk result (λ old. old ≡ lookup (nat_eq key) self.old.entries) }
        ensures change { OnOk result (self.new ≡ lru_cache (put_entries nat_eq self.old key value) self.old.cap) }
        ensures back { IfErr result (λ y. y.value ≡ (key, value)) }
        ensures err { OnErr result (self.new ≡ self.old) }
    {
        self.list.put(key, value)
    }

    /// Takes a key out, and returns its value.
    pub fn pop(&mut self, key: u128) -> Option<V>
        ensures value { result ≡ lookup (nat_eq key) self.old.entries }
        ensures change { self.new ≡ lru_cache (remove_entry (nat_eq key) self.old.entries) self.old.cap }
    {
        self.list.pop(&key)
    }
}
