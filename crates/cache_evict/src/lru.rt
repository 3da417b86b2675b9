//! Entries in N shards, whose evictions go by two draws.

ghost use Rattle.std.specs.Prelude.{◌≡◌, ◌<◌, ◌^◌, ◌++◌, ℕ, List, [], length, map, max, None, false, is_some, IsOk, IfOk, IfErr, OnOk, OnErr, IsErrOf, MatchOption};
ghost use Rattle.cache_entries.specs.Entry.{owned_of};
ghost use Rattle.cache_entries.specs.Rows.{weight_of, all_weights};
ghost use Rattle.cache_entries.specs.RowText.{SpellsRecency, recency_at, recency_text};
ghost use Rattle.cache_entries.specs.declared.rows.Tracked.{Tracked};
ghost use Rattle.cache_evict.specs.Loads.{Loads, LoadsText, CantBeWritten};
ghost use Rattle.cache_evict.specs.Managed.{Evicts, Fits, IsLast, IsSharded, rows_at, rows_of, shard_of, put_first, use_first, taken_out, weight_after, is_over, pick_by_draws, total_size, total_items};
ghost use Rattle.cache_evict.specs.Faults.{evicted_of, IsPutRefused, StopsAt};
ghost use Rattle.cache_evict.specs.Stored.{lru_stored};
ghost use Rattle.lru_numbers.specs.Parts.{entry_with_parts};

mod building;

use crate::fault::EvictFault;
use crate::load_fault::LoadFault;
use crate::manager::EvictionManager;
use crate::tracker::{Again, Tracker};
use cache_entries::entry::{CacheEntryKey, CacheEntryKeyRef};
use cache_entries::pack::entry_hash;
use cache_words::pack::PackWriteFault;
use cache_words::time::Moment;
use lru_files::persistence::{Folder, ShardLoadReport, ShardSaveReport};
use lru_numbers::KeyParts;
use rand_core::Rng;
use std::alloc::{AllocError, Global};
use std::fmt;
use std::hash::{BuildHasher, BuildHasherDefault, FoldHasher};
use std::marker::Model;

/// Entries in N shards, each most recent first, under a limit on their weight and perhaps on their number. An entry is in the
/// shard of its hash modulo N.
///
/// With the default hasher it is for entries that the caller chooses itself. For entries that attackers choose the start is to be
/// random and secret, as a `SeededState`: no choice of keys, tags and ids takes it out of the hashes of entries and numbers.
#[derive(Drop)]
pub struct Manager<const N: usize, S: BuildHasher = BuildHasherDefault<FoldHasher>> {
    tracker: Tracker<N, S>,
}

impl<const N: usize, S: BuildHasher> Model for Manager<N, S> {
    ghost use Rattle.cache_evict.specs.Managed.{Managed};

    ghost Value = { Managed };

    ghost view = { λ m. m.tracker };
}

impl<const N: usize, S: BuildHasher> fmt::Debug for Manager<N, S> {
    // The limit and the sums, and no entry.
    fn fmt<W: fmt::Write>(&self, f: &mut fmt::Formatter<W>) -> fmt::Result {
        f.debug_struct("Manager")
            .field("weight_limit", &self.tracker.core.weight_limit())
            .field("total_size", &self.tracker.total_size())
            .field("total_items", &self.tracker.total_items())
            .finish_non_exhaustive()
    }
}

impl<const N: usize, S: BuildHasher> Manager<N, S> {
    /// Returns the weight that the entries may have together.
    pub fn weight_limit(&self) -> usize
        ensures { result ≡ self.now.limit }
    {
        self.tracker.core.weight_limit()
    }

    /// Sets the weight that the entries may have together. It evicts nothing.
    pub fn set_weight_limit(&mut self, limit: usize)
        ensures { self.new ≡ record self.old { limit = limit } }
    {
        self.tracker.core.set_weight_limit(limit);
    }

    /// Returns the number of shards.
    pub fn shards(&self) -> usize
        ensures count { result ≡ N }
        ensures sharded { IsSharded N self.now }
    {
        self.tracker.shards()
    }

    /// A law: each shard is within its bound, and has entries of its own alone. It does nothing.
    pub fn shards_are_within(&self)
        ensures fits { Fits N self.now }
        ensures sharded { IsSharded N self.now }
    {
        self.tracker.shards_are_within();
        self.tracker.entries_are_sharded();
    }

    /// Returns the weight of the entries of a shard.
    pub fn shard_weight(&self, shard: usize) -> usize
        requires { shard < N }
        ensures { result ≡ all_weights (rows_at self.now.shards shard) }
    {
        self.tracker.core.shard_weight(shard)
    }

    /// Returns the number of entries of a shard.
    pub fn shard_len(&self, shard: usize) -> usize
        requires { shard < N }
        ensures { result ≡ length (rows_at self.now.shards shard) }
    {
        self.tracker.core.shard_len(shard)
    }

    /// Returns the shard of an entry.
    pub fn get_shard_for_key(&self, key: &CacheEntryKey) -> usize
        ensures { result ≡ shard_of N key.now }
    {
        entry_hash(CacheEntryKeyRef::from(key)) as usize % self.tracker.core.shards()
    }

    /// Returns the weight of an entry, if it is tracked. The order stays.
    pub fn peek_weight(&self, item: &CacheEntryKey) -> Option<usize>
        ensures { result ≡ weight_of item.now (rows_of N item.now self.now) }
    {
        self.tracker.weight_of(CacheEntryKeyRef::from(item))
    }

    /// Returns the entry of a shard that was used longest ago. The order stays.
    pub fn peek_lru(&self, shard: usize) -> Option<&CacheEntryKey>
        requires { shard < N }
        ensures { MatchOption result (rows_at self.now.shards shard ≡ []) (λ e. IsLast (rows_at self.now.shards shard) e.now) }
    {
        self.tracker.peek_lru(shard)
    }

    /// Returns the entries of a shard, most recent first.
    ///
    /// # Errors
    ///
    /// No memory for the list or for a copy of an entry.
    pub fn entries(&self, alloc: Global, shard: usize) -> Result<Vec<CacheEntryKey>, AllocError>
        requires { shard < N }
        ensures { IfOk result (λ v. v.items ≡ map (λ r. r.entry) (rows_at self.now.shards shard)) }
    {
        self.tracker.entries(alloc, shard)
    }

    /// Takes the entry of a key alone out, by the key's parts.
    pub fn remove_parts(&mut self, parts: KeyParts<'_>)
        ensures { self.new ≡ taken_out N (entry_with_parts parts.entry) self.old }
    {
        self.tracker.remove_parts(parts);
    }

    /// Returns the text of the entries of a shard with their weights, most recent first.
    ///
    /// # Errors
    ///
    /// No memory for the text; or no form counts the entries or the bytes of a tag, which is `TooLong`.
    pub fn serialize_shard(&self, alloc: Global, shard: usize) -> Result<Vec<u8>, PackWriteFault>
        requires { shard < N }
        ensures ok { IfOk result (λ v. v.items ≡ recency_text (rows_at self.now.shards shard)) }
        ensures spelled { IfOk result (λ v. SpellsRecency (rows_at self.now.shards shard) v.items) }
        ensures long { IsErrOf result PackWriteFault.TooLong → CantBeWritten (rows_at self.now.shards shard) }
    {
        self.tracker.text_of(alloc, shard)
    }

    /// Reads the text of a shard. Each row's entry goes last in the shard of its own hash, with its weight as it stands, also
    /// 0; an entry that is tracked stays as it is. It evicts nothing, and passes over what follows the text. A row whose weight
    /// leaves no room below usize::MAX / N makes each admission of another entry to its shard `Weight` until the row's entry
    /// is removed.
    ///
    /// # Errors
    ///
    /// The first fault from the left: `Text` where the text can't be read, else why a row can't be put. The rows before it
    /// stay. A row of a tracked entry is never refused, and takes no memory.
    pub fn deserialize_shard(&mut self, alloc: Global, bytes: &[u8]) -> Result<(), LoadFault>
        ensures rows { Loads Again.PassedOver N (recency_at bytes.now) self.old self.new result }
        ensures spelled { (rows : List Tracked) (text rest : List ℕ) → SpellsRecency rows text → bytes.now ≡ text ++ rest → Loads Again.PassedOver N (rows, None) self.old self.new result }
        ensures text { OnOk result (LoadsText Again.PassedOver N bytes.now self.old self.new) }
    {
        self.tracker.load(alloc, bytes, Again::PassedOver)
    }
}

impl<const N: usize, S: BuildHasher> EvictionManager for Manager<N, S> {
    ghost managed = { λ m. m };

    ghost shard_count = { N };

    ghost weighed = { λ size. max size 1 };

    ghost pick = { pick_by_draws N };

    ghost stored = { lru_stored };

    fn shards(&self) -> usize {
        self.tracker.core.shards()
    }

    fn total_size(&self) -> usize {
        self.tracker.total_size()
    }

    fn total_items(&self) -> usize {
        self.tracker.total_items()
    }

    fn evicted_size(&self) -> usize {
        self.tracker.evicted_size
    }

    fn evicted_items(&self) -> usize {
        self.tracker.evicted_items
    }

    fn peek(&self, item: &CacheEntryKey) -> bool {
        self.tracker
            .weight_of(CacheEntryKeyRef::from(item))
            .is_some()
    }

    fn admit<R: Rng>(
        &mut self,
        alloc: Global,
        item: CacheEntryKey,
        size: usize,
        _fresh_until: Moment,
        rng: &mut R,
    ) -> Result<Vec<CacheEntryKey>, EvictFault> {
        match self.tracker.admit(item, size.max(1)) {
            Ok(()) => {
                // It shows that each shard is within its bound.
                self.tracker.shards_are_within();
                self.tracker.evict_by_draws(alloc, rng)
            }
            Err(refusal) => Err(EvictFault::of(alloc, refusal)),
        }
    }

    fn increment_weight<R: Rng>(
        &mut self,
        alloc: Global,
        item: &CacheEntryKey,
        delta: usize,
        max_weight: Option<usize>,
        rng: &mut R,
    ) -> Result<Vec<CacheEntryKey>, EvictFault> {
        match self.tracker.increment(item, delta, max_weight) {
            Ok(()) => {
                self.tracker.shards_are_within();
                self.tracker.evict_by_draws(alloc, rng)
            }
            Err(refusal) => Err(EvictFault::of(alloc, refusal)),
        }
    }

    fn access(
        &mut self,
        alloc: Global,
        item: CacheEntryKeyRef<'_>,
        size: usize,
        _fresh_until: Moment,
    ) -> Result<bool, EvictFault> {
        let refusal = match self.tracker.access(item, size.max(1)) {
            Ok(was_tracked) => return Ok(was_tracked),
            Err(refusal) => refusal,
        };
        Err(EvictFault::of(alloc, refusal))
    }

    fn reweigh(
        &mut self,
        alloc: Global,
        item: &CacheEntryKey,
        size: usize,
    ) -> Result<Option<usize>, EvictFault> {
        let refusal = match self.tracker.reweigh(item, size.max(1)) {
            Ok(old) => {
                self.tracker.shards_are_within();
                return Ok(old);
            }
            Err(refusal) => refusal,
        };
        Err(EvictFault::of(alloc, refusal))
    }

    fn evict<R: Rng>(
        &mut self,
        alloc: Global,
        rng: &mut R,
    ) -> Result<Vec<CacheEntryKey>, EvictFault> {
        // Two words go for each eviction, and none otherwise.
        self.tracker.evict_by_draws(alloc, rng)
    }

    fn remove(&mut self, item: CacheEntryKeyRef<'_>) {
        self.tracker.remove(item);
    }

    fn save<F: Folder>(
        &self,
        alloc: Global,
        folder: &mut F,
        dir: &str,
        words: &[u32],
    ) -> Result<ShardSaveReport<PackWriteFault>, EvictFault> {
        self.tracker.save_shards(alloc, folder, dir, words)
    }

    fn load<F: Folder>(
        &mut self,
        alloc: Global,
        folder: &mut F,
        dir: &str,
    ) -> Result<ShardLoadReport<LoadFault>, EvictFault> {
        self.tracker.load_shards(alloc, folder, dir)
    }
}
