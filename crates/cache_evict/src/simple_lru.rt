//! Entries in one list, whose evictions go by no draw.

ghost use Rattle.std.specs.Prelude.{◌≡◌, ◌≢◌, ◌<◌, ◌^◌, ◌++◌, ℕ, List, [], None, false, is_some, IsOk, IfOk, IfErr, OnOk, OnErr, IsErrOf};
ghost use Rattle.cache_entries.specs.declared.rows.Tracked.{Tracked};
ghost use Rattle.cache_entries.specs.Entry.{owned_of};
ghost use Rattle.cache_entries.specs.RowText.{SpellsRecency, recency_at, recency_text};
ghost use Rattle.cache_entries.specs.Rows.{weight_of};
ghost use Rattle.cache_evict.specs.Faults.{evicted_of, IsPutRefused, StopsAt};
ghost use Rattle.cache_evict.specs.Loads.{Loads, LoadsText, CantBeWritten};
ghost use Rattle.cache_evict.specs.Stored.{simple_stored};
ghost use Rattle.cache_evict.specs.Managed.{Evicts, fresh, rows_at, rows_of, put_first, use_first, taken_out, weight_after, is_over, pick_first, total_size, total_items};

use crate::fault::EvictFault;
use crate::load_fault::LoadFault;
use crate::manager::EvictionManager;
use crate::tracker::{Again, Tracker};
use cache_entries::entry::{CacheEntryKey, CacheEntryKeyRef};
use cache_words::pack::PackWriteFault;
use cache_words::time::Moment;
use lru_files::persistence::{Folder, ShardLoadReport, ShardSaveReport};
use rand_core::Rng;
use std::alloc::{AllocError, Global};
use std::fmt;
use std::hash::{BuildHasher, BuildHasherDefault, FoldHasher};
use std::marker::Model;

/// Entries in one list, most recent first, under a limit on their weight and perhaps on their number. Where a limit is passed
/// the last entry goes, so nothing is drawn.
///
/// With the default hasher it is for entries that the caller chooses itself. For entries that attackers choose the start is to be
/// random and secret, as a `SeededState`: no choice of keys, tags and ids takes it out of the hashes of entries and numbers.
pub type Manager<S = BuildHasherDefault<FoldHasher>> = OneList<1, S>;

/// A `Manager`, whose N is 1.
#[derive(Drop)]
pub struct OneList<const N: usize, S: BuildHasher> {
    tracker: Tracker<N, S>,
    ghost one: { N ≡ 1 },
}

impl<const N: usize, S: BuildHasher> Model for OneList<N, S> {
    ghost use Rattle.cache_evict.specs.Managed.{Managed};

    ghost Value = { Managed };

    ghost view = { λ m. m.tracker };
}

impl<const N: usize, S: BuildHasher> fmt::Debug for OneList<N, S> {
    // The limit and the sums, and no entry.
    fn fmt<W: fmt::Write>(&self, f: &mut fmt::Formatter<W>) -> fmt::Result {
        f.debug_struct("Manager")
            .field("weight_limit", &self.tracker.core.weight_limit())
            .field("total_size", &self.tracker.total_size())
            .field("total_items", &self.tracker.total_items())
            .finish_non_exhaustive()
    }
}

impl<const N: usize> OneList<N, BuildHasherDefault<FoldHasher>> {
    /// Returns a list without entries, which may weigh `limit` together, in the unit of the sizes, as bytes.
    ///
    /// # Errors
    ///
    /// No memory for the list.
    pub fn new(alloc: Global, limit: usize) -> Result<Self, AllocError>
        requires { N ≡ 1 }
        ensures { IfOk result (λ m. m ≡ fresh N limit None) }
    {
        OneList::new_with_watermark(alloc, limit, None)
    }

    /// The same, with a number of entries past which an eviction also takes some.
    ///
    /// # Errors
    ///
    /// No memory for the list.
    pub fn new_with_watermark(
        alloc: Global,
        limit: usize,
        watermark: Option<usize>,
    ) -> Result<Self, AllocError>
        requires { N ≡ 1 }
        ensures { IfOk result (λ m. m ≡ fresh N limit watermark) }
    {
        OneList::with_hasher(alloc, BuildHasherDefault::new(), limit, watermark)
    }
}

impl<const N: usize, S: BuildHasher + Copy> OneList<N, S> {
    /// The same, with hashes of that start.
    ///
    /// # Errors
    ///
    /// No memory for the list.
    pub fn with_hasher(
        alloc: Global,
        hasher: S,
        limit: usize,
        watermark: Option<usize>,
    ) -> Result<Self, AllocError>
        requires { N ≡ 1 }
        ensures { IfOk result (λ m. m ≡ fresh N limit watermark) }
    {
        let tracker = Tracker::new(alloc, hasher, limit, 0, watermark)?;
        Ok(OneList { tracker })
    }
}

impl<const N: usize, S: BuildHasher> OneList<N, S> {
    /// Returns the text of the entries with their weights, most recent first.
    ///
    /// # Errors
    ///
    /// No memory for the text; or no form counts the entries or the bytes of a tag, which is `TooLong`.
    pub fn serialize(&self, alloc: Global) -> Result<Vec<u8>, PackWriteFault>
        ensures ok { IfOk result (λ v. v.items ≡ recency_text (rows_at self.now.shards 0)) }
        ensures spelled { IfOk result (λ v. SpellsRecency (rows_at self.now.shards 0) v.items) }
        ensures one { N ≡ 1 }
        ensures long { IsErrOf result PackWriteFault.TooLong → CantBeWritten (rows_at self.now.shards 0) }
    {
        self.tracker.text_of(alloc, 0)
    }

    /// Reads a text. Each row's entry goes last where it isn't tracked, and else to the front, with the row's weight. It evicts
    /// nothing, and passes over what follows the text. A row whose weight leaves no room below 2^64 - 1 makes each admission
    /// of another entry `Weight` until the row's entry is removed.
    ///
    /// # Errors
    ///
    /// The first fault from the left: `Text` where the text can't be read, else why a row can't be put. The rows before it
    /// stay. A row of a tracked entry is refused for its weight alone, and takes no memory.
    pub fn deserialize(&mut self, alloc: Global, bytes: &[u8]) -> Result<(), LoadFault>
        ensures rows { Loads Again.MovedFirst N (recency_at bytes.now) self.old self.new result }
        ensures spelled { (rows : List Tracked) (text rest : List ℕ) → SpellsRecency rows text → bytes.now ≡ text ++ rest → Loads Again.MovedFirst N (rows, None) self.old self.new result }
        ensures text { OnOk result (LoadsText Again.MovedFirst N bytes.now self.old self.new) }
    {
        self.tracker.load(alloc, bytes, Again::MovedFirst)
    }
}

impl<const N: usize, S: BuildHasher> EvictionManager for OneList<N, S> {
    ghost managed = { λ m. m };

    ghost shard_count = { N };

    ghost weighed = { λ size. size };

    ghost pick = { pick_first };

    ghost stored = { simple_stored };

    fn shards(&self) -> usize {
        self.tracker.shards()
    }

    fn total_size(&self) -> usize {
        self.tracker.total_size()
    }

    fn total_items(&self) -> usize {
        self.tracker.total_items()
    }

    fn evicted_size(&self) -> usize {
        self.tracker.evicted_size
    }

    fn evicted_items(&self) -> usize {
        self.tracker.evicted_items
    }

    fn peek(&self, item: &CacheEntryKey) -> bool {
        self.tracker
            .weight_of(CacheEntryKeyRef::from(item))
            .is_some()
    }

    fn admit<R: Rng>(
        &mut self,
        alloc: Global,
        item: CacheEntryKey,
        size: usize,
        _fresh_until: Moment,
        _rng: &mut R,
    ) -> Result<Vec<CacheEntryKey>, EvictFault> {
        if let Err(refusal) = self.tracker.admit(item, size) {
            return Err(EvictFault::of(alloc, refusal));
        }
        // It shows that each shard is within its bound.
        self.tracker.shards_are_within();
        self.tracker.evict_in_order(alloc)
    }

    fn increment_weight<R: Rng>(
        &mut self,
        alloc: Global,
        item: &CacheEntryKey,
        delta: usize,
        max_weight: Option<usize>,
        _rng: &mut R,
    ) -> Result<Vec<CacheEntryKey>, EvictFault> {
        if let Err(refusal) = self.tracker.increment(item, delta, max_weight) {
            return Err(EvictFault::of(alloc, refusal));
        }
        self.tracker.shards_are_within();
        self.tracker.evict_in_order(alloc)
    }

    fn access(
        &mut self,
        alloc: Global,
        item: CacheEntryKeyRef<'_>,
        size: usize,
        _fresh_until: Moment,
    ) -> Result<bool, EvictFault> {
        let refusal = match self.tracker.access(item, size) {
            Ok(was_tracked) => return Ok(was_tracked),
            Err(refusal) => refusal,
        };
        Err(EvictFault::of(alloc, refusal))
    }

    fn reweigh(
        &mut self,
        alloc: Global,
        item: &CacheEntryKey,
        size: usize,
    ) -> Result<Option<usize>, EvictFault> {
        let refusal = match self.tracker.reweigh(item, size) {
            Ok(old) => {
                self.tracker.shards_are_within();
                return Ok(old);
            }
            Err(refusal) => refusal,
        };
        Err(EvictFault::of(alloc, refusal))
    }

    fn evict<R: Rng>(
        &mut self,
        alloc: Global,
        _rng: &mut R,
    ) -> Result<Vec<CacheEntryKey>, EvictFault> {
        // Nothing is drawn.
        self.tracker.evict_in_order(alloc)
    }

    fn remove(&mut self, item: CacheEntryKeyRef<'_>) {
        self.tracker.remove(item);
    }

    fn save<F: Folder>(
        &self,
        alloc: Global,
        folder: &mut F,
        dir: &str,
        words: &[u32],
    ) -> Result<ShardSaveReport<PackWriteFault>, EvictFault> {
        self.tracker.save_file(alloc, folder, dir, words)
    }

    fn load<F: Folder>(
        &mut self,
        alloc: Global,
        folder: &mut F,
        dir: &str,
    ) -> Result<ShardLoadReport<LoadFault>, EvictFault> {
        self.tracker.load_file(alloc, folder, dir)
    }
}
