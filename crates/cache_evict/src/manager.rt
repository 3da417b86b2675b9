//! What every manager of entries does.

ghost use Rattle.std.specs.Prelude.{◌≡◌, ◌≢◌, ◌<◌, ◌^◌, ℕ, List, [], length, None, false, is_some, IsOk, IfOk, IfErr, OnOk, OnErr};
ghost use Rattle.rand_core.specs.Stream.{Stream};
ghost use Rattle.cache_entries.specs.declared.rows.Tracked.{Tracked};
ghost use Rattle.cache_entries.specs.Entry.{owned_of};
ghost use Rattle.cache_entries.specs.Rows.{weight_of};
ghost use Rattle.cache_evict.specs.Faults.{evicted_of, IsPutRefused, RunsOut, StopsAt};
ghost use Rattle.cache_evict.specs.FileLoads.{LoadsStored};
ghost use Rattle.cache_evict.specs.Managed.{Managed, Evicts, IsSharded, rows_of, put_first, use_first, taken_out, weight_after, weighed_first, weighed_anew, is_over, total_size, total_items, Fits};
ghost use Rattle.cache_evict.specs.Saves.{AreOldOrWhole, Saves};
ghost use Rattle.cache_evict.specs.Stored.{Stored, file_at, temp_at};
ghost use Rattle.lru_files.specs.Folder.{StopsLeave};

use crate::fault::EvictFault;
use crate::load_fault::LoadFault;
use cache_entries::entry::{CacheEntryKey, CacheEntryKeyRef};
use cache_words::pack::PackWriteFault;
use cache_words::time::Moment;
use lru_files::persistence::{Folder, ShardLoadReport, ShardSaveReport};
use rand_core::Rng;
use std::alloc::Global;

/// What tracks entries with their weights, in the order of their uses, and evicts some where a limit is passed.
///
/// A contract sees what it holds, the number of its shards, what an entry weighs that is put with a weight, how the shard
/// is picked from which the next entry goes, and the files that its shards are stored in.
pub trait EvictionManager {
    ghost managed: { Self → Managed };

    ghost shard_count: { ℕ };

    ghost weighed: { ℕ → ℕ };

    ghost pick: { List (List Tracked) → Stream → ℕ × Stream };

    ghost stored: { Stored };

    /// Returns the number of shards: so many words a save takes.
    fn shards(&self) -> usize
        ensures { result ≡ shard_count };

    /// Returns the weight of all entries, in the unit of their sizes, as bytes.
    fn total_size(&self) -> usize
        ensures sum { result ≡ total_size (managed self.now) }
        ensures fits { Fits shard_count (managed self.now) };

    /// Returns the number of all entries.
    fn total_items(&self) -> usize
        ensures sum { result ≡ total_items (managed self.now) }
        ensures sharded { IsSharded shard_count (managed self.now) };

    /// Returns the weight of all evicted entries, up to 2^64 - 1.
    fn evicted_size(&self) -> usize
        ensures { result ≡ (managed self.now).evicted_size };

    /// Returns the number of all evicted entries, up to 2^64 - 1.
    fn evicted_items(&self) -> usize
        ensures { result ≡ (managed self.now).evicted_items };

    /// Returns whether an entry is tracked. The order stays.
    fn peek(&self, item: &CacheEntryKey) -> bool
        ensures { result ≡ is_some (weight_of item.now (rows_of shard_count item.now (managed self.now))) };

    /// Puts an entry at the front of its shard with that weight, or the least that the manager gives, and evicts until neither
    /// limit is passed. Returns the evicted entries, in order. `fresh_until` is ignored. A manager that draws takes two words of
    /// the generator for each eviction, and none otherwise.
    ///
    /// # Errors
    ///
    /// `Weight`, `Length`, `NumbersSpent` or `Memory` where the entry isn't put: all is as before. `Memory` too where there is
    /// no memory for the evicted entries: those in the fault are gone, and a limit is still passed. Where the list is empty
    /// and the entry was not tracked before, `peek` says which.
    fn admit<R: Rng>(
        &mut self,
        alloc: Global,
        item: CacheEntryKey,
        size: usize,
        fresh_until: Moment,
        rng: &mut R,
    ) -> Result<Vec<CacheEntryKey>, EvictFault>
        ensures ok { IfOk result (λ v. Evicts pick (put_first shard_count item (weighed size) (managed self.old)) v.items (R.stream rng.old) (managed self.new) (R.stream rng.new)) }
        ensures within { OnOk result (is_over (managed self.new) ≡ false) }
        ensures fits { OnOk result (Fits shard_count (put_first shard_count item (weighed size) (managed self.old))) }
        ensures refused { IfErr result (λ fault. StopsAt pick shard_count item (weighed size) (managed self.old) (R.stream rng.old) fault (managed self.new) (R.stream rng.new)) };

    /// Adds `delta` to the weight of an entry, up to `max_weight` but never down, and moves the entry to the front of its
    /// shard; one that isn't tracked is put there with that weight, of 1 at least. It then evicts as `admit` does.
    ///
    /// # Errors
    ///
    /// Those of `admit`.
    fn increment_weight<R: Rng>(
        &mut self,
        alloc: Global,
        item: &CacheEntryKey,
        delta: usize,
        max_weight: Option<usize>,
        rng: &mut R,
    ) -> Result<Vec<CacheEntryKey>, EvictFault>
        ensures ok { IfOk result (λ v. Evicts pick (weighed_first shard_count item.now delta max_weight (managed self.old)) v.items (R.stream rng.old) (managed self.new) (R.stream rng.new)) }
        ensures within { OnOk result (is_over (managed self.new) ≡ false) }
        ensures fits { OnOk result (Fits shard_count (weighed_first shard_count item.now delta max_weight (managed self.old))) }
        ensures refused { let w = weight_after shard_count item.now delta max_weight (managed self.old) in
            IfErr result (λ fault. StopsAt pick shard_count item.now w (managed self.old) (R.stream rng.old) fault (managed self.new) (R.stream rng.new)) };

    /// A use of an entry: a tracked one moves to the front of its shard, and the answer is `true`; another one is put there
    /// with that weight, or the least that the manager gives, and the answer is `false`. It evicts nothing. `fresh_until` is
    /// ignored. It takes no memory for a tracked entry: one that isn't tracked alone is copied.
    ///
    /// # Errors
    ///
    /// `Weight`, `Length`, `NumbersSpent` or `Memory`, for an entry that isn't tracked alone: all is as before.
    fn access(
        &mut self,
        alloc: Global,
        item: CacheEntryKeyRef<'_>,
        size: usize,
        fresh_until: Moment,
    ) -> Result<bool, EvictFault>
        ensures ok { OnOk result (managed self.new ≡ use_first shard_count (owned_of item.entry) (weighed size) (managed self.old)) }
        ensures found { IfOk result (λ b. b ≡ is_some (weight_of (owned_of item.entry) (rows_of shard_count (owned_of item.entry) (managed self.old)))) }
        ensures tracked { weight_of (owned_of item.entry) (rows_of shard_count (owned_of item.entry) (managed self.old)) ≢ None → IsOk result }
        ensures err { OnErr result (managed self.new ≡ managed self.old) }
        ensures refused { IfErr result (λ fault. IsPutRefused shard_count (owned_of item.entry) (weighed size) (managed self.old) fault) }
        ensures none { IfErr result (λ fault. evicted_of fault ≡ []) };

    /// Gives an entry that weight, or the least that the manager gives: a tracked one in place, and another one is put at the
    /// front of its shard. Returns what it weighed, if it was tracked. It evicts nothing, also where a limit is passed then.
    /// It takes no memory for a tracked entry.
    ///
    /// # Errors
    ///
    /// `Weight`, or for an entry that isn't tracked `Length`, `NumbersSpent` or `Memory`: all is as before.
    fn reweigh(
        &mut self,
        alloc: Global,
        item: &CacheEntryKey,
        size: usize,
    ) -> Result<Option<usize>, EvictFault>
        ensures ok { OnOk result (managed self.new ≡ weighed_anew shard_count item.now (weighed size) (managed self.old)) }
        ensures before { IfOk result (λ old. old ≡ weight_of item.now (rows_of shard_count item.now (managed self.old))) }
        ensures fits { OnOk result (Fits shard_count (managed self.new)) }
        ensures err { OnErr result (managed self.new ≡ managed self.old) }
        ensures refused { IfErr result (λ fault. IsPutRefused shard_count item.now (weighed size) (managed self.old) fault) }
        ensures none { IfErr result (λ fault. evicted_of fault ≡ []) };

    /// Evicts until neither limit is passed, as `admit` does once its entry is put, by as many words. Returns the evicted entries,
    /// in order.
    ///
    /// # Errors
    ///
    /// `Memory` where there is none for the evicted entries: those in the fault are gone, and a limit is still passed.
    fn evict<R: Rng>(
        &mut self,
        alloc: Global,
        rng: &mut R,
    ) -> Result<Vec<CacheEntryKey>, EvictFault>
        ensures ok { IfOk result (λ v. Evicts pick (managed self.old) v.items (R.stream rng.old) (managed self.new) (R.stream rng.new)) }
        ensures within { OnOk result (is_over (managed self.new) ≡ false) }
        ensures refused { IfErr result (λ fault. RunsOut pick (managed self.old) (R.stream rng.old) fault (managed self.new) (R.stream rng.new)) };

    /// Takes an entry out.
    fn remove(&mut self, item: CacheEntryKeyRef<'_>)
        ensures { managed self.new ≡ taken_out shard_count (owned_of item.entry) (managed self.old) };

    /// Saves the entries of each shard with their weights to a file in `dir`, which is made first. The texts are written under
    /// temporary names, made distinct by the words; a word is for one save alone. Wherever the save is stopped, each shard's
    /// file is as before or has the whole text. Those that failed are in the report.
    ///
    /// # Errors
    ///
    /// `File` where no shard was saved, whatever each failed for. `Memory` where there is no memory for the report, or in a manager
    /// of one list for the names of its file: no call of the folder was made.
    fn save<F: Folder>(
        &self,
        alloc: Global,
        folder: &mut F,
        dir: &str,
        words: &[u32],
    ) -> Result<ShardSaveReport<PackWriteFault>, EvictFault>
        requires words { length words.now ≡ shard_count }
        ensures saved { Saves F.did F.failures_of F.keeps F.files (managed self.now) shard_count (file_at stored dir.now) (temp_at stored dir.now words.now) dir.now folder.old folder.new result }
        ensures stops { F.keeps → StopsLeave F.did F.opened F.files
            (AreOldOrWhole (managed self.now) shard_count (file_at stored dir.now) (temp_at stored dir.now words.now) (F.files folder.old)) folder.old folder.new };

    /// Loads what was saved to `dir`: each row's entry goes into the shard of its own hash, with its weight as it stands. It
    /// evicts nothing. Where a text is faulty, or a row can't be put, the rows before stay, and its shard counts as errored.
    ///
    /// # Errors
    ///
    /// `File` of a manager of one list alone: its file is absent, can't be read, or is faulty. `Memory` where there is no memory
    /// for the report: nothing was done. A manager of one list answers it too for a row that was refused for memory: the rows
    /// before stay.
    fn load<F: Folder>(
        &mut self,
        alloc: Global,
        folder: &mut F,
        dir: &str,
    ) -> Result<ShardLoadReport<LoadFault>, EvictFault>
        ensures { LoadsStored F.did F.failures_of F.keeps F.files shard_count stored dir.now (managed self.old) (managed self.new) folder.old folder.new result };
}
