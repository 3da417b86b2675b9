//! Entries in shards, each most recent first.

ghost use Rattle.std.specs.Prelude.{◌≡◌, ◌≢◌, ℕ, None, true, false, is_some, IsOk, IfOk, IfErr, OnOk, OnErr};
ghost use Rattle.cache_entries.specs.Entry.{owned_of};
ghost use Rattle.cache_entries.specs.Rows.{weight_of};
ghost use Rattle.cache_evict.specs.Managed.{rows_of, put_at, put_first, use_first, taken_out, weight_after, weighed_anew, HasNoOtherReason};
ghost use Rattle.cache_evict.specs.Numbered.{LeadsHome};
ghost use Rattle.lru_numbers.specs.Parts.{entry_with_parts};
ghost use Rattle.cache_evict.specs.Refusals.{IsRefusal};

mod eviction;
mod files;
mod hashing;
mod loading;
mod refusal;
mod room;
mod rows;
mod totals;
mod writing;

use cache_entries::entry::{CacheEntryKey, CacheEntryKeyRef};
pub use loading::Again;
use lru_core::LruCore;
use lru_numbers::{KeyParts, Numbers};
pub use refusal::Refusal;
pub use rows::End;
use rows::{discard, put_first, put_new, raise_first, take_back, weigh_row, weight_of_new};
use std::hash::BuildHasher;
use std::marker::Model;

/// N shards of entries with their weights, under limits, and counts of the evicted ones.
#[derive(Drop)]
pub struct Tracker<const N: usize, S: BuildHasher> {
    numbers: Numbers<N, S>,
    pub(crate) core: LruCore<u64, N, S>,
    pub(crate) evicted_size: usize,
    pub(crate) evicted_items: usize,
}

impl<const N: usize, S: BuildHasher> Model for Tracker<N, S> {
    ghost use Rattle.cache_evict.specs.Managed.{Managed};

    ghost Value = { Managed };

    ghost use Rattle.lru_numbers.specs.Names.{name_at};
    ghost use Rattle.cache_evict.specs.Numbered.{managed_in, IsNumbered};

    ghost view = { λ t. managed_in (name_at t.numbers) t.core t.evicted_size t.evicted_items };

    ghost invariant = { λ t. IsNumbered N (name_at t.numbers) t.core.shards };
}

impl<const N: usize, S: BuildHasher> Tracker<N, S> {
    /// Returns the weight of an entry, if it is tracked.
    pub fn weight_of(&self, entry: CacheEntryKeyRef<'_>) -> Option<usize>
        ensures { result ≡ weight_of (owned_of entry.entry) (rows_of N (owned_of entry.entry) self.now) }
    {
        match self.numbers.number_of(entry) {
            Some(number) => self.core.peek_weight(number),
            None => None,
        }
    }

    /// Moves an entry to the front of its shard, and returns whether it is tracked.
    pub fn touch(&mut self, entry: CacheEntryKeyRef<'_>) -> bool
        ensures found { result ≡ is_some (weight_of (owned_of entry.entry) (rows_of N (owned_of entry.entry) self.old)) }
        ensures moved { (w : ℕ) → result ≡ true → self.new ≡ use_first N (owned_of entry.entry) w self.old }
        ensures same { result ≡ false → self.new ≡ self.old }
    {
        match self.numbers.number_of(entry) {
            Some(number) => {
                self.core.promote(number);
                true
            }
            None => false,
        }
    }

    /// Puts an entry at the front of its shard, with that weight. A refusal changes nothing.
    pub fn admit(&mut self, entry: CacheEntryKey, weight: usize) -> Result<(), Refusal>
        ensures ok { OnOk result (self.new ≡ put_first N entry weight self.old) }
        ensures err { OnErr result (self.new ≡ self.old) }
        ensures why { IfErr result (IsRefusal N entry weight self.old) }
    {
        match self.numbers.number_of(CacheEntryKeyRef::from(&entry)) {
            Some(number) => {
                discard(entry);
                put_first(&mut self.core, number, weight)
            }
            None => self.put_owned(entry, weight),
        }
    }

    /// Moves a tracked entry to the front of its shard, and returns `true`, or puts a copy of another one there with that weight,
    /// and returns `false`. A refusal changes nothing, and comes only for an entry that isn't tracked.
    pub fn access(&mut self, entry: CacheEntryKeyRef<'_>, weight: usize) -> Result<bool, Refusal>
        ensures ok { OnOk result (self.new ≡ use_first N (owned_of entry.entry) weight self.old) }
        ensures found { IfOk result (λ b. b ≡ is_some (weight_of (owned_of entry.entry) (rows_of N (owned_of entry.entry) self.old))) }
        ensures tracked { weight_of (owned_of entry.entry) (rows_of N (owned_of entry.entry) self.old) ≢ None → IsOk result }
        ensures err { OnErr result (self.new ≡ self.old) }
        ensures why { IfErr result (IsRefusal N (owned_of entry.entry) weight self.old) }
    {
        if self.touch(entry) {
            return Ok(true);
        }
        self.put_copy(entry, weight)?;
        Ok(false)
    }

    /// Adds `delta` to the weight of an entry, up to a cap but never down, and moves the entry to the front of its shard; one
    /// that isn't tracked is put there with that weight, of 1 at least. A refusal changes nothing.
    pub fn increment(
        &mut self,
        entry: &CacheEntryKey,
        delta: usize,
        cap: Option<usize>,
    ) -> Result<(), Refusal>
        ensures ok { OnOk result (self.new ≡ put_first N entry.now (weight_after N entry.now delta cap self.old) self.old) }
        ensures err { OnErr result (self.new ≡ self.old) }
        ensures why { IfErr result (IsRefusal N entry.now (weight_after N entry.now delta cap self.old) self.old) }
    {
        match self.numbers.number_of(CacheEntryKeyRef::from(entry)) {
            Some(number) => raise_first(&mut self.core, number, delta, cap),
            None => self.put_copy(CacheEntryKeyRef::from(entry), weight_of_new(delta, cap)),
        }
    }

    /// Gives an entry that weight: a tracked one in place, and a copy of another one is put at the front of its shard. Returns
    /// what it weighed, if it was tracked. A refusal changes nothing.
    pub fn reweigh(
        &mut self,
        entry: &CacheEntryKey,
        weight: usize,
    ) -> Result<Option<usize>, Refusal>
        ensures ok { OnOk result (self.new ≡ weighed_anew N entry.now weight self.old) }
        ensures before { IfOk result (λ old. old ≡ weight_of entry.now (rows_of N entry.now self.old)) }
        ensures err { OnErr result (self.new ≡ self.old) }
        ensures why { IfErr result (IsRefusal N entry.now weight self.old) }
    {
        match self.numbers.number_of(CacheEntryKeyRef::from(entry)) {
            Some(number) => weigh_row(&mut self.core, number, weight),
            None => {
                self.put_copy(CacheEntryKeyRef::from(entry), weight)?;
                Ok(None)
            }
        }
    }

    /// Puts an entry that isn't tracked at that end of its shard, to which the hash leads, with that weight, for which there
    /// is room. A refusal changes nothing.
    pub fn put_new(
        &mut self,
        entry: CacheEntryKey,
        hash: u64,
        weight: usize,
        end: End,
    ) -> Result<(), Refusal>
        requires room { HasNoOtherReason N entry weight self.old }
        requires hash { LeadsHome N entry hash }
        ensures ok { OnOk result (self.new ≡ put_at end N entry weight self.old) }
        ensures err { OnErr result (self.new ≡ self.old) }
        ensures why { IfErr result (IsRefusal N entry weight self.old) }
    {
        put_new(&mut self.numbers, &mut self.core, entry, hash, weight, end)
    }

    /// Takes the entry of a key alone out, by the key's parts.
    pub fn remove_parts(&mut self, parts: KeyParts<'_>)
        ensures { self.new ≡ taken_out N (entry_with_parts parts.entry) self.old }
    {
        if let Some(number) = self.numbers.number_of_parts(parts) {
            self.core.remove(number);
            take_back(&mut self.numbers, number);
        }
    }

    /// Takes an entry out.
    pub fn remove(&mut self, entry: CacheEntryKeyRef<'_>)
        ensures { self.new ≡ taken_out N (owned_of entry.entry) self.old }
    {
        if let Some(number) = self.numbers.number_of(entry) {
            self.core.remove(number);
            take_back(&mut self.numbers, number);
        }
    }
}
