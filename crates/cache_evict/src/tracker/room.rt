//! Room for entries that aren't tracked.

ghost use Rattle.std.specs.Prelude.{◌≡◌, ◌<◌, None, IfOk, IfErr, OnOk, OnErr};
ghost use Rattle.cache_entries.specs.Entry.{owned_of};
ghost use Rattle.cache_entries.specs.declared.entry.CacheEntryKey.{CacheEntryKey};
ghost use Rattle.cache_entries.specs.Rows.{weight_of};
ghost use Rattle.cache_evict.specs.Managed.{rows_of, put_first, HasNoOtherReason};
ghost use Rattle.cache_evict.specs.Numbered.{LeadsHome};
ghost use Rattle.cache_evict.specs.Refusals.{HasRoom, IsRoomRefusal, IsRefusal};

use super::hashing::number_hash;
use super::rows::{End, copy_of};
use super::{Refusal, Tracker};
use cache_entries::entry::{CacheEntryKey, CacheEntryKeyRef};
use lru_core::{LruCore, MOST_ROWS};
use std::hash::BuildHasher;

impl<const N: usize, S: BuildHasher> Tracker<N, S> {
    // Looks for room for an entry that isn't tracked, with that weight, in the shard to which the hash leads, before anything
    // grows for it, and returns the hash.
    pub(super) fn look_for_room(&self, hash: u64, weight: usize) -> Result<u64, Refusal>
        ensures hash { IfOk result (λ same. same ≡ hash) }
        ensures room { (e : CacheEntryKey) → LeadsHome N e hash → weight_of e (rows_of N e self.now) ≡ None → OnOk result (HasNoOtherReason N e weight self.now) }
        ensures why { (e : CacheEntryKey) → LeadsHome N e hash → weight_of e (rows_of N e self.now) ≡ None → IfErr result (IsRefusal N e weight self.now) }
    {
        let shard = hash as usize % self.core.shards();
        look_for_room(&self.core, shard, hash, weight)
    }

    // The same by the entry itself. It returns a hash that leads to its shard.
    fn look_for(&self, entry: CacheEntryKeyRef<'_>, weight: usize) -> Result<u64, Refusal>
        requires { weight_of (owned_of entry) (rows_of N (owned_of entry) self.now) ≡ None }
        ensures hash { IfOk result (λ hash. LeadsHome N (owned_of entry.entry) hash) }
        ensures room { OnOk result (HasNoOtherReason N (owned_of entry.entry) weight self.now) }
        ensures why { IfErr result (IsRefusal N (owned_of entry.entry) weight self.now) }
    {
        self.look_for_room(number_hash(&self.numbers, entry), weight)
    }

    // A copy of an entry that isn't tracked, with a hash that leads to its shard, once there is room for it with that weight.
    fn copy_new(
        &self,
        entry: CacheEntryKeyRef<'_>,
        weight: usize,
    ) -> Result<(CacheEntryKey, u64), Refusal>
        requires { weight_of (owned_of entry) (rows_of N (owned_of entry) self.now) ≡ None }
        ensures copy { IfOk result (λ new. new.0 ≡ owned_of entry.entry) }
        ensures hash { IfOk result (λ new. LeadsHome N (owned_of entry.entry) new.1) }
        ensures room { OnOk result (HasNoOtherReason N (owned_of entry.entry) weight self.now) }
        ensures why { IfErr result (IsRefusal N (owned_of entry.entry) weight self.now) }
    {
        let hash = self.look_for(entry, weight)?;
        let copy = copy_of(entry)?;
        Ok((copy, hash))
    }

    // Puts an entry that isn't tracked first, once there is room for it with that weight.
    pub(super) fn put_owned(&mut self, entry: CacheEntryKey, weight: usize) -> Result<(), Refusal>
        requires { weight_of entry (rows_of N entry self.old) ≡ None }
        ensures ok { OnOk result (self.new ≡ put_first N entry weight self.old) }
        ensures err { OnErr result (self.new ≡ self.old) }
        ensures why { IfErr result (IsRefusal N entry weight self.old) }
    {
        let hash = self.look_for(CacheEntryKeyRef::from(&entry), weight)?;
        self.put_new(entry, hash, weight, End::First)
    }

    // Puts a copy of such an entry first.
    pub(super) fn put_copy(
        &mut self,
        entry: CacheEntryKeyRef<'_>,
        weight: usize,
    ) -> Result<(), Refusal>
        requires { weight_of (owned_of entry) (rows_of N (owned_of entry) self.old) ≡ None }
        ensures ok { OnOk result (self.new ≡ put_first N (owned_of entry.entry) weight self.old) }
        ensures err { OnErr result (self.new ≡ self.old) }
        ensures why { IfErr result (IsRefusal N (owned_of entry.entry) weight self.old) }
    {
        let (copy, hash) = self.copy_new(entry, weight)?;
        self.put_new(copy, hash, weight, End::First)
    }
}

// Looks for room for one more row of that weight in a shard, to which the hash leads, and returns the hash.
fn look_for_room<const N: usize, S: BuildHasher>(
    core: &LruCore<u64, N, S>,
    shard: usize,
    hash: u64,
    weight: usize,
) -> Result<u64, Refusal>
    requires { shard < N }
    ensures hash { IfOk result (λ same. same ≡ hash) }
    ensures room { OnOk result (HasRoom N shard weight core.now) }
    ensures why { IfErr result (IsRoomRefusal N shard weight core.now) }
{
    let most = usize::MAX / core.shards();
    if weight > most || core.shard_weight(shard) > most - weight {
        return Err(Refusal::Weight);
    }
    if core.shard_len(shard) >= most || core.len() >= MOST_ROWS {
        return Err(Refusal::Length);
    }
    Ok(hash)
}
