//! Entries in N shards, each with an actor.

ghost use Rattle.std.specs.Prelude.{◌≡◌, ◌%◌, ◌<◌, List, None, IfOk, IfErr};
ghost use Rattle.lru_async.specs.Faults.{ComesBackUnsent, unsent};
ghost use Rattle.lru_async.specs.Hashes.{key_hash};
ghost use Rattle.cache_entries.specs.Entry.{entry_writes};
ghost use Rattle.cache_entries.specs.RowText.{recency_text};
ghost use Rattle.cache_entries.specs.declared.rows.Tracked.{Tracked};
ghost use Rattle.cache_evict.specs.Loads.{CantBeWritten};
ghost use Rattle.cache_evict.specs.Parts.{entry_with_parts};

use crate::builder::ManagerBuilder;
use crate::fault::TextFault;
use crate::texts::text_of_snapshot;
use cache_entries::entry::{CacheEntryId, CacheEntryKey, CacheEntryKeyRef};
use cache_evict::KeyParts;
use cache_words::time::Moment;
use lru_async::{AsyncLru, SendFault, TailFault, hash_key};
use std::alloc::Global;
use std::sync::Wait;

/// Entries in N shards, each most recent first, under a limit on their weight and perhaps on their number. An entry is in the
/// shard of its hash modulo N.
///
/// Calls that change a shard are messages to its actor and take effect later; nothing is claimed of when, nor of what the counters
/// show. A message that its shard refuses, for memory, weight or length, is dropped and changes nothing: an entry that was not
/// tracked stays untracked, so it is never evicted, and of all calls only `insert_tail` reports it. Evicted entries go to the callback. Callers in several
/// threads may share a manager by reference. The threads end by `shutdown`, so each value must be given to it.
///
/// Rows are named by the entries' 64-bit hashes, which start at a fixed place: two entries of one hash share a row. The one that
/// was put last has it, a call on either finds it, and the other is no longer tracked, so it is never evicted. That serves an owner
/// who chooses the keys, or who can bear that an entry is forgotten. Strangers who choose keys can choose some of one hash; for
/// them there is `lru::Manager` of `cache_evict`, in which each entry has a row of its own.
pub struct Manager<const N: usize> {
    lru: AsyncLru<CacheEntryKey, N>,
}

impl<const N: usize> Manager<N> {
    /// Returns a manager of the entries of these lists.
    pub fn from_lru(lru: AsyncLru<CacheEntryKey, N>) -> Self
        ensures { result.lru ≡ lru.entry }
    {
        Manager { lru }
    }

    /// Returns a builder of a manager under that limit, without a watermark, with N eviction workers and one callback worker.
    pub fn builder<C>(weight_limit: usize, callback: C) -> ManagerBuilder<C, N>
        ensures limits { (result.lists.weight_limit ≡ weight_limit) × (result.lists.len_watermark ≡ None) × (result.lists.capacity ≡ 0) }
        ensures workers { (result.lists.eviction_workers ≡ N) × (result.lists.callback_workers ≡ 1) × (result.lists.callback ≡ callback) }
    {
        ManagerBuilder {
            lists: AsyncLru::builder(weight_limit, callback),
        }
    }

    /// Ends all threads and waits until their work is over, as `AsyncLru::shutdown` does.
    pub fn shutdown<H: Wait>(self, rt: &H) {
        let Manager { lru } = self;
        lru.shutdown(rt);
    }

    /// Returns the weight of all entries.
    pub fn total_size(&self) -> usize {
        self.lru.weight()
    }

    /// Returns the number of all entries.
    pub fn total_items(&self) -> usize {
        self.lru.len()
    }

    /// Returns the weight of all evicted entries, which wraps at 2^64.
    pub fn evicted_size(&self) -> usize {
        self.lru.evicted_weight()
    }

    /// Returns the number of all evicted entries, which wraps at 2^64.
    pub fn evicted_items(&self) -> usize {
        self.lru.evicted_len()
    }

    /// Returns the number of shards.
    pub fn shards(&self) -> usize
        ensures value { result ≡ N }
        ensures some { 0 < N }
    {
        self.lru.shards()
    }

    /// Returns the number of entries of a shard.
    pub fn shard_len(&self, shard: usize) -> usize
        requires { shard < N }
    {
        self.lru.shard_len(shard)
    }

    /// Returns the shard of an entry.
    pub fn get_shard_for_key(&self, key: &CacheEntryKey) -> usize
        ensures { result ≡ key_hash (entry_writes key.now) % N }
    {
        hash_key(key) as usize % self.lru.shards()
    }

    /// Puts an entry at the front of its shard with that weight, of 1 at least. Returns the shard. `fresh_until` is ignored.
    ///
    /// # Errors
    ///
    /// The entry was not sent, and comes back.
    pub fn admit<R: Wait>(
        &self,
        rt: &R,
        item: CacheEntryKey,
        size: usize,
        _fresh_until: Moment,
    ) -> Result<usize, SendFault<CacheEntryKey>>
        ensures shard { IfOk result (λ i. i ≡ key_hash (entry_writes item) % N) }
        ensures back { IfErr result (λ fault. unsent fault ≡ item) }
    {
        self.lru.admit(rt, item, size)
    }

    /// Puts an entry at the back of its shard, with its weight as it is, and waits until that is done: returns whether it is newly
    /// tracked. Nothing changes if its hash is tracked. So a load that inserts the rows of a text in order can count what was refused.
    ///
    /// # Errors
    ///
    /// The entry was not sent, and comes back; or its shard has no memory or no room for one more, or its weight would pass its
    /// bound, which is `Refused`.
    pub fn insert_tail<R: Wait>(
        &self,
        rt: &R,
        item: CacheEntryKey,
        size: usize,
    ) -> Result<bool, TailFault<CacheEntryKey>>
        ensures back { IfErr result (ComesBackUnsent item) }
    {
        self.lru.insert_tail_checked(rt, item, size)
    }

    /// Adds `delta` to the weight of an entry, up to `max_weight` but never down, and moves the entry to the front of its shard;
    /// one that isn't tracked is put there with that weight, of 1 at least.
    ///
    /// # Errors
    ///
    /// The message was not sent.
    pub fn increment_weight<R: Wait>(
        &self,
        rt: &R,
        item: &CacheEntryKey,
        delta: usize,
        max_weight: Option<usize>,
    ) -> Result<(), SendFault<()>> {
        self.lru.increment_weight(rt, item, delta, max_weight)
    }

    /// Takes an entry out.
    ///
    /// # Errors
    ///
    /// The message was not sent.
    pub fn remove<R: Wait>(&self, rt: &R, item: CacheEntryKeyRef<'_>) -> Result<(), SendFault<()>> {
        self.lru.remove_by_hash(rt, hash_key(&item))
    }

    /// Takes the entry of a key alone out, by the key's parts.
    ///
    /// # Errors
    ///
    /// The message was not sent.
    pub fn remove_parts<R: Wait>(&self, rt: &R, parts: KeyParts<'_>) -> Result<(), SendFault<()>> {
        self.lru.remove_by_hash(rt, hash_of_parts(parts))
    }

    /// A use of an entry: a tracked one moves to the front of its shard, and the answer is `true`; another one is put there with that
    /// weight, of 1 at least, and the answer is `false`. `fresh_until` is ignored.
    ///
    /// # Errors
    ///
    /// A message was not sent, or there is no memory for the copy of an entry that isn't tracked.
    pub fn access<R: Wait>(
        &self,
        rt: &R,
        item: CacheEntryKeyRef<'_>,
        size: usize,
        _fresh_until: Moment,
    ) -> Result<bool, SendFault<()>> {
        if self.lru.promote_by_hash(rt, hash_key(&item))? {
            return Ok(true);
        }
        match self.lru.admit(rt, item.to_entry()?, size) {
            Ok(_) => Ok(false),
            Err(SendFault::Memory(_)) => Err(SendFault::Memory(())),
            Err(SendFault::Closed(_)) => Err(SendFault::Closed(())),
        }
    }

    /// Returns whether an entry is tracked. The order stays.
    ///
    /// # Errors
    ///
    /// The question was not sent.
    pub fn peek<R: Wait>(&self, rt: &R, item: &CacheEntryKey) -> Result<bool, SendFault<()>> {
        self.lru.peek(rt, item)
    }

    /// Returns the weight of an entry, if it is tracked. The order stays.
    ///
    /// # Errors
    ///
    /// The question was not sent.
    pub fn peek_weight<R: Wait>(
        &self,
        rt: &R,
        item: &CacheEntryKey,
    ) -> Result<Option<usize>, SendFault<()>> {
        self.lru.peek_weight(rt, item)
    }

    /// Returns a clone of the entry of a shard that was used longest ago. The order stays.
    ///
    /// # Errors
    ///
    /// The question was not sent, or there is no memory for the clone.
    pub fn peek_lru<R: Wait>(
        &self,
        rt: &R,
        shard: usize,
    ) -> Result<Option<CacheEntryKey>, SendFault<()>>
        requires { shard < N }
    {
        match self.lru.peek_lru(rt, shard)? {
            Some((key, _weight)) => Ok(Some(key)),
            None => Ok(None),
        }
    }

    /// Returns the weight of the entries of a shard.
    ///
    /// # Errors
    ///
    /// The question was not sent.
    pub fn shard_weight<R: Wait>(&self, rt: &R, shard: usize) -> Result<usize, SendFault<()>>
        requires { shard < N }
    {
        self.lru.shard_weight(rt, shard)
    }

    /// Returns the text of the entries of a shard with their weights, most recent first.
    ///
    /// # Errors
    ///
    /// The question was not sent; no memory for the entries or the text; or no form counts the entries or the bytes of a tag, which
    /// is `TooLong`.
    pub fn serialize_shard<R: Wait>(
        &self,
        rt: &R,
        alloc: Global,
        shard: usize,
    ) -> Result<Vec<u8>, TextFault>
        requires { shard < N }
        ensures text { IfOk result (λ v. (rows : List Tracked) × (v.items ≡ recency_text rows) × (CantBeWritten rows → ⊥)) }
    {
        text_of_snapshot(alloc, self.lru.snapshot_shard(rt, shard))
    }
}

// The hash of the entry of a key alone, by the key's parts.
fn hash_of_parts(parts: KeyParts<'_>) -> u64
    ensures { result ≡ key_hash (entry_writes (entry_with_parts parts.entry)) }
{
    let no_id: Option<CacheEntryId> = None;
    hash_key(&((parts.primary, parts.variance, parts.user_tag), no_id))
}
