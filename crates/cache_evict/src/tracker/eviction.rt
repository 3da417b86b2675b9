//! Evictions, each of the last entry of a shard.

ghost use Rattle.std.specs.Prelude.{◌≡◌, ◌+◌, ◌<◌, true, false, IsTrue, vec_len, vec_capacity, IsSome, IfSome, IfNone, IfOk, IfErr, OnOk, OnSome};
ghost use Rattle.rand_core.specs.Stream.{Stream};
ghost use Rattle.cache_evict.specs.Faults.{RunsOut};
ghost use Rattle.cache_evict.specs.Managed.{GoesLast, Evicts, is_over, picked, pick_by_draws, pick_first, total_items};

use super::Tracker;
use crate::fault::EvictFault;
use cache_entries::entry::CacheEntryKey;
use rand_core::Rng;
use std::alloc::Global;
use std::hash::BuildHasher;

impl<const N: usize, S: BuildHasher> Tracker<N, S> {
    /// Returns whether the weight is past the limit, or the number of entries past the watermark.
    pub fn is_over(&self) -> bool
        ensures { result ≡ is_over self.now }
    {
        self.core.is_over()
    }

    /// Evicts the last entry of the shard that two words pick, while a limit is passed.
    pub fn evict_step(&mut self, a: u64, b: u64) -> Option<CacheEntryKey>
        ensures none { IfNone result (self.new ≡ self.old) }
        ensures there { is_over self.old ≡ true → IsSome result }
        ensures some { IfSome result (λ e. (is_over self.old ≡ true) × GoesLast self.old (picked N self.old.shards a b) e self.new) }
        ensures less { OnSome result (total_items self.new + 1 ≡ total_items self.old) }
    {
        let (number, weight) = self.core.evict_step(a, b)?;
        self.evicted_size = self.evicted_size.saturating_add(weight);
        self.evicted_items = self.evicted_items.saturating_add(1);
        self.numbers.give_back(number)
    }

    /// Evicts entries until neither limit is passed, each by the next two words of the generator. If memory for an entry runs
    /// out, it stops before the draws for that entry, and its error has the entries so far.
    pub fn evict_by_draws<R: Rng>(
        &mut self,
        alloc: Global,
        rng: &mut R,
    ) -> Result<Vec<CacheEntryKey>, EvictFault>
        ensures gone { IfOk result (λ v. Evicts (pick_by_draws N) self.old v.items (R.stream rng.old) self.new (R.stream rng.new)) }
        ensures within { OnOk result (is_over self.new ≡ false) }
        ensures refused { IfErr result (λ fault. RunsOut (pick_by_draws N) self.old (R.stream rng.old) fault self.new (R.stream rng.new)) }
    {
        let mut gone = Vec::new(alloc);
        'steps: while self.is_over() {
            if !has_room(&mut gone) {
                return Err(EvictFault::Memory(gone));
            }
            let a = rng.next_u64();
            let b = rng.next_u64();
            gone.push_reserved(self.evict_step(a, b).unwrap());
        }
        Ok(gone)
    }

    /// Evicts the last entry of the only shard until neither limit is passed. If memory for an entry runs out, its error has
    /// the entries so far.
    pub fn evict_in_order(&mut self, alloc: Global) -> Result<Vec<CacheEntryKey>, EvictFault>
        requires { N ≡ 1 }
        ensures gone { IfOk result (λ v. (s : Stream) → Evicts pick_first self.old v.items s self.new s) }
        ensures within { OnOk result (is_over self.new ≡ false) }
        ensures refused { IfErr result (λ fault. (s : Stream) → RunsOut pick_first self.old s fault self.new s) }
    {
        let mut gone = Vec::new(alloc);
        'steps: while self.is_over() {
            if !has_room(&mut gone) {
                return Err(EvictFault::Memory(gone));
            }
            gone.push_reserved(self.evict_step(0, 0).unwrap());
        }
        Ok(gone)
    }
}

// Reserves room for one more entry, and returns whether there is some.
fn has_room(entries: &mut Vec<CacheEntryKey>) -> bool
    ensures room { IsTrue result → vec_len entries.new < vec_capacity entries.new }
    ensures same { entries.new.items ≡ entries.old.items }
{
    entries.reserve(1).is_ok()
}
