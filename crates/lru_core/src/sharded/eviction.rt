//! Evictions, each of the last row of a shard.

ghost use Rattle.std.specs.Prelude.{◌≡◌, ◌+◌, ◌%◌, ◌<◌, ◌⊎◌, [], length, true, false, IfSome, IfNone, IfOk, IfErr, OnOk, OnErr, OnSome};
ghost use Rattle.lru_core.specs.Cores.{rows_at, core_len, is_over, longer_of_two, next_of, first_nonempty_from, IsEviction, IsStep, Evicts};

use super::LruCore;
use super::totals::Totals;
use rand_core::Rng;
use std::alloc::Global;
use std::hash::BuildHasher;

impl<T: Drop, const N: usize, S: BuildHasher> LruCore<T, N, S> {
    /// Evicts the last row of the shard of that number modulo N, whatever the limit.
    pub fn evict_shard(&mut self, shard: u64) -> Option<(T, usize)>
        ensures none { IfNone result ((rows_at self.old.shards (shard % N) ≡ []) × (self.new ≡ self.old)) }
        ensures some { IfSome result (λ p. IsEviction self.old (shard % N) p self.new) }
    {
        let place = self.place_of(shard);
        self.evict_at(place)
    }

    /// One step of eviction, by two draws: if the weight is past the limit or the number of rows past the watermark, it
    /// removes the last row of the longer of the two shards that the draws name, of the first if they are equally long;
    /// if that shard is empty, of the next non-empty one around the circle.
    pub fn evict_step(&mut self, a: u64, b: u64) -> Option<(T, usize)>
        ensures none { IfNone result ((self.new ≡ self.old) × ((is_over self.old ≡ false) ⊎ (core_len self.old.shards ≡ 0))) }
        ensures some { IfSome result (λ p. IsStep N self.old a b p self.new) }
        ensures less { OnSome result (core_len self.new.shards + 1 ≡ core_len self.old.shards) }
    {
        if !self.is_over() {
            return None;
        }
        let from = self.longer_of_two(a, b);
        let place = self.first_nonempty_from(from);
        self.evict_at(place)
    }

    /// Evicts by steps, each by the next two words of the generator, until neither limit is passed. If memory for a pair
    /// runs out, it stops before the draws for that pair, and its error has the pairs so far.
    pub fn evict_to_limit<R: Rng>(
        &mut self,
        alloc: Global,
        rng: &mut R,
    ) -> Result<Vec<(T, usize)>, Vec<(T, usize)>>
        ensures pairs { IfOk result (λ v. Evicts N self.old v.items (R.stream rng.old) self.new (R.stream rng.new)) }
        ensures within { OnOk result (is_over self.new ≡ false) }
        ensures refused { IfErr result (λ v. Evicts N self.old v.items (R.stream rng.old) self.new (R.stream rng.new)) }
        ensures more { OnErr result (is_over self.new ≡ true) }
    {
        let mut pairs = Vec::new(alloc);
        'steps: while self.is_over() {
            if pairs.reserve(1).is_err() {
                return Err(pairs);
            }
            let a = rng.next_u64();
            let b = rng.next_u64();
            pairs.push_reserved(self.evict_step(a, b).unwrap());
        }
        Ok(pairs)
    }

    // Removes the last row of a shard, and counts it.
    fn evict_at(&mut self, place: usize) -> Option<(T, usize)>
        requires { place < N }
        ensures none { IfNone result ((rows_at self.old.shards place ≡ []) × (self.new ≡ self.old)) }
        ensures some { IfSome result (λ p. IsEviction self.old place p self.new) }
        ensures less { OnSome result (core_len self.new.shards + 1 ≡ core_len self.old.shards) }
    {
        let unit = &mut self.units[place];
        let before = Totals::of(unit);
        let gone = unit.evict();
        self.totals.recount::<T, N, S>(&self.units, place, before);
        let (data, weight) = gone?;
        self.evicted_weight = self.evicted_weight.wrapping_add(weight);
        self.evicted_len = self.evicted_len.wrapping_add(1);
        Some((data, weight))
    }
}

impl<T, const N: usize, S: BuildHasher> LruCore<T, N, S> {
    /// Returns whether the weight is past the limit, or the number of rows past the watermark.
    pub fn is_over(&self) -> bool
        ensures { result ≡ is_over self.now }
    {
        if self.totals.weight > self.weight_limit {
            return true;
        }
        match self.len_watermark {
            Some(mark) => self.totals.len > mark,
            None => false,
        }
    }

    // The longer of the shards that two draws name, the first if they are equally long.
    fn longer_of_two(&self, a: u64, b: u64) -> usize
        ensures value { result ≡ longer_of_two self.now.shards (a % N) (b % N) }
        ensures within { result < N }
        ensures lists { length self.now.shards ≡ N }
    {
        let first = self.place_of(a);
        let second = self.place_of(b);
        if self.shard_len(first) < self.shard_len(second) {
            second
        } else {
            first
        }
    }

    // The first non-empty shard from `from` on, wrapping around; `from` if all are empty.
    fn first_nonempty_from(&self, from: usize) -> usize
        requires { from < N }
        ensures value { result ≡ first_nonempty_from N self.now.shards N from }
        ensures within { result < N }
    {
        let mut i = from;
        'circle: for _ in 0..N {
            if self.shard_len(i) != 0 {
                return i;
            }
            i = next_of(i, N);
        }
        i
    }
}

// The shard after `i` on a circle of `n`.
fn next_of(i: usize, n: usize) -> usize
    requires { i < n }
    ensures value { result ≡ next_of n i }
    ensures within { result < n }
{
    if i + 1 == n { 0 } else { i + 1 }
}
