//! Uses, insertion, weights and removal, each under the lock of its shard.

ghost use Rattle.std.specs.Prelude.{◌≡◌, ◌↔◌, ℕ, ◌%◌, ◌⊎◌, List, [], None, max, is_some, IsTrue, IfOk, IfErr, MatchOption};
ghost use Rattle.std.specs.Option.{option_map};
ghost use Rattle.lru_core.specs.Rows.{only, row_of, pair_of, capped, raised};
ghost use Rattle.lru_core.specs.declared.rows.Row.{Row};
ghost use Rattle.pingora_lru.specs.Calls.{weight_of};
ghost use Rattle.lru_actors.specs.Messages.{lost};
ghost use Rattle.pingora_lru.specs.Closures.{WasCalled};

use super::Lru;
use crate::counts::Sums;
use crate::edits::promote_top_n;
use lru_core::lru_unit::LruFault;
use std::hash::BuildHasher;
use std::sync::Wait;

impl<T, const N: usize, S: BuildHasher> Lru<T, N, S> {
    /// Moves the row of `key` to the front of its shard, and returns whether there is one.
    pub fn promote<R: Wait>(&self, rt: &R, key: u64) -> bool
        ensures { (rows : List (Row T)) × (result ≡ is_some (row_of key rows)) }
    {
        self.shards[self.place_of(key)].lock(rt).access(key)
    }

    /// Moves the row of `key` to the front of its shard if it is not among the first `top`, and returns whether there is one.
    pub fn promote_top_n<R: Wait>(&self, rt: &R, key: u64, top: usize) -> bool
        ensures { (rows : List (Row T)) × (result ≡ is_some (row_of key rows)) }
    {
        let mut unit = self.shards[self.place_of(key)].lock(rt);
        promote_top_n(&mut *unit, key, top)
    }
}

impl<T: Drop, const N: usize, S: BuildHasher> Lru<T, N, S> {
    /// Inserts `item` under `key` at the front of its shard, with a weight of 1 at least, in place of what the key had.
    /// Returns the shard.
    ///
    /// # Errors
    ///
    /// What the shard refuses. Nothing changes, and the item comes back.
    pub fn admit<R: Wait>(
        &self,
        rt: &R,
        key: u64,
        item: T,
        weight: usize,
    ) -> Result<usize, LruFault<T>>
        ensures shard { IfOk result (λ i. i ≡ key % N) }
        ensures back { IfErr result (λ fault. lost fault ≡ item) }
    {
        let place = self.place_of(key);
        let mut unit = self.shards[place].lock(rt);
        let before = Sums::of(&*unit);
        let admitted: Result<usize, LruFault<T>> = unit.admit(key, item, weight);
        self.counts.recount(&*unit, before);
        let _old = admitted?;
        Ok(place)
    }

    /// Inserts `item` under a new key at the back of its shard, with its weight as it is, and returns `true`. Nothing changes
    /// if the key is there.
    ///
    /// # Errors
    ///
    /// What the shard refuses. Nothing changes, and the item comes back.
    pub fn insert_tail<R: Wait>(
        &self,
        rt: &R,
        key: u64,
        item: T,
        weight: usize,
    ) -> Result<bool, LruFault<T>>
        ensures added { IfOk result (λ b. (rows : List (Row T)) × (IsTrue b ↔ (only key rows ≡ []))) }
        ensures back { IfErr result (λ fault. lost fault ≡ item) }
    {
        let mut unit = self.shards[self.place_of(key)].lock(rt);
        let before = Sums::of(&*unit);
        let added: Result<bool, LruFault<T>> = unit.insert_tail(key, item, weight);
        self.counts.recount(&*unit, before);
        added
    }

    /// Sets the weight of `key`, as it is, and returns the old one, if the key is there. The order stays.
    ///
    /// # Errors
    ///
    /// The shard's weight would pass its bound. Nothing changes.
    pub fn set_weight<R: Wait>(
        &self,
        rt: &R,
        key: u64,
        weight: usize,
    ) -> Result<Option<usize>, LruFault<()>>
        ensures before { IfOk result (λ old. (rows : List (Row T)) × (old ≡ weight_of key rows)) }
        ensures heavy { IfErr result (λ fault. fault ≡ LruFault.Weight tt) }
    {
        let mut unit = self.shards[self.place_of(key)].lock(rt);
        let before = Sums::of(&*unit);
        let set: Result<Option<usize>, LruFault<()>> = unit.set_weight(key, weight);
        self.counts.recount(&*unit, before);
        set
    }

    /// Adds `delta` to the weight of `key`, up to `max_weight` but never down, or inserts the key with that weight, of 1 at
    /// least, and what `admit_data` makes. The key moves to the front of its shard. Returns the new weight. `admit_data` runs
    /// under the shard's lock.
    ///
    /// # Errors
    ///
    /// What the shard refuses. Nothing changes, and `admit_data` comes back uncalled.
    pub fn increment_weight<R: Wait, F: FnOnce() -> T>(
        &self,
        rt: &R,
        key: u64,
        admit_data: F,
        delta: usize,
        max_weight: Option<usize>,
    ) -> Result<usize, LruFault<F>>
    where
        F: Drop,
        requires { F.IsAlwaysCallable admit_data }
        ensures weight { IfOk result (λ w. (w ≡ max 1 (capped max_weight delta)) ⊎ ((old : ℕ) × (w ≡ raised old delta max_weight))) }
        ensures back { IfErr result (λ fault. lost fault ≡ admit_data) }
    {
        let mut unit = self.shards[self.place_of(key)].lock(rt);
        let before = Sums::of(&*unit);
        let added: Result<(usize, usize, bool), LruFault<F>> = unit.increment_weight(
            key, admit_data, delta, max_weight,
        );
        self.counts.recount(&*unit, before);
        let now = added?;
        Ok(now.1)
    }

    /// Lets `update` change the data of `key` and return the key's next weight, or inserts the key with the data and the
    /// weight that `admit_data` makes; the weight is 1 at least. The key moves to the front of its shard. Returns the old
    /// weight, if the key was there. Both run under the shard's lock, and must not ask for it.
    ///
    /// # Errors
    ///
    /// What the shard refuses. An update whose weight is refused leaves the old weight and the place, and the data as `update`
    /// left it; a refused insertion hands the data back.
    pub fn update_or_admit<R: Wait, U: FnOnce(&mut T, usize) -> usize, A: FnOnce() -> (T, usize)>(
        &self,
        rt: &R,
        key: u64,
        update: U,
        admit_data: A,
    ) -> Result<Option<usize>, LruFault<Option<T>>>
    where
        U: Drop,
        A: Drop,
        requires update { U.IsAlwaysCallable update }
        requires admit { A.IsAlwaysCallable admit_data }
        ensures called { IfOk result (λ old. MatchOption old ((d : T) × (w : ℕ) × A.post admit_data (d, w)) (λ v. WasCalled U.FnOnce update v)) }
        ensures back { IfErr result (λ fault. MatchOption (lost fault) ((fault ≡ LruFault.Weight None) × ((v : ℕ) × WasCalled U.FnOnce update v)) (λ d. (w : ℕ) × A.post admit_data (d, w))) }
    {
        let mut unit = self.shards[self.place_of(key)].lock(rt);
        let before = Sums::of(&*unit);
        let added: Result<(Option<usize>, usize), LruFault<Option<T>>> = unit.update_or_admit(
            key, update, admit_data,
        );
        self.counts.recount(&*unit, before);
        match added {
            Ok(now) => Ok(now.0),
            Err(fault) => Err(fault),
        }
    }

    /// Removes the row of `key`, and returns its data and weight.
    pub fn remove<R: Wait>(&self, rt: &R, key: u64) -> Option<(T, usize)>
        ensures { (rows : List (Row T)) × (result ≡ option_map pair_of (row_of key rows)) }
    {
        let mut unit = self.shards[self.place_of(key)].lock(rt);
        let before = Sums::of(&*unit);
        let gone = unit.remove(key);
        self.counts.recount(&*unit, before);
        gone
    }
}
