//! Uses, insertion, weights and removal.

ghost use Rattle.std.specs.Prelude.{◌≡◌, ◌≢◌, ◌↔◌, ℕ, ◌+◌, ◌%◌, ◌<◌, ◌++◌, ◌∷◌, [], take, max, true, IsTrue, is_some, IfOk, IfErr, OnOk, OnErr};
ghost use Rattle.std.specs.Option.{option_map};
ghost use Rattle.lru_core.specs.Rows.{only, others, promoted, admitted, row_of, reweighed, total_weight, capped, raised, incremented, a_row, IsHeavy, IsLong, Fits};
ghost use Rattle.lru_core.specs.Cores.{shard_of, with_shard, shard_bound};
ghost use Rattle.lru_core.specs.Updates.{WasUpdated, IsUpdateRefused, IsRefused};

use super::LruCore;
use super::totals::Totals;
use crate::lru_unit::LruFault;
use std::hash::BuildHasher;

impl<T, const N: usize, S: BuildHasher> LruCore<T, N, S> {
    /// Moves the row of `key` to the front of its shard, and returns whether there is one.
    pub fn promote(&mut self, key: u64) -> bool
        ensures found { result ≡ is_some (row_of key (shard_of N self.old key)) }
        ensures after { self.new ≡ with_shard N self.old key (promoted key (shard_of N self.old key)) }
    {
        let place = self.place_of(key);
        let unit = &mut self.units[place];
        let before = Totals::of(unit);
        let found = unit.access(key);
        self.totals.recount::<T, N, S>(&self.units, place, before);
        found
    }

    /// Moves the row of `key` to the front of its shard if it is not among the first `top`, and returns whether there is
    /// one.
    pub fn promote_top_n(&mut self, key: u64, top: usize) -> bool
        ensures found { result ≡ is_some (row_of key (shard_of N self.old key)) }
        ensures near { only key (take top (shard_of N self.old key)) ≢ [] → self.new ≡ self.old }
        ensures far { only key (take top (shard_of N self.old key)) ≡ [] → self.new ≡ with_shard N self.old key (promoted key (shard_of N self.old key)) }
    {
        if self.is_near_head(key, top) {
            true
        } else {
            self.promote(key)
        }
    }
}

impl<T: Drop, const N: usize, S: BuildHasher> LruCore<T, N, S> {
    /// Inserts `item` under `key` at the front of its shard, with a weight of 1 at least, in place of what the key had.
    /// Returns the shard.
    pub fn admit(&mut self, key: u64, item: T, weight: usize) -> Result<usize, LruFault<T>>
        ensures shard { IfOk result (λ i. i ≡ key % N) }
        ensures after { OnOk result (self.new ≡ with_shard N self.old key (admitted key item weight (shard_of N self.old key))) }
        ensures err { OnErr result (self.new ≡ self.old) }
        ensures memory { let rows = shard_of N self.old key in (back : T) → result ≡ Err (LruFault.Memory back) → (back ≡ item) × (only key rows ≡ []) × Fits (shard_bound N) (max 1 weight) rows }
        ensures heavy { let rows = shard_of N self.old key in (back : T) → result ≡ Err (LruFault.Weight back) → (back ≡ item) × (shard_bound N < total_weight (others key rows) + max 1 weight) }
        ensures long { (back : T) → result ≡ Err (LruFault.Length back) → (back ≡ item) × (only key (shard_of N self.old key) ≡ []) × IsLong (shard_bound N) (shard_of N self.old key) }
    {
        let place = self.place_of(key);
        let unit = &mut self.units[place];
        let before = Totals::of(unit);
        let admitted: Result<usize, LruFault<T>> = unit.admit(key, item, weight);
        self.totals.recount::<T, N, S>(&self.units, place, before);
        let _old = admitted?;
        Ok(place)
    }

    /// Inserts `item` under a new key at the back of its shard, with its weight as it is, and returns `true`. Nothing
    /// changes if the key is there.
    pub fn insert_tail(&mut self, key: u64, item: T, weight: usize) -> Result<bool, LruFault<T>>
        ensures added { IfOk result (λ b. IsTrue b ↔ (only key (shard_of N self.old key) ≡ [])) }
        ensures after { result ≡ Ok true → self.new ≡ with_shard N self.old key (shard_of N self.old key ++ a_row key item weight ∷ []) }
        ensures same { result ≢ Ok true → self.new ≡ self.old }
        ensures memory { let rows = shard_of N self.old key in (back : T) → result ≡ Err (LruFault.Memory back) → (back ≡ item) × (only key rows ≡ []) × Fits (shard_bound N) weight rows }
        ensures heavy { let rows = shard_of N self.old key in (back : T) → result ≡ Err (LruFault.Weight back) → (back ≡ item) × (only key rows ≡ []) × (shard_bound N < total_weight rows + weight) }
        ensures long { (back : T) → result ≡ Err (LruFault.Length back) → (back ≡ item) × (only key (shard_of N self.old key) ≡ []) × IsLong (shard_bound N) (shard_of N self.old key) }
    {
        let place = self.place_of(key);
        let unit = &mut self.units[place];
        let before = Totals::of(unit);
        let added: Result<bool, LruFault<T>> = unit.insert_tail(key, item, weight);
        self.totals.recount::<T, N, S>(&self.units, place, before);
        added
    }

    /// Sets the weight of `key`, as it is, and returns the old one, if the key is there. The order stays.
    pub fn set_weight(&mut self, key: u64, weight: usize) -> Result<Option<usize>, LruFault<()>>
        ensures before { IfOk result (λ old. old ≡ option_map (λ r. r.weight) (row_of key (shard_of N self.old key))) }
        ensures after { OnOk result (self.new ≡ with_shard N self.old key (reweighed key weight (shard_of N self.old key))) }
        ensures err { OnErr result (self.new ≡ self.old) }
        ensures heavy { let rows = shard_of N self.old key in IfErr result (λ fault. (fault ≡ LruFault.Weight tt) × (only key rows ≢ []) × (shard_bound N < total_weight (others key rows) + weight)) }
    {
        let place = self.place_of(key);
        let unit = &mut self.units[place];
        let before = Totals::of(unit);
        let set: Result<Option<usize>, LruFault<()>> = unit.set_weight(key, weight);
        self.totals.recount::<T, N, S>(&self.units, place, before);
        let old = set?;
        Ok(old)
    }

    /// Adds `delta` to the weight of `key`, up to `max_weight` but never down, or inserts the key with that weight, of
    /// 1 at least, and what `admit_data` makes. The key moves to the front of its shard. A refusal comes before
    /// `admit_data` is called, and hands it back. Returns the new weight.
    pub fn increment_weight<F: FnOnce() -> T>(
        &mut self,
        key: u64,
        admit_data: F,
        delta: usize,
        max_weight: Option<usize>,
    ) -> Result<usize, LruFault<F>>
    where
        F: Drop,
        requires { F.IsAlwaysCallable admit_data }
        ensures raised { let rows = shard_of N self.old key in only key rows ≢ [] → IfOk result (λ w. w ≡ raised (total_weight (only key rows)) delta max_weight) }
        ensures moved { let rows = shard_of N self.old key in only key rows ≢ [] → IfOk result (λ w. self.new ≡ with_shard N self.old key (promoted key (reweighed key w rows))) }
        ensures new { only key (shard_of N self.old key) ≡ [] → IfOk result (λ w. w ≡ max 1 (capped max_weight delta)) }
        ensures admitted { let rows = shard_of N self.old key in only key rows ≡ [] → IfOk result (λ w. (d : T) × F.post admit_data d × (self.new ≡ with_shard N self.old key (a_row key d w ∷ rows))) }
        ensures err { OnErr result (self.new ≡ self.old) }
        ensures memory { let rows = shard_of N self.old key in (back : F) → result ≡ Err (LruFault.Memory back) → (back ≡ admit_data) × (only key rows ≡ []) × Fits (shard_bound N) (incremented key delta max_weight rows) rows }
        ensures heavy { let rows = shard_of N self.old key in (f : F) → result ≡ Err (LruFault.Weight f) → (f ≡ admit_data) × IsHeavy (shard_bound N) key (incremented key delta max_weight rows) rows }
        ensures long { (back : F) → result ≡ Err (LruFault.Length back) → (back ≡ admit_data) × (only key (shard_of N self.old key) ≡ []) × IsLong (shard_bound N) (shard_of N self.old key) }
    {
        let place = self.place_of(key);
        let unit = &mut self.units[place];
        let before = Totals::of(unit);
        let added: Result<(usize, usize, bool), LruFault<F>> = unit.increment_weight(
            key, admit_data, delta, max_weight,
        );
        self.totals.recount::<T, N, S>(&self.units, place, before);
        let now = added?;
        Ok(now.1)
    }

    /// Lets `update` change the data of `key` and return the key's next weight, or inserts the key with the data and the
    /// weight that `admit_data` makes; the weight is 1 at least. The key moves to the front of its shard. Returns the old
    /// weight, if the key was there. An update whose weight is refused leaves the old weight and the place, and the data
    /// as `update` left it; a refused insertion hands the data back.
    pub fn update_or_admit<U: FnOnce(&mut T, usize) -> usize, A: FnOnce() -> (T, usize)>(
        &mut self,
        key: u64,
        update: U,
        admit_data: A,
    ) -> Result<Option<usize>, LruFault<Option<T>>>
    where
        U: Drop,
        A: Drop,
        requires update { U.IsAlwaysCallable update }
        requires admit { A.IsAlwaysCallable admit_data }
        ensures elsewhere { self.new ≡ with_shard N self.old key (shard_of N self.new key) }
        ensures updated { let rows = shard_of N self.old key in only key rows ≢ [] → IfOk result (λ p. WasUpdated U.FnOnce update key rows p (shard_of N self.new key)) }
        ensures update_refused { let rows = shard_of N self.old key in only key rows ≢ [] → IfErr result (λ e. IsUpdateRefused U.FnOnce update key rows (shard_bound N) e (shard_of N self.new key)) }
        ensures new { only key (shard_of N self.old key) ≡ [] → IfOk result (λ p. p ≡ None) }
        ensures added { let old = shard_of N self.old key in only key old ≡ [] → OnOk result ((d : T) × (w : ℕ) × A.post admit_data (d, w) × (shard_of N self.new key ≡ a_row key d (max 1 w) ∷ old)) }
        ensures same { only key (shard_of N self.old key) ≡ [] → OnErr result (self.new ≡ self.old) }
        ensures refused { let rows = shard_of N self.old key in only key rows ≡ [] → IfErr result (λ fault. (d : T) × (w : ℕ) × A.post admit_data (d, w) × IsRefused d w rows (shard_bound N) fault) }
    {
        let place = self.place_of(key);
        let unit = &mut self.units[place];
        let before = Totals::of(unit);
        let added: Result<(Option<usize>, usize), LruFault<Option<T>>> = unit.update_or_admit(
            key, update, admit_data,
        );
        self.totals.recount::<T, N, S>(&self.units, place, before);
        let now = match added {
            Ok(now) => now,
            Err(fault) => return Err(fault),
        };
        Ok(now.0)
    }

    /// Removes the row of `key`, and returns its data and weight.
    pub fn remove(&mut self, key: u64) -> Option<(T, usize)>
        ensures value { result ≡ option_map (λ r. (r.data, r.weight)) (row_of key (shard_of N self.old key)) }
        ensures after { self.new ≡ with_shard N self.old key (others key (shard_of N self.old key)) }
    {
        let place = self.place_of(key);
        let unit = &mut self.units[place];
        let before = Totals::of(unit);
        let gone = unit.remove(key);
        self.totals.recount::<T, N, S>(&self.units, place, before);
        gone
    }
}
