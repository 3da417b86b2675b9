//! Insertion, weights, eviction and removal in one shard.

ghost use Rattle.std.specs.Prelude.{◌≡◌, ◌≢◌, ◌↔◌, ℕ, ◌+◌, ◌<◌, ◌≤◌, ◌++◌, ◌∷◌, [], length, max, true, false, IsTrue, IfSome, IfNone, IfOk, IfErr, OnOk, OnErr};
ghost use Rattle.std.specs.Option.{option_map};
ghost use Rattle.lru_core.specs.Rows.{only, others, promoted, admitted, row_of, reweighed, total_weight, capped, raised, incremented, a_row, with_one, IsHeavy, IsLong, Fits};
ghost use Rattle.lru_core.specs.Updates.{IsUpdated, IsUpdateRefused, IsRefused};
ghost use Rattle.lru_core.specs.Orders.{with_last};

use super::{LruFault, LruUnit, lowered, raised, weight_at};
use crate::rows::{End, Row, Rows};
use std::alloc::{AllocError, Global};
use std::hash::{BuildHasher, BuildHasherDefault, FoldHasher};

impl<T: Drop> LruUnit<T, BuildHasherDefault<FoldHasher>> {
    /// Returns a shard without rows, under hashes with a fixed start. `capacity` is a hint: room for that many rows is
    /// reserved. Neither the number of rows nor their weight will pass `bound`.
    pub fn with_capacity(alloc: Global, capacity: usize, bound: usize) -> Result<Self, AllocError>
        ensures { IfOk result (λ u. (u.rows ≡ []) × (u.bound ≡ bound)) }
    {
        LruUnit::with_hasher(alloc, BuildHasherDefault::new(), capacity, bound)
    }
}

impl<T: Drop, S: BuildHasher + Copy> LruUnit<T, S> {
    /// The same, with hashes of that start.
    pub fn with_hasher(
        alloc: Global,
        hasher: S,
        capacity: usize,
        bound: usize,
    ) -> Result<Self, AllocError>
        ensures { IfOk result (λ u. (u.rows ≡ []) × (u.bound ≡ bound)) }
    {
        Ok(LruUnit {
            rows: Rows::with_hasher(alloc, hasher, capacity)?,
            used: 0,
            bound,
        })
    }
}

impl<T: Drop, S: BuildHasher> LruUnit<T, S> {
    /// Reserves room for `additional` more rows. It is a hint.
    pub fn reserve(&mut self, additional: usize) -> Result<(), AllocError>
        ensures same { self.new ≡ self.old }
        ensures refused { OnErr result (0 < additional) }
    {
        self.rows.reserve(additional)
    }

    /// Inserts `item` under `key` at the front, with a weight of 1 at least, in place of what the key had. Returns the
    /// weight that the key had, or 0.
    pub fn admit(&mut self, key: u64, item: T, weight: usize) -> Result<usize, LruFault<T>>
        ensures before { IfOk result (λ old. old ≡ total_weight (only key self.old.rows)) }
        ensures after { OnOk result (self.new ≡ record self.old { rows = admitted key item weight self.old.rows }) }
        ensures err { OnErr result (self.new ≡ self.old) }
        ensures memory { (back : T) → result ≡ Err (LruFault.Memory back) → (back ≡ item) × (only key self.old.rows ≡ []) × Fits self.old.bound (max 1 weight) self.old.rows }
        ensures heavy { (back : T) → result ≡ Err (LruFault.Weight back) → (back ≡ item) × (self.old.bound < total_weight (others key self.old.rows) + max 1 weight) }
        ensures long { (back : T) → result ≡ Err (LruFault.Length back) → (back ≡ item) × (only key self.old.rows ≡ []) × IsLong self.old.bound self.old.rows }
    {
        let weight = weight.max(1);
        let Some(old) = weight_at(&self.rows, key) else {
            self.insert(key, item, weight, End::Front)?;
            return Ok(0);
        };
        if weight > self.bound - (self.used - old) {
            return Err(LruFault::Weight(item));
        }
        let _gone = self.rows.replace_first(Row {
            key,
            data: item,
            weight,
        });
        self.used = self.used - old + weight;
        Ok(old)
    }

    /// Inserts `item` under a new key at the back, with its weight as it is, and returns `true`. Nothing changes if the
    /// key is there.
    pub fn insert_tail(&mut self, key: u64, item: T, weight: usize) -> Result<bool, LruFault<T>>
        ensures added { IfOk result (λ b. IsTrue b ↔ (only key self.old.rows ≡ [])) }
        ensures after { result ≡ Ok true → self.new ≡ record self.old { rows = self.old.rows ++ a_row key item weight ∷ [] } }
        ensures same { result ≢ Ok true → self.new ≡ self.old }
        ensures last { OnOk result (self.new.rows ≡ with_last self.old.rows (a_row key item weight)) }
        ensures memory { (back : T) → result ≡ Err (LruFault.Memory back) → (back ≡ item) × (only key self.old.rows ≡ []) × Fits self.old.bound weight self.old.rows }
        ensures heavy { (back : T) → result ≡ Err (LruFault.Weight back) → (back ≡ item) × (only key self.old.rows ≡ []) × (self.old.bound < total_weight self.old.rows + weight) }
        ensures long { (back : T) → result ≡ Err (LruFault.Length back) → (back ≡ item) × (only key self.old.rows ≡ []) × IsLong self.old.bound self.old.rows }
        ensures bound { self.new.bound ≡ self.old.bound }
    {
        if weight_at(&self.rows, key).is_some() {
            return Ok(false);
        }
        self.insert(key, item, weight, End::Back)?;
        Ok(true)
    }

    /// Sets the weight of `key`, as it is, and returns the old one, if the key is there. The order stays.
    pub fn set_weight(&mut self, key: u64, weight: usize) -> Result<Option<usize>, LruFault<()>>
        ensures before { IfOk result (λ old. old ≡ option_map (λ r. r.weight) (row_of key self.old.rows)) }
        ensures after { OnOk result (self.new ≡ record self.old { rows = reweighed key weight self.old.rows }) }
        ensures err { OnErr result (self.new ≡ self.old) }
        ensures heavy { IfErr result (λ fault. (fault ≡ LruFault.Weight tt) × (only key self.old.rows ≢ []) × (self.old.bound < total_weight (others key self.old.rows) + weight)) }
    {
        let Some(old) = weight_at(&self.rows, key) else {
            return Ok(None);
        };
        if weight > self.bound - (self.used - old) {
            return Err(LruFault::Weight(()));
        }
        let before = self.rows.reweigh(key, weight);
        self.used = self.used - old + weight;
        Ok(Some(before))
    }

    /// Adds `delta` to the weight of `key`, up to `max_weight` but never down, or inserts the key with that weight, of
    /// 1 at least, and what `admit_data` makes. The key moves to the front. A refusal comes before `admit_data` is
    /// called, and hands it back. Returns the old weight, or 0, the new one, and whether the key was absent.
    pub fn increment_weight<F: FnOnce() -> T>(
        &mut self,
        key: u64,
        admit_data: F,
        delta: usize,
        max_weight: Option<usize>,
    ) -> Result<(usize, usize, bool), LruFault<F>>
    where
        F: Drop,
        requires { F.IsAlwaysCallable admit_data }
        ensures raised { only key self.old.rows ≢ [] → IfOk result (λ p. let old = total_weight (only key self.old.rows) in p ≡ (old, raised old delta max_weight, false)) }
        ensures moved { only key self.old.rows ≢ [] → IfOk result (λ p. self.new ≡ record self.old { rows = promoted key (reweighed key p.1 self.old.rows) }) }
        ensures new { only key self.old.rows ≡ [] → IfOk result (λ p. p ≡ (0, max 1 (capped max_weight delta), true)) }
        ensures admitted { only key self.old.rows ≡ [] → IfOk result (λ p. (d : T) × F.post admit_data d × (self.new ≡ record self.old { rows = a_row key d p.1 ∷ self.old.rows })) }
        ensures err { OnErr result (self.new ≡ self.old) }
        ensures memory { (back : F) → result ≡ Err (LruFault.Memory back) → (back ≡ admit_data) × (only key self.old.rows ≡ []) × Fits self.old.bound (incremented key delta max_weight self.old.rows) self.old.rows }
        ensures heavy { let rows = self.old.rows in (back : F) → result ≡ Err (LruFault.Weight back) → (back ≡ admit_data) × IsHeavy self.old.bound key (incremented key delta max_weight rows) rows }
        ensures long { (back : F) → result ≡ Err (LruFault.Length back) → (back ≡ admit_data) × (only key self.old.rows ≡ []) × IsLong self.old.bound self.old.rows }
        ensures bound { self.new.bound ≡ self.old.bound }
    {
        match weight_at(&self.rows, key) {
            Some(old) => {
                let Some(weight) = raised(old, delta, max_weight) else {
                    return Err(LruFault::Weight(admit_data));
                };
                if weight > self.bound - (self.used - old) {
                    return Err(LruFault::Weight(admit_data));
                }
                self.rows.reweigh(key, weight);
                self.rows.promote(key);
                self.used = self.used - old + weight;
                Ok((old, weight, false))
            }
            None => {
                let weight = lowered(delta, max_weight).max(1);
                let admit_data = self.with_room(weight, admit_data)?;
                self.rows.push_with(key, weight, admit_data)?;
                self.used += weight;
                Ok((0, weight, true))
            }
        }
    }

    /// Lets `update` change the data of `key` and return the key's next weight, or inserts the key with the data and the
    /// weight that `admit_data` makes; the weight is 1 at least. The key moves to the front. Returns the old weight, if
    /// the key was there, and the new one. An update whose weight is refused leaves the old weight and the place, and
    /// the data as `update` left it; a refused insertion hands the data back.
    pub fn update_or_admit<U: FnOnce(&mut T, usize) -> usize, A: FnOnce() -> (T, usize)>(
        &mut self,
        key: u64,
        update: U,
        admit_data: A,
    ) -> Result<(Option<usize>, usize), LruFault<Option<T>>>
    where
        U: Drop,
        A: Drop,
        requires update { U.IsAlwaysCallable update }
        requires admit { A.IsAlwaysCallable admit_data }
        ensures updated { only key self.old.rows ≢ [] → IfOk result (λ p. (old : ℕ) × (p.0 ≡ Some old) × IsUpdated U.FnOnce update key self.old.rows old p.1 self.new.rows) }
        ensures update_refused { only key self.old.rows ≢ [] → IfErr result (λ fault. IsUpdateRefused U.FnOnce update key self.old.rows self.old.bound fault self.new.rows) }
        ensures new { only key self.old.rows ≡ [] → IfOk result (λ p. p.0 ≡ None) }
        ensures admitted { only key self.old.rows ≡ [] → IfOk result (λ p. (d : T) × (w : ℕ) × A.post admit_data (d, w) × (p.1 ≡ max 1 w) × (self.new.rows ≡ a_row key d (max 1 w) ∷ self.old.rows)) }
        ensures same { only key self.old.rows ≡ [] → OnErr result (self.new ≡ self.old) }
        ensures refused { only key self.old.rows ≡ [] → IfErr result (λ fault. (d : T) × (w : ℕ) × A.post admit_data (d, w) × IsRefused d w self.old.rows self.old.bound fault) }
        ensures bound { self.new.bound ≡ self.old.bound }
    {
        match weight_at(&self.rows, key) {
            Some(old) => {
                let weight = self.rows.update(key, update).max(1);
                if weight > self.bound - (self.used - old) {
                    return Err(LruFault::Weight(None));
                }
                self.rows.reweigh(key, weight);
                self.rows.promote(key);
                self.used = self.used - old + weight;
                Ok((Some(old), weight))
            }
            None => {
                let (item, weight) = admit_data();
                match self.admit(key, item, weight) {
                    Ok(_) => Ok((None, weight.max(1))),
                    Err(LruFault::Memory(back)) => Err(LruFault::Memory(Some(back))),
                    Err(LruFault::Weight(back)) => Err(LruFault::Weight(Some(back))),
                    Err(LruFault::Length(back)) => Err(LruFault::Length(Some(back))),
                }
            }
        }
    }

    /// Removes the last row, and returns its data and weight.
    pub fn evict(&mut self) -> Option<(T, usize)>
        ensures none { IfNone result ((self.old.rows ≡ []) × (self.new ≡ self.old)) }
        ensures some { IfSome result (λ p. (k : ℕ) × (self.old.rows ≡ self.new.rows ++ a_row k p.0 p.1 ∷ [])) }
        ensures bound { self.new.bound ≡ self.old.bound }
    {
        let Row {
            key: _,
            data,
            weight,
        } = self.rows.pop_last()?;
        self.used -= weight;
        Some((data, weight))
    }

    /// Removes the row of `key`, and returns its data and weight.
    pub fn remove(&mut self, key: u64) -> Option<(T, usize)>
        ensures value { result ≡ option_map (λ r. (r.data, r.weight)) (row_of key self.old.rows) }
        ensures after { self.new ≡ record self.old { rows = others key self.old.rows } }
    {
        let Row {
            key: _,
            data: item,
            weight,
        } = self.rows.remove(key)?;
        self.used -= weight;
        Some((item, weight))
    }

    // Inserts a row of a new key at that end.
    fn insert(&mut self, key: u64, item: T, weight: usize, end: End) -> Result<(), LruFault<T>>
        requires { only key self.old.rows ≡ [] }
        ensures ok { OnOk result (self.new ≡ record self.old { rows = with_one end (a_row key item weight) self.old.rows }) }
        ensures err { OnErr result (self.new ≡ self.old) }
        ensures memory { (back : T) → result ≡ Err (LruFault.Memory back) → (back ≡ item) × Fits self.old.bound weight self.old.rows }
        ensures heavy { (back : T) → result ≡ Err (LruFault.Weight back) → (back ≡ item) × (self.old.bound < total_weight self.old.rows + weight) }
        ensures long { (back : T) → result ≡ Err (LruFault.Length back) → (back ≡ item) × IsLong self.old.bound self.old.rows }
    {
        let data = self.with_room(weight, item)?;
        self.rows.push(Row { key, data, weight }, end)?;
        self.used += weight;
        Ok(())
    }

    // Returns `item` if one row more, of that weight, is within the bound.
    fn with_room<D>(&self, weight: usize, item: D) -> Result<D, LruFault<D>>
        ensures room { IfOk result (λ same. (same ≡ item) × (length self.now.rows < self.now.bound) × (total_weight self.now.rows + weight ≤ self.now.bound)) }
        ensures memory { (back : D) → result ≢ Err (LruFault.Memory back) }
        ensures heavy { (back : D) → result ≡ Err (LruFault.Weight back) → (back ≡ item) × (self.now.bound < total_weight self.now.rows + weight) }
        ensures long { (back : D) → result ≡ Err (LruFault.Length back) → (back ≡ item) × IsLong self.now.bound self.now.rows }
    {
        if self.rows.len() >= self.bound {
            return Err(LruFault::Length(item));
        }
        if weight > self.bound - self.used {
            return Err(LruFault::Weight(item));
        }
        Ok(item)
    }
}
