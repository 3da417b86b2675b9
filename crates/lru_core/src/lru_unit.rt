//! One shard: rows of keys, data and weights, most recent first.

ghost use Rattle.std.specs.Prelude.{◌≡◌, ◌≢◌, ◌↔◌, ℕ, ◌+◌, ◌^◌, ◌<◌, ◌≤◌, ◌++◌, ◌∷◌, List, [], length, take, IsTrue, is_some, IfSome, IfNone, MatchOption, option_copied};
ghost use Rattle.std.specs.Option.{option_map, SomeIff};
ghost use Rattle.lru_core.specs.Rows.{only, others, promoted, row_of, total_weight, capped, raised, a_row, pairs_of, Weighs};
ghost use Rattle.lru_core.specs.declared.rows.Row.{Row};

pub use fault::LruFault;
pub use iter::LruUnitIter;

mod edits;
mod fault;
mod iter;

use crate::rows::Rows;
use std::hash::{BuildHasher, BuildHasherDefault, FoldHasher};
use std::marker::Model;

/// A shard of rows of distinct keys, most recent first.
///
/// Rows are found by the hashes of their keys. `with_capacity` hashes with a fixed start, for keys that the caller chooses
/// itself; `with_hasher` takes a start of the caller's, for keys that attackers choose, who then can't slow look-ups down.
#[derive(Drop)]
pub struct LruUnit<T, S: BuildHasher = BuildHasherDefault<FoldHasher>> {
    rows: Rows<T, S>,
    // The sum of the rows' weights.
    used: usize,
    // What neither the number of rows nor their weight may pass.
    bound: usize,
}

impl<T, S: BuildHasher> Model for LruUnit<T, S> {
    ghost use Rattle.lru_core.specs.Rows.{Shard};

    ghost Value = { Shard T };

    ghost use Rattle.std.specs.Prelude.{◌≡◌, ◌≤◌, length};
    ghost use Rattle.lru_core.specs.Rows.{total_weight};

    ghost view = { λ u. record { rows = u.rows; bound = u.bound } };

    ghost invariant = { λ u. (u.used ≡ total_weight u.rows) × (u.used ≤ u.bound) × (length u.rows ≤ u.bound) };
}

impl<T, S: BuildHasher> LruUnit<T, S> {
    /// Returns the number of rows.
    pub fn len(&self) -> usize
        ensures value { result ≡ length self.now.rows }
        ensures bound { result ≤ self.now.bound }
    {
        self.rows.len()
    }

    /// Returns the sum of the rows' weights.
    pub fn weight(&self) -> usize
        ensures value { result ≡ total_weight self.now.rows }
        ensures bound { result ≤ self.now.bound }
    {
        self.used
    }

    /// Returns the data of `key`. The order stays.
    pub fn peek(&self, key: u64) -> Option<&T>
        ensures { option_copied result ≡ option_map (λ r. r.data) (row_of key self.now.rows) }
    {
        Some(&self.rows.get(key)?.data)
    }

    /// Returns the weight of `key`. The order stays.
    pub fn peek_weight(&self, key: u64) -> Option<usize>
        ensures { result ≡ option_map (λ r. r.weight) (row_of key self.now.rows) }
    {
        Some(self.rows.get(key)?.weight)
    }

    /// Returns the data and the weight of the last row. The order stays.
    pub fn peek_lru(&self) -> Option<(&T, usize)>
        ensures { MatchOption result (self.now.rows ≡ []) (λ p. (front : List (Row T)) × (k : ℕ) × (self.now.rows ≡ front ++ a_row k p.0.now p.1 ∷ [])) }
    {
        let row = self.rows.last()?;
        Some((&row.data, row.weight))
    }

    /// Returns an iterator over the data and the weights, most recent first, that goes from both ends. The order stays.
    pub fn iter(&self) -> LruUnitIter<'_, T>
        ensures { result ≡ pairs_of self.now.rows }
    {
        LruUnitIter {
            slots: self.rows.iter(),
        }
    }

    /// Moves the row of `key` to the front, and returns whether there is one.
    pub fn access(&mut self, key: u64) -> bool
        ensures found { result ≡ is_some (row_of key self.old.rows) }
        ensures after { self.new ≡ record self.old { rows = promoted key self.old.rows } }
    {
        self.rows.promote(key)
    }

    // Whether the row of `key` is there and among the first `limit`. It looks at no others.
    pub(crate) fn is_near_head(&self, key: u64, limit: usize) -> bool
        ensures { IsTrue result ↔ (only key (take limit self.now.rows) ≢ []) }
    {
        self.rows.is_near_head(key, limit)
    }

    /// Returns whether the row of `key` is there and not among the first `limit`. It looks at no others.
    pub fn need_promote(&self, key: u64, limit: usize) -> bool
        ensures { IsTrue result ↔ ((only key self.now.rows ≢ []) × (only key (take limit self.now.rows) ≡ [])) }
    {
        self.rows.get(key).is_some() && !self.rows.is_near_head(key, limit)
    }
}

// A weight with a cap on it.
fn lowered(weight: usize, max_weight: Option<usize>) -> usize
    ensures { result ≡ capped max_weight weight }
{
    match max_weight {
        Some(most) => weight.min(most),
        None => weight,
    }
}

// A weight with `delta` added, up to `max_weight` but never down. None if that cannot be counted.
fn raised(old: usize, delta: usize, max_weight: Option<usize>) -> Option<usize>
    ensures { SomeIff result (raised old delta max_weight < 2 ^ 64) (raised old delta max_weight) }
{
    match max_weight {
        Some(most) => Some(old.saturating_add(delta).min(most).max(old)),
        None => old.checked_add(delta),
    }
}

// The weight of the row of `key`.
fn weight_at<T, S: BuildHasher>(rows: &Rows<T, S>, key: u64) -> Option<usize>
    ensures some { IfSome result (λ w. Weighs key rows.now w) }
    ensures none { IfNone result ((only key rows.now ≡ []) × (others key rows.now ≡ rows.now)) }
{
    let row = rows.get(key)?;
    Some(row.weight)
}
