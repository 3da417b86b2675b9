//! Looks at rows, which change no order.

ghost use Rattle.std.specs.Prelude.{◌≡◌, ◌≢◌, ◌↔◌, ℕ, ◌%◌, ◌<◌, ◌++◌, ◌∷◌, List, [], take, IsTrue, is_some, MatchOption};
ghost use Rattle.std.specs.Option.{option_map};
ghost use Rattle.std.specs.List.{FoldsTo};
ghost use Rattle.lru_core.specs.Rows.{only, row_of, a_row, pairs_of};
ghost use Rattle.lru_core.specs.Cores.{rows_at, shard_of};
ghost use Rattle.lru_core.specs.Updates.{Visits};
ghost use Rattle.lru_core.specs.declared.rows.Row.{Row};

use super::LruCore;
use crate::lru_unit::{LruUnit, LruUnitIter};
use std::hash::BuildHasher;

impl<T, const N: usize, S: BuildHasher> LruCore<T, N, S> {
    /// Returns whether `key` is there. The order stays.
    pub fn peek(&self, key: u64) -> bool
        ensures { result ≡ is_some (row_of key (shard_of N self.now key)) }
    {
        self.units[self.place_of(key)].peek(key).is_some()
    }

    /// Returns the weight of `key`. The order stays.
    pub fn peek_weight(&self, key: u64) -> Option<usize>
        ensures { result ≡ option_map (λ r. r.weight) (row_of key (shard_of N self.now key)) }
    {
        self.units[self.place_of(key)].peek_weight(key)
    }

    /// Returns the data and the weight of the last row of a shard. The order stays.
    pub fn peek_lru(&self, shard: usize) -> Option<(&T, usize)>
        requires { shard < N }
        ensures { MatchOption result (rows_at self.now.shards shard ≡ []) (λ p. (front : List (Row T)) × (k : ℕ) × (rows_at self.now.shards shard ≡ front ++ a_row k p.0.now p.1 ∷ [])) }
    {
        self.units[shard].peek_lru()
    }

    /// Calls `f` with the data and the weight of each row of a shard, most recent first.
    pub fn iter_for_each<F: FnMut((&T, usize))>(&self, shard: usize, mut f: F)
        requires within { shard < N }
        requires callable { F.IsAlwaysCallable f }
        ensures { (last : F) × FoldsTo (Visits F.FnMut) f (pairs_of (rows_at self.now.shards shard)) last }
    {
        visit(&self.units[shard], &mut f);
    }

    /// Returns an iterator over the data and the weights of a shard, most recent first, that goes from both ends. The
    /// order stays.
    pub fn iter(&self, shard: usize) -> LruUnitIter<'_, T>
        requires { shard < N }
        ensures { result ≡ pairs_of (rows_at self.now.shards shard) }
    {
        self.units[shard].iter()
    }

    // Whether the row of `key` is there and among the first `top` of its shard.
    pub(super) fn is_near_head(&self, key: u64, top: usize) -> bool
        ensures { IsTrue result ↔ (only key (take top (shard_of N self.now key)) ≢ []) }
    {
        self.units[self.place_of(key)].is_near_head(key, top)
    }
}

// Calls `f` with the data and the weight of each row, most recent first.
fn visit<T, S: BuildHasher, F: FnMut((&T, usize))>(unit: &LruUnit<T, S>, f: &mut F)
    requires { F.IsAlwaysCallable f.old }
    ensures called { FoldsTo (Visits F.FnMut) f.old (pairs_of unit.now.rows) f.new }
    ensures again { F.IsAlwaysCallable f.new }
{
    let mut items = unit.iter();
    'items: while let Some(item) = items.next() {
        f(item);
    }
}
