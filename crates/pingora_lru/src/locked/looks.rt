//! Looks at rows, which change no order.

ghost use Rattle.std.specs.Prelude.{◌≡◌, ◌<◌, [], List, length, is_some, IfOk, MatchOption};
ghost use Rattle.std.specs.List.{FoldsTo};
ghost use Rattle.lru_core.specs.Rows.{row_of, pairs_of, total_weight};
ghost use Rattle.lru_core.specs.Updates.{Visits};
ghost use Rattle.lru_core.specs.declared.rows.Row.{Row};
ghost use Rattle.lru_actors.specs.Looks.{IsLastCopy};
ghost use Rattle.pingora_lru.specs.Calls.{weight_of};

use super::Lru;
use crate::looks::visit;
use std::alloc::AllocError;
use std::hash::BuildHasher;
use std::sync::Wait;

impl<T, const N: usize, S: BuildHasher> Lru<T, N, S> {
    /// Returns whether `key` is there. The order stays.
    pub fn peek<R: Wait>(&self, rt: &R, key: u64) -> bool
        ensures { (rows : List (Row T)) × (result ≡ is_some (row_of key rows)) }
    {
        self.shards[self.place_of(key)].lock(rt).peek(key).is_some()
    }

    /// Returns the weight of `key`. The order stays.
    pub fn peek_weight<R: Wait>(&self, rt: &R, key: u64) -> Option<usize>
        ensures { (rows : List (Row T)) × (result ≡ weight_of key rows) }
    {
        self.shards[self.place_of(key)].lock(rt).peek_weight(key)
    }

    /// Returns the number of rows of a shard.
    pub fn shard_len<R: Wait>(&self, rt: &R, shard: usize) -> usize
        requires { shard < N }
        ensures { (rows : List (Row T)) × (result ≡ length rows) }
    {
        self.shards[shard].lock(rt).len()
    }

    /// Returns the weight of the rows of a shard.
    pub fn shard_weight<R: Wait>(&self, rt: &R, shard: usize) -> usize
        requires { shard < N }
        ensures { (rows : List (Row T)) × (result ≡ total_weight rows) }
    {
        self.shards[shard].lock(rt).weight()
    }

    /// Calls `f` with the data and the weight of each row of a shard, most recent first. It runs under the shard's lock, and
    /// must not ask for it.
    pub fn iter_for_each<R: Wait, F: FnMut((&T, usize))>(&self, rt: &R, shard: usize, mut f: F)
        requires within { shard < N }
        requires callable { F.IsAlwaysCallable f }
        ensures { (rows : List (Row T)) × (last : F) × FoldsTo (Visits F.FnMut) f (pairs_of rows) last }
    {
        let unit = self.shards[shard].lock(rt);
        visit(&*unit, &mut f);
    }
}

impl<T: Clone, const N: usize, S: BuildHasher> Lru<T, N, S> {
    /// Returns a clone of the data of the last row of a shard, and its weight. The order stays.
    pub fn peek_lru<R: Wait>(&self, rt: &R, shard: usize) -> Result<Option<(T, usize)>, AllocError>
        requires { shard < N }
        ensures { IfOk result (λ last. (rows : List (Row T)) × MatchOption last (rows ≡ []) (IsLastCopy T.is_clone rows)) }
    {
        let unit = self.shards[shard].lock(rt);
        match unit.peek_lru() {
            Some((item, weight)) => Ok(Some((item.clone()?, weight))),
            None => Ok(None),
        }
    }
}
