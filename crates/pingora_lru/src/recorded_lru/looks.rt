//! Looks at rows and records, which change nothing and are not kept.

ghost use Rattle.std.specs.Prelude.{◌≡◌, ◌<◌, [], List, length, is_some, IfOk, MatchOption};
ghost use Rattle.std.specs.Fn.{FnOnceReturnsAt};
ghost use Rattle.std.specs.List.{FoldsTo};
ghost use Rattle.lru_core.specs.Rows.{row_of, pairs_of, total_weight};
ghost use Rattle.lru_core.specs.Updates.{Visits};
ghost use Rattle.lru_core.specs.declared.rows.Row.{Row};
ghost use Rattle.lru_actors.specs.Looks.{IsLastCopy};
ghost use Rattle.pingora_lru.specs.Calls.{weight_of};
ghost use Rattle.pingora_lru.specs.declared.call.Kept.{Kept};
ghost use Rattle.pingora_lru.specs.Records.{IsLed, IsRecord, bare};

use super::RecordedLru;
use crate::call::Kept;
use crate::looks::visit;
use std::alloc::AllocError;
use std::hash::BuildHasher;
use std::sync::Wait;

impl<T: Drop, const N: usize, S: BuildHasher> RecordedLru<T, N, S> {
    /// Returns whether `key` is there. The order stays.
    pub fn peek<R: Wait>(&self, rt: &R, key: u64) -> bool
        ensures { (rows : List (Row T)) × IsLed rows × (result ≡ is_some (row_of key rows)) }
    {
        self.shards[self.shard_of(key)]
            .lock(rt)
            .unit()
            .peek(key)
            .is_some()
    }

    /// Returns the weight of `key`. The order stays.
    pub fn peek_weight<R: Wait>(&self, rt: &R, key: u64) -> Option<usize>
        ensures { (rows : List (Row T)) × IsLed rows × (result ≡ weight_of key rows) }
    {
        self.shards[self.shard_of(key)]
            .lock(rt)
            .unit()
            .peek_weight(key)
    }

    /// Returns the number of rows of a shard.
    pub fn shard_len<R: Wait>(&self, rt: &R, shard: usize) -> usize
        requires { shard < N }
        ensures { (rows : List (Row T)) × IsLed rows × (result ≡ length rows) }
    {
        self.shards[shard].lock(rt).unit().len()
    }

    /// Returns the weight of the rows of a shard.
    pub fn shard_weight<R: Wait>(&self, rt: &R, shard: usize) -> usize
        requires { shard < N }
        ensures { (rows : List (Row T)) × IsLed rows × (result ≡ total_weight rows) }
    {
        self.shards[shard].lock(rt).unit().weight()
    }

    /// Calls `f` with the data and the weight of each row of a shard, most recent first. It runs under the shard's lock, and
    /// must not ask for it.
    pub fn iter_for_each<R: Wait, F: FnMut((&T, usize))>(&self, rt: &R, shard: usize, mut f: F)
        requires within { shard < N }
        requires callable { F.IsAlwaysCallable f }
        ensures { (rows : List (Row T)) × (last : F) × IsLed rows × FoldsTo (Visits F.FnMut) f (pairs_of rows) last }
    {
        let unit = self.shards[shard].lock(rt);
        visit(unit.unit(), &mut f);
    }

    /// Returns what `look` returns of a shard's record, the first call first. It runs under the shard's lock, and must not
    /// ask for it.
    pub fn look<X, R: Wait, F: FnOnce(&[Kept]) -> X>(&self, rt: &R, shard: usize, look: F) -> X
        requires within { shard < N }
        requires callable { F.IsAlwaysCallable look }
        ensures { (rows : List (Row T)) × (kept : List Kept) × IsRecord [] kept (bare rows) × FnOnceReturnsAt F.FnOnce look kept result }
    {
        let unit = self.shards[shard].lock(rt);
        look(unit.kept())
    }
}

impl<T: Clone, const N: usize, S: BuildHasher> RecordedLru<T, N, S> {
    /// Returns a clone of the data of the last row of a shard, and its weight. The order stays.
    pub fn peek_lru<R: Wait>(&self, rt: &R, shard: usize) -> Result<Option<(T, usize)>, AllocError>
        requires { shard < N }
        ensures { IfOk result (λ last. (rows : List (Row T)) × IsLed rows × MatchOption last (rows ≡ []) (IsLastCopy T.is_clone rows)) }
    {
        let unit = self.shards[shard].lock(rt);
        match unit.unit().peek_lru() {
            Some((item, weight)) => Ok(Some((item.clone()?, weight))),
            None => Ok(None),
        }
    }
}
