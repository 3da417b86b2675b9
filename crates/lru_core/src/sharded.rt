//! Shards of weighted rows with a limit on their weight: key k is in shard k modulo N.

ghost use Rattle.std.specs.Prelude.{◌≡◌, ◌<◌, ◌≤◌, ◌%◌, ◌^◌, [], length, replicate, IfOk, OnErr};
ghost use Rattle.lru_core.specs.Rows.{total_weight};
ghost use Rattle.std.specs.List.{All};
ghost use Rattle.lru_core.specs.Cores.{rows_at, core_weight, core_len, shard_bound, IsWithin};

mod edits;
mod eviction;
mod looks;
mod totals;

use crate::lru_unit::LruUnit;
use std::alloc::{AllocError, Global};
use std::hash::{BuildHasher, BuildHasherDefault, FoldHasher};
use std::marker::Model;
use totals::Totals;

/// N shards of rows of distinct keys, each most recent first.
///
/// Rows are found by the hashes of their keys. The default hasher starts at a fixed place, for keys that the caller chooses
/// itself; `with_hasher` takes a start of the caller's, for keys that attackers choose, who then can't slow look-ups down.
#[derive(Drop)]
pub struct LruCore<T, const N: usize, S: BuildHasher = BuildHasherDefault<FoldHasher>> {
    units: Vec<LruUnit<T, S>>,
    totals: Totals,
    weight_limit: usize,
    len_watermark: Option<usize>,
    evicted_weight: usize,
    evicted_len: usize,
}

impl<T, const N: usize, S: BuildHasher> Model for LruCore<T, N, S> {
    ghost use Rattle.lru_core.specs.Cores.{Core};

    ghost Value = { Core T };

    ghost use Rattle.std.specs.Prelude.{map};
    ghost use Rattle.lru_core.specs.Units.{IsSummed};

    ghost view = { λ c. record { shards = map (λ u. u.rows) c.units.items; limit = c.weight_limit; watermark = c.len_watermark; evicted_weight = c.evicted_weight; evicted_len = c.evicted_len } };

    ghost invariant = { λ c. IsSummed N c.units.items c.totals };
}

impl<T, const N: usize, S: BuildHasher> LruCore<T, N, S> {
    /// Returns the weight of all rows.
    pub fn weight(&self) -> usize
        ensures { result ≡ core_weight self.now.shards }
    {
        self.totals.weight
    }

    /// Returns the number of all rows.
    pub fn len(&self) -> usize
        ensures { result ≡ core_len self.now.shards }
    {
        self.totals.len
    }

    /// Returns the weight that the rows may have together.
    pub fn weight_limit(&self) -> usize
        ensures { result ≡ self.now.limit }
    {
        self.weight_limit
    }

    /// Sets the weight that the rows may have together. It evicts nothing.
    pub fn set_weight_limit(&mut self, weight_limit: usize)
        ensures { self.new ≡ record self.old { limit = weight_limit } }
    {
        self.weight_limit = weight_limit;
    }

    /// Returns the weight of all evicted rows, which wraps at 2^64.
    pub fn evicted_weight(&self) -> usize
        ensures { result ≡ self.now.evicted_weight }
    {
        self.evicted_weight
    }

    /// Returns the number of all evicted rows, which wraps at 2^64.
    pub fn evicted_len(&self) -> usize
        ensures { result ≡ self.now.evicted_len }
    {
        self.evicted_len
    }

    /// Returns the number of shards.
    pub fn shards(&self) -> usize
        ensures value { result ≡ N }
        ensures lists { length self.now.shards ≡ N }
        ensures some { 0 < N }
    {
        self.units.len()
    }

    /// Returns the number of rows of a shard.
    pub fn shard_len(&self, shard: usize) -> usize
        requires { shard < N }
        ensures { result ≡ length (rows_at self.now.shards shard) }
    {
        self.units[shard].len()
    }

    /// Returns the weight of the rows of a shard.
    pub fn shard_weight(&self, shard: usize) -> usize
        requires { shard < N }
        ensures value { result ≡ total_weight (rows_at self.now.shards shard) }
        ensures bound { result ≤ shard_bound N }
    {
        self.units[shard].weight()
    }

    /// A law: each shard is within its bound, and all weights can be counted. It does nothing.
    pub fn shards_are_within(&self)
        ensures within { All (IsWithin N) self.now.shards }
        ensures counted { core_weight self.now.shards < 2 ^ 64 }
    {
        let _ = &self.units;
        let _weight = self.totals.weight;
    }

    // The shard of a key or a draw.
    fn place_of(&self, key: u64) -> usize
        ensures value { result ≡ key % N }
        ensures within { result < N }
        ensures lists { length self.now.shards ≡ N }
    {
        key as usize % self.units.len()
    }
}

impl<T: Drop, const N: usize> LruCore<T, N, BuildHasherDefault<FoldHasher>> {
    /// Returns N shards without rows, under hashes with a fixed start. `capacity` is a hint: room for that many rows is reserved.
    pub fn with_capacity(
        alloc: Global,
        weight_limit: usize,
        capacity: usize,
    ) -> Result<Self, AllocError>
        requires { 0 < N }
        ensures { IfOk result (λ c. c ≡ record { shards = replicate N []; limit = weight_limit; watermark = None; evicted_weight = 0; evicted_len = 0 }) }
    {
        LruCore::with_capacity_and_watermark(alloc, weight_limit, capacity, None)
    }

    /// The same, with a number of rows past which an eviction also takes rows.
    pub fn with_capacity_and_watermark(
        alloc: Global,
        weight_limit: usize,
        capacity: usize,
        len_watermark: Option<usize>,
    ) -> Result<Self, AllocError>
        requires { 0 < N }
        ensures { IfOk result (λ c. c ≡ record { shards = replicate N []; limit = weight_limit; watermark = len_watermark; evicted_weight = 0; evicted_len = 0 }) }
    {
        LruCore::with_hasher(
            alloc,
            BuildHasherDefault::new(),
            weight_limit,
            capacity,
            len_watermark,
        )
    }
}

impl<T: Drop, const N: usize, S: BuildHasher + Copy> LruCore<T, N, S> {
    /// The same, with hashes of that start.
    pub fn with_hasher(
        alloc: Global,
        hasher: S,
        weight_limit: usize,
        capacity: usize,
        len_watermark: Option<usize>,
    ) -> Result<Self, AllocError>
        requires { 0 < N }
        ensures { IfOk result (λ c. c ≡ record { shards = replicate N []; limit = weight_limit; watermark = len_watermark; evicted_weight = 0; evicted_len = 0 }) }
    {
        let mut units = Vec::with_capacity(alloc, N)?;
        'units: for _ in 0..N {
            let unit = LruUnit::with_hasher(alloc, hasher, capacity / N, usize::MAX / N)?;
            units.push_reserved(unit);
        }
        Ok(LruCore {
            units,
            totals: Totals { len: 0, weight: 0 },
            weight_limit,
            len_watermark,
            evicted_weight: 0,
            evicted_len: 0,
        })
    }
}

impl<T: Drop, const N: usize, S: BuildHasher> LruCore<T, N, S> {
    /// Reserves room for `additional` more rows in a shard. It is a hint.
    pub fn reserve_shard(&mut self, shard: usize, additional: usize) -> Result<(), AllocError>
        requires { shard < N }
        ensures same { self.new ≡ self.old }
        ensures refused { OnErr result (0 < additional) }
    {
        self.units[shard].reserve(additional)
    }
}
