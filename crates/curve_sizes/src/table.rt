//! Counts at named limits.
ghost use Rattle.std.specs.Prelude.{◌≡◌, ℕ, ◌+◌, ◌<◌, ◌≤◌, ◌^◌, true, false, not, nat_le, nat_lt, List, length, map, slice_index, slice_index_or, IfOk};
ghost use Rattle.curve_sizes.specs.Rows.{empty_row, found_at, limits_of, HasRoom, HasNoRoom, AreRising};

use crate::row::CurveRow;
use std::alloc::{AllocError, Global};
use std::marker::Model;

/// What is found under each limit, as counts go on. A clause sees the rows.
#[derive(Drop)]
pub struct Table {
    // What a bucket has is found under its limit and all greater ones.
    buckets: Vec<CurveRow>,
    // What all buckets have.
    finds: u64,
    bytes: u128,
}

impl Model for Table {
    ghost use Rattle.std.specs.Prelude.{◌≡◌, ◌<◌, ◌^◌, List};
    ghost use Rattle.curve_sizes.specs.declared.row.CurveRow.{CurveRow};
    ghost use Rattle.curve_sizes.specs.Rows.{running, AreRising, all_finds, all_bytes};

    ghost Value = { List CurveRow };

    ghost view = { λ t. running 0 0 t.buckets.items };

    ghost invariant = { λ t. AreRising t.buckets.items × (all_finds t.buckets.items ≡ t.finds) × (all_bytes t.buckets.items ≡ t.bytes) × (t.finds < 2 ^ 64) × (t.bytes < 2 ^ 128) };
}

impl Table {
    /// Rows of these limits, which found nothing yet.
    pub fn new(alloc: Global, limits: &[u64]) -> Result<Table, AllocError>
        requires { (i j : ℕ) (d : ℕ) → i ≤ j → j < length limits.now → slice_index_or limits.now i d ≤ slice_index_or limits.now j d }
        ensures { IfOk result (λ table. table ≡ map empty_row limits.now) }
    {
        Ok(Table {
            buckets: empty_buckets(alloc, limits)?,
            finds: 0,
            bytes: 0,
        })
    }

    /// Whether one find more of that weight can be counted.
    pub fn has_room(&self, weight: u64) -> bool
        ensures yes { result ≡ true → HasRoom weight self.now }
        ensures no { result ≡ false → HasNoRoom weight self.now }
    {
        if self.finds == u64::MAX {
            return false;
        }
        if u128::MAX - u128::from(weight) < self.bytes {
            return false;
        }
        true
    }

    /// How many limits there are.
    pub fn len(&self) -> usize
        ensures { result ≡ length self.now }
    {
        self.buckets.len()
    }

    /// Which limit is the first that is at least a height; their number where none is.
    pub fn first(&self, height: u64) -> usize
        ensures within { result ≤ length self.now }
        ensures first { (k : ℕ) → k < length self.now → nat_le result k ≡ not (nat_lt (slice_index (limits_of self.now) k) height) }
    {
        bucket_of(self.buckets.as_slice(), height)
    }

    /// Counts a find of an entry of that height and weight, and returns which limit is the first that finds it; their number where none is.
    pub fn count(&mut self, height: u64, weight: u64) -> usize
        requires { HasRoom weight self.old }
        ensures ok { self.new ≡ found_at height weight self.old }
        ensures limits { limits_of self.new ≡ limits_of self.old }
        ensures first { (k : ℕ) → k < length self.old → nat_le result k ≡ not (nat_lt (slice_index (limits_of self.old) k) height) }
    {
        let at = bucket_of(self.buckets.as_slice(), height);
        if at < self.buckets.len() {
            add_to(&mut self.buckets[at], weight);
            self.finds += 1;
            self.bytes += u128::from(weight);
        }
        at
    }

    /// The rows.
    pub fn rows(&self, alloc: Global) -> Result<Vec<CurveRow>, AllocError>
        ensures { IfOk result (λ rows. rows.items ≡ self.now) }
    {
        let mut rows = Vec::with_capacity(alloc, self.buckets.len())?;
        let mut finds = 0;
        let mut bytes = 0;
        for bucket in &self.buckets {
            finds += bucket.finds;
            bytes += bucket.bytes;
            rows.push(CurveRow {
                limit: bucket.limit,
                finds,
                bytes,
            })?;
        }
        Ok(rows)
    }
}

// Buckets of these limits with nothing in them.
fn empty_buckets(alloc: Global, limits: &[u64]) -> Result<Vec<CurveRow>, AllocError>
    ensures { IfOk result (λ buckets. buckets.items ≡ map empty_row limits.now) }
{
    let mut buckets = Vec::with_capacity(alloc, limits.len())?;
    for limit in limits {
        buckets.push(CurveRow {
            limit: *limit,
            finds: 0,
            bytes: 0,
        })?;
    }
    Ok(buckets)
}

// The first bucket whose limit is at least that height; their number where none is.
fn bucket_of(buckets: &[CurveRow], height: u64) -> usize
    requires { AreRising buckets.now }
    ensures within { result ≤ length buckets.now }
    ensures lesser { (k : ℕ) (d : CurveRow) → k < result → (slice_index_or buckets.now k d).limit < height }
    ensures others { (k : ℕ) (d : CurveRow) → result ≤ k → k < length buckets.now → height ≤ (slice_index_or buckets.now k d).limit }
{
    let mut low = 0;
    let mut high = buckets.len();
    while low < high {
        let middle = low + (high - low) / 2;
        if buckets[middle].limit < height {
            low = middle + 1;
        } else {
            high = middle;
        }
    }
    low
}

// One find more.
fn add_to(bucket: &mut CurveRow, weight: u64)
    requires finds { bucket.old.finds + 1 < 2 ^ 64 }
    requires bytes { bucket.old.bytes + weight < 2 ^ 128 }
    ensures { bucket.new ≡ record bucket.old { finds = bucket.old.finds + 1; bytes = bucket.old.bytes + weight } }
{
    bucket.finds += 1;
    bucket.bytes += u128::from(weight);
}
