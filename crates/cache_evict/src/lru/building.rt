// Managers without entries, whose hashes have the default start or another.

ghost use Rattle.std.specs.Prelude.{◌≡◌, ◌<◌, None, IfOk};
ghost use Rattle.cache_evict.specs.Managed.{fresh};

use super::Manager;
use crate::tracker::Tracker;
use std::alloc::{AllocError, Global};
use std::hash::{BuildHasher, BuildHasherDefault, FoldHasher};

impl<const N: usize> Manager<N, BuildHasherDefault<FoldHasher>> {
    /// Returns N shards without entries, which may weigh `limit` together, in the unit of the sizes, as bytes. Room for `capacity`
    /// entries is reserved, of which no clause speaks.
    ///
    /// # Errors
    ///
    /// No memory for the shards or that room.
    pub fn with_capacity(alloc: Global, limit: usize, capacity: usize) -> Result<Self, AllocError>
        requires { 0 < N }
        ensures { IfOk result (λ m. m ≡ fresh N limit None) }
    {
        Manager::with_capacity_and_watermark(alloc, limit, capacity, None)
    }

    /// The same, with a number of entries past which an eviction also takes some.
    ///
    /// # Errors
    ///
    /// Those of `with_capacity`.
    pub fn with_capacity_and_watermark(
        alloc: Global,
        limit: usize,
        capacity: usize,
        watermark: Option<usize>,
    ) -> Result<Self, AllocError>
        requires { 0 < N }
        ensures { IfOk result (λ m. m ≡ fresh N limit watermark) }
    {
        Manager::with_hasher(alloc, BuildHasherDefault::new(), limit, capacity, watermark)
    }
}

impl<const N: usize, S: BuildHasher + Copy> Manager<N, S> {
    /// The same, with hashes of that start.
    ///
    /// # Errors
    ///
    /// Those of `with_capacity`.
    pub fn with_hasher(
        alloc: Global,
        hasher: S,
        limit: usize,
        capacity: usize,
        watermark: Option<usize>,
    ) -> Result<Self, AllocError>
        requires { 0 < N }
        ensures { IfOk result (λ m. m ≡ fresh N limit watermark) }
    {
        let tracker = Tracker::new(alloc, hasher, limit, capacity, watermark)?;
        Ok(Manager { tracker })
    }
}
