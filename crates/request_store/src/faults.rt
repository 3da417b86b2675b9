//! Why calls of a request are refused.

use crate::Done;
use cache_evict::{CacheEntryKey, EvictFault};
use cache_lock::LockFault;
use cache_store::storage::{MissFinishType, StoreFault};

/// Why a look-up is refused.
#[derive(Clone, Copy, Debug, PartialEq, Eq)]
pub enum LookUpFault {
    /// The store can't answer.
    Store(StoreFault),
    /// Nothing was found, and the lock can't answer.
    Lock(LockFault),
}

/// Why a response that was found isn't taken.
#[derive(Debug, Drop)]
pub enum FoundFault {
    /// The lock can't answer.
    Lock(LockFault),
    /// The use of the entry can't be counted.
    Evict(EvictFault),
}

/// What the finish of a write did.
#[derive(Debug, Drop)]
pub struct Finished {
    /// What the store reports of the body.
    pub kind: MissFinishType,
    /// How many bytes the body has.
    pub length: usize,
    /// The entries that were evicted, in order, perhaps that of the body too.
    pub evicted: Vec<CacheEntryKey>,
}

/// Why a write isn't finished, or what it stored isn't admitted.
#[derive(Debug, Drop)]
pub enum FinishFault {
    /// There is no memory. Where nothing was stored, the write may be finished again.
    Memory(Done),
    /// The write's key was purged since the write began.
    WriteRemoved,
    /// The weight of the entry's shard can't be counted.
    Weight(Done),
    /// There is no room for one more entry.
    Length(Done),
    /// No number is left for the entry's hash.
    NumbersSpent(Done),
}
