//! What was done before a refusal, and why an entry isn't admitted.

use cache_evict::CacheEntryKey;

/// What a put, the finish of a write or a revalidation did before it was refused.
#[derive(Debug, Drop)]
pub struct Done {
    /// Whether the body was stored, or its new meta; the body is then removed.
    pub stored: bool,
    /// Whether its entry was admitted to the order of use, or weighed anew; it is then removed.
    pub admitted: bool,
    /// The entries evicted, in order.
    pub evicted: Vec<CacheEntryKey>,
}

/// Why the entry of a stored body isn't admitted.
#[derive(Debug, Drop)]
pub enum AdmitFault {
    /// The weight of the entry's shard can't be counted.
    Weight(Done),
    /// There is no room for one more entry.
    Length(Done),
    /// No number is left for the entry's hash.
    NumbersSpent(Done),
    /// There is no memory.
    Memory(Done),
}
