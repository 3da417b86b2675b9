//! What a tier reports of itself.

/// What a tier did and holds. `found`, `absent` and `evicted` stop at 2^64 - 1.
#[derive(Clone, Copy, PartialEq, Eq, Debug)]
pub struct Report {
    /// Look-ups answered found.
    pub found: u64,
    /// Look-ups answered absent.
    pub absent: u64,
    /// Finished bodies.
    pub bodies: u64,
    /// Their bytes.
    pub bytes: u64,
    /// Bytes of their metas, as they are written.
    pub meta: u64,
    /// Tracked entries.
    pub tracked: u64,
    /// The sum of their weights.
    pub weight: u64,
    /// Entries evicted.
    pub evicted: u64,
    /// Bytes that the bodies have outside the tier. It stops at 2^64 - 1.
    pub external: u64,
}
