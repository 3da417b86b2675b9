//! Rows in the order of use.
use crate::entry::CacheEntryKey;

/// An entry in the order of use, with what it weighs.
#[derive(Debug, Drop)]
pub struct Tracked {
    /// The entry.
    pub entry: CacheEntryKey,
    /// What it weighs.
    pub weight: usize,
}
