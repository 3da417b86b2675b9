//! What a whole response gives.
use crate::state::Body;
use cache_heads::NoCacheReason;

/// What the bytes of a whole response give at the moment at which they come.
#[derive(Debug, Drop)]
pub enum PutVerdict {
    /// A body to store.
    Stored(Body),
    /// A whole response that may not be kept, and why.
    Uncacheable(NoCacheReason),
    /// The response ends too early.
    Incomplete,
    /// The bytes are no head.
    BadHead,
    /// The response came, or is fresh, only before 1970.
    BeforeEpoch,
}
