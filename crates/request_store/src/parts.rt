//! What the calls of a cache are lent.

use crate::policy::NoPolicy;

/// What a cache consists of. It is owned by whoever calls, and lent to each call.
#[derive(Debug, Drop)]
pub struct CacheParts<S, E, P, L, A = NoPolicy> {
    /// The store of the bodies.
    pub store: S,
    /// What tracks the entries and evicts.
    pub manager: E,
    /// What predicts whether a response may be kept.
    pub predictor: P,
    /// The lock of the keys.
    pub lock: L,
    /// What decides which responses are admitted.
    pub policy: A,
}
