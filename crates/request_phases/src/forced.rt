//! What a filter of hits may decide.
use cache_words::time::Moment;

/// How a filter wants a response that was found to be used, whatever its meta says.
#[derive(Clone, Copy, Debug, PartialEq, Eq)]
pub enum ForcedFreshness {
    /// As stale.
    ForceExpired,
    /// As stale, and it may be served while upstream is asked.
    ForceExpiredServeStale {
        /// Since when it counts as stale; none leaves that open.
        expired_at: Option<Moment>,
    },
    /// As a miss.
    ForceMiss,
    /// As fresh.
    ForceFresh,
}
