//! What a look-up found.
ghost use Rattle.std.specs.Prelude.{◌≡◌};
ghost use Rattle.request_phases.specs.HitStatuses.{hit_status_name, is_fresh, is_treated_as_miss, found_phase};

use crate::phase::CachePhase;

/// How a response that was found may be used.
#[derive(Clone, Copy, Debug, PartialEq, Eq)]
pub enum HitStatus {
    /// It is stale.
    Expired,
    /// A filter made it stale.
    ForceExpired,
    /// A filter made it stale, and it may be served while upstream is asked.
    ForceExpiredServeStale,
    /// A filter made it a miss.
    ForceMiss,
    /// A filter failed, so it is a miss.
    FailedHitFilter,
    /// It is fresh.
    Fresh,
    /// A filter made it fresh.
    ForceFresh,
}

impl HitStatus {
    /// Returns the status's name.
    pub fn as_str(&self) -> &'static str
        ensures { result.now ≡ hit_status_name self.now }
    {
        match self {
            HitStatus::Expired => "expired",
            HitStatus::ForceExpired => "force_expired",
            HitStatus::ForceExpiredServeStale => "force_expired_serve_stale",
            HitStatus::ForceMiss => "force_miss",
            HitStatus::FailedHitFilter => "failed_hit_filter",
            HitStatus::Fresh => "fresh",
            HitStatus::ForceFresh => "force_fresh",
        }
    }

    /// Whether it is used as it is.
    pub fn is_fresh(&self) -> bool
        ensures { result ≡ is_fresh self.now }
    {
        matches!(self, HitStatus::Fresh | HitStatus::ForceFresh)
    }

    /// Whether it isn't used.
    pub fn is_treated_as_miss(self) -> bool
        ensures { result ≡ is_treated_as_miss self }
    {
        matches!(self, HitStatus::ForceMiss | HitStatus::FailedHitFilter)
    }

    /// Returns the phase of a request that found it in that phase.
    pub fn found_phase(self, before: CachePhase) -> CachePhase
        ensures { result ≡ found_phase self before }
    {
        match self {
            HitStatus::Expired | HitStatus::ForceExpired | HitStatus::ForceExpiredServeStale => {
                CachePhase::Stale
            }
            HitStatus::ForceMiss | HitStatus::FailedHitFilter => before,
            HitStatus::Fresh | HitStatus::ForceFresh => CachePhase::Hit,
        }
    }
}
