//! Defaults for what a response does not say.
ghost use Rattle.std.specs.Prelude.{◌≡◌, ◌==◌, ℕ, Option, None, if◌then◌else◌};
ghost use Rattle.cache_words.specs.Time.{DurationValue};
ghost use Rattle.cache_heads.specs.Defaults.{status_lifetime};

use cache_words::time::Duration;
use http::StatusCode;

/// How long a response is fresh by its status alone; `None` where such a response is not kept.
pub trait FreshDurationByStatusFn {
    // The time by status.
    ghost duration: { Self → ℕ → Option DurationValue };

    /// Returns how long a response of this status is fresh.
    fn fresh_duration(&self, status: StatusCode) -> Option<Duration>
        ensures { result ≡ duration self.now status };
}

/// No response is fresh by its status alone.
#[derive(Clone, Copy, Debug, PartialEq, Eq)]
pub struct NeverByStatus;

impl FreshDurationByStatusFn for NeverByStatus {
    ghost duration = { λ _ status. None };

    fn fresh_duration(&self, _status: StatusCode) -> Option<Duration> {
        None
    }
}

/// Defaults for what a response does not say: how long it is fresh, by its status, and how long
/// it may be served stale.
#[derive(Debug, Drop)]
pub struct CacheMetaDefaults<F> {
    /// How long a response is fresh, by its status.
    pub fresh_sec_fn: F,
    /// For how many seconds a stale response may be served while it is validated.
    pub stale_while_revalidate_sec: u32,
    /// For how many seconds a stale response may be served on errors.
    pub stale_if_error_sec: u32,
}

impl<F: FreshDurationByStatusFn> CacheMetaDefaults<F> {
    /// Makes the defaults of these three.
    pub const fn new(
        fresh_sec_fn: F,
        stale_while_revalidate_sec: u32,
        stale_if_error_sec: u32,
    ) -> Self
        ensures by_status { result.fresh_sec_fn ≡ fresh_sec_fn }
        ensures revalidate { result.stale_while_revalidate_sec ≡ stale_while_revalidate_sec }
        ensures error { result.stale_if_error_sec ≡ stale_if_error_sec }
    {
        CacheMetaDefaults {
            fresh_sec_fn,
            stale_while_revalidate_sec,
            stale_if_error_sec,
        }
    }

    /// Returns how long a response of this status is fresh. A 304 has the lifetime of a 200, since
    /// it renews one.
    pub fn fresh_sec(&self, resp_status: StatusCode) -> Option<Duration>
        ensures { result ≡ status_lifetime F.duration self.now resp_status }
    {
        if resp_status == StatusCode::NOT_MODIFIED {
            self.fresh_sec_fn.fresh_duration(StatusCode::OK)
        } else {
            self.fresh_sec_fn.fresh_duration(resp_status)
        }
    }

    /// Returns for how many seconds a stale response may be served while it is validated.
    pub fn serve_stale_while_revalidate_sec(&self) -> u32
        ensures { result ≡ self.now.stale_while_revalidate_sec }
    {
        self.stale_while_revalidate_sec
    }

    /// Returns for how many seconds a stale response may be served on errors.
    pub fn serve_stale_if_error_sec(&self) -> u32
        ensures { result ≡ self.now.stale_if_error_sec }
    {
        self.stale_if_error_sec
    }
}
