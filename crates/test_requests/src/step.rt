//! Steps: a call with its arguments.
use crate::call::Call;
use cache_heads::NoCacheReason;
use cache_words::time::Moment;
use request_phases::HitStatus;

/// A call of a request, and the words of its arguments; a word that isn't there is empty.
#[derive(Clone, Copy)]
pub struct Step<'a> {
    /// The first or the second request; a line that is no step, but a row's name, is of none.
    pub request: u8,
    pub call: Call,
    pub first: &'a str,
    pub second: &'a str,
}

impl<'a> Step<'a> {
    /// The step that a line names.
    pub fn new(line: &'a str) -> Step<'a> {
        let mut words = line.split(' ');
        Step {
            request: words.next().unwrap_or("").parse().unwrap_or(0),
            call: Call::of(words.next().unwrap_or("")),
            first: words.next().unwrap_or(""),
            second: words.next().unwrap_or(""),
        }
    }

    /// The number that the first argument is, or 0.
    pub fn number(self) -> u64 {
        self.first.parse().unwrap_or(0)
    }

    /// The moment that the first argument is, in seconds.
    pub fn moment(self) -> Moment {
        Moment::from_seconds(self.first.parse().unwrap_or(0))
    }

    /// The first letter of the first argument.
    pub fn letter(self) -> u8 {
        match self.first.as_bytes().first() {
            Some(&letter) => letter,
            None => b'?',
        }
    }
}

/// The variance of 16 equal bytes that a word names; `-` is none.
pub fn variance(word: &str) -> Option<[u8; 16]> {
    match word.parse::<u8>() {
        Ok(byte) => Some([byte; 16]),
        Err(_) => None,
    }
}

const REASONS: &[NoCacheReason] = &[
    NoCacheReason::NeverEnabled,
    NoCacheReason::OriginNotCache,
    NoCacheReason::ResponseTooLarge,
    NoCacheReason::PredictedResponseTooLarge,
    NoCacheReason::StorageError,
    NoCacheReason::InternalError,
    NoCacheReason::Deferred,
    NoCacheReason::DeclinedToUpstream,
    NoCacheReason::UpstreamError,
    NoCacheReason::CacheLockGiveUp,
    NoCacheReason::CacheLockTimeout,
    NoCacheReason::CacheLockRetryLimit,
    NoCacheReason::Custom("own"),
];

/// The reason of that name. A name that no reason has is that of `NeverEnabled`.
pub fn reason(name: &str) -> NoCacheReason {
    for &reason in REASONS {
        if reason.as_str() == name {
            return reason;
        }
    }
    NoCacheReason::NeverEnabled
}

const STATUSES: &[HitStatus] = &[
    HitStatus::Expired,
    HitStatus::ForceExpired,
    HitStatus::ForceExpiredServeStale,
    HitStatus::ForceMiss,
    HitStatus::FailedHitFilter,
    HitStatus::Fresh,
    HitStatus::ForceFresh,
];

/// The status of that name. A name that no status has is that of `FailedHitFilter`.
pub fn status(name: &str) -> HitStatus {
    for &status in STATUSES {
        if status.as_str() == name {
            return status;
        }
    }
    HitStatus::FailedHitFilter
}
