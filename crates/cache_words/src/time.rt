//! Points in time and lengths of time, to the nanosecond. No call reads a clock: moments are handed in.
ghost use Rattle.std.specs.Prelude.{◌≡◌, ◌<◌, ℤ, pos, ◌<ℤ◌, ◌↔◌, IsTrue, Option, Some, None, if◌then◌else◌, nat_lt, unwrap_or};
ghost use Rattle.cache_words.specs.Time.{MomentValue, DurationValue, at_most, at_least, later_by, earlier_by, elapsed, sum_of, greatest, difference, from_seconds, span_of, instant, second};

use std::marker::Model;

/// The nanoseconds of a second.
pub const NANOSECONDS_PER_SECOND: u32 = 1_000_000_000;

/// The lifetime that a number of seconds past 2^32 - 1 counts as (RFC 9111, 1.2.2): 2^31 - 1 seconds.
pub const DELTA_SECONDS_OVERFLOW_DURATION: Duration = Duration {
    seconds: (1 << 31) - 1,
    nanoseconds: 0,
};

/// A point in time: seconds since 1970 began, negative before it, and nanoseconds below one second.
#[derive(Clone, Copy, PartialEq, Eq, PartialOrd, Ord, Hash, Debug)]
pub struct Moment {
    seconds: i64,
    nanoseconds: u32,
}

impl Model for Moment {
    ghost use Rattle.std.specs.Prelude.{◌<◌};
    ghost use Rattle.cache_words.specs.Time.{MomentValue, second};

    ghost Value = { MomentValue };

    ghost view = { λ m. record { seconds = m.seconds; nanoseconds = m.nanoseconds } };

    ghost invariant = { λ m. m.nanoseconds < second };

    ghost inverse = { λ t. record { seconds = t.seconds; nanoseconds = t.nanoseconds } };
}

/// A length of time: seconds, and nanoseconds below one second.
#[derive(Clone, Copy, PartialEq, Eq, PartialOrd, Ord, Hash, Debug)]
pub struct Duration {
    seconds: u64,
    nanoseconds: u32,
}

impl Model for Duration {
    ghost use Rattle.std.specs.Prelude.{◌<◌};
    ghost use Rattle.cache_words.specs.Time.{DurationValue, second};

    ghost Value = { DurationValue };

    ghost view = { λ d. record { seconds = d.seconds; nanoseconds = d.nanoseconds } };

    ghost invariant = { λ d. d.nanoseconds < second };

    ghost inverse = { λ s. record { seconds = s.seconds; nanoseconds = s.nanoseconds } };
}

impl Moment {
    /// The moment of these seconds and nanoseconds; `None` from a whole second of nanoseconds.
    pub fn new(seconds: i64, nanoseconds: u32) -> Option<Moment>
        ensures { result ≡ (if nat_lt nanoseconds second then Some (record { seconds = seconds; nanoseconds = nanoseconds }) else None) }
    {
        if nanoseconds < NANOSECONDS_PER_SECOND {
            Some(Moment {
                seconds,
                nanoseconds,
            })
        } else {
            None
        }
    }

    /// The moment at which a whole second begins.
    pub fn from_seconds(seconds: i64) -> Moment
        ensures { result ≡ from_seconds seconds }
    {
        Moment {
            seconds,
            nanoseconds: 0,
        }
    }

    /// The whole seconds since 1970 began.
    pub fn seconds(&self) -> i64
        ensures { result ≡ self.now.seconds }
    {
        self.seconds
    }

    /// The nanoseconds after the whole seconds.
    pub fn nanoseconds(&self) -> u32
        ensures value { result ≡ self.now.nanoseconds }
        ensures below { result < second }
    {
        self.nanoseconds
    }

    /// Whether this moment is no later than the other.
    pub fn is_at_most(&self, other: &Moment) -> bool
        ensures { result ≡ at_most self.now other.now }
    {
        if self.seconds < other.seconds {
            true
        } else {
            self.seconds <= other.seconds && self.nanoseconds <= other.nanoseconds
        }
    }

    /// The moment that much later; `None` where its seconds don't fit in 64 bits.
    pub fn checked_add(&self, duration: Duration) -> Option<Moment>
        ensures { result ≡ later_by self.now duration }
    {
        let nanoseconds = self.nanoseconds + duration.nanoseconds;
        let seconds = self.seconds as i128
            + (duration.seconds as i128 + (nanoseconds / NANOSECONDS_PER_SECOND) as i128);
        Moment::from_wide(seconds, nanoseconds % NANOSECONDS_PER_SECOND)
    }

    /// The moment that much earlier; `None` where its seconds don't fit in 64 bits.
    pub fn checked_sub(&self, duration: Duration) -> Option<Moment>
        ensures { result ≡ earlier_by self.now duration }
    {
        if self.nanoseconds < duration.nanoseconds {
            let seconds = self.seconds as i128 - (duration.seconds as i128 + 1);
            Moment::from_wide(
                seconds,
                self.nanoseconds + NANOSECONDS_PER_SECOND - duration.nanoseconds,
            )
        } else {
            let seconds = self.seconds as i128 - duration.seconds as i128;
            Moment::from_wide(seconds, self.nanoseconds - duration.nanoseconds)
        }
    }

    /// The time since an earlier moment; nothing where that moment is later.
    pub fn elapsed_since(&self, earlier: Moment) -> Duration
        ensures { result ≡ elapsed earlier self.now }
    {
        if !earlier.is_at_most(self) {
            return Duration::zero();
        }
        let between = self.seconds.abs_diff(earlier.seconds);
        if self.nanoseconds < earlier.nanoseconds {
            Duration {
                seconds: between - 1,
                nanoseconds: self.nanoseconds + NANOSECONDS_PER_SECOND - earlier.nanoseconds,
            }
        } else {
            Duration {
                seconds: between,
                nanoseconds: self.nanoseconds - earlier.nanoseconds,
            }
        }
    }

    /// Whether this moment is before 1970 began.
    pub fn is_before_epoch(&self) -> bool
        ensures { IsTrue result ↔ (self.now.seconds <ℤ pos 0) }
    {
        self.seconds < 0
    }

    // A moment whose seconds may not fit.
    fn from_wide(seconds: i128, nanoseconds: u32) -> Option<Moment>
        requires { nanoseconds < second }
        ensures { result ≡ instant seconds nanoseconds }
    {
        if seconds < i64::MIN as i128 || seconds > i64::MAX as i128 {
            None
        } else {
            Some(Moment {
                seconds: seconds as i64,
                nanoseconds,
            })
        }
    }
}

impl Duration {
    /// The time of these seconds and nanoseconds; `None` from a whole second of nanoseconds.
    pub fn new(seconds: u64, nanoseconds: u32) -> Option<Duration>
        ensures { result ≡ (if nat_lt nanoseconds second then Some (record { seconds = seconds; nanoseconds = nanoseconds }) else None) }
    {
        if nanoseconds >= NANOSECONDS_PER_SECOND {
            return None;
        }
        Some(Duration {
            seconds,
            nanoseconds,
        })
    }

    /// Whole seconds.
    pub fn from_seconds(seconds: u64) -> Duration
        ensures { result ≡ span_of seconds }
    {
        Duration {
            seconds,
            nanoseconds: 0,
        }
    }

    /// No time at all.
    pub fn zero() -> Duration
        ensures { result ≡ span_of 0 }
    {
        Duration::from_seconds(0)
    }

    /// The whole seconds.
    pub fn seconds(&self) -> u64
        ensures { result ≡ self.now.seconds }
    {
        self.seconds
    }

    /// The nanoseconds after the whole seconds.
    pub fn nanoseconds(&self) -> u32
        ensures value { result ≡ self.now.nanoseconds }
        ensures below { result < second }
    {
        self.nanoseconds
    }

    /// Both times, one after the other; `None` from 2^64 seconds.
    pub fn checked_add(&self, other: Duration) -> Option<Duration>
        ensures { result ≡ sum_of self.now other }
    {
        let nanoseconds = self.nanoseconds + other.nanoseconds;
        let seconds = self.seconds as u128
            + other.seconds as u128
            + (nanoseconds / NANOSECONDS_PER_SECOND) as u128;
        if seconds > u64::MAX as u128 {
            None
        } else {
            Some(Duration {
                seconds: seconds as u64,
                nanoseconds: nanoseconds % NANOSECONDS_PER_SECOND,
            })
        }
    }

    /// Both times, one after the other; from 2^64 seconds on the greatest time.
    pub fn saturating_add(&self, other: Duration) -> Duration
        ensures { result ≡ unwrap_or (sum_of self.now other) greatest }
    {
        match self.checked_add(other) {
            Some(sum) => sum,
            None => Duration {
                seconds: u64::MAX,
                nanoseconds: NANOSECONDS_PER_SECOND - 1,
            },
        }
    }

    /// The time that is left after the other; nothing where the other is longer.
    pub fn saturating_sub(&self, other: Duration) -> Duration
        ensures { result ≡ difference self.now other }
    {
        if !self.is_at_least(&other) {
            return Duration::zero();
        }
        let seconds = self.seconds - other.seconds;
        if self.nanoseconds < other.nanoseconds {
            Duration {
                seconds: seconds - 1,
                nanoseconds: self.nanoseconds + NANOSECONDS_PER_SECOND - other.nanoseconds,
            }
        } else {
            Duration {
                seconds,
                nanoseconds: self.nanoseconds - other.nanoseconds,
            }
        }
    }

    /// Whether this time is at least as long as the other.
    pub fn is_at_least(&self, other: &Duration) -> bool
        ensures { result ≡ at_least self.now other.now }
    {
        if other.seconds < self.seconds {
            true
        } else {
            other.seconds <= self.seconds && other.nanoseconds <= self.nanoseconds
        }
    }
}
