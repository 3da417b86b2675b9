//! Moments: seconds since 1970, and nanoseconds.
ghost use Rattle.std.specs.Prelude.{◌≡◌};
ghost use Rattle.rules_ffi_arguments.specs.Moments.{is_moment};
ghost use Rattle.gateway_rules.specs.Moments.{later, is_past, of_tier, from_tier};

use cache_words::time::Moment as TierMoment;
use rules_ffi_arguments::moments::moment_in;
pub use rules_ffi_arguments::moments::{moment_at, nanoseconds_of};
pub use rules_ffi_arguments::shapes::Moment;

/// Whether a clock shows it.
pub fn is_moment(moment: Moment) -> bool
    ensures { result ≡ is_moment moment.seconds moment.nanoseconds }
{
    moment_in(moment.seconds, moment.nanoseconds).is_ok()
}

/// The moment so many seconds later.
pub fn later(moment: Moment, seconds: u64) -> Moment
    ensures { result ≡ later moment seconds }
{
    Moment {
        seconds: moment.seconds.saturating_add(seconds),
        nanoseconds: moment.nanoseconds,
    }
}

/// Whether a moment isn't before another.
pub fn is_past(moment: Moment, other: Moment) -> bool
    ensures { result ≡ is_past moment other }
{
    if moment.seconds == other.seconds {
        moment.nanoseconds >= other.nanoseconds
    } else {
        moment.seconds > other.seconds
    }
}

/// As the tier has moments: one whose nanoseconds it can't have is the first one.
pub fn of_tier(moment: Moment) -> TierMoment
    ensures { result ≡ of_tier moment }
{
    if moment.nanoseconds >= 1_000_000_000 {
        return TierMoment::from_seconds(0);
    }
    let seconds = moment.seconds.min(LAST) as i64;
    match TierMoment::new(seconds, moment.nanoseconds as u32) {
        Some(moment) => moment,
        None => TierMoment::from_seconds(0),
    }
}

// The last second that the tier counts.
const LAST: u64 = 9_223_372_036_854_775_807;

/// As the rules have it; the seconds are 0 before 1970.
pub fn from_tier(moment: TierMoment) -> Moment
    ensures { result ≡ from_tier moment }
{
    let seconds = moment.seconds();
    Moment {
        seconds: if seconds < 0 { 0 } else { seconds as u64 },
        nanoseconds: moment.nanoseconds() as u64,
    }
}
