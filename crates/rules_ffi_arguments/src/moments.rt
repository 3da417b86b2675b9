//! Moments.
ghost use Rattle.std.specs.Prelude.{◌≡◌};
ghost use Rattle.rules_ffi_arguments.specs.Given.{Gives, NeedsNoMemory};
ghost use Rattle.rules_ffi_arguments.specs.Moments.{moment_in, moment_at, nanoseconds_of};

use crate::bad::Bad;
use crate::shapes::Moment;

/// The nanoseconds of a second.
pub const SECOND: u64 = 1_000_000_000;

// The last second whose nanoseconds fit.
const LAST: u64 = 18_446_744_072;

/// The nanoseconds since 1970.
pub fn moment_in(seconds: u64, nanoseconds: u64) -> Result<u64, Bad>
    ensures gives { Gives (λ n. n) result (moment_in seconds nanoseconds) }
    ensures memory { NeedsNoMemory result }
{
    if seconds <= LAST && nanoseconds < SECOND {
        Ok(seconds * SECOND + nanoseconds)
    } else {
        Err(Bad::Call)
    }
}

/// The moment so many nanoseconds after 1970.
pub fn moment_at(nanoseconds: u64) -> Moment
    ensures { result ≡ moment_at nanoseconds }
{
    Moment {
        seconds: nanoseconds / SECOND,
        nanoseconds: nanoseconds % SECOND,
    }
}

/// A moment as nanoseconds; one that no clock shows is the last one.
pub fn nanoseconds_of(moment: Moment) -> u64
    ensures { result ≡ nanoseconds_of moment }
{
    if moment.seconds <= LAST && moment.nanoseconds < SECOND {
        moment.seconds * SECOND + moment.nanoseconds
    } else {
        u64::MAX
    }
}
