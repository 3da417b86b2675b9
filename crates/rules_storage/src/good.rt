//! What was found under the key that was looked up: whether it is good for others, and what a response does to it.
ghost use Rattle.std.specs.Prelude.{◌≡◌, ◌<◌, ◌*◌, ◌^◌, option_map};
ghost use Rattle.rules_fields.specs.Types.{kept_of};
ghost use Rattle.rules_storage.specs.Ages.{second};
ghost use Rattle.rules_storage.specs.Good.{is_late_by, most_window, is_good, says_gone, outlasts_error, outlasts_stale, is_outdated, is_error_outlasted, is_stale_outlasted, removes};

use crate::age::{SECOND, age, is_fresh};
use crate::reason::{Reason, is_of_the_exchange};
use rules_fields::types::Kept;

fn nanoseconds(seconds: u64) -> u128
    ensures is { result ≡ seconds * second }
    ensures within { result < 2 ^ 64 * second }
{
    seconds as u128 * SECOND as u128
}

/// Whether it is past its freshness by at most so many seconds.
pub fn is_late_by(kept: &Kept<'_>, now: u64, seconds: u64) -> bool
    ensures { result ≡ is_late_by (kept_of kept.now) now seconds }
{
    let most = nanoseconds(kept.lifetime) + nanoseconds(seconds);
    age(kept.arrival, now) <= most
}

// The longer of its windows for stale use.
fn most_window(kept: &Kept<'_>) -> u64
    ensures { result ≡ most_window (kept_of kept.now) }
{
    kept.stale_while_revalidate.max(kept.stale_if_error)
}

/// Whether it is good: fresh, or past that by at most one of its own windows, whatever a request says.
pub fn is_good(kept: &Kept<'_>, now: u64) -> bool
    ensures { result ≡ is_good (kept_of kept.now) now }
{
    let window = most_window(kept);
    is_fresh(kept.arrival, kept.lifetime, now) || is_late_by(kept, now, window) && window != 0
}

fn says_gone(code: u16) -> bool
    ensures { result ≡ says_gone code }
{
    code == 404 || code == 410
}

fn outlasts_error(kept: &Kept<'_>, code: u16, now: u64) -> bool
    ensures { result ≡ outlasts_error (kept_of kept.now) code now }
{
    is_good(kept, now) && code >= 400 && !says_gone(code)
}

fn outlasts_stale(kept: &Kept<'_>, lifetime: u64, now: u64) -> bool
    ensures { result ≡ outlasts_stale (kept_of kept.now) lifetime now }
{
    is_fresh(kept.arrival, kept.lifetime, now) && lifetime == 0
}

fn is_outdated(kept: &Kept<'_>, code: u16, now: u64) -> bool
    ensures { result ≡ is_outdated (kept_of kept.now) code now }
{
    says_gone(code) || code < 400 && !is_good(kept, now)
}

/// Whether something was found that keeps its place before an error of this status.
pub fn is_error_outlasted(found: Option<&Kept<'_>>, code: u16, now: u64) -> bool
    ensures { result ≡ is_error_outlasted (option_map (λ k. kept_of k.now) found.entry) code now }
{
    match found {
        None => false,
        Some(kept) => outlasts_error(kept, code, now),
    }
}

/// Whether something was found that keeps its place before what would be kept with this lifetime.
pub fn is_stale_outlasted(found: Option<&Kept<'_>>, lifetime: u64, now: u64) -> bool
    ensures { result ≡ is_stale_outlasted (option_map (λ k. kept_of k.now) found.entry) lifetime now }
{
    match found {
        None => false,
        Some(kept) => outlasts_stale(kept, lifetime, now),
    }
}

/// Whether something was found that goes; `why` is why the response isn't stored.
pub fn removes(found: Option<&Kept<'_>>, code: u16, now: u64, why: Reason) -> bool
    ensures { result ≡ removes (option_map (λ k. kept_of k.now) found.entry) code now why }
{
    match found {
        None => false,
        Some(kept) => is_outdated(kept, code, now) && !is_of_the_exchange(why),
    }
}
