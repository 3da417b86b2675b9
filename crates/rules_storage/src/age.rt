//! The moment at which a response's age was 0.
ghost use Rattle.std.specs.Prelude.{◌≡◌, ◌≤◌, ◌≤ℤ◌, ◌*◌, ◌^◌, pos, negsuc, IfOk};
ghost use Rattle.rules_fields.specs.Fields.{fields};
ghost use Rattle.rules_fields.specs.Types.{chosen};
ghost use Rattle.rules_storage.specs.Ages.{date_value, age_value, arrival, earlier, by_age, second, age, is_fresh};

use rules_fields::Line;
use rules_fields::blanks::trimmed;
use rules_fields::dates::date_of;
use rules_fields::lines::{cut, first};
use rules_fields::number::seconds;
use rules_fields::types::Options;
use std::alloc::{AllocError, Global};

/// The nanoseconds of a second.
pub const SECOND: u64 = 1_000_000_000;

/// The second of Date; that at which the response came, where it can't be read.
pub fn date_value(alloc: Global, lines: &[Line<'_>], came: u64) -> Result<u64, AllocError>
    ensures { IfOk result (λ date. date ≡ date_value (fields lines.now) came) }
{
    let Some(text) = first(lines, b"date") else {
        return Ok(came / SECOND);
    };
    let date = date_of(alloc, text)?;
    Ok(date.unwrap_or(came / SECOND))
}

/// The seconds that the first part of the first Age says; 0 where it can't be read.
pub fn age_value(lines: &[Line<'_>]) -> u64
    ensures is { result ≡ age_value (fields lines.now) }
    ensures within { result ≤ 2 ^ 31 }
{
    match first(lines, b"age") {
        None => 0,
        Some(text) => {
            let (part, _) = cut(text);
            seconds(trimmed(part)).unwrap_or(0)
        }
    }
}

/// The moment at which the age was 0 (RFC 9111, 4.2.3): the earlier of that by Date, if the operator trusts it, and that by Age. It may lie before 1970.
#[tactic(auto, unfolding(crate::specs::Ages::arrival))]
pub fn arrival(
    alloc: Global,
    lines: &[Line<'_>],
    asked: u64,
    came: u64,
    options: &Options<'_>,
) -> Result<i128, AllocError>
    ensures is { IfOk result (λ moment. moment ≡ arrival (fields lines.now) asked came (chosen options.now)) }
    ensures within { IfOk result (λ moment. negsuc (2 ^ 62) ≤ℤ moment) }
{
    if !options.trusts_date {
        return Ok(by_age(age_value(lines), asked));
    }
    let date = date_value(alloc, lines, came)?;
    let apparent = (came / SECOND).saturating_sub(date);
    Ok(earlier(apparent, age_value(lines), asked, came))
}

// So many seconds before it was asked for.
fn by_age(age: u64, asked: u64) -> i128
    requires age_fits { age ≤ 2 ^ 31 }
    ensures is { result ≡ by_age age asked }
    ensures within { negsuc (2 ^ 62) ≤ℤ result }
{
    asked as i128 - (age * SECOND) as i128
}

// So many seconds before it came, or so many before it was asked for.
fn earlier(apparent: u64, age: u64, asked: u64, came: u64) -> i128
    requires apparent_fits { apparent * second ≤ came }
    requires age_fits { age ≤ 2 ^ 31 }
    ensures is { result ≡ earlier apparent age asked came }
    ensures within { negsuc (2 ^ 62) ≤ℤ result }
{
    let by_date = came as i128 - (apparent * SECOND) as i128;
    let by_age = asked as i128 - (age * SECOND) as i128;
    by_date.min(by_age)
}

/// The nanoseconds since the moment at which the age was 0, and none before it.
pub fn age(arrival: i128, now: u64) -> u128
    ensures { pos result ≡ age arrival now }
{
    let now = now as i128;
    if now < arrival {
        0
    } else {
        now.abs_diff(arrival)
    }
}

/// Whether the age is below the lifetime, so that nothing is fresh of which the lifetime is 0.
pub fn is_fresh(arrival: i128, lifetime: u64, now: u64) -> bool
    ensures { result ≡ is_fresh arrival lifetime now }
{
    age(arrival, now) < lifetime as u128 * SECOND as u128
}
