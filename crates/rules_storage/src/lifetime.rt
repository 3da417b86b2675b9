//! The lifetime of a response, and for how long it may be used after that.
ghost use Rattle.std.specs.Prelude.{◌≡◌, ◌==◌, find, option_map, IfOk};
ghost use Rattle.rules_fields.specs.Fields.{fields};
ghost use Rattle.rules_fields.specs.Says.{said};
ghost use Rattle.rules_fields.specs.Types.{chosen};
ghost use Rattle.rules_storage.specs.Lifetime.{lifetime, modified, may_guess, is_explicit, given, forced, is_no_cache, forbids_stale, window};

use crate::age::date_value;
use rules_fields::Line;
use rules_fields::asking::{alone, has, seconds_under};
use rules_fields::dates::date_of;
use rules_fields::lines::first;
use rules_fields::number::MOST_SECONDS;
use rules_fields::says::Says;
use rules_fields::tables::is_heuristic;
use rules_fields::types::{Options, StatusLifetime};
use std::alloc::{AllocError, Global};

/// The seconds for which a response is fresh (RFC 9111, 4.2.1): the first that is given.
pub fn lifetime(
    alloc: Global,
    says: &Says<'_>,
    status: u16,
    lines: &[Line<'_>],
    came: u64,
    options: &Options<'_>,
) -> Result<u64, AllocError>
    ensures { IfOk result (λ n. n ≡ lifetime (said says.now) status (fields lines.now) came (chosen options.now)) }
{
    let ds = says.directives.as_slice();
    let date = date_value(alloc, lines, came)?;
    if is_no_cache(says, options) {
        return Ok(0);
    }
    if let Some(n) = forced(options, status) {
        return Ok(n);
    }
    if let Some(n) = seconds_under(ds, b"s-maxage") {
        return Ok(n);
    }
    if let Some(n) = seconds_under(ds, b"max-age") {
        return Ok(n);
    }
    if let Some(text) = says.expires {
        let expires = date_of(alloc, text)?.unwrap_or(0);
        return Ok(expires.saturating_sub(date).min(MOST_SECONDS));
    }
    if let Some(n) = given(options, status) {
        return Ok(n);
    }
    if may_guess(says, status) && options.heuristic_tenth {
        let modified = modified(alloc, lines, date)?;
        return Ok((date.saturating_sub(modified) / 10).min(options.most_heuristic));
    }
    Ok(0)
}

// The second of Last-Modified; that of Date where it says none.
fn modified(alloc: Global, lines: &[Line<'_>], date: u64) -> Result<u64, AllocError>
    ensures { IfOk result (λ second. second ≡ modified (fields lines.now) date) }
{
    let Some(text) = first(lines, b"last-modified") else {
        return Ok(date);
    };
    match date_of(alloc, text)? {
        None | Some(0) => Ok(date),
        Some(second) => Ok(second),
    }
}

// The seconds of the first row of a status.
fn first_of(rows: &[StatusLifetime], status: u16) -> Option<u64>
    ensures { result ≡ option_map (λ g. g.seconds) (find (λ g. g.status == status) rows.now) }
{
    for row in rows {
        if row.status == status {
            return Some(row.seconds);
        }
    }
    None
}

/// The lifetime that an operator gives to a status.
pub fn given(options: &Options<'_>, status: u16) -> Option<u64>
    ensures { result ≡ given (chosen options.now) status }
{
    first_of(options.lifetimes, status)
}

/// The lifetime that an operator gives to a status whatever the response says.
pub fn forced(options: &Options<'_>, status: u16) -> Option<u64>
    ensures { result ≡ forced (chosen options.now) status }
{
    first_of(options.forced_lifetimes, status)
}

// Whether there is no-cache for the whole response, and the operator doesn't pass it over.
fn is_no_cache(says: &Says<'_>, options: &Options<'_>) -> bool
    ensures { result ≡ is_no_cache (said says.now) (chosen options.now) }
{
    alone(says.directives.as_slice(), b"no-cache") && !options.forces_private
}

/// Whether it may guess of this response: by its status or by `public`.
pub fn may_guess(says: &Says<'_>, status: u16) -> bool
    ensures { result ≡ may_guess (said says.now) status }
{
    is_heuristic(status) || has(says.directives.as_slice(), b"public")
}

/// Whether the response says itself how long it is fresh.
pub fn is_explicit(says: &Says<'_>) -> bool
    ensures { result ≡ is_explicit (said says.now) }
{
    let ds = says.directives.as_slice();
    has(ds, b"s-maxage") || has(ds, b"max-age") || says.expires.is_some()
}

/// Whether nothing stale may be served (RFC 9111, 4.2.4).
pub fn forbids_stale(says: &Says<'_>, options: &Options<'_>) -> bool
    ensures { result ≡ forbids_stale (said says.now) (chosen options.now) }
{
    let ds = says.directives.as_slice();
    has(ds, b"must-revalidate")
        || has(ds, b"proxy-revalidate")
        || is_no_cache(says, options)
        || has(ds, b"s-maxage") && !options.s_maxage_lets_stale
}

/// The seconds of a window for stale use (RFC 5861), by its directive, or else by the operator.
pub fn window(says: &Says<'_>, name: &[u8], default: u64, options: &Options<'_>) -> u64
    ensures { result ≡ window (said says.now) name.now default (chosen options.now) }
{
    if forbids_stale(says, options) {
        0
    } else {
        seconds_under(says.directives.as_slice(), name).unwrap_or(default)
    }
}
