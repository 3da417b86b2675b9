//! How what is stored may answer a request now.
ghost use Rattle.std.specs.Prelude.{◌≡◌, ◌<◌, ◌*◌, ◌^◌, false, option_map, IfOk};
ghost use Rattle.rules_storage.specs.Ages.{second};
ghost use Rattle.rules_storage.specs.Good.{is_late_by};
ghost use Rattle.std.specs.Option.{option_map_or};
ghost use Rattle.rules_fields.specs.Meaning.{meanings};
ghost use Rattle.rules_fields.specs.Types.{asked_of, kept_of, chosen};
ghost use Rattle.rules_reuse.specs.Using.{is_closed, must_validate, is_older, is_fresh_for, most_late, use_of, goes_by_lines, is_failure, most_spared, may_spare, error_of};

use crate::planning::{asked_directives, reloads};
use rules_fields::asking::seconds_under;
use rules_fields::blanks::is_small;
use rules_fields::directive::Directive;
use rules_fields::lines::has_line;
use rules_fields::number::MOST_SECONDS;
use rules_fields::says::say_of;
use rules_fields::tables::is_error;
use rules_fields::types::{Kept, Options, Request};
use rules_storage::age::{SECOND, age};
use rules_storage::good::is_late_by;
use rules_storage::lifetime::forbids_stale;
use rules_storage::stored::opens_authorized;
use std::alloc::{AllocError, Global};

/// How what is stored may answer a request now.
#[derive(Clone, Copy, Debug, PartialEq, Eq)]
pub enum Use {
    /// It is fresh, and answers.
    Fresh,
    /// It is stale, and answers, since the client takes it so (max-stale).
    Stale,
    /// It is stale, and answers, and meanwhile it is fetched anew (stale-while-revalidate).
    Meanwhile,
    /// It answers only once the origin has validated it.
    Validate,
    /// It doesn't answer, and isn't replaced by what the origin gives.
    Pass,
}

/// How what is stored may answer a request at a moment. A fresh hit of a request without Authorization reads no stored line.
pub fn use_of(
    alloc: Global,
    request: &Request<'_>,
    kept: &Kept<'_>,
    now: u64,
    options: &Options<'_>,
) -> Result<Use, AllocError>
    ensures { IfOk result (λ u. u ≡ use_of (asked_of request.now) (kept_of kept.now) now (chosen options.now)) }
{
    if is_closed(alloc, request, kept, options)? {
        return Ok(Use::Pass);
    }
    let asked = asked_directives(alloc, request, options)?;
    let ds = asked.as_slice();
    if options.heeds_requests && reloads(ds, request.lines) {
        return Ok(Use::Validate);
    }
    if is_older(kept, now, seconds_under(ds, b"max-age")) {
        return Ok(Use::Validate);
    }
    let least = seconds_under(ds, b"min-fresh");
    if is_fresh_for(kept, now, least.unwrap_or(0)) {
        return Ok(Use::Fresh);
    }
    if least.is_some() {
        return Ok(Use::Validate);
    }
    if is_within(kept, now, most_late(ds)) && !must_validate(alloc, kept, options)? {
        return Ok(Use::Stale);
    }
    if is_late_by(kept, now, kept.stale_while_revalidate) && kept.stale_while_revalidate != 0 {
        return Ok(Use::Meanwhile);
    }
    Ok(Use::Validate)
}

/// Whether `use_of` looks at the stored lines: where not, what is kept may lack them.
pub fn goes_by_lines(
    alloc: Global,
    request: &Request<'_>,
    kept: &Kept<'_>,
    now: u64,
    options: &Options<'_>,
) -> Result<bool, AllocError>
    ensures { IfOk result (λ b. b ≡ goes_by_lines (asked_of request.now) (kept_of kept.now) now (chosen options.now)) }
{
    if has_line(request.lines, b"authorization") && !options.authorized_reads {
        return Ok(true);
    }
    let asked = asked_directives(alloc, request, options)?;
    Ok(is_within(kept, now, most_late(asked.as_slice())))
}

// Whether a request has Authorization, and nothing lets what is stored answer it.
fn is_closed(
    alloc: Global,
    request: &Request<'_>,
    kept: &Kept<'_>,
    options: &Options<'_>,
) -> Result<bool, AllocError>
    ensures { IfOk result (λ b. b ≡ is_closed (asked_of request.now) (kept_of kept.now) (chosen options.now)) }
{
    if !has_line(request.lines, b"authorization") || options.authorized_reads {
        return Ok(false);
    }
    let says = say_of(alloc, kept.lines, options)?;
    Ok(!opens_authorized(&says))
}

// Whether nothing stale may be used.
fn must_validate(alloc: Global, kept: &Kept<'_>, options: &Options<'_>) -> Result<bool, AllocError>
    ensures { IfOk result (λ b. b ≡ must_validate (kept_of kept.now) (chosen options.now)) }
{
    let says = say_of(alloc, kept.lines, options)?;
    Ok(forbids_stale(&says, options))
}

fn nanoseconds(seconds: u64) -> u128
    ensures is { result ≡ seconds * second }
    ensures within { result < 2 ^ 64 * second }
{
    seconds as u128 * SECOND as u128
}

fn is_older(kept: &Kept<'_>, now: u64, seconds: Option<u64>) -> bool
    ensures { result ≡ is_older (kept_of kept.now) now seconds }
{
    match seconds {
        None => false,
        Some(n) => nanoseconds(n) < age(kept.arrival, now),
    }
}

fn is_fresh_for(kept: &Kept<'_>, now: u64, seconds: u64) -> bool
    ensures { result ≡ is_fresh_for (kept_of kept.now) now seconds }
{
    let needed = nanoseconds(seconds);
    let lifetime = nanoseconds(kept.lifetime);
    needed < lifetime && age(kept.arrival, now) < lifetime - needed
}

fn is_within(kept: &Kept<'_>, now: u64, seconds: Option<u64>) -> bool
    ensures { result ≡ option_map_or (λ n. is_late_by (kept_of kept.now) now n) seconds false }
{
    match seconds {
        None => false,
        Some(n) => is_late_by(kept, now, n),
    }
}

// How late a client takes what is stale, in seconds.
fn most_late(ds: &[Directive<'_>]) -> Option<u64>
    ensures { result ≡ most_late (meanings ds.now) }
{
    for d in ds {
        if is_small(d.name.bytes(), b"max-stale") && d.value.is_none() {
            return Some(MOST_SECONDS);
        }
    }
    seconds_under(ds, b"max-stale")
}

/// Whether what is stale may answer in the place of an error: `status` is the origin's, and none where it gave no answer (RFC 5861, 4; RFC 9111,
/// 4.2.4).
pub fn may_spare(
    alloc: Global,
    request: &Request<'_>,
    kept: &Kept<'_>,
    now: u64,
    status: Option<u16>,
    options: &Options<'_>,
) -> Result<bool, AllocError>
    ensures { IfOk result (λ b. b ≡ may_spare (asked_of request.now) (kept_of kept.now) now status (chosen options.now)) }
{
    if !is_failure(status) {
        return Ok(false);
    }
    let asked = asked_directives(alloc, request, options)?;
    if options.heeds_requests && reloads(asked.as_slice(), request.lines) {
        return Ok(false);
    }
    let most = most_spared(alloc, asked.as_slice(), kept, status, options)?;
    Ok(most != 0 && is_late_by(kept, now, most))
}

fn is_failure(status: Option<u16>) -> bool
    ensures { result ≡ is_failure status }
{
    match status {
        None => true,
        Some(status) => is_error(status),
    }
}

// The seconds past its freshness in which it may answer.
fn most_spared(
    alloc: Global,
    ds: &[Directive<'_>],
    kept: &Kept<'_>,
    status: Option<u16>,
    options: &Options<'_>,
) -> Result<u64, AllocError>
    ensures { IfOk result (λ n. n ≡ most_spared (meanings ds.now) (kept_of kept.now) status (chosen options.now)) }
{
    if must_validate(alloc, kept, options)? {
        return Ok(kept.stale_if_error);
    }
    let asked = seconds_under(ds, b"stale-if-error").unwrap_or(0);
    let down = match status {
        None => options.stale_if_down,
        Some(_) => 0,
    };
    Ok(kept.stale_if_error.max(asked.max(down)))
}

/// The status where the origin gave no answer: 504 where what is stored must be validated, else 502 (RFC 9111, 5.2.2.2).
pub fn error_of(
    alloc: Global,
    kept: Option<&Kept<'_>>,
    options: &Options<'_>,
) -> Result<u16, AllocError>
    ensures { IfOk result (λ status. status ≡ error_of (option_map (λ k. kept_of k.now) kept.entry) (chosen options.now)) }
{
    let Some(kept) = kept else {
        return Ok(502);
    };
    if must_validate(alloc, kept, options)? {
        Ok(504)
    } else {
        Ok(502)
    }
}
