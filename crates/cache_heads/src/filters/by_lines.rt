//! Verdicts by a response's own lines.
ghost use Rattle.std.specs.Prelude.{◌≡◌, List, IfOk, OnErr, Some, true, false, codes};
ghost use Rattle.head_directives.specs.Written.{Written};
ghost use Rattle.head_directives.specs.Known.{Knows};
ghost use Rattle.head_directives.specs.Control.{named, lines_under};
ghost use Rattle.head_directives.specs.Lifetime.{lists_fields};
ghost use Rattle.cache_heads.specs.Defaults.{status_lifetime};
ghost use Rattle.cache_heads.specs.FreshUntil.{by_directives, fresh_until_of};
ghost use Rattle.cache_heads.specs.Stale.{revalidate_window, error_window};
ghost use Rattle.cache_heads.specs.Verdict.{verdict_by};

use super::{calculate_expires_header_time, lasts_to, resp_cacheable, seconds_or};
use crate::defaults::{CacheMetaDefaults, FreshDurationByStatusFn};
use crate::meta::CacheMeta;
use crate::reason::{NoCacheReason, RespCacheable};
use cache_words::time::Moment;
use head_directives::{CacheControl, KnownDirectives};
use head_lines::ResponseHeader;
use std::alloc::{AllocError, Global};

// The moment that the directives give.
fn moment_by_directives(now: Moment, known: &KnownDirectives<'_>) -> Option<Moment>
    ensures { (ds : List Written) → Knows known.now ds → result ≡ by_directives now (Some ds) }
{
    lasts_to(now, known.fresh_duration()?)
}

// Until when a response that came at a moment is fresh.
fn fresh_until<F: FreshDurationByStatusFn>(
    now: Moment,
    known: &KnownDirectives<'_>,
    resp_header: &ResponseHeader,
    defaults: &CacheMetaDefaults<F>,
) -> Option<Moment>
    ensures { (ds : List Written) → Knows known.now ds
        → result ≡ fresh_until_of now (Some ds) resp_header.now false (status_lifetime F.duration defaults.now resp_header.now.status) }
{
    if known.forbids_storing() {
        return None;
    }
    if let Some(moment) = moment_by_directives(now, known) {
        return Some(moment);
    }
    if let Some(moment) = calculate_expires_header_time(resp_header) {
        return Some(moment);
    }
    lasts_to(now, defaults.fresh_sec(resp_header.status)?)
}

// For how many seconds a stale response may be served while it is validated, and on errors.
fn windows<F: FreshDurationByStatusFn>(
    known: &KnownDirectives<'_>,
    defaults: &CacheMetaDefaults<F>,
) -> (u32, u32)
    ensures revalidate { (ds : List Written) → Knows known.now ds → result.0 ≡ revalidate_window (Some ds) defaults.now.stale_while_revalidate_sec }
    ensures error { (ds : List Written) → Knows known.now ds → result.1 ≡ error_window (Some ds) defaults.now.stale_if_error_sec }
{
    let revalidate = known.serve_stale_while_revalidate_duration();
    let error = known.serve_stale_if_error_duration();
    (
        seconds_or(revalidate, defaults.stale_while_revalidate_sec),
        seconds_or(error, defaults.stale_if_error_sec),
    )
}

/// Returns whether the response to a request without Authorization that came at `now` is kept, and with which meta, by its
/// own lines: as `resp_cacheable` does by their directives. Memory is taken only where `private` or `no-cache` lists fields.
///
/// # Errors
///
/// `AllocError` where there is no memory for the directives.
pub fn resp_cacheable_by_lines<F: FreshDurationByStatusFn>(
    alloc: Global,
    now: Moment,
    resp_header: ResponseHeader,
    defaults: &CacheMetaDefaults<F>,
) -> Result<RespCacheable, AllocError>
    ensures verdict { IfOk result (λ v. v ≡ verdict_by now (named (lines_under (codes "cache-control") resp_header.headers)) resp_header false F.duration defaults.now) }
    ensures memory { OnErr result ((ds : List Written) × (named (lines_under (codes "cache-control") resp_header.headers) ≡ Some ds) × (lists_fields ds ≡ true)) }
{
    let Some(known) = KnownDirectives::from_resp_headers(&resp_header) else {
        return Ok(resp_cacheable(now, None, resp_header, false, defaults));
    };
    if known.lists_fields() {
        let control = CacheControl::from_resp_headers(alloc, &resp_header)?;
        return Ok(resp_cacheable(now, control.as_ref(), resp_header, false, defaults));
    }
    let Some(until) = fresh_until(now, &known, &resp_header, defaults) else {
        return Ok(RespCacheable::Uncacheable(NoCacheReason::OriginNotCache));
    };
    let (revalidate, error) = windows(&known, defaults);
    let meta = CacheMeta::new(until, now, revalidate, error, resp_header);
    Ok(RespCacheable::Cacheable(meta))
}
