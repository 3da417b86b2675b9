//! What a shared cache does with requests and responses.
ghost use Rattle.std.specs.Prelude.{◌≡◌, ◌⊎◌, ◌↔◌, IsTrue, OnOk, OnErr, option_map, option_copied, unwrap_or, codes};
ghost use Rattle.cache_words.specs.Time.{MomentValue};
ghost use Rattle.head_directives.specs.Control.{directives_of, lines_under};
ghost use Rattle.head_directives.specs.Lifetime.{allows_authorized, forbids_storing};
ghost use Rattle.cache_heads.specs.Defaults.{status_lifetime};
ghost use Rattle.cache_heads.specs.Directives.{directives_in};
ghost use Rattle.cache_heads.specs.FreshUntil.{lasts_to, by_directives, by_expires, trimmed, holds_of, is_barred, fresh_until_of};
ghost use Rattle.cache_heads.specs.Stale.{in_range, window, revalidate_window, error_window};
ghost use Rattle.cache_heads.specs.Verdict.{verdict_by, kept_header};

mod by_lines;
pub mod upstream;

use crate::defaults::{CacheMetaDefaults, FreshDurationByStatusFn};
use crate::meta::CacheMeta;
use crate::reason::{NoCacheReason, RespCacheable};
pub use by_lines::resp_cacheable_by_lines;
use cache_words::time::{Duration, Moment};
use head_directives::{
    CacheControl, Cacheable, DELTA_SECONDS_OVERFLOW_VALUE, InterpretCacheControl,
};
use head_lines::{RequestHeader, ResponseHeader};
use http::Method;
use httpdate::HttpDate;

/// Returns whether the response to a request may be stored by the request's method: GET or HEAD,
/// of the methods that RFC 9110, 9.2.3, allows.
pub fn request_cacheable(req_header: &RequestHeader) -> bool
    ensures { IsTrue result ↔ ((req_header.now.method ≡ codes "GET") ⊎ (req_header.now.method ≡ codes "HEAD")) }
{
    req_header.method == Method::GET || req_header.method == Method::HEAD
}

/// Returns whether a response that came at `now` is kept, and with which meta. `cache_control` has
/// its directives; `authorization_present` says that its request had Authorization.
pub fn resp_cacheable<F: FreshDurationByStatusFn>(
    now: Moment,
    cache_control: Option<&CacheControl>,
    resp_header: ResponseHeader,
    authorization_present: bool,
    defaults: &CacheMetaDefaults<F>,
) -> RespCacheable
    ensures { result ≡ verdict_by now (directives_in cache_control.entry) resp_header authorization_present F.duration defaults.now }
{
    let until = calculate_fresh_until(
        now,
        cache_control,
        &resp_header,
        authorization_present,
        defaults,
    );
    let Some(fresh_until) = until else {
        return RespCacheable::Uncacheable(NoCacheReason::OriginNotCache);
    };
    let (revalidate, error) = calculate_serve_stale_durations(cache_control, defaults);
    let header = kept_header(cache_control, resp_header);
    RespCacheable::Cacheable(CacheMeta::new(fresh_until, now, revalidate, error, header))
}

/// Returns until when a response that came at `now` is fresh: by its directives, else by Expires,
/// else by its status (RFC 9111, 4.2.1). `None` where none of these gives a moment, and where the
/// response may not be stored (RFC 9111, 3 and 3.5).
pub fn calculate_fresh_until<F: FreshDurationByStatusFn>(
    now: Moment,
    cache_control: Option<&CacheControl>,
    resp_header: &ResponseHeader,
    authorization_present: bool,
    defaults: &CacheMetaDefaults<F>,
) -> Option<Moment>
    ensures { result ≡ fresh_until_of now (directives_in cache_control.entry) resp_header.now authorization_present (status_lifetime F.duration defaults.now resp_header.now.status) }
{
    if is_barred(cache_control, authorization_present) {
        return None;
    }
    if let Some(moment) = moment_by_directives(now, cache_control) {
        return Some(moment);
    }
    if let Some(moment) = calculate_expires_header_time(resp_header) {
        return Some(moment);
    }
    lasts_to(now, defaults.fresh_sec(resp_header.status)?)
}

/// Returns the moment that Expires gives, or 1970 where its value is no date, which counts as past
/// (RFC 9111, 5.3). White space around the value is no part of it. `None` without Expires, and
/// where it comes more than once: then it is ignored, as in the original.
pub fn calculate_expires_header_time(resp_header: &ResponseHeader) -> Option<Moment>
    ensures { result ≡ by_expires (lines_under (codes "expires") resp_header.now.headers) }
{
    let mut values = resp_header.headers.get_all("expires").iter();
    let value = values.next()?;
    if values.next().is_some() {
        return None;
    }
    match HttpDate::parse_ascii(trimmed(value.as_bytes())) {
        Ok(date) => Some(Moment::from_seconds(date.unix_secs() as i64)),
        Err(_) => Some(Moment::from_seconds(0)),
    }
}

/// Returns for how many seconds a stale response may be served while it is validated, and on
/// errors (RFC 5861): by its directives, else by the defaults. Seconds past `u32::MAX` count as
/// `DELTA_SECONDS_OVERFLOW_VALUE`.
pub fn calculate_serve_stale_durations<C: InterpretCacheControl, F: FreshDurationByStatusFn>(
    cache_control: Option<&C>,
    defaults: &CacheMetaDefaults<F>,
) -> (u32, u32)
    ensures revalidate { result.0 ≡ revalidate_window (option_map (λ c. C.directives c.now) cache_control.entry) defaults.now.stale_while_revalidate_sec }
    ensures error { result.1 ≡ error_window (option_map (λ c. C.directives c.now) cache_control.entry) defaults.now.stale_if_error_sec }
{
    let Some(control) = cache_control else {
        return (
            defaults.stale_while_revalidate_sec,
            defaults.stale_if_error_sec,
        );
    };
    let revalidate = control.serve_stale_while_revalidate_duration();
    let error = control.serve_stale_if_error_duration();
    (
        seconds_or(revalidate, defaults.stale_while_revalidate_sec),
        seconds_or(error, defaults.stale_if_error_sec),
    )
}

// The seconds of a window, else the default.
fn seconds_or(window: Option<Duration>, default: u32) -> u32
    ensures { result ≡ unwrap_or (option_map (λ d. in_range d.seconds) window) default }
{
    match window {
        None => default,
        Some(duration) => match u32::try_from(duration.seconds()) {
            Ok(seconds) => seconds,
            Err(_) => DELTA_SECONDS_OVERFLOW_VALUE,
        },
    }
}

// The bytes without the white space around them.
fn trimmed(value: &[u8]) -> &[u8]
    ensures { result.now ≡ trimmed value.now }
{
    value.trim_ascii()
}

// The moment a lifetime later; a lifetime of 0 gives the second before, so that the response is
// stale at once.
fn lasts_to(now: Moment, lifetime: Duration) -> Option<Moment>
    ensures { result ≡ lasts_to now lifetime }
{
    if lifetime.seconds() == 0 && lifetime.nanoseconds() == 0 {
        now.checked_sub(Duration::from_seconds(1))
    } else {
        now.checked_add(lifetime)
    }
}

// Whether the response may not be stored, however long it would be fresh.
fn is_barred(cache_control: Option<&CacheControl>, authorization_present: bool) -> bool
    ensures { result ≡ is_barred (directives_in cache_control.entry) authorization_present }
{
    match cache_control {
        None => authorization_present,
        Some(control) => {
            authorization_present && !control.allow_caching_authorized_req()
                || control.is_cacheable() == Cacheable::No
        }
    }
}

// The moment that the directives give.
fn moment_by_directives(now: Moment, cache_control: Option<&CacheControl>) -> Option<Moment>
    ensures { result ≡ by_directives now (directives_in cache_control.entry) }
{
    lasts_to(now, cache_control?.fresh_duration()?)
}

// The head that is kept: without the fields that the directives list.
fn kept_header(cache_control: Option<&CacheControl>, resp_header: ResponseHeader) -> ResponseHeader
    ensures { result ≡ kept_header resp_header (directives_in cache_control.entry) }
{
    let mut header = resp_header;
    if let Some(control) = cache_control {
        control.strip_private_headers(&mut header);
    }
    header
}
