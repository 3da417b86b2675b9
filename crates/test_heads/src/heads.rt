//! Cases of heads: when the response came, whether its request had Authorization, the status,
//! whether there are defaults, the moments to look at, and the fields with their values in hex.
ghost use Rattle.test_heads.specs.ByStatus.{by_status};

use crate::fields::add;
use crate::words::{list_or_dash, push_word};
use cache_heads::RespCacheable;
use cache_heads::filters::resp_cacheable;
use cache_heads::meta::{CacheMeta, CacheMetaDefaults, FreshDurationByStatusFn};
use cache_words::time::{Duration, Moment};
use head_directives::CacheControl;
use head_lines::ResponseHeader;
use http::StatusCode;
use http_header::HeaderMap;
use std::alloc::{AllocError, Global};

// 10 seconds for 200, 5 for 404, none for 206, else 1; or none at all.
#[derive(Drop)]
struct ByStatus {
    is_on: bool,
}

impl FreshDurationByStatusFn for ByStatus {
    ghost duration = { by_status };

    fn fresh_duration(&self, status: StatusCode) -> Option<Duration> {
        if !self.is_on {
            return None;
        }
        match status.as_u16() {
            200 => Some(Duration::from_seconds(10)),
            404 => Some(Duration::from_seconds(5)),
            206 => None,
            _ => Some(Duration::from_seconds(1)),
        }
    }
}

/// What is kept of a case.
pub fn outcome(alloc: Global, case: &str) -> Result<String, AllocError> {
    let mut words = case.split_whitespace();
    let (Some(at), Some(auth), Some(status)) = (words.next(), words.next(), words.next()) else {
        return String::from_str(alloc, "?");
    };
    let (Some(on), Some(times), Some(fields)) = (words.next(), words.next(), words.next()) else {
        return String::from_str(alloc, "?");
    };
    let Ok(status) = StatusCode::from_bytes(status.as_bytes()) else {
        return String::from_str(alloc, "?");
    };
    let header = ResponseHeader {
        status,
        headers: headers(alloc, fields)?,
    };
    match judged(alloc, moment(at), header, auth == "1", on == "1")? {
        RespCacheable::Cacheable(meta) => shown(alloc, &meta, times),
        RespCacheable::Uncacheable(reason) => String::from_str(alloc, reason.as_str()),
    }
}

fn judged(
    alloc: Global,
    at: Moment,
    header: ResponseHeader,
    auth: bool,
    is_on: bool,
) -> Result<RespCacheable, AllocError> {
    let control = CacheControl::from_resp_headers(alloc, &header)?;
    let error: u32 = if is_on { 2_147_483_647 } else { 0 };
    let defaults = CacheMetaDefaults::new(ByStatus { is_on }, 0, error);
    Ok(resp_cacheable(at, control.as_ref(), header, auth, &defaults))
}

fn headers(alloc: Global, fields: &str) -> Result<HeaderMap, AllocError> {
    let mut all = HeaderMap::new(alloc);
    for field in fields.split(';') {
        if let Some((name, value)) = field.split_once(':') {
            add(alloc, &mut all, name, value)?;
        }
    }
    Ok(all)
}

// The end of freshness, the windows and the lifetime, what holds at the moments, and the fields.
fn shown(alloc: Global, meta: &CacheMeta, times: &str) -> Result<String, AllocError> {
    let until = meta.fresh_until().seconds();
    let revalidate = meta.stale_while_revalidate_sec();
    let error = meta.stale_if_error_sec();
    let fresh_sec = meta.fresh_sec();
    let served = served(alloc, meta, times)?;
    let fields = fields(alloc, meta)?;
    format!(in alloc; "until={until} {revalidate} {error} {fresh_sec} {served} {fields}")
}

fn fields(alloc: Global, meta: &CacheMeta) -> Result<String, AllocError> {
    let mut names = String::new(alloc);
    for name in meta.headers().keys() {
        push_word(&mut names, ',', name.as_str())?;
    }
    list_or_dash(alloc, names)
}

// A digit for each moment: whether the response is fresh, may be served while it is validated, and
// on errors.
fn served(alloc: Global, meta: &CacheMeta, times: &str) -> Result<String, AllocError> {
    let mut fresh = String::new(alloc);
    let mut revalidate = String::new(alloc);
    let mut error = String::new(alloc);
    for time in times.split(',') {
        let time = moment(time);
        fresh.push(digit(meta.is_fresh(time)))?;
        revalidate.push(digit(meta.serve_stale_while_revalidate(time)))?;
        error.push(digit(meta.serve_stale_if_error(time)))?;
    }
    format!(in alloc; "{fresh} {revalidate} {error}")
}

fn moment(time: &str) -> Moment {
    Moment::from_seconds(time.parse::<i64>().unwrap_or(0))
}

fn digit(flag: bool) -> char {
    if flag { '1' } else { '0' }
}
