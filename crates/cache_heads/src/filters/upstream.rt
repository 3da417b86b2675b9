//! What a shared cache sends to the origin.
ghost use Rattle.std.specs.Prelude.{◌≡◌, IsOk, IsErrOf, IsNone, OnOk, OnErr, IfOk, option_map, option_copied};
ghost use Rattle.http_header.specs.HeaderMap.{RefusesInsert};
ghost use Rattle.cache_heads.specs.Requests.{method_sent, unconditional, fields_sent, with_value, with_validators, RefusesValidators, LacksRoom};

use crate::meta::CacheMeta;
use head_lines::RequestHeader;
use http::Method;
use http_header::{
    ETAG, HeaderMap, HeaderMapError, HeaderName, HeaderValue, IF_MATCH, IF_MODIFIED_SINCE,
    IF_NONE_MATCH, IF_RANGE, IF_UNMODIFIED_SINCE, LAST_MODIFIED, RANGE,
};
use std::alloc::AllocError;

/// Makes a client's request the one that the cache sends on: HEAD becomes GET, and the client's
/// conditions and range are removed, since the cache keeps whole responses. With a meta the request
/// validates that response, by its Last-Modified and ETag (RFC 9111, 4.3.1).
///
/// # Errors
///
/// `MaxSizeReached` where the request has no room for the conditions, `OutOfMemory` when out of
/// memory. The request is then unchanged. Neither comes without a meta.
pub fn request_filter(
    req: &mut RequestHeader,
    meta: Option<&CacheMeta>,
) -> Result<(), HeaderMapError>
    ensures method { OnOk result (req.new.method ≡ method_sent req.old.method) }
    ensures fields { OnOk result (req.new.headers ≡ fields_sent req.old.headers (option_map (λ m. m.now.header.headers) meta.entry)) }
    ensures err { OnErr result (req.new ≡ req.old) }
    ensures alone { IsNone meta.entry → IsOk result }
    ensures full { IsErrOf result HeaderMapError.MaxSizeReached → LacksRoom req.old.headers (option_map (λ m. m.now.header.headers) meta.entry) }
{
    send_fields(&mut req.headers, meta)?;
    send_method(&mut req.method);
    Ok(())
}

// Makes HEAD a GET.
fn send_method(method: &mut Method)
    ensures { method.new ≡ method_sent method.old }
{
    if *method == Method::HEAD {
        *method = Method::GET;
    }
}

// Makes these the fields that are sent on. What can fail works on a copy, which shares its values,
// so that an error leaves the fields unchanged.
fn send_fields(headers: &mut HeaderMap, meta: Option<&CacheMeta>) -> Result<(), HeaderMapError>
    ensures fields { OnOk result (headers.new ≡ fields_sent headers.old (option_map (λ m. m.now.header.headers) meta.entry)) }
    ensures err { OnErr result (headers.new ≡ headers.old) }
    ensures alone { IsNone meta.entry → IsOk result }
    ensures full { IsErrOf result HeaderMapError.MaxSizeReached → LacksRoom headers.old (option_map (λ m. m.now.header.headers) meta.entry) }
{
    match meta {
        None => {
            remove_conditions(headers);
            Ok(())
        }
        Some(meta) => {
            *headers = validating(headers, meta.headers())?;
            Ok(())
        }
    }
}

// A copy of the fields, with conditions from the fields of a kept response.
fn validating(headers: &HeaderMap, kept: &HeaderMap) -> Result<HeaderMap, HeaderMapError>
    ensures ok { IfOk result (λ sent. sent ≡ with_validators (unconditional headers.now) kept.now) }
    ensures full { IsErrOf result HeaderMapError.MaxSizeReached → RefusesValidators (unconditional headers.now) kept.now }
{
    let mut sent = unconditional_copy(headers)?;
    add_validators(&mut sent, kept)?;
    Ok(sent)
}

// A copy of the fields, without the client's conditions and range.
fn unconditional_copy(headers: &HeaderMap) -> Result<HeaderMap, AllocError>
    ensures { IfOk result (λ copy. copy ≡ unconditional headers.now) }
{
    let mut copy = headers.clone()?;
    remove_conditions(&mut copy);
    Ok(copy)
}

// Removes the client's conditions and range.
#[tactic(auto, unfolding(crate::specs::Requests::unconditional))]
fn remove_conditions(headers: &mut HeaderMap)
    ensures { headers.new ≡ unconditional headers.old }
{
    let _ = headers.remove(IF_MATCH);
    let _ = headers.remove(IF_NONE_MATCH);
    let _ = headers.remove(IF_MODIFIED_SINCE);
    let _ = headers.remove(IF_UNMODIFIED_SINCE);
    let _ = headers.remove(IF_RANGE);
    let _ = headers.remove(RANGE);
}

// Adds conditions from the fields of a kept response.
fn add_validators(headers: &mut HeaderMap, kept: &HeaderMap) -> Result<(), HeaderMapError>
    ensures ok { OnOk result (headers.new ≡ with_validators headers.old kept.now) }
    ensures full { IsErrOf result HeaderMapError.MaxSizeReached → RefusesValidators headers.old kept.now }
{
    set_field(headers, IF_MODIFIED_SINCE, kept.get(LAST_MODIFIED))?;
    set_field(headers, IF_NONE_MATCH, kept.get(ETAG))
}

// Sets the field to the value, where there is one.
fn set_field(
    headers: &mut HeaderMap,
    name: HeaderName,
    value: Option<&HeaderValue>,
) -> Result<(), HeaderMapError>
    ensures ok { OnOk result (headers.new ≡ with_value headers.old name (option_copied value.entry)) }
    ensures full { IsErrOf result HeaderMapError.MaxSizeReached → RefusesInsert headers.old name }
{
    match value {
        None => Ok(()),
        Some(value) => {
            headers.insert(name, value.clone()?)?;
            Ok(())
        }
    }
}
