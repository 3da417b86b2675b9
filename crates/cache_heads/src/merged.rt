//! A response after the stale one of its key: what it takes from it, and the stale head that
//! upstream confirms.
ghost use Rattle.std.specs.Prelude.{◌≡◌, IsTrue, IfOk, OnOk, IsErrOf};
ghost use Rattle.http_header.specs.FieldName.{is_field_name};
ghost use Rattle.http_header.specs.HeaderMap.{append, get_all, RefusesAppend};
ghost use Rattle.http_header.specs.Token.{lowercase};
ghost use Rattle.cache_heads.specs.Merged.{with_provenance_of, renewed_from, renewed_names, with_values, merged, PassesCount, Outgrows};

use crate::meta::{CacheMeta, ResponseHeader};
use http_header::{HeaderMap, HeaderMapError, HeaderValue};

// Adds a copy of a value to those under a name.
fn append_copy(
    headers: &mut HeaderMap,
    name: &'static str,
    value: &HeaderValue,
) -> Result<(), HeaderMapError>
    requires { IsTrue (is_field_name name.now) }
    ensures ok { OnOk result (headers.new ≡ append headers.old (lowercase name.now) value.now) }
    ensures full { IsErrOf result HeaderMapError.MaxSizeReached → RefusesAppend headers.old (lowercase name.now) }
{
    let Ok(value) = value.clone() else {
        return Err(HeaderMapError::OutOfMemory);
    };
    headers.append(name, value)?;
    Ok(())
}

// Puts copies of the values that were sent under a name in the place of those before, if any were sent.
fn put_values(
    headers: &mut HeaderMap,
    sent: &HeaderMap,
    name: &'static str,
) -> Result<(), HeaderMapError>
    requires { IsTrue (is_field_name name.now) }
    ensures ok { OnOk result (headers.new ≡ with_values (lowercase name.now) (get_all sent.now (lowercase name.now)) headers.old) }
    ensures full { IsErrOf result HeaderMapError.MaxSizeReached → PassesCount (with_values (lowercase name.now) (get_all sent.now (lowercase name.now)) headers.old) }
{
    let mut values = sent.get_all(name).iter();
    let Some(first) = values.next() else {
        return Ok(());
    };
    let Ok(first) = first.clone() else {
        return Err(HeaderMapError::OutOfMemory);
    };
    headers.insert(name, first)?;
    for value in values {
        append_copy(headers, name, value)?;
    }
    Ok(())
}

/// Returns the head of a stale response with the fields that the response sent which confirms it.
///
/// # Errors
///
/// Out of memory; and `MaxSizeReached`, only where the head gets more names or more values than it can count.
pub fn merged_head(
    meta: &CacheMeta,
    sent: &ResponseHeader,
) -> Result<ResponseHeader, HeaderMapError>
    ensures ok { IfOk result (λ header. header ≡ merged meta.now.header sent.now) }
    ensures full { IsErrOf result HeaderMapError.MaxSizeReached → Outgrows sent.now.headers renewed_names meta.now.header.headers }
{
    let Ok(mut header) = meta.response_header_copy() else {
        return Err(HeaderMapError::OutOfMemory);
    };
    put_values(&mut header.headers, &sent.headers, "cache-control")?;
    put_values(&mut header.headers, &sent.headers, "expires")?;
    put_values(&mut header.headers, &sent.headers, "cache-tag")?;
    put_values(&mut header.headers, &sent.headers, "cdn-cache-control")?;
    put_values(&mut header.headers, &sent.headers, "etag")?;
    Ok(header)
}

/// Returns the meta of a new response, with the provenance of the one before, where there is one.
pub fn with_provenance_of(old: &Option<CacheMeta>, mut meta: CacheMeta) -> CacheMeta
    ensures { result ≡ with_provenance_of old.now meta }
{
    if let Some(old) = old {
        meta.set_provenance(old.provenance());
    }
    meta
}

/// Returns a new meta with the moment of creation, the provenance and what is outside of the one
/// before, whose body it gets.
pub fn renewed_from(old: &Option<CacheMeta>, mut meta: CacheMeta) -> CacheMeta
    ensures { result ≡ renewed_from old.now meta }
{
    if let Some(old) = old {
        meta.internal.created = old.created();
        meta.set_provenance(old.provenance());
        meta.external = old.external;
    }
    meta
}
