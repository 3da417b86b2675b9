//! The names of header lines.
ghost use Rattle.std.specs.Prelude.{◌≡◌, ◌≢◌, ◌≤◌, length, Err, IfOk, OnOk, IfSome, OnSome};
ghost use Rattle.http_header.specs.Token.{lowercase};
ghost use Rattle.http_header.specs.FieldName.{IsFieldName};

use crate::head::HeadFault;
use http_header::{
    ACCEPT_RANGES, AGE, CACHE_CONTROL, CONNECTION, CONTENT_LENGTH, CONTENT_TYPE, DATE, ETAG,
    EXPIRES, HeaderName, HeaderNameError, LAST_MODIFIED, SERVER, VARY,
};
use std::alloc::Global;

// The name in lower case, as it is given, if a name is written like the text.
fn as_written(name: &[u8], text: &[u8], lower: HeaderName) -> Option<HeaderName>
    requires lower { lower ≡ lowercase text.now }
    requires short { length text.now ≤ 65535 }
    ensures value { IfSome result (λ usual. usual ≡ lowercase name.now) }
    ensures short { OnSome result (length name.now ≤ 65535) }
{
    if name == text { Some(lower) } else { None }
}

// The name in lower case, if it is one that most heads have, as most servers write it: then no other is tried.
fn usual_name(name: &[u8]) -> Option<HeaderName>
    ensures value { IfSome result (λ usual. usual ≡ lowercase name.now) }
    ensures short { OnSome result (length name.now ≤ 65535) }
{
    match name.len() {
        3 => as_written(name, b"Age", AGE),
        4 => match name[0] {
            b'D' => as_written(name, b"Date", DATE),
            b'E' => as_written(name, b"ETag", ETAG),
            _ => as_written(name, b"Vary", VARY),
        },
        6 => as_written(name, b"Server", SERVER),
        7 => as_written(name, b"Expires", EXPIRES),
        10 => as_written(name, b"Connection", CONNECTION),
        12 => as_written(name, b"Content-Type", CONTENT_TYPE),
        13 => match name[0] {
            b'A' => as_written(name, b"Accept-Ranges", ACCEPT_RANGES),
            b'C' => as_written(name, b"Cache-Control", CACHE_CONTROL),
            _ => as_written(name, b"Last-Modified", LAST_MODIFIED),
        },
        14 => as_written(name, b"Content-Length", CONTENT_LENGTH),
        _ => None,
    }
}

// The name of a line, in lower case.
pub(crate) fn name_of(alloc: Global, name: &[u8]) -> Result<HeaderName, HeadFault>
    ensures value { IfOk result (λ lower. lower ≡ lowercase name.now) }
    ensures short { OnOk result (length name.now ≤ 65535) }
    ensures bounds { result ≡ Err HeadFault.Bounds → ¬ (IsFieldName name.now) }
    ensures read { result ≢ Err HeadFault.Refused }
    ensures room { result ≢ Err HeadFault.TooLong }
{
    if let Some(usual) = usual_name(name) {
        return Ok(usual);
    }
    match HeaderName::from_bytes(alloc, name) {
        Ok(name) => Ok(name),
        Err(HeaderNameError::Invalid) => Err(HeadFault::Bounds),
        Err(HeaderNameError::OutOfMemory) => Err(HeadFault::Memory),
    }
}
