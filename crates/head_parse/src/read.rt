//! Whole responses, and heads alone.
ghost use Rattle.std.specs.Prelude.{◌≡◌, Some, None, Err, IfOk};
ghost use Rattle.head_parse.specs.Response.{Gives, Reading, IsReading, head_of, Splits};

use crate::body::parsed_by_header;
use crate::front::{Front, read_front};
use crate::response::{Parsed, Response, Split};
use bytes::Bytes;
use head_lines::ResponseHeader;
use std::alloc::{AllocError, Global};

/// Reads a response whose bytes have all come. httparse is asked with its default options and, where these refuse the bytes,
/// with spaces after names and folded lines allowed. Under 204 and 304 the body is empty, else the first Content-Length sets
/// its length in bytes, and where none can be read the body is all that comes after the head. It is shared, not copied; bytes
/// after it are ignored.
///
/// # Errors
///
/// `AllocError` where memory runs out.
pub fn read_response(alloc: Global, bytes: Bytes) -> Result<Parsed, AllocError>
    ensures { IfOk result (Gives bytes) }
{
    match read_front(alloc, bytes.as_slice())? {
        Front::Found(head) => {
            let mut rest = bytes;
            rest.advance(head.len);
            Ok(parsed_by_header(head.header, rest))
        }
        Front::Begun => Ok(Parsed::Incomplete(None)),
        Front::Refused => Ok(Parsed::BadHead),
    }
}

/// Why bytes aren't read as a head alone.
#[derive(Clone, Copy, PartialEq, Eq, Debug)]
pub enum ReadHeadFault {
    /// The bytes are no head, the beginning of one, one that is out of bounds (see [`Parsed::BadHead`]), or a head with bytes
    /// after it.
    BadHead,
    /// Memory ran out.
    Memory,
}

impl From<AllocError> for ReadHeadFault {
    ghost use Rattle.std.specs.Prelude.{◌≡◌};
    ghost use Rattle.head_parse.specs.declared.read.ReadHeadFault.TheVariants.{Memory};

    ghost from_gives = { λ _ fault. fault ≡ Memory };

    fn from(_error: AllocError) -> ReadHeadFault {
        ReadHeadFault::Memory
    }
}

/// Reads bytes that are exactly one head: whole, within bounds, and with nothing after it. Empty lines may come before it. The
/// parser is asked as by [`read_response`].
///
/// # Errors
///
/// `ReadHeadFault::BadHead` where the bytes are anything else; `ReadHeadFault::Memory` where memory runs out.
pub fn read_head(alloc: Global, bytes: &[u8]) -> Result<ResponseHeader, ReadHeadFault>
    ensures head { IfOk result (λ head. (r : Reading) × IsReading bytes.now r × (head_of r ≡ Some head)) }
    ensures bad { result ≡ Err ReadHeadFault.BadHead → (r : Reading) × IsReading bytes.now r × (head_of r ≡ None) }
{
    match read_front(alloc, bytes)? {
        Front::Found(head) => {
            if head.len < bytes.len() {
                return Err(ReadHeadFault::BadHead);
            }
            Ok(head.header)
        }
        Front::Begun => Err(ReadHeadFault::BadHead),
        Front::Refused => Err(ReadHeadFault::BadHead),
    }
}

/// Reads the head at the front of a response, and takes all the bytes after it as the body, whatever the head announces.
///
/// # Errors
///
/// `AllocError` where memory runs out.
pub fn split_response(alloc: Global, bytes: Bytes) -> Result<Split, AllocError>
    ensures { IfOk result (Splits bytes) }
{
    match read_front(alloc, bytes.as_slice())? {
        Front::Found(head) => {
            let mut body = bytes;
            body.advance(head.len);
            Ok(Split::Head(Response {
                header: head.header,
                body,
            }))
        }
        Front::Begun => Ok(Split::Begun),
        Front::Refused => Ok(Split::BadHead),
    }
}
