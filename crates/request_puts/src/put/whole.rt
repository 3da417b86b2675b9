//! What the response of a put gives.

ghost use Rattle.std.specs.Prelude.{◌≡◌, ◌++◌, Option, ℕ, IfOk};
ghost use Rattle.cache_words.specs.Time.{MomentValue};
ghost use Rattle.head_lines.specs.declared.header.ResponseHeader.{ResponseHeader as Header};
ghost use Rattle.cache_heads.specs.declared.reason.RespCacheable.{RespCacheable as Verdict};
ghost use Rattle.head_parse.specs.Response.{Gives as IsParsed};
ghost use Rattle.head_parse.specs.Parse.{content_length};
ghost use Rattle.head_parse.specs.declared.response.Parsed.TheVariants.{Complete, Incomplete};
ghost use Rattle.request_puts.specs.Response.{joined, announces_past, judged, judged_short, whole_by, Gives};

use super::CachePut;
use bytes::Bytes;
use cache_heads::meta::ResponseHeader;
use cache_heads::{CacheMeta, NoCacheReason, RespCacheable};
use cache_store::max_file_size::MaxFileSizeTracker;
use cache_words::time::Moment;
use head_parse::{Parsed, Response, ResponseParse, Short, content_length};
use std::alloc::{AllocError, Global};

/// What the bytes of a response give, as far as a cache may keep it.
#[derive(Debug, Drop)]
pub enum ResponseVerdict {
    /// A body that may be kept.
    Cacheable {
        /// What is kept beside it.
        meta: CacheMeta,
        /// The body.
        body: Bytes,
    },
    /// A whole response that may not be kept.
    Uncacheable(NoCacheReason),
    /// The body is larger than the greatest size that is kept.
    TooLarge,
    /// The response ends too early.
    Incomplete,
    /// The bytes are no head, or one that is out of bounds.
    BadHead,
}

// What the pieces give, one after another. All are parsed, whatever the head says.
fn parsed(alloc: Global, pieces: &[Bytes]) -> Result<Parsed, AllocError>
    ensures { IfOk result (IsParsed (joined pieces.now)) }
{
    let mut parser = ResponseParse::new(alloc);
    for piece in pieces {
        let shared = piece.clone()?;
        parser.inject_data(shared)?;
    }
    parser.finish()
}

// Whether a header announces a body past the limit.
fn announces_past(limit: usize, header: &ResponseHeader) -> bool
    ensures { result ≡ announces_past (Some limit) (content_length header.now) }
{
    match content_length(header) {
        Some(announced) => announced > limit,
        None => false,
    }
}

// What a body gives that comes with a verdict on its header.
fn judged(limit: Option<usize>, verdict: RespCacheable, body: Bytes) -> ResponseVerdict
    ensures { result ≡ judged limit verdict body }
{
    let meta = match verdict {
        RespCacheable::Cacheable(meta) => meta,
        RespCacheable::Uncacheable(reason) => return ResponseVerdict::Uncacheable(reason),
    };
    let Some(limit) = limit else {
        return ResponseVerdict::Cacheable { meta, body };
    };
    if announces_past(limit, &meta.header) {
        return ResponseVerdict::Uncacheable(NoCacheReason::ResponseTooLarge);
    }
    let mut tracker = MaxFileSizeTracker::new(limit);
    if !tracker.add_body_bytes(body.len()) {
        return ResponseVerdict::TooLarge;
    }
    ResponseVerdict::Cacheable { meta, body }
}

// What a whole response gives.
fn whole_by<C: CachePut>(
    alloc: Global,
    cache_put: &mut C,
    limit: Option<usize>,
    moment: Moment,
    response: Response,
) -> Result<ResponseVerdict, AllocError>
    ensures whole { IfOk result (λ whole. whole ≡ whole_by limit (C.verdict cache_put.old moment) (Complete response)) }
    ensures verdict { C.verdict cache_put.new ≡ C.verdict cache_put.old }
{
    let Response { header, body } = response;
    cache_put.trace_header(&header);
    let verdict = cache_put.cacheable(alloc, moment, header)?;
    Ok(judged(limit, verdict, body))
}

// What a response gives that ends too early. A verdict is asked for only where its body is past the limit.
fn short_by<C: CachePut>(
    alloc: Global,
    cache_put: &mut C,
    limit: Option<usize>,
    moment: Moment,
    short: Option<Short>,
) -> Result<ResponseVerdict, AllocError>
    ensures whole { IfOk result (λ whole. whole ≡ whole_by limit (C.verdict cache_put.old moment) (Incomplete short)) }
    ensures verdict { C.verdict cache_put.new ≡ C.verdict cache_put.old }
{
    let Some(Short { header, len }) = short else {
        return Ok(ResponseVerdict::Incomplete);
    };
    cache_put.trace_header(&header);
    let Some(limit) = limit else {
        return Ok(ResponseVerdict::Incomplete);
    };
    if len <= limit {
        return Ok(ResponseVerdict::Incomplete);
    }
    match cache_put.cacheable(alloc, moment, header)? {
        RespCacheable::Cacheable(meta) if !announces_past(limit, &meta.header) => {
            Ok(ResponseVerdict::TooLarge)
        }
        _ => Ok(ResponseVerdict::Incomplete),
    }
}

// What the pieces of a response give that come at a moment.
pub(super) fn whole_of<C: CachePut>(
    alloc: Global,
    cache_put: &mut C,
    limit: Option<usize>,
    moment: Moment,
    pieces: &[Bytes],
) -> Result<ResponseVerdict, AllocError>
    ensures whole { IfOk result (Gives limit (C.verdict cache_put.old moment) (joined pieces.now)) }
    ensures verdict { C.verdict cache_put.new ≡ C.verdict cache_put.old }
{
    match parsed(alloc, pieces)? {
        Parsed::Complete(response) => whole_by(alloc, cache_put, limit, moment, response),
        Parsed::Incomplete(short) => short_by(alloc, cache_put, limit, moment, short),
        Parsed::BadHead => Ok(ResponseVerdict::BadHead),
    }
}
