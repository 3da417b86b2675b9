//! Responses with what their caller says of them, whatever their own lines say.
ghost use Rattle.std.specs.Prelude.{◌≡◌, IfOk};
ghost use Rattle.tier_model.specs.Response.{given_too_early, renewal_too_early, has_own_body, is_answered, meta_given, joined};
ghost use Rattle.tier_single.specs.Given.{IsAsGiven, IsRenewedAsGiven, IsWholeGiven};

use bytes::Bytes;
use cache_heads::meta::{InternalMetaV2, ResponseHeader};
use cache_heads::{CacheMeta, GivenMeta};
use head_parse::{Split, split_response};
use http::StatusCode;
use std::alloc::{AllocError, Global};
use tier_model::event::TierFault;
use tier_requests::faults::out_of_memory;

// Whether one of the moments that are given lies before 1970.
fn is_too_early(given: &GivenMeta) -> bool
    ensures { result ≡ given_too_early given.now }
{
    given.fresh_until.is_before_epoch()
        || given.created.is_before_epoch()
        || given.updated.is_before_epoch()
        || given.provenance.is_before_epoch()
}

// Whether one of those that count in a renewal does.
fn is_renewal_too_early(given: &GivenMeta) -> bool
    ensures { result ≡ renewal_too_early given.now }
{
    given.fresh_until.is_before_epoch() || given.updated.is_before_epoch()
}

// Whether a response of that status is final and speaks of its own body.
fn has_own_body(status: StatusCode) -> bool
    ensures { result ≡ has_own_body status }
{
    let code = status.as_u16();
    200 <= code && code != 304
}

// Whether one of that status is answered.
pub(crate) fn is_answered(status: StatusCode) -> bool
    ensures { result ≡ is_answered status }
{
    has_own_body(status) && status.as_u16() < 600
}

// The meta of a header as it is given. The header is kept whole.
fn meta_given(given: GivenMeta, header: ResponseHeader) -> CacheMeta
    ensures { result ≡ meta_given given header }
{
    CacheMeta {
        internal: InternalMetaV2 {
            fresh_until: given.fresh_until,
            created: given.created,
            updated: given.updated,
            stale_while_revalidate_sec: given.stale_while_revalidate_sec,
            stale_if_error_sec: given.stale_if_error_sec,
            variance: None,
            epoch_override: None,
            provenance: Some(given.provenance),
        },
        header,
        external: given.external(),
    }
}

// What is stored of a header as it is given.
pub(crate) fn as_given(given: GivenMeta, header: ResponseHeader) -> Result<CacheMeta, TierFault>
    ensures { IsAsGiven given header result }
{
    if !has_own_body(header.status) {
        return Err(TierFault::BadHead);
    }
    if is_too_early(&given) {
        return Err(TierFault::BeforeEpoch);
    }
    Ok(meta_given(given, header))
}

// What renews a meta, as it is given.
pub(crate) fn renewed_as_given(
    given: GivenMeta,
    header: ResponseHeader,
) -> Result<CacheMeta, TierFault>
    ensures { IsRenewedAsGiven given header result }
{
    if is_renewal_too_early(&given) {
        return Err(TierFault::BeforeEpoch);
    }
    Ok(meta_given(given, header))
}

// A whole response with its given meta.
#[derive(Drop)]
pub(crate) struct WholeGiven {
    pub(crate) meta: CacheMeta,
    // All that comes after the head, whatever that announces.
    pub(crate) body: Bytes,
}

// The bytes of the pieces, copied.
fn copied(alloc: Global, pieces: &[Bytes]) -> Result<Vec<u8>, AllocError>
    ensures { IfOk result (λ bytes. bytes.items ≡ joined pieces.now) }
{
    let mut bytes = Vec::new(alloc);
    for piece in pieces {
        bytes.extend_from_slice(piece.as_slice())?;
    }
    Ok(bytes)
}

// The bytes of the pieces; those of a single one are shared.
fn all_bytes(alloc: Global, pieces: &[Bytes]) -> Result<Bytes, AllocError>
    ensures { IfOk result (λ bytes. bytes ≡ joined pieces.now) }
{
    if let [piece] = pieces {
        return piece.clone();
    }
    let bytes = copied(alloc, pieces)?;
    Ok(Bytes::from_vec(bytes)?)
}

// What the pieces of a response give with a given meta.
pub(crate) fn whole_given(
    alloc: Global,
    given: GivenMeta,
    pieces: &[Bytes],
) -> Result<WholeGiven, TierFault>
    ensures { IsWholeGiven given (joined pieces.now) result }
{
    let Ok(bytes) = all_bytes(alloc, pieces) else {
        return Err(out_of_memory(alloc));
    };
    let Ok(split) = split_response(alloc, bytes) else {
        return Err(out_of_memory(alloc));
    };
    match split {
        Split::Head(response) => match as_given(given, response.header) {
            Ok(meta) => Ok(WholeGiven {
                meta,
                body: response.body,
            }),
            Err(fault) => Err(fault),
        },
        Split::Begun => Err(TierFault::Incomplete),
        Split::BadHead => Err(TierFault::BadHead),
    }
}
