//! Which responses are stored, and what their bodies weigh.
ghost use Rattle.std.specs.Prelude.{◌≡◌, IfOk};
ghost use Rattle.head_metas.specs.Internal.{IsWritable};
ghost use Rattle.head_parse.specs.Response.{Reading, IsReading};
ghost use Rattle.tier_model.specs.Response.{judged, whole_of, whole_with};
ghost use Rattle.tier_model.specs.Rows.{weight_for};
ghost use Rattle.tier_served.specs.Known.{kept_meta, stored_weight};

use bytes::Bytes;
use cache_heads::filters::resp_cacheable_by_lines;
use cache_heads::meta::NeverByStatus;
use cache_heads::{CacheMeta, CacheMetaDefaults, RespCacheable};
use cache_words::time::Moment;
use head_lines::ResponseHeader;
use head_parse::{Parsed, Response, read_response};
use std::alloc::{AllocError, Global};

// The meta with which a response is kept that comes at a moment with that head; none where it isn't kept.
fn kept_meta(
    alloc: Global,
    moment: Moment,
    header: ResponseHeader,
) -> Result<Option<CacheMeta>, AllocError>
    ensures { IfOk result (λ meta. meta ≡ kept_meta (judged moment header)) }
{
    let defaults = CacheMetaDefaults {
        fresh_sec_fn: NeverByStatus,
        stale_while_revalidate_sec: 0,
        stale_if_error_sec: 0,
    };
    match resp_cacheable_by_lines(alloc, moment, header, &defaults)? {
        RespCacheable::Uncacheable(_) => Ok(None),
        RespCacheable::Cacheable(meta) => {
            if moment.is_before_epoch() || meta.fresh_until().is_before_epoch() {
                return Ok(None);
            }
            Ok(Some(meta))
        }
    }
}

// What a body weighs with its meta and what it has outside. A weight that can't be counted is of bytes that no memory holds.
fn weight_for(body: &Bytes, meta: &CacheMeta) -> Result<usize, AllocError>
    requires { IsWritable meta.now.internal }
    ensures { IfOk result (λ n. n ≡ weight_for (record { bytes = body.now; meta = meta.now })) }
{
    let Some(written) = meta.written_len() else {
        return Err(AllocError);
    };
    let Some(beside) = (meta.external as usize).checked_add(written) else {
        return Err(AllocError);
    };
    let Some(size) = body.len().checked_add(beside) else {
        return Err(AllocError);
    };
    Ok(size.max(1))
}

// What the body of a whole response weighs, where it is stored.
fn weight_of(alloc: Global, moment: Moment, whole: Response) -> Result<Option<usize>, AllocError>
    ensures { IfOk result (λ n. n ≡ stored_weight (whole_with whole.body (judged moment whole.header))) }
{
    match kept_meta(alloc, moment, whole.header)? {
        Some(meta) => Ok(Some(weight_for(&whole.body, &meta)?)),
        None => Ok(None),
    }
}

// What the body weighs that a response gives which comes at a moment, where it is stored.
pub(crate) fn stored_weight(
    alloc: Global,
    moment: Moment,
    response: &Bytes,
) -> Result<Option<usize>, AllocError>
    ensures { IfOk result (λ n. (r : Reading) × IsReading response.now r × (n ≡ stored_weight (whole_of moment r))) }
{
    match read_response(alloc, response.clone()?)? {
        Parsed::Complete(whole) => weight_of(alloc, moment, whole),
        Parsed::Incomplete(_) | Parsed::BadHead => Ok(None),
    }
}
