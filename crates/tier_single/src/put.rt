//! Which responses the tier keeps.
ghost use Rattle.std.specs.Prelude.{◌≡◌, None, Some};
ghost use Rattle.cache_words.specs.Time.{MomentValue};
ghost use Rattle.tier_single.specs.Puts.{no_defaults, since_epoch, kept_by};
ghost use Rattle.head_lines.specs.declared.header.ResponseHeader.{ResponseHeader};
ghost use Rattle.tier_single.specs.Heads.{IsHeadIn, confirms, IsConfirming, IsVerdictOn, IsJudged, not_kept_by};

use crate::given::{as_given, is_answered};
use bytes::Bytes;
use cache_heads::meta::{NeverByStatus, ResponseHeader};
use cache_heads::{CacheMeta, CacheMetaDefaults, GivenMeta, NoCacheReason, RespCacheable};
use cache_words::time::Moment;
use head_parse::{ReadHeadFault, read_head};
use http::StatusCode;
use request_puts::put::{CachePut, cacheable_by_headers};
use std::alloc::{AllocError, Global};
use tier_model::event::TierFault;
use tier_requests::faults::out_of_memory;

// Keeps what a response's own lines allow, from 1970 on.
#[derive(Drop)]
pub(crate) struct ByLines;

// What is reported of a response that came before 1970, or is fresh only before it: that is known before the store is asked, which
// could not write such a moment either.
fn since_epoch(arrival: Moment, verdict: RespCacheable) -> RespCacheable
    ensures { result ≡ since_epoch arrival verdict }
{
    match verdict {
        RespCacheable::Uncacheable(reason) => RespCacheable::Uncacheable(reason),
        RespCacheable::Cacheable(meta) => {
            if arrival.is_before_epoch() || meta.fresh_until().is_before_epoch() {
                return RespCacheable::Uncacheable(NoCacheReason::StorageError);
            }
            RespCacheable::Cacheable(meta)
        }
    }
}

impl CachePut for ByLines {
    type Lifetimes = NeverByStatus;

    ghost defaults = { no_defaults };

    ghost verdict = { λ _ moment header. kept_by moment header };

    fn cacheable(
        &self,
        alloc: Global,
        moment: Moment,
        response: ResponseHeader,
    ) -> Result<RespCacheable, AllocError> {
        let verdict = cacheable_by_headers(alloc, moment, response, &ByLines::cache_defaults())?;
        Ok(since_epoch(moment, verdict))
    }

    fn cache_defaults() -> CacheMetaDefaults<NeverByStatus> {
        CacheMetaDefaults {
            fresh_sec_fn: NeverByStatus,
            stale_while_revalidate_sec: 0,
            stale_if_error_sec: 0,
        }
    }
}

// What is made of a head.
#[derive(Drop)]
pub(crate) enum Verdict {
    // The response is kept, with this meta.
    Kept(CacheMeta),
    // It may not be kept.
    NotKept(NoCacheReason),
}

// What is made of a head that renews what was found.
#[derive(Drop)]
pub(crate) enum Renewal {
    // The body has this meta, but for what stays the old one's.
    Renewed(CacheMeta),
    // The response may not be kept. Its header is that which was sent.
    NotRenewed(NoCacheReason, ResponseHeader),
}

// Reads the head of a response, with nothing after it.
pub(crate) fn head_in(alloc: Global, head: &Bytes) -> Result<ResponseHeader, TierFault>
    ensures { IsHeadIn head.now result }
{
    match read_head(alloc, head.as_slice()) {
        Ok(header) => Ok(header),
        Err(ReadHeadFault::BadHead) => Err(TierFault::BadHead),
        Err(ReadHeadFault::Memory) => Err(out_of_memory(alloc)),
    }
}

// Whether a head of that status confirms what is stored: a 304, or, with a given meta, one that is answered.
fn confirms(is_given: bool, status: StatusCode) -> bool
    ensures { (header : ResponseHeader) → header.status ≡ status → result ≡ confirms is_given (Some header) }
{
    if is_given {
        is_answered(status)
    } else {
        status == StatusCode::NOT_MODIFIED
    }
}

// Reads a head that confirms what is stored.
pub(crate) fn confirming(
    alloc: Global,
    is_given: bool,
    head: &Bytes,
) -> Result<ResponseHeader, TierFault>
    ensures { IsConfirming is_given head.now result }
{
    let sent = match head_in(alloc, head) {
        Ok(sent) => sent,
        Err(fault) => return Err(fault),
    };
    if confirms(is_given, sent.status) {
        return Ok(sent);
    }
    Err(TierFault::BadHead)
}

// What a header gives that comes at a moment, by its lines.
pub(crate) fn judge_header(
    alloc: Global,
    moment: Moment,
    header: ResponseHeader,
) -> Result<Verdict, TierFault>
    ensures { IsVerdictOn None moment header result }
{
    let Ok(verdict) = ByLines.cacheable(alloc, moment, header) else {
        return Err(out_of_memory(alloc));
    };
    match verdict {
        RespCacheable::Cacheable(meta) => Ok(Verdict::Kept(meta)),
        RespCacheable::Uncacheable(reason) => not_kept(reason),
    }
}

// What it gives by what is said of it.
fn judge_given(given: GivenMeta, header: ResponseHeader) -> Result<Verdict, TierFault>
    ensures { (t : MomentValue) → IsVerdictOn (Some given) t header result }
{
    match as_given(given, header) {
        Ok(meta) => Ok(Verdict::Kept(meta)),
        Err(fault) => Err(fault),
    }
}

// What it gives by what is said of it, or else by its lines.
fn judge_with(
    alloc: Global,
    given: Option<GivenMeta>,
    moment: Moment,
    header: ResponseHeader,
) -> Result<Verdict, TierFault>
    ensures { IsVerdictOn given moment header result }
{
    match given {
        None => judge_header(alloc, moment, header),
        Some(given) => judge_given(given, header),
    }
}

// What a head gives that comes at a moment, by what is said of it, or else by its lines.
pub(crate) fn judge(
    alloc: Global,
    given: Option<GivenMeta>,
    moment: Moment,
    head: &Bytes,
) -> Result<Verdict, TierFault>
    ensures { IsJudged given moment head.now result }
{
    match head_in(alloc, head) {
        Ok(header) => judge_with(alloc, given, moment, header),
        Err(fault) => Err(fault),
    }
}

// What is made of a head that is not kept for that reason.
fn not_kept(reason: NoCacheReason) -> Result<Verdict, TierFault>
    ensures { result ≡ not_kept_by reason }
{
    match reason {
        NoCacheReason::StorageError => Err(TierFault::BeforeEpoch),
        reason => Ok(Verdict::NotKept(reason)),
    }
}
