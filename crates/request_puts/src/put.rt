//! Puts of whole responses, whose bytes come in pieces.

ghost use Rattle.std.specs.Prelude.{◌≡◌, IfOk, None, Some};
ghost use Rattle.cache_words.specs.Time.{MomentValue};
ghost use Rattle.cache_words.specs.Key.{key_of};
ghost use Rattle.head_lines.specs.declared.header.ResponseHeader.{ResponseHeader as Header};
ghost use Rattle.cache_heads.specs.declared.defaults.CacheMetaDefaults.{CacheMetaDefaults as Defaults};
ghost use Rattle.cache_heads.specs.declared.reason.RespCacheable.{RespCacheable as Verdict};
ghost use Rattle.request_puts.specs.Response.{joined, Gives, verdict_by_headers};
ghost use Rattle.request_store.specs.Admissions.{rules_of, cache_of};
ghost use Rattle.request_puts.specs.Put.{Puts};

mod admit;
mod outcome;
mod whole;

use admit::out_of_memory;
pub use admit::put_body;
use bytes::Bytes;
use cache_evict::EvictionManager;
use cache_heads::filters::resp_cacheable_by_lines;
use cache_heads::meta::{FreshDurationByStatusFn, ResponseHeader};
use cache_heads::{CacheMetaDefaults, ErrorType, RespCacheable};
use cache_store::storage::Storage;
use cache_words::key::CacheKey;
use cache_words::time::Moment;
pub use head_parse::{Parsed, Progress, Response, ResponseParse, Short};
pub use outcome::{Done, PutFault, PutOutcome};
use rand_core::Rng;
use request_store::CacheParts;
use std::alloc::{AllocError, Global};
pub use whole::ResponseVerdict;
use whole::whole_of;

/// What a response that ends too early is refused with.
pub const INCOMPLETE_BODY: ErrorType = ErrorType::Custom("IncompleteHttpBody");

/// Which responses a put keeps.
pub trait CachePut {
    /// How long a response is fresh by its status.
    type Lifetimes: FreshDurationByStatusFn;

    // The defaults.
    ghost defaults: { Defaults Self.Lifetimes };

    // Whether a response with that header that comes at a moment is kept, and with which meta.
    ghost verdict: { Self → MomentValue → Header → Verdict };

    /// Decides whether a response that came at `moment` is kept, and with which meta.
    ///
    /// # Errors
    ///
    /// `AllocError` where memory runs out.
    fn cacheable(
        &self,
        alloc: Global,
        moment: Moment,
        response: ResponseHeader,
    ) -> Result<RespCacheable, AllocError>
        ensures { IfOk result (λ v. v ≡ verdict self.now moment response) };

    /// Returns the defaults for what a response does not say. They are for the implementor's own `cacheable`: a put asks for none.
    fn cache_defaults() -> CacheMetaDefaults<Self::Lifetimes>
        ensures { result ≡ defaults };

    /// Notes the header of a response, once for each whose head is whole.
    fn trace_header(&mut self, _response: &ResponseHeader)
        ensures { verdict self.new ≡ verdict self.old }
    {}
}

/// Returns whether a response that came at `moment` is kept, and with which meta, by its Cache-Control, its Expires and
/// the defaults.
///
/// # Errors
///
/// `AllocError` where memory runs out.
pub fn cacheable_by_headers<F: FreshDurationByStatusFn>(
    alloc: Global,
    moment: Moment,
    response: ResponseHeader,
    defaults: &CacheMetaDefaults<F>,
) -> Result<RespCacheable, AllocError>
    ensures { IfOk result (λ v. v ≡ verdict_by_headers moment response F.duration defaults.now) }
{
    resp_cacheable_by_lines(alloc, moment, response, defaults)
}

/// A put under a key.
#[derive(Drop)]
pub struct CachePutCtx<C> {
    /// Which responses are kept.
    pub cache_put: C,
    /// The key.
    pub key: CacheKey,
    /// The most bytes that a body may have, if there is a limit.
    pub max_file_size_bytes: Option<usize>,
}

impl<C: CachePut> CachePutCtx<C> {
    /// Makes a put without a limit on the body's size.
    pub fn new(cache_put: C, mut key: CacheKey) -> CachePutCtx<C>
        ensures { result ≡ record { cache_put = cache_put; key = key; max_file_size_bytes = None } }
    {
        key.keep_digest();
        CachePutCtx {
            cache_put,
            key,
            max_file_size_bytes: None,
        }
    }

    /// Sets the most bytes that a body may have. It bounds what is stored: a response is read whole all the same.
    pub fn set_max_file_size_bytes(&mut self, max_file_size_bytes: usize)
        ensures { self.new ≡ record self.old { max_file_size_bytes = Some max_file_size_bytes } }
    {
        self.max_file_size_bytes = Some(max_file_size_bytes);
    }

    /// Stores the response that the pieces are, one after another, coming at `moment`; reports to the order of use of its entry what
    /// the store reports of the body, and purges what that evicts: where the store created a body of a weight, the entry is admitted with
    /// `max(1, weight)`, and where it added to one, the entry's weight grows by that. The pieces may be cut anywhere, and all are read, also of a response that is
    /// not kept, so that one that ends too early is reported.
    ///
    /// # Errors
    ///
    /// The first that holds of `BadHead`, `ResponseTooLarge`, `Incomplete` and, after an uncacheable response's reason,
    /// `WriteNumbersSpent` and `MetaMoment`: the store and the order of use are as before. `Weight`, `Length`, `NumbersSpent` and
    /// `Memory` where the entry isn't admitted or memory runs out in the evictions: all that is stored under the key is removed with its
    /// entry, an earlier body and other writes in flight too, and the evictions that are reported are done. `Memory` too before anything is stored, when a write may have used a number.
    pub fn cache_put<S: Storage, E: EvictionManager, P, L, A, R: Rng>(
        &mut self,
        alloc: Global,
        parts: &mut CacheParts<S, E, P, L, A>,
        rng: &mut R,
        pieces: &[Bytes],
        moment: Moment,
    ) -> Result<PutOutcome, PutFault>
        ensures put { Puts (rules_of S.held S.ids S.purged_as S.is_spent S.Miss.told E.shard_count E.weighed E.pick) (key_of self.old.key)
            (Gives self.old.max_file_size_bytes (C.verdict self.old.cache_put moment) (joined pieces.now)) result
            (cache_of parts.old.store (E.managed parts.old.manager) (R.stream rng.old)) (cache_of parts.new.store (E.managed parts.new.manager) (R.stream rng.new)) }
        ensures parts { parts.new ≡ record parts.old { store = parts.new.store; manager = parts.new.manager } }
        ensures key { self.new.key ≡ self.old.key }
        ensures limit { self.new.max_file_size_bytes ≡ self.old.max_file_size_bytes }
        ensures verdict { C.verdict self.new.cache_put ≡ C.verdict self.old.cache_put }
    {
        let limit = self.max_file_size_bytes;
        let Ok(whole) = whole_of(alloc, &mut self.cache_put, limit, moment, pieces) else {
            return Err(out_of_memory(alloc));
        };
        match whole {
            ResponseVerdict::Cacheable { meta, body } => {
                put_body(alloc, &self.key, parts, rng, meta, body)
            }
            ResponseVerdict::Uncacheable(reason) => Ok(PutOutcome::Uncacheable(reason)),
            ResponseVerdict::TooLarge => Err(PutFault::ResponseTooLarge),
            ResponseVerdict::Incomplete => Err(PutFault::Incomplete),
            ResponseVerdict::BadHead => Err(PutFault::BadHead),
        }
    }
}
