//! A cache, and puts into it under keys of one byte.
ghost use Rattle.test_store.specs.Lines.{one_second, by_lines};

use crate::samples::key;
use bytes::Bytes;
use cache_heads::meta::{NeverByStatus, ResponseHeader};
use pingora_cache::eviction::lru::Manager;
use pingora_cache::put::{CachePut, CachePutCtx, PutFault, PutOutcome, cacheable_by_headers};
use pingora_cache::storage::{HandleHit, ReadStep, Storage};
use pingora_cache::time::Moment;
use pingora_cache::{
    CacheMetaDefaults, CacheParts, MemCache, NoCacheReason, NoPolicy, RespCacheable,
};
use rand_pcg::Pcg32;
use std::alloc::{AllocError, Global};

// Keeps what the lines of a header allow, and counts the lines of the heads that it notes.
#[derive(Drop)]
struct ByLines {
    lines: usize,
}

impl CachePut for ByLines {
    type Lifetimes = NeverByStatus;

    ghost defaults = { one_second };

    ghost verdict = { λ _ moment header. by_lines moment header };

    fn cacheable(
        &self,
        alloc: Global,
        moment: Moment,
        response: ResponseHeader,
    ) -> Result<RespCacheable, AllocError> {
        cacheable_by_headers(alloc, moment, response, &ByLines::cache_defaults())
    }

    fn cache_defaults() -> CacheMetaDefaults<NeverByStatus> {
        CacheMetaDefaults {
            fresh_sec_fn: NeverByStatus,
            stale_while_revalidate_sec: 1,
            stale_if_error_sec: 1,
        }
    }

    fn trace_header(&mut self, response: &ResponseHeader) {
        self.lines = self.lines.saturating_add(response.headers.len());
    }
}

pub(crate) type Cache = CacheParts<MemCache, Manager<1>, (), ()>;

// How a response is cut.
#[derive(Clone, Copy)]
pub(crate) enum Cut {
    Whole,
    HeadAndBody,
    Bytes,
    // Its first bytes, so many, in one piece.
    First(usize),
}

// A put under a key of one byte of a head and what comes after it, with a limit on the body's size, at a second.
#[derive(Clone, Copy)]
pub(crate) struct Put {
    pub(crate) name: u8,
    pub(crate) head: &'static [u8],
    pub(crate) body: &'static [u8],
    pub(crate) cut: Cut,
    pub(crate) limit: Option<usize>,
    pub(crate) second: i64,
}

// What came of a put.
#[derive(Clone, Copy, PartialEq)]
pub(crate) enum Got {
    // A body of that size was stored, and so many entries were evicted.
    Stored(usize, usize),
    Uncacheable(NoCacheReason),
    // It was refused, which is reported by that text.
    Refused(&'static str),
    // Memory cut it short, and so many entries were evicted.
    CutShort(usize),
}

pub(crate) fn cache(alloc: Global, limit: usize) -> Option<Cache> {
    match Manager::<1>::with_capacity(alloc, limit, 0) {
        Ok(manager) => Some(CacheParts {
            store: MemCache::new(alloc),
            manager,
            predictor: (),
            lock: (),
            policy: NoPolicy,
        }),
        Err(_) => None,
    }
}

fn joined(alloc: Global, put: Put) -> Option<Bytes> {
    let mut all = Vec::from_slice(alloc, put.head).ok()?;
    all.extend_from_slice(put.body).ok()?;
    if let Cut::First(n) = put.cut {
        all.truncate(n);
    }
    Bytes::from_vec(all).ok()
}

fn cut_into(alloc: Global, pieces: &mut Vec<Bytes>, put: Put) -> Option<()> {
    match put.cut {
        Cut::HeadAndBody => {
            pieces.push(Bytes::from_static(put.head)).ok()?;
            pieces.push(Bytes::from_static(put.body)).ok()
        }
        Cut::Bytes => {
            for i in 0..put.head.len() {
                pieces.push(Bytes::from_static(&put.head[i..i + 1])).ok()?;
            }
            for i in 0..put.body.len() {
                pieces.push(Bytes::from_static(&put.body[i..i + 1])).ok()?;
            }
            Some(())
        }
        Cut::Whole | Cut::First(_) => pieces.push(joined(alloc, put)?).ok(),
    }
}

// What a fault is called.
fn refused(fault: &PutFault) -> Got {
    match fault {
        PutFault::BadHead => Got::Refused("bad head"),
        PutFault::ResponseTooLarge => Got::Refused("too large"),
        PutFault::Incomplete => Got::Refused("incomplete"),
        PutFault::MetaMoment => Got::Refused("meta moment"),
        PutFault::WriteNumbersSpent => Got::Refused("write numbers"),
        PutFault::Weight(_) => Got::Refused("weight"),
        PutFault::Length(_) => Got::Refused("length"),
        PutFault::NumbersSpent(_) => Got::Refused("numbers"),
        PutFault::Memory(done) => Got::CutShort(done.evicted.len()),
    }
}

// What comes of a put of these pieces, and how many lines of heads are noted; none out of memory before it.
fn put_pieces(
    alloc: Global,
    cache: &mut Cache,
    put: Put,
    pieces: &[Bytes],
) -> Option<(Got, usize)> {
    let mut ctx = CachePutCtx::new(ByLines { lines: 0 }, key(alloc, &[put.name])?);
    if let Some(limit) = put.limit {
        ctx.set_max_file_size_bytes(limit);
    }
    let mut rng = Pcg32::new(1, 1);
    let moment = Moment::from_seconds(put.second);
    let got = match ctx.cache_put(alloc, cache, &mut rng, pieces, moment) {
        Ok(PutOutcome::Stored { size, evicted }) => Got::Stored(size, evicted.len()),
        Ok(PutOutcome::Uncacheable(reason)) => Got::Uncacheable(reason),
        Err(fault) => refused(&fault),
    };
    Some((got, ctx.cache_put.lines))
}

pub(crate) fn put_in(alloc: Global, cache: &mut Cache, put: Put) -> Option<(Got, usize)> {
    let mut pieces = Vec::new(alloc);
    match cut_into(alloc, &mut pieces, put) {
        Some(()) => put_pieces(alloc, cache, put, pieces.as_slice()),
        None => None,
    }
}

// Whether that body is found under a key, or none is; none out of memory.
pub(crate) fn holds(
    alloc: Global,
    cache: &mut Cache,
    name: u8,
    body: Option<&[u8]>,
) -> Option<bool> {
    let key = key(alloc, &[name])?;
    match cache.store.lookup(&key) {
        Ok(Some((_meta, mut hit))) => {
            let step = hit.read_body(&mut cache.store);
            hit.finish(&mut cache.store);
            match step {
                Ok(ReadStep::Bytes(bytes)) => Some(body == Some(bytes.as_slice())),
                Ok(_) => Some(false),
                Err(_) => None,
            }
        }
        Ok(None) => Some(body.is_none()),
        Err(_) => None,
    }
}
