//! The steps of a request: it is opened for a key and looks up; where nothing was found it writes, and else it reads.
ghost use Rattle.std.specs.Prelude.{◌≡◌, ◌++◌, true, length, Some, None, is_some, option_map, OnOk, OnErr, IfOk, IfSome, if◌then◌else◌};
ghost use Rattle.cache_store.specs.Answers.{look_up as shown};
ghost use Rattle.cache_store.specs.Readers.{ahead};
ghost use Rattle.request_phases.specs.declared.hit.HitStatus.TheVariants.{Fresh, Expired};
ghost use Rattle.request_phases.specs.Phases.{can_begin, is_write_phase, has_reader_phase};
ghost use Rattle.request_phases.specs.Locks.{held};
ghost use Rattle.cache_heads.specs.Fresh.{is_fresh_at};
ghost use Rattle.request_cache.specs.Request.{stored_at};
ghost use Rattle.store_memory.specs.Readings.{reader_of};
ghost use Rattle.request_puts.specs.Response.{joined};
ghost use Rattle.example_requests.specs.Steps.{IsOpen, phase_at, reader_for, bytes_at};

use crate::fault::Fault;
use bytes::Bytes;
use pingora_cache::eviction::lru::Manager;
use pingora_cache::lock::CacheLock;
use pingora_cache::storage::{HandleHit, HandleMiss, ReadStep, StoreFault};
use pingora_cache::time::Moment;
use pingora_cache::{
    CacheKey, CacheMeta, CacheParts, Finished, HitStatus, HttpCache, MemCache, NoPolicy, Uses,
};
use rand_core::Rng;
use std::alloc::Global;

/// A cache: bodies in memory, one order of use, no predictor, a lock, no policy of admission.
pub type Cache = CacheParts<MemCache, Manager<1>, (), CacheLock, NoPolicy>;

/// A request to it.
pub type Request = HttpCache<MemCache>;

/// Opens a request for a key. It uses the order of use and the lock.
pub fn open(key: CacheKey) -> Request
    ensures open { IsOpen result }
    ensures key { result.key ≡ Some key }
{
    let uses = Uses {
        eviction: true,
        predictor: false,
        lock: true,
    };
    let mut request = HttpCache::new();
    request.enable(uses, None);
    request.set_cache_key(key);
    request
}

// How a response that was found may be used at a moment.
fn status_at(meta: &CacheMeta, moment: Moment) -> HitStatus
    ensures { result ≡ (if is_fresh_at meta.now.internal.fresh_until moment then Fresh else Expired) }
{
    if meta.is_fresh(moment) {
        HitStatus::Fresh
    } else {
        HitStatus::Expired
    }
}

/// Looks the key up, and takes what is found: the request has its reader then, and is a `Hit` while that is fresh, and else `Stale`. Where
/// nothing is found it is a `Miss`. Here one request follows another; with several at once a proxy asks `is_cache_locked` before
/// `cache_miss`, polls `cache_lock_wait` where another request holds the permit, and looks up again.
///
/// # Errors
///
/// Those of the look-up, or of taking what is found. The request is as before.
pub fn look_up(
    alloc: Global,
    request: &mut Request,
    cache: &mut Cache,
    moment: Moment,
) -> Result<(), Fault>
    requires { IsOpen request.old }
    ensures phase { let look = shown (stored_at request.old.key) cache.old.store.store in OnOk result (request.new.phase ≡ phase_at moment look) }
    ensures reader { let look = shown (stored_at request.old.key) cache.old.store.store in OnOk result (option_map reader_of request.new.reader ≡ option_map reader_for look) }
    ensures writer { request.new.writer ≡ None }
    ensures err { OnErr result (request.new ≡ request.old) }
{
    let Some((meta, hit)) = request.cache_lookup(cache, moment)? else {
        request.cache_miss();
        return Ok(());
    };
    let status = status_at(&meta, moment);
    request.cache_found(alloc, cache, meta, hit, status, moment)?;
    Ok(())
}

// Writes the pieces of a body by the request's writer.
fn write_pieces(request: &mut Request, cache: &mut Cache, pieces: &[Bytes]) -> Result<(), Fault>
    requires writer { is_some request.old.writer ≡ true }
    requires phase { is_write_phase request.old.phase ≡ true }
    ensures bytes { OnOk result (IfSome request.old.writer (λ n. bytes_at n cache.new.store ≡ option_map (λ b. b ++ joined pieces.now) (bytes_at n cache.old.store))) }
    ensures writer { OnOk result (request.new.writer ≡ request.old.writer) }
    ensures request { request.new ≡ record request.old { writer = request.new.writer } }
{
    let Some(writer) = request.miss_handler() else {
        return Ok(());
    };
    for piece in pieces {
        writer.write_body(&mut cache.store, piece.clone()?, false)?;
    }
    Ok(())
}

/// Stores a response with that meta, whose body comes in pieces. The permit is released.
///
/// # Errors
///
/// Those of the beginning, of a piece, and of the finish: the request may have a writer then, which `end` leaves.
pub fn write<R: Rng>(
    alloc: Global,
    request: &mut Request,
    cache: &mut Cache,
    rng: &mut R,
    meta: CacheMeta,
    pieces: &[Bytes],
) -> Result<Finished, Fault>
    requires phase { can_begin request.old.phase ≡ true }
    requires writer { request.old.writer ≡ None }
    ensures length { IfOk result (λ finished. finished.length ≡ length (joined pieces.now)) }
    ensures phase { OnOk result (is_write_phase request.new.phase ≡ true) }
    ensures writer { OnOk result (request.new.writer ≡ None) }
    ensures lock { OnOk result (held request.new.lock ≡ None) }
{
    request.set_cache_meta(meta);
    request.set_miss_handler(cache)?;
    write_pieces(request, cache, pieces)?;
    match request.finish_miss_handler(alloc, cache, rng) {
        Ok(Some(finished)) => Ok(finished),
        Ok(None) => unreachable!(),
        Err(fault) => Err(Fault::Finish(fault)),
    }
}

/// Reads what is there of the body that was found.
///
/// # Errors
///
/// Out of memory.
pub fn read(alloc: Global, request: &mut Request, cache: &mut Cache) -> Result<Vec<u8>, Fault>
    requires phase { has_reader_phase request.old.phase ≡ true }
    requires reader { is_some request.old.reader ≡ true }
    ensures body { IfOk result (λ body. IfSome request.old.reader (λ hit. (ahead (reader_of hit) cache.old.store).0 ≡ body.items)) }
    ensures phase { request.new.phase ≡ request.old.phase }
    ensures store { cache.new.store ≡ cache.old.store }
{
    let mut body = Vec::new(alloc);
    let reader = request.hit_handler();
    for _ in 0..u64::MAX {
        match reader.read_body(&mut cache.store)? {
            ReadStep::Bytes(bytes) => body.extend_from_slice(bytes.as_slice())?,
            ReadStep::Pending | ReadStep::End => return Ok(body),
        }
    }
    // More pieces than there can be memory for.
    Err(Fault::Store(StoreFault::Memory))
}
