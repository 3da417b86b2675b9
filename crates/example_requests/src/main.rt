//! Requests to a cache: a put stores a whole response; a request that finds nothing writes one in pieces; others read what is stored.
#![tactic(auto)]

ghost use Rattle.std.specs.Prelude.{IfOk};
ghost use Rattle.cache_store.specs.Answers.{look_up as shown};
ghost use Rattle.request_cache.specs.Request.{stored_at};
ghost use Rattle.example_requests.specs.Served.{IsServed};
ghost use Rattle.example_requests.specs.Steps.{IsOpen};

mod fault;
mod origin;
mod puts;
mod requests;

use fault::Fault;
use pingora_cache::eviction::lru::Manager;
use pingora_cache::lock::CacheLock;
use pingora_cache::put::PutOutcome;
use pingora_cache::time::{Duration, Moment};
use pingora_cache::{CacheKey, CacheParts, CachePhase, MemCache, NoPolicy};
use puts::{meta_of, put};
use rand_core::SeedableRng;
use rand_pcg::Pcg64;
use requests::{Cache, Request, look_up, open, read, write};
use std::alloc::{AllocError, Global};
use std::{io, str};

fn empty_cache(alloc: Global) -> Result<Cache, AllocError> {
    Ok(CacheParts {
        store: MemCache::new(alloc),
        manager: Manager::<1>::with_capacity(alloc, 1_000_000, 100)?,
        predictor: (),
        lock: CacheLock::new(alloc, Duration::from_seconds(10)),
        policy: NoPolicy,
    })
}

fn key_of(alloc: Global, path: &str) -> Result<CacheKey, AllocError> {
    let primary = Vec::from_slice(alloc, path.as_bytes())?;
    Ok(CacheKey::new(primary, String::new(alloc)))
}

// Puts what the origin gives, as a whole.
fn fill(
    rt: &(impl Print + AllocGlobal),
    cache: &mut Cache,
    rng: &mut Pcg64,
    seconds: i64,
    path: &str,
) -> io::Result<()> {
    let alloc = rt.alloc();
    let moment = Moment::from_seconds(seconds);
    let pieces = origin::response(alloc)?;
    match put(alloc, cache, rng, key_of(alloc, path)?, &pieces, moment) {
        Ok(PutOutcome::Stored { size, evicted }) => {
            println!(rt; "{path}: put {size} bytes, {} evicted", evicted.len())
        }
        Ok(PutOutcome::Uncacheable(reason)) => {
            println!(rt; "{path}: not kept: {}", reason.as_str())
        }
        Err(fault) => println!(rt; "{path}: not put: {fault}"),
    }
}

// What a request did.
enum Served {
    Read(Vec<u8>),
    Written(usize),
}

// Looks up, and then reads what is fresh, or writes what the origin gives.
fn serve(
    alloc: Global,
    request: &mut Request,
    cache: &mut Cache,
    rng: &mut Pcg64,
    moment: Moment,
) -> Result<Served, Fault>
    requires { IsOpen request.old }
    ensures { let look = shown (stored_at request.old.key) cache.old.store.store in IfOk result (λ served. IsServed look served request.new.phase) }
{
    look_up(alloc, request, cache, moment)?;
    if let CachePhase::Hit = request.phase() {
        return Ok(Served::Read(read(alloc, request, cache)?));
    }
    let meta = meta_of(alloc, origin::HEAD, moment)?;
    let finished = write(alloc, request, cache, rng, meta, &origin::body(alloc)?)?;
    Ok(Served::Written(finished.length))
}

// Answers one request.
fn answer(
    rt: &(impl Print + AllocGlobal),
    cache: &mut Cache,
    rng: &mut Pcg64,
    seconds: i64,
    path: &str,
) -> io::Result<()> {
    let alloc = rt.alloc();
    let moment = Moment::from_seconds(seconds);
    let mut request = open(key_of(alloc, path)?);
    let served = serve(alloc, &mut request, cache, rng, moment);
    let phase = request.phase().as_str();
    request.end(cache);
    match served {
        Ok(Served::Read(body)) => {
            println!(rt;
                "{path}: {phase}, read {}",
                str::from_utf8(&body).unwrap_or("?")
            )
        }
        Ok(Served::Written(length)) => println!(rt; "{path}: {phase}, wrote {length} bytes"),
        Err(fault) => println!(rt; "{path}: {phase}, refused: {fault:?}"),
    }
}

fn main(rt: HostRuntime) -> io::Result<()> {
    let alloc = rt.alloc();
    let mut rng = Pcg64::seed_from_u64(1);
    let mut cache = empty_cache(alloc)?;
    fill(&rt, &mut cache, &mut rng, 1000, "/a")?;
    for (seconds, path) in [(1001, "/a"), (1002, "/b"), (1003, "/b"), (1063, "/b")] {
        answer(&rt, &mut cache, &mut rng, seconds, path)?;
    }
    Ok(())
}
