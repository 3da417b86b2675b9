//! A proxy over the cache tier, as small as can be: it answers a request from the tier where a fresh body is stored. Where none is, it
//! fetches the response, hands it on and puts it. The origin here is made up.
#![tactic(auto)]

mod proxy;

use cache_tier::{Answer, Bytes, CacheKey, Duration, Moment, Pieces, Tier, TierFault};
use proxy::{advice, find, purge, store};
use rand_core::SeedableRng;
use rand_pcg::Pcg64;
use std::alloc::{AllocError, Global};
use std::io;

// What every path of the origin gives: three bytes that are fresh for a minute.
const RESPONSE: &[u8] =
    b"HTTP/1.1 200 OK\r\nCache-Control: max-age=60\r\nContent-Length: 3\r\n\r\nabc";

fn key_of(alloc: Global, path: &str) -> Result<CacheKey, AllocError> {
    let primary = Vec::from_slice(alloc, path.as_bytes())?;
    Ok(CacheKey::new(primary, String::new(alloc)))
}

fn fetched(alloc: Global) -> Result<Pieces, AllocError> {
    let pieces = vec![in alloc; Bytes::from_static(RESPONSE)]?;
    Ok(Pieces::from_vec(pieces))
}

// Puts what was fetched, and says what came of it. Whatever that is, the client has the response.
fn fill(
    rt: &(impl Print + AllocGlobal),
    tier: &mut Tier<4>,
    rng: &mut Pcg64,
    moment: Moment,
    path: &str,
) -> io::Result<()> {
    let alloc = rt.alloc();
    match store(tier, rng, moment, key_of(alloc, path)?, fetched(alloc)?) {
        Ok(Answer::Finished { length, evicted }) => {
            println!(rt;
                "fetched and stored {length} bytes, {} evicted",
                evicted.as_slice().len()
            )
        }
        Ok(_) => println!(rt; "fetched, not to be stored"),
        Err(fault) => println!(rt; "fetched, not stored: {}", advice(&fault)),
    }
}

// Answers one request.
fn answer(
    rt: &(impl Print + AllocGlobal),
    tier: &mut Tier<4>,
    rng: &mut Pcg64,
    seconds: i64,
    path: &str,
) -> io::Result<()> {
    let moment = Moment::from_seconds(seconds);
    match find(tier, moment, &key_of(rt.alloc(), path)?) {
        Ok(Some(body)) => println!(rt; "found {} bytes", body.as_slice().len()),
        Ok(None) => fill(rt, tier, rng, moment, path),
        Err(fault) => println!(rt; "passed through: {}", advice(&fault)),
    }
}

fn main(rt: HostRuntime) -> io::Result<()> {
    let alloc = rt.alloc();
    let mut rng = Pcg64::seed_from_u64(1);
    let age = Duration::from_seconds(10);
    let mut tier = Tier::<4>::new(alloc, 1_000_000, Some(5_000), age, None)?;
    for seconds in [1000, 1060, 1061] {
        answer(&rt, &mut tier, &mut rng, seconds, "/a")?;
    }
    let was_there = purge(
        &mut tier,
        &mut rng,
        Moment::from_seconds(1062),
        key_of(alloc, "/a")?,
    );
    println!(rt; "purged: {}", matches!(was_there, Ok(Answer::Purged(true))))?;
    answer(&rt, &mut tier, &mut rng, 1063, "/a")?;
    let report = tier.report();
    println!(rt;
        "bodies={} bytes={} found={}",
        report.bodies, report.bytes, report.found
    )
}
