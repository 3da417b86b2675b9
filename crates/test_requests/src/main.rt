//! Does rows of calls of requests to a cache, and writes after each call what it answers and the phase that it leaves.
//!
//! A row of `rows.txt` is a name and then a step a line, of the first or the second of two requests; an empty line ends it. Both use one cache, which begins
//! empty with each row: a store in memory, a manager of one shard that may hold 200 bytes and notes what it is told, a predictor of 4 keys, a lock whose permits may be held for 5
//! seconds, and a boxed policy that defers the key `d` and counts how often it is asked. A call that isn't allowed is `refused`: what it requires is tested first, by the public tests of it.
//!
//! | Step | Means |
//! |---|---|
//! | `enable`, `enable lock` | with all parts of the cache, or with its lock alone; waits take 3 seconds in all, and are tried again twice |
//! | `end` | the request ends, and another begins in its place |
//! | `look SECOND STATUS` | looks up, and takes what is found with that status: `body` and its weight, or `passed` as a miss, or `too-heavy` for the manager |
//! | `look-at SECOND` | the same of what is fresh or stale by itself at that second |
//! | `vary SECOND VARIANCE` | looks up, leaves what is found and goes on to a variant of it; whether that was found |
//! | `meta`, `begin`, `revalidate` `UNTIL CREATED` | with a meta that is fresh until a second, made at another (else at 1000), with stale windows of 30 and 60 seconds |
//! | `revalidate` | the same; `renewed`, and how many entries went then |
//! | `variance VARIANCE` | what the response varies by: 16 bytes of that value, or nothing for `-` |
//! | `writer`, `finish` | begins the write with the meta that is set, and finishes it |
//! | `read`, `read-back` | a step of reading by the reader of what was found, or of what is being written |
//! | `move-reader`, `move-writer` | takes it out, and puts it in again |
//! | `move-permit` | hands the permit to the other request |
//! | `publish TOKEN` | says what is filled; no request here can use 7 |
//! | `forget` | lets go of the meta of what was found |
//! | `head` | the head of what is found or stored |
//! | `merge` | the stale head, with what a head that confirms it renews |
//! | `decided` | what the policy decided, and how often it had been asked by then |
//! | `off-for` | for which reason the cache is off, or the response isn't kept |
//! | `maybe-key`, `key-lent`, `maybe-meta`, `meta-lent` | the letter of the key, and until when the meta is fresh, as an option or lent |
//! | `add-time SECONDS`, `time` | how long look-ups took |
//! | `limit`, `track` `BYTES` | the most bytes that a body may have, and bytes that come |
//! | `told-until` | no call of a request: until when the response was fresh of which the manager was told last |
//! | `tracked KEY`, `burden KEY` | no calls of a request: whether the manager tracks the key's entry; it goes, and another comes that leaves room for a body of one byte |
//!
//! The rows of `one-body.txt` are over a store of one body, which shows no write before its end, gives ids and reports an
//! addition, where the manager may hold 10 bytes, with a lock that lets another request try where a permit ends for a custom reason.
//!
//! Then two tiers serve requests side by side, and what they answer is compared with a table of runs, whose outcomes come from another program or were
//! worked by hand. A line of `runs.txt` is a run, ` => ` and its outcome; lines that differ are shown.
#![tactic(auto)]

mod answer;
mod call;
mod heads;
mod locks;
mod looks;
mod metas;
mod noting;
mod one_body;
mod reads;
mod rows;
mod runs;
mod served;
mod stale;
mod step;
mod stored;
mod text;
mod told;
mod trying_lock;
mod turns;
mod world;
mod writes;

use crate::one_body::OneBody;
use crate::text::Text;
use crate::trying_lock::TryingLock;
use crate::world::{DefersD, lock};
use cache_lock::CacheKeyLock;
use cache_store::admission::AdmissionPolicy;
use cache_store::storage::Storage;
use request_store::BoxedPolicy;
use std::alloc::{AllocError, Global};
use std::{fs, io};
use store_memory::MemCache;

// Writes the lines of a row over a store, each with what its step comes to.
fn push_done<S: Storage + Drop, L: CacheKeyLock + Drop, A: AdmissionPolicy + Drop>(
    alloc: Global,
    store: S,
    lock: L,
    policy: A,
    limit: usize,
    row: &str,
    text: &mut Text,
) {
    match world::cache(alloc, store, lock, policy, limit) {
        Some(mut parts) => rows::push_row(alloc, &mut parts, row, text),
        None => text.push("memory"),
    }
}

fn done<S: Storage + Drop, L: CacheKeyLock + Drop>(
    alloc: Global,
    store: S,
    lock: L,
    limit: usize,
    row: &str,
) -> Result<String, AllocError> {
    let mut text = Text::new(alloc);
    let policy: BoxedPolicy = Box::new(alloc, DefersD::new())?;
    push_done(alloc, store, lock, policy, limit, row, &mut text);
    text.finish()
}

// Does all rows over a store in memory, and then those over a store of one body.
fn do_rows(rt: &HostRuntime) -> io::Result<()> {
    let alloc = rt.alloc();
    let rows = fs::read_to_string(rt, "rows.txt")?;
    for row in rows.as_str().split("\n\n") {
        let text = done(alloc, MemCache::new(alloc), lock(alloc), 200, row)?;
        println!(rt; "{text}")?;
    }
    let rows = fs::read_to_string(rt, "one-body.txt")?;
    for row in rows.as_str().split("\n\n") {
        let lock = TryingLock { lock: lock(alloc) };
        let text = done(alloc, OneBody::new(alloc), lock, 10, row)?;
        println!(rt; "{text}")?;
    }
    Ok(())
}

// Compares each run with its outcome, shows those that differ, and says how many agree.
fn compare_runs(rt: &HostRuntime) -> io::Result<()> {
    let text = fs::read_to_string(rt, "runs.txt")?;
    let mut agree: u64 = 0;
    let mut differ: u64 = 0;
    for line in text.as_str().lines() {
        let Some((case, expected)) = line.split_once(" => ") else {
            continue;
        };
        let found = runs::outcome(rt.alloc(), case)?;
        if found.as_str() == expected {
            agree = agree.saturating_add(1);
        } else {
            differ = differ.saturating_add(1);
            println!(rt; "{line}\n    {found}")?;
        }
    }
    println!(rt; "runs: {agree} agree, {differ} differ")
}

fn main(rt: HostRuntime) -> io::Result<()> {
    do_rows(&rt)?;
    compare_runs(&rt)
}
