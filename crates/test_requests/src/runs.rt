//! Runs of two tiers.
use crate::served::{number, request};
use rand_core::SeedableRng;
use rand_pcg::Pcg64;
use seeded_hashing::SeededState;
use std::alloc::{AllocError, Global};
use std::fmt::Write;
use tier_pairs::{Pair, Side, Stopped, run_two, uniform};
use tier_served::{Request, Served};
use tier_single::{Duration, Tier, TierFault};

type OneShard = Tier<1, SeededState>;

const HASHER: SeededState = SeededState { word: 0 };

// The limit that a word is.
fn limit(word: &str) -> usize {
    usize::try_from(number(word)).unwrap_or(0)
}

// The watermark that a word is; `-` is none.
fn watermark(word: &str) -> Option<usize> {
    if word == "-" { None } else { Some(limit(word)) }
}

// A tier of one shard.
fn tier(alloc: Global, bytes: &str, entries: &str) -> Result<OneShard, AllocError> {
    let age = Duration::from_seconds(10);
    Tier::with_hasher(alloc, HASHER, limit(bytes), watermark(entries), age, None)
}

// One more word for what was answered to a request.
fn push_told(text: &mut String, told: &Served) -> Result<(), AllocError> {
    match told {
        Served::Hit { body } => write!(text, "H{}", body.len()),
        Served::Filled {
            found,
            length,
            evicted,
        } => write!(
            text,
            "F{}:{length}:{}",
            u8::from(*found),
            evicted.as_slice().len()
        ),
        Served::Passed { found, reason } => {
            write!(text, "P{}:{}", u8::from(*found), reason.as_str())
        }
        Served::Purged(found) => write!(text, "R{}", u8::from(*found)),
    }
}

// One more word for each pair.
fn push_pairs(text: &mut String, pairs: &[Pair]) -> Result<(), AllocError> {
    for pair in pairs {
        text.push(' ')?;
        push_told(text, &pair.lesser)?;
        text.push('/')?;
        push_told(text, &pair.greater)?;
    }
    Ok(())
}

// The name of a fault that a run meets.
fn fault_name(fault: &TierFault) -> &'static str {
    match fault {
        TierFault::BeforeEpoch => "BeforeEpoch",
        _ => "another",
    }
}

// The pairs of a run that stopped, and one more word for where and why it did.
fn push_stopped(text: &mut String, stopped: &Stopped) -> Result<(), AllocError> {
    push_pairs(text, stopped.pairs.as_slice())?;
    let side = match stopped.side {
        Some(Side::Lesser) => "lesser",
        Some(Side::Greater) => "greater",
        None => "nobody",
    };
    write!(text, " stopped:{side}:{}", fault_name(&stopped.fault))
}

// One more word for the order of use.
fn push_order(alloc: Global, text: &mut String, one: &OneShard) -> Result<(), AllocError> {
    text.push(' ')?;
    match one.manager().serialize_shard(alloc, 0) {
        Ok(rows) => text.push_str(hex::encode(alloc, rows.as_slice())?.as_str()),
        Err(_) => text.push('?'),
    }
}

// What two tiers answer to requests.
fn run(
    alloc: Global,
    lesser: &mut OneShard,
    greater: &mut OneShard,
    requests: &[Request],
) -> Result<String, AllocError> {
    let mut rng = Pcg64::seed_from_u64(0);
    let mut text = format!(in alloc; "{}", uniform(alloc, HASHER, requests)?)?;
    match run_two(alloc, lesser, greater, &mut rng, requests) {
        Ok(pairs) => push_pairs(&mut text, pairs.as_slice())?,
        Err(stopped) => push_stopped(&mut text, &stopped)?,
    }
    push_order(alloc, &mut text, lesser)?;
    push_order(alloc, &mut text, greater)?;
    Ok(text)
}

/// What a run gives: whether its requests are uniform, what both tiers answer to each, and both orders of use at its end.
pub fn outcome(alloc: Global, case: &str) -> Result<String, AllocError> {
    let mut words = case.split(' ');
    let (Some(a), Some(b)) = (words.next(), words.next()) else {
        return String::from_str(alloc, "?");
    };
    let (Some(c), Some(d)) = (words.next(), words.next()) else {
        return String::from_str(alloc, "?");
    };
    let mut requests = Vec::new(alloc);
    for word in words {
        requests.push(request(alloc, word)?)?;
    }
    let mut lesser = tier(alloc, a, c)?;
    let mut greater = tier(alloc, b, d)?;
    run(alloc, &mut lesser, &mut greater, requests.as_slice())
}
