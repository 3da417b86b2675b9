//! The limits by the command line.
use crate::fault::Fault;
use crate::parts::share;
use crate::words::{has, size_of};
use clap::ArgMatches;
use curve_keys::Part;
use curve_words::{Limits, size};
use std::alloc::Global;

const WRONG_SIZES: &str =
    "--sizes: sizes such as 1M,10M,1G are wanted, from the least to the greatest, each below 2^64";

const WRONG_ENDS: &str =
    "--sizes: A..B is wanted, the first not 0 and no greater than the last, and --steps from 2 to 100000; --steps belong to A..B";

const WRONG_STANDARD: &str = "--standard-sizes stand in place of --sizes and --steps";

const NO_SIZES: &str = "--sizes or --standard-sizes are wanted";

// The sizes of a list, apart by commas.
fn listed(alloc: Global, part: Option<Part>, text: &str) -> Result<Limits, Fault> {
    let mut all = Vec::new(alloc);
    for word in text.as_bytes().split(|byte| *byte == b',') {
        let Some(number) = size(word) else {
            return Err(Fault::Wrong(WRONG_SIZES));
        };
        all.push(share(part, number)?)?;
    }
    Limits::new(all).ok_or(Fault::Wrong(WRONG_SIZES))
}

// The two ends of a text such as 1M..10G; a text without dots has none.
fn ends(text: &str) -> Option<(&[u8], &[u8])> {
    let mut parts = text.as_bytes().split(|byte| *byte == b'.');
    let (Some(low), Some(none), Some(high), None) = (
        parts.next(),
        parts.next(),
        parts.next(),
        parts.next(),
    ) else {
        return None;
    };
    if none.is_empty() {
        Some((low, high))
    } else {
        None
    }
}

// The limits between two ends.
fn between(
    alloc: Global,
    part: Option<Part>,
    (low, high): (&[u8], &[u8]),
    matches: &ArgMatches<'_>,
) -> Result<Limits, Fault> {
    let steps = size_of(matches, "steps", WRONG_ENDS)?.unwrap_or(40);
    let (Some(from), Some(to)) = (size(low), size(high)) else {
        return Err(Fault::Wrong(WRONG_ENDS));
    };
    let from = share(part, from)?;
    let to = share(part, to)?;
    Limits::between(alloc, from, to, steps)?.ok_or(Fault::Wrong(WRONG_ENDS))
}

/// The limits, which are listed, the standard ones or between two ends.
pub(crate) fn limits_in(
    alloc: Global,
    part: Option<Part>,
    matches: &ArgMatches<'_>,
) -> Result<Limits, Fault> {
    let has_steps = has(matches, "steps");
    if matches.get_flag("standard-sizes") {
        if has_steps || has(matches, "sizes") {
            return Err(Fault::Wrong(WRONG_STANDARD));
        }
        return ladder(alloc, part);
    }
    let Some(text) = matches.get_str("sizes") else {
        return Err(Fault::Wrong(NO_SIZES));
    };
    if let Some(ends) = ends(text) {
        return between(alloc, part, ends, matches);
    }
    if has_steps {
        return Err(Fault::Wrong(WRONG_ENDS));
    }
    listed(alloc, part, text)
}

// The rungs of a factor of ten, in hundredths of the first.
const RUNGS: [u64; 20] = [
    100, 112, 125, 140, 160, 180, 200, 224, 250, 280, 315, 355, 400, 450, 500, 560, 630, 710, 800,
    900,
];

// The limits of the ladder; of a part of the keys those that have shares.
fn ladder(alloc: Global, part: Option<Part>) -> Result<Limits, Fault> {
    let mut all = Vec::new(alloc);
    let mut hundredth: u64 = 100;
    for _ in 0..10 {
        for rung in RUNGS {
            add_share(&mut all, part, hundredth.saturating_mul(rung))?;
        }
        hundredth = hundredth.saturating_mul(10);
    }
    add_share(&mut all, part, hundredth.saturating_mul(100))?;
    Limits::new(all).ok_or(Fault::Wrong(WRONG_SIZES))
}

// Adds a part's share of a limit, if there is one.
fn add_share(all: &mut Vec<u64>, part: Option<Part>, limit: u64) -> Result<(), Fault> {
    if let Ok(limit) = share(part, limit) {
        all.push(limit)?;
    }
    Ok(())
}

/// The same limits, and one that no cache reaches.
pub(crate) fn with_any(alloc: Global, limits: &Limits) -> Result<Limits, Fault> {
    let mut all = Vec::new(alloc);
    all.extend_from_slice(limits.as_slice())?;
    all.push(u64::MAX)?;
    Limits::new(all).ok_or(Fault::Wrong(WRONG_SIZES))
}
