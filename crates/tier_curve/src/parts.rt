//! Which parts of the keys are counted.
use crate::fault::Fault;
use crate::words::{has, size_of};
use clap::ArgMatches;
use curve_keys::Part;
use curve_words::size;
use std::alloc::{AllocError, Global};

const WRONG_PART: &str = "--part: I/K is wanted, two numbers, the first less than the second";

const WRONG_SHARES: &str = "--part I/K: each size must be a multiple of K, and --max-entries too";

const WRONG_SAMPLE: &str =
    "--sample: 1/K is wanted, and --sample-parts from 2 to K - 1; without --sample there are no --sample-parts, and beside it no --part";

/// Which parts are counted, each by itself.
#[derive(Drop)]
pub(crate) struct Wanted {
    /// The parts; without a part all keys.
    pub(crate) parts: Vec<Option<Part>>,
    /// By which limits are shared out, if they are.
    pub(crate) share: Option<Part>,
    /// Whether they are a sample.
    pub(crate) is_sample: bool,
}

// The part that a text such as 3/8 names.
fn part_of(text: &str) -> Option<Part> {
    let mut words = text.as_bytes().split(|byte| *byte == b'/');
    let index = size(words.next()?)?;
    let of = size(words.next()?)?;
    if words.next().is_some() {
        return None;
    }
    Part::new(index, of)
}

// The number of parts of which 1/K takes some.
fn sample_of(text: &str) -> Option<u64> {
    let mut words = text.as_bytes().split(|byte| *byte == b'/');
    let one = size(words.next()?)?;
    let of = size(words.next()?)?;
    if one != 1 || words.next().is_some() {
        return None;
    }
    Some(of)
}

// The first parts of so many.
fn first_parts(alloc: Global, count: u64, of: u64) -> Result<Wanted, Fault> {
    if count < 2 || count >= of {
        return Err(Fault::Wrong(WRONG_SAMPLE));
    }
    let mut parts = Vec::new(alloc);
    for index in 0..count {
        parts.push(Part::new(index, of))?;
    }
    Ok(Wanted {
        parts,
        share: Part::new(0, of),
        is_sample: true,
    })
}

// The parts of a sample.
fn sample(alloc: Global, text: &str, matches: &ArgMatches<'_>) -> Result<Wanted, Fault> {
    let count = size_of(matches, "sample-parts", WRONG_SAMPLE)?.unwrap_or(5);
    match sample_of(text) {
        Some(of) => first_parts(alloc, count, of),
        None => Err(Fault::Wrong(WRONG_SAMPLE)),
    }
}

// One part, or all keys.
fn one(alloc: Global, part: Option<Part>) -> Result<Wanted, AllocError> {
    let mut parts = Vec::new(alloc);
    parts.push(part)?;
    Ok(Wanted {
        parts,
        share: part,
        is_sample: false,
    })
}

/// The parts of the keys that are wanted.
pub(crate) fn parts_in(alloc: Global, matches: &ArgMatches<'_>) -> Result<Wanted, Fault> {
    if let Some(text) = matches.get_str("sample") {
        if has(matches, "part") {
            return Err(Fault::Wrong(WRONG_SAMPLE));
        }
        return sample(alloc, text, matches);
    }
    if has(matches, "sample-parts") {
        return Err(Fault::Wrong(WRONG_SAMPLE));
    }
    let Some(text) = matches.get_str("part") else {
        return Ok(one(alloc, None)?);
    };
    match part_of(text) {
        Some(part) => Ok(one(alloc, Some(part))?),
        None => Err(Fault::Wrong(WRONG_PART)),
    }
}

/// What a part has of a whole.
pub(crate) fn share(part: Option<Part>, whole: u64) -> Result<u64, Fault> {
    let Some(part) = part else {
        return Ok(whole);
    };
    part.share(whole).ok_or(Fault::Wrong(WRONG_SHARES))
}
