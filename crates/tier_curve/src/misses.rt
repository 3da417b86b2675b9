//! Of which size the misses are copied, and where to.
use crate::fault::Fault;
use crate::words::has;
use clap::ArgMatches;
use curve_words::{Columns, Limits, size};
use std::alloc::Global;

const WRONG: &str = "--misses: SIZE=FILE is wanted, as 10G=missed";

const WRONG_WITH: &str = "--misses goes with neither --part nor --sample nor a column times";

/// The size whose misses are copied, and the file that gets them.
#[derive(Drop)]
pub(crate) struct Misses {
    /// The size.
    pub(crate) size: u64,
    /// The file.
    pub(crate) path: String,
}

// Whether lines stand for several requests.
fn has_times(columns: &Option<Columns>) -> bool {
    match columns {
        None => false,
        Some(columns) => columns.times.is_some(),
    }
}

/// The misses that are wanted.
pub(crate) fn misses_in(
    alloc: Global,
    columns: &Option<Columns>,
    matches: &ArgMatches<'_>,
) -> Result<Option<Misses>, Fault> {
    let Some(text) = matches.get_str("misses") else {
        return Ok(None);
    };
    let Some((word, path)) = text.split_once('=') else {
        return Err(Fault::Wrong(WRONG));
    };
    let Some(size) = size(word.as_bytes()) else {
        return Err(Fault::Wrong(WRONG));
    };
    if path.is_empty() {
        return Err(Fault::Wrong(WRONG));
    }
    if has(matches, "part") || has(matches, "sample") || has_times(columns) {
        return Err(Fault::Wrong(WRONG_WITH));
    }
    let mut own = String::new(alloc);
    own.push_str(path)?;
    Ok(Some(Misses { size, path: own }))
}

/// The same limits with this one, once.
pub(crate) fn with_size(alloc: Global, limits: &[u64], size: u64) -> Result<Limits, Fault> {
    let mut all = Vec::new(alloc);
    let mut is_there = false;
    for limit in limits {
        if !is_there && *limit >= size {
            is_there = true;
            if *limit != size {
                all.push(size)?;
            }
        }
        all.push(*limit)?;
    }
    if !is_there {
        all.push(size)?;
    }
    Limits::new(all).ok_or(Fault::Wrong(WRONG))
}

/// The place of a limit.
pub(crate) fn place_of(limits: &[u64], size: u64) -> Option<usize> {
    for at in 0..limits.len() {
        if limits[at] == size {
            return Some(at);
        }
    }
    None
}
