//! The options of the command line.
use crate::columns::columns_in;
use crate::command::command;
use crate::fault::Fault;
use crate::limits::{limits_in, with_any};
use crate::misses::{Misses, misses_in, place_of, with_size};
use crate::parts::{Wanted, parts_in, share};
use crate::words::{has, size_of};
use clap::ArgMatches;
use curve_keys::Part;
use curve_lines::{Format, Rules};
use curve_timed::Every;
use curve_words::Limits;
use std::alloc::Global;
use std::env;
use std::rt::Env;

/// What is asked for.
#[derive(Drop)]
pub struct Options {
    /// The limits, none greater than a later one; of a part of the keys, its shares of them.
    pub limits: Limits,
    /// The most entries that a cache tracks, if their number has a bound; of a part of the keys, its share.
    pub watermark: Option<u64>,
    /// How the requests are read.
    pub rules: Rules,
    /// The file that gets the misses of a size; the rules say of which.
    pub misses: Option<String>,
    /// How many lines are skipped first.
    pub skip: u64,
    /// Whether nothing is told of the run while it goes on.
    pub quiet: bool,
}

// The format that a word names.
fn format_of(word: &str) -> Result<Format, Fault> {
    match word.len() {
        4 if word == "text" => Ok(Format::Text),
        7 if word == "records" => Ok(Format::Records),
        14 if word == "oracle-general" => Ok(Format::OracleGeneral),
        _ => Err(Fault::Wrong("--format: text, records or oracle-general is wanted")),
    }
}

const WRONG_LIFETIME: &str = "--ttl: a number of seconds below 2^62 is wanted";

// For how many seconds each response is fresh, if that is told.
fn lifetime_in(matches: &ArgMatches<'_>, format: Format) -> Result<Option<u64>, Fault> {
    let Some(lifetime) = size_of(matches, "ttl", WRONG_LIFETIME)? else {
        return Ok(None);
    };
    if lifetime >= 1 << 62 {
        return Err(Fault::Wrong(WRONG_LIFETIME));
    }
    match format {
        Format::Records => Err(Fault::Wrong("--ttl: records have no times")),
        Format::Text | Format::OracleGeneral => Ok(Some(lifetime)),
    }
}

const WRONG_BY: &str = "--interval: a number of seconds is wanted, which isn't 0";

// How long spans are, where what was found is told by them. Times are read only where bodies have lifetimes.
fn spans_in(matches: &ArgMatches<'_>, is_timed: bool) -> Result<Option<Every>, Fault> {
    let Some(seconds) = size_of(matches, "interval", WRONG_BY)? else {
        return Ok(None);
    };
    let Some(every) = Every::new(seconds) else {
        return Err(Fault::Wrong(WRONG_BY));
    };
    if !is_timed {
        return Err(Fault::Wrong("--interval: times are read with --ttl, or a column ttl"));
    }
    if has(matches, "sample") {
        return Err(Fault::Wrong("--interval and --sample don't go together"));
    }
    Ok(Some(every))
}

// How the requests are read.
fn rules_in(alloc: Global, wanted: Wanted, matches: &ArgMatches<'_>) -> Result<Rules, Fault> {
    let overhead = size_of(
        matches,
        "entry-overhead",
        "--entry-overhead: a number is wanted",
    )?;
    let columns = columns_in(alloc, matches)?;
    let format = format_of(matches.get_str("format").unwrap_or("text"))?;
    if columns.is_some() && has(matches, "format") {
        return Err(Fault::Wrong("--columns: lines have columns, so --format has no place"));
    }
    let lifetime = lifetime_in(matches, format)?;
    let has_ttl = match &columns {
        None => false,
        Some(columns) => columns.ttl.is_some(),
    };
    let by = spans_in(matches, lifetime.is_some() || has_ttl)?;
    Ok(Rules {
        format,
        columns,
        overhead: overhead.unwrap_or(0),
        parts: wanted.parts,
        is_sample: wanted.is_sample,
        lifetime,
        by,
        misses: None,
    })
}

// How many lines are skipped first.
fn skip_in(matches: &ArgMatches<'_>, rules: &Rules) -> Result<u64, Fault> {
    let skip = size_of(matches, "skip-lines", "--skip-lines: a number is wanted")?;
    match (skip, rules.format) {
        (None, _) => Ok(0),
        (Some(skip), Format::Text) => Ok(skip),
        (Some(_), _) => Err(Fault::Wrong("--skip-lines: records have no lines")),
    }
}

// The most entries that a cache tracks.
fn watermark_in(part: Option<Part>, matches: &ArgMatches<'_>) -> Result<Option<u64>, Fault> {
    match size_of(matches, "max-entries", "--max-entries: a number is wanted")? {
        None => Ok(None),
        Some(most) => Ok(Some(share(part, most)?)),
    }
}

// The limits that are asked for, with that of the misses; it alone where no others are.
fn all_limits(
    alloc: Global,
    part: Option<Part>,
    misses: &Option<Misses>,
    matches: &ArgMatches<'_>,
) -> Result<Limits, Fault> {
    let Some(misses) = misses else {
        return limits_in(alloc, part, matches);
    };
    let has_sizes = has(matches, "sizes")
        || has(matches, "steps")
        || matches.get_flag("standard-sizes");
    if !has_sizes {
        return with_size(alloc, &[], misses.size);
    }
    let limits = limits_in(alloc, part, matches)?;
    with_size(alloc, limits.as_slice(), misses.size)
}

fn options_in(alloc: Global, matches: &ArgMatches<'_>) -> Result<Options, Fault> {
    let wanted = parts_in(alloc, matches)?;
    let share = wanted.share;
    let mut rules = rules_in(alloc, wanted, matches)?;
    let misses = misses_in(alloc, &rules.columns, matches)?;
    let limits = all_limits(alloc, share, &misses, matches)?;
    let watermark = watermark_in(share, matches)?;
    let limits = if rules.is_timed() {
        with_any(alloc, &limits)?
    } else {
        limits
    };
    let skip = skip_in(matches, &rules)?;
    let misses = match misses {
        None => None,
        Some(misses) => {
            rules.misses = place_of(limits.as_slice(), misses.size);
            Some(misses.path)
        }
    };
    Ok(Options {
        limits,
        watermark,
        rules,
        misses,
        skip,
        quiet: matches.get_flag("quiet"),
    })
}

/// The options of the program's own command line.
pub fn read_options<R: Env + AllocGlobal>(rt: &R) -> Result<Options, Fault> {
    let alloc = rt.alloc();
    let words: Vec<String> = env::args(rt)?.collect(alloc)?;
    let matches = command(alloc)?.try_get_matches_from(words.as_slice())?;
    options_in(alloc, &matches)
}
