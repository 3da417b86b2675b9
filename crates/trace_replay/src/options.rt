//! The options of a command line.
ghost use Rattle.std.specs.Prelude.{◌≡◌, ◌≢◌, [], map, codes, ℕ, Option, Some, unwrap_or, option_map, string_bytes, List, IfOk, IfErr};
ghost use Rattle.clap.specs.Faults.{fault_of};
ghost use Rattle.clap.specs.Matches.{found_of, first_value};
ghost use Rattle.clap.specs.Simple.{HasMatchesOf};
ghost use Rattle.clap.specs.Walk.{Text};
ghost use Rattle.trace_replay.specs.CommandLine.{app, name_of, value_of, IsGiven, IsFault, shards_in, IsUnreadable};
ghost use Rattle.trace_replay.specs.OptionStatuses.{status_of};

use crate::command::{fault, matches};
use crate::values::{directory, number, shards};
use clap::ArgMatches;
use clap::error::ErrorKind;
use std::alloc::{AllocError, Global};
use std::convert::AsStr;
use std::rt::Env;
use std::{env, io};
use thiserror::Error;

// The age of a permit where none is given, in seconds.
const USUAL_AGE: u64 = 10;

/// How a trace is replayed.
#[derive(Clone, PartialEq, Eq, Debug, Drop)]
pub struct ReplayOptions {
    /// The weight limit of the tier, in bytes.
    pub limit: u64,
    /// The most entries that the tier tracks, if their number has a bound.
    pub watermark: Option<u64>,
    /// How many shards the order of use has.
    pub shards: ShardCount,
    /// The seed of the generator whose words pick the evicted entries.
    pub seed: u64,
    /// The seconds after which others no longer wait for a permit.
    pub age: u64,
    /// The seconds for which a request waits at most, if its waits have a bound.
    pub wait: Option<u64>,
    /// The directory that the order of use is loaded from and saved to, if there is one. A command line never gives the empty text,
    /// under which files would lie at the root of the file system.
    pub recency: Option<String>,
}

/// A number of shards.
#[derive(Clone, Copy, PartialEq, Eq, Debug)]
pub enum ShardCount {
    /// 1
    One,
    /// 4
    Four,
    /// 16
    Sixteen,
}

/// An option that has a value.
#[derive(Clone, Copy, PartialEq, Eq, Debug)]
pub enum OptionName {
    /// `--limit`
    Limit,
    /// `--watermark`
    Watermark,
    /// `--shards`
    Shards,
    /// `--seed`
    Seed,
    /// `--age`
    Age,
    /// `--wait`
    Wait,
    /// `--recency`
    Recency,
}

impl OptionName {
    /// Returns the name without the dashes.
    pub fn as_str(self) -> &'static str
        ensures { result.now ≡ name_of self }
    {
        match self {
            OptionName::Limit => "limit",
            OptionName::Watermark => "watermark",
            OptionName::Shards => "shards",
            OptionName::Seed => "seed",
            OptionName::Age => "age",
            OptionName::Wait => "wait",
            OptionName::Recency => "recency",
        }
    }
}

/// Why the words of a command line give no options.
#[derive(Debug, Drop, Error)]
pub enum OptionsError {
    /// The words are no command line of the program, or ask for help or the version.
    #[error("{0}")]
    CommandLine(clap::Error),
    /// No `--limit` is given.
    #[error("--limit is missing")]
    NoLimit,
    /// The value of this option is none that it may have; the first such option is named.
    #[error("{1}")]
    WrongValue(OptionName, clap::Error),
    /// A word is not UTF-8.
    #[error("{0}")]
    NotUtf8(clap::Error),
    /// No memory was left.
    #[error("out of memory")]
    Memory,
}

impl OptionsError {
    /// The exit status: 0 if help or the version was requested, 1 out of memory, 2 on a bad command line.
    pub fn status(&self) -> u8
        ensures { result ≡ status_of self.now }
    {
        match self {
            OptionsError::Memory => 1,
            OptionsError::NoLimit | OptionsError::WrongValue(_, _) | OptionsError::NotUtf8(_) => 2,
            OptionsError::CommandLine(error) => match error.kind() {
                ErrorKind::DisplayHelp | ErrorKind::DisplayVersion => 0,
                _ => 2,
            },
        }
    }
}

/// The options that the words of a command line give, of which the first is the program's name.
pub fn options<'a, S: AsStr>(alloc: Global, words: &'a [S]) -> Result<ReplayOptions, OptionsError>
    ensures limit { IfOk result (λ o. IsGiven (value_of (codes "limit") (map S.text words.entry.now)) (Some o.limit)) }
    ensures watermark { IfOk result (λ o. IsGiven (value_of (codes "watermark") (map S.text words.entry.now)) o.watermark) }
    ensures shards { IfOk result (λ o. shards_in (value_of (codes "shards") (map S.text words.entry.now)) ≡ Some o.shards) }
    ensures seed { IfOk result (λ o. (given : Option ℕ) × IsGiven (value_of (codes "seed") (map S.text words.entry.now)) given × (o.seed ≡ unwrap_or given 0)) }
    ensures age { IfOk result (λ o. (given : Option ℕ) × IsGiven (value_of (codes "age") (map S.text words.entry.now)) given × (o.age ≡ unwrap_or given 10)) }
    ensures wait { IfOk result (λ o. IsGiven (value_of (codes "wait") (map S.text words.entry.now)) o.wait) }
    ensures recency { IfOk result (λ o. option_map string_bytes o.recency ≡ value_of (codes "recency") (map S.text words.entry.now)) }
    ensures named { IfOk result (λ _. value_of (codes "recency") (map S.text words.entry.now) ≢ Some []) }
    ensures faultless { IfOk result (λ _. fault_of app (map S.text words.entry.now) ≡ []) }
    ensures refused { IfErr result (IsFault (map S.text words.entry.now)) }
{
    let matches = matches(alloc, words)?;
    options_in(alloc, &matches)
}

// The same of the matches of some words. They are borrowed, since each `?` would have to drop what is owned here.
fn options_in(alloc: Global, matches: &ArgMatches<'_>) -> Result<ReplayOptions, OptionsError>
    ensures limit { IfOk result (λ o. IsGiven (first_value (found_of matches.now) (codes "limit")) (Some o.limit)) }
    ensures watermark { IfOk result (λ o. IsGiven (first_value (found_of matches.now) (codes "watermark")) o.watermark) }
    ensures shards { IfOk result (λ o. shards_in (first_value (found_of matches.now) (codes "shards")) ≡ Some o.shards) }
    ensures seed { IfOk result (λ o. (given : Option ℕ) × IsGiven (first_value (found_of matches.now) (codes "seed")) given × (o.seed ≡ unwrap_or given 0)) }
    ensures age { IfOk result (λ o. (given : Option ℕ) × IsGiven (first_value (found_of matches.now) (codes "age")) given × (o.age ≡ unwrap_or given 10)) }
    ensures wait { IfOk result (λ o. IsGiven (first_value (found_of matches.now) (codes "wait")) o.wait) }
    ensures recency { IfOk result (λ o. option_map string_bytes o.recency ≡ first_value (found_of matches.now) (codes "recency")) }
    ensures named { IfOk result (λ _. first_value (found_of matches.now) (codes "recency") ≢ Some []) }
    ensures refused { IfErr result (λ error. (words : List Text) → HasMatchesOf app words matches.now → fault_of app words ≡ [] → IsFault words error) }
{
    let Some(limit) = number(alloc, matches, OptionName::Limit)? else {
        return Err(OptionsError::NoLimit);
    };
    let watermark = number(alloc, matches, OptionName::Watermark)?;
    let shards = shards(alloc, matches)?;
    let seed = number(alloc, matches, OptionName::Seed)?;
    let age = number(alloc, matches, OptionName::Age)?;
    let wait = number(alloc, matches, OptionName::Wait)?;
    let recency = directory(alloc, matches)?;
    Ok(ReplayOptions {
        limit,
        watermark,
        shards,
        seed: seed.unwrap_or(0),
        age: age.unwrap_or(USUAL_AGE),
        wait,
        recency,
    })
}

/// The words of the program's own command line.
pub fn words<R: Env + AllocGlobal>(rt: &R) -> Result<Vec<String>, OptionsError>
    ensures { IfErr result IsUnreadable }
{
    let alloc = rt.alloc();
    match env::args(rt) {
        Ok(words) => words.collect(alloc).map_err(|_| OptionsError::Memory),
        Err(error) => match error.kind() {
            io::ErrorKind::InvalidData => Err(not_utf8(alloc)),
            _ => Err(OptionsError::Memory),
        },
    }
}

fn not_utf8(alloc: Global) -> OptionsError
    ensures { IsUnreadable result }
{
    match fault(alloc, ErrorKind::InvalidValue, "an argument is not UTF-8") {
        Ok(error) => OptionsError::NotUtf8(error),
        Err(AllocError) => OptionsError::Memory,
    }
}
