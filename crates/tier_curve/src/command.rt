//! The command line.
use clap::{Arg, ArgAction, Command};
use std::alloc::{AllocError, Global};

const ABOUT: &str =
    "Reads requests on standard input, by default a line each: a time, a key, and the bytes of its body, or a dash where the key is removed. Writes how many requests are hits of an LRU cache of each size, and how many bytes they have, as CSV: the hit ratio curve.";

const STATUSES: &str =
    "Exit status: 0; 1 on an I/O error or out of memory; 2 on a bad command line.";

fn option<'a>(
    alloc: Global,
    name: &'static str,
    value: &'static str,
    help: &'static str,
) -> Arg<'a> {
    Arg::new(alloc, name)
        .long(name)
        .value_name(value)
        .help(help)
}

/// The options that the program has.
pub(crate) fn command<'a>(alloc: Global) -> Result<Command<'a>, AllocError> {
    let sizes =
        "Sizes in bytes that rise, as 1M,10M,1G (K, M, G, T: thousands, millions and so on), or A..B";
    let steps = "With A..B: so many sizes by equal ratios, with both ends [default: 40]";
    let max_entries = "The most entries that a cache holds [default: no bound]";
    let overhead = "What an entry weighs beside its body [default: 0]";
    let part =
        "The keys of one part alone, from 0 on, and a K-th of the sizes and of --max-entries";
    let sample =
        "The first parts of K, each by itself, and how many requests there are in all, so that merge_curves.py estimates the whole";
    let ttl =
        "Count fresh hits, where responses are fresh for so many seconds; adds their columns and a last row, unlimited. Fractions of times are cut off";
    let by =
        "With --ttl: also the hits up to each moment at which an interval of so many seconds begins";
    let misses =
        "Copy what a cache of SIZE doesn't serve, and what removes, to FILE: the requests of the next cache";
    let standard = "201 round sizes from 10 kB to 100 TB, in place of --sizes";
    let format =
        "text: lines 'time key bytes', apart by blanks; a dash for the bytes removes the key, a question mark is a length that isn't told. records: 16 bytes, little endian, the key's number and the bytes, all bits set in which remove it. oracle-general: libCacheSim's 24 bytes [default: text]";
    let columns =
        "The columns of lines, from 1 on: time=1,key=2,bytes=3+4, perhaps op=N, ttl=N (seconds), times=N (requests)";
    Command::new(alloc, "cache-curve")
        .version("0.1.0")
        .about(ABOUT)
        .after_help(STATUSES)
        .arg(option(alloc, "sizes", "SIZES", sizes))?
        .arg(option(alloc, "steps", "COUNT", steps))?
        .arg(
            Arg::new(alloc, "standard-sizes")
                .long("standard-sizes")
                .action(ArgAction::SetTrue)
                .help(standard),
        )?
        .arg(option(alloc, "max-entries", "ENTRIES", max_entries))?
        .arg(option(alloc, "entry-overhead", "BYTES", overhead))?
        .arg(option(alloc, "format", "FORMAT", format))?
        .arg(option(alloc, "columns", "COLUMNS", columns))?
        .arg(option(
            alloc,
            "delimiter",
            "BYTE",
            "With --columns, what stands between them: one byte, or \\t [default: blanks]",
        ))?
        .arg(option(
            alloc,
            "skip-lines",
            "LINES",
            "How many lines are skipped first",
        ))?
        .arg(option(
            alloc,
            "get-ops",
            "WORDS",
            "Words of the column op that get, with commas",
        ))?
        .arg(option(
            alloc,
            "delete-ops",
            "WORDS",
            "Words of the column op that delete",
        ))?
        .arg(option(alloc, "part", "I/K", part))?
        .arg(option(alloc, "sample", "1/K", sample))?
        .arg(option(
            alloc,
            "sample-parts",
            "COUNT",
            "With --sample: how many parts [default: 5]",
        ))?
        .arg(option(alloc, "misses", "SIZE=FILE", misses))?
        .arg(option(alloc, "ttl", "SECONDS", ttl))?
        .arg(option(alloc, "interval", "SECONDS", by))?
        .arg(
            Arg::new(alloc, "quiet")
                .long("quiet")
                .action(ArgAction::SetTrue)
                .help("Tell nothing on standard error"),
        )
}
