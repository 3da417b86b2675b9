//! The command line: what is read from it, the exit status and the text of a fault.
use std::alloc::{AllocError, Global};
use trace_replay::options::{OptionsError, ReplayOptions, ShardCount, options};
use trace_replay::replay::ReplayError;
use trace_replay::status::{Fault, status};

// The words of a command line, and the numbers that they give.
#[derive(Clone, Copy)]
struct Row {
    words: &'static [&'static str],
    limit: u64,
    watermark: Option<u64>,
    age: u64,
    wait: Option<u64>,
}

const READ: &[Row] = &[
    Row {
        words: &["tier-replay", "--limit=+5"],
        limit: 5,
        watermark: None,
        age: 10,
        wait: None,
    },
    Row {
        words: &[
            "tier-replay",
            "--wait",
            "0",
            "--watermark",
            "05",
            "--age=18446744073709551615",
            "--limit",
            "18446744073709551615",
        ],
        limit: 18446744073709551615,
        watermark: Some(5),
        age: 18446744073709551615,
        wait: Some(0),
    },
];

// The words of a command line, its exit status, and how the text begins that is shown for it.
const ENDS: &[(&[&str], u8, &str)] = &[
    (
        &["tier-replay"],
        2,
        "error: the following required arguments were not provided:\n  --limit <BYTES>\n\nUsage: tier-replay --limit <BYTES>\n",
    ),
    (
        &["tier-replay", "--limit", "-5"],
        2,
        "error: unexpected argument '-5' found\n\nUsage: tier-replay",
    ),
    (
        &["tier-replay", "--limit="],
        2,
        "error: invalid value '' for '--limit': a number from 0 to 18446744073709551615 is wanted\n\nUsage: tier-replay [OPTIONS] --limit <BYTES>\n",
    ),
    (
        &["tier-replay", "--limit=18446744073709551616"],
        2,
        "error: invalid value '18446744073709551616' for '--limit'",
    ),
    (
        &["tier-replay", "--limit=1", "--watermark=x"],
        2,
        "error: invalid value 'x' for '--watermark'",
    ),
    (
        &["tier-replay", "--limit=1", "--limit=1"],
        2,
        "error: the argument '--limit <BYTES>' cannot be used multiple times",
    ),
    (
        &["tier-replay", "--limit=1", "x"],
        2,
        "error: unexpected argument 'x' found",
    ),
    (
        &["tier-replay", "--limit=1", "--shards=2"],
        2,
        "error: invalid value '2' for '--shards': 1, 4 or 16 is wanted",
    ),
    (
        &["tier-replay", "--limit=1", "--wait=-1", "--age=x"],
        2,
        "error: invalid value 'x' for '--age': a number from 0 to 18446744073709551615 is wanted",
    ),
    (
        &["tier-replay", "--limit=1", "--wait=-1", "--age=0"],
        2,
        "error: invalid value '-1' for '--wait'",
    ),
    (
        &["tier-replay", "--limit=1", "--old=1"],
        2,
        "error: unexpected argument '--old' found",
    ),
    (
        &["tier-replay", "--help"],
        0,
        "Replays a trace of a cache tier's events.",
    ),
    (&["tier-replay", "--version"], 0, "tier-replay 0.1.0\n"),
];

// Whether a fault has this status, and its text begins so, or is just that.
fn is_shown(alloc: Global, fault: Fault, want: u8, text: &str, is_whole: bool) -> bool {
    let shown = format!(in alloc; "{fault}");
    let ends = status(&Err(fault)) == want;
    match shown {
        Ok(shown) if is_whole => ends && shown.as_str() == text,
        Ok(shown) => ends && shown.as_str().starts_with(text),
        Err(AllocError) => false,
    }
}

// Whether the words give the options of a row, or, without a row, a fault with this status and text.
fn is_read(alloc: Global, words: &[&str], row: Option<&Row>, status: u8, text: &str) -> bool {
    match (options(alloc, words), row) {
        (Ok(given), Some(row)) => {
            given
                == ReplayOptions {
                    limit: row.limit,
                    watermark: row.watermark,
                    shards: ShardCount::One,
                    seed: 0,
                    age: row.age,
                    wait: row.wait,
                    recency: None,
                }
        }
        (Err(error), None) => is_shown(alloc, Fault::Options(error), status, text, false),
        _ => false,
    }
}

fn all_are_read(alloc: Global) -> bool {
    let mut all = true;
    for row in READ {
        all = all && is_read(alloc, row.words, Some(row), 0, "");
    }
    for &(words, status, text) in ENDS {
        all = all && is_read(alloc, words, None, status, text);
    }
    all
}

#[test]
fn command_lines_are_read_or_end_with_a_status_and_a_text(rt: HostRuntime) {
    assert!(rt; all_are_read(rt.alloc()));
}

fn faults_are_shown(alloc: Global) -> bool {
    let replay = Fault::Replay(ReplayError::Memory);
    let reads = Fault::Replay(ReplayError::TooManyReads);
    let options = Fault::Options(OptionsError::Memory);
    is_shown(alloc, replay, 1, "out of memory", true)
        & is_shown(
            alloc,
            reads,
            1,
            "more than 18446744073709551615 reads",
            true,
        )
        & is_shown(alloc, options, 1, "out of memory", true)
}

#[test]
fn faults_have_texts(rt: HostRuntime) {
    assert!(rt; faults_are_shown(rt.alloc()));
}
