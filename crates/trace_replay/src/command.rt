//! The command line of the program, as clap reads it.
ghost use Rattle.std.specs.Prelude.{◌≡◌, [], map, IfOk, IfErr, false};
ghost use Rattle.clap.specs.Values.{kind_of};
ghost use Rattle.clap.specs.Faults.{fault_of};
ghost use Rattle.clap.specs.Simple.{HasMatchesOf, app_of};
ghost use Rattle.clap.specs.Walk.{rule_of};
ghost use Rattle.trace_replay.specs.CommandLine.{app, named_app, option_rule, IsFault};
ghost use Rattle.trace_replay.specs.Rows.{with_rows};

use crate::options::OptionsError;
use clap::error::ErrorKind;
use clap::{Arg, ArgMatches, Command};
use std::alloc::{AllocError, Global};
use std::convert::AsStr;

const ABOUT: &str =
    "Replays a trace of a cache tier's events. Each line of standard input is an event as a JSON object; the line that answers it goes to standard output. After the last line comes a report on the tier.";

const STATUSES: &str =
    "Exit status: 0; 1 on an I/O error, out of memory or where no shard was saved; 2 on a bad command line.";

// An option, and what the help says of it.
#[derive(Clone, Copy)]
struct Described {
    name: &'static str,
    value: &'static str,
    required: bool,
    help: &'static str,
}

const OPTIONS: &[Described] = &[
    Described {
        name: "limit",
        value: "BYTES",
        required: true,
        help: "The most bytes that the bodies in the tier and their heads take together",
    },
    Described {
        name: "watermark",
        value: "ENTRIES",
        required: false,
        help: "The most entries that the tier tracks [default: no bound]",
    },
    Described {
        name: "shards",
        value: "COUNT",
        required: false,
        help: "How many shards the order of use has: 1, 4 or 16 [default: 1]",
    },
    Described {
        name: "seed",
        value: "SEED",
        required: false,
        help: "The seed of the generator that picks the evicted entries [default: 0]",
    },
    Described {
        name: "age",
        value: "SECONDS",
        required: false,
        help: "How long others wait for one permit to write before the next is given [default: 10]",
    },
    Described {
        name: "wait",
        value: "SECONDS",
        required: false,
        help: "How long a request waits for the permits of others in all [default: no bound]",
    },
    Described {
        name: "recency",
        value: "DIR",
        required: false,
        help: "The directory that the order of use is loaded from first and saved to at the end",
    },
];

// An error of the command line, with the usage.
pub(crate) fn fault(
    alloc: Global,
    kind: ErrorKind,
    message: &str,
) -> Result<clap::Error, AllocError>
    ensures { IfOk result (λ error. kind_of error ≡ kind) }
{
    let mut command = command(alloc)?;
    command.error(kind, message)
}

pub(crate) fn matches<'a, S: AsStr>(
    alloc: Global,
    words: &'a [S],
) -> Result<ArgMatches<'a>, OptionsError>
    ensures ok { IfOk result (HasMatchesOf app (map S.text words.entry.now)) }
    ensures faultless { IfOk result (λ _. fault_of app (map S.text words.entry.now) ≡ []) }
    ensures err { IfErr result (IsFault (map S.text words.entry.now)) }
{
    let Ok(command) = command(alloc) else {
        return Err(OptionsError::Memory);
    };
    match command.try_get_matches_from(words) {
        Ok(matches) => Ok(matches),
        Err(error) => match error.kind() {
            ErrorKind::OutOfMemory => Err(OptionsError::Memory),
            _ => Err(OptionsError::CommandLine(error)),
        },
    }
}

fn command<'a>(alloc: Global) -> Result<Command<'a>, AllocError>
    ensures { IfOk result (λ c. app_of c ≡ app) }
{
    with_options(alloc, OPTIONS)
}

fn named<'a>(alloc: Global) -> Command<'a>
    ensures { app_of result ≡ named_app }
{
    Command::new(alloc, "tier-replay")
        .version("0.1.0")
        .about(ABOUT)
        .after_help(STATUSES)
}

// The command with an option for each row.
fn with_options<'a>(alloc: Global, rows: &[Described]) -> Result<Command<'a>, AllocError>
    ensures { IfOk result (λ c. app_of c ≡ with_rows named_app rows.now) }
{
    let mut command = named(alloc);
    for &row in rows {
        command = command.arg(option(alloc, row))?;
    }
    Ok(command)
}

fn option<'a>(alloc: Global, row: Described) -> Arg<'a>
    ensures rule { rule_of result ≡ option_rule row.name.now row.required }
    ensures local { result.global ≡ false }
{
    Arg::new(alloc, row.name)
        .long(row.name)
        .value_name(row.value)
        .required(row.required)
        .help(row.help)
}
