//! Reads requests on standard input, a line or record each, and writes what caches of all named limits find of them.
#![tactic(auto)]

mod columns;
mod command;
mod fault;
mod limits;
mod misses;
mod options;
mod parts;
mod words;

use crate::fault::Fault;
use crate::options::{Options, read_options};
use curve_lines::{Found, LONGEST, Progress, Refusal, RunFault, curve, report};
use log::{Log, warn};
use seeded_hashing::SeededState;
use std::fs;
use std::io::{self, BufWriter, Read, Write};
use std::process::ExitCode;
use std::random::RandomSource;
use std::rt::{Env, Files};

fn main(rt: HostRuntime) -> ExitCode {
    let outcome = shown(&rt, run(&rt));
    ExitCode::from(status(&outcome))
}

// Hashes with a start that nobody knows, since attackers choose the keys of requests.
fn random_start<R: RandomSource>(rt: &R) -> Result<SeededState, io::Error> {
    let mut bytes = [0; 8];
    rt.fill_bytes(&mut bytes)?;
    Ok(SeededState {
        word: u64::from_le_bytes(bytes),
    })
}

// How many lines or records that are passed over are named; the others are only counted.
const MOST_NAMED: u64 = 10;

// Tells on standard error how far a run has come, and what is passed over.
#[derive(Drop)]
struct Told<'a, R> {
    rt: &'a R,
    quiet: bool,
    // How many lines at the start aren't read, and have numbers.
    skipped: u64,
    // How many that were passed over were named.
    named: u64,
}

impl<'a, R: Log> Progress for Told<'a, R> {
    fn tell(&mut self, read: u64, entries: usize) {
        if !self.quiet {
            warn!(self.rt; "{read} lines or records read, {entries} entries");
        }
    }

    fn refuse(&mut self, number: u64, why: Refusal) {
        if self.quiet || self.named >= MOST_NAMED {
            return;
        }
        self.named += 1;
        let number = number.saturating_add(self.skipped);
        match why {
            Refusal::TooLong => {
                warn!(self.rt; "line {number} is longer than {LONGEST} bytes: passed over");
            }
            Refusal::NoRequest => {
                warn!(self.rt; "line or record {number} has no request: passed over");
            }
        }
    }
}

// Runs by the options of the command line.
fn run<R: Env + Files + Input + Print + AllocGlobal + RandomSource + Log>(
    rt: &R,
) -> Result<(), Fault> {
    let options = read_options(rt)?;
    run_with(rt, &options).map_err(Fault::Run)
}

// Reads so many lines, and keeps none.
fn skip_lines<R: Read>(reader: &mut R, count: u64) -> io::Result<()> {
    let mut left = count;
    let mut byte = [0; 1];
    for _ in 0..u64::MAX {
        if left == 0 || reader.read(&mut byte)? == 0 {
            return Ok(());
        }
        if byte[0] == b'\n' {
            left = left.saturating_sub(1);
        }
    }
    Ok(())
}

// What is found of standard input; the misses are copied.
fn found_of<R: Input + AllocGlobal + RandomSource + Log, W: Write>(
    rt: &R,
    options: &Options,
    copy: &mut W,
) -> Result<Found, RunFault> {
    let hasher = random_start(rt)?;
    let mut reader = rt.reader();
    skip_lines(&mut reader, options.skip)?;
    curve(
        rt.alloc(),
        hasher,
        &mut reader,
        &options.limits,
        options.watermark,
        &options.rules,
        copy,
        &mut Told {
            rt,
            quiet: options.quiet,
            skipped: options.skip,
            named: 0,
        },
    )
}

// What is found of standard input; the misses are copied to a file.
fn found_beside<R: Files + Input + AllocGlobal + RandomSource + Log>(
    rt: &R,
    options: &Options,
    path: &str,
) -> Result<Found, RunFault> {
    let mut file = BufWriter::new(rt.alloc(), fs::create(rt, path)?)?;
    let found = found_of(rt, options, &mut file)?;
    file.flush()?;
    Ok(found)
}

// Reads standard input, and writes what was found.
fn run_with<R: Files + Input + Print + AllocGlobal + RandomSource + Log>(
    rt: &R,
    options: &Options,
) -> Result<(), RunFault> {
    let alloc = rt.alloc();
    let found = match &options.misses {
        None => found_of(rt, options, &mut Vec::new(alloc))?,
        Some(path) => found_beside(rt, options, path.as_str())?,
    };
    report(alloc, &mut io::writer(rt), &options.rules, &found)
}

// The exit status: 0 on success or if help or the version was requested, 1 on an I/O error or out of memory, 2 on a bad command
// line.
fn status(outcome: &Result<(), Fault>) -> u8 {
    match outcome {
        Ok(()) => 0,
        Err(Fault::Run(_)) => 1,
        Err(Fault::CommandLine(error)) => { if error.use_stderr() { 2 } else { 0 } }
        Err(Fault::Wrong(_)) => 2,
    }
}

// Shows a fault on standard error, and a text that was requested on standard output: where that can't be written, this is the outcome.
fn shown<R: Log + Print + Eprint>(rt: &R, outcome: Result<(), Fault>) -> Result<(), Fault> {
    match &outcome {
        Ok(()) => {}
        Err(Fault::CommandLine(error)) => {
            if !error.use_stderr() {
                error.print(rt)?;
            } else {
                let _ = error.print(rt);
            }
        }
        Err(fault) => warn!(rt; "{fault}"),
    }
    outcome
}
