//! Answers a trace of a cache tier's events: lines of JSON on standard input, a line for each on standard output, and a
//! report after the last answer.
#![tactic(auto)]

use cache_evict::LoadFault;
use log::{Log, warn};
use lru_files::persistence::{HostFolder, ShardLoadFailure, ShardLoadReport};
use seeded_hashing::SeededState;
use std::io;
use std::process::ExitCode;
use std::random::RandomSource;
use std::rt::{Env, Files};
use trace_replay::options::{OptionsError, options, words};
use trace_replay::replay::ReplayError;
use trace_replay::restart::run_reporting;
use trace_replay::status::{Fault, status};

fn main(rt: HostRuntime) -> ExitCode {
    let outcome = shown(&rt, replay_input(&rt));
    ExitCode::from(status(&outcome))
}

// Hashes with a start that nobody knows, since attackers choose the keys of a trace.
fn random_start<R: RandomSource>(rt: &R) -> Result<SeededState, io::Error> {
    let mut bytes = [0; 8];
    rt.fill_bytes(&mut bytes)?;
    Ok(SeededState {
        word: u64::from_le_bytes(bytes),
    })
}

// Replays standard input by the options of the command line.
fn replay_input<R: Env + Files + Input + Print + Log + AllocGlobal + RandomSource + Clone + Drop>(
    rt: &R,
) -> Result<(), Fault> {
    let alloc = rt.alloc();
    let words = words(rt).map_err(Fault::Options)?;
    let options = options(alloc, words.as_slice()).map_err(Fault::Options)?;
    let hasher = random_start(rt).map_err(|error| Fault::Replay(ReplayError::from(error)))?;
    let mut reader = rt.reader();
    let mut writer = io::writer(rt);
    let mut folder = HostFolder::new(rt.clone()?);
    let mut loaded = None;
    let outcome = run_reporting(
        alloc,
        hasher,
        &mut folder,
        &mut reader,
        &mut writer,
        &options,
        &mut loaded,
    );
    if let Some(report) = &loaded {
        show_unloaded(rt, report);
    }
    outcome.map_err(Fault::Replay)
}

// Shows each shard whose file was there and could not be loaded, with the reason: the save at the end puts another file in its place.
fn show_unloaded<R: Log>(rt: &R, report: &ShardLoadReport<LoadFault>) {
    for (shard, failure) in &report.errored {
        match failure {
            ShardLoadFailure::Io(call) => {
                warn!(rt; "shard {shard} was not loaded: {call:?} of its file failed");
            }
            ShardLoadFailure::Deserialize(fault) => {
                warn!(rt; "shard {shard} was not loaded: {fault}");
            }
            ShardLoadFailure::Memory => warn!(rt; "shard {shard} was not loaded: out of memory"),
        }
    }
}

// Shows a fault on standard error, and a text that was requested on standard output: where that can't be written, this is the outcome.
fn shown<R: Log + Print + Eprint>(rt: &R, outcome: Result<(), Fault>) -> Result<(), Fault> {
    match &outcome {
        Ok(()) => {}
        Err(Fault::Options(OptionsError::CommandLine(error))) if !error.use_stderr() => {
            error.print(rt)?;
        }
        Err(
            Fault::Options(
                OptionsError::CommandLine(error)
                | OptionsError::WrongValue(_, error)
                | OptionsError::NotUtf8(error),
            ),
        ) => {
            let _ = error.print(rt);
        }
        Err(fault) => warn!(rt; "{fault}"),
    }
    outcome
}
