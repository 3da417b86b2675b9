//! Four threads that share one tier, as the workers of a proxy do, and what came of it:
//!
//!     example_threads kept|counted CALLS [timed]
//!
//! Each thread makes CALLS calls (an event with its answer is one call), by the mix that `mix` describes. What is printed is the same
//! whatever the order in which the threads get the lock, but for the line that `timed` adds: the microseconds of the four threads' calls.
//! Exit status 1, with a line on standard error, where the command line is wrong or something can't be done.
//!
//! - `counted` is for production: `cache_tier::CountedTier` counts the calls and keeps none, so its memory is the tier's.
//! - `kept` is for tests: `cache_tier::SharedTier` keeps every event with a note of its outcome, for its history and for the pass that
//!   made the call. So its memory grows with each call, by some 300 bytes in this mix. A history of at most 10,000 records is replayed.
//!
//! What a caller needs beside the tier:
//!
//! - **The ledger.** `Blank::new(LEDGER_PARTS)` is a ledger with nothing in it. Each pass takes one of its parts and the tier keeps one, so
//!   a tier gives at most `LEDGER_PARTS - 1` passes. It takes no memory.
//! - **`Brand`.** The type parameter `L: Ledger` names the ledger, so that the passes of one tier fit no other. Write a function over `L`
//!   that requires that the blank ledger has its name (`counted_day`), and call it with `Brand`: `proofs/shared_day/Invariants.antt` picks the name.
//! - **Passes.** A thread makes its calls with a pass of its own, which each call borrows, so two threads never call with one.
//! - **`gather` and `close`.** Each pass is handed back. Then `close` gives the tier with its count or its history, which has the calls of all
//!   passes and no other. Where a pass is lost `close` is refused, and `abandon` gives the tier without that.
#![tactic(auto)]

mod caller;
mod counted;
mod kept;
mod mix;
mod outcome;
mod setting;

use cache_tier::LEDGER_PARTS;
use counted::counted_day;
use kept::kept_day;
use outcome::{Day, Trouble, advice};
use std::marker::Brand;
use std::process::ExitCode;
use std::rt::{Clock, Env};
use std::sync::Wait;
use std::sync::ledger::Blank;
use std::thread::Threads;
use std::{env, io};

// Which tier the threads share.
#[derive(Clone, Copy)]
enum Mode {
    Kept,
    Counted,
}

// What the command line asks for.
#[derive(Clone, Copy)]
struct Order {
    mode: Mode,
    calls: u32,
    is_timed: bool,
}

fn mode_of(word: &str) -> Option<Mode> {
    match word {
        "kept" => Some(Mode::Kept),
        "counted" => Some(Mode::Counted),
        _ => None,
    }
}

fn order_of(words: &[String]) -> Option<Order> {
    let (mode, calls, is_timed) = match words {
        [_, mode, calls] => (mode, calls, false),
        [_, mode, calls, word] if word.as_str() == "timed" => (mode, calls, true),
        _ => return None,
    };
    Some(Order {
        mode: mode_of(mode.as_str())?,
        calls: calls.as_str().parse::<u32>().ok()?,
        is_timed,
    })
}

fn ordered(rt: &(impl Env + AllocGlobal)) -> Result<Order, Trouble> {
    let words = match env::args(rt) {
        Ok(words) => words,
        Err(error) if error.kind() == io::ErrorKind::InvalidData => {
            return Err(Trouble::CommandLine);
        }
        Err(error) => return Err(Trouble::from(error)),
    };
    let Ok(words) = words.collect(rt.alloc()) else {
        return Err(Trouble::Memory);
    };
    let words: Vec<String> = words;
    match order_of(words.as_slice()) {
        Some(order) => Ok(order),
        None => Err(Trouble::CommandLine),
    }
}

fn show(rt: &impl Print, order: &Order, day: &Day) -> io::Result<()> {
    println!(rt;
        "{} calls made, {} answered, {} fresh hits, {} bytes read",
        day.tally.calls, day.tally.answered, day.tally.fresh, day.tally.bytes
    )?;
    println!(rt; "{} calls at close", day.recorded)?;
    println!(rt;
        "bodies={} bytes={} found={} absent={}",
        day.report.bodies, day.report.bytes, day.report.found, day.report.absent
    )?;
    if let Some(same) = day.replayed {
        println!(rt; "{same} notes of the replay are the same")?;
    }
    if order.is_timed {
        println!(rt; "microseconds={}", day.took.as_micros())?;
    }
    Ok(())
}

// Names a new ledger, and lets four threads share a tier whose calls it counts.
fn shared_day<W: Threads + Wait + Clock + AllocGlobal + Sync>(
    rt: &W,
    order: &Order,
) -> Result<Day, Trouble> {
    let blank = Blank::new(LEDGER_PARTS);
    match order.mode {
        Mode::Kept => kept_day::<Brand, W>(rt, rt.alloc(), blank, order.calls),
        Mode::Counted => counted_day::<Brand, W>(rt, rt.alloc(), blank, order.calls),
    }
}

fn run<W: Threads + Wait + Clock + Env + Print + AllocGlobal + Sync>(
    rt: &W,
) -> Result<(), Trouble> {
    let order = ordered(rt)?;
    let day = shared_day(rt, &order)?;
    show(rt, &order, &day)?;
    Ok(())
}

fn main(rt: HostRuntime) -> ExitCode {
    match run(&rt) {
        Ok(()) => ExitCode::SUCCESS,
        Err(trouble) => {
            let _ = eprintln!(rt; "{}", advice(&trouble));
            ExitCode::FAILURE
        }
    }
}
