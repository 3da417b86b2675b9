//! Answering a trace.
ghost use Rattle.std.specs.Prelude.{◌≡◌, ℕ, List, [], ◌++◌, IfOk, IfErr, OnOk, OnErr, IfSome, string_bytes, ◌<◌, ◌≤◌, ◌-◌, ◌^◌, length};
ghost use Rattle.std.specs.Io.KnownBytes.{Appends, Keeps, prepend_known};
ghost use Rattle.std.specs.Io.BufRead.{strip_last};
ghost use Rattle.tier_model.specs.Histories.{empty_opening};
ghost use Rattle.tier_model.specs.Past.{HasPast};
ghost use Rattle.tier_model.specs.Reports.{report_of};
ghost use Rattle.tier_model.specs.State.{empty_state};
ghost use Rattle.trace_lines.specs.Lines.{line_of};
ghost use Rattle.trace_lines.specs.Texts.{report_text};
ghost use Rattle.trace_replay.specs.Starts.{settings_over, start_over, start_of};
ghost use Rattle.trace_replay.specs.Replays.{requests_in, lines_in, ended, Start, EndsReplay, IsReplay, IsBegun};
ghost use Rattle.trace_replay.specs.Words.{pcg_words};
ghost use Rattle.trace_replay.specs.Errors.{IsOther, IsToldAs};
ghost use Rattle.trace_replay.specs.Inputs.{IsLineBefore};
ghost use Rattle.trace_replay.specs.Outputs.{Passes, HasBegun};
ghost use Rattle.trace_replay.specs.declared.replay.ReplayError.TheVariants.{Memory};
ghost use Rattle.trace_replay.specs.Steps.{Answers, RepliesTo};

use crate::input::Input;
use crate::options::{ReplayOptions, ShardCount};
use crate::output::hand_on;
use cache_words::time::Duration;
use rand_core::{Rng, SeedableRng};
use rand_pcg::Pcg64;
use seeded_hashing::SeededState;
use std::alloc::{AllocError, AllocFailed, Global};
use std::io;
use std::io::{Read, Write};
use thiserror::Error;
use tier_model::event::Event;
use tier_single::tier::Tier;
use trace_lines::line::Line;
use trace_lines::read::LineReader;
use trace_lines::text::{add_outcome_line, add_refusal_line, add_report_line};

// From so many bytes on, answers go out even while whole lines are held.
const MOST_WAITING: usize = 65536;

/// Why a replay ended early, or saved nothing. The first two are faults of a stream.
#[derive(Debug, Drop, Error)]
pub enum ReplayError {
    /// A read or a write failed, and not since memory was refused.
    #[error("{0}")]
    Stream(io::Error),
    /// The trace has more lines than can be counted.
    #[error("more than 18446744073709551615 reads")]
    TooManyReads,
    /// No memory was left.
    #[error("out of memory")]
    Memory,
    /// No shard of the order of use was saved.
    #[error("the order of use could not be saved")]
    Folder,
}

impl From<io::Error> for ReplayError {
    ghost from_gives = { λ error e. IsOther e × IsToldAs error e };

    fn from(error: io::Error) -> ReplayError {
        match error.kind() {
            io::ErrorKind::OutOfMemory => ReplayError::Memory,
            _ => ReplayError::Stream(error),
        }
    }
}

impl From<AllocError> for ReplayError {
    ghost from_gives = { λ _ e. e ≡ Memory };

    fn from(_error: AllocError) -> ReplayError {
        ReplayError::Memory
    }
}

impl<T: Drop> From<AllocFailed<T>> for ReplayError {
    ghost from_gives = { λ _ e. e ≡ Memory };

    fn from(_error: AllocFailed<T>) -> ReplayError {
        ReplayError::Memory
    }
}

/// Answers each line of a trace, in order, by a tier that begins empty, and reports on the tier after the last. It loads and
/// saves nothing, whatever directory the options name: that does [`run_in`](crate::restart::run_in). What was
/// answered is handed on before each read. At most 2^64 - 1 lines are read. An error leaves a beginning of what was to
/// be written. The hashes of the tier's tables start as `hasher` says: take it at random where attackers choose the keys, who
/// then can't slow look-ups down.
pub fn run<R: Read, W: Write>(
    alloc: Global,
    hasher: SeededState,
    reader: &mut R,
    writer: &mut W,
    options: &ReplayOptions,
) -> Result<(), ReplayError>
    ensures answered { OnOk result (IfSome (R.remaining reader.old) (λ input. (text : List ℕ)
        × Appends (W.contents writer.old) (W.contents writer.new) text
        × IsReplay (start_of options.now) (requests_in input) text)) }
    ensures begun { OnErr result (IfSome (R.remaining reader.old) (λ input. (text : List ℕ)
        × Appends (W.contents writer.old) (W.contents writer.new) text
        × IsBegun (start_of options.now) (requests_in input) text)) }
    ensures too_many { result ≡ Err ReplayError.TooManyReads → IfSome (R.remaining reader.old) (λ input. 2 ^ 64 - 1 ≤ length (lines_in input)) }
    ensures unsaved { result ≡ Err ReplayError.Folder → ⊥ }
{
    match options.shards {
        ShardCount::One => run_over::<R, W, 1>(alloc, hasher, reader, writer, options),
        ShardCount::Four => run_over::<R, W, 4>(alloc, hasher, reader, writer, options),
        ShardCount::Sixteen => run_over::<R, W, 16>(alloc, hasher, reader, writer, options),
    }
}

// The same by a tier of N shards.
fn run_over<R: Read, W: Write, const N: usize>(
    alloc: Global,
    hasher: SeededState,
    reader: &mut R,
    writer: &mut W,
    options: &ReplayOptions,
) -> Result<(), ReplayError>
    requires { 0 < N }
    ensures answered { OnOk result (IfSome (R.remaining reader.old) (λ input. (text : List ℕ)
        × Appends (W.contents writer.old) (W.contents writer.new) text
        × IsReplay (start_over N options.now) (requests_in input) text)) }
    ensures begun { OnErr result (IfSome (R.remaining reader.old) (λ input. (text : List ℕ)
        × Appends (W.contents writer.old) (W.contents writer.new) text
        × IsBegun (start_over N options.now) (requests_in input) text)) }
    ensures too_many { result ≡ Err ReplayError.TooManyReads → IfSome (R.remaining reader.old) (λ input. 2 ^ 64 - 1 ≤ length (lines_in input)) }
    ensures unsaved { result ≡ Err ReplayError.Folder → ⊥ }
{
    let mut tier = tier_for::<N>(alloc, hasher, options)?;
    let mut rng = Pcg64::seed_from_u64(options.seed);
    answer_trace(alloc, &mut tier, &mut rng, reader, writer)
}

// Answers each line of a trace by this tier, and reports on it, from whichever beginning the tier and the words are.
pub(crate) fn answer_trace<R: Read, W: Write, const N: usize>(
    alloc: Global,
    tier: &mut Tier<N, SeededState>,
    rng: &mut Pcg64,
    reader: &mut R,
    writer: &mut W,
) -> Result<(), ReplayError>
    ensures answered { (start : Start) → HasPast start.opening tier.old [] → pcg_words rng.old ≡ start.words → OnOk result (IfSome (R.remaining reader.old) (λ input. (text : List ℕ)
        × Appends (W.contents writer.old) (W.contents writer.new) text
        × EndsReplay start (requests_in input) text tier.new (pcg_words rng.new))) }
    ensures begun { (start : Start) → HasPast start.opening tier.old [] → pcg_words rng.old ≡ start.words → OnErr result (IfSome (R.remaining reader.old) (λ input. (text : List ℕ)
        × Appends (W.contents writer.old) (W.contents writer.new) text
        × IsBegun start (requests_in input) text)) }
    ensures too_many { (start : Start) → HasPast start.opening tier.old [] → pcg_words rng.old ≡ start.words → result ≡ Err ReplayError.TooManyReads
        → IfSome (R.remaining reader.old) (λ input. 2 ^ 64 - 1 ≤ length (lines_in input)) }
    ensures unsaved { result ≡ Err ReplayError.Folder → ⊥ }
{
    let mut input = Input::new(alloc)?;
    let mut lines = LineReader::new(alloc);
    let mut waiting = Vec::new(alloc);
    for _ in 0..u64::MAX {
        let len = next_line(&mut input, reader, &mut waiting, writer)?;
        if len == 0 {
            return finish(alloc, tier, &mut waiting, writer);
        }
        let line = without_line_feed(input.front(len));
        if let Err(error) = add_answer(alloc, tier, &mut lines, rng, line, &mut waiting) {
            hand_on(&mut waiting, writer)?;
            return Err(error);
        }
        input.skip(len);
    }
    hand_on(&mut waiting, writer)?;
    Err(ReplayError::TooManyReads)
}

// An empty tier as the options say.
pub(crate) fn tier_for<const N: usize>(
    alloc: Global,
    hasher: SeededState,
    options: &ReplayOptions,
) -> Result<Tier<N, SeededState>, AllocError>
    requires { 0 < N }
    ensures state { IfOk result (λ tier. tier ≡ empty_state (settings_over N options.now)) }
    ensures past { IfOk result (λ tier. HasPast (empty_opening (settings_over N options.now)) tier []) }
{
    let watermark = options.watermark.map(|entries| entries as usize);
    let age = Duration::from_seconds(options.age);
    let wait = options.wait.map(Duration::from_seconds);
    Tier::with_hasher(alloc, hasher, options.limit as usize, watermark, age, wait)
}

// The length of the next line. What is waiting goes out before the stream is read, and where it is much.
fn next_line<R: Read, W: Write>(
    input: &mut Input,
    reader: &mut R,
    waiting: &mut Vec<u8>,
    writer: &mut W,
) -> Result<usize, ReplayError>
    ensures kept { OnOk result (Keeps (prepend_known input.old (R.remaining reader.old)) (prepend_known input.new (R.remaining reader.new))) }
    ensures within { IfOk result (λ n. n ≤ length input.new) }
    ensures line { IfOk result (λ n. IfSome (R.remaining reader.new) (λ rest. IsLineBefore n input.new rest)) }
    ensures passed { OnOk result (Passes (W.contents writer.old) (W.contents writer.new) waiting.old.items waiting.new.items) }
    ensures begun { OnErr result (HasBegun (W.contents writer.old) (W.contents writer.new) waiting.old.items) }
    ensures other { IfErr result IsOther }
{
    if waiting.len() < MOST_WAITING
        && let Some(len) = input.held_line()
    {
        return Ok(len);
    }
    hand_on(waiting, writer)?;
    Ok(input.next_line(reader)?)
}

fn finish<W: Write, const N: usize>(
    alloc: Global,
    tier: &Tier<N, SeededState>,
    waiting: &mut Vec<u8>,
    writer: &mut W,
) -> Result<(), ReplayError>
    ensures written { OnOk result (Appends (W.contents writer.old) (W.contents writer.new) (waiting.old.items ++ ended (report_text (report_of tier.now)))) }
    ensures begun { OnErr result (HasBegun (W.contents writer.old) (W.contents writer.new) (waiting.old.items ++ ended (report_text (report_of tier.now)))) }
    ensures other { IfErr result IsOther }
{
    if let Err(error) = report(alloc, tier, waiting) {
        hand_on(waiting, writer)?;
        return Err(ReplayError::from(error));
    }
    hand_on(waiting, writer)
}

// Adds the report to what is waiting.
fn report<const N: usize>(
    alloc: Global,
    tier: &Tier<N, SeededState>,
    waiting: &mut Vec<u8>,
) -> Result<(), AllocError>
    ensures ok { OnOk result (waiting.new.items ≡ waiting.old.items ++ ended (report_text (report_of tier.now))) }
    ensures err { OnErr result (waiting.new.items ≡ waiting.old.items) }
{
    add_report_line(alloc, waiting, &tier.report())
}

// A line without the line feed that ends it.
fn without_line_feed(line: &[u8]) -> &[u8]
    ensures { result.now ≡ strip_last 10 line.now }
{
    match line.split_last() {
        Some((b'\n', front)) => front,
        _ => line,
    }
}

// Has the tier take an event, and adds the line for its outcome to what is waiting.
fn add_reply<G: Rng, const N: usize>(
    alloc: Global,
    tier: &mut Tier<N, SeededState>,
    rng: &mut G,
    event: &Event,
    waiting: &mut Vec<u8>,
) -> Result<(), AllocError>
    ensures answered { OnOk result ((text : List ℕ) × (waiting.new.items ≡ waiting.old.items ++ ended text)
        × RepliesTo (record { state = tier.old; words = G.stream rng.old }) (record { state = tier.new; words = G.stream rng.new }) event.now text) }
    ensures err { OnErr result (waiting.new.items ≡ waiting.old.items) }
{
    let outcome = tier.step(rng, event);
    add_outcome_line(alloc, waiting, &outcome)
}

// Adds the line that answers a line to what is waiting.
fn add_answer<G: Rng, const N: usize>(
    alloc: Global,
    tier: &mut Tier<N, SeededState>,
    lines: &mut LineReader,
    rng: &mut G,
    line: &[u8],
    waiting: &mut Vec<u8>,
) -> Result<(), ReplayError>
    ensures answered { OnOk result ((text : List ℕ) × (waiting.new.items ≡ waiting.old.items ++ text)
        × Answers (record { state = tier.old; words = G.stream rng.old }) (record { state = tier.new; words = G.stream rng.new }) (line_of line.now) text) }
    ensures err { OnErr result (waiting.new.items ≡ waiting.old.items) }
    ensures other { IfErr result IsOther }
{
    match lines.read(alloc, line)? {
        Line::Refused(refusal) => add_refusal_line(waiting, &refusal)?,
        Line::Accepted(event) => add_reply(alloc, tier, rng, &event, waiting)?,
    }
    Ok(())
}
