//! A curve of the requests of a stream.
ghost use Rattle.std.specs.Prelude.{◌≡◌, ℕ, ◌+◌, ◌≤◌, ◌<◌, ◌^◌, ◌&&◌, true, if◌then◌else◌, List, [], length, take, drop, is_some, IfOk, IfErr, OnOk, IfSome};
ghost use Rattle.std.specs.List.{AllByRecursion};
ghost use Rattle.std.specs.Io.KnownBytes.{Appends, prepend_known};
ghost use Rattle.curve_sizes.specs.Rows.{limits_of};
ghost use Rattle.curve_keys.specs.Shares.{AddsLine, AreReady};
ghost use Rattle.curve_lines.specs.Copies.{Copies, IsCopy};
ghost use Rattle.curve_lines.specs.Faults.{IsRunFault};
ghost use Rattle.curve_lines.specs.Formats.{line_of};
ghost use Rattle.curve_lines.specs.Inputs.{bare};
ghost use Rattle.curve_lines.specs.Runs.{is_more, has_request, Feeds, IsFound};

use crate::fault::RunFault;
use crate::format::Rules;
use crate::input::{Input, Next, bare};
use crate::progress::{Progress, tell_at};
use crate::record::add_unit;
use crate::step::{Step, has_request, is_more, step_of};
use curve_keys::Readings;
use curve_words::Limits;
use seeded_hashing::SeededState;
use std::alloc::Global;
use std::io::{self, Read, Write};

/// What caches find of the requests of a stream.
#[derive(Drop)]
pub struct Found {
    /// The curve of each part of the keys that was asked for.
    pub readings: Readings,
    /// How many lines or records have no request.
    pub wrong: u64,
    /// How many lines or records there are.
    pub read: u64,
}

/// Reads requests, a line or record each, and returns what caches of these limits find of them. The hashes of the keys start as
/// `hasher` says: take it at random where attackers choose the keys. Beside the table of keys it takes a fixed amount of memory, however
/// long a line is: those of more than `LONGEST` bytes are passed over. To `copy` it appends the lines that go on from the limit that the
/// rules name.
///
/// # Errors
///
/// `Stream` where a read or a write fails, and not for want of memory; `Memory`; `TooHeavy` and `TooMany` where a line can't be counted,
/// as `Readings::feed` says. The lines that go on were appended to `copy` up to there, the last one perhaps in part.
pub fn curve<R: Read, W: Write, P: Progress>(
    alloc: Global,
    hasher: SeededState,
    reader: &mut R,
    limits: &Limits,
    watermark: Option<u64>,
    rules: &Rules,
    copy: &mut W,
    progress: &mut P,
) -> Result<Found, RunFault>
    ensures found { IfOk result (λ f. IfSome (R.remaining reader.old) (λ text. IsFound rules.now watermark text f)) }
    ensures limits { IfOk result (λ f. AllByRecursion (λ r. limits_of r.reading.curve.curve.curve.table ≡ limits.now.all.items) f.readings.parts.items) }
    ensures copy { IfOk result (λ f. IfSome (R.remaining reader.old) (λ text. (bytes : List ℕ) × Appends (W.contents copy.old) (W.contents copy.new) bytes
        × IsCopy rules.now limits.now.all.items watermark text bytes)) }
    ensures fault { IfErr result IsRunFault }
{
    let mut readings = Readings::new(
        alloc,
        hasher,
        rules.parts.as_slice(),
        limits.as_slice(),
        watermark,
        rules.is_timed(),
        rules.by,
        rules.misses,
    )?;
    let mut wrong = 0;
    let mut input = Input::new(alloc)?;
    for read in 0..u64::MAX {
        let step = feed(alloc, rules, reader, &mut input, &mut readings, copy)?;
        if !is_more(step) {
            readings.finish(alloc)?;
            return Ok(Found {
                readings,
                wrong,
                read,
            });
        }
        wrong = counted(wrong, has_request(step));
        tell_at(progress, step, read, &readings);
    }
    Err(RunFault::TooMany)
}

// Feeds the request of the next line or record, and copies it if it goes on.
fn feed<R: Read, W: Write>(
    alloc: Global,
    rules: &Rules,
    reader: &mut R,
    input: &mut Input,
    readings: &mut Readings,
    copy: &mut W,
) -> Result<Step, RunFault>
    requires { AreReady readings.old }
    ensures fed { IfOk result (λ step. Feeds rules.now (prepend_known input.old (R.remaining reader.old)) (prepend_known input.new (R.remaining reader.new)) readings.old readings.new step) }
    ensures copied { IfOk result (λ step. Copies rules.now.format (prepend_known input.old (R.remaining reader.old)) step readings.new.missed (W.contents copy.old) (W.contents copy.new)) }
    ensures fault { IfErr result IsRunFault }
{
    match input.next(reader, rules.format)? {
        Next::End => Ok(Step::End),
        Next::Held(len) => {
            let step = feed_held(alloc, rules, input, len, readings, copy)?;
            Ok(step)
        }
        Next::TooLong => {
            input.skip_line(reader)?;
            Ok(Step::TooLong)
        }
    }
}

// Feeds the request of the line or record of so many bytes that comes first among those held, and copies it if it goes on.
fn feed_held<W: Write>(
    alloc: Global,
    rules: &Rules,
    input: &mut Input,
    len: usize,
    readings: &mut Readings,
    copy: &mut W,
) -> Result<Step, RunFault>
    requires ready { AreReady readings.old }
    requires within { len ≤ length input.old }
    ensures rest { OnOk result (input.new ≡ drop len input.old) }
    ensures fed { OnOk result (AddsLine (line_of rules.now (bare rules.now.format (take len input.old))) readings.old readings.new) }
    ensures told { IfOk result (λ step. has_request step ≡ is_some (line_of rules.now (bare rules.now.format (take len input.old)))) }
    ensures more { IfOk result (λ step. is_more step ≡ true) }
    ensures copied { IfOk result (λ step. Appends (W.contents copy.old) (W.contents copy.new) (if has_request step && readings.new.missed then take len input.old else [])) }
    ensures fault { IfErr result IsRunFault }
{
    let yes = add_unit(readings, alloc, rules, bare(rules.format, input.front(len)))?;
    copy_line(copy, yes && readings.missed, input.front(len))?;
    input.skip(len);
    Ok(step_of(yes))
}

// Appends a line or record that goes on.
fn copy_line<W: Write>(copy: &mut W, goes_on: bool, line: &[u8]) -> io::Result<()>
    ensures { OnOk result (Appends (W.contents copy.old) (W.contents copy.new) (if goes_on then line.now else [])) }
{
    if goes_on {
        copy.write_all(line)?;
    }
    Ok(())
}

// One line or record more.
fn counted(wrong: u64, yes: bool) -> u64
    requires { wrong + 1 < 2 ^ 64 }
    ensures value { result ≡ wrong + (if yes then 0 else 1) }
    ensures most { result ≤ wrong + 1 }
{
    if yes { wrong } else { wrong + 1 }
}
