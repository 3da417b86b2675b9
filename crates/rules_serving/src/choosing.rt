//! How what was found may answer, and whether it may in the place of an error.
ghost use Rattle.std.specs.Prelude.{◌≡◌, option_map, IfOk};
ghost use Rattle.rules_fields.specs.Types.{asked_of, kept_of, chosen};
ghost use Rattle.rules_ffi_arguments.specs.Given.{Gives, NeedsNoMemory};
ghost use Rattle.rules_ffi_results.specs.Telling.{Tells, Writes};
ghost use Rattle.rules_ffi_results.specs.Numbers.{blank};
ghost use Rattle.rules_serving.specs.Choices.{checked, prepared_in, told_words, use_number, use_by, use_in, told_use, origin_status, spared, spared_in, told_spare};

use rules_ffi_arguments::bad::Bad;
use rules_ffi_arguments::kept::kept;
use rules_ffi_arguments::moments::moment_in;
use rules_ffi_arguments::options::{are_numbers, lists_in, options};
use rules_ffi_arguments::prepared::prepared;
use rules_ffi_arguments::request::request;
use rules_ffi_arguments::response::code_in;
use rules_ffi_arguments::room::put;
use rules_ffi_arguments::shapes::{HeadShape, OptionNumbers, Out, RequestShape, Span};
use rules_ffi_arguments::spans::{block_lines, lines_in};
use rules_ffi_arguments::words::wrong_row;
use rules_ffi_results::marks::{BAD_CALL, DONE, MEMORY, NO_ROOM, blank, mark};
use rules_fields::types::{Kept, Options, Request};
use rules_reuse::using::{Use, error_of, goes_by_lines, may_spare, use_of};
use std::alloc::{AllocError, Global};

/// Whether the options can be taken: `choice` is the line of the words that is wrong, from 1 on, and 0 where a number is.
pub fn check(numbers: &OptionNumbers, words: &[u8], out: &mut Out)
    ensures { out.new ≡ checked numbers.now words.now }
{
    let wrong = wrong_row(words);
    *out = if wrong == 0 && are_numbers(numbers) {
        blank(DONE, 0)
    } else {
        Out {
            choice: wrong,
            ..blank(BAD_CALL, 0)
        }
    };
}

/// Words prepared, in `head`: given in the place of `words`, they are read fastest.
pub fn prepare(alloc: Global, numbers: &OptionNumbers, words: &[u8], room: &mut [u8], out: &mut Out)
    ensures { Writes blank (option_map told_words (prepared_in numbers.now words.now)) room.old room.new out.new }
{
    *out = match made_ready(alloc, numbers, words) {
        Err(Bad::Memory) => blank(MEMORY, 0),
        Err(Bad::Call) => blank(BAD_CALL, 0),
        Ok(text) => {
            let to = text.len() as u64;
            if put(room, text.as_slice()) {
                Out {
                    head: Span { from: 0, to },
                    ..blank(DONE, 0)
                }
            } else {
                blank(NO_ROOM, to)
            }
        }
    };
}

fn made_ready(alloc: Global, numbers: &OptionNumbers, words: &[u8]) -> Result<Vec<u8>, Bad>
    ensures { Gives (λ t. t.items) result (prepared_in numbers.now words.now) }
{
    if !are_numbers(numbers) {
        return Err(Bad::Call);
    }
    prepared(alloc, words)
}

/// The number of a use.
pub fn number_of(picked: Use) -> u64
    ensures { result ≡ use_number picked }
{
    match picked {
        Use::Fresh => 1,
        Use::Stale => 2,
        Use::Meanwhile => 3,
        Use::Validate => 4,
        Use::Pass => 5,
    }
}

/// How what was found may answer: `choice`.
pub fn choose(
    alloc: Global,
    numbers: &OptionNumbers,
    words: &[u8],
    shape: &RequestShape,
    text: &[u8],
    head: &HeadShape,
    block: &[u8],
    seconds: u64,
    nanoseconds: u64,
    out: &mut Out,
)
    ensures { Tells blank (option_map told_use (use_in numbers.now words.now shape.now text.now head.now block.now seconds nanoseconds)) out.new }
{
    *out = match picked(
        alloc,
        numbers,
        words,
        shape,
        text,
        head,
        block,
        seconds,
        nanoseconds,
    ) {
        Err(Bad::Memory) => blank(MEMORY, 0),
        Err(Bad::Call) => blank(BAD_CALL, 0),
        Ok(it) => Out {
            choice: number_of(it),
            ..blank(DONE, 0)
        },
    };
}

#[tactic(auto, unfolding(crate::specs::Choices::use_in))]
fn picked(
    alloc: Global,
    numbers: &OptionNumbers,
    words: &[u8],
    shape: &RequestShape,
    text: &[u8],
    head: &HeadShape,
    block: &[u8],
    seconds: u64,
    nanoseconds: u64,
) -> Result<Use, Bad>
    ensures { Gives (λ u. u) result (use_in numbers.now words.now shape.now text.now head.now block.now seconds nanoseconds) }
{
    let lists = lists_in(alloc, words)?;
    let options = options(numbers, &lists)?;
    let asked = lines_in(alloc, text, shape.asked)?;
    let request = request(shape, text, asked.as_slice(), options.scheme)?;
    let now = moment_in(seconds, nanoseconds)?;
    use_by(alloc, &request, head, block, now, &options)
}

/// How what was found may answer a request that was read. Where the times decide, the stored block isn't read.
#[tactic(auto, unfolding(crate::specs::Choices::use_by))]
pub fn use_by(
    alloc: Global,
    request: &Request<'_>,
    head: &HeadShape,
    block: &[u8],
    now: u64,
    options: &Options<'_>,
) -> Result<Use, Bad>
    ensures { Gives (λ u. u) result (use_by (asked_of request.now) head.now block.now now (chosen options.now)) }
{
    let bare = kept(head, &[])?;
    if !goes_by_lines(alloc, request, &bare, now, options)? {
        return Ok(use_of(alloc, request, &bare, now, options)?);
    }
    let stored = block_lines(alloc, block)?;
    let kept = kept(head, stored.as_slice())?;
    Ok(use_of(alloc, request, &kept, now, options)?)
}

// The status of the origin's answer, none where it gave none.
fn answered(code: u64) -> Result<Option<u16>, Bad>
    ensures gives { Gives (λ s. s) result (origin_status code) }
    ensures memory { NeedsNoMemory result }
{
    if code == 0 {
        return Ok(None);
    }
    let status = code_in(code)?;
    Ok(Some(status))
}

/// Whether what is stale answers in the place of an error: `choice` 1; `code` is the status where the origin gave no answer.
pub fn spare(
    alloc: Global,
    numbers: &OptionNumbers,
    words: &[u8],
    shape: &RequestShape,
    text: &[u8],
    head: &HeadShape,
    block: &[u8],
    seconds: u64,
    nanoseconds: u64,
    code: u64,
    out: &mut Out,
)
    ensures { Tells blank (option_map told_spare (spared_in numbers.now words.now shape.now text.now head.now block.now seconds nanoseconds code)) out.new }
{
    *out = match spared(
        alloc,
        numbers,
        words,
        shape,
        text,
        head,
        block,
        seconds,
        nanoseconds,
        code,
    ) {
        Err(Bad::Memory) => blank(MEMORY, 0),
        Err(Bad::Call) => blank(BAD_CALL, 0),
        Ok((may, status)) => Out {
            choice: mark(may, 1),
            code: status as u64,
            ..blank(DONE, 0)
        },
    };
}

#[tactic(auto, unfolding(crate::specs::Choices::spared_in))]
fn spared(
    alloc: Global,
    numbers: &OptionNumbers,
    words: &[u8],
    shape: &RequestShape,
    text: &[u8],
    head: &HeadShape,
    block: &[u8],
    seconds: u64,
    nanoseconds: u64,
    code: u64,
) -> Result<(bool, u16), Bad>
    ensures { Gives (λ r. (r.0, r.1)) result (spared_in numbers.now words.now shape.now text.now head.now block.now seconds nanoseconds code) }
{
    let lists = lists_in(alloc, words)?;
    let options = options(numbers, &lists)?;
    let asked = lines_in(alloc, text, shape.asked)?;
    let request = request(shape, text, asked.as_slice(), options.scheme)?;
    let stored = block_lines(alloc, block)?;
    let kept = kept(head, stored.as_slice())?;
    let now = moment_in(seconds, nanoseconds)?;
    let status = answered(code)?;
    Ok(sparing(alloc, &request, &kept, now, status, &options)?)
}

// Whether it may, and the status of no answer; what has no status is nothing.
fn sparing(
    alloc: Global,
    request: &Request<'_>,
    kept: &Kept<'_>,
    now: u64,
    status: Option<u16>,
    options: &Options<'_>,
) -> Result<(bool, u16), AllocError>
    ensures { IfOk result (λ r. (r.0, r.1) ≡ spared (asked_of request.now) (kept_of kept.now) now status (chosen options.now)) }
{
    if kept.status == 0 {
        return Ok((false, 502));
    }
    let may = may_spare(alloc, request, kept, now, status, options)?;
    Ok((may, error_of(alloc, Some(kept), options)?))
}
