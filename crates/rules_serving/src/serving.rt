//! How what was found answers, and the answer, in one call.
ghost use Rattle.std.specs.Prelude.{◌≡◌};
ghost use Rattle.rules_fields.specs.Types.{asked_of, chosen};
ghost use Rattle.rules_ffi_arguments.specs.Given.{Gives};
ghost use Rattle.rules_ffi_results.specs.Numbers.{blank};
ghost use Rattle.rules_serving.specs.Answers.{answers, undecided, with_choice, served_in};
ghost use Rattle.rules_ffi_results.specs.Sending.{sent_view, Answers};

use crate::answering::{is_list, reply_by};
use crate::choosing::{number_of, use_by};
use rules_ffi_arguments::bad::Bad;
use rules_ffi_arguments::moments::moment_in;
use rules_ffi_arguments::options::{lists_in, options};
use rules_ffi_arguments::request::request;
use rules_ffi_arguments::shapes::{HeadShape, How, OptionNumbers, Out, PartShape, RequestShape};
use rules_ffi_arguments::spans::lines_in;
use rules_ffi_results::how::how_in;
use rules_ffi_results::marks::{BAD_CALL, DONE, MEMORY, blank};
use rules_ffi_results::sending::{Sent, placed};
use rules_reuse::using::Use;
use std::alloc::Global;

/// How what was found answers, and the answer where it does: `choice` beside what `answer` tells. Of what doesn't answer the choice alone is told.
pub fn serve(
    alloc: Global,
    numbers: &OptionNumbers,
    words: &[u8],
    shape: &RequestShape,
    text: &[u8],
    head: &HeadShape,
    block: &[u8],
    length: u64,
    seconds: u64,
    nanoseconds: u64,
    how: &How,
    room: &mut [u8],
    parts: &mut [PartShape],
    out: &mut Out,
)
    ensures { Answers blank (served_in numbers.now words.now shape.now text.now head.now block.now length seconds nanoseconds how.now) room.old room.new parts.old parts.new out.new }
{
    *out = match served(
        alloc,
        numbers,
        words,
        shape,
        text,
        head,
        block,
        length,
        seconds,
        nanoseconds,
        how,
    ) {
        Err(Bad::Memory) => blank(MEMORY, 0),
        Err(Bad::Call) => blank(BAD_CALL, 0),
        Ok(sent) => placed(&sent, room, parts),
    };
}

#[tactic(auto, unfolding(crate::specs::Answers::served_in, crate::specs::Choices::use_in, crate::specs::Answers::reply_in))]
fn served(
    alloc: Global,
    numbers: &OptionNumbers,
    words: &[u8],
    shape: &RequestShape,
    text: &[u8],
    head: &HeadShape,
    block: &[u8],
    length: u64,
    seconds: u64,
    nanoseconds: u64,
    how: &How,
) -> Result<Sent, Bad>
    ensures { Gives sent_view result (served_in numbers.now words.now shape.now text.now head.now block.now length seconds nanoseconds how.now) }
{
    let lists = lists_in(alloc, words)?;
    let options = options(numbers, &lists)?;
    let asked = lines_in(alloc, text, shape.asked)?;
    let request = request(shape, text, asked.as_slice(), options.scheme)?;
    let now = moment_in(seconds, nanoseconds)?;
    let picked = use_by(alloc, &request, head, block, now, &options)?;
    if !answers(picked) {
        return Ok(undecided(alloc, picked));
    }
    if is_list(head) {
        return Err(Bad::Call);
    }
    let how = how_in(how)?;
    let sent = reply_by(
        alloc, shape, &request, head, block, length, now, how, &options,
    )?;
    Ok(with_choice(picked, sent))
}

// Whether it answers now.
fn answers(picked: Use) -> bool
    ensures { result ≡ answers picked }
{
    match picked {
        Use::Fresh | Use::Stale | Use::Meanwhile => true,
        Use::Validate | Use::Pass => false,
    }
}

// The choice alone.
fn undecided(alloc: Global, picked: Use) -> Sent
    ensures { sent_view result ≡ undecided picked }
{
    Sent {
        text: Vec::new(alloc),
        told: Out {
            choice: number_of(picked),
            ..blank(DONE, 0)
        },
        parts: Vec::new(alloc),
    }
}

fn with_choice(picked: Use, sent: Sent) -> Sent
    ensures { sent_view result ≡ with_choice picked (sent_view sent) }
{
    Sent {
        told: Out {
            choice: number_of(picked),
            ..sent.told
        },
        ..sent
    }
}
