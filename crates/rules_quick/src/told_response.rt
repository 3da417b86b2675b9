//! What is told of a response that was read.
ghost use Rattle.std.specs.Prelude.{◌≡◌, IfOk};
ghost use Rattle.rules_fields.specs.Fields.{fields};
ghost use Rattle.http1_message.specs.ResponseViews.{head_answered, heard};
ghost use Rattle.rules_quick.specs.Responses.{unread, response_told, is_dated, told_heard};

use http1_message::response::{HeardResponse, ResponseHead};
use rules_ffi_arguments::room::add_block;
use rules_ffi_arguments::shapes::ResponseShape;
use rules_ffi_results::marks::{
    CLOSES, DATED, MORE, NOWHERE, READ, REFUSED, framing_numbers, mark,
};
use rules_ffi_results::reasons::refusal_number;
use rules_fields::Line;
use std::alloc::{AllocError, Global};

/// A response that wasn't read.
pub fn unread(status: u64, needed: u64, reason: u64) -> ResponseShape
    ensures { result ≡ unread status needed reason }
{
    ResponseShape {
        status,
        needed,
        used: 0,
        reason,
        code: 0,
        minor: 0,
        framing: 0,
        length: 0,
        marks: 0,
        lines: NOWHERE,
        whole: NOWHERE,
        reserved: [0, 0, 0],
    }
}

/// What is told of what was heard.
pub fn told(
    alloc: Global,
    first: &HeardResponse<'_>,
) -> Result<(Vec<u8>, ResponseShape), AllocError>
    ensures { IfOk result (λ t. (t.0.items, t.1) ≡ told_heard (heard first.now)) }
{
    match first {
        HeardResponse::More => Ok((Vec::new(alloc), unread(MORE, 0, 0))),
        HeardResponse::Refused(reason) => {
            Ok((Vec::new(alloc), unread(REFUSED, 0, refusal_number(*reason))))
        }
        HeardResponse::Read(head, used) => shaped(alloc, head, *used as u64),
    }
}

// Whether a response came with Date: one that is added is the last line.
fn is_dated(lines: &[Line<'_>]) -> bool
    ensures { result ≡ is_dated (fields lines.now) }
{
    match lines {
        [] => true,
        [.., last] => last.name != b"Date".as_slice(),
    }
}

fn shaped(
    alloc: Global,
    head: &ResponseHead<'_>,
    used: u64,
) -> Result<(Vec<u8>, ResponseShape), AllocError>
    ensures { IfOk result (λ t. (t.0.items, t.1) ≡ response_told (head_answered head.now) head.now.closes used) }
{
    let lines = head.lines(alloc)?;
    let mut text = Vec::new(alloc);
    let block = add_block(&mut text, lines.as_slice())?;
    let (framing, length) = framing_numbers(head.framing);
    let shape = ResponseShape {
        used,
        code: head.status as u64,
        minor: head.minor as u64,
        framing,
        length,
        marks: mark(head.closes, CLOSES) + mark(is_dated(lines.as_slice()), DATED),
        lines: block,
        whole: block,
        ..unread(READ, 0, 0)
    };
    Ok((text, shape))
}
