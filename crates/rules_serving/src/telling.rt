//! The head of a response that is handed on and not stored.
ghost use Rattle.std.specs.Prelude.{◌≡◌, map, IfOk};
ghost use Rattle.rules_fields.specs.Types.{answered_of, asked_of, chosen};
ghost use Rattle.rules_ffi_arguments.specs.Given.{Gives};
ghost use Rattle.rules_ffi_results.specs.Numbers.{blank};
ghost use Rattle.rules_serving.specs.Answers.{told_interim, told_interim_answer, is_whole, reply, relay_of, relay_by, told_in};
ghost use Rattle.rules_ffi_results.specs.Sending.{sent_view, Answers};

use crate::answering::shaped;
use rules_ffi_arguments::bad::Bad;
use rules_ffi_arguments::moments::moment_in;
use rules_ffi_arguments::options::{has_mark, lists_in, options};
use rules_ffi_arguments::request::request;
use rules_ffi_arguments::response::response;
use rules_ffi_arguments::room::add_lines;
use rules_ffi_arguments::shapes::{
    How, OptionNumbers, Out, PartShape, RequestShape, ResponseShape, Span,
};
use rules_ffi_arguments::spans::lines_in;
use rules_ffi_results::heads::{add_end, add_status};
use rules_ffi_results::how::{fetch_of, how_in, said};
use rules_ffi_results::marks::{BAD_CALL, DATED, DONE, MEMORY, blank};
use rules_ffi_results::sending::{Sent, placed};
use rules_fields::lines::without;
use rules_fields::types::{Options, Request, Response};
use rules_response::telling::{Fetch, told_reply};
use std::alloc::{AllocError, Global};

/// The head of a response that is handed on and not stored, and the part of its body that is sent; also of one from 100 to 199, which goes on as it came.
pub fn told(
    alloc: Global,
    numbers: &OptionNumbers,
    words: &[u8],
    shape: &RequestShape,
    text: &[u8],
    came_as: &ResponseShape,
    came_text: &[u8],
    asked: (u64, u64),
    came: (u64, u64),
    how: &How,
    room: &mut [u8],
    parts: &mut [PartShape],
    out: &mut Out,
)
    ensures { Answers blank (told_in numbers.now words.now shape.now text.now came_as.now came_text.now (asked.0, asked.1) (came.0, came.1) how.now) room.old room.new parts.old parts.new out.new }
{
    *out = match telling(
        alloc, numbers, words, shape, text, came_as, came_text, asked, came, how,
    ) {
        Err(Bad::Memory) => blank(MEMORY, 0),
        Err(Bad::Call) => blank(BAD_CALL, 0),
        Ok(sent) => placed(&sent, room, parts),
    };
}

#[tactic(auto, unfolding(crate::specs::Answers::told_in))]
fn telling(
    alloc: Global,
    numbers: &OptionNumbers,
    words: &[u8],
    shape: &RequestShape,
    text: &[u8],
    came_as: &ResponseShape,
    came_text: &[u8],
    asked: (u64, u64),
    came: (u64, u64),
    how: &How,
) -> Result<Sent, Bad>
    ensures { Gives sent_view result (told_in numbers.now words.now shape.now text.now came_as.now came_text.now (asked.0, asked.1) (came.0, came.1) how.now) }
{
    let lists = lists_in(alloc, words)?;
    let options = options(numbers, &lists)?;
    let how = how_in(how)?;
    let lines = lines_in(alloc, text, shape.asked)?;
    let request = request(shape, text, lines.as_slice(), options.scheme)?;
    relay_by(
        alloc, shape, &request, came_as, came_text, asked, came, how, &options,
    )
}

// What is handed on of a response to a request that was read.
#[tactic(auto, unfolding(crate::specs::Answers::relay_by))]
fn relay_by(
    alloc: Global,
    shape: &RequestShape,
    request: &Request<'_>,
    came_as: &ResponseShape,
    came_text: &[u8],
    asked: (u64, u64),
    came: (u64, u64),
    how: &How,
    options: &Options<'_>,
) -> Result<Sent, Bad>
    ensures { Gives sent_view result (relay_by shape.now (asked_of request.now) came_as.now came_text.now (asked.0, asked.1) (came.0, came.1) how.now (chosen options.now)) }
{
    let fields = lines_in(alloc, came_text, came_as.lines)?;
    let response = response(came_as, fields.as_slice())?;
    let asked = moment_in(asked.0, asked.1)?;
    let came = moment_in(came.0, came.1)?;
    Ok(relay_of(
        alloc,
        shape,
        request,
        &response,
        came_as.marks,
        asked,
        came,
        how,
        options,
    )?)
}

#[tactic(auto, unfolding(crate::specs::Answers::relay_of))]
fn relay_of(
    alloc: Global,
    shape: &RequestShape,
    request: &Request<'_>,
    response: &Response<'_>,
    marks: u64,
    asked: u64,
    came: u64,
    how: &How,
    options: &Options<'_>,
) -> Result<Sent, AllocError>
    ensures { IfOk result (λ s. sent_view s ≡ relay_of shape.now (asked_of request.now) (answered_of response.now) marks asked came how.now (chosen options.now)) }
{
    if response.status < 200 {
        return told_interim(alloc, response, marks);
    }
    let fetch = fetch_of(how);
    if is_whole(fetch, options) {
        return reply(alloc, shape, request, response, asked, came, how, options);
    }
    let lines = without(alloc, response.lines, options.response_drops)?;
    let handed = Response {
        lines: lines.as_slice(),
        ..*response
    };
    reply(alloc, shape, request, &handed, asked, came, how, options)
}

// Whether nothing is dropped: what was passed on goes on as it came.
fn is_whole(fetch: Fetch, options: &Options<'_>) -> bool
    ensures { result ≡ is_whole fetch (chosen options.now) }
{
    match fetch {
        Fetch::PassOn => true,
        _ => options.response_drops.is_empty(),
    }
}

fn reply(
    alloc: Global,
    shape: &RequestShape,
    request: &Request<'_>,
    response: &Response<'_>,
    asked: u64,
    came: u64,
    how: &How,
    options: &Options<'_>,
) -> Result<Sent, AllocError>
    ensures { IfOk result (λ s. sent_view s ≡ reply shape.now (asked_of request.now) (answered_of response.now) asked came how.now (chosen options.now)) }
{
    let said = said(alloc, how, None)?;
    let texts = said.lent(alloc)?;
    let reply = told_reply(
        alloc,
        fetch_of(how),
        request,
        response,
        asked,
        came,
        texts.as_slice(),
        options,
    )?;
    shaped(alloc, &reply, shape, how)
}

fn told_interim(alloc: Global, response: &Response<'_>, marks: u64) -> Result<Sent, AllocError>
    ensures { IfOk result (λ s. sent_view s ≡ told_interim_answer (answered_of response.now) marks) }
{
    let (text, told) = interim(alloc, response, marks)?;
    Ok(Sent {
        text,
        told,
        parts: Vec::new(alloc),
    })
}

// A head from 100 to 199, without a Date that was added.
#[tactic(auto, unfolding(crate::specs::Answers::interim_text))]
fn interim(alloc: Global, response: &Response<'_>, marks: u64) -> Result<(Vec<u8>, Out), AllocError>
    ensures { IfOk result (λ t. (t.0.items, t.1) ≡ told_interim (answered_of response.now) marks) }
{
    let mut text = Vec::new(alloc);
    add_status(&mut text, response.status)?;
    if has_mark(marks, DATED) {
        add_lines(&mut text, response.lines)?;
    } else {
        let lines = without(alloc, response.lines, &[b"date"])?;
        add_lines(&mut text, lines.as_slice())?;
    }
    add_end(&mut text, 0, false)?;
    let told = Out {
        code: response.status as u64,
        length: u64::MAX,
        head: Span {
            from: 0,
            to: text.len() as u64,
        },
        ..blank(DONE, 0)
    };
    Ok((text, told))
}
