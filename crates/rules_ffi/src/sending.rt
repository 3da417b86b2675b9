//! The head of the request to the origin.
ghost use Rattle.std.specs.Prelude.{◌≡◌, ◌++◌, IfOk, OnOk};
ghost use Rattle.rules_fields.specs.Types.{asked_of, kept_of, chosen};
ghost use Rattle.rules_forward.specs.Send.{fill, validate};
ghost use Rattle.rules_ffi_arguments.specs.Given.{Gives};
ghost use Rattle.rules_ffi_results.specs.Telling.{Writes};
ghost use Rattle.rules_ffi_results.specs.Numbers.{blank};
ghost use Rattle.rules_ffi.specs.Sends.{host_sent, target_sent, filling, again, confirming, going, framing_text, written, sent_in};
ghost use Rattle.rules_ffi.specs.Outgoings.{goes};

use rules_ffi_arguments::bad::Bad;
use rules_ffi_arguments::kept::kept;
use rules_ffi_arguments::options::{lists_in, options};
use rules_ffi_arguments::request::request;
use rules_ffi_arguments::room::put;
use rules_ffi_arguments::shapes::{HeadShape, OptionNumbers, Out, RequestShape, Span};
use rules_ffi_arguments::spans::{block_lines, lines_in, value_in};
use rules_ffi_results::heads::{add_counted, add_end, add_made};
use rules_ffi_results::marks::{
    BAD_CALL, DONE, IS_HEAD, MEMORY, NO_ROOM, blank, framing_numbers, mark,
};
use rules_fields::Line;
use rules_fields::lines::without;
use rules_fields::tables::CONDITIONS;
use rules_fields::types::{Framing, Kept, Options, Request};
use rules_forward::forward::forward as forwarded;
use rules_forward::send::{fill, validate};
use std::alloc::{AllocError, Global};

const PASS_ON: u64 = 1;

const FILL: u64 = 2;

const CONFIRM: u64 = 3;

const AGAIN: u64 = 4;

// What goes to the origin: which form it has, its method and its lines.
#[derive(Drop)]
pub struct Outgoing<'a> {
    what: u64,
    method: &'a [u8],
    lines: Vec<Line<'a>>,
}

fn filling<'a>(
    alloc: Global,
    request: &Request<'a>,
    options: &Options<'_>,
) -> Result<Outgoing<'a>, AllocError>
    ensures { IfOk result (λ g. goes g ≡ filling 2 (fill (asked_of request.now) (chosen options.now))) }
{
    let (method, lines) = fill(alloc, request, options)?;
    Ok(Outgoing {
        what: FILL,
        method,
        lines,
    })
}

fn again<'a>(
    alloc: Global,
    request: &Request<'a>,
    options: &Options<'_>,
) -> Result<Outgoing<'a>, AllocError>
    ensures { IfOk result (λ g. goes g ≡ again (fill (asked_of request.now) (chosen options.now))) }
{
    let (method, lines) = fill(alloc, request, options)?;
    let plain = without(alloc, lines.as_slice(), CONDITIONS)?;
    Ok(Outgoing {
        what: AGAIN,
        method,
        lines: without(alloc, plain.as_slice(), &[b"range"])?,
    })
}

fn confirming<'a>(
    alloc: Global,
    request: &Request<'a>,
    kept: &Kept<'a>,
    options: &Options<'_>,
) -> Result<Outgoing<'a>, AllocError>
    ensures { IfOk result (λ g. goes g ≡ confirming (validate (asked_of request.now) (kept_of kept.now)) (asked_of request.now) (chosen options.now)) }
{
    match validate(alloc, request, kept)? {
        None => filling(alloc, request, options),
        Some(lines) => Ok(Outgoing {
            what: CONFIRM,
            method: request.method,
            lines,
        }),
    }
}

fn going<'a>(
    alloc: Global,
    what: u64,
    request: &Request<'a>,
    kept: &Kept<'a>,
    options: &Options<'_>,
) -> Result<Outgoing<'a>, Bad>
    ensures { Gives goes result (going what (asked_of request.now) (kept_of kept.now) (chosen options.now)) }
{
    match what {
        PASS_ON => Ok(Outgoing {
            what,
            method: request.method,
            lines: request.lines.to_vec(alloc)?,
        }),
        FILL => Ok(filling(alloc, request, options)?),
        CONFIRM => Ok(confirming(alloc, request, kept, options)?),
        AGAIN => Ok(again(alloc, request, options)?),
        _ => Err(Bad::Call),
    }
}

// The host that the origin is sent.
fn host_sent<'a>(options: &Options<'a>, host: &'a [u8]) -> &'a [u8]
    ensures { result.now ≡ host_sent (chosen options.now) host.now }
{
    if options.origin_host.is_empty() {
        host
    } else {
        options.origin_host
    }
}

// Adds the target, behind the operator's prefix.
fn add_target(text: &mut Vec<u8>, options: &Options<'_>, target: &[u8]) -> Result<(), AllocError>
    ensures { OnOk result (text.new.items ≡ text.old.items ++ target_sent (chosen options.now) target.now) }
{
    if target != b"*".as_slice() {
        text.extend_from_slice(options.origin_prefix)?;
    }
    text.extend_from_slice(target)
}

// The head of the request.
#[tactic(auto, unfolding(crate::specs::Sends::written))]
fn written(
    alloc: Global,
    going: &Outgoing<'_>,
    request: &Request<'_>,
    peer: &[u8],
    options: &Options<'_>,
) -> Result<Vec<u8>, AllocError>
    ensures { IfOk result (λ t. t.items ≡ written (goes going.now) (asked_of request.now) peer.now (chosen options.now)) }
{
    let sent = Request {
        method: going.method,
        host: host_sent(options, request.host),
        lines: going.lines.as_slice(),
        ..*request
    };
    let lines = forwarded(alloc, &sent, peer, options)?;
    let mut text = Vec::new(alloc);
    text.extend_from_slice(going.method)?;
    text.push(b' ')?;
    add_target(&mut text, options, request.target)?;
    text.extend_from_slice(b" HTTP/1.1\r\n")?;
    add_made(&mut text, lines.as_slice())?;
    add_framing(&mut text, request.framing)?;
    Ok(text)
}

fn add_framing(text: &mut Vec<u8>, framing: Framing) -> Result<(), AllocError>
    ensures { OnOk result (text.new.items ≡ text.old.items ++ framing_text framing) }
{
    match framing {
        Framing::Length(n) => {
            add_counted(text, b"Content-Length", n)?;
            add_end(text, 0, false)
        }
        Framing::Chunked => add_end(text, 2, false),
        _ => add_end(text, 0, false),
    }
}

/// The head of the request to the origin, in `head`; `choice` is what was written.
pub fn forward(
    alloc: Global,
    numbers: &OptionNumbers,
    words: &[u8],
    shape: &RequestShape,
    text: &[u8],
    what: u64,
    head: &HeadShape,
    block: &[u8],
    peer: &[u8],
    room: &mut [u8],
    out: &mut Out,
)
    ensures { Writes blank (sent_in numbers.now words.now shape.now text.now what head.now block.now peer.now) room.old room.new out.new }
{
    *out = match sent(alloc, numbers, words, shape, text, what, head, block, peer) {
        Err(Bad::Memory) => blank(MEMORY, 0),
        Err(Bad::Call) => blank(BAD_CALL, 0),
        Ok((text, told)) => {
            if put(room, text.as_slice()) {
                told
            } else {
                blank(NO_ROOM, text.len() as u64)
            }
        }
    };
}

#[tactic(auto, unfolding(crate::specs::Sends::sent_in))]
fn sent(
    alloc: Global,
    numbers: &OptionNumbers,
    words: &[u8],
    shape: &RequestShape,
    text: &[u8],
    what: u64,
    head: &HeadShape,
    block: &[u8],
    peer: &[u8],
) -> Result<(Vec<u8>, Out), Bad>
    ensures { Gives (λ t. (t.0.items, t.1)) result (sent_in numbers.now words.now shape.now text.now what head.now block.now peer.now) }
{
    let lists = lists_in(alloc, words)?;
    let options = options(numbers, &lists)?;
    let asked = lines_in(alloc, text, shape.lines)?;
    let request = request(shape, text, asked.as_slice(), options.scheme)?;
    let stored = block_lines(alloc, block)?;
    let kept = kept(head, stored.as_slice())?;
    let client = value_in(peer)?;
    let going = going(alloc, what, &request, &kept, &options)?;
    let text = written(alloc, &going, &request, client, &options)?;
    let (framing, length) = framing_numbers(request.framing);
    let told = Out {
        framing,
        length,
        marks: mark(going.method == b"HEAD".as_slice(), IS_HEAD),
        choice: going.what,
        head: Span {
            from: 0,
            to: text.len() as u64,
        },
        ..blank(DONE, 0)
    };
    Ok((text, told))
}
