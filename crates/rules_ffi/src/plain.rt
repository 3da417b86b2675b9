//! An answer of the proxy's own.
ghost use Rattle.std.specs.Prelude.{◌≡◌, ◌+◌, ◌++◌, codes, length, Some, IfOk, OnOk};
ghost use Rattle.rules_fields.specs.Types.{chosen};
ghost use Rattle.rules_ffi_arguments.specs.Given.{Gives};
ghost use Rattle.rules_ffi_arguments.specs.Moments.{moment_in};
ghost use Rattle.rules_ffi_results.specs.Heads.{line_end};
ghost use Rattle.rules_ffi_results.specs.Numbers.{blank};
ghost use Rattle.rules_ffi.specs.Plains.{is_head, closes, is_bodiless, detail_of, own_lines, plain_length, plain_head, told_plain, plain_in};
ghost use Rattle.rules_ffi.specs.Dated.{WritesDated};

use http1_message::response::date_text;
use rules_ffi_arguments::bad::Bad;
use rules_ffi_arguments::moments::moment_in;
use rules_ffi_arguments::options::{has_mark, lists_in, options};
use rules_ffi_arguments::response::code_in;
use rules_ffi_arguments::room::{add_line, put};
use rules_ffi_arguments::shapes::{OptionNumbers, Out, RequestShape, Span};
use rules_ffi_results::heads::{add_counted, add_end, add_status};
use rules_ffi_results::marks::{
    BAD_CALL, CLOSES, DONE, IS_HEAD, MEMORY, NO_ROOM, READ, blank, mark,
};
use rules_ffi_results::reasons::reason_name;
use rules_fields::types::Options;
use std::alloc::{AllocError, Global};

/// An answer of the proxy's own, to a request that may have been refused: a head, and a body that says why.
pub fn plain(
    alloc: Global,
    numbers: &OptionNumbers,
    words: &[u8],
    shape: &RequestShape,
    code: u64,
    reason: u64,
    seconds: u64,
    nanoseconds: u64,
    room: &mut [u8],
    out: &mut Out,
)
    ensures { WritesDated blank (moment_in seconds nanoseconds) (plain_in numbers.now words.now shape.now code reason) room.old room.new out.new }
{
    *out = match moment_in(seconds, nanoseconds) {
        Err(Bad::Memory) => blank(MEMORY, 0),
        Err(Bad::Call) => blank(BAD_CALL, 0),
        Ok(now) => placed(alloc, numbers, words, shape, code, reason, now, room),
    };
}

fn placed(
    alloc: Global,
    numbers: &OptionNumbers,
    words: &[u8],
    shape: &RequestShape,
    code: u64,
    reason: u64,
    now: u64,
    room: &mut [u8],
) -> Out
    ensures { WritesDated blank (Some now) (plain_in numbers.now words.now shape.now code reason) room.old room.new result }
{
    match own(alloc, numbers, words, shape, code, reason, date_text(now)) {
        Err(Bad::Memory) => blank(MEMORY, 0),
        Err(Bad::Call) => blank(BAD_CALL, 0),
        Ok((text, told)) => {
            if put(room, text.as_slice()) {
                told
            } else {
                blank(NO_ROOM, text.len() as u64)
            }
        }
    }
}

#[tactic(auto, unfolding(crate::specs::Plains::plain_in))]
fn own(
    alloc: Global,
    numbers: &OptionNumbers,
    words: &[u8],
    shape: &RequestShape,
    code: u64,
    reason: u64,
    date: [u8; 29],
) -> Result<(Vec<u8>, Out), Bad>
    ensures { Gives (λ t. (t.0.items, t.1)) result (plain_in numbers.now words.now shape.now code reason date) }
{
    let lists = lists_in(alloc, words)?;
    let options = options(numbers, &lists)?;
    if code < 100 {
        return Err(Bad::Call);
    }
    let status = code_in(code)?;
    Ok(written(alloc, shape, status, reason_name(reason), date, &options)?)
}

fn add_own(
    text: &mut Vec<u8>,
    name: &[u8],
    date: [u8; 29],
    options: &Options<'_>,
) -> Result<(), AllocError>
    ensures { OnOk result (text.new.items ≡ text.old.items ++ own_lines name.now date (chosen options.now)) }
{
    add_line(text, b"Date", &date)?;
    add_via(text, options.name)?;
    add_cache_status(text, options.name, name)
}

fn add_via(text: &mut Vec<u8>, proxy: &[u8]) -> Result<(), AllocError>
    ensures { OnOk result (text.new.items ≡ text.old.items ++ (codes "Via: 1.1 " ++ (proxy.now ++ line_end))) }
{
    text.extend_from_slice(b"Via: 1.1 ")?;
    text.extend_from_slice(proxy)?;
    text.extend_from_slice(b"\r\n")
}

fn add_cache_status(text: &mut Vec<u8>, proxy: &[u8], name: &[u8]) -> Result<(), AllocError>
    ensures { OnOk result (text.new.items ≡ text.old.items ++ (codes "Cache-Status: " ++ (proxy.now ++ (detail_of name.now ++ line_end)))) }
{
    text.extend_from_slice(b"Cache-Status: ")?;
    text.extend_from_slice(proxy)?;
    add_detail(text, name)
}

// Adds the detail, and the line's end.
#[tactic(auto, unfolding(crate::specs::Plains::detail_of))]
fn add_detail(text: &mut Vec<u8>, name: &[u8]) -> Result<(), AllocError>
    ensures { OnOk result (text.new.items ≡ text.old.items ++ (detail_of name.now ++ line_end)) }
{
    if !name.is_empty() {
        text.extend_from_slice(b"; detail=")?;
        text.extend_from_slice(name)?;
    }
    text.extend_from_slice(b"\r\n")
}

fn is_head(shape: &RequestShape) -> bool
    ensures { result ≡ is_head shape.now }
{
    shape.status == READ && has_mark(shape.marks, IS_HEAD)
}

fn closes(shape: &RequestShape) -> bool
    ensures { result ≡ closes shape.now }
{
    shape.status != READ || has_mark(shape.marks, CLOSES)
}

fn is_bodiless(status: u16) -> bool
    ensures { result ≡ is_bodiless status }
{
    status < 200 || status == 204 || status == 304
}

fn add_length(text: &mut Vec<u8>, status: u16, length: u64) -> Result<(), AllocError>
    ensures { OnOk result (text.new.items ≡ text.old.items ++ plain_length status length) }
{
    if is_bodiless(status) {
        return Ok(());
    }
    add_counted(text, b"Content-Length", length)
}

#[tactic(auto, unfolding(crate::specs::Plains::plain_head))]
fn head_text(
    alloc: Global,
    shape: &RequestShape,
    status: u16,
    name: &[u8],
    date: [u8; 29],
    options: &Options<'_>,
) -> Result<Vec<u8>, AllocError>
    ensures { IfOk result (λ t. t.items ≡ plain_head shape.now status name.now date (chosen options.now)) }
{
    let mut text = Vec::new(alloc);
    add_status(&mut text, status)?;
    add_own(&mut text, name, date, options)?;
    add_length(&mut text, status, length_of(name))?;
    add_end(&mut text, 0, closes(shape))?;
    Ok(text)
}

// The length of a body that says why.
fn length_of(name: &[u8]) -> u64
    ensures { result ≡ length name.now + 1 }
{
    name.len() as u64 + 1
}

fn written(
    alloc: Global,
    shape: &RequestShape,
    status: u16,
    name: &[u8],
    date: [u8; 29],
    options: &Options<'_>,
) -> Result<(Vec<u8>, Out), AllocError>
    ensures { IfOk result (λ t. (t.0.items, t.1) ≡ told_plain shape.now status name.now date (chosen options.now)) }
{
    let mut text = head_text(alloc, shape, status, name, date, options)?;
    let to = text.len() as u64;
    let told = Out {
        code: status as u64,
        marks: mark(closes(shape), CLOSES) + mark(is_head(shape), IS_HEAD),
        length: u64::MAX,
        head: Span { from: 0, to },
        ..blank(DONE, 0)
    };
    if is_head(shape) || is_bodiless(status) {
        return Ok((text, told));
    }
    text.extend_from_slice(name)?;
    text.push(b'\n')?;
    let told = Out {
        framing: 1,
        length: length_of(name),
        more: Span {
            from: to,
            to: text.len() as u64,
        },
        ..told
    };
    Ok((text, told))
}
