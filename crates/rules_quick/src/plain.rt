//! Reading a plain request: what is told of it is what the rules say, or nothing.
ghost use Rattle.std.specs.Prelude.{◌≡◌, ◌+◌, ◌-◌, ◌<◌, ◌≤◌, ◌++◌, ◌∷◌, [], true, length, take, codes, bytes_eq, IfOk, IfSome, OnOk};
ghost use Rattle.std.specs.Option.{option_map_or};
ghost use Rattle.rules_fields.specs.Types.{chosen};
ghost use Rattle.http1_message_parts.specs.Host.{normal_host};
ghost use Rattle.http1_message.specs.Request.{read_request};
ghost use Rattle.rules_ffi_results.specs.Numbers.{mark};
ghost use Rattle.rules_quick.specs.Fronts.{front_text, AreEnds, lines_text, IsEnd, IsFront};
ghost use Rattle.rules_quick.specs.Plain.{is_plain_connection, says_close, plain_key};
ghost use Rattle.rules_quick.specs.Requests.{plain_shape, told_heard};

use crate::front::{Front, front_of, is_among, is_plain_choice, is_served};
use crate::walk::{Reading, add_run, read_lines};
use http1_message_parts::host::normal_host;
use rules_ffi_arguments::shapes::{RequestShape, Span};
use rules_ffi_results::marks::{CLOSES, IS_HEAD, NONE, READ, mark};
use rules_fields::tables::among;
use rules_fields::types::Options;
use std::alloc::{AllocError, Global};

/// Whether Connection ends it behind this message; `None` where it says more than is known here.
pub fn closes(connection: Option<&[u8]>) -> Option<bool>
    ensures { IfSome result (λ c. (is_plain_connection (option_map_or (λ v. v.now ∷ []) connection.entry []) ≡ true) × (c ≡ says_close (option_map_or (λ v. v.now ∷ []) connection.entry []))) }
{
    let Some(value) = connection else {
        return Some(false);
    };
    if value == b"close".as_slice() {
        return Some(true);
    }
    if value == b"keep-alive".as_slice() || value == b"Keep-Alive".as_slice() {
        Some(false)
    } else {
        None
    }
}

// Where the method, the host, the target and the key end.
#[derive(Clone, Copy, Debug)]
struct Ends {
    method: u64,
    host: u64,
    target: u64,
    key: u64,
}

fn add_key(text: &mut Vec<u8>, scheme: &[u8], host: &[u8], target: &[u8]) -> Result<(), AllocError>
    ensures { OnOk result (text.new.items ≡ text.old.items ++ (scheme.now ++ codes "://" ++ host.now ++ target.now)) }
{
    text.extend_from_slice(scheme)?;
    text.extend_from_slice(b"://")?;
    text.extend_from_slice(host)?;
    text.extend_from_slice(target)
}

// Adds what comes before the lines, to no text yet.
fn add_front(
    text: &mut Vec<u8>,
    front: Front<'_>,
    host: &[u8],
    scheme: &[u8],
) -> Result<Ends, AllocError>
    requires empty { text.now.items ≡ [] }
    requires host { host.now ≡ normal_host scheme.now front.host.value.now }
    ensures text { OnOk result (text.new.items ≡ front_text scheme.now front.entry) }
    ensures ends { IfOk result (λ e. AreEnds scheme.now front.entry e) }
{
    text.extend_from_slice(front.start.method)?;
    let method = text.len() as u64;
    text.extend_from_slice(host)?;
    let to_host = text.len() as u64;
    text.extend_from_slice(front.start.target)?;
    let target = text.len() as u64;
    add_key(text, scheme, host, front.start.target)?;
    Ok(Ends {
        method,
        host: to_host,
        target,
        key: text.len() as u64,
    })
}

fn plain_shape(ends: Ends, lines: u64, asked: u64, marks: u64, used: u64) -> RequestShape
    ensures { result ≡ plain_shape ends.method ends.host ends.target ends.key lines asked marks used }
{
    RequestShape {
        status: READ,
        needed: 0,
        used,
        refusal: 0,
        reason: 0,
        plan: 1,
        minor: 1,
        framing: 0,
        length: NONE,
        marks,
        method: Span {
            from: 0,
            to: ends.method,
        },
        host: Span {
            from: ends.method,
            to: ends.host,
        },
        target: Span {
            from: ends.host,
            to: ends.target,
        },
        key: Span {
            from: ends.target,
            to: ends.key,
        },
        lines: Span {
            from: ends.key,
            to: lines,
        },
        whole: Span { from: 0, to: asked },
        asked: Span {
            from: lines,
            to: asked,
        },
    }
}

// Adds the last run and the lines that are asked for, and tells where all of it stands.
fn finish(
    text: &mut Vec<u8>,
    asked: &[u8],
    at: Reading<'_>,
    ends: Ends,
    marks: u64,
    used: u64,
) -> Result<RequestShape, AllocError>
    requires { length at.left.now ≤ length at.run.now }
    ensures text { OnOk result (text.new.items ≡ lines_text text.old.items at.entry ++ asked.now) }
    ensures shape { IfOk result (λ s. s ≡ plain_shape ends.method ends.host ends.target ends.key (length (lines_text text.old.items at.entry)) (length (lines_text text.old.items at.entry) + length asked.now) marks used) }
{
    add_run(text, at.run, at.left)?;
    let lines = text.len() as u64;
    text.extend_from_slice(asked)?;
    Ok(plain_shape(ends, lines, text.len() as u64, marks, used))
}

// The end of a head, where its length and Connection are as they should be.
fn read_end(
    text: &mut Vec<u8>,
    asked: &[u8],
    bytes: &[u8],
    at: Reading<'_>,
    front: Front<'_>,
    ends: Ends,
    options: &Options<'_>,
) -> Result<Option<RequestShape>, AllocError>
    requires run { length at.left.now ≤ length at.run.now }
    requires left { length at.left.now ≤ length bytes.now }
    requires over { 2 ≤ length at.left.now }
    ensures { IfOk result (λ r. IfSome r (λ shape. IsEnd text.old.items asked.now bytes.now front.entry.start.method.now ends at.entry (chosen options.now) text.new.items shape)) }
{
    let used = (bytes.len() - (at.left.len() - 2)) as u64;
    if used > options.most_head || used > options.most_line {
        return Ok(None);
    }
    match closes(at.connection) {
        None => Ok(None),
        Some(closes) => {
            let is_head = front.start.method == b"HEAD".as_slice();
            let marks = mark(closes, CLOSES) + mark(is_head, IS_HEAD);
            Ok(Some(finish(text, asked, at, ends, marks, used)?))
        }
    }
}

// The bytes of a head and of a key, for the first guess how long a text gets.
const USUAL_HEAD: usize = 4096;

const USUAL_KEY: usize = 256;

// The request behind its front.
fn read_behind(
    alloc: Global,
    bytes: &[u8],
    front: Front<'_>,
    host: &[u8],
    options: &Options<'_>,
) -> Result<Option<(Vec<u8>, RequestShape)>, AllocError>
    requires host { host.now ≡ normal_host options.now.scheme.now front.host.value.now }
    requires front { IsFront bytes.now front (chosen options.now) }
    requires room { 0 < options.now.most_lines }
    ensures { IfOk result (λ r. IfSome r (λ t. told_heard (read_request bytes.now (chosen options.now)) (chosen options.now) ≡ (t.0.items, t.1))) }
{
    let mut text = Vec::with_capacity(alloc, bytes.len().min(USUAL_HEAD) + USUAL_KEY)?;
    let mut asked = Vec::new(alloc);
    let ends = add_front(&mut text, front, host, options.scheme)?;
    let first = Reading {
        run: front.lines,
        left: front.behind,
        connection: None,
        room: options.most_lines - 1,
    };
    let Some(at) = read_lines(options.drops, &mut text, &mut asked, first)? else {
        return Ok(None);
    };
    match read_end(&mut text, asked.as_slice(), bytes, at, front, ends, options)? {
        Some(shape) => Ok(Some((text, shape))),
        None => Ok(None),
    }
}

/// Reads a plain request; `None` of any other, which is read line by line.
pub fn read_plain(
    alloc: Global,
    bytes: &[u8],
    options: &Options<'_>,
) -> Result<Option<(Vec<u8>, RequestShape)>, AllocError>
    ensures { IfOk result (λ r. IfSome r (λ t. told_heard (read_request bytes.now (chosen options.now)) (chosen options.now) ≡ (t.0.items, t.1))) }
{
    if !is_plain_choice(options) || options.most_lines == 0 {
        return Ok(None);
    }
    let Some(front) = front_of(bytes) else {
        return Ok(None);
    };
    if front.row.len() as u64 > options.most_target
        || is_among(options.refuses, front.start.method)
        || among(options.drops, front.host.name)
    {
        return Ok(None);
    }
    let host = normal_host(alloc, front.host.value, options.scheme)?;
    if is_served(options, host.as_slice()) {
        read_behind(alloc, bytes, front, host.as_slice(), options)
    } else {
        Ok(None)
    }
}
