//! Reading a request's head (RFC 9112, 3).
ghost use Rattle.std.specs.Prelude.{◌≡◌, ◌+◌, ◌++◌, nat_lt, length, map, drop, codes, is_some, IfOk, OnOk};
ghost use Rattle.rules_fields.specs.Fields.{fields, elements, without};
ghost use Rattle.rules_fields.specs.Types.{chosen, asked_of};
ghost use Rattle.http1_message_parts.specs.EndToEnd.{end_to_end};
ghost use Rattle.http1_message_parts.specs.Results.{map_ok};
ghost use Rattle.http1_message_parts.specs.Views.{line_view};
ghost use Rattle.http1_message.specs.Cookies.{made_line};
ghost use Rattle.http1_message.specs.RequestViews.{lines_view, all_lines, head_asked, head_view, heard};
ghost use Rattle.http1_message.specs.Request.{left_if, left_of, placed, has_long_line, framed, request_of, read_request, too_long};

use crate::cookies::kept_cookies;
use crate::encodings::encodings_of;
use http1_message_parts::body::framing;
use http1_message_parts::end::head_end;
use http1_message_parts::end_to_end::kept_lines;
use http1_message_parts::host::normal_host;
use http1_message_parts::query::chosen_target;
use http1_message_parts::reason::Reason;
use http1_message_parts::rows::read_fields;
use http1_message_parts::scan::behind;
use http1_message_parts::start::{RequestLine, request_start, skip_empty, start_len};
use http1_message_parts::target::{absolute, host_text, path_of, place_refusal};
use rules_fields::Line;
use rules_fields::directive::Text;
use rules_fields::lines::{all, elements, has_line, lists, without};
use rules_fields::types::{Framing, Options, Request};
use std::alloc::{AllocError, Global};

/// A request's head as it was read. It owns what isn't in the bytes.
#[derive(Drop)]
pub struct RequestHead<'a> {
    /// The method, byte for byte.
    pub method: &'a [u8],
    /// The scheme: the listener's.
    pub scheme: &'a [u8],
    /// The host, in small letters and without the scheme's own port; empty where HTTP/1.0 had none.
    pub host: Vec<u8>,
    /// The path with its query, or `*`.
    pub target: Text<'a>,
    /// The minor version of HTTP/1.
    pub minor: u8,
    /// The lines, end to end, without those that the operator drops or that are written anew.
    pub lines: Vec<Line<'a>>,
    /// The cookies that are kept, where the operator chose which; empty: there is no line.
    pub cookies: Vec<u8>,
    /// The codings that are asked for, where the operator chose which; empty: there is no line.
    pub encodings: Vec<u8>,
    /// How its body ends.
    pub framing: Framing,
    /// TE has `trailers`.
    pub takes_trailers: bool,
    /// What Connection lists.
    pub connection: Vec<&'a [u8]>,
    /// There is Expect.
    pub expects: bool,
}

/// The lines of a request: those that came, or with those that were written anew.
#[derive(Drop)]
pub enum HeadLines<'a> {
    /// None was written anew.
    Came(&'a [Line<'a>]),
    /// All of them.
    Made(Vec<Line<'a>>),
}

impl<'a> HeadLines<'a> {
    /// The lines.
    pub fn as_slice(&self) -> &[Line<'a>]
        ensures { fields result.now ≡ lines_view self.now }
    {
        match self {
            HeadLines::Came(lines) => lines,
            HeadLines::Made(lines) => lines.as_slice(),
        }
    }
}

// Adds a line that was written anew, where anything is left of it.
fn add_made<'a>(
    lines: &mut Vec<Line<'a>>,
    name: &'a [u8],
    value: &'a [u8],
) -> Result<(), AllocError>
    ensures { OnOk result (fields lines.new.items ≡ fields lines.old.items ++ made_line name.now value.now) }
{
    if !value.is_empty() {
        lines.push(Line { name, value })?;
    }
    Ok(())
}

impl RequestHead<'_> {
    /// All lines, lent.
    pub fn lines(&self, alloc: Global) -> Result<HeadLines<'_>, AllocError>
        ensures { IfOk result (λ lines. lines_view lines ≡ all_lines self.now) }
    {
        if self.cookies.is_empty() && self.encodings.is_empty() {
            return Ok(HeadLines::Came(self.lines.as_slice()));
        }
        let mut lines = Vec::with_capacity(alloc, self.lines.len().saturating_add(2))?;
        for line in self.lines.as_slice() {
            lines.push(*line)?;
        }
        add_made(&mut lines, b"Cookie", self.cookies.as_slice())?;
        add_made(&mut lines, b"Accept-Encoding", self.encodings.as_slice())?;
        Ok(HeadLines::Made(lines))
    }

    /// The request, lent, with these lines: all of its own.
    pub fn request<'b>(&'b self, lines: &'b [Line<'b>]) -> Request<'b>
        ensures { asked_of result ≡ record (head_asked self.now) { lines = fields lines.now } }
    {
        Request {
            method: self.method,
            scheme: self.scheme,
            host: self.host.as_slice(),
            target: self.target.bytes(),
            minor: self.minor,
            lines,
            framing: self.framing,
            takes_trailers: self.takes_trailers,
        }
    }
}

/// What comes first in bytes.
#[derive(Drop)]
pub enum HeardRequest<'a> {
    /// A request, and how many bytes its head has.
    Read(RequestHead<'a>, usize),
    /// Its head isn't whole.
    More,
    /// It is refused.
    Refused(Reason),
}

// The lines end to end, without those that the operator drops; and what Connection lists.
fn left_lines<'a>(
    alloc: Global,
    lines: &[Line<'a>],
    options: &Options<'_>,
) -> Result<(Vec<Line<'a>>, Vec<&'a [u8]>), AllocError>
    ensures lines { IfOk result (λ r. fields r.0.items ≡ without (chosen options.now).drops (end_to_end (fields lines.now))) }
    ensures connection { IfOk result (λ r. map (λ e. e.now) r.1.items ≡ elements (codes "connection") (fields lines.now)) }
{
    let connection = elements(alloc, lines, b"connection")?;
    let kept = kept_lines(alloc, lines, connection.as_slice())?;
    let left = without(alloc, kept.as_slice(), options.drops)?;
    Ok((left, connection))
}

// Without the lines of a name, where those are written anew.
fn left_if<'a>(
    alloc: Global,
    anew: bool,
    name: &[u8],
    lines: Vec<Line<'a>>,
) -> Result<Vec<Line<'a>>, AllocError>
    ensures { IfOk result (λ left. fields left.items ≡ left_if anew name.now (fields lines.entry.items)) }
{
    if anew {
        without(alloc, lines.as_slice(), &[name])
    } else {
        Ok(lines)
    }
}

fn chooses_cookies(options: &Options<'_>) -> bool
    ensures { result ≡ is_some (chosen options.now).cookie_keeps }
{
    match options.cookie_keeps {
        None => false,
        Some(_) => true,
    }
}

// Without those of the cookies and the codings, where the operator chose which.
fn left_of<'a>(
    alloc: Global,
    lines: Vec<Line<'a>>,
    options: &Options<'_>,
) -> Result<Vec<Line<'a>>, AllocError>
    ensures { IfOk result (λ left. fields left.items ≡ left_of (chosen options.now) (fields lines.entry.items)) }
{
    let left = left_if(alloc, chooses_cookies(options), b"cookie", lines)?;
    let anew = !options.encodings.is_empty();
    left_if(alloc, anew, b"accept-encoding", left)
}

// A request, by its start line, its lines and its framing.
#[tactic(auto, unfolding(crate::specs::Request::placed))]
fn placed<'a>(
    alloc: Global,
    line: RequestLine<'a>,
    lines: &[Line<'a>],
    options: &Options<'a>,
    framing: Framing,
) -> Result<Result<RequestHead<'a>, Reason>, AllocError>
    ensures { IfOk result (λ r. map_ok head_view r ≡ placed (line_view line.entry) (fields lines.now) (chosen options.now) framing) }
{
    let hosts = all(alloc, lines, b"host")?;
    let form = absolute(line.target);
    let path = path_of(alloc, line.method, line.target, form)?;
    let host = normal_host(alloc, host_text(form, hosts.as_slice()), options.scheme)?;
    let refusal = place_refusal(
        line.method,
        line.target,
        line.minor,
        hosts.as_slice(),
        form,
        host.as_slice(),
        path.bytes(),
        options,
    );
    if let Some(reason) = refusal {
        return Ok(Err(reason));
    }
    let (left, connection) = left_lines(alloc, lines, options)?;
    let cookies = kept_cookies(alloc, options.cookie_keeps, left.as_slice())?;
    let encodings = encodings_of(alloc, options.encodings, left.as_slice())?;
    Ok(Ok(RequestHead {
        method: line.method,
        scheme: options.scheme,
        host,
        target: chosen_target(alloc, path, options)?,
        minor: line.minor,
        lines: left_of(alloc, left, options)?,
        cookies,
        encodings,
        framing,
        takes_trailers: lists(lines, b"te", b"trailers"),
        connection,
        expects: has_line(lines, b"expect"),
    }))
}

// Whether a line's name, colon and value are longer than the options let them be.
fn has_long_line(lines: &[Line<'_>], options: &Options<'_>) -> bool
    ensures { result ≡ has_long_line (fields lines.now) (chosen options.now) }
{
    for line in lines {
        if is_long(line, options) {
            return true;
        }
    }
    false
}

fn is_long(line: &Line<'_>, options: &Options<'_>) -> bool
    ensures { result ≡ nat_lt (chosen options.now).most_line (length line.now.name.now + 1 + length line.now.value.now) }
{
    let length = line.name.len() as u64 + line.value.len() as u64;
    options.most_line <= length
}

fn framed<'a>(
    alloc: Global,
    line: RequestLine<'a>,
    options: &Options<'a>,
    lines: &[Line<'a>],
) -> Result<Result<RequestHead<'a>, Reason>, AllocError>
    ensures { IfOk result (λ r. map_ok head_view r ≡ framed (line_view line.entry) (chosen options.now) (fields lines.now)) }
{
    if has_long_line(lines, options) {
        return Ok(Err(Reason::FieldTooLong));
    }
    match framing(alloc, line.minor, lines, Framing::None, Reason::BadCoding)? {
        Ok(framing) => placed(alloc, line, lines, options, framing),
        Err(reason) => Ok(Err(reason)),
    }
}

// A head, without the empty lines in front.
#[tactic(auto, unfolding(crate::specs::Request::request_of))]
fn request_of<'a>(
    alloc: Global,
    head: &'a [u8],
    options: &Options<'a>,
) -> Result<Result<RequestHead<'a>, Reason>, AllocError>
    ensures { IfOk result (λ r. map_ok head_view r ≡ request_of head.now (chosen options.now)) }
{
    let len = start_len(head);
    let line = match request_start(head, len, options) {
        Ok(line) => line,
        Err(reason) => return Ok(Err(reason)),
    };
    let text = behind(behind(head, len), 2);
    match read_fields(alloc, text, options.most_lines)? {
        Ok(lines) => framed(alloc, line, options, lines.as_slice()),
        Err(reason) => Ok(Err(reason)),
    }
}

fn too_long(head: &[u8], options: &Options<'_>) -> Reason
    ensures { result ≡ too_long head.now (chosen options.now) }
{
    if start_len(head) as u64 > options.most_target {
        Reason::TargetTooLong
    } else {
        Reason::HeadTooLong
    }
}

/// Reads the request that comes first in bytes: those that came on a connection and weren't read yet. Call it once `head_end` says where
/// the head ends, or more bytes came than a head may have.
#[tactic(auto, unfolding(crate::specs::Request::read_request))]
pub fn read_request<'a>(
    alloc: Global,
    bytes: &'a [u8],
    options: &Options<'a>,
) -> Result<HeardRequest<'a>, AllocError>
    ensures { IfOk result (λ h. heard h ≡ read_request bytes.now (chosen options.now)) }
{
    let Some(len) = head_end(bytes, 0) else {
        if bytes.len() as u64 > options.most_head {
            return Ok(HeardRequest::Refused(too_long(skip_empty(bytes), options)));
        }
        return Ok(HeardRequest::More);
    };
    match request_of(alloc, skip_empty(&bytes[..len]), options)? {
        Ok(head) => Ok(HeardRequest::Read(head, len)),
        Err(reason) => Ok(HeardRequest::Refused(reason)),
    }
}
