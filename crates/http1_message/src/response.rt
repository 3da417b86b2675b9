//! Reading a response's head (RFC 9112, 4).
ghost use Rattle.std.specs.Prelude.{◌≡◌, ◌/◌, List, [], ℕ, false, map, codes, option_and_then, IfOk};
ghost use Rattle.rules_fields.specs.Fields.{fields, first};
ghost use Rattle.rules_fields.specs.Types.{chosen, answered_of};
ghost use Rattle.http1_message_parts.specs.Results.{map_ok};
ghost use Rattle.http1_message_parts.specs.Lines.{lines_of, rows_of};
ghost use Rattle.std.specs.Option.{option_map_or};
ghost use Rattle.rules_fields.specs.Numbers.{digits};
ghost use Rattle.http1_message.specs.ResponseViews.{all_lines, head_answered, head_view, heard, date_line};
ghost use Rattle.http1_message.specs.Response.{ShowsSecond, is_bodiless, of_head, own_date, one_date, own_lines, response_framing, is_till_close, closes, answered_with, answered_by, by_fields, by_start, by_lines, response_of, read_response};

use http1_message_parts::body::framing;
use http1_message_parts::end::head_end;
use http1_message_parts::end_to_end::kept_lines;
use http1_message_parts::reason::Reason;
use http1_message_parts::rows::{first_line, has_bare_cr, read_fields, row_of};
use http1_message_parts::start::status_line;
use http1_message_parts::via::via_value;
use httpdate::HttpDate;
use rules_fields::Line;
use rules_fields::blanks::is_small;
use rules_fields::lines::{elements, first, has_line, lists, without};
use rules_fields::number::digits;
use rules_fields::types::{Framing, Options, Response};
use std::alloc::{AllocError, Global};

/// A response's head as it was read. It owns what isn't in the bytes.
#[derive(Drop)]
pub struct ResponseHead<'a> {
    /// The status.
    pub status: u16,
    /// The minor version of HTTP/1.
    pub minor: u8,
    /// The lines that came, end to end, without Content-Length and Via.
    pub lines: Vec<Line<'a>>,
    /// The value of Via, with one more element.
    pub via: Vec<u8>,
    /// The value of Date, where none came.
    pub date: Option<[u8; 29]>,
    /// How its body ends.
    pub framing: Framing,
    /// The connection ends behind it.
    pub closes: bool,
}

impl ResponseHead<'_> {
    /// All lines, lent: those that came, Via, and a Date that was added.
    pub fn lines(&self, alloc: Global) -> Result<Vec<Line<'_>>, AllocError>
        ensures { IfOk result (λ lines. fields lines.items ≡ all_lines self.now) }
    {
        let mut lines = Vec::with_capacity(alloc, self.lines.len().saturating_add(2))?;
        for line in &self.lines {
            lines.push(*line)?;
        }
        lines.push(Line {
            name: b"Via",
            value: self.via.as_slice(),
        })?;
        if let Some(date) = &self.date {
            lines.push(Line {
                name: b"Date",
                value: date,
            })?;
        }
        Ok(lines)
    }

    /// The response over these lines, which `lines` gave.
    pub fn response<'a>(&self, lines: &'a [Line<'a>]) -> Response<'a>
        requires { fields lines.now ≡ all_lines self.now }
        ensures { answered_of result ≡ head_answered self.now }
    {
        Response {
            status: self.status,
            minor: self.minor,
            lines,
            framing: self.framing,
        }
    }
}

/// What comes first in bytes.
#[derive(Drop)]
pub enum HeardResponse<'a> {
    /// A response, and how many bytes its head has.
    Read(ResponseHead<'a>, usize),
    /// Its head isn't whole.
    More,
    /// It is refused.
    Refused(Reason),
}

fn is_bodiless(status: u16) -> bool
    ensures { result ≡ is_bodiless status }
{
    status < 200 || status == 204 || status == 304
}

fn of_head(length: Option<u64>) -> Framing
    ensures { result ≡ of_head length }
{
    match length {
        None => Framing::None,
        Some(n) => Framing::HeadLength(n),
    }
}

fn length_of_get(lines: &[Line<'_>]) -> Option<u64>
    ensures { result ≡ option_and_then digits (first (codes "content-length") (fields lines.now)) }
{
    let value = first(lines, b"content-length")?;
    digits(value)
}

// How the body of a response ends.
fn response_framing(
    alloc: Global,
    method: &[u8],
    minor: u8,
    status: u16,
    lines: &[Line<'_>],
) -> Result<Result<Framing, Reason>, AllocError>
    ensures { IfOk result (λ f. f ≡ response_framing method.now minor status (fields lines.now)) }
{
    if method == b"HEAD".as_slice() {
        return Ok(Ok(of_head(length_of_get(lines))));
    }
    if is_bodiless(status) {
        return Ok(Ok(Framing::None));
    }
    framing(alloc, minor, lines, Framing::Close, Reason::UnknownCoding)
}

fn own_date(date: [u8; 29], lines: &[Line<'_>]) -> Option<[u8; 29]>
    ensures { date_line result ≡ own_date date (fields lines.now) }
{
    if has_line(lines, b"date") {
        None
    } else {
        Some(date)
    }
}

// Of several Dates the first.
fn one_date<'a>(alloc: Global, lines: &[Line<'a>]) -> Result<Vec<Line<'a>>, AllocError>
    ensures { IfOk result (λ kept. fields kept.items ≡ one_date false (fields lines.now)) }
{
    let mut kept = Vec::with_capacity(alloc, lines.len())?;
    let mut came = false;
    for line in lines {
        let is_date = is_small(line.name, b"date");
        if !(is_date && came) {
            kept.push(*line)?;
        }
        came = came || is_date;
    }
    Ok(kept)
}

// The lines end to end, with one Date, and without Content-Length.
fn own_lines<'a>(alloc: Global, lines: &[Line<'a>]) -> Result<Vec<Line<'a>>, AllocError>
    ensures { IfOk result (λ own. fields own.items ≡ own_lines (fields lines.now)) }
{
    let connection = elements(alloc, lines, b"connection")?;
    let kept = kept_lines(alloc, lines, connection.as_slice())?;
    let own = without(alloc, kept.as_slice(), &[b"content-length"])?;
    one_date(alloc, own.as_slice())
}

fn is_till_close(framing: Framing) -> bool
    ensures { result ≡ is_till_close framing }
{
    matches!(framing, Framing::Close)
}

// Whether the connection ends behind a response.
fn closes(minor: u8, lines: &[Line<'_>], framing: Framing) -> bool
    ensures { result ≡ closes minor (fields lines.now) framing }
{
    minor == 0 || lists(lines, b"connection", b"close") || is_till_close(framing)
}

fn answered_with<'a>(
    alloc: Global,
    line: (u8, u16),
    date: [u8; 29],
    options: &Options<'_>,
    lines: &[Line<'a>],
    framing: Framing,
) -> Result<ResponseHead<'a>, AllocError>
    ensures { IfOk result (λ h. head_view h ≡ answered_with line.0 line.1 date (chosen options.now) (fields lines.now) framing) }
{
    let own = own_lines(alloc, lines)?;
    Ok(ResponseHead {
        status: line.1,
        minor: line.0,
        lines: without(alloc, own.as_slice(), &[b"via"])?,
        via: via_value(alloc, own.as_slice(), line.0, options.name)?,
        date: own_date(date, lines),
        framing,
        closes: closes(line.0, lines, framing),
    })
}

#[tactic(auto, unfolding(crate::specs::Response::answered_by))]
fn answered_by<'a>(
    alloc: Global,
    method: &[u8],
    date: [u8; 29],
    options: &Options<'_>,
    line: (u8, u16),
    lines: &[Line<'a>],
) -> Result<Result<ResponseHead<'a>, Reason>, AllocError>
    ensures { IfOk result (λ r. map_ok head_view r ≡ answered_by method.now date (chosen options.now) line (fields lines.now)) }
{
    if line.1 == 101 {
        return Ok(Err(Reason::Switched));
    }
    match response_framing(alloc, method, line.0, line.1, lines)? {
        Ok(framing) => Ok(Ok(answered_with(alloc, line, date, options, lines, framing)?)),
        Err(reason) => Ok(Err(reason)),
    }
}

// What follows a line, which may be nothing.
fn text_behind(rest: Option<&[u8]>) -> &[u8]
    ensures { rows_of (lines_of result.now) ≡ rows_of (option_map_or (λ t. lines_of t.now) rest.entry []) }
{
    match rest {
        Some(text) => text,
        None => &[],
    }
}

// A head, by its start line and what follows it.
fn by_fields<'a>(
    alloc: Global,
    text: &'a [u8],
    method: &[u8],
    date: [u8; 29],
    options: &Options<'_>,
    line: (u8, u16),
) -> Result<Result<ResponseHead<'a>, Reason>, AllocError>
    ensures { IfOk result (λ r. map_ok head_view r ≡ by_fields method.now date (chosen options.now) (rows_of (lines_of text.now)) line) }
{
    match read_fields(alloc, text, options.most_lines)? {
        Ok(lines) => answered_by(alloc, method, date, options, line, lines.as_slice()),
        Err(reason) => Ok(Err(reason)),
    }
}

// A head, by its start line.
fn by_start<'a>(
    alloc: Global,
    start: &[u8],
    text: &'a [u8],
    method: &[u8],
    date: [u8; 29],
    options: &Options<'_>,
) -> Result<Result<ResponseHead<'a>, Reason>, AllocError>
    ensures { IfOk result (λ r. map_ok head_view r ≡ by_start method.now date (chosen options.now) start.now (rows_of (lines_of text.now))) }
{
    match status_line(row_of(start)) {
        Ok(line) => by_fields(alloc, text, method, date, options, line),
        Err(reason) => Ok(Err(reason)),
    }
}

// A head, by its lines.
fn by_lines<'a>(
    alloc: Global,
    head: &'a [u8],
    method: &[u8],
    date: [u8; 29],
    options: &Options<'_>,
) -> Result<Result<ResponseHead<'a>, Reason>, AllocError>
    ensures { IfOk result (λ r. map_ok head_view r ≡ by_lines method.now date (chosen options.now) (lines_of head.now)) }
{
    let (start, rest) = first_line(head);
    by_start(alloc, start, text_behind(rest), method, date, options)
}

#[tactic(auto, unfolding(crate::specs::Response::response_of))]
fn response_of<'a>(
    alloc: Global,
    head: &'a [u8],
    method: &[u8],
    date: [u8; 29],
    options: &Options<'_>,
) -> Result<Result<ResponseHead<'a>, Reason>, AllocError>
    ensures { IfOk result (λ r. map_ok head_view r ≡ response_of head.now method.now date (chosen options.now)) }
{
    if head.len() as u64 > options.most_head {
        return Ok(Err(Reason::HeadTooLong));
    }
    if has_bare_cr(head) {
        return Ok(Err(Reason::BareLineEnd));
    }
    by_lines(alloc, head, method, date, options)
}

/// The text of a moment's second (RFC 9110, 5.6.7).
pub fn date_text(came: u64) -> [u8; 29]
    ensures { ShowsSecond (came / 1_000_000_000) result }
{
    match HttpDate::from_unix_secs(came / 1_000_000_000) {
        Ok(date) => date.to_bytes(),
        Err(_) => unreachable!(),
    }
}

/// The same, where a response without Date gets this one.
#[tactic(auto, unfolding(crate::specs::Response::read_response))]
pub fn read_dated<'a>(
    alloc: Global,
    bytes: &'a [u8],
    method: &[u8],
    date: [u8; 29],
    options: &Options<'_>,
) -> Result<HeardResponse<'a>, AllocError>
    ensures { IfOk result (λ h. heard h ≡ read_response bytes.now method.now date (chosen options.now)) }
{
    let Some(len) = head_end(bytes, 0) else {
        if bytes.len() as u64 > options.most_head {
            return Ok(HeardResponse::Refused(Reason::HeadTooLong));
        }
        return Ok(HeardResponse::More);
    };
    match response_of(alloc, &bytes[..len], method, date, options)? {
        Ok(head) => Ok(HeardResponse::Read(head, len)),
        Err(reason) => Ok(HeardResponse::Refused(reason)),
    }
}

/// Reads the response that comes first in bytes, to a request that was sent with a method. `came` is the moment at which it came, in
/// nanoseconds since 1970: a response without Date gets that one. Call it once `head_end` says where the head ends.
pub fn read_response<'a>(
    alloc: Global,
    bytes: &'a [u8],
    method: &[u8],
    came: u64,
    options: &Options<'_>,
) -> Result<HeardResponse<'a>, AllocError>
    ensures { IfOk result (λ h. (date : List ℕ) × ShowsSecond (came / 1_000_000_000) date × (heard h ≡ read_response bytes.now method.now date (chosen options.now))) }
{
    read_dated(alloc, bytes, method, date_text(came), options)
}
