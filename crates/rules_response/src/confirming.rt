//! What a 304 confirms, and what it makes of the stored head.
ghost use Rattle.std.specs.Prelude.{◌≡◌, ◌==◌, true, not, codes, filter, option_map, option_and_then, Some, IfOk};
ghost use Rattle.std.specs.Option.{option_map_or};
ghost use Rattle.rules_fields.specs.Texts.{small};
ghost use Rattle.rules_fields.specs.Fields.{fields, first, has_line};
ghost use Rattle.rules_fields.specs.Numbers.{digits};
ghost use Rattle.rules_fields.specs.Types.{answered_of, kept_of, asked_of, chosen, stated};
ghost use Rattle.rules_storage.specs.Judge.{judgement};
ghost use Rattle.rules_storage.specs.Kept.{judged};
ghost use Rattle.rules_response.specs.Merged.{merged_of};
ghost use Rattle.rules_response.specs.Confirm.{merged_with, brings_cookies, stored_from, tag_in, date_in, is_tag_sent, is_same_second, is_before, is_strongly_dated, confirms_by_date, confirms, merged_lines, framed, freshen, agrees, is_head_of, freshen_by_head};

use rules_fields::Line;
use rules_fields::blanks::is_same;
use rules_fields::dates::date_of;
use rules_fields::lines::{first, has_line, without};
use rules_fields::number::digits;
use rules_fields::says::say_of;
use rules_fields::tables::NOT_UPDATED;
use rules_fields::tags::{Tag, tag_of};
use rules_fields::types::{Framing, Kept, Options, Request, Response};
use rules_storage::judging::judge;
use rules_storage::kept::Judged;
use rules_storage::lifetime::is_explicit;
use std::alloc::{AllocError, Global};

/// A stored response as the fields of a 304 make it.
#[derive(Debug, Drop)]
pub struct Merged<'a> {
    /// The stored status.
    pub status: u16,
    /// The minor version of the 304.
    pub minor: u8,
    /// The lines, without Content-Length.
    pub lines: Vec<Line<'a>>,
    /// By the stored Content-Length.
    pub framing: Framing,
}

impl Merged<'_> {
    /// The response that it is.
    pub fn response(&self) -> Response<'_>
        ensures { answered_of result ≡ merged_of self.now }
    {
        Response {
            status: self.status,
            minor: self.minor,
            lines: self.lines.as_slice(),
            framing: self.framing,
        }
    }

    /// Whether it is stored in the place of what was: it is judged as any response to a GET is, by the moments of this exchange, what is stored, and
    /// the status of what confirmed that.
    pub fn judge(
        &self,
        alloc: Global,
        request: &Request<'_>,
        asked: u64,
        came: u64,
        kept: &Kept<'_>,
        code: u16,
        options: &Options<'_>,
    ) -> Result<Judged<'_>, AllocError>
        ensures { IfOk result (λ j. judged j ≡ judgement (asked_of request.now) (codes "GET") (merged_of self.now) asked came
            (Some (kept_of kept.now)) code (chosen options.now)) }
    {
        judge(
            alloc,
            request,
            b"GET",
            &self.response(),
            asked,
            came,
            Some(kept),
            code,
            options,
        )
    }
}

/// The valid entity tag of lines.
pub fn tag_in<'a>(lines: &[Line<'a>]) -> Option<Tag<'a>>
    ensures { option_map (λ t. (t.is_weak, t.text.now)) result ≡ tag_in (fields lines.now) }
{
    match first(lines, b"etag") {
        None => None,
        Some(text) => tag_of(text),
    }
}

/// The second of the date that the first line of a name shows, which is given in small letters.
pub fn date_in(alloc: Global, lines: &[Line<'_>], name: &[u8]) -> Result<Option<u64>, AllocError>
    ensures { IfOk result (λ d. d ≡ date_in name.now (fields lines.now)) }
{
    match first(lines, name) {
        None => Ok(None),
        Some(text) => date_of(alloc, text),
    }
}

/// Whether a 304 with these lines is of a stored response (RFC 9111, 4.3.4).
pub fn confirms(alloc: Global, stored: &[Line<'_>], sent: &[Line<'_>]) -> Result<bool, AllocError>
    ensures { IfOk result (λ b. b ≡ confirms (fields stored.now) (fields sent.now)) }
{
    match tag_in(sent) {
        Some(tag) => Ok(is_tag_sent(tag, tag_in(stored))),
        None => confirms_by_date(alloc, stored, sent),
    }
}

fn is_tag_sent(sent: Tag<'_>, stored: Option<Tag<'_>>) -> bool
    ensures { result ≡ is_tag_sent (sent.entry.is_weak, sent.entry.text.now) (option_map (λ t. (t.is_weak, t.text.now)) stored.entry) }
{
    match stored {
        None => false,
        Some(mine) => mine.text == sent.text && (sent.is_weak || !mine.is_weak),
    }
}

fn confirms_by_date(
    alloc: Global,
    stored: &[Line<'_>],
    sent: &[Line<'_>],
) -> Result<bool, AllocError>
    ensures { IfOk result (λ b. b ≡ confirms_by_date (fields stored.now) (fields sent.now)) }
{
    if !has_line(sent, b"last-modified") {
        return Ok(true);
    }
    let theirs = date_in(alloc, sent, b"last-modified")?;
    if tag_in(stored).is_some() {
        let date = date_in(alloc, sent, b"date")?;
        if !is_before(theirs, date) {
            return Ok(true);
        }
    }
    let mine = date_in(alloc, stored, b"last-modified")?;
    Ok(is_same_second(theirs, mine))
}

/// Whether Last-Modified lies a second or more before Date, so that it is a strong validator (RFC 9110, 8.8.2.2).
pub fn is_strongly_dated(alloc: Global, lines: &[Line<'_>]) -> Result<bool, AllocError>
    ensures { IfOk result (λ b. b ≡ is_strongly_dated (fields lines.now)) }
{
    let modified = date_in(alloc, lines, b"last-modified")?;
    let date = date_in(alloc, lines, b"date")?;
    Ok(is_before(modified, date))
}

fn is_before(a: Option<u64>, b: Option<u64>) -> bool
    ensures { result ≡ is_before a b }
{
    match (a, b) {
        (Some(a), Some(b)) => a < b,
        _ => false,
    }
}

fn is_same_second(a: Option<u64>, b: Option<u64>) -> bool
    ensures { result ≡ is_same_second a b }
{
    match (a, b) {
        (None, None) => true,
        (Some(a), Some(b)) => b == a,
        _ => false,
    }
}

/// The stored lines whose names weren't sent, then those that were sent, but none on which the stored body depends (RFC 9111, 3.2).
pub fn merged_lines<'a>(
    alloc: Global,
    stored: &[Line<'a>],
    sent: &[Line<'a>],
) -> Result<Vec<Line<'a>>, AllocError>
    ensures { IfOk result (λ lines. fields lines.items ≡ merged_lines (fields stored.now) (fields sent.now)) }
{
    let sent = without(alloc, sent, NOT_UPDATED)?;
    let mut lines = unsent(alloc, stored, sent.as_slice())?;
    for line in &sent {
        lines.push(*line)?;
    }
    Ok(lines)
}

// The stored lines whose names weren't sent.
fn unsent<'a>(
    alloc: Global,
    stored: &[Line<'a>],
    sent: &[Line<'_>],
) -> Result<Vec<Line<'a>>, AllocError>
    ensures { IfOk result (λ lines. fields lines.items ≡ filter (λ f. not (has_line (small f.0) (fields sent.now))) (fields stored.now)) }
{
    let mut lines = Vec::new(alloc);
    for line in stored {
        if !has_name(sent, line.name) {
            lines.push(*line)?;
        }
    }
    Ok(lines)
}

// Whether there is a line of a name, which may be in any case.
fn has_name(lines: &[Line<'_>], name: &[u8]) -> bool
    ensures { result ≡ has_line (small name.now) (fields lines.now) }
{
    for line in lines {
        if is_same(line.name, name) {
            return true;
        }
    }
    false
}

/// The stored response with the fields of a 304, to be judged anew and sent to who asked; none where the 304 is of another (RFC 9111, 4.3.4).
pub fn freshen<'a>(
    alloc: Global,
    kept: &Kept<'a>,
    response: &Response<'a>,
) -> Result<Option<Merged<'a>>, AllocError>
    ensures { IfOk result (λ m. option_map merged_of m ≡ freshen (kept_of kept.now) (answered_of response.now)) }
{
    if !confirms(alloc, kept.lines, response.lines)? {
        return Ok(None);
    }
    Ok(Some(merged_with(alloc, kept, response.lines, response.minor)?))
}

// The stored response as these lines make it.
fn merged_with<'a>(
    alloc: Global,
    kept: &Kept<'a>,
    sent: &[Line<'a>],
    minor: u8,
) -> Result<Merged<'a>, AllocError>
    ensures { IfOk result (λ m. merged_of m ≡ merged_with (kept_of kept.now) (fields sent.now) minor) }
{
    let lines = merged_lines(alloc, kept.lines, sent)?;
    Ok(Merged {
        status: kept.status,
        minor,
        lines: without(alloc, lines.as_slice(), LENGTH)?,
        framing: framed(kept.lines),
    })
}

// Whether a 304 brings Set-Cookie that isn't stored.
fn brings_cookies(
    alloc: Global,
    response: &Response<'_>,
    merged: &Merged<'_>,
    options: &Options<'_>,
) -> Result<bool, AllocError>
    ensures { IfOk result (λ b. b ≡ brings_cookies (answered_of response.now) (merged_of merged.now) (chosen options.now)) }
{
    if !has_line(response.lines, b"set-cookie") {
        return Ok(false);
    }
    if !options.stores_cookies {
        return Ok(true);
    }
    let says = say_of(alloc, merged.lines.as_slice(), options)?;
    Ok(!is_explicit(&says))
}

/// What is stored of a merged head, where that is another: without the Set-Cookie lines that the 304 brings.
pub fn stored_from<'a>(
    alloc: Global,
    kept: &Kept<'a>,
    response: &Response<'a>,
    merged: &Merged<'_>,
    options: &Options<'_>,
) -> Result<Option<Merged<'a>>, AllocError>
    ensures { IfOk result (λ m. option_map_or merged_of m (merged_of merged.now) ≡ stored_from (kept_of kept.now) (answered_of response.now) (merged_of merged.now) (chosen options.now)) }
{
    if !brings_cookies(alloc, response, merged, options)? {
        return Ok(None);
    }
    let sent = without(alloc, response.lines, COOKIES)?;
    Ok(Some(merged_with(alloc, kept, sent.as_slice(), response.minor)?))
}

// The name of Set-Cookie.
const COOKIES: &[&[u8]] = &[b"set-cookie"];

// The name of Content-Length.
const LENGTH: &[&[u8]] = &[b"content-length"];

// The framing that a stored Content-Length states.
fn framed(lines: &[Line<'_>]) -> Framing
    ensures { result ≡ framed (option_and_then digits (first (codes "content-length") (fields lines.now))) }
{
    match first(lines, b"content-length") {
        None => Framing::Close,
        Some(text) => match digits(text) {
            None => Framing::Close,
            Some(n) => Framing::Length(n),
        },
    }
}

/// The same by a 200 to HEAD (RFC 9111, 4.3.5), where `length` is that of the stored body; none where what is stored is out of date.
pub fn freshen_by_head<'a>(
    alloc: Global,
    kept: &Kept<'a>,
    length: u64,
    response: &Response<'a>,
) -> Result<Option<Merged<'a>>, AllocError>
    ensures { IfOk result (λ m. option_map merged_of m ≡ freshen_by_head (kept_of kept.now) length (answered_of response.now)) }
{
    if is_head_of(kept, length, response) {
        freshen(alloc, kept, response)
    } else {
        Ok(None)
    }
}

fn is_head_of(kept: &Kept<'_>, length: u64, response: &Response<'_>) -> bool
    ensures { result ≡ is_head_of (kept_of kept.now) length (answered_of response.now) }
{
    kept.status == response.status
        && states(response.framing, length)
        && agrees(kept.lines, response.lines, b"etag")
        && agrees(kept.lines, response.lines, b"last-modified")
}

// Whether a framing states no other length.
fn states(framing: Framing, length: u64) -> bool
    ensures { result ≡ option_map_or (λ n. n == length) (stated framing) true }
{
    match framing.stated() {
        None => true,
        Some(n) => n == length,
    }
}

// Whether what was sent under a name, if anything, is what is stored.
fn agrees(stored: &[Line<'_>], sent: &[Line<'_>], name: &[u8]) -> bool
    ensures { result ≡ agrees name.now (fields stored.now) (fields sent.now) }
{
    match first(sent, name) {
        None => true,
        Some(theirs) => match first(stored, name) {
            None => false,
            Some(mine) => mine == theirs,
        },
    }
}
