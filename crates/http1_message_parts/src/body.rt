//! How a body ends (RFC 9112, 6.3).
ghost use Rattle.std.specs.Prelude.{◌≡◌, map, IfOk};
ghost use Rattle.std.specs.List.{list_all, list_any};
ghost use Rattle.httparse.specs.Grammar.{is_token};
ghost use Rattle.rules_fields.specs.Fields.{fields};
ghost use Rattle.http1_message_parts.specs.Body.{length_of, is_number, one_length, is_chunked, by_codings, framing, sized};

use crate::reason::Reason;
use httparse::is_token;
use rules_fields::Line;
use rules_fields::blanks::is_small;
use rules_fields::lines::{all, elements, has_line};
use rules_fields::number::digits;
use rules_fields::types::Framing;
use std::alloc::{AllocError, Global};

fn length_of(value: &[u8]) -> Option<u64>
    ensures { result ≡ length_of value.now }
{
    let n = digits(value)?;
    if n < 1 << 63 { Some(n) } else { None }
}

fn all_say(values: &[&[u8]], n: u64) -> bool
    ensures { result ≡ list_all (λ w. is_number n (length_of w)) (map (λ v. v.now) values.now) }
{
    for value in values {
        if length_of(value) != Some(n) {
            return false;
        }
    }
    true
}

// The length that all values say.
fn one_length(values: &[&[u8]]) -> Option<u64>
    ensures { result ≡ one_length (map (λ v. v.now) values.now) }
{
    let [first, others @ ..] = values else {
        return None;
    };
    let n = length_of(first)?;
    if all_say(others, n) { Some(n) } else { None }
}

fn is_chunked(coding: &[u8]) -> bool
    ensures { result ≡ is_chunked coding.now }
{
    is_small(coding, b"chunked")
}

fn any_chunked(codings: &[&[u8]]) -> bool
    ensures { result ≡ list_any is_chunked (map (λ e. e.now) codings.now) }
{
    for coding in codings {
        if is_chunked(coding) {
            return true;
        }
    }
    false
}

fn are_tokens(codings: &[&[u8]]) -> bool
    ensures { result ≡ list_all is_token (map (λ e. e.now) codings.now) }
{
    for coding in codings {
        if !is_token(coding) {
            return false;
        }
    }
    true
}

fn by_codings(unchunked: Reason, codings: &[&[u8]]) -> Result<Framing, Reason>
    ensures { result ≡ by_codings unchunked (map (λ e. e.now) codings.now) }
{
    let (earlier, last) = codings.split_at(codings.len().saturating_sub(1));
    if codings.is_empty() || any_chunked(earlier) || !are_tokens(codings) {
        return Err(Reason::BadCoding);
    }
    if !any_chunked(last) {
        return Err(unchunked);
    }
    if codings.len() == 1 {
        Ok(Framing::Chunked)
    } else {
        Err(Reason::UnknownCoding)
    }
}

/// How a body ends: `unstated` where no line says it; `unchunked` is the refusal of codings that don't end in `chunked`.
pub fn framing(
    alloc: Global,
    minor: u8,
    lines: &[Line<'_>],
    unstated: Framing,
    unchunked: Reason,
) -> Result<Result<Framing, Reason>, AllocError>
    ensures { IfOk result (λ f. f ≡ framing minor (fields lines.now) unstated unchunked) }
{
    let coded = has_line(lines, b"transfer-encoding");
    let lengths = all(alloc, lines, b"content-length")?;
    if coded && !lengths.is_empty() {
        return Ok(Err(Reason::LengthAndCoding));
    }
    if !lengths.is_empty() {
        return Ok(sized(one_length(lengths.as_slice())));
    }
    if !coded {
        return Ok(Ok(unstated));
    }
    if minor == 0 {
        return Ok(Err(Reason::CodingIn10));
    }
    let codings = elements(alloc, lines, b"transfer-encoding")?;
    Ok(by_codings(unchunked, codings.as_slice()))
}

fn sized(length: Option<u64>) -> Result<Framing, Reason>
    ensures { result ≡ sized length }
{
    match length {
        None => Err(Reason::BadLength),
        Some(n) => Ok(Framing::Length(n)),
    }
}
