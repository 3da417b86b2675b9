//! What a response to an unsafe request makes out of date (RFC 9111, 4.4).
ghost use Rattle.std.specs.Prelude.{◌≡◌, ◌≤◌, ◌++◌, ◌||◌, not, nat_lt, length, take, map, bytes_eq, option_map, IfOk, OnOk};
ghost use Rattle.std.specs.List.{position_or_len};
ghost use Rattle.rules_fields.specs.Fields.{fields, all};
ghost use Rattle.rules_fields.specs.Tables.{is_safe};
ghost use Rattle.rules_fields.specs.Texts.{small};
ghost use Rattle.rules_fields.specs.Types.{asked_of, answered_of, chosen};
ghost use Rattle.rules_fields.specs.Meaning.{text_bytes};
ghost use Rattle.rules_forward.specs.Purge.{without_fragment, ends_authority, is_host_of, with_slash, ends_segment, mirrored, is_origin_host, own_path_at, own_target, own_path, target_in, target_of, named_in, invalidates};

use http1_message_parts::host::{host_of, normal_host};
use http1_message_parts::query::chosen_target;
use http1_message_parts::scan::{behind, place_of};
use rules_fields::Line;
use rules_fields::blanks::{is_small, trimmed};
use rules_fields::directive::Text;
use rules_fields::tables::is_safe;
use rules_fields::types::{Options, Request, Response};
use rules_reuse::keys::{key, key_of};
use std::alloc::{AllocError, Global};

fn without_fragment(text: &[u8]) -> &[u8]
    ensures { result.now ≡ without_fragment text.now }
{
    let text = trimmed(text);
    &text[..place_of(text, b'#')]
}

fn ends_authority(b: u8) -> bool
    ensures { result ≡ ends_authority b }
{
    b == b'/' || b == b'?'
}

fn authority_len(text: &[u8]) -> usize
    ensures is { result ≡ position_or_len ends_authority text.now }
    ensures within { result ≤ length text.now }
{
    for (i, b) in text.iter().enumerate() {
        if ends_authority(*b) {
            return i;
        }
    }
    text.len()
}

fn with_slash<'a>(alloc: Global, text: &'a [u8]) -> Result<Text<'a>, AllocError>
    ensures { IfOk result (λ path. text_bytes path ≡ with_slash text.now) }
{
    match text {
        [] => Ok(Text::Lent(b"/")),
        [b'/', ..] => Ok(Text::Lent(text)),
        _ => {
            let mut path = Vec::with_capacity(alloc, text.len())?;
            path.push(b'/')?;
            path.extend_from_slice(text)?;
            Ok(Text::Owned(path))
        }
    }
}

fn is_host_of(host: &[u8], found: &Option<Vec<u8>>) -> bool
    ensures { result ≡ is_host_of host.now (option_map (λ h. h.items) found.now) }
{
    match found {
        None => false,
        Some(found) => found.as_slice() == host,
    }
}

fn ends_segment(text: &[u8]) -> bool
    ensures { result ≡ ends_segment text.now }
{
    match text {
        [] => true,
        [first, ..] => *first == b'/' || *first == b'?',
    }
}

// A path of the origin's, as it is here.
fn mirrored<'a>(alloc: Global, prefix: &[u8], path: Text<'a>) -> Result<Text<'a>, AllocError>
    ensures { IfOk result (λ p. text_bytes p ≡ mirrored prefix.now (text_bytes path.entry)) }
{
    let text = path.bytes();
    let rest = behind(text, prefix.len());
    if text.starts_with(prefix) && ends_segment(rest) {
        let mut own = Vec::new(alloc);
        add_slashed(&mut own, rest)?;
        return Ok(Text::Owned(own));
    }
    Ok(path)
}

fn add_slashed(own: &mut Vec<u8>, rest: &[u8]) -> Result<(), AllocError>
    ensures { OnOk result (own.new.items ≡ own.old.items ++ with_slash rest.now) }
{
    match rest {
        [b'/', ..] => {}
        _ => own.push(b'/')?,
    }
    own.extend_from_slice(rest)
}

fn is_origin_host(
    alloc: Global,
    scheme: &[u8],
    origin: &[u8],
    host: &Option<Vec<u8>>,
) -> Result<bool, AllocError>
    ensures { IfOk result (λ b. b ≡ is_origin_host scheme.now origin.now (option_map (λ h. h.items) host.now)) }
{
    if origin.is_empty() {
        return Ok(false);
    }
    let own = normal_host(alloc, origin, scheme)?;
    Ok(is_host_of(own.as_slice(), host))
}

// A path of a host, if that is the request's own, or its origin's.
fn own_path_at<'a>(
    alloc: Global,
    request: &Request<'_>,
    options: &Options<'_>,
    scheme: &[u8],
    host: &Option<Vec<u8>>,
    path: Text<'a>,
) -> Result<Option<Text<'a>>, AllocError>
    ensures { IfOk result (λ p. option_map text_bytes p ≡ own_path_at (asked_of request.now) (chosen options.now) scheme.now (option_map (λ h. h.items) host.now) (text_bytes path.entry)) }
{
    if is_origin_host(alloc, scheme, options.origin_host, host)? {
        return Ok(Some(mirrored(alloc, options.origin_prefix, path)?));
    }
    if scheme != request.scheme || !is_host_of(request.host, host) {
        return Ok(None);
    }
    if options.origin_host.is_empty() {
        return Ok(Some(mirrored(alloc, options.origin_prefix, path)?));
    }
    Ok(Some(path))
}

// The target behind `//`, if the scheme and the authority are the request's own, or its origin's.
fn own_target<'a>(
    alloc: Global,
    request: &Request<'_>,
    options: &Options<'_>,
    scheme: &[u8],
    text: &'a [u8],
) -> Result<Option<Text<'a>>, AllocError>
    ensures { IfOk result (λ path. option_map text_bytes path ≡ own_target (asked_of request.now) (chosen options.now) scheme.now text.now) }
{
    let (authority, rest) = text.split_at(authority_len(text));
    let host = host_of(alloc, authority, scheme)?;
    let path = with_slash(alloc, rest)?;
    own_path_at(alloc, request, options, scheme, &host, path)
}

fn own_path<'a>(
    alloc: Global,
    options: &Options<'_>,
    text: &'a [u8],
) -> Result<Option<Text<'a>>, AllocError>
    ensures { IfOk result (λ p. option_map text_bytes p ≡ own_path (chosen options.now) text.now) }
{
    match text {
        [b'/', ..] => Ok(Some(mirrored(alloc, options.origin_prefix, Text::Lent(text))?)),
        _ => Ok(None),
    }
}

fn begins(text: &[u8], front: &[u8]) -> bool
    ensures { result ≡ bytes_eq (small (take (length front.now) text.now)) front.now }
{
    text.len() >= front.len() && is_small(&text[..front.len()], front)
}

fn target_in<'a>(
    alloc: Global,
    request: &Request<'_>,
    options: &Options<'_>,
    text: &'a [u8],
) -> Result<Option<Text<'a>>, AllocError>
    ensures { IfOk result (λ path. option_map text_bytes path ≡ target_in (asked_of request.now) (chosen options.now) text.now) }
{
    if begins(text, b"//") {
        return own_target(alloc, request, options, request.scheme, behind(text, 2));
    }
    if begins(text, b"http://") {
        return own_target(alloc, request, options, b"http", behind(text, 7));
    }
    if begins(text, b"https://") {
        return own_target(alloc, request, options, b"https", behind(text, 8));
    }
    own_path(alloc, options, text)
}

/// The key that a reference names, if it is of the request's own origin.
pub fn target_of(
    alloc: Global,
    request: &Request<'_>,
    text: &[u8],
    options: &Options<'_>,
) -> Result<Option<Vec<u8>>, AllocError>
    ensures { IfOk result (λ key. option_map (λ k. k.items) key ≡ target_of (asked_of request.now) text.now (chosen options.now)) }
{
    match target_in(alloc, request, options, without_fragment(text))? {
        Some(path) => {
            let path = chosen_target(alloc, path, options)?;
            Ok(Some(key_of(alloc, request.scheme, request.host, path.bytes(), options)?))
        }
        None => Ok(None),
    }
}

// Adds the keys that the lines of a name name.
fn add_named(
    alloc: Global,
    keys: &mut Vec<Vec<u8>>,
    request: &Request<'_>,
    lines: &[Line<'_>],
    name: &[u8],
    options: &Options<'_>,
) -> Result<(), AllocError>
    ensures { OnOk result (map (λ k. k.items) keys.new.items ≡ map (λ k. k.items) keys.old.items ++ named_in (asked_of request.now) (chosen options.now) (all name.now (fields lines.now))) }
{
    for line in lines {
        if is_small(line.name, name)
            && let Some(key) = target_of(alloc, request, line.value, options)?
        {
            keys.push(key)?;
        }
    }
    Ok(())
}

fn changes_nothing(method: &[u8], status: u16) -> bool
    ensures { result ≡ (is_safe method.now || nat_lt status 200 || not (nat_lt status 400)) }
{
    is_safe(method) || status < 200 || status >= 400
}

/// The keys to purge once a response has come.
pub fn invalidates(
    alloc: Global,
    request: &Request<'_>,
    response: &Response<'_>,
    options: &Options<'_>,
) -> Result<Vec<Vec<u8>>, AllocError>
    ensures { IfOk result (λ keys. map (λ k. k.items) keys.items ≡ invalidates (asked_of request.now) (answered_of response.now) (chosen options.now)) }
{
    let mut keys = Vec::new(alloc);
    if changes_nothing(request.method, response.status) {
        return Ok(keys);
    }
    keys.push(key(alloc, request, options)?)?;
    add_named(
        alloc,
        &mut keys,
        request,
        response.lines,
        b"location",
        options,
    )?;
    add_named(
        alloc,
        &mut keys,
        request,
        response.lines,
        b"content-location",
        options,
    )?;
    Ok(keys)
}
