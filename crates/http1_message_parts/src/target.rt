//! Where a request goes (RFC 9112, 3.2).
ghost use Rattle.std.specs.Prelude.{◌≡◌, ◌≤◌, ◌==◌, ◌&&◌, ◌||◌, not, nat_lt, bytes_eq, length, map, option_map, IfOk};
ghost use Rattle.std.specs.List.{list_all, list_any, position_or_len};
ghost use Rattle.rules_fields.specs.Types.{chosen};
ghost use Rattle.http1_message_parts.specs.Host.{is_host, normal_host};
ghost use Rattle.http1_message_parts.specs.Views.{absolute_view};
ghost use Rattle.rules_fields.specs.Meaning.{text_bytes};
ghost use Rattle.http1_message_parts.specs.Target.{is_scheme_byte, is_scheme, after_mark, ends_authority, begins_path, with_authority, with_scheme, absolute, first_or_none, host_text, path_after, path_of, is_path, is_own_scheme, names_host, place_refusal};

use crate::host::{is_host, is_host_of};
use crate::reason::Reason;
use crate::scan::place_of;
use rules_fields::blanks::is_small;
use rules_fields::directive::Text;
use rules_fields::rows::first_true;
use rules_fields::types::Options;
use std::alloc::{AllocError, Global};

/// An absolute target.
#[derive(Clone, Copy, Debug)]
pub struct AbsoluteTarget<'a> {
    /// The scheme, in any case.
    pub scheme: &'a [u8],
    /// The host, with or without a port.
    pub authority: &'a [u8],
    /// The path and the query, or nothing.
    pub rest: &'a [u8],
}

fn is_scheme_byte(b: u8) -> bool
    ensures { result ≡ is_scheme_byte b }
{
    b.is_ascii_alphanumeric() || b == b'+' || b == b'-' || b == b'.'
}

fn are_scheme_bytes(text: &[u8]) -> bool
    ensures { result ≡ list_all is_scheme_byte text.now }
{
    for b in text {
        if !is_scheme_byte(*b) {
            return false;
        }
    }
    true
}

fn is_scheme(text: &[u8]) -> bool
    ensures { result ≡ is_scheme text.now }
{
    match text {
        [] => false,
        [first, rest @ ..] => first.is_ascii_alphabetic() && are_scheme_bytes(rest),
    }
}

fn after_mark(text: &[u8]) -> Option<&[u8]>
    ensures { option_map (λ t. t.now) result ≡ after_mark text.now }
{
    match text {
        [b':', b'/', b'/', rest @ ..] => Some(rest),
        _ => None,
    }
}

fn ends_authority(b: u8) -> bool
    ensures { result ≡ ends_authority b }
{
    b == b'/' || b == b'?' || b == b'#' || b == b'@'
}

fn authority_len(text: &[u8]) -> usize
    ensures is { result ≡ position_or_len ends_authority text.now }
    ensures within { result ≤ length text.now }
{
    for (i, b) in text.iter().enumerate() {
        if ends_authority(*b) {
            return i;
        }
    }
    text.len()
}

fn begins_path(text: &[u8]) -> bool
    ensures { result ≡ begins_path text.now }
{
    match text {
        [] => true,
        [first, ..] => *first == b'/' || *first == b'?',
    }
}

fn with_authority<'a>(scheme: &'a [u8], text: &'a [u8]) -> Option<AbsoluteTarget<'a>>
    ensures { option_map absolute_view result ≡ with_authority scheme.now text.now }
{
    let (authority, rest) = text.split_at(authority_len(text));
    if !authority.is_empty() && begins_path(rest) {
        Some(AbsoluteTarget {
            scheme,
            authority,
            rest,
        })
    } else {
        None
    }
}

fn with_scheme<'a>(scheme: &'a [u8], after: &'a [u8]) -> Option<AbsoluteTarget<'a>>
    ensures { option_map absolute_view result ≡ with_scheme scheme.now after.now }
{
    if !is_scheme(scheme) {
        return None;
    }
    match after_mark(after) {
        Some(rest) => with_authority(scheme, rest),
        None => None,
    }
}

/// The parts of an absolute target; `None` for one of another form.
pub fn absolute(target: &[u8]) -> Option<AbsoluteTarget<'_>>
    ensures { option_map absolute_view result ≡ absolute target.now }
{
    let (scheme, after) = target.split_at(place_of(target, b':'));
    with_scheme(scheme, after)
}

fn first_or_none<'a>(hosts: &[&'a [u8]]) -> &'a [u8]
    ensures { result.now ≡ first_or_none (map (λ h. h.now) hosts.now) }
{
    match hosts {
        [] => &[],
        [first, ..] => first,
    }
}

/// The host that counts.
pub fn host_text<'a>(form: Option<AbsoluteTarget<'a>>, hosts: &[&'a [u8]]) -> &'a [u8]
    ensures { result.now ≡ host_text (option_map absolute_view form.entry) (map (λ h. h.now) hosts.now) }
{
    match form {
        None => first_or_none(hosts),
        Some(form) => form.authority,
    }
}

fn path_after<'a>(alloc: Global, method: &[u8], rest: &'a [u8]) -> Result<Text<'a>, AllocError>
    ensures { IfOk result (λ path. text_bytes path ≡ path_after method.now rest.now) }
{
    match rest {
        [] => {
            if method == b"OPTIONS".as_slice() {
                Ok(Text::Lent(b"*"))
            } else {
                Ok(Text::Lent(b"/"))
            }
        }
        [b'?', ..] => {
            let mut path = Vec::with_capacity(alloc, rest.len())?;
            path.push(b'/')?;
            path.extend_from_slice(rest)?;
            Ok(Text::Owned(path))
        }
        _ => Ok(Text::Lent(rest)),
    }
}

/// The path and the query.
pub fn path_of<'a>(
    alloc: Global,
    method: &[u8],
    target: &'a [u8],
    form: Option<AbsoluteTarget<'a>>,
) -> Result<Text<'a>, AllocError>
    ensures { IfOk result (λ path. text_bytes path ≡ path_of method.now target.now (option_map absolute_view form.entry)) }
{
    match form {
        None => Ok(Text::Lent(target)),
        Some(form) => path_after(alloc, method, form.rest),
    }
}

fn is_path(method: &[u8], path: &[u8]) -> bool
    ensures { result ≡ is_path method.now path.now }
{
    match path {
        [] => false,
        [first, rest @ ..] => *first == b'/'
            || (*first == b'*' && rest.is_empty() && method == b"OPTIONS".as_slice()),
    }
}

fn has_fragment(target: &[u8]) -> bool
    ensures { result ≡ list_any (λ b. b == 35) target.now }
{
    for b in target {
        if *b == b'#' {
            return true;
        }
    }
    false
}

fn are_hosts(hosts: &[&[u8]]) -> bool
    ensures { result ≡ list_all is_host (map (λ h. h.now) hosts.now) }
{
    for host in hosts {
        if !is_host(host) {
            return false;
        }
    }
    true
}

fn is_own_scheme(scheme: &[u8], form: Option<AbsoluteTarget<'_>>) -> bool
    ensures { result ≡ is_own_scheme scheme.now (option_map absolute_view form.entry) }
{
    match form {
        None => true,
        Some(form) => is_small(form.scheme, scheme),
    }
}

// Whether a host, which is in the form that counts, is one of these.
fn is_word(words: &[&[u8]], host: &[u8], scheme: &[u8]) -> bool
    ensures { result ≡ list_any (λ word. bytes_eq (normal_host scheme.now word) host.now) (map (λ h. h.now) words.now) }
{
    for word in words {
        if is_host_of(word, host, scheme) {
            return true;
        }
    }
    false
}

#[tactic(auto, unfolding(crate::specs::Target::names_host))]
fn is_served(options: &Options<'_>, host: &[u8]) -> bool
    ensures { result ≡ names_host (chosen options.now).hosts options.now.scheme.now host.now }
{
    options.hosts.is_empty() || is_word(options.hosts, host, options.scheme)
}

fn lacks_host(hosts: &[&[u8]], minor: u8) -> bool
    ensures { result ≡ (length (map (λ h. h.now) hosts.now) == 0 && minor == 1) }
{
    hosts.is_empty() && minor == 1
}

fn has_bad_host(host: &[u8], hosts: &[&[u8]]) -> bool
    ensures { result ≡ not (is_host host.now && list_all is_host (map (λ h. h.now) hosts.now)) }
{
    !(is_host(host) && are_hosts(hosts))
}

fn is_bad_target(method: &[u8], target: &[u8], path: &[u8]) -> bool
    ensures { result ≡ (list_any (λ b. b == 35) target.now || not (is_path method.now path.now)) }
{
    has_fragment(target) || !is_path(method, path)
}

/// Why a place is refused: `hosts` are the values of all Host lines, `host` is the one that counts, as `normal_host` gave it, `path` what `path_of` gave.
#[tactic(auto, unfolding(crate::specs::Target::place_refusal))]
pub fn place_refusal(
    method: &[u8],
    target: &[u8],
    minor: u8,
    hosts: &[&[u8]],
    form: Option<AbsoluteTarget<'_>>,
    host: &[u8],
    path: &[u8],
    options: &Options<'_>,
) -> Option<Reason>
    requires host { host.now ≡ normal_host options.now.scheme.now (host_text (option_map absolute_view form) (map (λ h. h.now) hosts.now)) }
    requires path { path.now ≡ path_of method.now target.now (option_map absolute_view form) }
    ensures { result ≡ place_refusal method.now target.now minor (map (λ h. h.now) hosts.now) (option_map absolute_view form.entry) (chosen options.now) }
{
    let text = host_text(form, hosts);
    let rows = [
        (Reason::SeveralHosts, hosts.len() > 1),
        (Reason::NoHost, lacks_host(hosts, minor)),
        (Reason::BadHost, has_bad_host(text, hosts)),
        (Reason::OtherScheme, !is_own_scheme(options.scheme, form)),
        (Reason::OtherHost, !is_served(options, host)),
        (Reason::BadTarget, is_bad_target(method, target, path)),
    ];
    first_true(&rows)
}
