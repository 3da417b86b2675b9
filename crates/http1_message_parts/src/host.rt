//! The text of a Host and of an authority (RFC 9110, 4.2.3 and 7.2).
ghost use Rattle.std.specs.Prelude.{◌≡◌, ◌∷◌, ◌++◌, [], take, drop, bytes_eq, IfOk, OnOk, option_map};
ghost use Rattle.std.specs.List.{list_all};
ghost use Rattle.std.specs.Option.{option_map_or};
ghost use Rattle.http1_message_parts.specs.Host.{is_name_byte, is_address_byte, is_port, is_address, is_name, is_host, port_place, own_port, without_zeros, told_port, normal_host, host_of};

use crate::scan::{are_digits, place_of};
use rules_fields::blanks::is_small;
use std::alloc::{AllocError, Global};

fn is_name_byte(b: u8) -> bool
    ensures { result ≡ is_name_byte b }
{
    matches!(b, b'0'..=b'9' | b'A'..=b'Z' | b'a'..=b'z' | b'-' | b'.' | b'_' | b'~' | b'!' | b'$' | b'&' | b'\'' | b'(' | b')' | b'*' | b'+' | b',' | b';' | b'=')
}

fn is_address_byte(b: u8) -> bool
    ensures { result ≡ is_address_byte b }
{
    b.is_ascii_hexdigit() || b == b':' || b == b'.'
}

fn are_name_bytes(text: &[u8]) -> bool
    ensures { result ≡ list_all is_name_byte text.now }
{
    for b in text {
        if !is_name_byte(*b) {
            return false;
        }
    }
    true
}

fn are_address_bytes(text: &[u8]) -> bool
    ensures { result ≡ list_all is_address_byte text.now }
{
    for b in text {
        if !is_address_byte(*b) {
            return false;
        }
    }
    true
}

// Nothing, or a colon and digits.
fn is_port(text: &[u8]) -> bool
    ensures { result ≡ is_port text.now }
{
    match text {
        [] => true,
        [first, digits @ ..] => *first == b':' && are_digits(digits),
    }
}

// What follows the bracket of an address.
fn is_address(text: &[u8]) -> bool
    ensures { result ≡ is_address text.now }
{
    let (address, after) = text.split_at(place_of(text, b']'));
    match after {
        [] => false,
        [_, port @ ..] => !address.is_empty() && are_address_bytes(address) && is_port(port),
    }
}

fn is_name(text: &[u8]) -> bool
    ensures { result ≡ is_name text.now }
{
    let (name, port) = text.split_at(place_of(text, b':'));
    are_name_bytes(name) && is_port(port)
}

/// Whether a text is a host, with or without a port.
pub fn is_host(text: &[u8]) -> bool
    ensures { result ≡ is_host text.now }
{
    match text {
        [] => true,
        [b'[', rest @ ..] => is_address(rest),
        [b':', ..] => false,
        _ => is_name(text),
    }
}

fn port_place(text: &[u8]) -> usize
    ensures { result ≡ port_place text.now }
{
    match text {
        [b'[', rest @ ..] => place_of(rest, b']') + 2,
        _ => place_of(text, b':'),
    }
}

// A name, or an address in its brackets, and what follows it.
fn split_port(text: &[u8]) -> (&[u8], &[u8])
    ensures name { result.0.now ≡ take (port_place text.now) text.now }
    ensures port { result.1.now ≡ drop (port_place text.now) text.now }
{
    let place = port_place(text);
    if place < text.len() {
        text.split_at(place)
    } else {
        (text, &[])
    }
}

fn own_port(scheme: &[u8]) -> &'static [u8]
    ensures { result.now ≡ own_port scheme.now }
{
    if scheme == b"https".as_slice() {
        b"443"
    } else {
        b"80"
    }
}

fn without_zeros(mut digits: &[u8]) -> &[u8]
    ensures { result.now ≡ without_zeros digits.now }
{
    while let [b'0', rest @ ..] = digits
        && !rest.is_empty()
    {
        digits = rest;
    }
    digits
}

// The colon and the digits of a port that is told.
fn told_port<'a>(port: &'a [u8], scheme: &[u8]) -> Option<(u8, &'a [u8])>
    ensures { option_map_or (λ p. p.0 ∷ p.1.now) result [] ≡ told_port scheme.now port.now }
{
    let [colon, digits @ ..] = port else {
        return None;
    };
    let digits = without_zeros(digits);
    if !digits.is_empty() && digits != own_port(scheme) {
        Some((*colon, digits))
    } else {
        None
    }
}

/// A host and its port as they count: in small letters, the port without zeros in front, and none where it is empty or the scheme's own.
pub fn normal_host(alloc: Global, text: &[u8], scheme: &[u8]) -> Result<Vec<u8>, AllocError>
    ensures { IfOk result (λ host. host.items ≡ normal_host scheme.now text.now) }
{
    let (name, port) = split_port(text);
    let mut host: Vec<u8> = name.iter().map(|b| b.to_ascii_lowercase()).collect(alloc)?;
    add_port(&mut host, told_port(port, scheme))?;
    Ok(host)
}

fn add_port(host: &mut Vec<u8>, port: Option<(u8, &[u8])>) -> Result<(), AllocError>
    ensures { OnOk result (host.new.items ≡ host.old.items ++ option_map_or (λ p. p.0 ∷ p.1.now) port.entry []) }
{
    if let Some((colon, digits)) = port {
        host.push(colon)?;
        host.extend_from_slice(digits)?;
    }
    Ok(())
}

// Whether a text is a port that is told.
fn is_port_of(text: &[u8], port: Option<(u8, &[u8])>) -> bool
    ensures { result ≡ bytes_eq (option_map_or (λ p. p.0 ∷ p.1.now) port.entry []) text.now }
{
    match port {
        None => text.is_empty(),
        Some((colon, digits)) => match text {
            [] => false,
            [first, rest @ ..] => *first == colon && digits == rest,
        },
    }
}

/// Whether a text, in any form, is this host, which is in the form that counts.
pub fn is_host_of(text: &[u8], host: &[u8], scheme: &[u8]) -> bool
    ensures { result ≡ bytes_eq (normal_host scheme.now text.now) host.now }
{
    let (name, port) = split_port(text);
    if host.len() < name.len() {
        return false;
    }
    let (front, back) = host.split_at(name.len());
    is_small(name, front) && is_port_of(back, told_port(port, scheme))
}

/// A host and its port as they count; `None` where it is none.
pub fn host_of(alloc: Global, text: &[u8], scheme: &[u8]) -> Result<Option<Vec<u8>>, AllocError>
    ensures { IfOk result (λ host. option_map (λ h. h.items) host ≡ host_of scheme.now text.now) }
{
    if !is_host(text) {
        return Ok(None);
    }
    Ok(Some(normal_host(alloc, text, scheme)?))
}
