//! The first key (RFC 9111, 2).
ghost use Rattle.std.specs.Prelude.{◌≡◌, ◌++◌, ◌<◌, ◌≤◌, length, slice_index, true, IfOk, OnOk};
ghost use Rattle.std.specs.Bool.{OnTrue};
ghost use Rattle.std.specs.Char.{is_ascii_hexdigit, digit_value};
ghost use Rattle.rules_reuse.specs.Keys.{is_unreserved, plain_code, starts_code, folded, key_of};
ghost use Rattle.rules_fields.specs.Types.{chosen};

use rules_fields::types::{Options, Request};
use std::alloc::{AllocError, Global};

/// The key of a request's target: that of a GET.
pub fn key(
    alloc: Global,
    request: &Request<'_>,
    options: &Options<'_>,
) -> Result<Vec<u8>, AllocError>
    ensures { IfOk result (λ key. key.items ≡ key_of request.now.scheme.now request.now.host.now request.now.target.now (chosen options.now)) }
{
    key_of(alloc, request.scheme, request.host, request.target, options)
}

/// A key: scheme, `://`, host and target.
pub fn key_of(
    alloc: Global,
    scheme: &[u8],
    host: &[u8],
    target: &[u8],
    options: &Options<'_>,
) -> Result<Vec<u8>, AllocError>
    ensures { IfOk result (λ key. key.items ≡ key_of scheme.now host.now target.now (chosen options.now)) }
{
    let mut key = Vec::new(alloc);
    key.extend_from_slice(scheme)?;
    key.extend_from_slice(b"://")?;
    key.extend_from_slice(host)?;
    if options.folds_percent {
        add_folded(&mut key, target)?;
    } else {
        key.extend_from_slice(target)?;
    }
    Ok(key)
}

// Adds a text, whose percent-codes of unreserved bytes are those bytes.
fn add_folded(key: &mut Vec<u8>, text: &[u8]) -> Result<(), AllocError>
    ensures { OnOk result (key.new.items ≡ key.old.items ++ folded text.now) }
{
    let mut left = text;
    while !left.is_empty() {
        if starts_code(left) {
            add_plain(key, left[1], left[2])?;
            left = &left[3..];
        } else {
            key.push(left[0])?;
            left = &left[1..];
        }
    }
    Ok(())
}

fn starts_code(text: &[u8]) -> bool
    ensures is { result ≡ starts_code text.now }
    ensures digits { OnTrue result ((3 ≤ length text.now) × (is_ascii_hexdigit (slice_index text.now 1) ≡ true) × (is_ascii_hexdigit (slice_index text.now 2) ≡ true)) }
{
    match text {
        [first, high, low, ..] => {
            *first == b'%' && high.is_ascii_hexdigit() && low.is_ascii_hexdigit()
        }
        _ => false,
    }
}

// Adds a percent-code.
fn add_plain(key: &mut Vec<u8>, high: u8, low: u8) -> Result<(), AllocError>
    requires high_fits { is_ascii_hexdigit high ≡ true }
    requires low_fits { is_ascii_hexdigit low ≡ true }
    ensures { OnOk result (key.new.items ≡ key.old.items ++ plain_code high low) }
{
    let code = 16 * hex_value(high) + hex_value(low);
    if is_unreserved(code) {
        key.push(code)?;
    } else {
        key.push(b'%')?;
        key.push(high.to_ascii_uppercase())?;
        key.push(low.to_ascii_uppercase())?;
    }
    Ok(())
}

fn hex_value(b: u8) -> u8
    requires { is_ascii_hexdigit b ≡ true }
    ensures is { result ≡ digit_value b }
    ensures within { result < 16 }
{
    match b {
        b'0'..=b'9' => b - b'0',
        b'A'..=b'F' => b - b'A' + 10,
        _ => b - b'a' + 10,
    }
}

fn is_unreserved(b: u8) -> bool
    ensures { result ≡ is_unreserved b }
{
    b.is_ascii_alphanumeric() || b == b'-' || b == b'.' || b == b'_' || b == b'~'
}
