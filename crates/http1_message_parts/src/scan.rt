//! Scans over bytes.
ghost use Rattle.std.specs.Prelude.{◌≡◌, ◌≤◌, ◌<◌, ◌==◌, [], ◌∷◌, length, drop, IfSome};
ghost use Rattle.std.specs.List.{position_or_len, list_all, slice_split};
ghost use Rattle.std.specs.Option.{option_map_or};
ghost use Rattle.std.specs.Char.{is_ascii_digit};
ghost use Rattle.http1_message_parts.specs.Results.{without_end};

use memchr::memchr;

/// Where a byte stands first, or the length.
pub fn place_of(text: &[u8], wanted: u8) -> usize
    ensures is { result ≡ position_or_len (λ b. b == wanted) text.now }
    ensures within { result ≤ length text.now }
{
    match memchr(wanted, text) {
        Some(i) => i,
        None => text.len(),
    }
}

/// What stands before the first of a byte, and what follows it.
pub fn cut_at(text: &[u8], wanted: u8) -> (&[u8], Option<&[u8]>)
    ensures first { slice_split (λ b. b == wanted) text.now ≡ result.0.now ∷ option_map_or (λ rest. slice_split (λ b. b == wanted) rest.now) result.1 [] }
    ensures shorter { IfSome result.1 (λ rest. length rest.now < length text.now) }
{
    match memchr(wanted, text) {
        Some(i) => (&text[..i], Some(&text[i + 1..])),
        None => (text, None),
    }
}

/// Without this end, where it has it.
pub fn without_end<'a>(text: &'a [u8], end: &[u8]) -> &'a [u8]
    ensures { result.now ≡ without_end end.now text.now }
{
    let (front, back) = text.split_at(text.len().saturating_sub(end.len()));
    if back == end { front } else { text }
}

/// Whether all are digits.
pub fn are_digits(text: &[u8]) -> bool
    ensures { result ≡ list_all is_ascii_digit text.now }
{
    for b in text {
        if !b.is_ascii_digit() {
            return false;
        }
    }
    true
}

/// What stands behind so many bytes.
pub fn behind(text: &[u8], len: usize) -> &[u8]
    ensures { result.now ≡ drop len text.now }
{
    if len < text.len() { &text[len..] } else { &[] }
}
