//! Sizes as people write them.
ghost use Rattle.std.specs.Prelude.{◌≡◌};
ghost use Rattle.curve_words.specs.Words.{digits_in};
ghost use Rattle.curve_words.specs.Sizes.{times, size_of_text};

use crate::words::number;

/// The number of one digit or more.
pub fn digits(text: &[u8]) -> Option<u64>
    ensures { result ≡ digits_in text.now }
{
    if text.is_empty() {
        return None;
    }
    number(text)
}

// So many of a unit.
fn times(each: u64, text: &[u8]) -> Option<u64>
    ensures { result ≡ times each (digits_in text.now) }
{
    digits(text)?.checked_mul(each)
}

/// The number of bytes that a text says: digits, and after them perhaps `K`, `M`, `G` or `T` for thousands, millions and so on.
pub fn size(text: &[u8]) -> Option<u64>
    ensures { result ≡ size_of_text text.now }
{
    match text.split_last() {
        Some((b'K', front)) => times(1_000, front),
        Some((b'M', front)) => times(1_000_000, front),
        Some((b'G', front)) => times(1_000_000_000, front),
        Some((b'T', front)) => times(1_000_000_000_000, front),
        Some(_) => digits(text),
        None => None,
    }
}
