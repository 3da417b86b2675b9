//! Times as people write them.
ghost use Rattle.std.specs.Prelude.{◌≡◌, ◌≤◌, length};
ghost use Rattle.std.specs.List.{prefix_len};
ghost use Rattle.curve_words.specs.Words.{is_digit};
ghost use Rattle.curve_words.specs.Times.{is_fraction, seconds_in, moment_in};

use crate::words::number;

// How many digits a text begins with.
fn digits_len(text: &[u8]) -> usize
    ensures len { result ≡ prefix_len is_digit text.now }
    ensures within { result ≤ length text.now }
{
    let mut count = 0;
    for byte in text {
        if *byte < b'0' || *byte > b'9' {
            break;
        }
        count += 1;
    }
    count
}

// Whether a text is empty, or a dot and digits.
fn is_fraction(text: &[u8]) -> bool
    ensures { result ≡ is_fraction text.now }
{
    match text.split_first() {
        None => true,
        Some((first, digits)) => *first == b'.' && digits_len(digits) == digits.len(),
    }
}

// The whole seconds of a time.
fn seconds(word: &[u8]) -> Option<u64>
    ensures { result ≡ seconds_in word.now }
{
    let count = digits_len(word);
    if count == 0 || !is_fraction(&word[count..]) {
        return None;
    }
    number(&word[..count])
}

/// The moment that a time says.
pub fn moment(word: &[u8]) -> Option<u64>
    ensures { result ≡ moment_in word.now }
{
    let seconds = seconds(word)?;
    if seconds < 1 << 63 {
        Some(seconds)
    } else {
        None
    }
}
