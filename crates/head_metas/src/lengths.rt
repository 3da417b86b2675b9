//! How many bytes values take as MessagePack, each in its shortest form.
ghost use Rattle.std.specs.Prelude.{◌≡◌, ◌+◌, ◌≤◌, ◌<◌, ◌^◌, ◌≤ℤ◌, pos, length, IfSome, IfNone, option_map};
ghost use Rattle.cache_words.specs.Forms.{shortest, numbers, arrays, texts, byte_strings};
ghost use Rattle.cache_words.specs.Pack.{text_of, bytes_of, hash_of, optional_hash_of, moment_of};

use cache_words::key::HashBinary;
use cache_words::time::Moment;

/// The bytes of a number.
pub(crate) fn number_len(number: u64) -> usize
    ensures len { result ≡ length (shortest numbers number) }
    ensures byte { number < 2 ^ 8 → result ≤ 2 }
    ensures half { number < 2 ^ 32 → result ≤ 5 }
{
    if number < 1 << 7 {
        1
    } else if number < 1 << 8 {
        2
    } else if number < 1 << 16 {
        3
    } else if number < 1 << 32 {
        5
    } else {
        9
    }
}

/// The bytes of seconds in 32 bits.
pub(crate) fn seconds_len(seconds: u32) -> usize
    ensures len { result ≡ length (shortest numbers seconds) }
    ensures most { result ≤ 5 }
{
    number_len(u64::from(seconds))
}

/// The bytes ahead of an array's items; none where no form counts so many.
pub(crate) fn array_len(count: usize) -> usize
    ensures { result ≡ length (shortest arrays count) }
{
    if count < 16 {
        1
    } else if count < 1 << 16 {
        3
    } else if count < 1 << 32 {
        5
    } else {
        0
    }
}

// The bytes ahead of a text's.
fn text_head_len(count: usize) -> usize
    ensures { result ≡ length (shortest texts count) }
{
    if count < 32 {
        1
    } else if count < 1 << 8 {
        2
    } else if count < 1 << 16 {
        3
    } else if count < 1 << 32 {
        5
    } else {
        0
    }
}

// The bytes ahead of a byte string's.
fn bytes_head_len(count: usize) -> usize
    ensures { result ≡ length (shortest byte_strings count) }
{
    if count < 1 << 8 {
        2
    } else if count < 1 << 16 {
        3
    } else if count < 1 << 32 {
        5
    } else {
        0
    }
}

/// The bytes of a text, where they can be counted.
pub(crate) fn text_len(text: &[u8]) -> Option<usize>
    ensures some { IfSome result (λ n. n ≡ length (text_of text.now)) }
    ensures none { IfNone result (2 ^ 64 ≤ length (text_of text.now)) }
{
    text.len().checked_add(text_head_len(text.len()))
}

/// The bytes of a byte string, where they can be counted.
pub(crate) fn byte_string_len(bytes: &[u8]) -> Option<usize>
    ensures some { IfSome result (λ n. n ≡ length (bytes_of bytes.now)) }
    ensures none { IfNone result (2 ^ 64 ≤ length (bytes_of bytes.now)) }
{
    bytes.len().checked_add(bytes_head_len(bytes.len()))
}

// The bytes of a hash.
fn hash_len(hash: &HashBinary) -> usize
    ensures len { result ≡ length (hash_of hash.now) }
    ensures most { result ≤ 35 }
{
    let mut len = 3;
    'each: for byte in hash {
        len += number_len(u64::from(*byte));
    }
    len
}

/// The bytes of a hash, or of nil.
pub(crate) fn optional_hash_len(hash: &Option<HashBinary>) -> usize
    ensures len { result ≡ length (optional_hash_of hash.now) }
    ensures most { result ≤ 35 }
{
    match hash {
        Some(hash) => hash_len(hash),
        None => 1,
    }
}

/// The bytes of a moment that isn't before 1970.
pub(crate) fn moment_len(moment: &Moment) -> usize
    requires { pos 0 ≤ℤ moment.now.seconds }
    ensures len { result ≡ length (moment_of moment.now) }
    ensures most { result ≤ 15 }
{
    1 + number_len(moment.seconds() as u64) + number_len(u64::from(moment.nanoseconds()))
}
