//! Columns of a line.
ghost use Rattle.std.specs.Prelude.{◌≡◌, ◌≤◌, length, option_map};
ghost use Rattle.std.specs.Io.BufRead.{strip_last};
ghost use Rattle.std.specs.List.{prefix_len};
ghost use Rattle.curve_words.specs.Columns.{is_within, part_at, word_at, column};

use crate::words::{after_blanks, after_word, word_of};

/// Which columns of a line say what. The first one is 0.
#[derive(Drop)]
pub struct Columns {
    /// What stands between columns; without it runs of blanks do.
    pub delimiter: Option<u8>,
    /// The time.
    pub time: usize,
    /// The key.
    pub key: usize,
    /// Columns that are joined to the key by the delimiter, or by a space.
    pub key_more: Vec<usize>,
    /// The bytes of the body.
    pub bytes: usize,
    /// Columns before it in a sum.
    pub bytes_before: Vec<usize>,
    /// What is done. Without it each line asks.
    pub op: Option<usize>,
    /// For how many seconds the body is fresh.
    pub ttl: Option<usize>,
    /// How many requests the line stands for.
    pub times: Option<usize>,
    /// Words of `op` that ask.
    pub asks: Vec<Vec<u8>>,
    /// Words of `op` that remove.
    pub removes: Vec<Vec<u8>>,
}

// How many bytes stand before the first delimiter.
fn part_len(delimiter: u8, text: &[u8]) -> usize
    ensures len { result ≡ prefix_len (is_within delimiter) text.now }
    ensures within { result ≤ length text.now }
{
    let mut count = 0;
    for byte in text {
        if *byte == delimiter {
            break;
        }
        count += 1;
    }
    count
}

// Column n of a text whose columns a delimiter parts.
fn part_at(delimiter: u8, n: usize, text: &[u8]) -> Option<&[u8]>
    ensures { option_map (λ w. w.now) result ≡ part_at delimiter n text.now }
{
    let mut rest = text;
    for _ in 0..n {
        let len = part_len(delimiter, rest);
        if len == rest.len() {
            return None;
        }
        rest = &rest[len + 1..];
    }
    Some(&rest[..part_len(delimiter, rest)])
}

// Word n of a text that doesn't begin with a blank.
fn word_at(n: usize, text: &[u8]) -> Option<&[u8]>
    ensures { option_map (λ w. w.now) result ≡ word_at n text.now }
{
    let mut rest = text;
    for _ in 0..n {
        if rest.is_empty() {
            return None;
        }
        rest = after_word(rest);
    }
    if rest.is_empty() {
        return None;
    }
    Some(word_of(rest))
}

// A line without the carriage return before its line feed.
fn without_return(line: &[u8]) -> &[u8]
    ensures { result.now ≡ strip_last 13 line.now }
{
    match line.split_last() {
        Some((b'\r', front)) => front,
        _ => line,
    }
}

/// Column n of a line.
pub(crate) fn column(delimiter: Option<u8>, n: usize, line: &[u8]) -> Option<&[u8]>
    ensures { option_map (λ w. w.now) result ≡ column delimiter n line.now }
{
    match delimiter {
        None => word_at(n, after_blanks(line)),
        Some(delimiter) => part_at(delimiter, n, without_return(line)),
    }
}
