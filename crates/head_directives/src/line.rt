//! The search through one header line, in one pass.
ghost use Rattle.std.specs.Prelude.{◌≡◌, ◌≤◌, length, drop, option_map, IfSome, false};
ghost use Rattle.std.specs.List.{prefix_len};
ghost use Rattle.head_directives.specs.Kinds.{is_space, is_separator, is_token};
ghost use Rattle.head_directives.specs.Walk.{close, value_after, value_len, written_at, written_len};

use http_header::is_token_char;

fn space(b: u8) -> bool
    ensures { result ≡ is_space b }
{
    b > 8 && b < 14 || b == b' '
}

fn separator(b: u8) -> bool
    ensures { result ≡ is_separator b }
{
    b == b',' || b == b';'
}

// A byte of a header's name, or past ASCII.
#[tactic(auto, unfolding(crate::specs::Kinds::is_token, http_header::specs::Token::is_token_byte))]
fn token(b: u8) -> bool
    ensures { result ≡ is_token b }
{
    is_token_char(b) || b > 127
}

// How many token bytes there are at the front.
fn token_len(bytes: &[u8]) -> usize
    ensures is { result ≡ prefix_len is_token bytes.now }
    ensures within { result ≤ length bytes.now }
{
    for (i, b) in bytes.iter().enumerate() {
        if !token(*b) {
            return i;
        }
    }
    bytes.len()
}

// How many bytes there are up to the closing quote, with it.
fn quoted_len(bytes: &[u8]) -> Option<usize>
    ensures is { result ≡ close false bytes.now }
    ensures within { IfSome result (λ n. n ≤ length bytes.now) }
{
    let mut escaped = false;
    for (i, b) in bytes.iter().enumerate() {
        if escaped {
            if *b == b'\n' {
                return None;
            }
            escaped = false;
        } else if *b == b'"' {
            return Some(i + 1);
        } else {
            escaped = *b == b'\\';
        }
    }
    None
}

// The value after a name, and what follows it.
fn value(bytes: &[u8]) -> (Option<&[u8]>, &[u8])
    ensures is { option_map (λ v. v.now) result.0 ≡ value_after bytes.now }
    ensures rest { result.1.now ≡ drop (value_len (value_after bytes.now)) bytes.now }
{
    let Some((b'=', text)) = bytes.split_first() else {
        return (None, bytes);
    };
    let len = match text.split_first() {
        None => 0,
        Some((b'"', inside)) => match quoted_len(inside) {
            Some(n) => n + 1,
            None => 0,
        },
        Some(_) => token_len(text),
    };
    if len == 0 {
        return (None, bytes);
    }
    let (value, rest) = text.split_at(len);
    (Some(value), rest)
}

// A directive as a line has it: its name, and its value with its quotes.
#[derive(Clone, Copy)]
pub(crate) struct RawDirective<'a> {
    pub(crate) name: &'a [u8],
    pub(crate) value: Option<&'a [u8]>,
}

// The directives of a line that are still to be found. Each byte is read a bounded number of times.
#[derive(Drop)]
pub(crate) struct Scan<'a> {
    rest: &'a [u8],
    // Whether a name may begin here.
    ready: bool,
}

impl<'a> RawDirective<'a> {
    ghost use Rattle.head_directives.specs.Found.{written};

    // The directive at the front, and what follows it.
    fn split_front(bytes: &'a [u8]) -> (RawDirective<'a>, &'a [u8])
        ensures is { written result.0 ≡ written_at bytes.now }
        ensures rest { result.1.now ≡ drop (written_len (written_at bytes.now)) bytes.now }
    {
        let (name, after) = bytes.split_at(token_len(bytes));
        let (value, rest) = value(after);
        (RawDirective { name, value }, rest)
    }
}

impl<'a> Scan<'a> {
    ghost use Rattle.head_directives.specs.Walk.{directives};
    ghost use Rattle.head_directives.specs.Found.{directives_left};

    // The directives of a line, in order.
    pub(crate) fn of(line: &'a [u8]) -> Self
        ensures { directives_left result ≡ directives line.now }
    {
        Scan {
            rest: line,
            ready: line.first().is_some_and(|b| token(*b)),
        }
    }
}

impl<'a> Iterator for Scan<'a> {
    ghost use Rattle.std.specs.Iterator.{YieldsFirstBy, item_count};
    ghost use Rattle.head_directives.specs.Found.{written, directives_left};

    type Item = RawDirective<'a>;

    ghost next_gives = { YieldsFirstBy written directives_left };

    ghost remaining = { item_count directives_left };

    fn next(&mut self) -> Option<RawDirective<'a>> {
        while let Some((b, after)) = self.rest.split_first() {
            if self.ready && token(*b) {
                let (found, rest) = RawDirective::split_front(self.rest);
                self.rest = rest;
                self.ready = false;
                return Some(found);
            }
            self.ready = separator(*b) || self.ready && space(*b);
            self.rest = after;
        }
        None
    }
}
