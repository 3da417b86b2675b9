//! The numbers of marks, framings and statuses.
ghost use Rattle.std.specs.Prelude.{◌≡◌, ◌≤◌};
ghost use Rattle.rules_ffi_results.specs.Numbers.{mark, framing_numbers, blank};

use rules_ffi_arguments::shapes::{Out, Span};
use rules_fields::types::Framing;

/// No length.
pub const NONE: u64 = u64::MAX;

/// Out of memory; an argument is out of its range.
pub const MEMORY: u64 = 13;

pub const BAD_CALL: u64 = 20;

/// The status of a list of sets of names, which a tier stores under a first key where responses vary: `judge` stores no response of one above 599.
pub const LIST: u64 = 600;

/// The buffer is too small; the head or body goes on; it was read; it is refused; done; to be stored; not; another response; data; over.
pub const NO_ROOM: u64 = 23;

pub const MORE: u64 = 64;

pub const READ: u64 = 65;

pub const REFUSED: u64 = 66;

pub const DONE: u64 = 67;

pub const KEPT: u64 = 68;

pub const NOT_KEPT: u64 = 69;

pub const OTHER: u64 = 70;

pub const DATA: u64 = 71;

pub const OVER: u64 = 72;

/// Marks of requests, responses and what is sent.
pub const CLOSES: u64 = 1;

pub const TAKES_TRAILERS: u64 = 2;

pub const EXPECTS: u64 = 4;

pub const IS_HEAD: u64 = 8;

pub const ONLY_IF_CACHED: u64 = 16;

pub const RELOADS: u64 = 32;

pub const DATED: u64 = 64;

/// A mark, or none.
pub fn mark(holds: bool, bit: u64) -> u64
    ensures is { result ≡ mark holds bit }
    ensures within { result ≤ bit }
{
    if holds { bit } else { 0 }
}

/// A framing, as the number of its form and the length that it states.
pub fn framing_numbers(framing: Framing) -> (u64, u64)
    ensures { (result.0, result.1) ≡ framing_numbers framing }
{
    match framing {
        Framing::None => (0, NONE),
        Framing::Length(n) => (1, n),
        Framing::Chunked => (2, NONE),
        Framing::Close => (3, NONE),
        Framing::HeadLength(n) => (0, n),
    }
}

/// No text.
pub const NOWHERE: Span = Span { from: 0, to: 0 };

/// An answer that tells nothing but its status and what room would do.
pub fn blank(status: u64, needed: u64) -> Out
    ensures { result ≡ blank status needed }
{
    Out {
        status,
        needed,
        reason: 0,
        code: 0,
        framing: 0,
        length: 0,
        marks: 0,
        choice: 0,
        parts: 0,
        count: 0,
        head: NOWHERE,
        more: NOWHERE,
        reserved: [0, 0],
    }
}
