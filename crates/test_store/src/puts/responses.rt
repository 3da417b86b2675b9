//! Responses, whole and in pieces, and what comes of a put of each.
use crate::puts::bench::{Cache, Cut, Got, Put, cache, holds, put_in};
use pingora_cache::NoCacheReason;
use std::alloc::Global;
use std::test::*;

// A head and what comes after it, the limit on the body's size, how many lines of the head are noted, what comes of the put, and the
// body that is found.
type Row = (
    &'static [u8],
    &'static [u8],
    Option<usize>,
    usize,
    Got,
    Option<&'static [u8]>,
);

const OK: &[u8] = b"HTTP/1.1 200 OK\r\nCache-Control: max-age=100\r\nContent-Length: 3\r\n\r\n";

const NO_STORE: &[u8] = b"HTTP/1.1 200 OK\r\nCache-Control: no-store\r\nContent-Length: 3\r\n\r\n";

const FOUR: &[u8] = b"HTTP/1.1 200 OK\r\nCache-Control: max-age=100\r\nContent-Length: 4\r\n\r\n";

const STRIPPED: &[u8] =
    b"HTTP/1.1 200 OK\r\nCache-Control: max-age=100, private=\"content-length\"\r\nContent-Length: 4\r\n\r\n";

const PUBLIC: &[u8] =
    b"HTTP/1.1 200 OK\r\nServer: origin-server\r\nCache-Control: public, max-age=1\r\nContent-Length: 4\r\n\r\n";

const NO_CONTENT: &[u8] =
    b"HTTP/1.1 204 OK\r\nCache-Control: public, max-age=1\r\nContent-Length: 4\r\n\r\n";

const NO_LENGTH: &[u8] = b"HTTP/1.1 200 OK\r\nCache-Control: max-age=100\r\n\r\n";

const NOT_KEPT: Got = Got::Uncacheable(NoCacheReason::OriginNotCache);

const ANNOUNCED: Got = Got::Uncacheable(NoCacheReason::ResponseTooLarge);

const HALF: &[u8] = b"HTTP/1.1 200 OK\r\nCache-Control: max-age=9\r\n";

const NINE: &[u8] = b"HTTP/1.1 200 OK\r\nCache-Control: max-age=9\r\nContent-Length: 3\r\n\r\n";

const BAD: &[u8] = b"HTP/1.1 200 OK\r\n\r\n";

const BAD_LINES: &[u8] = b"HTP/1.1 200 OK\r\nCache-Control: max-age=9\r\n\r\n";

const SHORT: Got = Got::Refused("incomplete");

const LARGE: Got = Got::Refused("too large");

const ROWS: &[Row] = &[
    (OK, b"abc", None, 2, Got::Stored(3, 0), Some(b"abc")),
    (NO_STORE, b"abc", None, 2, NOT_KEPT, None),
    (NO_STORE, b"ab", None, 2, SHORT, None),
    (NO_STORE, b"abc", Some(2), 2, NOT_KEPT, None),
    (NO_CONTENT, b"rust", None, 2, Got::Stored(0, 0), Some(b"")),
    (
        PUBLIC,
        b"rustabcdef",
        None,
        3,
        Got::Stored(4, 0),
        Some(b"rust"),
    ),
    (FOUR, b"rust", Some(3), 2, ANNOUNCED, None),
    (FOUR, b"rus", Some(3), 2, SHORT, None),
    (FOUR, b"rus", Some(2), 2, SHORT, None),
    (STRIPPED, b"rus", Some(3), 2, SHORT, None),
    (STRIPPED, b"rus", Some(2), 2, LARGE, None),
    (NO_STORE, b"ab", Some(1), 2, SHORT, None),
    (FOUR, b"rust", Some(4), 2, Got::Stored(4, 0), Some(b"rust")),
    (NO_LENGTH, b"rust", Some(3), 1, LARGE, None),
    (
        NO_LENGTH,
        b"rus",
        Some(3),
        1,
        Got::Stored(3, 0),
        Some(b"rus"),
    ),
    (STRIPPED, b"rust", Some(3), 2, LARGE, None),
    (BAD, b"rust", Some(3), 0, Got::Refused("bad head"), None),
    (NINE, b"abc", None, 2, Got::Stored(3, 0), Some(b"abc")),
    (NINE, b"ab", None, 2, SHORT, None),
    (HALF, b"", None, 0, SHORT, None),
    (BAD_LINES, b"", None, 0, Got::Refused("bad head"), None),
];

const CUTS: &[Cut] = &[Cut::Whole, Cut::HeadAndBody, Cut::Bytes];

// Whether a put into a new cache gives what it must.
fn gives(alloc: Global, cache: &mut Cache, row: Row, cut: Cut) -> bool {
    let (head, body, limit, lines, want, found) = row;
    let made = Put {
        name: b'a',
        head,
        body,
        cut,
        limit,
        second: 1000,
    };
    put_in(alloc, cache, made) == Some((want, lines))
        && holds(alloc, cache, b'a', found) == Some(true)
}

fn is_so(alloc: Global, row: Row, cut: Cut) -> bool {
    match cache(alloc, 1_000_000) {
        Some(mut cache) => gives(alloc, &mut cache, row, cut),
        None => false,
    }
}

#[test]
fn responses_give_what_they_give_in_any_cutting(rt: HostRuntime) {
    for &row in ROWS {
        for &cut in CUTS {
            assert!(rt; is_so(rt.alloc(), row, cut));
        }
    }
}

#[test]
fn each_beginning_is_incomplete(rt: HostRuntime) {
    for n in 0..OK.len() + 3 {
        let lines = if n < OK.len() { 0 } else { 2 };
        let row: Row = (OK, b"abc", None, lines, SHORT, None);
        assert!(rt; is_so(rt.alloc(), row, Cut::First(n)));
    }
}
