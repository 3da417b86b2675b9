//! Lines as they are read, and the lines that are written for those that are refused. `None` is where memory is refused.
use cache_words::key::{CacheHashKey, CacheKey};
use std::alloc::{AllocError, Global};
use tier_model::event::{Action, Event};
use trace_lines::line::{Line, Refusal};
use trace_lines::read::LineReader;
use trace_lines::text::add_refusal_line;

// What is asked of request 7, or of the key `006a` without a tag; or what is written for a line that is refused.
#[derive(Clone, Copy, PartialEq)]
enum Asked {
    Open { lock: bool },
    Look,
    Poll,
    // With the bytes of the key above as its head.
    Begin,
    // With the same bytes.
    Piece { end: bool },
    Finish,
    Read,
    Drop,
    Purge,
    // A put of so many pieces, and whether it is that of the line PUT.
    Put { pieces: usize, is_put: bool },
    Refused(&'static [u8]),
    // Another event.
    Else,
}

const PUT: &[u8] =
    b" {\"op\":\"look\",\"at\":9223372036854775807,\"id\":true,\"tag\":\"t\",\"op\":\"put\",\"key\":\"006A\",\"pieces\":[\"\",\"0aFf\"]}\r";

// Whether the key is that of the lines, with this tag.
fn is_wanted(key: &CacheKey, tag: &str) -> bool {
    key.primary_key() == b"\0\x6a".as_slice() && key.user_tag() == tag
}

fn asked_by(event: &Event) -> Asked {
    let pair = b"\0\x6a".as_slice();
    match &event.action {
        Action::Open {
            request: 7,
            key,
            lock,
        } if is_wanted(key, "") => Asked::Open { lock: *lock },
        Action::LookUp { request: 7 } => Asked::Look,
        Action::Poll { request: 7 } => Asked::Poll,
        Action::Begin {
            request: 7,
            head,
            given: None,
        } if head.as_slice() == pair => Asked::Begin,
        Action::Piece {
            request: 7,
            bytes,
            end,
        } if bytes.as_slice() == pair => Asked::Piece { end: *end },
        Action::Finish { request: 7 } => Asked::Finish,
        Action::Read { request: 7 } => Asked::Read,
        Action::Drop { request: 7 } => Asked::Drop,
        Action::Purge { key } if is_wanted(key, "") => Asked::Purge,
        Action::Put {
            key,
            pieces,
            given: None,
        } => Asked::Put {
            pieces: pieces.as_slice().len(),
            is_put: event.moment.seconds() == i64::MAX
                && is_wanted(key, "t")
                && match pieces.as_slice() {
                    [first, second] => {
                        first.as_slice().is_empty() && second.as_slice() == b"\x0a\xff".as_slice()
                    }
                    _ => false,
                },
        },
        _ => Asked::Else,
    }
}

// Whether this is written for a refusal; out of memory nothing is.
fn is_told(alloc: Global, refusal: &Refusal, want: &[u8]) -> Option<bool> {
    let mut out = Vec::new(alloc);
    match add_refusal_line(&mut out, refusal) {
        Ok(()) => Some(out.as_slice() == want),
        Err(AllocError) if out.is_empty() => None,
        Err(AllocError) => Some(false),
    }
}

// Whether a line is read so.
fn is_read(alloc: Global, lines: &mut LineReader, line: &[u8], want: Asked) -> Option<bool> {
    match lines.read(alloc, line).ok()? {
        Line::Accepted(event) => Some(asked_by(&event) == want),
        Line::Refused(refusal) => match want {
            Asked::Refused(text) => is_told(alloc, &refusal, text),
            _ => Some(false),
        },
    }
}

// Whether lines are read so by one reader.
fn are_read(alloc: Global, rows: &[(&[u8], Asked)]) -> bool {
    let mut lines = LineReader::new(alloc);
    let mut all = true;
    for &(line, want) in rows {
        all = all && is_read(alloc, &mut lines, line, want) == Some(true);
    }
    all
}

// Whether a line of more than 2^20 bytes is refused, and then another by the same reader.
fn long_is_refused(alloc: Global) -> bool {
    let mut long = Vec::new(alloc);
    let made = long.resize((1 << 20) + 1, b' ').is_ok();
    let rows: [(&[u8], Asked); 2] = [
        (long.as_slice(), Asked::Refused(b"refused NotJson\n")),
        (
            b"{\"op\":\"\\u006cook\"}",
            Asked::Refused(b"refused Field at\n"),
        ),
    ];
    made && are_read(alloc, rows.as_slice())
}

#[test]
fn a_long_line_leaves_the_reader_as_good(rt: HostRuntime) {
    assert!(rt; long_is_refused(rt.alloc()));
}

const ASKED: &[(&[u8], Asked)] = &[
    (
        b"{\"op\":\"open\",\"at\":0,\"id\":7,\"lock\":false,\"key\":\"006a\"}",
        Asked::Open { lock: false },
    ),
    (
        b"{\"op\":\"open\",\"at\":0,\"id\":7,\"lock\":true,\"key\":\"006a\"}",
        Asked::Open { lock: true },
    ),
    (
        b"{\"op\":\"open\",\"at\":0,\"id\":7,\"key\":\"006a\"}",
        Asked::Open { lock: false },
    ),
    (b"{\"op\":\"look\",\"at\":0,\"id\":7}", Asked::Look),
    (b"{\"op\":\"poll\",\"at\":0,\"id\":7}", Asked::Poll),
    (
        b"{\"op\":\"begin\",\"at\":0,\"id\":7,\"head\":\"006A\"}",
        Asked::Begin,
    ),
    (
        b"{\"op\":\"piece\",\"at\":0,\"id\":7,\"bytes\":\"006A\",\"end\":true}",
        Asked::Piece { end: true },
    ),
    (
        b"{\"op\":\"piece\",\"at\":0,\"id\":7,\"bytes\":\"006A\",\"head\":7}",
        Asked::Piece { end: false },
    ),
    (b"{\"op\":\"finish\",\"at\":0,\"id\":7}", Asked::Finish),
    (
        b"{\"op\":\"read\",\"at\":0,\"id\":7,\"key\":0}",
        Asked::Read,
    ),
    (b"{\"op\":\"drop\",\"at\":0,\"id\":7}", Asked::Drop),
    (
        b"{\"op\":\"purge\",\"at\":0,\"key\":\"006a\"}",
        Asked::Purge,
    ),
    (
        PUT,
        Asked::Put {
            pieces: 2,
            is_put: true,
        },
    ),
];

#[test]
fn every_event_is_asked(rt: HostRuntime) {
    assert!(rt; are_read(rt.alloc(), ASKED));
}

// Lines with bad fields, of which the first is named.
const BAD: &[(&[u8], Asked)] = &[
    (
        b"{\"op\":\"open\",\"at\":0,\"id\":7,\"key\":\"006a\",\"lock\":null}",
        Asked::Refused(b"refused Field lock\n"),
    ),
    (
        b"{\"op\":\"open\",\"at\":0,\"id\":7,\"key\":\"006a\",\"tag\":1,\"lock\":1}",
        Asked::Refused(b"refused Field tag\n"),
    ),
    (
        b"{\"op\":\"begin\",\"at\":0,\"id\":7}",
        Asked::Refused(b"refused Field head\n"),
    ),
    (
        b"{\"op\":\"begin\",\"at\":0,\"id\":-7,\"head\":\"0\"}",
        Asked::Refused(b"refused Field id\n"),
    ),
    (
        b"{\"op\":\"piece\",\"at\":0,\"id\":7,\"bytes\":\"\",\"end\":\"true\"}",
        Asked::Refused(b"refused Field end\n"),
    ),
    (
        b"{\"op\":\"piece\",\"at\":0,\"id\":7,\"bytes\":\"0\",\"end\":0}",
        Asked::Refused(b"refused Field bytes\n"),
    ),
    (
        b"{\"op\":\"poll\",\"at\":0}",
        Asked::Refused(b"refused Field id\n"),
    ),
    (
        b"{\"op\":\"finish\",\"at\":-1,\"id\":7}",
        Asked::Refused(b"refused Field at\n"),
    ),
];

#[test]
fn the_first_bad_field_is_named(rt: HostRuntime) {
    assert!(rt; are_read(rt.alloc(), BAD));
}

const OTHER_PUT: Asked = Asked::Put {
    pieces: 2,
    is_put: false,
};

fn read_or_not(alloc: Global) -> bool {
    let line = b"{\"op\":\"put\",\"at\":1,\"key\":\"006a\",\"pieces\":[\"61\",\"62\"]}";
    let mut lines = LineReader::new(alloc);
    is_read(alloc, &mut lines, line, OTHER_PUT) != Some(false)
        && is_told(alloc, &Refusal::Op, b"refused Op\n") != Some(false)
}

// If one allocation fails, the whole line is given up, or it is read as ever.
#[test]
fn out_of_memory_gives_no_other_line(rt: HostRuntime) {
    assert!(rt; read_or_not(rt.alloc()));
}
