//! What an odd request causes is stored for nobody, and what is dropped counts for nothing.
use crate::made::{REQUEST, ROOM, asked, asked_by, came, judged_over, numbers};
use rules_ffi::reading::{read_request, unread};
use rules_ffi_arguments::shapes::OptionNumbers;
use rules_ffi_results::keeping::no_head;
use std::alloc::Global;

// The words of the options, a response, and what is told: status and reason.
type Row = (&'static [u8], &'static [u8], (u64, u64));

const KEPT: u64 = 68;

const NOT_KEPT: u64 = 69;

const ROWS: &[Row] = &[
    (
        b"",
        b"HTTP/1.1 400 N\r\nCache-Control: max-age=60\r\n\r\n",
        (NOT_KEPT, 43),
    ),
    (
        b"",
        b"HTTP/1.1 406 N\r\nCache-Control: max-age=60\r\n\r\n",
        (NOT_KEPT, 43),
    ),
    (
        b"",
        b"HTTP/1.1 416 N\r\nCache-Control: max-age=60\r\n\r\n",
        (NOT_KEPT, 43),
    ),
    (
        b"",
        b"HTTP/1.1 429 N\r\nCache-Control: max-age=60\r\n\r\n",
        (NOT_KEPT, 43),
    ),
    (
        b"",
        b"HTTP/1.1 400 N\r\nCDN-Cache-Control: max-age=60\r\n\r\n",
        (KEPT, 0),
    ),
    (
        b"",
        b"HTTP/1.1 404 N\r\nCache-Control: max-age=60\r\n\r\n",
        (KEPT, 0),
    ),
    (
        b"never-store:\r\n",
        b"HTTP/1.1 400 N\r\nCache-Control: max-age=60\r\n\r\n",
        (KEPT, 0),
    ),
    (
        b"never-store: 503\r\n",
        b"HTTP/1.1 503 N\r\nCache-Control: max-age=60\r\n\r\n",
        (NOT_KEPT, 43),
    ),
    (b"lifetime: 400 5\r\n", b"HTTP/1.1 400 N\r\n\r\n", (KEPT, 0)),
    (
        b"",
        b"HTTP/1.1 200 O\r\nCache-Control: max-age=60\r\nVary: Via\r\n\r\n",
        (NOT_KEPT, 34),
    ),
    (
        b"",
        b"HTTP/1.1 200 O\r\nCache-Control: max-age=60\r\nVary: TE\r\n\r\n",
        (NOT_KEPT, 34),
    ),
    (
        b"",
        b"HTTP/1.1 200 O\r\nCache-Control: max-age=60\r\nVary: Host\r\n\r\n",
        (KEPT, 0),
    ),
];

fn is_told(alloc: Global, row: &Row) -> bool {
    let (mut text, mut lines, mut room) = (ROOM, ROOM, ROOM);
    let request = asked(alloc, REQUEST, &mut text);
    let response = came(alloc, row.1, &mut lines);
    let nothing = no_head();
    let told = judged_over(
        alloc, row.0, &request, &text, &response, &lines, 1000, &nothing, &mut room,
    );
    (told.status, told.reason) == row.2 && told.varies == 0 && told.removes == 0
}

#[test]
fn odd_errors_are_never_stored(rt: HostRuntime) {
    let mut wrong = 0;
    for row in ROWS {
        if !is_told(rt.alloc(), row) {
            wrong += 1;
        }
    }
    assert!(rt; wrong == 0);
}

// A request of a line of 14 bytes, and one of 15, by options that let 14 be: status, refusal and reason.
fn read_by_14(alloc: Global, bytes: &[u8]) -> (u64, u64, u64) {
    let mut room = ROOM;
    let mut request = unread(0, 0, 0, 0);
    let short = OptionNumbers {
        most_line: 14,
        ..numbers()
    };
    read_request(alloc, &short, b"", bytes, &mut room, &mut request);
    (request.status, request.refusal, request.reason)
}

#[test]
fn a_long_line_is_refused(rt: HostRuntime) {
    let fits = read_by_14(rt.alloc(), b"GET /a HTTP/1.1\r\nHost:   a.example \r\n\r\n");
    assert!(rt; fits == (65, 0, 0));
    let long = read_by_14(rt.alloc(), b"GET /a HTTP/1.1\r\nHost: aa.example\r\n\r\n");
    assert!(rt; long == (66, 431, 44));
}

#[test]
fn what_is_dropped_counts_for_nothing(rt: HostRuntime) {
    let mut text = ROOM;
    let words = b"drop: cookie\r\ndrop: content-length\r\ndrop: expect\r\n";
    let request = asked_by(
        rt.alloc(),
        words,
        b"POST /a HTTP/1.1\r\nHost: a.example\r\nCookie: a=1\r\nContent-Length: 3\r\nExpect: 100-continue\r\n\r\n",
        &mut text,
    );
    assert!(rt; request.status == 65);
    assert!(rt; request.length == 3);
    assert!(rt; request.marks == 4);
    assert!(rt; request.lines.to - request.lines.from == 17);
}
