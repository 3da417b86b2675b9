//! What is good for others keeps its place, whatever answers a reload or a fetch in the background.
use crate::made::{REQUEST, ROOM, asked, came, judged, judged_over};
use rules_ffi_arguments::shapes::KeptShape;
use std::alloc::Global;

// What is stored at second 1000: fresh for 60 seconds, and good for 30 more.
const STORED: &[u8] =
    b"HTTP/1.1 200 OK\r\nDate: Thu, 01 Jan 1970 00:16:40 GMT\r\nCache-Control: max-age=60, stale-while-revalidate=30\r\n\r\n";

// A response, the second at which it comes, and what is told: status, reason, `removes`.
type Row = (&'static [u8], u64, (u64, u64, u64));

const KEPT: u64 = 68;

const NOT_KEPT: u64 = 69;

const ROWS: &[Row] = &[
    // while it is fresh
    (b"HTTP/1.1 400 N\r\n\r\n", 1059, (NOT_KEPT, 42, 0)),
    (b"HTTP/1.1 403 N\r\n\r\n", 1059, (NOT_KEPT, 42, 0)),
    (b"HTTP/1.1 429 N\r\n\r\n", 1059, (NOT_KEPT, 42, 0)),
    (b"HTTP/1.1 503 N\r\n\r\n", 1059, (NOT_KEPT, 42, 0)),
    (
        b"HTTP/1.1 400 N\r\nCache-Control: max-age=9\r\n\r\n",
        1059,
        (NOT_KEPT, 42, 0),
    ),
    (
        b"HTTP/1.1 416 N\r\nContent-Range: bytes */9\r\n\r\n",
        1059,
        (NOT_KEPT, 42, 0),
    ),
    (
        b"HTTP/1.1 200 O\r\nCache-Control: private\r\n\r\n",
        1059,
        (NOT_KEPT, 33, 0),
    ),
    (
        b"HTTP/1.1 200 O\r\nCache-Control: private, max-age=9\r\n\r\n",
        1059,
        (NOT_KEPT, 33, 0),
    ),
    (
        b"HTTP/1.1 200 O\r\nCache-Control: no-store\r\n\r\n",
        1059,
        (NOT_KEPT, 27, 0),
    ),
    (
        b"HTTP/1.1 200 O\r\nETag: \"2\"\r\n\r\n",
        1059,
        (NOT_KEPT, 42, 0),
    ),
    (
        b"HTTP/1.1 200 O\r\nCache-Control: max-age=9\r\n\r\n",
        1059,
        (KEPT, 0, 0),
    ),
    (b"HTTP/1.1 404 N\r\n\r\n", 1059, (NOT_KEPT, 38, 1)),
    (
        b"HTTP/1.1 404 N\r\nCache-Control: max-age=9\r\n\r\n",
        1059,
        (KEPT, 0, 0),
    ),
    // while it answers and is fetched anew
    (b"HTTP/1.1 429 N\r\n\r\n", 1090, (NOT_KEPT, 42, 0)),
    (
        b"HTTP/1.1 503 N\r\nCache-Control: max-age=9\r\n\r\n",
        1090,
        (NOT_KEPT, 42, 0),
    ),
    (
        b"HTTP/1.1 200 O\r\nCache-Control: private\r\n\r\n",
        1090,
        (NOT_KEPT, 33, 0),
    ),
    (b"HTTP/1.1 200 O\r\nETag: \"2\"\r\n\r\n", 1090, (KEPT, 0, 0)),
    (b"HTTP/1.1 410 N\r\n\r\n", 1090, (NOT_KEPT, 38, 1)),
    // past that
    (b"HTTP/1.1 503 N\r\n\r\n", 1091, (NOT_KEPT, 37, 0)),
    (
        b"HTTP/1.1 503 N\r\nCache-Control: max-age=9\r\n\r\n",
        1091,
        (KEPT, 0, 0),
    ),
    (
        b"HTTP/1.1 200 O\r\nCache-Control: private\r\n\r\n",
        1091,
        (NOT_KEPT, 33, 1),
    ),
    (b"HTTP/1.1 206 P\r\n\r\n", 1091, (NOT_KEPT, 29, 1)),
    (b"HTTP/1.1 304 N\r\n\r\n", 1091, (NOT_KEPT, 30, 0)),
];

// Whether a row is told so over what is stored.
fn is_told(alloc: Global, row: &Row, stored: &KeptShape) -> bool {
    let (mut text, mut lines, mut room) = (ROOM, ROOM, ROOM);
    let request = asked(alloc, REQUEST, &mut text);
    let response = came(alloc, row.0, &mut lines);
    let found = &stored.shown;
    let told = judged_over(
        alloc, b"", &request, &text, &response, &lines, row.1, found, &mut room,
    );
    (told.status, told.reason, told.removes) == row.2
}

#[test]
fn what_is_good_keeps_its_place(rt: HostRuntime) {
    let (mut text, mut lines, mut room) = (ROOM, ROOM, ROOM);
    let request = asked(rt.alloc(), REQUEST, &mut text);
    let response = came(rt.alloc(), STORED, &mut lines);
    let stored = judged(rt.alloc(), &request, &text, &response, &lines, &mut room);
    let mut wrong = 0;
    for row in ROWS {
        if !is_told(rt.alloc(), row, &stored) {
            wrong += 1;
        }
    }
    assert!(rt; stored.status == KEPT);
    assert!(rt; wrong == 0);
}
