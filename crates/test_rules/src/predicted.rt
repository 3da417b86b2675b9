//! What isn't kept says whether the next response of its key will be.
use crate::made::{REQUEST, ROOM, asked, came, judged};
use std::alloc::Global;

const WITH_A_COOKIE: &[u8] = b"GET /a HTTP/1.1\r\nHost: a.example\r\nCookie: id=1\r\n\r\n";

const WITH_A_LOGIN: &[u8] =
    b"GET /a HTTP/1.1\r\nHost: a.example\r\nAuthorization: Basic eA==\r\n\r\n";

const PRIVATE: &[u8] = b"HTTP/1.1 200 O\r\nCache-Control: private\r\n\r\n";

// A request, a response, and what is told: status, reason, `predicts_uncacheable`.
const ROWS: &[(&[u8], &[u8], (u64, u64, u64))] = &[
    (REQUEST, PRIVATE, (69, 33, 1)),
    (WITH_A_COOKIE, PRIVATE, (69, 33, 0)),
    (WITH_A_LOGIN, PRIVATE, (69, 33, 0)),
    (
        REQUEST,
        b"HTTP/1.1 200 O\r\nCache-Control: no-store\r\n\r\n",
        (69, 27, 1),
    ),
    (
        REQUEST,
        b"HTTP/1.1 200 O\r\nCache-Control: max-age=9\r\nVary: *\r\n\r\n",
        (69, 34, 1),
    ),
    (REQUEST, b"HTTP/1.1 503 N\r\n\r\n", (69, 37, 0)),
    (
        REQUEST,
        b"HTTP/1.1 200 O\r\nCache-Control: max-age=9\r\n\r\n",
        (68, 0, 0),
    ),
];

// Whether a row is told so.
fn is_told(alloc: Global, row: &(&[u8], &[u8], (u64, u64, u64))) -> bool {
    let (mut text, mut lines, mut room) = (ROOM, ROOM, ROOM);
    let request = asked(alloc, row.0, &mut text);
    let response = came(alloc, row.1, &mut lines);
    let told = judged(alloc, &request, &text, &response, &lines, &mut room);
    (told.status, told.reason, told.predicts_uncacheable) == row.2
}

#[test]
fn what_lasts_predicts_the_next_one(rt: HostRuntime) {
    let mut wrong = 0;
    for row in ROWS {
        if !is_told(rt.alloc(), row) {
            wrong += 1;
        }
    }
    assert!(rt; wrong == 0);
}
