//! Heads of responses, plain ones and others, and what is told of them.
use crate::made::{ROOM, came};
use rules_ffi_results::marks::{CLOSES, DATED, NONE, READ, REFUSED};
use std::alloc::Global;

// What came; its status, framing, length and marks; and its lines as they go on.
type Row = (&'static [u8], (u64, u64, u64, u64), &'static [u8]);

const NOT_READ: (u64, u64, u64, u64) = (0, 0, 0, 0);

const ROWS: &[Row] = &[
    (
        b"HTTP/1.1 200 OK\r\nServer: x\r\nConnection: keep-alive\r\nDate: d\r\nContent-Length: 3\r\n\r\n",
        (200, 1, 3, DATED),
        b"Server: x\r\nDate: d\r\nVia: 1.1 cache-tier\r\n",
    ),
    (
        b"HTTP/1.1 404 \r\nconnection: close\r\nupgrade: h2c\r\nTE: x\r\nTransfer-Encoding: chunked\r\nA: b\r\n\r\n",
        (404, 2, NONE, CLOSES),
        b"A: b\r\nVia: 1.1 cache-tier\r\nDate: Thu, 01 Jan 1970 00:16:40 GMT\r\n",
    ),
    (
        b"HTTP/1.0 200 OK\r\nDate: d\r\n\r\n",
        (200, 3, NONE, CLOSES + DATED),
        b"Date: d\r\nVia: 1.0 cache-tier\r\n",
    ),
    (
        b"HTTP/1.1 304\r\nContent-Length: 7\r\nDate: d\r\n\r\n",
        (304, 0, NONE, DATED),
        b"Date: d\r\nVia: 1.1 cache-tier\r\n",
    ),
    // (From here on the quick reader hands over.)
    (
        b"HTTP/1.1 200 OK\r\nDate: a\r\nContent-Length: 0\r\nDate: b\r\n\r\n",
        (200, 1, 0, DATED),
        b"Date: a\r\nVia: 1.1 cache-tier\r\n",
    ),
    (
        b"HTTP/1.1 200 OK\r\nVia: 1.1 up\r\nDate: d\r\nContent-Length: 0, 0\r\nContent-Length: 0\r\n\r\n",
        NOT_READ,
        b"",
    ),
    (
        b"HTTP/1.1 200 OK\nVia: 1.1 up\r\nDate:d\r\nContent-Length: 5\r\nContent-Length: 5\r\n\r\n",
        (200, 1, 5, DATED),
        b"Date: d\r\nVia: 1.1 up, 1.1 cache-tier\r\n",
    ),
    (
        b"HTTP/1.1 200 OK\r\nTransfer-Encoding: Chunked\r\nConnection: a\r\nA: b\r\nDate: d\r\n\r\n",
        (200, 2, NONE, DATED),
        b"Date: d\r\nVia: 1.1 cache-tier\r\n",
    ),
    (b"HTTP/1.1 200 OK\r\r\n\r\n", NOT_READ, b""),
    (b"HTTP/1.1 200 OK\r\nA: b\r\n c\r\n\r\n", NOT_READ, b""),
    (
        b"HTTP/1.1 200 OK\r\nTransfer-Encoding: gzip\r\n\r\n",
        NOT_READ,
        b"",
    ),
    (
        b"HTTP/1.0 200 OK\r\nTransfer-Encoding: chunked\r\n\r\n",
        NOT_READ,
        b"",
    ),
];

fn is_told(alloc: Global, row: &Row) -> bool {
    let mut room = ROOM;
    let shape = came(alloc, row.0, &mut room);
    let told = (shape.code, shape.framing, shape.length, shape.marks);
    let status = if row.1.0 == 0 { REFUSED } else { READ };
    shape.status == status
        && told == row.1
        && shape.lines.to == row.2.len() as u64
        && room.starts_with(row.2)
}

#[test]
fn heads_are_told_as_their_lines_say(rt: HostRuntime) {
    for row in ROWS {
        assert!(rt; is_told(rt.alloc(), row));
    }
}
