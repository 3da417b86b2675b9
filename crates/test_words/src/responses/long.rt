//! Heads of many lines, and long ones.
use crate::responses::pieces::{Want, are_read_so};
use std::alloc::{AllocError, Global};

// A start, a text, how many times it comes, what comes after it, and what that gives.
type Row = (&'static str, &'static str, usize, &'static str, Want);

const OK: &str = "HTTP/1.1 200 OK\r\n";

// A head has at most 256 lines.
const LINES: &[Row] = &[
    (OK, "a: b\r\n", 64, "\r\n", Want::Whole(200, 64, "")),
    (OK, "a: b\r\n", 65, "\r\n", Want::Whole(200, 65, "")),
    (OK, "a: b\r\n", 256, "", Want::Begun),
    (OK, "a: b\r\n", 256, "\r\n", Want::Whole(200, 256, "")),
    (OK, "a: b\r\n", 256, "\r\nc", Want::Whole(200, 256, "c")),
    (OK, "a: b\r\n", 257, "", Want::Begun),
    (OK, "a: b\r\n", 257, "c", Want::BadHead),
    (OK, "a: b\r\n", 257, "\r\n", Want::BadHead),
    (OK, "a: b\r\n", 300, "\r\n", Want::BadHead),
    // One line that is long, or has many blank lines before it: with a parse for each byte these would take minutes.
    (
        "HTTP/1.1 200 OK\r\na: ",
        "b",
        65536,
        "\r\n\r\n",
        Want::Whole(200, 1, ""),
    ),
    (
        "",
        "\n",
        65536,
        "HTTP/1.1 200 OK\r\na: b\r\n\r\n",
        Want::Whole(200, 1, ""),
    ),
];

fn put(bytes: &mut Vec<u8>, row: &Row) -> Result<(), AllocError> {
    bytes.extend_from_slice(row.0.as_bytes())?;
    for _ in 0..row.2 {
        bytes.extend_from_slice(row.1.as_bytes())?;
    }
    bytes.extend_from_slice(row.3.as_bytes())
}

fn is_read_so(alloc: Global, row: &Row) -> bool {
    let mut bytes = Vec::new(alloc);
    put(&mut bytes, row).is_ok() && are_read_so(alloc, bytes.as_slice(), row.4)
}

#[test]
fn heads_of_many_lines_and_long_ones(rt: HostRuntime) {
    for row in LINES {
        assert!(rt; is_read_so(rt.alloc(), row));
    }
}
