//! Heads that come alone.
use head_parse::{ReadHeadFault, read_head};
use std::alloc::Global;

// Bytes, and the status and number of fields where they are exactly one head.
const HEADS: &[(&str, Option<(u16, usize)>)] = &[
    ("HTTP/1.1 200 OK\r\nServer: nijpdra\r\n\r\n", Some((200, 1))),
    ("HTTP/1.1 200 OK\r\n\r\n", Some((200, 0))),
    ("\r\n\nHTTP/1.0 304 Not Modified\n\n", Some((304, 0))),
    (
        "HTTP/1.1 404 Not Found\r\nA : b\r\nC: d\r\n e\r\n\r\n",
        Some((404, 2)),
    ),
    ("\r\n\nHTTP/1.1 206 Partial\nA : b\n\n", Some((206, 1))),
    ("HTTP/1.1 200 OK\r\n\r\na", None),
    ("HTTP/1.1 200 OK\r\nA : b\r\n\r\n\r\n", None),
    ("HTTP/1.1 200 OK\r\n", None),
    ("HTTP/1.1 200 OK\r\nA : b\r\n", None),
    ("HTTP/1.1 099 OK\r\n\r\n", None),
    ("HTP/1.1 200 OK\r\n\r\n", None),
    ("", None),
];

fn is_read_so(alloc: Global, text: &str, want: Option<(u16, usize)>) -> bool {
    match read_head(alloc, text.as_bytes()) {
        Ok(head) => want == Some((head.status.as_u16(), head.headers.len())),
        Err(fault) => want.is_none() && fault == ReadHeadFault::BadHead,
    }
}

#[test]
fn heads_alone(rt: HostRuntime) {
    for &(text, want) in HEADS {
        assert!(rt; is_read_so(rt.alloc(), text, want));
    }
}
