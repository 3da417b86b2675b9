//! Heads that are kept as text: what the text is, how many bytes the head takes as MessagePack, and that it is read as it was, of a
//! share as well.
use cache_heads::meta::ResponseHeader;
use head_packed::SharedHead;
use http::StatusCode;
use http_header::{HeaderMap, HeaderName, HeaderValue};
use std::alloc::Global;

// A head of status 200 with these lines, all of whose values are marked as sensitive or none.
struct Row {
    lines: &'static [(&'static [u8], &'static [u8])],
    sensitive: bool,
    text: &'static [u8],
    len: usize,
}

// The lengths were counted by hand: an array of two is a byte, the status two, an array of lines a byte, and a line four and its name
// and its value.
const ROWS: &[Row] = &[
    Row {
        lines: &[],
        sensitive: false,
        text: b"",
        len: 4,
    },
    Row {
        lines: &[(b"a", b"1"), (b"b", b"2"), (b"A", b"3")],
        sensitive: false,
        text: b"a: 1\r\na: 3\r\nb: 2\r\n",
        len: 22,
    },
    Row {
        lines: &[(b"x-none", b"")],
        sensitive: false,
        text: b"x-none: \r\n",
        len: 14,
    },
    Row {
        lines: &[(b"etag", b"\"a: b\""), (b"vary", b" ")],
        sensitive: false,
        text: b"etag: \"a: b\"\r\nvary:  \r\n",
        len: 27,
    },
    Row {
        lines: &[(b"set-cookie", b"a=1")],
        sensitive: true,
        text: b"set-cookie: a=1\r\n",
        len: 21,
    },
];

fn append(
    alloc: Global,
    headers: &mut HeaderMap,
    line: (&[u8], &[u8]),
    sensitive: bool,
) -> Option<()> {
    let name = HeaderName::from_bytes(alloc, line.0).ok()?;
    let mut value = HeaderValue::from_bytes(alloc, line.1).ok()?;
    value.set_sensitive(sensitive);
    headers.append(name, value).ok()?;
    Some(())
}

fn made(alloc: Global, row: &Row) -> Option<ResponseHeader> {
    let mut headers = HeaderMap::new(alloc);
    for &line in row.lines {
        append(alloc, &mut headers, line, row.sensitive)?;
    }
    Some(ResponseHeader {
        status: StatusCode::OK,
        headers,
    })
}

fn are_marked(headers: &HeaderMap, sensitive: bool) -> bool {
    for (_, value) in headers.iter() {
        if value.is_sensitive() != sensitive {
            return false;
        }
    }
    true
}

// A share may go to another thread.
fn may_be_sent<T: Send + Sync>(_share: &T) -> bool {
    true
}

fn is_read(alloc: Global, head: &SharedHead, header: &ResponseHeader, row: &Row) -> bool {
    match head.unpack(alloc) {
        Ok(read) => {
            read.status == header.status
                && read.headers == header.headers
                && are_marked(&read.headers, row.sensitive)
        }
        Err(_) => false,
    }
}

fn is_kept(alloc: Global, head: &SharedHead, header: &ResponseHeader, row: &Row) -> bool {
    head.status() == header.status
        && head.text() == row.text
        && head.len() == row.len
        && is_read(alloc, head, header, row)
}

// A share is as what it was made from, also when that is gone.
fn share_holds(alloc: Global, head: SharedHead, header: &ResponseHeader, row: &Row) -> bool {
    let share: Result<_, _> = head.clone();
    let holds = is_kept(alloc, &head, header, row);
    drop(head);
    match share {
        Ok(share) => holds && may_be_sent(&share) && is_kept(alloc, &share, header, row),
        Err(_) => false,
    }
}

fn row_holds(alloc: Global, row: &Row) -> bool {
    let Some(header) = made(alloc, row) else {
        return false;
    };
    match SharedHead::pack(alloc, &header) {
        Ok(head) => share_holds(alloc, head, &header, row),
        Err(_) => false,
    }
}

#[test]
fn heads_are_kept_as_text(rt: HostRuntime) {
    for row in ROWS {
        assert!(rt; row_holds(rt.alloc(), row));
    }
}
