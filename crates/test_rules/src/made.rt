//! What the calls are given.
use rules_ffi::judging::judge;
use rules_ffi::reading::{read_request, unread as no_request};
use rules_ffi::responses::{read_response, unread as no_response};
use rules_ffi_arguments::shapes::{
    HeadShape, How, KeptShape, OptionNumbers, Out, RequestShape, ResponseShape,
};
use rules_ffi_results::keeping::{no_head, unkept};
use rules_ffi_results::marks::blank;
use std::alloc::Global;

/// A room for the texts of a call.
pub const ROOM: [u8; 512] = [0; 512];

pub const REQUEST: &[u8] = b"GET /a HTTP/1.1\r\nHost: a.example\r\nAccept-Language: DE\r\n\r\n";

pub const RESPONSE: &[u8] =
    b"HTTP/1.1 200 OK\r\nDate: Thu, 01 Jan 1970 00:16:40 GMT\r\nCache-Control: max-age=60\r\nETag: \"1\"\r\nContent-Length: 3\r\n\r\n";

/// The usual numbers of the options.
pub fn numbers() -> OptionNumbers {
    OptionNumbers {
        flags: 2233,
        most_head: 65536,
        most_target: 16384,
        most_lines: 250,
        most_ranges: 8,
        most_heuristic: 86400,
        stale_while_revalidate: 0,
        stale_if_error: 0,
        stale_if_down: 0,
        most_line: 8192,
        reserved: [0, 0],
    }
}

/// A hit.
pub fn how() -> How {
    How {
        hit: 1,
        forward: 0,
        forward_status: 0,
        stored: 0,
        collapsed: 0,
        detail: 0,
        fetch: 0,
        closes: 0,
    }
}

/// No answer yet.
pub fn out() -> Out {
    blank(0, 0)
}

/// Nothing that is kept yet.
pub fn kept() -> KeptShape {
    unkept(0, 0)
}

/// A request that is read.
pub fn asked(alloc: Global, bytes: &[u8], room: &mut [u8]) -> RequestShape {
    asked_by(alloc, b"", bytes, room)
}

/// A request that is read by options with these words.
pub fn asked_by(alloc: Global, words: &[u8], bytes: &[u8], room: &mut [u8]) -> RequestShape {
    let mut shape = no_request(0, 0, 0, 0);
    read_request(alloc, &numbers(), words, bytes, room, &mut shape);
    shape
}

/// A response to a GET that is read at second 1000.
pub fn came(alloc: Global, bytes: &[u8], room: &mut [u8]) -> ResponseShape {
    let mut shape = no_response(0, 0, 0);
    read_response(alloc, &numbers(), b"", 0, 1000, 0, bytes, room, &mut shape);
    shape
}

/// What is kept of a response to a request at second 1000.
pub fn judged(
    alloc: Global,
    request: &RequestShape,
    text: &[u8],
    response: &ResponseShape,
    came: &[u8],
    room: &mut [u8],
) -> KeptShape {
    let nothing = no_head();
    judged_over(
        alloc, b"", request, text, response, came, 1000, &nothing, room,
    )
}

/// What is kept of a response at a second, over what was found, by options with these words.
pub fn judged_over(
    alloc: Global,
    words: &[u8],
    request: &RequestShape,
    text: &[u8],
    response: &ResponseShape,
    came: &[u8],
    second: u64,
    found: &HeadShape,
    room: &mut [u8],
) -> KeptShape {
    judged_by(
        alloc, words, request, text, response, came, second, b"", found, b"", room,
    )
}

/// The same, by a list, over what was found with these lines.
pub fn judged_by(
    alloc: Global,
    words: &[u8],
    request: &RequestShape,
    text: &[u8],
    response: &ResponseShape,
    came: &[u8],
    second: u64,
    list: &[u8],
    found: &HeadShape,
    block: &[u8],
    room: &mut [u8],
) -> KeptShape {
    let mut shape = kept();
    let at = (second, 0);
    judge(
        alloc,
        &numbers(),
        words,
        request,
        text,
        0,
        response,
        came,
        at,
        at,
        list,
        found,
        block,
        room,
        &mut shape,
    );
    shape
}
