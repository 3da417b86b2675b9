//! What is done with a response: stored, confirmed, shown, handed on, purged.
use crate::made::{REQUEST, RESPONSE, ROOM, asked, came, how, judged, kept, numbers, out};
use rules_ffi::purging::invalidates;
use rules_ffi::renewing::freshen;
use rules_ffi_arguments::shapes::{
    How, KeptShape, Out, PartShape, RequestShape, ResponseShape, Span,
};
use rules_ffi_results::marks::{BAD_CALL, LIST};
use rules_serving::answering::answer;
use rules_serving::choosing::{choose, spare};
use rules_serving::serving::serve;
use rules_serving::telling::told;
use std::alloc::Global;

const PART: PartShape = PartShape {
    before: Span { from: 0, to: 0 },
    from: 0,
    to: 0,
};

// The lines of what is kept of the response.
const BLOCK: &[u8] =
    b"cache-control: max-age=60\r\netag: \"1\"\r\ndate: Thu, 01 Jan 1970 00:16:40 GMT\r\ncontent-length: 3\r\n";

// How what is kept may answer the request at a second.
fn choice_at(
    alloc: Global,
    stored: &KeptShape,
    request: &RequestShape,
    text: &[u8],
    at: u64,
) -> u64 {
    let mut chosen = out();
    choose(
        alloc,
        &numbers(),
        b"",
        request,
        text,
        &stored.shown,
        BLOCK,
        at,
        0,
        &mut chosen,
    );
    chosen.choice
}

#[test]
fn responses_are_stored_and_used(rt: HostRuntime) {
    let (mut text, mut lines, mut room) = (ROOM, ROOM, ROOM);
    let request = asked(rt.alloc(), REQUEST, &mut text);
    let response = came(rt.alloc(), RESPONSE, &mut lines);
    let stored = judged(rt.alloc(), &request, &text, &response, &lines, &mut room);
    assert!(rt; stored.status == 68);
    assert!(rt; stored.meta.fresh_until.seconds == 1059);
    assert!(rt; room.starts_with(b"HTTP/1.1 200 OK\r\nDate: Thu"));
    assert!(rt; choice_at(rt.alloc(), &stored, &request, &text, 1059) == 1);
    assert!(rt; choice_at(rt.alloc(), &stored, &request, &text, 1060) == 4);
}

#[test]
fn nothing_stale_is_spared(rt: HostRuntime) {
    let (mut text, mut lines, mut room) = (ROOM, ROOM, ROOM);
    let request = asked(rt.alloc(), REQUEST, &mut text);
    let response = came(rt.alloc(), RESPONSE, &mut lines);
    let stored = judged(rt.alloc(), &request, &text, &response, &lines, &mut room);
    let mut told = out();
    spare(
        rt.alloc(),
        &numbers(),
        b"",
        &request,
        &text,
        &stored.shown,
        BLOCK,
        1060,
        0,
        0,
        &mut told,
    );
    assert!(rt; told.choice == 0);
    assert!(rt; told.code == 502);
}

#[test]
fn what_is_stored_answers(rt: HostRuntime) {
    let (mut text, mut lines, mut room) = (ROOM, ROOM, ROOM);
    let request = asked(rt.alloc(), REQUEST, &mut text);
    let response = came(rt.alloc(), RESPONSE, &mut lines);
    let stored = judged(rt.alloc(), &request, &text, &response, &lines, &mut room);
    let mut chosen = out();
    let mut parts = [PART; 16];
    answer(
        rt.alloc(),
        &numbers(),
        b"",
        &request,
        &text,
        &stored.shown,
        BLOCK,
        3,
        1010,
        0,
        &how(),
        &mut room,
        &mut parts,
        &mut chosen,
    );
    assert!(rt; chosen.code == 200);
    assert!(rt; chosen.parts == 1);
    assert!(rt; parts[0].to == 3);
}

// What serves the request at a second: its choice, status and parts.
fn served_at(
    alloc: Global,
    stored: &KeptShape,
    request: &RequestShape,
    text: &[u8],
    at: u64,
) -> (u64, u64, u64) {
    let mut room = ROOM;
    let mut parts = [PART; 16];
    let mut told = out();
    serve(
        alloc,
        &numbers(),
        b"",
        request,
        text,
        &stored.shown,
        BLOCK,
        3,
        at,
        0,
        &how(),
        &mut room,
        &mut parts,
        &mut told,
    );
    (told.choice, told.code, told.parts)
}

#[test]
fn what_is_fresh_is_served(rt: HostRuntime) {
    let (mut text, mut lines, mut room) = (ROOM, ROOM, ROOM);
    let request = asked(rt.alloc(), REQUEST, &mut text);
    let response = came(rt.alloc(), RESPONSE, &mut lines);
    let stored = judged(rt.alloc(), &request, &text, &response, &lines, &mut room);
    let fresh = served_at(rt.alloc(), &stored, &request, &text, 1059);
    assert!(rt; fresh.0 == 1);
    assert!(rt; fresh.1 == 200);
    assert!(rt; fresh.2 == 1);
    let stale = served_at(rt.alloc(), &stored, &request, &text, 1060);
    assert!(rt; stale.0 == 4);
    assert!(rt; stale.1 == 0);
}

#[test]
fn lists_answer_nobody(rt: HostRuntime) {
    let (mut text, mut lines, mut room) = (ROOM, ROOM, ROOM);
    let request = asked(rt.alloc(), REQUEST, &mut text);
    let response = came(rt.alloc(), RESPONSE, &mut lines);
    let mut stored = judged(rt.alloc(), &request, &text, &response, &lines, &mut room);
    stored.shown.status = LIST;
    let mut told = out();
    let mut parts = [PART; 16];
    answer(
        rt.alloc(),
        &numbers(),
        b"",
        &request,
        &text,
        &stored.shown,
        BLOCK,
        3,
        1010,
        0,
        &how(),
        &mut room,
        &mut parts,
        &mut told,
    );
    assert!(rt; told.status == BAD_CALL);
    let served = served_at(rt.alloc(), &stored, &request, &text, 1059);
    assert!(rt; served == (0, 0, 0));
}

#[test]
fn confirmations_renew(rt: HostRuntime) {
    let (mut text, mut lines, mut room) = (ROOM, ROOM, ROOM);
    let request = asked(rt.alloc(), REQUEST, &mut text);
    let first = came(rt.alloc(), RESPONSE, &mut lines);
    let stored = judged(rt.alloc(), &request, &text, &first, &lines, &mut room);
    let response = came(
        rt.alloc(),
        b"HTTP/1.1 304 N\r\nDate: Thu, 01 Jan 1970 00:16:40 GMT\r\nETag: \"1\"\r\nCache-Control: max-age=90\r\n\r\n",
        &mut lines,
    );
    let mut renewed = kept();
    let at = (1000, 0);
    freshen(
        rt.alloc(),
        &numbers(),
        b"",
        &request,
        &text,
        &stored.shown,
        BLOCK,
        u64::MAX,
        &response,
        &lines,
        at,
        at,
        &mut room,
        &mut renewed,
    );
    assert!(rt; renewed.status == 68);
    assert!(rt; renewed.meta.fresh_until.seconds == 1089);
}

// What is told of a response to a request.
fn told_at_1000(
    alloc: Global,
    request: &RequestShape,
    text: &[u8],
    response: &ResponseShape,
    lines: &[u8],
    how: &How,
    room: &mut [u8],
    parts: &mut [PartShape],
) -> Out {
    let mut sent = out();
    let at = (1000, 0);
    told(
        alloc,
        &numbers(),
        b"",
        request,
        text,
        response,
        lines,
        at,
        at,
        how,
        room,
        parts,
        &mut sent,
    );
    sent
}

#[test]
fn what_is_not_stored_is_handed_on(rt: HostRuntime) {
    let (mut text, mut lines, mut room) = (ROOM, ROOM, ROOM);
    let request = asked(
        rt.alloc(),
        b"DELETE /a HTTP/1.1\r\nHost: a.example\r\n\r\n",
        &mut text,
    );
    assert!(rt; request.plan == 2);
    let response = came(
        rt.alloc(),
        b"HTTP/1.1 204 N\r\nDate: Thu, 01 Jan 1970 00:16:40 GMT\r\nLocation: /b\r\n\r\n",
        &mut lines,
    );
    let mut parts = [PART; 1];
    let sent = told_at_1000(
        rt.alloc(),
        &request,
        &text,
        &response,
        &lines,
        &how(),
        &mut room,
        &mut parts,
    );
    assert!(rt; sent.code == 204);
    assert!(rt; sent.parts == 0);
    assert!(rt;
        room.starts_with(
            b"HTTP/1.1 204 No Content\r\nDate: Thu, 01 Jan 1970 00:16:40 GMT\r\nLocation: /b\r\n"
        )
    );
    let unread = RequestShape {
        status: 66,
        ..request
    };
    let sent = told_at_1000(
        rt.alloc(),
        &unread,
        &text,
        &response,
        &lines,
        &how(),
        &mut room,
        &mut parts,
    );
    assert!(rt; sent.status == 20);
}

#[test]
fn what_was_fetched_as_a_whole_is_cut(rt: HostRuntime) {
    let (mut text, mut lines, mut room) = (ROOM, ROOM, ROOM);
    let request = asked(
        rt.alloc(),
        b"GET /a HTTP/1.1\r\nHost: a.example\r\nRange: bytes=1-2\r\n\r\n",
        &mut text,
    );
    let response = came(
        rt.alloc(),
        b"HTTP/1.1 200 OK\r\nCache-Control: no-store\r\nContent-Length: 9\r\nConnection: close\r\n\r\n",
        &mut lines,
    );
    assert!(rt; response.marks == 1);
    let filled = How {
        hit: 0,
        forward: 1,
        fetch: 2,
        closes: 1,
        ..how()
    };
    let mut parts = [PART; 1];
    let sent = told_at_1000(
        rt.alloc(),
        &request,
        &text,
        &response,
        &lines,
        &filled,
        &mut room,
        &mut parts,
    );
    assert!(rt; sent.code == 206);
    assert!(rt; sent.length == 2);
    assert!(rt; sent.marks == 1);
    assert!(rt; parts[0].from == 1);
    assert!(rt; parts[0].to == 3);
    let passed = How { fetch: 1, ..filled };
    let sent = told_at_1000(
        rt.alloc(),
        &request,
        &text,
        &response,
        &lines,
        &passed,
        &mut room,
        &mut parts,
    );
    assert!(rt; sent.code == 200);
    assert!(rt; sent.length == 9);
    assert!(rt; parts[0].to == 9);
}

#[test]
fn unsafe_requests_purge(rt: HostRuntime) {
    let (mut text, mut lines, mut room) = (ROOM, ROOM, ROOM);
    let request = asked(
        rt.alloc(),
        b"DELETE /a HTTP/1.1\r\nHost: a.example\r\n\r\n",
        &mut text,
    );
    let response = came(
        rt.alloc(),
        b"HTTP/1.1 204 N\r\nLocation: /b\r\n\r\n",
        &mut lines,
    );
    let mut sent = out();
    invalidates(
        rt.alloc(),
        &numbers(),
        b"",
        &request,
        &text,
        &response,
        &lines,
        &mut room,
        &mut sent,
    );
    assert!(rt; sent.count == 2);
    assert!(rt; room.starts_with(b"http://a.example/a\nhttp://a.example/b\n"));
}
