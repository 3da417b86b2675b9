//! What operators want, as words.
use crate::made::{REQUEST, ROOM, asked, asked_by, came, judged_over, numbers, out};
use rules_ffi::judging::judge;
use rules_ffi_arguments::shapes::{KeptShape, OptionNumbers, RequestShape, Span};
use rules_ffi_results::keeping::{no_head, unkept};
use rules_serving::choosing::check;
use std::alloc::Global;

const RIGHT: &[&[u8]] = &[
    b"query-drop: utm_*\r\nquery-drop: gclid\r\nquery-drop: *\r\nquery-drop: a%3D\r\n",
    b"query-drop:\r\n",
    b"query-sort: yes\r\n",
    b"query-sort: no\r\n",
    b"encodings: br, gzip\r\n",
    b"encodings: zstd,br,gzip,deflate\r\n",
    b"cookie-keep: sid\r\ncookie-keep: SID\r\n",
    b"cookie-keep:\r\n",
    b"response-drop: set-cookie\r\nresponse-drop: x-powered-by\r\n",
    b"response-drop:\r\n",
    b"force-lifetime: 200 0\r\nforce-lifetime: 404 60\r\n",
    b"force-private: yes\r\n",
];

const WRONG: &[&[u8]] = &[
    b"query-drop: a=b\r\n",
    b"query-drop: a&b\r\n",
    b"query-drop: a#\r\n",
    b"query-drop: a b\r\n",
    b"query-sort:\r\n",
    b"query-sort: 1\r\n",
    b"encodings:\r\n",
    b"encodings: BR\r\n",
    b"encodings: *\r\n",
    b"encodings: x-gzip\r\n",
    b"encodings: br gzip\r\n",
    b"encodings: a,b,c,d,e\r\n",
    b"cookie-keep: a;b\r\n",
    b"response-drop: Set-Cookie\r\n",
    b"response-drop: content-length\r\n",
    b"response-drop: transfer-encoding\r\n",
    b"response-drop: connection\r\n",
    b"response-drop: content-range\r\n",
    b"response-drop: content-encoding\r\n",
    b"response-drop: date\r\n",
    b"response-drop: vary\r\n",
    b"force-lifetime: 60\r\n",
    b"force-lifetime:\r\n",
    b"force-private: true\r\n",
];

#[test]
fn words_of_operators_are_checked(rt: HostRuntime) {
    let mut told = out();
    for words in RIGHT {
        check(&numbers(), words, &mut told);
        assert!(rt; told.status == 67);
    }
    for words in WRONG {
        check(&numbers(), words, &mut told);
        assert!(rt; told.status == 20);
        assert!(rt; told.choice == 1);
    }
}

// Whether a text stands at a span.
fn is_at(room: &[u8], span: Span, text: &[u8]) -> bool {
    let (from, to) = (span.from as usize, span.to as usize);
    from <= to && to <= room.len() && &room[from..to] == text
}

#[test]
fn a_query_is_cut_and_sorted(rt: HostRuntime) {
    let mut room = ROOM;
    let words = b"query-drop: utm_*\r\nquery-drop: gclid\r\nquery-sort: yes\r\n";
    let request = asked_by(
        rt.alloc(),
        words,
        b"GET /a?b=2&utm_x=1&a=2&gclid&a=1 HTTP/1.1\r\nHost: a.example\r\n\r\n",
        &mut room,
    );
    assert!(rt; is_at(&room, request.target, b"/a?a=2&a=1&b=2"));
    assert!(rt; is_at(&room, request.key, b"http://a.example/a?a=2&a=1&b=2"));
}

#[test]
fn a_passed_query_is_cut_too(rt: HostRuntime) {
    let mut room = ROOM;
    let request = asked_by(
        rt.alloc(),
        b"query-drop: *\r\n",
        b"POST /a?b=2 HTTP/1.1\r\nHost: a.example\r\nContent-Length: 1\r\n\r\n",
        &mut room,
    );
    assert!(rt; request.plan == 2);
    assert!(rt; is_at(&room, request.target, b"/a"));
}

#[test]
fn codings_are_those_of_the_list(rt: HostRuntime) {
    let mut room = ROOM;
    let request = asked_by(
        rt.alloc(),
        b"encodings: br, gzip\r\n",
        b"GET /a HTTP/1.1\r\nHost: a.example\r\nAccept-Encoding: x-gzip, deflate, br;q=0.5\r\n\r\n",
        &mut room,
    );
    assert!(rt;
        is_at(
            &room,
            request.lines,
            b"Host: a.example\r\nAccept-Encoding: br, gzip\r\n"
        )
    );
    let none = asked_by(
        rt.alloc(),
        b"encodings: br, gzip\r\n",
        b"GET /a HTTP/1.1\r\nHost: a.example\r\nAccept-Encoding: gzip;q=0\r\n\r\n",
        &mut room,
    );
    assert!(rt; is_at(&room, none.lines, b"Host: a.example\r\n"));
}

#[test]
fn cookies_are_kept_by_name(rt: HostRuntime) {
    let mut room = ROOM;
    let bytes =
        b"GET /a HTTP/1.1\r\nHost: a.example\r\nCookie: a=1;sid=2\r\nCookie: sid=3; b=4\r\n\r\n";
    let request = asked_by(rt.alloc(), b"cookie-keep: sid\r\n", bytes, &mut room);
    assert!(rt;
        is_at(
            &room,
            request.lines,
            b"Host: a.example\r\nCookie: sid=2; sid=3\r\n"
        )
    );
    let none = asked_by(rt.alloc(), b"cookie-keep:\r\n", bytes, &mut room);
    assert!(rt; is_at(&room, none.lines, b"Host: a.example\r\n"));
}

// What is kept of a response, by options with these words.
fn kept_by(alloc: Global, words: &[u8], response: &[u8], room: &mut [u8]) -> KeptShape {
    let (mut text, mut lines) = (ROOM, ROOM);
    let request = asked(alloc, REQUEST, &mut text);
    let shape = came(alloc, response, &mut lines);
    let nothing = no_head();
    judged_over(
        alloc, words, &request, &text, &shape, &lines, 1000, &nothing, room,
    )
}

#[test]
fn a_dropped_field_is_neither_stored_nor_shown(rt: HostRuntime) {
    let mut room = ROOM;
    let kept = kept_by(
        rt.alloc(),
        b"response-drop: set-cookie\r\nresponse-drop: date-x\r\n",
        b"HTTP/1.1 200 O\r\nDate: Thu, 01 Jan 1970 00:16:40 GMT\r\nDate-X: 1\r\nSet-Cookie: a\r\nCache-Control: max-age=9\r\n\r\n",
        &mut room,
    );
    assert!(rt; kept.status == 68);
    let lines =
        b"Date: Thu, 01 Jan 1970 00:16:40 GMT\r\nCache-Control: max-age=9\r\nVia: 1.1 cache-tier\r\n";
    assert!(rt; is_at(&room, kept.block, lines));
    assert!(rt; kept.head.to == 17 + lines.len() as u64 + 2);
}

#[test]
fn a_lifetime_is_forced(rt: HostRuntime) {
    let mut room = ROOM;
    let kept = kept_by(
        rt.alloc(),
        b"force-lifetime: 200 5\r\n",
        b"HTTP/1.1 200 O\r\nDate: Thu, 01 Jan 1970 00:16:40 GMT\r\nCache-Control: max-age=90\r\n\r\n",
        &mut room,
    );
    assert!(rt; kept.status == 68);
    assert!(rt; kept.meta.fresh_until.seconds == 1004);
}

#[test]
fn private_is_passed_over(rt: HostRuntime) {
    let mut room = ROOM;
    let response = b"HTTP/1.1 200 O\r\nCache-Control: private, no-cache, max-age=90\r\n\r\n";
    let kept = kept_by(rt.alloc(), b"force-private: yes\r\n", response, &mut room);
    assert!(rt; kept.status == 68);
    assert!(rt; kept.meta.fresh_until.seconds == 1089);
    let refused = kept_by(rt.alloc(), b"force-private: no\r\n", response, &mut room);
    assert!(rt; refused.status == 69);
    assert!(rt; refused.reason == 33);
}

// The last second at which a response of second 400 that comes at second 1000 is fresh.
fn fresh_until(alloc: Global, flags: u64) -> u64 {
    let (mut text, mut lines, mut room) = (ROOM, ROOM, ROOM);
    let request: RequestShape = asked(alloc, REQUEST, &mut text);
    let response = came(
        alloc,
        b"HTTP/1.1 200 O\r\nDate: Thu, 01 Jan 1970 00:06:40 GMT\r\nAge: 7\r\nCache-Control: max-age=900\r\n\r\n",
        &mut lines,
    );
    let numbers = OptionNumbers { flags, ..numbers() };
    let mut told = unkept(0, 0);
    judge(
        alloc,
        &numbers,
        b"",
        &request,
        &text,
        0,
        &response,
        &lines,
        (1000, 0),
        (1000, 0),
        b"",
        &no_head(),
        b"",
        &mut room,
        &mut told,
    );
    told.meta.fresh_until.seconds
}

#[test]
fn date_counts_where_it_is_trusted(rt: HostRuntime) {
    assert!(rt; fresh_until(rt.alloc(), 2233) == 1299);
    assert!(rt; fresh_until(rt.alloc(), 185) == 1892);
}
