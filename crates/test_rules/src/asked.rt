//! Options, requests and responses.
use crate::made::{REQUEST, RESPONSE, ROOM, asked, came, numbers, out};
use rules_ffi::plain::plain;
use rules_ffi::reading::head_end;
use rules_ffi::sending::forward;
use rules_ffi_arguments::shapes::Out;
use rules_ffi_results::keeping::no_head;
use rules_serving::choosing::{check, prepare};

// Whether the head that is told of begins so.
fn begins(room: &[u8], told: &Out, text: &[u8]) -> bool {
    told.status == 67 && told.head.from == 0 && room.starts_with(text)
}

#[test]
fn options_are_checked(rt: HostRuntime) {
    let mut told = out();
    check(&numbers(), b"name: edge\r\nlifetime: 404 30\r\n", &mut told);
    assert!(rt; told.status == 67);
    check(&numbers(), b"name: edge\r\nlifetime: x\r\n", &mut told);
    assert!(rt; told.status == 20);
    assert!(rt; told.choice == 2);
    check(
        &numbers(),
        b"name: edge\r\n\r\nhost: a.example\r\n",
        &mut told,
    );
    assert!(rt; told.status == 20);
    assert!(rt; told.choice == 2);
}

#[test]
fn words_are_prepared(rt: HostRuntime) {
    let mut room = ROOM;
    let mut told = out();
    prepare(
        rt.alloc(),
        &numbers(),
        b"host: a.example\r\ndrop:\r\n",
        &mut room,
        &mut told,
    );
    assert!(rt; told.status == 67);
    assert!(rt; told.head.to == 14);
    assert!(rt; room.starts_with(b"\0ha.example\nd\n"));
    prepare(
        rt.alloc(),
        &numbers(),
        b"\0ha.example\n",
        &mut room,
        &mut told,
    );
    assert!(rt; told.status == 20);
}

#[test]
fn what_was_zeroed_is_refused(rt: HostRuntime) {
    let mut text = ROOM;
    let mut request = asked(rt.alloc(), REQUEST, &mut text);
    request.asked.from = 0;
    request.asked.to = 0;
    let mut room = ROOM;
    let mut told = out();
    let none = no_head();
    forward(
        rt.alloc(),
        &numbers(),
        b"",
        &request,
        &text,
        2,
        &none,
        b"",
        b"",
        &mut room,
        &mut told,
    );
    assert!(rt; told.status == 20);
}

#[test]
fn heads_are_read(rt: HostRuntime) {
    assert!(rt; head_end(REQUEST, 0) == 57);
    let mut room = ROOM;
    let request = asked(rt.alloc(), REQUEST, &mut room);
    assert!(rt; request.status == 65);
    assert!(rt; request.plan == 1);
    assert!(rt; request.used == 57);
    assert!(rt; room.starts_with(b"GETa.example/ahttp://a.example/aHost: a.example\r\n"));
    let response = came(rt.alloc(), RESPONSE, &mut room);
    assert!(rt; response.status == 65);
    assert!(rt; response.code == 200);
    assert!(rt; response.length == 3);
    assert!(rt; response.marks == 64);
}

#[test]
fn refused_heads_have_a_reason(rt: HostRuntime) {
    let mut room = ROOM;
    let bad = asked(
        rt.alloc(),
        b"GET /a HTTP/1.1\r\nHost : a\r\n\r\n",
        &mut room,
    );
    assert!(rt; bad.status == 66);
    assert!(rt; bad.refusal == 400);
    assert!(rt; bad.reason == 9);
    let part = asked(rt.alloc(), b"GET /a HTTP/1.1\r\nHost: a\r\n", &mut room);
    assert!(rt; part.status == 64);
    let mut few = [0; 8];
    let small = asked(rt.alloc(), REQUEST, &mut few);
    assert!(rt; small.status == 23);
}

#[test]
fn requests_go_on(rt: HostRuntime) {
    let mut text = ROOM;
    let request = asked(rt.alloc(), REQUEST, &mut text);
    let mut room = ROOM;
    let mut told = out();
    let none = no_head();
    forward(
        rt.alloc(),
        &numbers(),
        b"",
        &request,
        &text,
        2,
        &none,
        b"",
        b"",
        &mut room,
        &mut told,
    );
    assert!(rt;
        begins(
            &room,
            &told,
            b"GET /a HTTP/1.1\r\nHost: a.example\r\nAccept-Language: DE\r\nVia: 1.1 cache-tier\r\n\r\n"
        )
    );
    assert!(rt; told.choice == 2);
}

#[test]
fn own_answers_say_why(rt: HostRuntime) {
    let mut text = ROOM;
    let request = asked(rt.alloc(), REQUEST, &mut text);
    let mut room = ROOM;
    let mut told = out();
    plain(
        rt.alloc(),
        &numbers(),
        b"",
        &request,
        504,
        51,
        1000,
        0,
        &mut room,
        &mut told,
    );
    assert!(rt;
        begins(
            &room,
            &told,
            b"HTTP/1.1 504 Gateway Timeout\r\nDate: Thu, 01 Jan 1970 00:16:40 GMT\r\nVia: 1.1 cache-tier\r\nCache-Status: cache-tier; detail=only-if-cached\r\nContent-Length: 15\r\n\r\nonly-if-cached\n"
        )
    );
}
