//! Bodies as their bytes come.
use rules_ffi_arguments::shapes::{BodyShape, PieceShape, Span};
use rules_ffi_results::body::decode;
use rules_ffi_results::encoding::encode;
use rules_ffi_results::marks::blank;
use std::alloc::Global;

fn body(framing: u64, length: u64, state: u64) -> BodyShape {
    BodyShape {
        framing,
        length,
        most: 30,
        state,
        size: 0,
        extensions: 0,
        scanned: 0,
        reserved: 0,
    }
}

fn read(alloc: Global, body: &mut BodyShape, bytes: &[u8], room: &mut [u8]) -> PieceShape {
    let mut piece = PieceShape {
        status: 0,
        needed: 0,
        reason: 0,
        from: 0,
        to: 0,
        used: 0,
        trailers: Span { from: 0, to: 0 },
    };
    decode(alloc, body, bytes, room, &mut piece);
    piece
}

#[test]
fn chunks_are_read(rt: HostRuntime) {
    let mut body = body(2, u64::MAX, 0);
    let mut room = [0; 40];
    let bytes = b"3;x\r\nabc\r\n0\r\nA: b\r\n\r\nrest";
    let data = read(rt.alloc(), &mut body, bytes, &mut room);
    assert!(rt; data.status == 71);
    assert!(rt; data.from == 5);
    assert!(rt; data.to == 8);
    let over = read(rt.alloc(), &mut body, &bytes[8..], &mut room);
    assert!(rt; over.status == 72);
    assert!(rt; over.used == 13);
    assert!(rt; room.starts_with(b"A: b\r\n"));
}

#[test]
fn chunks_are_written(rt: HostRuntime) {
    let mut room = [0; 8];
    let mut out = blank(0, 0);
    encode(rt.alloc(), 0x1a, &mut room, &mut out);
    assert!(rt; out.status == 67);
    assert!(rt; room.starts_with(b"1a\r\n\r\n"));
    assert!(rt; out.head.to == 4);
    assert!(rt; out.more.to == 6);
    encode(rt.alloc(), 0, &mut room, &mut out);
    assert!(rt; room.starts_with(b"0\r\n\r\n"));
    assert!(rt; out.head.to == 5);
    assert!(rt; out.more.to == 0);
    encode(rt.alloc(), 0, &mut room[..4], &mut out);
    assert!(rt; out.status == 23);
    assert!(rt; out.needed == 5);
}

#[test]
fn more_room_goes_on(rt: HostRuntime) {
    let mut body = body(2, u64::MAX, 0);
    let mut room = [0; 6];
    let bytes = b"0\r\nA: b\r\n\r\n";
    let short = read(rt.alloc(), &mut body, bytes, &mut room[..5]);
    assert!(rt; short.status == 23);
    assert!(rt; short.needed == 6);
    assert!(rt; short.used == 0);
    assert!(rt; body.state == 0);
    let over = read(rt.alloc(), &mut body, bytes, &mut room);
    assert!(rt; over.status == 72);
    assert!(rt; over.used == 11);
    assert!(rt; over.trailers.to == 6);
}

#[test]
fn long_trailers_are_refused(rt: HostRuntime) {
    let mut body = body(2, u64::MAX, 8);
    let bytes = b"A: 0123456789012345678901234567\r\n\r\n";
    let whole = read(rt.alloc(), &mut body, bytes, &mut [0; 40]);
    assert!(rt; whole.status == 66);
    assert!(rt; whole.reason == 41);
    assert!(rt; body.state == 10);
}

#[test]
fn lengths_end(rt: HostRuntime) {
    let mut body = body(1, 3, 0);
    let data = read(rt.alloc(), &mut body, b"abcde", &mut []);
    assert!(rt; data.status == 71);
    assert!(rt; data.used == 3);
    let over = read(rt.alloc(), &mut body, b"de", &mut []);
    assert!(rt; over.status == 72);
}

#[test]
fn made_up_bodies_are_refused(rt: HostRuntime) {
    let mut unknown = body(4, 0, 0);
    assert!(rt; read(rt.alloc(), &mut unknown, b"", &mut []).status == 20);
    let mut misplaced = body(2, 0, 11);
    assert!(rt; read(rt.alloc(), &mut misplaced, b"", &mut []).status == 20);
    assert!(rt; misplaced.state == 11);
}
