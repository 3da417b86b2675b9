//! Lists of sets of Vary: one odd response ruins no other's variants.
use crate::made::{REQUEST, ROOM, asked, came, judged, judged_by, kept, numbers, out};
use rules_ffi::listing::list;
use rules_ffi::variants::variant;
use rules_ffi_arguments::shapes::{KeptShape, Out, PartShape, Span};
use std::alloc::Global;

// A list of two sets: by Accept-Language, and by nothing.
const TWO: &[u8] = b"11111111\naccept-language\n\n22222222\n\n";

// A list of as many sets as there may be.
const FOUR: &[u8] = b"11111111\na\n\n22222222\nb\n\n33333333\nc\n\n44444444\n\n";

// A response, the list, and what is told: status, place, and the body of the new list.
type Row = (&'static [u8], &'static [u8], (u64, u64), &'static [u8]);

const ROWS: &[Row] = &[
    (
        b"HTTP/1.1 200 O\r\nVary: B, a\r\nVary: b, host\r\n\r\n",
        b"",
        (68, 0),
        b"00000000\na\nb\n\n",
    ),
    (b"HTTP/1.1 200 O\r\n\r\n", b"", (67, 0), b""),
    (
        b"HTTP/1.1 200 O\r\nVary: Accept-Language\r\n\r\n",
        TWO,
        (67, 0),
        b"",
    ),
    (b"HTTP/1.1 200 O\r\n\r\n", TWO, (67, 1), b""),
    (
        b"HTTP/1.1 404 N\r\nVary: Cookie\r\n\r\n",
        TWO,
        (68, 0),
        b"00000000\ncookie\n\n11111111\naccept-language\n\n22222222\n\n",
    ),
    (b"HTTP/1.1 200 O\r\nVary: c\r\n\r\n", FOUR, (67, 2), b""),
    (
        b"HTTP/1.1 200 O\r\nVary: d\r\n\r\n",
        FOUR,
        (68, 0),
        b"00000000\nd\n\n11111111\na\n\n22222222\nb\n\n33333333\nc\n\n",
    ),
];

fn is_listed(alloc: Global, row: &Row) -> bool {
    let (mut lines, mut room) = (ROOM, ROOM);
    let response = came(alloc, row.0, &mut lines);
    let mut told: KeptShape = kept();
    list(
        alloc,
        &numbers(),
        b"",
        &response,
        &lines,
        1000,
        0,
        row.1,
        b"00000000",
        &mut room,
        &mut told,
    );
    let body = &room[told.body.from as usize..told.body.to as usize];
    (told.status, told.place) == row.2 && body == row.3
}

#[test]
fn each_set_has_its_place(rt: HostRuntime) {
    let mut wrong = 0;
    for row in ROWS {
        if !is_listed(rt.alloc(), row) {
            wrong += 1;
        }
    }
    assert!(rt; wrong == 0);
}

const NO_PART: PartShape = PartShape {
    before: Span { from: 0, to: 0 },
    from: 0,
    to: 0,
};

#[test]
fn each_set_has_a_key(rt: HostRuntime) {
    let (mut text, mut room) = (ROOM, ROOM);
    let request = asked(rt.alloc(), REQUEST, &mut text);
    let mut parts = [NO_PART; 16];
    let mut keys: Out = out();
    variant(
        rt.alloc(),
        &numbers(),
        b"",
        &request,
        &text,
        TWO,
        &mut room,
        &mut parts,
        &mut keys,
    );
    assert!(rt; keys.status == 67);
    assert!(rt; keys.count == 2);
    assert!(rt;
        room.starts_with(
            b"http://a.example/a\n11111111\naccept-language:de\nhttp://a.example/a\n22222222\n"
        )
    );
    assert!(rt; parts[0].before.to == parts[1].before.from);
    assert!(rt; parts[1].before.to == parts[1].before.from + 28);
}

// What is stored at second 1000, fresh for 60 seconds, under the set of Accept-Language.
const STORED: &[u8] =
    b"HTTP/1.1 200 O\r\nDate: Thu, 01 Jan 1970 00:16:40 GMT\r\nCache-Control: max-age=60\r\nVary: Accept-Language\r\n\r\n";

const OTHER: &[u8] = b"HTTP/1.1 200 O\r\nCache-Control: max-age=9\r\nVary: Cookie\r\n\r\n";

// A response, the list, the second at which it comes, and what is told: status, `removes`, `varies`.
type Judged = (&'static [u8], &'static [u8], u64, (u64, u64, u64));

const JUDGED: &[Judged] = &[
    (OTHER, TWO, 1059, (68, 0, 1)),
    (OTHER, TWO, 1060, (68, 1, 1)),
    (OTHER, b"", 1060, (68, 0, 1)),
    (STORED, TWO, 1060, (68, 0, 0)),
    (
        b"HTTP/1.1 200 O\r\nCache-Control: max-age=9\r\n\r\n",
        TWO,
        1060,
        (68, 1, 0),
    ),
];

// Whether a row is told so over what is stored.
fn is_judged(alloc: Global, row: &Judged, stored: &KeptShape, room: &[u8]) -> bool {
    let (mut text, mut lines, mut made) = (ROOM, ROOM, ROOM);
    let request = asked(alloc, REQUEST, &mut text);
    let response = came(alloc, row.0, &mut lines);
    let block = &room[stored.block.from as usize..stored.block.to as usize];
    let told = judged_by(
        alloc,
        b"",
        &request,
        &text,
        &response,
        &lines,
        row.2,
        row.1,
        &stored.shown,
        block,
        &mut made,
    );
    (told.status, told.removes, told.varies) == row.3
}

#[test]
fn another_set_takes_the_place_of_what_is_stale(rt: HostRuntime) {
    let (mut text, mut lines, mut room) = (ROOM, ROOM, ROOM);
    let request = asked(rt.alloc(), REQUEST, &mut text);
    let response = came(rt.alloc(), STORED, &mut lines);
    let stored = judged(rt.alloc(), &request, &text, &response, &lines, &mut room);
    let mut wrong = 0;
    for row in JUDGED {
        if !is_judged(rt.alloc(), row, &stored, &room) {
            wrong += 1;
        }
    }
    assert!(rt; stored.status == 68);
    assert!(rt; wrong == 0);
}
