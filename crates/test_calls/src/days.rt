//! Days of calls.
use crate::made::{answer, handle, options};
use crate::plays::{Call, Row, bodies_and_found, other, told_by_read};
use tier_calls::held::end;
use tier_calls::made::make;
use tier_calls::statuses::{BAD_CALL, END, READY};

const HEAD: &[u8] = b"HTTP/1.1 200 OK\r\nCache-Control: max-age=60\r\n\r\n";

const UNKEPT: &[u8] = b"HTTP/1.1 200 OK\r\nCache-Control: no-store\r\n\r\n";

const CONFIRMS: &[u8] = b"HTTP/1.1 304 Not Modified\r\nCache-Control: max-age=60\r\n\r\n";

const NONE: &[u8] = b"";

const DAY: &[Row] = &[
    (Call::Hit, 1000, 0, b"/a", 51),
    (Call::Put, 1000, 0, b"/a", 45),
    (Call::Hit, 1060, 0, b"/a", 33),
    (Call::Hit, 1061, 0, b"/a", 51),
    (Call::Kept, 0, 0, b"/a", 33),
    (Call::Kept, 0, 0, b"/b", 22),
    (Call::Open, 0, 1, b"/a", 32),
    (Call::Open, 0, 1, b"/a", 2),
    (Call::LookUp, 1030, 1, NONE, 33),
    (Call::Read, 0, 1, NONE, 39),
    (Call::Read, 0, 1, NONE, 41),
    (Call::Drop, 0, 1, NONE, 42),
    (Call::Drop, 0, 1, NONE, 1),
    (Call::Open, 0, 2, b"/a", 32),
    (Call::Find, 1070, 2, NONE, 33),
    (Call::Revalidate, 1070, 2, CONFIRMS, 50),
    (Call::Hit, 1130, 0, b"/a", 33),
    (Call::Drop, 0, 2, NONE, 42),
    (Call::OpenWithLock, 0, 3, b"/b", 32),
    (Call::Find, 1130, 3, NONE, 34),
    (Call::OpenWithLock, 0, 4, b"/b", 32),
    (Call::LookUp, 1130, 4, NONE, 34),
    (Call::Poll, 1130, 4, NONE, 36),
    (Call::Begin, 1130, 3, UNKEPT, 46),
    (Call::Poll, 1130, 4, NONE, 35),
    (Call::Drop, 0, 3, NONE, 42),
    (Call::Drop, 0, 4, NONE, 42),
    (Call::Open, 0, 5, b"/c", 32),
    (Call::LookUp, 1130, 5, NONE, 34),
    (Call::BeginGiven, 1130, 5, UNKEPT, 37),
    (Call::Hit, 1130, 0, b"/c", 51),
    (Call::Piece, 0, 5, b"xyz", 38),
    (Call::LastPiece, 0, 5, b"zy", 38),
    (Call::Piece, 0, 5, b"more", 5),
    (Call::Finish, 0, 5, NONE, 45),
    (Call::Hit, 2000, 0, b"/c", 33),
    (Call::Drop, 0, 5, NONE, 42),
    (Call::Purge, 0, 0, b"/c", 43),
    (Call::Evicted, 0, 0, NONE, 22),
    (Call::Purge, 0, 0, b"/c", 44),
    (Call::PurgeDigested, 0, 0, b"too short", BAD_CALL),
    (Call::LookUp, 1 << 63, 1, NONE, BAD_CALL),
    (Call::List, 0, 0, NONE, 49),
    (Call::List, 0, 1, NONE, BAD_CALL),
    (Call::Listed, 0, 0, NONE, 49),
    (Call::Listed, 0, 1, NONE, 22),
    (Call::Start, 0, 0, NONE, 21),
    (Call::Save, 0, 0, NONE, 47),
    (Call::File, 0, 0, NONE, 49),
    (Call::File, 0, 1, NONE, 22),
];

#[test]
fn a_day_of_calls(rt: HostRuntime) {
    let mut held = handle(rt.alloc());
    assert!(rt; other(&mut held, DAY) == None);
    assert!(rt; bodies_and_found(&mut held) == (1, 5));
    end(held);
}

// The body of the first goes for that of the second, which has no room beside it.
const CROWD: &[Row] = &[
    (Call::Put, 1000, 0, b"/a", 45),
    (Call::Put, 1000, 0, b"/b", 45),
    (Call::Put, 1000, 0, b"/c", 45),
    (Call::PutGiven, 1000, 0, b"/d", 45),
    (Call::Evicted, 0, 0, NONE, 49),
    (Call::Evicted, 0, 1, NONE, 22),
    (Call::Kept, 0, 0, b"/a", 22),
    (Call::Kept, 0, 0, b"/d", 33),
];

#[test]
fn the_entry_that_went_is_named(rt: HostRuntime) {
    let mut held = handle(rt.alloc());
    assert!(rt; other(&mut held, CROWD) == None);
    end(held);
}

// Requests 1, 2 and 3 write, and 4, 5 and 6 read that: one write is finished, one is given up, and one is given up after its last piece.
const ENDS: &[Row] = &[
    (Call::Open, 0, 1, b"/a", 32),
    (Call::LookUp, 1000, 1, NONE, 34),
    (Call::Begin, 1000, 1, HEAD, 37),
    (Call::Piece, 0, 1, b"abc", 38),
    (Call::Open, 0, 2, b"/b", 32),
    (Call::LookUp, 1000, 2, NONE, 34),
    (Call::Begin, 1000, 2, HEAD, 37),
    (Call::Piece, 0, 2, b"abc", 38),
    (Call::Open, 0, 3, b"/c", 32),
    (Call::LookUp, 1000, 3, NONE, 34),
    (Call::Begin, 1000, 3, HEAD, 37),
    (Call::LastPiece, 0, 3, b"abc", 38),
    (Call::Open, 0, 4, b"/a", 32),
    (Call::LookUp, 1000, 4, NONE, 33),
    (Call::Open, 0, 5, b"/b", 32),
    (Call::LookUp, 1000, 5, NONE, 33),
    (Call::Open, 0, 6, b"/c", 32),
    (Call::LookUp, 1000, 6, NONE, 33),
    (Call::Finish, 0, 1, NONE, 45),
    (Call::Drop, 0, 2, NONE, 42),
    (Call::Drop, 0, 3, NONE, 42),
    (Call::Read, 0, 4, NONE, 39),
    (Call::Read, 0, 5, NONE, 39),
    (Call::Read, 0, 6, NONE, 39),
];

#[test]
fn an_end_tells_whether_all_came(rt: HostRuntime) {
    let mut held = handle(rt.alloc());
    assert!(rt; other(&mut held, ENDS) == None);
    assert!(rt; told_by_read(&mut held, 4) == (END, 1));
    assert!(rt; told_by_read(&mut held, 5) == (END, 0));
    assert!(rt; told_by_read(&mut held, 6) == (END, 1));
    end(held);
}

const STARTS: &[Row] = &[
    (Call::HandFile, 0, 0, NONE, 0),
    (Call::Start, 0, 0, NONE, 48),
    (Call::Hit, 1000, 0, b"/a", 51),
];

#[test]
fn a_new_tier_starts_from_what_was_handed_in(rt: HostRuntime) {
    let mut held = handle(rt.alloc());
    assert!(rt; other(&mut held, STARTS) == None);
    end(held);
}

#[test]
fn options_out_of_range_make_no_tier(rt: HostRuntime) {
    let mut out = answer();
    end(make(rt.alloc(), &options(4), &mut out));
    assert!(rt; out.status == READY);
    end(make(rt.alloc(), &options(3), &mut out));
    assert!(rt; out.status == BAD_CALL);
    let mut reserved = options(1);
    reserved.reserved = [0, 0, 0, 1];
    let mut held = make(rt.alloc(), &reserved, &mut out);
    assert!(rt; out.status == BAD_CALL);
    held.drop_request(1, &mut out);
    assert!(rt; out.status == BAD_CALL);
    end(held);
}
