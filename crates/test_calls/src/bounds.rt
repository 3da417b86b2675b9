//! Bodies that are too large, and what is told in constant time.
use crate::made::{answer, entry, found, options};
use crate::short::{
    HEAD, WRITE, begin, drop_request, finish, look, open, piece, put, put_whole, read, tier, weight,
};
use tier_calls::held::{TierHandle, end};
use tier_calls::keeps::release;
use tier_calls::made::make;
use tier_calls::statuses::{
    ABSENT, BAD_CALL, BEGUN, BODY_TOO_LARGE, BYTES, END, FINISHED, FOUND, NONE, SHOWN, WRITTEN,
};

const LARGE: &[u8] = &[b'x'; 150_000];

const SMALL: &[u8] = &[b'x'; 1_000];

// Puts fifty bodies of 1,000 bytes, and says whether each found room.
fn fill(held: &mut TierHandle) -> bool {
    let mut all = true;
    for name in 0..50_u8 {
        all = put_whole(held, &[name], HEAD, SMALL, 0) == (FINISHED, 0) && all;
    }
    all
}

#[test]
fn a_body_past_the_limit_evicts_nothing(rt: HostRuntime) {
    for &shards in &[1, 4, 16] {
        let mut words = options(shards);
        words.limit = 100_000;
        let mut out = answer();
        let mut held = make(rt.alloc(), &words, &mut out);
        assert!(rt; fill(&mut held));
        let before = weight(&mut held);
        assert!(rt; before.1 == 50);
        assert!(rt; put_whole(&mut held, b"/large", HEAD, LARGE, 0) == (BODY_TOO_LARGE, 0));
        assert!(rt; put_whole(&mut held, b"/large", HEAD, b"", 150_000) == (BODY_TOO_LARGE, 0));
        assert!(rt; weight(&mut held) == before);
        end(held);
    }
}

// With no bound it evicts all else, as the papers on the order of use have it.
#[test]
fn without_a_bound_a_body_past_the_limit_evicts_all(rt: HostRuntime) {
    let mut held = tier(rt.alloc(), 100_000, NONE);
    assert!(rt; fill(&mut held));
    assert!(rt; put_whole(&mut held, b"/large", HEAD, LARGE, 0) == (FINISHED, 51));
    assert!(rt; weight(&mut held) == (0, 0));
    end(held);
}

// A body of ten bytes is the greatest, with what it has outside; by half of the limit of 1,000 one of 500.
#[test]
fn a_body_that_is_too_large_takes_no_other_away(rt: HostRuntime) {
    let mut held = tier(rt.alloc(), 1000, 10);
    assert!(rt; put(&mut held, b"/a", b"0123456789", 0) == FINISHED);
    assert!(rt; put(&mut held, b"/b", b"0123456789a", 0) == BODY_TOO_LARGE);
    assert!(rt; put(&mut held, b"/b", b"01234", 5) == FINISHED);
    assert!(rt; put(&mut held, b"/a", b"01234", 6) == BODY_TOO_LARGE);
    assert!(rt; weight(&mut held).1 == 2);
    end(held);
    let mut half = tier(rt.alloc(), 1000, 0);
    assert!(rt; put(&mut half, b"/a", b"", 500) == FINISHED);
    assert!(rt; put(&mut half, b"/b", b"a", 500) == BODY_TOO_LARGE);
    end(half);
    let mut free = tier(rt.alloc(), 1000, NONE);
    assert!(rt; put(&mut free, b"/a", b"", 1 << 61) == FINISHED);
    assert!(rt; weight(&mut free).1 == 0);
    assert!(rt; put(&mut free, b"/a", b"", 1 << 62) == BAD_CALL);
    end(free);
}

// What comes with the head counts too: the head ends with its first empty line.
#[test]
fn a_body_that_comes_with_its_head_is_counted(rt: HostRuntime) {
    let mut held = tier(rt.alloc(), 1000, 10);
    let ten = b"HTTP/1.1 200 OK\r\na: b\r\n\r\n0123456789";
    let more = b"HTTP/1.1 200 OK\r\na: b\r\n\r\n0\n\n3456789a";
    let bare = b"HTTP/1.1 200 OK\na: b\n\n0123456789a";
    assert!(rt; put_whole(&mut held, b"/a", ten, b"", 0) == (FINISHED, 0));
    assert!(rt; put_whole(&mut held, b"/a", ten, b"a", 0) == (BODY_TOO_LARGE, 0));
    assert!(rt; put_whole(&mut held, b"/a", more, b"", 0) == (BODY_TOO_LARGE, 0));
    assert!(rt; put_whole(&mut held, b"/a", bare, b"", 0) == (BODY_TOO_LARGE, 0));
    end(held);
}

#[test]
fn a_write_that_grows_too_large_goes_on_as_it_was(rt: HostRuntime) {
    let mut held = tier(rt.alloc(), 1000, 10);
    assert!(rt; open(&mut held, 1, 1) == 32 && look(&mut held, 1000, 1) == (ABSENT, WRITE));
    assert!(rt; begin(&mut held, 1, 11) == BODY_TOO_LARGE);
    assert!(rt; begin(&mut held, 1, 4) == BEGUN);
    assert!(rt; piece(&mut held, 1, b"01234", 0) == WRITTEN);
    assert!(rt; piece(&mut held, 1, b"56", 0) == BODY_TOO_LARGE);
    assert!(rt; piece(&mut held, 1, b"5", 1) == WRITTEN);
    assert!(rt; finish(&mut held, 1) == (FINISHED, 6));
    end(held);
}

// Who follows a write that was too large reads what came, and that not all did.
#[test]
fn who_follows_what_is_too_large_reads_that_not_all_came(rt: HostRuntime) {
    let mut held = tier(rt.alloc(), 1000, 10);
    assert!(rt; open(&mut held, 1, 0) == 32 && look(&mut held, 1000, 1) == (ABSENT, 0));
    assert!(rt; begin(&mut held, 1, 0) == BEGUN && piece(&mut held, 1, b"0123", 0) == WRITTEN);
    assert!(rt; open(&mut held, 2, 0) == 32 && look(&mut held, 1000, 2) == (FOUND, 0));
    assert!(rt; piece(&mut held, 1, b"4567890", 1) == BODY_TOO_LARGE);
    assert!(rt; read(&mut held, 2) == (BYTES, 0));
    drop_request(&mut held, 1);
    assert!(rt; read(&mut held, 2) == (END, 0));
    end(held);
}

// A body that isn't whole has no length yet.
#[test]
fn a_find_tells_how_long_a_whole_body_is(rt: HostRuntime) {
    let mut held = tier(rt.alloc(), 1 << 20, 0);
    assert!(rt; open(&mut held, 1, 1) == 32 && look(&mut held, 1000, 1) == (ABSENT, WRITE));
    assert!(rt; begin(&mut held, 1, 0) == BEGUN && piece(&mut held, 1, b"hello", 1) == WRITTEN);
    assert!(rt; open(&mut held, 2, 0) == 32 && open(&mut held, 3, 0) == 32);
    let mut out = found();
    release(held.find(1000, 0, 2, &mut out));
    assert!(rt; out.answer.status == FOUND && out.head.body_len == NONE);
    assert!(rt; finish(&mut held, 1) == (FINISHED, 5));
    release(held.find(1000, 0, 3, &mut out));
    assert!(rt; out.answer.status == FOUND && out.head.body_len == 5 && out.body.len == 0);
    release(held.hit(1000, 0, 0, b"/a", b"", &mut out));
    assert!(rt; out.head.body_len == 5);
    release(held.kept(0, b"/a", &mut out));
    assert!(rt; out.head.body_len == 5);
    end(held);
}

#[test]
fn a_list_tells_what_is_outside(rt: HostRuntime) {
    let mut held = tier(rt.alloc(), 1 << 20, 0);
    assert!(rt; weight(&mut held) == (0, 0));
    assert!(rt;
        put(&mut held, b"/a", b"hello", 0) == FINISHED
            && put(&mut held, b"/b", b"x", 700) == FINISHED
    );
    let (sum, count) = weight(&mut held);
    assert!(rt; count == 2 && sum > 706);
    let mut listed = answer();
    held.list(0, &mut listed);
    assert!(rt; listed.status == SHOWN && listed.number == 2);
    let mut shown = entry();
    held.listed(0, &mut shown);
    assert!(rt; shown.status == SHOWN && shown.external == 700);
    held.listed(1, &mut shown);
    assert!(rt; shown.status == SHOWN && shown.external == 0);
    end(held);
}
