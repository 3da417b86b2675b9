//! Requests that are given up, and look-ups of what is stale.
use crate::made::{answer, found};
use crate::short::{
    NO_REQUEST, WAIT, WRITE, WRONG_PHASE, begin, drop_request, finish, give_up, look, open, piece,
    poll, put, renew, tier,
};
use std::alloc::Global;
use tier_calls::held::{TierHandle, end};
use tier_calls::keeps::release;
use tier_calls::statuses::{
    ABSENT, BEGUN, FINISHED, FOUND, REVALIDATED, UNCACHEABLE, WAITED, WRITTEN,
};

const GIVE_UP: u64 = 3;

const AGED: u64 = 6;

const HEAD: &[u8] = b"HTTP/1.1 200 OK\r\n\r\n";

// Forty clients of a page that isn't stored: the rounds of fetches that they take, and how many there are in all. Who waited until one was given up
// fetches without the lock; who waited until one died asks again.
fn rounds_of(alloc: Global, is_given_up: bool) -> (u64, u64) {
    let mut held = tier(alloc, 1 << 20, 0);
    let mut asks: [bool; 40] = [true; 40];
    let (mut rounds, mut fetches): (u64, u64) = (0, 0);
    let mut left: u64 = 40;
    while left > 0 && rounds < 100 {
        rounds += 1;
        let mut writer = None;
        for id in 0..40_u64 {
            if asks[id as usize] {
                let _opened = open(&mut held, id, 1);
                let (_status, permit) = look(&mut held, 1000, id);
                if permit == WRITE {
                    writer = Some(id);
                }
            }
        }
        let Some(writer) = writer else {
            break;
        };
        if is_given_up {
            let _told = give_up(&mut held, writer);
        }
        drop_request(&mut held, writer);
        asks[writer as usize] = false;
        fetches += 1;
        left -= 1;
        let mut alone: u64 = 0;
        for id in 0..40_u64 {
            if asks[id as usize] {
                if poll(&mut held, 1000, id) == (WAITED, GIVE_UP) {
                    asks[id as usize] = false;
                    alone += 1;
                }
                drop_request(&mut held, id);
            }
        }
        if alone > 0 {
            rounds += 1;
            fetches += alone;
            left -= alone;
        }
    }
    end(held);
    (rounds, fetches)
}

#[test]
fn forty_clients_of_a_private_page_take_two_rounds(rt: HostRuntime) {
    assert!(rt; rounds_of(rt.alloc(), true) == (2, 40));
    assert!(rt; rounds_of(rt.alloc(), false) == (40, 40));
}

#[test]
fn who_waits_for_a_response_that_is_not_stored_goes_on_at_once(rt: HostRuntime) {
    let mut held = tier(rt.alloc(), 1 << 20, 0);
    let mut waits: u64 = 0;
    for id in 0..40 {
        let _opened = open(&mut held, id, 1);
        let (status, permit) = look(&mut held, 1000, id);
        assert!(rt; status == ABSENT);
        if permit == WAIT {
            waits = waits.wrapping_add(1);
        }
    }
    assert!(rt; waits == 39);
    assert!(rt; give_up(&mut held, 0) == UNCACHEABLE);
    for id in 1..40 {
        assert!(rt; poll(&mut held, 1001, id) == (WAITED, GIVE_UP));
    }
    end(held);
}

#[test]
fn a_request_is_given_up_where_it_may_begin_a_write(rt: HostRuntime) {
    let mut held = tier(rt.alloc(), 1 << 20, 0);
    assert!(rt; give_up(&mut held, 1) == NO_REQUEST);
    assert!(rt; open(&mut held, 1, 1) == 32 && give_up(&mut held, 1) == WRONG_PHASE);
    assert!(rt; look(&mut held, 1000, 1) == (ABSENT, WRITE));
    assert!(rt; give_up(&mut held, 1) == UNCACHEABLE && give_up(&mut held, 1) == WRONG_PHASE);
    assert!(rt; look(&mut held, 1000, 1) == (WRONG_PHASE, 0));
    assert!(rt; begin(&mut held, 1, 0) == WRONG_PHASE && finish(&mut held, 1).0 == WRONG_PHASE);
    drop_request(&mut held, 1);
    assert!(rt; open(&mut held, 2, 1) == 32 && look(&mut held, 1000, 2) == (ABSENT, WRITE));
    assert!(rt; begin(&mut held, 2, 0) == BEGUN && give_up(&mut held, 2) == WRONG_PHASE);
    assert!(rt; piece(&mut held, 2, b"old", 1) == WRITTEN && give_up(&mut held, 2) == WRONG_PHASE);
    assert!(rt; finish(&mut held, 2).0 == FINISHED && give_up(&mut held, 2) == WRONG_PHASE);
    // What is fresh is given up by none.
    assert!(rt; open(&mut held, 3, 1) == 32 && look(&mut held, 1000, 3) == (FOUND, 0));
    assert!(rt; give_up(&mut held, 3) == WRONG_PHASE);
    end(held);
}

#[test]
fn what_is_stale_stays_where_a_request_is_given_up(rt: HostRuntime) {
    let mut held = tier(rt.alloc(), 1 << 20, 0);
    assert!(rt; put(&mut held, b"/a", b"old", 0) == FINISHED);
    assert!(rt; open(&mut held, 3, 1) == 32 && look(&mut held, 3000, 3) == (FOUND, WRITE));
    assert!(rt; open(&mut held, 4, 1) == 32 && look(&mut held, 3000, 4) == (FOUND, WAIT));
    assert!(rt; give_up(&mut held, 4) == WRONG_PHASE);
    assert!(rt; give_up(&mut held, 3) == UNCACHEABLE);
    assert!(rt; poll(&mut held, 3001, 4) == (WAITED, GIVE_UP));
    assert!(rt; look(&mut held, 3001, 4) == (FOUND, WRITE));
    // Past the permit's age.
    assert!(rt; open(&mut held, 5, 1) == 32 && look(&mut held, 3001, 5) == (FOUND, WAIT));
    assert!(rt; poll(&mut held, 3011, 5) == (WAITED, AGED));
    assert!(rt; give_up(&mut held, 4) == UNCACHEABLE);
    assert!(rt; look(&mut held, 3012, 5) == (FOUND, WRITE));
    // What was renewed is given up no more.
    assert!(rt; renew(&mut held, 5, HEAD) == REVALIDATED && give_up(&mut held, 5) == WRONG_PHASE);
    end(held);
}

// What a look-up of what is stale tells: its status, whether it is fresh, its permit, and how long its body is.
fn stale(held: &mut TierHandle, id: u64) -> (u64, u64, u64, u64) {
    let mut out = found();
    release(held.lookup_stale(id, &mut out));
    (
        out.answer.status,
        out.answer.fresh,
        out.answer.permit,
        out.head.body_len,
    )
}

#[test]
fn a_look_up_of_what_is_stale_gets_no_permit(rt: HostRuntime) {
    let mut held = tier(rt.alloc(), 1 << 20, 0);
    assert!(rt; stale(&mut held, 1) == (NO_REQUEST, 0, 0, 0));
    assert!(rt; put(&mut held, b"/a", b"hello", 0) == FINISHED);
    assert!(rt; open(&mut held, 1, 1) == 32 && stale(&mut held, 1) == (WRONG_PHASE, 0, 0, 0));
    assert!(rt; look(&mut held, 1000, 1) == (FOUND, 0));
    assert!(rt; open(&mut held, 2, 0) == 32 && stale(&mut held, 2) == (FOUND, 0, 0, 5));
    drop_request(&mut held, 2);
    // Nothing waits for a permit of that moment.
    let mut purged = answer();
    held.purge(0, b"/a", b"", &mut purged);
    assert!(rt; open(&mut held, 3, 1) == 32 && look(&mut held, 1000, 3) == (ABSENT, WRITE));
    assert!(rt; open(&mut held, 4, 1) == 32 && look(&mut held, 1000, 4) == (ABSENT, WAIT));
    assert!(rt; open(&mut held, 5, 0) == 32 && stale(&mut held, 5) == (ABSENT, 0, 0, 0));
    assert!(rt; poll(&mut held, 1010, 4) == (WAITED, AGED));
    end(held);
}
