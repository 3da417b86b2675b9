//! Calls in few words, at second 1000 where no other is named.
use crate::made::{answer, found, meta, options};
use std::alloc::Global;
use tier_calls::held::TierHandle;
use tier_calls::keeps::release;
use tier_calls::made::make;
use tier_calls::structs::MetaWords;

pub(crate) const HEAD: &[u8] = b"HTTP/1.1 200 OK\r\n\r\n";

pub(crate) const NO_REQUEST: u64 = 1;

pub(crate) const WRONG_PHASE: u64 = 3;

pub(crate) const BAD_HEAD: u64 = 6;

pub(crate) const WRITE: u64 = 1;

pub(crate) const WAIT: u64 = 2;

pub(crate) fn tier(alloc: Global, limit: u64, most: u64) -> TierHandle {
    let mut words = options(1);
    words.limit = limit;
    words.max_body_bytes = most;
    let mut out = answer();
    make(alloc, &words, &mut out)
}

pub(crate) fn outside(external: u64) -> MetaWords {
    let mut words = meta(2000);
    words.external = external;
    words
}

// Puts a response with what is given of it: what comes, and how many were evicted.
pub(crate) fn put_whole(
    held: &mut TierHandle,
    key: &[u8],
    head: &[u8],
    body: &[u8],
    external: u64,
) -> (u64, u64) {
    let mut out = answer();
    held.put(
        1000,
        0,
        0,
        key,
        b"",
        head,
        body,
        1,
        &outside(external),
        &mut out,
    );
    (out.status, out.evicted)
}

pub(crate) fn put(held: &mut TierHandle, key: &[u8], body: &[u8], external: u64) -> u64 {
    put_whole(held, key, HEAD, body, external).0
}

pub(crate) fn open(held: &mut TierHandle, id: u64, lock: u64) -> u64 {
    let mut out = answer();
    held.open(id, lock, 0, b"/a", b"", &mut out);
    out.status
}

pub(crate) fn look(held: &mut TierHandle, seconds: u64, id: u64) -> (u64, u64) {
    let mut out = answer();
    held.look_up(seconds, 0, id, &mut out);
    (out.status, out.permit)
}

pub(crate) fn begin_with(held: &mut TierHandle, id: u64, head: &[u8], external: u64) -> u64 {
    let mut out = answer();
    held.begin(1000, 0, id, head, 1, &outside(external), &mut out);
    out.status
}

pub(crate) fn begin(held: &mut TierHandle, id: u64, external: u64) -> u64 {
    begin_with(held, id, HEAD, external)
}

// Renews what is stale, by the head and what is given of it.
pub(crate) fn renew(held: &mut TierHandle, id: u64, head: &[u8]) -> u64 {
    let mut out = answer();
    held.revalidate(3000, 0, id, head, 1, &meta(4000), &mut out);
    out.status
}

pub(crate) fn piece(held: &mut TierHandle, id: u64, bytes: &[u8], last: u64) -> u64 {
    let mut out = answer();
    held.piece(id, last, bytes, &mut out);
    out.status
}

pub(crate) fn give_up(held: &mut TierHandle, id: u64) -> u64 {
    let mut out = answer();
    held.give_up(id, &mut out);
    out.status
}

pub(crate) fn finish(held: &mut TierHandle, id: u64) -> (u64, u64) {
    let mut out = answer();
    held.finish(id, &mut out);
    (out.status, out.number)
}

pub(crate) fn poll(held: &mut TierHandle, seconds: u64, id: u64) -> (u64, u64) {
    let mut out = answer();
    held.poll(seconds, 0, id, &mut out);
    (out.status, out.number)
}

// Reads what came, and says whether all came where that is the end.
pub(crate) fn read(held: &mut TierHandle, id: u64) -> (u64, u64) {
    let mut out = found();
    release(held.read(id, &mut out));
    (out.answer.status, out.answer.complete)
}

pub(crate) fn drop_request(held: &mut TierHandle, id: u64) {
    let mut out = answer();
    held.drop_request(id, &mut out);
}

// The sum of the weights, and how many entries there are.
pub(crate) fn weight(held: &mut TierHandle) -> (u64, u64) {
    let mut out = answer();
    held.weight(&mut out);
    (out.number, out.second)
}
