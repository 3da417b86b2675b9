//! Readers.
use crate::answer::{Answer, DONE, NONE, REFUSED};
use crate::text::Text;
use cache_store::storage::{HandleHit, ReadStep, Storage};
use request_cache::HttpCache;
use request_store::CacheParts;
use std::str;

// Appends what a step of reading gives.
fn push_step<S: Storage>(hit: &mut S::Hit, store: &mut S, text: &mut Text) {
    match hit.read_body(store) {
        Ok(ReadStep::Bytes(bytes)) => text.push(str::from_utf8(bytes.as_slice()).unwrap_or("?")),
        Ok(ReadStep::Pending) => text.push("pending"),
        Ok(ReadStep::End) => text.push("end"),
        Err(_) => text.push("fault"),
    }
}

/// Appends what a step of reading gives by the reader of the response that was found, in its place, or of the one that is being stored.
pub fn push_read<S: Storage, E, P, L, A>(
    request: &mut HttpCache<S>,
    parts: &mut CacheParts<S, E, P, L, A>,
    back: bool,
    text: &mut Text,
) {
    if back {
        match request.miss_body_reader(&parts.store) {
            Some(hit) => push_step(hit, &mut parts.store, text),
            None => text.push_answer(NONE),
        }
    } else if request.phase().has_reader_phase() && request.has_reader() {
        push_step(request.hit_handler(), &mut parts.store, text)
    } else {
        text.push_answer(REFUSED)
    }
}

/// Takes the reader or the writer out, and puts it in again.
pub fn moved<S: Storage>(request: &mut HttpCache<S>, writer: bool) -> Answer {
    if request.phase().is_disabled() {
        return REFUSED;
    }
    if writer {
        match request.take_writer() {
            Some(miss) => request.put_writer(miss),
            None => return NONE,
        }
    } else {
        match request.take_reader() {
            Some(hit) => request.put_reader(hit),
            None => return NONE,
        }
    }
    DONE
}
