//! Events at second 7 over keys of one byte. Each function gives `None` where memory is refused.
use bytes::Bytes;
use cache_words::key::CacheKey;
use cache_words::time::Moment;
use std::alloc::Global;
use tier_model::event::{Action, Event, Pieces};

const HEAD: &[u8] = b"HTTP/1.1 200 OK\r\nCache-Control: max-age=100\r\n\r\n";

const STALE_HEAD: &[u8] = b"HTTP/1.1 200 OK\r\nCache-Control: no-cache\r\n\r\n";

const CONFIRMING_HEAD: &[u8] = b"HTTP/1.1 304 Not Modified\r\nCache-Control: max-age=100\r\n\r\n";

// With a tag of 250 bytes, which weighs 258.
const LONG_HEAD: &[u8] =
    b"HTTP/1.1 304 Not Modified\r\nCache-Control: max-age=100\r\nETag: 012345678901234567890123456\
        789012345678901234567890123456789012345678901234567890123456789012345678901234567890123456\
        789012345678901234567890123456789012345678901234567890123456789012345678901234567890123456\
        7890123456789012345678901234567890123456789\r\n\r\n";

// What is asked.
#[derive(Clone, Copy)]
pub(crate) enum Ask {
    Open(u64, u8),
    // The same, with look-ups that ask for the permit to write.
    OpenLocked(u64, u8),
    // The same as the first, under the user tag `b`. All else is under the empty one.
    OpenTagged(u64, u8),
    Look(u64),
    Poll(u64),
    // A write of what is fresh for 100 seconds.
    Begin(u64),
    // What was found is fresh for 100 seconds.
    Revalidate(u64),
    // The same with a head that weighs 258 more.
    RevalidateLong(u64),
    Piece(u64, &'static [u8]),
    Finish(u64),
    Read(u64),
    Drop(u64),
    Purge(u8),
    // The same under the user tag `b`.
    PurgeTagged(u8),
    // A body that is fresh for 100 seconds.
    Put(u8, &'static [u8]),
    // A body that is stale at once.
    PutStale(u8, &'static [u8]),
}

pub(crate) fn key(alloc: Global, name: u8) -> Option<CacheKey> {
    tagged_key(alloc, name, "")
}

fn tagged_key(alloc: Global, name: u8, tag: &str) -> Option<CacheKey> {
    let tag = String::from_str(alloc, tag).ok()?;
    match Vec::from_slice(alloc, &[name]) {
        Ok(primary) => Some(CacheKey::new(primary, tag)),
        Err(_) => None,
    }
}

fn put(alloc: Global, name: u8, head: &'static [u8], body: &'static [u8]) -> Option<Action> {
    let key = key(alloc, name)?;
    let pieces = vec![in alloc; Bytes::from_static(head), Bytes::from_static(body)].ok()?;
    let pieces = Pieces::from_vec(pieces);
    Some(Action::put(key, pieces))
}

fn action(alloc: Global, ask: Ask) -> Option<Action> {
    match ask {
        Ask::Open(request, name) => Some(Action::Open {
            request,
            key: key(alloc, name)?,
            lock: false,
        }),
        Ask::OpenLocked(request, name) => Some(Action::Open {
            request,
            key: key(alloc, name)?,
            lock: true,
        }),
        Ask::OpenTagged(request, name) => Some(Action::Open {
            request,
            key: tagged_key(alloc, name, "b")?,
            lock: false,
        }),
        Ask::Look(request) => Some(Action::LookUp { request }),
        Ask::Poll(request) => Some(Action::Poll { request }),
        Ask::Begin(request) => Some(Action::begin(request, Bytes::from_static(HEAD))),
        Ask::Revalidate(request) => Some(Action::revalidate(
            request,
            Bytes::from_static(CONFIRMING_HEAD),
        )),
        Ask::RevalidateLong(request) => Some(Action::revalidate(
            request,
            Bytes::from_static(LONG_HEAD),
        )),
        Ask::Piece(request, bytes) => Some(Action::Piece {
            request,
            bytes: Bytes::from_static(bytes),
            end: false,
        }),
        Ask::Finish(request) => Some(Action::Finish { request }),
        Ask::Read(request) => Some(Action::Read { request }),
        Ask::Drop(request) => Some(Action::Drop { request }),
        Ask::Purge(name) => Some(Action::Purge {
            key: key(alloc, name)?,
        }),
        Ask::PurgeTagged(name) => Some(Action::Purge {
            key: tagged_key(alloc, name, "b")?,
        }),
        Ask::Put(name, body) => put(alloc, name, HEAD, body),
        Ask::PutStale(name, body) => put(alloc, name, STALE_HEAD, body),
    }
}

pub(crate) fn event(alloc: Global, ask: Ask) -> Option<Event> {
    let action = action(alloc, ask)?;
    Some(Event {
        moment: Moment::from_seconds(7),
        action,
    })
}
