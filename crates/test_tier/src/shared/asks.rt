//! Events at second 7 over keys of one byte, and a tier to share.
use bytes::Bytes;
use cache_words::key::CacheKey;
use cache_words::time::Moment;
use std::alloc::Global;
use tier_model::event::{Action, Event, Pieces};

const HEAD: &[u8] = b"HTTP/1.1 200 OK\r\nCache-Control: max-age=100\r\n\r\nxx";

// What is asked: of which request, and of which key.
#[derive(Clone, Copy)]
pub(crate) enum Ask {
    Open(u64, u8),
    Look(u64),
    // A body of two bytes that is fresh for 100 seconds.
    Put(u8),
}

pub(crate) fn key(alloc: Global, name: u8) -> Option<CacheKey> {
    let primary = Vec::from_slice(alloc, &[name]).ok()?;
    Some(CacheKey::new(primary, String::new(alloc)))
}

fn action(alloc: Global, ask: Ask) -> Option<Action> {
    match ask {
        Ask::Open(request, name) => {
            let key = key(alloc, name)?;
            Some(Action::Open {
                request,
                key,
                lock: false,
            })
        }
        Ask::Look(request) => Some(Action::LookUp { request }),
        Ask::Put(name) => {
            let key = key(alloc, name)?;
            let pieces = vec![in alloc; Bytes::from_static(HEAD)].ok()?;
            let pieces = Pieces::from_vec(pieces);
            Some(Action::put(key, pieces))
        }
    }
}

// `None` where memory is refused.
pub(crate) fn event(alloc: Global, ask: Ask) -> Option<Event> {
    let moment = Moment::from_seconds(7);
    let action = action(alloc, ask)?;
    Some(Event { moment, action })
}
