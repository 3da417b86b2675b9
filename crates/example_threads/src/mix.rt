//! What each thread asks, call by call: a mix such as a proxy's.
//!
//! Rounds of 21 calls: a put of a body of 100 bytes under the next of the thread's 1,000 keys, in turn; then four requests for keys that the
//! thread has put before, each with a number of its own, of five calls: open, look, read the body, read its end, drop. So each look-up
//! finds. All events are of one moment.
ghost use Rattle.example_threads.specs.Asks.{IsOf};

use cache_tier::{Action, Bytes, CacheKey, Event, Moment, Pieces};
use std::alloc::{AllocError, Global};

// How many keys a thread has.
const KEYS: u64 = 1000;

// How many calls a round has.
const ROUND: u64 = 21;

// A whole response: a body of 100 bytes, fresh for a day.
const RESPONSE: &[u8] =
    b"HTTP/1.1 200 OK\r\nCache-Control: max-age=86400\r\nContent-Length: 100\r\n\r\n\
    0123456789012345678901234567890123456789012345678901234567890123456789012345678901234567890123456789";

/// What is asked: of which request, and of which key.
#[derive(Clone, Copy)]
pub enum Ask {
    Put { key: u64 },
    Open { request: u64, key: u64 },
    LookUp { request: u64 },
    Read { request: u64 },
    Drop { request: u64 },
}

/// Returns what a thread asks in its call of that number. Its requests and keys are the thread's own.
pub fn asked(thread: u32, call: u32) -> Ask
    ensures { IsOf thread result }
{
    let round = u64::from(call) / ROUND;
    let place = u64::from(call) % ROUND;
    let first_key = u64::from(thread) * KEYS;
    if place == 0 {
        return Ask::Put {
            key: first_key + round % KEYS,
        };
    }
    let turn = (place - 1) / 5;
    let request = u64::from(thread) * 4294967296 + round * 4 + turn;
    match (place - 1) % 5 {
        0 => {
            // One of the keys that were put before.
            let key = first_key + (round * 7 + turn * 251) % (round + 1).min(KEYS);
            Ask::Open { request, key }
        }
        1 => Ask::LookUp { request },
        4 => Ask::Drop { request },
        _ => Ask::Read { request },
    }
}

fn key_of(alloc: Global, number: u64) -> Result<CacheKey, AllocError> {
    let primary = Vec::from_slice(alloc, &number.to_be_bytes())?;
    Ok(CacheKey::new(primary, String::new(alloc)))
}

// The response in memory of its own, as a proxy has it from its origin.
fn fetched(alloc: Global) -> Result<Pieces, AllocError> {
    let response = Vec::from_slice(alloc, RESPONSE)?;
    let Ok(response) = Bytes::from_vec(response) else {
        return Err(AllocError);
    };
    let pieces = vec![in alloc; response]?;
    Ok(Pieces::from_vec(pieces))
}

fn action(alloc: Global, ask: Ask) -> Result<Action, AllocError> {
    match ask {
        Ask::Put { key } => {
            let key = key_of(alloc, key)?;
            let pieces = fetched(alloc)?;
            Ok(Action::put(key, pieces))
        }
        Ask::Open { request, key } => {
            let key = key_of(alloc, key)?;
            Ok(Action::Open {
                request,
                key,
                lock: false,
            })
        }
        Ask::LookUp { request } => Ok(Action::LookUp { request }),
        Ask::Read { request } => Ok(Action::Read { request }),
        Ask::Drop { request } => Ok(Action::Drop { request }),
    }
}

/// Returns the event that asks this.
pub fn event(alloc: Global, ask: Ask) -> Result<Event, AllocError> {
    let moment = Moment::from_seconds(1000);
    let action = action(alloc, ask)?;
    Ok(Event { moment, action })
}
