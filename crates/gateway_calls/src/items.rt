//! The items of the lists that a call answered.

ghost use Rattle.std.specs.Prelude.{◌≡◌};

use crate::answers::HeldOut;
use crate::numbers::{BAD_CALL, NOTHING_SHOWN, SHOWN, of_fetch, of_reuse};
use crate::structs::{ItemShown, LentBytes, lent, nothing};
use cache_words::key::HashBinary;
use gateway_exchanges::outs::{Event, Out, Piece};

/// The lists.
pub const PIECES: u64 = 0;

pub const WAKES: u64 = 1;

pub const EVICTED: u64 = 2;

pub const PURGES: u64 = 3;

pub const EVENTS: u64 = 4;

fn blank(status: u64) -> ItemShown {
    item(status, 0, 0, 0, nothing())
}

fn item(status: u64, number: u64, first: u64, second: u64, bytes: LentBytes) -> ItemShown {
    ItemShown {
        status,
        number,
        first,
        second,
        bytes,
        reserved: [0; 2],
    }
}

fn of_bytes(bytes: &[u8]) -> ItemShown {
    item(SHOWN, 0, 0, 0, lent(bytes))
}

fn piece(piece: &Piece) -> ItemShown {
    match piece {
        Piece::Text(text) => of_bytes(text.as_slice()),
        Piece::Shared(bytes) => of_bytes(bytes.as_slice()),
    }
}

// What was done, with two numbers of it.
fn done(number: u64, first: u64, second: u64) -> ItemShown {
    item(SHOWN, number, first, second, nothing())
}

fn at_key(number: u64, key: &HashBinary) -> ItemShown {
    item(SHOWN, number, 0, 0, lent(key))
}

fn key_of(key: &Option<HashBinary>) -> LentBytes {
    match key {
        Some(key) => lent(key),
        None => nothing(),
    }
}

fn event(event: &Event) -> ItemShown {
    match event {
        Event::Requested { fetch, key, leads } => item(
            SHOWN,
            1,
            of_fetch(*fetch),
            u64::from(*leads),
            key_of(key),
        ),
        Event::Hit(reuse) => done(2, of_reuse(*reuse), 0),
        Event::Waiting => done(3, 0, 0),
        Event::Collapsed(reuse) => done(4, of_reuse(*reuse), 0),
        Event::StaleOnError => done(5, 0, 0),
        Event::Stored(key) => at_key(6, key),
        Event::Completed(key) => at_key(7, key),
        Event::Truncated => done(8, 0, 0),
        Event::Relayed(code) => done(9, *code, 0),
        Event::Revalidated => done(10, 0, 0),
        Event::Freshened(key) => at_key(11, key),
        Event::Generated(code, reason) => done(12, *code, *reason),
        Event::Purged(key) => at_key(13, key),
        Event::VaryIndex(key) => at_key(14, key),
        Event::PurgedAll => done(15, 0, 0),
    }
}

fn shown(out: &Out, list: u64, place: usize) -> Option<ItemShown> {
    match list {
        PIECES => match out.pieces.as_slice().get(place) {
            Some(it) => Some(piece(it)),
            None => None,
        },
        WAKES => match out.wakes.as_slice().get(place) {
            Some(x) => Some(done(*x, 0, 0)),
            None => None,
        },
        EVICTED => match out.evicted.as_slice().get(place) {
            Some(key) => Some(of_bytes(key)),
            None => None,
        },
        PURGES => match out.purges.as_slice().get(place) {
            Some(key) => Some(of_bytes(key.as_slice())),
            None => None,
        },
        EVENTS => match out.events.as_slice().get(place) {
            Some(it) => Some(event(it)),
            None => None,
        },
        _ => None,
    }
}

impl HeldOut {
    /// Lends an item of a list: what its bytes are stays until the answer is freed.
    pub fn item(&mut self, list: u64, place: u64, out: &mut ItemShown)
        ensures { self.new ≡ self.old }
    {
        *out = match usize::try_from(place) {
            Ok(place) if list <= EVENTS => match shown(&self.out, list, place) {
                Some(item) => item,
                None => blank(NOTHING_SHOWN),
            },
            Ok(_) => blank(BAD_CALL),
            Err(_) => blank(NOTHING_SHOWN),
        };
    }
}
