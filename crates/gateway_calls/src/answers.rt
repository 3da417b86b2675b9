//! What a call answers, as words, beside what keeps the bytes that it lends.

ghost use Rattle.gateway_calls.specs.Told.{IsTold};

use crate::numbers::{of_client, of_origin, of_status};
use crate::structs::{OutShown, lent};
use gateway_exchanges::outs::Out;
use rules_ffi_arguments::shapes::Moment;

/// What a call answered: it keeps the bytes that are lent, whatever becomes of the gateway.
#[derive(Drop)]
pub struct HeldOut {
    pub(crate) out: Out,
}

const NO_MOMENT: Moment = Moment {
    seconds: 0,
    nanoseconds: 0,
};

/// The words of an answer.
pub(crate) fn shown(out: &Out) -> OutShown
    ensures { IsTold out.now result }
{
    OutShown {
        status: of_status(out.status),
        exchange: out.exchange,
        used: out.used,
        client: of_client(out.client),
        origin: of_origin(out.origin),
        body_follows: u64::from(out.body_follows),
        last: u64::from(out.last),
        found: u64::from(out.found),
        timed: u64::from(out.at.is_some()),
        at: out.at.unwrap_or(NO_MOMENT),
        to_origin: lent(out.to_origin.as_slice()),
        pieces: out.pieces.len() as u64,
        wakes: out.wakes.len() as u64,
        evicted: out.evicted.len() as u64,
        purges: out.purges.len() as u64,
        events: out.events.len() as u64,
        reserved: [0; 4],
    }
}

/// Lets go of what a call answered. Any thread may do so.
pub fn free_out(held: HeldOut) {
    let _freed = held;
}
