//! The numbers of what calls are given and answer.

ghost use Rattle.std.specs.Prelude.{◌≡◌};
ghost use Rattle.gateway_calls.specs.Numbers.{status_number, client_number, origin_number, fetch_number, reuse_number, why_in};

use gateway_exchanges::outs::{ClientEnd, OriginAction, Status};
use gateway_types::bodies::Why;
use gateway_types::looks::Reuse;
use gateway_types::states::Fetch;

/// How calls end. Below 32 one was refused.
pub const READY: u64 = 0;

pub const WRONG_PHASE: u64 = 3;

pub const MEMORY: u64 = 13;

pub const BAD_CALL: u64 = 20;

/// There is no such item.
pub const NOTHING_SHOWN: u64 = 22;

pub const NO_EXCHANGE: u64 = 25;

pub const SHOWN: u64 = 49;

pub const DONE: u64 = 80;

pub const MORE: u64 = 81;

pub const BLOCKED: u64 = 82;

/// The number of a status.
pub(crate) fn of_status(status: Status) -> u64
    ensures { result ≡ status_number status }
{
    match status {
        Status::Done => DONE,
        Status::More => MORE,
        Status::Blocked => BLOCKED,
        Status::NoExchange => NO_EXCHANGE,
        Status::WrongPhase => WRONG_PHASE,
        Status::BadArgument => BAD_CALL,
        Status::Memory => MEMORY,
    }
}

/// The number of what comes behind the pieces.
pub(crate) fn of_client(client: ClientEnd) -> u64
    ensures { result ≡ client_number client }
{
    match client {
        ClientEnd::Nothing => 0,
        ClientEnd::Wait => 1,
        ClientEnd::End => 2,
        ClientEnd::Close => 3,
        ClientEnd::Truncated => 4,
    }
}

/// The number of what is to be done on the origin's connection.
pub(crate) fn of_origin(origin: OriginAction) -> u64
    ensures { result ≡ origin_number origin }
{
    match origin {
        OriginAction::Nothing => 0,
        OriginAction::SendRequest => 1,
        OriginAction::SendData => 2,
        OriginAction::ReceiveBody => 3,
        OriginAction::Continue => 4,
        OriginAction::Reusable => 5,
        OriginAction::CloseOrigin => 6,
    }
}

/// The number of what is asked.
pub(crate) fn of_fetch(fetch: Fetch) -> u64
    ensures { result ≡ fetch_number fetch }
{
    match fetch {
        Fetch::Pass => 1,
        Fetch::Full => 2,
        Fetch::Conditional => 3,
        Fetch::Unconditional => 4,
        Fetch::Unstored => 5,
    }
}

/// The number of how what is stored answers.
pub(crate) fn of_reuse(reuse: Reuse) -> u64
    ensures { result ≡ reuse_number reuse }
{
    match reuse {
        Reuse::Fresh => 1,
        Reuse::Stale => 2,
        Reuse::WhileRevalidating => 3,
        Reuse::AfterValidation => 4,
        Reuse::Bypass => 5,
    }
}

/// How a connection ended.
pub(crate) fn why_of(number: u64) -> Option<Why>
    ensures { result ≡ why_in number }
{
    match number {
        1 => Some(Why::Clean),
        2 => Some(Why::Failed),
        3 => Some(Why::Timeout),
        4 => Some(Why::Unused),
        _ => None,
    }
}
