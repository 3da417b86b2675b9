//! An answer as a line of JSON.

use cache_words::key::HashBinary;
use gateway_exchanges::outs::{ClientEnd, Event, OriginAction, Out, Piece, Status};
use gateway_rules::moments::Moment;
use gateway_types::looks::Reuse;
use gateway_types::states::Fetch;
use itoa::Buffer;
use std::alloc::AllocError;

/// A status alone.
pub fn word(to: &mut String, word: &str) -> Result<(), AllocError> {
    to.push_str("{\"status\": \"")?;
    to.push_str(word)?;
    to.push_str("\"}")
}

/// All of an answer.
pub fn shown(to: &mut String, out: &Out) -> Result<(), AllocError> {
    to.push_str("{\"status\": \"")?;
    to.push_str(status(out.status))?;
    to.push_str("\", \"exchange\": ")?;
    add_number(to, out.exchange)?;
    to.push_str(", \"used\": ")?;
    add_number(to, out.used)?;
    to.push_str(", \"client\": \"")?;
    to.push_str(client(out.client))?;
    to.push_str("\", \"data\": \"")?;
    add_pieces(to, out.pieces.as_slice())?;
    to.push_str("\", \"origin\": \"")?;
    to.push_str(origin(out.origin))?;
    to.push_str("\", \"to_origin\": \"")?;
    add_hex(to, out.to_origin.as_slice())?;
    to.push_str("\", \"body_follows\": ")?;
    to.push_str(truth(out.body_follows))?;
    to.push_str(", \"last\": ")?;
    to.push_str(truth(out.last))?;
    to.push_str(", \"found\": ")?;
    to.push_str(truth(out.found))?;
    to.push_str(", \"at\": ")?;
    add_moment(to, out.at)?;
    add_lists(to, out)?;
    to.push_str("}")
}

fn add_lists(to: &mut String, out: &Out) -> Result<(), AllocError> {
    to.push_str(", \"wakes\": [")?;
    for (i, x) in out.wakes.as_slice().iter().enumerate() {
        separate(to, i)?;
        add_number(to, *x)?;
    }
    to.push_str("], \"evicted\": [")?;
    for (i, key) in out.evicted.as_slice().iter().enumerate() {
        separate(to, i)?;
        add_key(to, key)?;
    }
    to.push_str("], \"purges\": [")?;
    for (i, key) in out.purges.as_slice().iter().enumerate() {
        separate(to, i)?;
        to.push('"')?;
        add_hex(to, key.as_slice())?;
        to.push('"')?;
    }
    to.push_str("], \"events\": [")?;
    for (i, event) in out.events.as_slice().iter().enumerate() {
        separate(to, i)?;
        to.push('[')?;
        add_event(to, event)?;
        to.push(']')?;
    }
    to.push_str("]")
}

fn separate(to: &mut String, place: usize) -> Result<(), AllocError> {
    if place == 0 {
        Ok(())
    } else {
        to.push_str(", ")
    }
}

fn add_number(to: &mut String, number: u64) -> Result<(), AllocError> {
    let mut buffer = Buffer::new();
    to.push_str(buffer.format(number))
}

fn truth(holds: bool) -> &'static str {
    if holds { "true" } else { "false" }
}

fn add_moment(to: &mut String, moment: Option<Moment>) -> Result<(), AllocError> {
    match moment {
        None => to.push_str("null"),
        Some(moment) => {
            to.push('[')?;
            add_number(to, moment.seconds)?;
            to.push_str(", ")?;
            add_number(to, moment.nanoseconds)?;
            to.push(']')?;
            Ok(())
        }
    }
}

fn digit(n: u8) -> char {
    if n < 10 {
        (b'0'.wrapping_add(n)) as char
    } else {
        (b'a'.wrapping_add(n.wrapping_sub(10))) as char
    }
}

fn add_hex(to: &mut String, bytes: &[u8]) -> Result<(), AllocError> {
    for b in bytes {
        to.push(digit(*b / 16))?;
        to.push(digit(*b % 16))?;
    }
    Ok(())
}

fn add_pieces(to: &mut String, pieces: &[Piece]) -> Result<(), AllocError> {
    for piece in pieces {
        match piece {
            Piece::Text(text) => add_hex(to, text.as_slice())?,
            Piece::Shared(bytes) => add_hex(to, bytes.as_slice())?,
        }
    }
    Ok(())
}

fn add_key(to: &mut String, key: &HashBinary) -> Result<(), AllocError> {
    to.push('"')?;
    add_hex(to, key)?;
    to.push('"')?;
    Ok(())
}

fn status(status: Status) -> &'static str {
    match status {
        Status::Done => "done",
        Status::More => "more",
        Status::Blocked => "blocked",
        Status::NoExchange => "no_exchange",
        Status::WrongPhase => "wrong_phase",
        Status::BadArgument => "bad_argument",
        Status::Memory => "memory",
    }
}

fn client(client: ClientEnd) -> &'static str {
    match client {
        ClientEnd::Nothing => "nothing",
        ClientEnd::Wait => "wait",
        ClientEnd::End => "end",
        ClientEnd::Close => "close",
        ClientEnd::Truncated => "truncated",
    }
}

fn origin(origin: OriginAction) -> &'static str {
    match origin {
        OriginAction::Nothing => "nothing",
        OriginAction::SendRequest => "send_request",
        OriginAction::SendData => "send_data",
        OriginAction::ReceiveBody => "receive_body",
        OriginAction::Continue => "continue",
        OriginAction::Reusable => "reusable",
        OriginAction::CloseOrigin => "close_origin",
    }
}

fn fetch_name(fetch: Fetch) -> &'static str {
    match fetch {
        Fetch::Pass => "pass",
        Fetch::Unstored => "unstored",
        Fetch::Full => "full",
        Fetch::Conditional => "conditional",
        Fetch::Unconditional => "unconditional",
    }
}

fn reuse_name(reuse: Reuse) -> &'static str {
    match reuse {
        Reuse::Bypass => "bypass",
        Reuse::Fresh => "fresh",
        Reuse::Stale => "stale",
        Reuse::WhileRevalidating => "while-revalidating",
        Reuse::AfterValidation => "after-validation",
    }
}

fn named(to: &mut String, name: &str) -> Result<(), AllocError> {
    to.push('"')?;
    to.push_str(name)?;
    to.push('"')?;
    Ok(())
}

fn of_key(to: &mut String, name: &str, key: &HashBinary) -> Result<(), AllocError> {
    named(to, name)?;
    to.push_str(", ")?;
    add_key(to, key)
}

fn of_name(to: &mut String, name: &str, other: &str) -> Result<(), AllocError> {
    named(to, name)?;
    to.push_str(", ")?;
    named(to, other)
}

fn add_event(to: &mut String, event: &Event) -> Result<(), AllocError> {
    match event {
        Event::Requested { fetch, key, leads } => {
            of_name(to, "requested", fetch_name(*fetch))?;
            to.push_str(", ")?;
            match key {
                Some(key) => add_key(to, key)?,
                None => to.push_str("null")?,
            }
            to.push_str(", ")?;
            to.push_str(truth(*leads))
        }
        Event::Hit(reuse) => of_name(to, "hit", reuse_name(*reuse)),
        Event::Collapsed(reuse) => of_name(to, "collapsed", reuse_name(*reuse)),
        Event::Waiting => named(to, "waiting"),
        Event::StaleOnError => named(to, "stale_on_error"),
        Event::Truncated => named(to, "truncated"),
        Event::Revalidated => named(to, "revalidated"),
        Event::Stored(key) => of_key(to, "stored", key),
        Event::Completed(key) => of_key(to, "completed", key),
        Event::Freshened(key) => of_key(to, "freshened", key),
        Event::Purged(key) => of_key(to, "purged", key),
        Event::VaryIndex(key) => of_key(to, "vary_index", key),
        Event::PurgedAll => named(to, "purged_all"),
        Event::Relayed(status) => {
            named(to, "relayed")?;
            to.push_str(", ")?;
            add_number(to, *status)
        }
        Event::Generated(code, reason) => {
            named(to, "generated")?;
            to.push_str(", ")?;
            add_number(to, *code)?;
            to.push_str(", ")?;
            add_number(to, *reason)
        }
    }
}
