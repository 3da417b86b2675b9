//! The calls of a gateway: each takes an exchange out of the table, does what is due, and puts it back or forgets it.
ghost use Rattle.std.specs.Prelude.{◌≡◌, ◌||◌, true, false, IfOk, OnOk, OnErr, None, is_some};
ghost use Rattle.rules_ffi_arguments.specs.Given.{Gives};
ghost use Rattle.rules_ffi_arguments.specs.Moments.{is_moment};
ghost use Rattle.gateway_rules.specs.Options.{options_of};
ghost use Rattle.gateway_rules.specs.Requests.{parsed_in, parsed_of};
ghost use Rattle.gateway_steps.specs.Phases.{is_undecided};
ghost use Rattle.gateway_rules.specs.Values.{is_rejected, request_of};
ghost use Rattle.gateway_exchanges.specs.Replies.{reply_of};
ghost use Rattle.gateway_exchanges.specs.Tables.{exchange_at, with_place};
ghost use Rattle.gateway.specs.Calls.{refusal_of, IsRefused, RefusesBy};

use crate::calling::{answer, done, finish_call, take_exchange};
use crate::purges::note_moment;
pub use crate::purges::{purge, purge_all, purge_key};
use crate::requested::{start_exchange, take_request_body};
use crate::responded::{take_body, take_head};
use crate::sending::{abandon, leave, poll_exchange};
use gateway_exchanges::exchange::Exchange;
use gateway_exchanges::outs::{Out, Status};
use gateway_responses::closing::close_origin_side;
use gateway_rules::moments::{Moment, is_moment};
use gateway_rules::requests::ParsedRequest;
use gateway_rules::values::RequestHead;
use gateway_state::state::Gateway;
use gateway_steps::state::Call;
use gateway_types::bodies::Why;
use rules_ffi_arguments::bad::Bad;
use std::alloc::AllocError;

/// The head of the next request, also of one that is refused. `looked`: so many of these bytes were given before.
pub fn parse_request(g: &Gateway, bytes: &[u8], looked: u64) -> Result<ParsedRequest, Bad>
    ensures { Gives parsed_of result (parsed_in (options_of g.now.rules) bytes.now looked) }
{
    g.rules.parse_request(bytes, looked)
}

/// A request begins: an answer, a wait, or a request to the origin. Its first `poll` is in it: a hit is this one call.
pub fn start(g: &mut Gateway, now: Moment, request: RequestHead, peer: &[u8]) -> Out
    ensures refused { is_moment now.seconds now.nanoseconds ≡ false → IsRefused Status.BadArgument 0 g.old g.new result }
    ensures unchanged { (reply_of result).exchange ≡ 0 → g.new ≡ g.old }
{
    if !is_moment(now) {
        return answer(g, 0, Status::BadArgument);
    }
    let x = g.number.saturating_add(1);
    let Ok(mut e) = make_exchange(g, x, request, peer) else {
        return answer(g, 0, Status::Memory);
    };
    g.number = x;
    note_moment(g, now);
    let mut out = Out::new(g.alloc, Status::Done);
    out.used = e.request.head_len();
    let outcome = done(start_exchange(g, &mut e, now, &mut out));
    if outcome.is_err() {
        abandon(g, &mut e, now, &mut out);
    }
    out.exchange = x;
    finish_call(g, e, now, outcome, true, out)
}

// A place in the table, and an exchange for it.
fn make_exchange(
    g: &mut Gateway,
    x: u64,
    request: RequestHead,
    peer: &[u8],
) -> Result<Box<Exchange>, AllocError>
    ensures undecided { IfOk result (λ e. is_undecided e.value.steps.state ≡ true) }
    ensures closes { IfOk result (λ e. e.value.steps.state.client.closes ≡ (g.old.stopping || is_rejected (request_of request))) }
    ensures without { IfOk result (λ e. is_some e.value.steps.state.tier.permit ≡ false) }
    ensures place { OnOk result (g.new ≡ record g.old { table = with_place x None g.old.table }) }
    ensures unchanged { OnErr result (g.new ≡ g.old) }
{
    let peer = Vec::from_slice(g.alloc, peer)?;
    let taking = if !request.is_rejected() && request.has_body() {
        Some(g.rules.decoder(request.shape.framing, request.shape.length))
    } else {
        None
    };
    let mut e = Exchange::new(g.alloc, x, request, taking, peer);
    if g.stopping {
        e.steps.close_behind();
    }
    let e = Box::new(g.alloc, e)?;
    g.table.reserve(x)?;
    Ok(e)
}

/// Bytes of the request's body, as they came on the connection.
pub fn request_data(g: &mut Gateway, now: Moment, x: u64, bytes: &[u8]) -> Out
    ensures { RefusesBy (refusal_of Call.RequestData now (exchange_at x g.old.table)) x g.old g.new result }
{
    match take_exchange(g, x, now, Call::RequestData) {
        Err(status) => answer(g, x, status),
        Ok(mut e) => {
            let mut out = answer(g, x, Status::Done);
            let outcome = done(take_request_body(g, &mut e, now, bytes, &mut out));
            finish_call(g, e, now, outcome, false, out)
        }
    }
}

/// The bytes that came on the origin's connection, from a response's head on. The first call of a head is its arrival.
pub fn response_head(g: &mut Gateway, now: Moment, x: u64, bytes: &[u8]) -> Out
    ensures { RefusesBy (refusal_of Call.ResponseHead now (exchange_at x g.old.table)) x g.old g.new result }
{
    match take_exchange(g, x, now, Call::ResponseHead) {
        Err(status) => answer(g, x, status),
        Ok(mut e) => {
            note_moment(g, now);
            let mut out = answer(g, x, Status::Done);
            let outcome = take_head(g, &mut e, now, bytes, &mut out);
            finish_call(g, e, now, outcome, false, out)
        }
    }
}

/// Bytes of the response's body, as they came.
pub fn response_data(g: &mut Gateway, now: Moment, x: u64, bytes: &[u8]) -> Out
    ensures { RefusesBy (refusal_of Call.ResponseData now (exchange_at x g.old.table)) x g.old g.new result }
{
    match take_exchange(g, x, now, Call::ResponseData) {
        Err(status) => answer(g, x, status),
        Ok(mut e) => {
            let mut out = answer(g, x, Status::Done);
            let outcome = take_body(g, &mut e, now, bytes, &mut out);
            finish_call(g, e, now, outcome, false, out)
        }
    }
}

/// The origin's connection ended.
pub fn origin_closed(g: &mut Gateway, now: Moment, x: u64, why: Why) -> Out
    ensures { RefusesBy (refusal_of Call.OriginClosed now (exchange_at x g.old.table)) x g.old g.new result }
{
    match take_exchange(g, x, now, Call::OriginClosed) {
        Err(status) => answer(g, x, status),
        Ok(mut e) => {
            let mut out = answer(g, x, Status::Done);
            let outcome = done(close_origin_side(g, &mut e, why, now, &mut out));
            finish_call(g, e, now, outcome, false, out)
        }
    }
}

/// What the client is sent next; and what is due on either side.
pub fn poll(g: &mut Gateway, now: Moment, x: u64) -> Out
    ensures { RefusesBy (refusal_of Call.Poll now (exchange_at x g.old.table)) x g.old g.new result }
{
    match take_exchange(g, x, now, Call::Poll) {
        Err(status) => answer(g, x, status),
        Ok(mut e) => {
            note_moment(g, now);
            let mut out = answer(g, x, Status::Done);
            let outcome = done(poll_exchange(g, &mut e, now, &mut out));
            finish_call(g, e, now, outcome, true, out)
        }
    }
}

/// The client went away.
pub fn client_closed(g: &mut Gateway, now: Moment, x: u64) -> Out
    ensures { RefusesBy (refusal_of Call.ClientClosed now (exchange_at x g.old.table)) x g.old g.new result }
{
    match take_exchange(g, x, now, Call::ClientClosed) {
        Err(status) => answer(g, x, status),
        Ok(mut e) => {
            let mut out = answer(g, x, Status::Done);
            let outcome = done(leave(g, &mut e, now, &mut out));
            finish_call(g, e, now, outcome, false, out)
        }
    }
}

/// From now on each exchange that begins says that its connection ends behind the answer.
pub fn stop(g: &mut Gateway)
    ensures { g.new ≡ record g.old { stopping = true } }
{
    g.stopping = true;
}
