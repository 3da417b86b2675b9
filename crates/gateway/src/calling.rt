//! What each call does besides what it is for: it takes an exchange out of the table, if it is lawful, and puts it back or forgets it.
ghost use Rattle.std.specs.Prelude.{◌≡◌, true, IfOk, IfErr, OnOk, OnErr, None, Some, filter};
ghost use Rattle.gateway_steps.specs.Calls.{is_lawful};
ghost use Rattle.gateway_exchanges.specs.Replies.{blank_reply, reply_of};
ghost use Rattle.gateway_exchanges.specs.Tables.{exchange_at, without_exchange};
ghost use Rattle.gateway.specs.Calls.{refusal_of, is_woken, next_of, table_with, done_of, status_of, due_of, permit_at};

use gateway_exchanges::exchange::Exchange;
use gateway_exchanges::outs::{Out, Status};
use gateway_exchanges::table::Table;
use gateway_rules::moments::{Moment, is_moment, moment_at, nanoseconds_of};
use gateway_state::state::Gateway;
use gateway_steps::state::Call;
use rules_ffi_arguments::bad::Bad;

// An answer about an exchange in which nothing is told yet but how the call ended.
pub(crate) fn answer(g: &Gateway, x: u64, status: Status) -> Out
    ensures { reply_of result ≡ record (blank_reply status) { exchange = x } }
{
    let mut out = Out::new(g.alloc, status);
    out.exchange = x;
    out
}

// Why a call about an exchange is refused, if it is.
fn refusal(g: &Gateway, x: u64, now: Moment, call: Call) -> Option<Status>
    ensures { result ≡ refusal_of call now (exchange_at x g.now.table) }
{
    if !is_moment(now) {
        return Some(Status::BadArgument);
    }
    match g.table.get(x) {
        None => Some(Status::NoExchange),
        Some(e) => {
            if e.steps.is_lawful(call) {
                None
            } else {
                Some(Status::WrongPhase)
            }
        }
    }
}

// Takes an exchange out for a call; where the call isn't lawful nothing changes.
pub(crate) fn take_exchange(
    g: &mut Gateway,
    x: u64,
    now: Moment,
    call: Call,
) -> Result<Box<Exchange>, Status>
    ensures refusal { IfErr result (λ status. refusal_of call now (exchange_at x g.old.table) ≡ Some status) }
    ensures unchanged { OnErr result (g.new ≡ g.old) }
    ensures lawful { OnOk result (refusal_of call now (exchange_at x g.old.table) ≡ None) }
    ensures taken { IfOk result (λ e. exchange_at x g.old.table ≡ Some e.value) }
    ensures may { IfOk result (λ e. is_lawful call e.value.steps.state ≡ true) }
    ensures left { OnOk result (g.new ≡ record g.old { table = without_exchange x g.old.table }) }
{
    if let Some(status) = refusal(g, x, now, call) {
        return Err(status);
    }
    match g.table.take(x) {
        Some(e) => Ok(e),
        None => Err(Status::NoExchange),
    }
}

pub(crate) fn done(outcome: Result<(), Bad>) -> Result<Status, Bad>
    ensures { result ≡ done_of outcome }
{
    match outcome {
        Ok(()) => Ok(Status::Done),
        Err(bad) => Err(bad),
    }
}

// How a call ended.
fn status_of(outcome: &Result<Status, Bad>) -> Status
    ensures { result ≡ status_of outcome.now }
{
    match outcome {
        Ok(status) => *status,
        Err(Bad::Memory) => Status::Memory,
        Err(Bad::Call) => Status::BadArgument,
    }
}

// Puts an exchange back, or forgets it; and what each call says besides: who is woken, and the next moment of either side.
pub(crate) fn finish_call(
    g: &mut Gateway,
    e: Box<Exchange>,
    now: Moment,
    outcome: Result<Status, Bad>,
    is_polled: bool,
    out: Out,
) -> Out
    ensures status { (reply_of result).status ≡ status_of outcome }
    ensures exchange { (reply_of result).exchange ≡ (reply_of out).exchange }
    ensures table { g.new ≡ record g.old { table = table_with e.value g.old.table } }
    ensures at { (reply_of result).at ≡ next_of g.old e.value now (reply_of out).at }
    ensures wakes { (reply_of result).wakes ≡ filter (is_woken is_polled e.value.x g.new.table) (reply_of out).wakes }
{
    let mut out = out;
    out.status = status_of(&outcome);
    let x = e.x;
    if e.steps.is_over() {
        g.table.forget(x, e.first, e.key);
    } else {
        out.at = due(g, &e, now);
        g.table.put_back(e);
    }
    keep_open(&mut out, &g.table, is_polled, x);
    out
}

// Woken are those who are open, but for the one that was polled just now.
fn keep_open(out: &mut Out, table: &Table, is_polled: bool, x: u64)
    ensures { reply_of out.new ≡ record (reply_of out.old) { wakes = filter (is_woken is_polled x table.now) (reply_of out.old).wakes } }
{
    out.wakes
        .retain(|y| table.contains(*y) && !(is_polled && *y == x));
}

// The next moment of either side.
fn due(g: &Gateway, e: &Exchange, now: Moment) -> Option<Moment>
    ensures { result ≡ due_of g.now e.now now }
{
    let permit = match e.steps.state.tier.holder {
        None => None,
        Some(holder) => permit_of(g, holder),
    };
    match e.steps.deadline(&g.timeouts, permit) {
        None => None,
        Some(due) => Some(moment_at(due.max(nanoseconds_of(now)))),
    }
}

// Since when an exchange has its permit.
fn permit_of(g: &Gateway, x: u64) -> Option<u64>
    ensures { result ≡ permit_at g.now x }
{
    match g.table.get(x) {
        None => None,
        Some(e) => e.steps.state.tier.permit,
    }
}
