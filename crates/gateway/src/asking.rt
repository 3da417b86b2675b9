//! What a request asks of the origin: itself as it is, what isn't there, or whether what is there is still right.
ghost use Rattle.std.specs.Prelude.{◌≡◌, true, false, OnOk};
ghost use Rattle.rules_ffi_arguments.specs.Moments.{nanoseconds_of};
ghost use Rattle.gateway_steps.specs.Phases.{is_undecided};
ghost use Rattle.gateway_steps.specs.Sides.{capped_sum};
ghost use Rattle.gateway.specs.Acts.{IsAsked};
ghost use Rattle.gateway.specs.Asks.{cause_of, is_about, NotesFound};

use bytes::Bytes;
use gateway_exchanges::exchange::Exchange;
use gateway_exchanges::found::Look;
use gateway_exchanges::outs::Out;
use gateway_rules::moments::Moment;
use gateway_rules::values::{REQUEST, STALE, URI_MISS, VARY_MISS};
use gateway_sides::origin_side::send_request;
use gateway_state::state::Gateway;
use gateway_types::states::Fetch;
use rules_ffi_arguments::bad::Bad;

const CONTINUE_100: &[u8] = b"HTTP/1.1 100 Continue\r\n\r\n";

// It goes to the origin as it is, for that reason.
pub(crate) fn pass(
    g: &mut Gateway,
    e: &mut Exchange,
    reason: u64,
    now: Moment,
    out: &mut Out,
) -> Result<(), Bad>
    requires { is_undecided e.old.steps.state ≡ true }
    ensures asked { OnOk result (IsAsked (nanoseconds_of now) (capped_sum g.old.sequence 1) e.old.steps.state e.new.steps.state) }
    ensures decided { OnOk result (is_undecided e.new.steps.state ≡ false) }
{
    if e.request.expects_continue() && e.taking.is_some() {
        e.answer.buffer.extend_from_slice(CONTINUE_100)?;
        out.wake(e.x)?;
    }
    e.asks.reason = reason;
    forget_found(e);
    send_request(g, e, Fetch::Pass, false, now, out)
}

fn forget_found(e: &mut Exchange)
    ensures { e.new ≡ record e.old { asks = e.new.asks } }
{
    e.asks.found = None;
    e.asks.has_old = false;
    e.asks.old_body = Bytes::new();
}

// Asks the origin for what isn't there, or about what is there.
pub(crate) fn ask_origin(
    g: &mut Gateway,
    e: &mut Exchange,
    fetch: Fetch,
    look: Look,
    past: bool,
    behind: bool,
    now: Moment,
    out: &mut Out,
) -> Result<(), Bad>
    requires { is_undecided e.old.steps.state ≡ true }
    ensures asked { OnOk result (IsAsked (nanoseconds_of now) (capped_sum g.old.sequence 1) e.old.steps.state e.new.steps.state) }
    ensures noted { OnOk result (NotesFound fetch look past e.old e.new) }
    ensures decided { OnOk result (is_undecided e.new.steps.state ≡ false) }
{
    note_found(e, fetch, look, past);
    send_request(g, e, fetch, behind, now, out)
}

// What stands where it looked, and by that why the origin is asked.
fn note_found(e: &mut Exchange, fetch: Fetch, look: Look, past: bool)
    ensures noted { NotesFound fetch look past e.old e.new }
    ensures rest { e.new ≡ record e.old { asks = e.new.asks } }
{
    let is_about = is_about(fetch);
    let has_old = is_about && look.found.is_some();
    e.asks.cause = cause_of(has_old, past, !e.index.is_empty());
    e.asks.has_old = has_old;
    e.asks.found = look.found;
    e.asks.found_key = e.key;
    e.asks.old_body = if is_about { look.body } else { Bytes::new() };
}

// Whether it is asked if what is there is still right.
fn is_about(fetch: Fetch) -> bool
    ensures { result ≡ is_about fetch }
{
    matches!(fetch, Fetch::Conditional)
}

// Why the origin is asked: the request wants it, what is there is stale, none of what is there fits, or nothing is (RFC 9211, 2.2).
fn cause_of(has_old: bool, past: bool, has_index: bool) -> u64
    ensures { result ≡ cause_of has_old past has_index }
{
    match (has_old, past, has_index) {
        (true, true, _) => REQUEST,
        (true, false, _) => STALE,
        (false, _, true) => VARY_MISS,
        (false, _, false) => URI_MISS,
    }
}
