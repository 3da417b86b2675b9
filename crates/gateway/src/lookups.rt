//! What a request finds: looked up, and what its row says.
ghost use Rattle.std.specs.Prelude.{◌≡◌, true, false, is_some, OnOk, OnErr};
ghost use Rattle.gateway_steps.specs.Phases.{is_undecided};
ghost use Rattle.gateway.specs.Looks.{StandsAtFirst};

use crate::acts::seek_again;
use crate::asking::pass;
use crate::sharing::share_or_act;
use crate::verdicts::{permit_seen, verdict_of};
use cache_words::key::hash_key;
use gateway_exchanges::exchange::Exchange;
use gateway_exchanges::outs::Out;
use gateway_rules::moments::Moment;
use gateway_rules::values::{PASS, TOO_BUSY};
use gateway_sides::client_side::generate;
use gateway_state::state::Gateway;
use gateway_tier::at_tier::let_go;
use gateway_tier::vary::seek_place;
use gateway_types::looks::LookVerdict;
use rules_ffi_arguments::bad::Bad;
use std::alloc::AllocError;

// The plan of a request that the gateway answers itself.
const RESPOND: u64 = 3;

/// A request begins.
pub fn begin_exchange(
    g: &mut Gateway,
    e: &mut Exchange,
    now: Moment,
    out: &mut Out,
) -> Result<(), Bad>
    requires undecided { is_undecided e.old.steps.state ≡ true }
    requires without { is_some e.old.steps.state.tier.permit ≡ false }
    ensures { OnOk result (is_undecided e.new.steps.state ≡ false) }
{
    let (code, reason) = (e.request.shape.refusal, e.request.shape.reason);
    if e.request.is_rejected() {
        return generate(g, e, code, reason, now, out);
    }
    if g.table.len() as u64 > g.limits.max_exchanges {
        return generate(g, e, 503, TOO_BUSY, now, out);
    }
    match e.request.shape.plan {
        RESPOND => generate(g, e, code, reason, now, out),
        PASS => pass(g, e, reason, now, out),
        _ => {
            stand_at_first(g, e)?;
            look_up(g, e, now, out)
        }
    }
}

// It stands at its first key, under which it looks first.
fn stand_at_first(g: &mut Gateway, e: &mut Exchange) -> Result<(), AllocError>
    ensures ok { OnOk result (StandsAtFirst g.old e.old g.new e.new) }
    ensures err { OnErr result ((g.new ≡ g.old) × (e.new ≡ e.old)) }
{
    let first = hash_key(e.request.key());
    g.table.join_key(e.x, &first)?;
    e.first = Some(first);
    e.key = Some(first);
    Ok(())
}

/// Looks up where what it asks for stands, and does what the table says.
pub fn look_up(g: &mut Gateway, e: &mut Exchange, now: Moment, out: &mut Out) -> Result<(), Bad>
    requires undecided { is_undecided e.old.steps.state ≡ true }
    requires without { is_some e.old.steps.state.tier.permit ≡ false }
    ensures { OnOk result (is_undecided e.new.steps.state ≡ false) }
{
    let mut look = seek_place(g, e, now, out)?;
    look.permit = permit_seen(e, look.permit);
    let verdict = verdict_of(g, e, &look, false, now)?;
    if !matches!(verdict.does, LookVerdict::LookPast) {
        return share_or_act(g, e, verdict, look, false, now, out);
    }
    look_past(g, e, now, out)
}

// The tier calls it fresh: a look-up without the permit, at which nothing is.
fn look_past(g: &mut Gateway, e: &mut Exchange, now: Moment, out: &mut Out) -> Result<(), Bad>
    requires { is_undecided e.old.steps.state ≡ true }
    ensures { OnOk result (is_undecided e.new.steps.state ≡ false) }
{
    let_go(g, e, out)?;
    let mut look = seek_again(g, e, true, now, out)?;
    look.permit = permit_seen(e, look.permit);
    let verdict = verdict_of(g, e, &look, true, now)?;
    share_or_act(g, e, verdict, look, true, now, out)
}
