//! What a gateway does at the tier: looks up, and lets go.
ghost use Rattle.std.specs.Prelude.{◌≡◌, ◌||◌, true, false, is_some, IfOk, OnOk, Some, None, [], MatchBool, if◌then◌else◌};
ghost use Rattle.tier_model.specs.Calls.{Outcome};
ghost use Rattle.tier_model.specs.NoStore.{no_store_head};
ghost use Rattle.gateway_rows.specs.Bodies.{is_awaiting};
ghost use Rattle.gateway_steps.specs.Phases.{is_undecided};
ghost use Rattle.gateway_steps.specs.Questions.{may_hold};
ghost use Rattle.gateway_steps.specs.Sides.{release_of};
ghost use Rattle.gateway_steps.specs.Steps.{lets_go, takes_permit};
ghost use Rattle.gateway_state.specs.AtTier.{TakesAnytime};
ghost use Rattle.gateway_exchanges.specs.Frames.{HasSameButWakes};
ghost use Rattle.rules_ffi_arguments.specs.Moments.{nanoseconds_of};
ghost use Rattle.gateway_exchanges.specs.Replies.{reply_of};
ghost use Rattle.gateway_rules.specs.Moments.{of_tier};
ghost use Rattle.gateway_tier.specs.Looks.{is_too_old, HasSameButRequest};
ghost use Rattle.gateway_tier.specs.Seeks.{IsFound, IsLooked, IsReadIf};
ghost use Rattle.gateway_tier.specs.Notices.{AreTold};
ghost use Rattle.gateway_tier.specs.Releases.{counts_for, flying_with, uncounted, waiters_of, woken_by, woken_by_ends, Releases, GivesUp, TellsNoStore};
ghost use Rattle.gateway_tier.specs.Roles.{in_role, readers_of, with_wakes};

use crate::looks::{body_at, hit_at, is_too_old, lookup_of};
use crate::moving::move_to;
use crate::notices::{Notice, tell_all};
use crate::waking::{Role, wake_all, wake_readers, wake_waiters};
use bytes::Bytes;
use cache_words::key::HashBinary;
use gateway_exchanges::exchange::{Exchange, nanoseconds};
use gateway_exchanges::found::{Look, nothing};
use gateway_exchanges::outs::Out;
use gateway_rules::moments::Moment;
use gateway_state::state::Gateway;
use gateway_steps::state::Released;
use gateway_types::looks::Permit;
use rules_ffi_arguments::bad::Bad;
use std::alloc::AllocError;

// ==== look-ups

/// Looks up under a key, at which the exchange is from then on. What is fresh and whole is a hit, and opens no request. What isn't later than the last
/// purge of all is as nothing.
pub fn seek(
    g: &mut Gateway,
    e: &mut Exchange,
    key: &HashBinary,
    now: Moment,
    lock: bool,
    past: bool,
    out: &mut Out,
) -> Result<Look, Bad>
    requires holds { may_hold e.old.steps.state ≡ true }
    requires undecided { lock ≡ true → is_undecided e.old.steps.state ≡ true }
    requires beside { lock ≡ true → e.old.steps.state.tier.alone ≡ false }
    ensures current { IfOk result (λ look. is_too_old g.old.floor look.found ≡ false) }
    ensures found { IfOk result (λ look. is_some look.found ≡ true → IsFound (of_tier now) e.old.x key.now past lock g.old g.new out.old out.new look) }
    ensures key { OnOk result (e.new.key ≡ Some key.now) }
    ensures state { HasSameButRequest e.old.steps.state e.new.steps.state }
    ensures rest { e.new ≡ record e.old { steps = e.new.steps; key = e.new.key } }
    ensures gateway { g.new ≡ record g.old { tier = g.new.tier; table = g.new.table } }
{
    move_to(g, e, key)?;
    if lock
        && !past
        && let Some(look) = hit_at(g, key, now, out)?
    {
        return Ok(look);
    }
    if !g.open_at(e.x, key, lock, out)? {
        return Ok(nothing(Permit::None));
    }
    e.steps.hold();
    look_held(g, e, key, now, lock, past, out)
}

// Looks up for a request that is open.
fn look_held(
    g: &mut Gateway,
    e: &mut Exchange,
    key: &HashBinary,
    now: Moment,
    lock: bool,
    past: bool,
    out: &mut Out,
) -> Result<Look, Bad>
    requires held { e.old.steps.state.tier.held ≡ true }
    requires undecided { lock ≡ true → is_undecided e.old.steps.state ≡ true }
    requires beside { lock ≡ true → e.old.steps.state.tier.alone ≡ false }
    ensures current { IfOk result (λ look. is_too_old g.old.floor look.found ≡ false) }
    ensures looked { IfOk result (λ look. is_some look.found ≡ true → IsLooked (of_tier now) e.old.x past lock g.old g.new out.old out.new look) }
    ensures state { HasSameButRequest e.old.steps.state e.new.steps.state }
    ensures rest { e.new ≡ record e.old { steps = e.new.steps } }
    ensures gateway { g.new ≡ record g.old { tier = g.new.tier; table = g.new.table } }
{
    let Some((answer, found)) = g.look_at(now, e.x, past, out)? else {
        return Ok(nothing(Permit::None));
    };
    let (fresh, whole, permit) = lookup_of(&answer, lock);
    if lock && matches!(permit, Permit::Write) {
        take_permit(g, e, key, now, out)?;
    }
    if is_too_old(g, &found) {
        return Ok(nothing(permit));
    }
    let look = Look {
        found,
        body: Bytes::new(),
        fresh,
        whole,
        permit,
    };
    Ok(with_body(g, e.x, look, out)?)
}

// What was found, and its body where that is whole. What the tier refuses to read is as nothing.
fn with_body(g: &mut Gateway, x: u64, look: Look, out: &mut Out) -> Result<Look, AllocError>
    requires { is_too_old g.old.floor look.found ≡ false }
    ensures current { IfOk result (λ made. is_too_old g.old.floor made.found ≡ false) }
    ensures read { IfOk result (λ made. is_some made.found ≡ true → IsReadIf x look g.old g.new out.old out.new made) }
    ensures gateway { g.new ≡ record g.old { tier = g.new.tier } }
{
    if !look.whole {
        return Ok(look);
    }
    match body_at(g, x, out)? {
        Some(body) => Ok(Look { body, ..look }),
        None => Ok(nothing(look.permit)),
    }
}

// Who had it before has none any more: it was past its age. Who waited for that one waits for this one.
fn take_permit(
    g: &mut Gateway,
    e: &mut Exchange,
    key: &HashBinary,
    now: Moment,
    out: &mut Out,
) -> Result<(), AllocError>
    requires undecided { is_undecided e.old.steps.state ≡ true }
    requires held { e.old.steps.state.tier.held ≡ true }
    requires beside { e.old.steps.state.tier.alone ≡ false }
    ensures state { e.new.steps.state ≡ takes_permit (nanoseconds_of now) e.old.steps.state }
    ensures rest { e.new ≡ record e.old { steps = e.new.steps } }
    ensures told { AreTold Notice.PermitTaken key.now g.old.table g.new.table }
    ensures gateway { g.new ≡ record g.old { table = g.new.table } }
    ensures ok { OnOk result (reply_of out.new ≡ with_wakes (in_role Role.Waits key.now None g.new.table) (reply_of out.old)) }
    ensures reply { HasSameButWakes out.old out.new }
{
    tell_all(g, key, &Notice::PermitTaken);
    e.steps.take_permit(nanoseconds(now));
    wake_all(g, None, key, &Role::Waits, out)
}

/// What a step ended at the tier ends there. Only the end of a permit or of an unfinished write wakes.
pub fn release(
    g: &mut Gateway,
    e: &mut Exchange,
    released: Released,
    out: &mut Out,
) -> Result<(), AllocError>
    ensures released { Releases released e.old g.old g.new }
    ensures exchange { e.new ≡ (if released.request then counts_for 0 e.old else e.old) }
    ensures steps { e.new.steps ≡ e.old.steps }
    ensures ok { OnOk result (reply_of out.new ≡ with_wakes (woken_by released e.new g.old.table) (reply_of out.old)) }
    ensures rest { HasSameButWakes out.old out.new }
{
    if !released.request {
        return Ok(());
    }
    count_flying(g, e, 0);
    g.drop_at(e.x);
    wake_released(g, e, released, out)
}

// Wakes who waits for what ended.
fn wake_released(
    g: &Gateway,
    e: &Exchange,
    released: Released,
    out: &mut Out,
) -> Result<(), AllocError>
    ensures ok { OnOk result (reply_of out.new ≡ with_wakes (woken_by_ends released e.now g.now.table) (reply_of out.old)) }
    ensures rest { HasSameButWakes out.old out.new }
{
    wake_if_permit(g, e, released.permit, out)?;
    wake_if_write(g, e, released.write, out)
}

fn wake_if_permit(g: &Gateway, e: &Exchange, ended: bool, out: &mut Out) -> Result<(), AllocError>
    ensures ok { OnOk result (reply_of out.new ≡ with_wakes (if ended then waiters_of e.now g.now.table else []) (reply_of out.old)) }
    ensures rest { HasSameButWakes out.old out.new }
{
    match &e.key {
        Some(key) if ended => wake_waiters(g, e.x, key, out),
        _ => Ok(()),
    }
}

fn wake_if_write(g: &Gateway, e: &Exchange, ended: bool, out: &mut Out) -> Result<(), AllocError>
    ensures ok { OnOk result (reply_of out.new ≡ with_wakes (if ended then readers_of e.now g.now.table else []) (reply_of out.old)) }
    ensures rest { HasSameButWakes out.old out.new }
{
    if ended {
        wake_readers(g, e, out)
    } else {
        Ok(())
    }
}

/// Ends its request at the tier, and with that its permit.
pub fn let_go(g: &mut Gateway, e: &mut Exchange, out: &mut Out) -> Result<(), AllocError>
    requires { is_undecided e.old.steps.state || is_awaiting e.old.steps.state.origin.phase ≡ true }
    ensures released { Releases (release_of e.old.steps.state.tier) e.old g.old g.new }
    ensures state { e.new.steps.state ≡ lets_go e.old.steps.state }
    ensures exchange { e.new ≡ uncounted (release_of e.old.steps.state.tier) (record e.old { steps = e.new.steps }) }
    ensures ok { OnOk result (reply_of out.new ≡ with_wakes (woken_by (release_of e.old.steps.state.tier) e.new g.old.table) (reply_of out.old)) }
    ensures rest { HasSameButWakes out.old out.new }
{
    let released = e.steps.let_go();
    release(g, e, released, out)
}

/// Its response won't be stored: who waits for it goes on alone, and not one after the other.
pub fn give_up_permit(g: &mut Gateway, e: &mut Exchange, out: &mut Out) -> Result<(), AllocError>
    requires { is_undecided e.old.steps.state || is_awaiting e.old.steps.state.origin.phase ≡ true }
    ensures released { GivesUp (is_some e.old.steps.state.tier.permit) (release_of e.old.steps.state.tier) e.old g.old g.new }
    ensures state { e.new.steps.state ≡ lets_go e.old.steps.state }
    ensures exchange { e.new ≡ uncounted (release_of e.old.steps.state.tier) (record e.old { steps = e.new.steps }) }
    ensures ok { OnOk result (reply_of out.new ≡ with_wakes (woken_by (release_of e.old.steps.state.tier) e.new g.old.table) (reply_of out.old)) }
    ensures rest { HasSameButWakes out.old out.new }
{
    tell_no_store(g, e);
    let_go(g, e, out)
}

// Who has no permit has nobody who waits for it.
fn tell_no_store(g: &mut Gateway, e: &Exchange)
    ensures { MatchBool (is_some e.now.steps.state.tier.permit) (TellsNoStore e.now.x g.old g.new) (g.new ≡ g.old) }
{
    if e.has_permit() {
        g.give_up_at(e.x);
    }
}

// ==== what is in flight

/// What it counts for in flight, while it is written.
pub fn count_flying(g: &mut Gateway, e: &mut Exchange, size: u64)
    ensures gateway { g.new ≡ record g.old { flying = flying_with size e.old g.old } }
    ensures exchange { e.new ≡ counts_for size e.old }
{
    g.flying = g.flying.saturating_sub(e.asks.flying).saturating_add(size);
    e.asks.flying = size;
}
