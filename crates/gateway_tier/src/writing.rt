//! What is stored: a write that begins, and what is freshened.
ghost use Rattle.std.specs.Prelude.{◌≡◌, true, Some, IfOk, OnOk, OnErr, MatchBool, MatchOption, not};
ghost use Rattle.std.specs.Bool.{OnTrue};
ghost use Rattle.gateway_rows.specs.Bodies.{is_awaiting};
ghost use Rattle.gateway_rules.specs.Options.{options_of};
ghost use Rattle.gateway_rules.specs.Values.{response_of};
ghost use Rattle.gateway_steps.specs.Phases.{is_stored_fetch};
ghost use Rattle.gateway_steps.specs.Steps.{holds, lets_go, stores};
ghost use Rattle.gateway_tier.specs.Looks.{HasSameButHeld, HasSameButRequest, lets_go_if};
ghost use Rattle.gateway_tier.specs.Moves.{is_moved};
ghost use Rattle.gateway_tier.specs.Roles.{is_at};
ghost use Rattle.gateway_tier.specs.Superseding.{earlier_at};
ghost use Rattle.gateway_tier.specs.Variants.{place_in, IsPlaced};
ghost use Rattle.gateway_tier.specs.Writes.{AreToldOfWrite, BeginsAt, BeginsFrom, FreshensAt};

use crate::at_tier::{count_flying, let_go, seek};
use crate::moving::move_to;
use crate::notices::{Notice, hide_writer, tell_all, tell_each};
use crate::superseding::earlier_at;
use crate::vary::place_of;
use crate::waking::{Role, is_at, wake_all};
use bytes::Bytes;
use cache_heads::GivenMeta;
use cache_words::key::HashBinary;
use gateway_exchanges::exchange::Exchange;
use gateway_exchanges::outs::{Event, Out};
use gateway_rules::moments::Moment;
use gateway_rules::values::{ResponseHead, StoreDecision};
use gateway_state::at_tier::given_of;
use gateway_state::state::Gateway;
use rules_ffi_arguments::bad::Bad;
use std::alloc::AllocError;
use tier_model::event::{Action, Answer};

/// Whether its write has begun, under the key that the first key's list of variants says now. Who waits for that key, or for its permit, looks again.
pub fn begin_write(
    g: &mut Gateway,
    e: &mut Exchange,
    response: &ResponseHead,
    kept: &StoreDecision,
    now: Moment,
    out: &mut Out,
) -> Result<bool, Bad>
    requires awaited { is_awaiting e.old.steps.state.origin.phase ≡ true }
    requires stored { is_stored_fetch e.old.steps.state.origin.fetch ≡ true }
    ensures began { IfOk result (λ began. MatchBool began (e.new.steps.state ≡ stores e.old.x (holds (lets_go_if (is_moved e.old e.new) e.old.steps.state)))
        (HasSameButHeld e.old.steps.state e.new.steps.state)) }
    ensures others { IfOk result (λ began. OnTrue began (BeginsFrom (options_of g.old.rules) e.new g.new.table)) }
    ensures place { IfOk result (λ began. OnTrue began (IsPlaced (place_in g.old e.old (response_of response.now) now) e.new)) }
    ensures err { OnErr result (HasSameButHeld e.old.steps.state e.new.steps.state) }
    ensures gateway { g.new ≡ record g.old { tier = g.new.tier; rng = g.new.rng; table = g.new.table; tokens = g.new.tokens; flying = g.new.flying } }
    ensures rest { e.new ≡ record e.old { steps = e.new.steps; key = e.new.key; index = e.new.index; asks = record e.old.asks { flying = e.new.asks.flying } } }
{
    let Some(given) = given_of(&kept.told.meta) else {
        return Ok(false);
    };
    let head = Bytes::copy_from_slice(g.alloc, kept.head())?;
    let Some(place) = place_of(g, e, response, now, out)? else {
        return Ok(false);
    };
    if !hold_at(g, e, &place, now, out)? {
        return Ok(false);
    }
    write_at(g, e, &place, head, given, now, out)
}

// Whether its request at the tier is open at that key. What is fresh there is replaced too.
fn hold_at(
    g: &mut Gateway,
    e: &mut Exchange,
    place: &HashBinary,
    now: Moment,
    out: &mut Out,
) -> Result<bool, Bad>
    requires awaited { is_awaiting e.old.steps.state.origin.phase ≡ true }
    requires stored { is_stored_fetch e.old.steps.state.origin.fetch ≡ true }
    ensures held { IfOk result (λ held. held ≡ e.new.steps.state.tier.held) }
    ensures place { OnOk result (e.new.key ≡ Some place.now) }
    ensures state { OnOk result (HasSameButRequest (lets_go_if (not (is_at place.now e.old)) e.old.steps.state) e.new.steps.state) }
    ensures err { OnErr result (HasSameButHeld e.old.steps.state e.new.steps.state) }
    ensures gateway { g.new ≡ record g.old { tier = g.new.tier; table = g.new.table; flying = g.new.flying } }
    ensures rest { e.new ≡ record e.old { steps = e.new.steps; key = e.new.key; asks = record e.old.asks { flying = e.new.asks.flying } } }
{
    if !is_at(e, place) {
        leave_for(g, e, place, out)?;
    }
    e.key = Some(*place);
    if !e.is_held() {
        let _look = seek(g, e, place, now, false, true, out)?;
    }
    Ok(e.is_held())
}

// It goes on under another key. Who waits for it, or where it was, looks again. What may lack memory comes first.
fn leave_for(
    g: &mut Gateway,
    e: &mut Exchange,
    place: &HashBinary,
    out: &mut Out,
) -> Result<(), AllocError>
    requires { is_awaiting e.old.steps.state.origin.phase ≡ true }
    ensures state { OnOk result (e.new.steps.state ≡ lets_go e.old.steps.state) }
    ensures key { OnOk result (e.new.key ≡ Some place.now) }
    ensures err { OnErr result (HasSameButHeld e.old.steps.state e.new.steps.state) }
    ensures gateway { g.new ≡ record g.old { tier = g.new.tier; table = g.new.table; flying = g.new.flying } }
    ensures rest { e.new ≡ record e.old { steps = e.new.steps; key = e.new.key; asks = record e.old.asks { flying = e.new.asks.flying } } }
{
    let former = e.key;
    if let Some(former) = &former {
        wake_all(g, None, former, &Role::Waits, out)?;
    }
    move_to(g, e, place)?;
    if let Some(former) = &former {
        tell_all(g, former, &Notice::WriteBegun);
    }
    let_go(g, e, out)
}

// Whether its write has begun there. What may lack memory comes first: behind the tier's answer nothing fails.
fn write_at(
    g: &mut Gateway,
    e: &mut Exchange,
    place: &HashBinary,
    head: Bytes,
    given: GivenMeta,
    now: Moment,
    out: &mut Out,
) -> Result<bool, Bad>
    requires awaited { is_awaiting e.old.steps.state.origin.phase ≡ true }
    requires stored { is_stored_fetch e.old.steps.state.origin.fetch ≡ true }
    requires held { e.old.steps.state.tier.held ≡ true }
    ensures began { IfOk result (λ began. MatchBool began (e.new.steps.state ≡ stores e.old.x e.old.steps.state) (e.new.steps.state ≡ e.old.steps.state)) }
    ensures others { IfOk result (λ began. OnTrue began (BeginsAt place.now (earlier_at (options_of g.old.rules) e.old place.now g.old.table) g.old.table g.new.table)) }
    ensures err { OnErr result (e.new.steps.state ≡ e.old.steps.state) }
    ensures gateway { g.new ≡ record g.old { tier = g.new.tier; rng = g.new.rng; table = g.new.table; flying = g.new.flying } }
    ensures rest { e.new ≡ record e.old { steps = e.new.steps; asks = record e.old.asks { flying = e.new.asks.flying } } }
{
    let earlier = earlier_at(g, e, place)?;
    wake_all(g, None, place, &Role::Waits, out)?;
    hide_writer(g, place);
    let begin = Action::Begin {
        request: e.x,
        head,
        given: Some(given),
    };
    let Some(Answer::Begun) = g.event(now, begin, out)? else {
        return Ok(false);
    };
    e.steps.store(e.x);
    let size = e.steps.write_size();
    count_flying(g, e, size);
    tell_of_write(g, place, earlier.as_slice());
    Ok(true)
}

// What those at the place validate is replaced, what went earlier won't replace that, and who waits there looks again.
fn tell_of_write(g: &mut Gateway, place: &HashBinary, earlier: &[u64])
    ensures others { AreToldOfWrite place.now earlier.now g.old.table g.new.table }
    ensures rest { g.new ≡ record g.old { table = g.new.table } }
{
    tell_all(g, place, &Notice::Replaced);
    tell_each(g, earlier, &Notice::Superseded);
    tell_all(g, place, &Notice::WriteBegun);
}

/// What is stored has a new head. Others that validate it by its old one won't freshen it; what was asked earlier won't replace it.
pub fn freshen_stored(
    g: &mut Gateway,
    e: &mut Exchange,
    kept: &StoreDecision,
    now: Moment,
    out: &mut Out,
) -> Result<(), Bad>
    ensures others { OnOk result (MatchOption e.old.key (g.new.table ≡ g.old.table)
        (λ key. FreshensAt key e.old.steps.state.origin.sequence g.old.table g.new.table out.old out.new)) }
    ensures gateway { g.new ≡ record g.old { tier = g.new.tier; rng = g.new.rng; table = g.new.table } }
    ensures exchange { e.new ≡ e.old }
{
    match (e.key, given_of(&kept.told.meta)) {
        (Some(key), Some(given)) => {
            let head = Bytes::copy_from_slice(g.alloc, kept.head())?;
            freshen_at(g, e, &key, head, given, now, out)?;
            Ok(())
        }
        _ => Ok(()),
    }
}

fn freshen_at(
    g: &mut Gateway,
    e: &Exchange,
    key: &HashBinary,
    head: Bytes,
    given: GivenMeta,
    now: Moment,
    out: &mut Out,
) -> Result<(), AllocError>
    ensures others { OnOk result (FreshensAt key.now e.now.steps.state.origin.sequence g.old.table g.new.table out.old out.new) }
    ensures gateway { g.new ≡ record g.old { tier = g.new.tier; rng = g.new.rng; table = g.new.table } }
{
    let renew = Action::Revalidate {
        request: e.x,
        head,
        given: Some(given),
    };
    let Some(Answer::Revalidated { .. }) = g.event(now, renew, out)? else {
        return Ok(());
    };
    tell_all(g, key, &Notice::Freshened(e.sequence()));
    out.tell(Event::Freshened(*key))
}
