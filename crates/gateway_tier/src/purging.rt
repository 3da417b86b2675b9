//! Purges of a key.
ghost use Rattle.std.specs.Prelude.{◌≡◌, ◌∷◌, [], if◌then◌else◌, IfOk, OnOk, Some, option_copied};
ghost use Rattle.tier_model.specs.Calls.{Outcome};
ghost use Rattle.tier_model.specs.State.{State};
ghost use Rattle.tier_model.specs.declared.event.Action.{Action};
ghost use Rattle.gateway_steps.specs.Steps.{meets_purge, release_by_purge};
ghost use Rattle.gateway_exchanges.specs.Tables.{numbers_at};
ghost use Rattle.gateway_exchanges.specs.Frames.{HasSameButWakes};
ghost use Rattle.gateway_exchanges.specs.Replies.{reply_of, with_event};
ghost use Rattle.gateway_state.specs.AtTier.{is_purged, key_with, TakesAnytime};
ghost use Rattle.gateway_tier.specs.Purges.{is_later, hides_if, IsPurged, ArePurged, release_by};
ghost use Rattle.gateway_tier.specs.Releases.{woken_by};
ghost use Rattle.gateway_tier.specs.Roles.{is_meant, with_wakes};
ghost use Rattle.gateway_tier.specs.Walks.{AreChanged};

use crate::at_tier::release;
use crate::waking::is_meant;
use cache_words::key::HashBinary;
use gateway_exchanges::exchange::Exchange;
use gateway_exchanges::outs::{Event, Out};
use gateway_state::state::Gateway;
use std::alloc::AllocError;

/// Purges a key: what is stored or in flight under it, and what is fetched for it won't be stored, also where the key is the first one of what is to be
/// stored under another. A permit of what is fetched for it ends: who waits looks again. Whether anything was there.
/// The exchange that a call is about isn't among them.
pub fn remove(
    g: &mut Gateway,
    key: &HashBinary,
    by: Option<u64>,
    out: &mut Out,
) -> Result<bool, AllocError>
    ensures found { IfOk result (λ was. (o : Outcome) × (t : State) × TakesAnytime (Action.Purge (key_with key.now)) g.old.tier o t × (was ≡ is_purged o)) }
    ensures told { OnOk result (reply_of out.new ≡ record (with_event (Event.Purged key.now) (reply_of out.old)) { wakes = (reply_of out.new).wakes }) }
    ensures purged { ArePurged by key.now g.old.table g.new.table }
    ensures rest { g.new ≡ record g.old { tier = g.new.tier; table = g.new.table; predicted = g.new.predicted; flying = g.new.flying } }
{
    let was = g.purge_at(key);
    let _predicted = g.predicted.pop(key);
    let told = out.tell(Event::Purged(*key));
    purge_exchanges(g, key, by, out)?;
    told?;
    Ok(was)
}

// Each of them meets the purge, also where there is no memory to say who is woken.
fn purge_exchanges(
    g: &mut Gateway,
    key: &HashBinary,
    by: Option<u64>,
    out: &mut Out,
) -> Result<(), AllocError>
    ensures purged { ArePurged by key.now g.old.table g.new.table }
    ensures rest { g.new ≡ record g.old { table = g.new.table; tier = g.new.tier; flying = g.new.flying } }
    ensures reply { HasSameButWakes out.old out.new }
{
    let mut outcome = Ok(());
    for place in 0..g.table.count_at(key) {
        let y = g.table.number_at(key, place).unwrap_or(0);
        let purged = purge_at(g, y, Some(key), by, out);
        if purged.is_err() {
            outcome = purged;
        }
    }
    outcome
}

/// The exchange of a number, unless it is taken out, meets a purge of a key; or of all.
pub fn purge_at(
    g: &mut Gateway,
    y: u64,
    key: Option<&HashBinary>,
    by: Option<u64>,
    out: &mut Out,
) -> Result<(), AllocError>
    ensures purged { AreChanged (IsPurged (option_copied key.entry) by) (y ∷ []) g.old.table g.new.table }
    ensures rest { g.new ≡ record g.old { table = g.new.table; tier = g.new.tier; flying = g.new.flying } }
    ensures reply { HasSameButWakes out.old out.new }
{
    let Some(mut e) = g.table.take(y) else {
        return Ok(());
    };
    let outcome = purge_one(g, &mut e, key, by, out);
    g.table.put_back(e);
    outcome
}

// What a purge does to an exchange; `by`: the number of a request, whose response says nothing of what was asked later.
fn purge_one(
    g: &mut Gateway,
    e: &mut Exchange,
    key: Option<&HashBinary>,
    by: Option<u64>,
    out: &mut Out,
) -> Result<(), AllocError>
    ensures purged { IsPurged (option_copied key.entry) by e.old e.new }
    ensures rest { g.new ≡ record g.old { tier = g.new.tier; flying = g.new.flying } }
    ensures reply { HasSameButWakes out.old out.new }
    ensures woken { OnOk result (reply_of out.new ≡ with_wakes (woken_by (release_by (is_meant (option_copied key.entry) e.old) by e.old.steps.state) e.new g.old.table) (reply_of out.old)) }
{
    hide_if_meant(e, key);
    if is_later(e, by) {
        return Ok(());
    }
    meet_purge(g, e, out)
}

// What is written under another key than that which is purged is found as ever.
fn hide_if_meant(e: &mut Exchange, key: Option<&HashBinary>)
    ensures state { e.new.steps.state ≡ hides_if (is_meant (option_copied key.entry) e.old) e.old.steps.state }
    ensures rest { e.new ≡ record e.old { steps = e.new.steps } }
{
    if is_meant(e, key) {
        e.steps.hide_write();
    }
}

// The response to that request says nothing of what was asked later.
fn is_later(e: &Exchange, by: Option<u64>) -> bool
    ensures { result ≡ is_later by e.now.steps.state }
{
    match by {
        Some(sequence) => e.sequence() > sequence,
        None => false,
    }
}

// What is fetched won't be stored; who waits for that looks again.
fn meet_purge(g: &mut Gateway, e: &mut Exchange, out: &mut Out) -> Result<(), AllocError>
    ensures state { e.new.steps.state ≡ meets_purge e.old.steps.state }
    ensures flying { e.new.asks.flying ≡ (if (release_by_purge e.old.steps.state).request then 0 else e.old.asks.flying) }
    ensures exchange { e.new ≡ record e.old { steps = e.new.steps; asks = record e.old.asks { flying = e.new.asks.flying } } }
    ensures rest { g.new ≡ record g.old { tier = g.new.tier; flying = g.new.flying } }
    ensures reply { HasSameButWakes out.old out.new }
    ensures woken { OnOk result (reply_of out.new ≡ with_wakes (woken_by (release_by_purge e.old.steps.state) e.new g.old.table) (reply_of out.old)) }
{
    let released = e.steps.meet_purge();
    release(g, e, released, out)
}
