//! Purges: of a key, and of all.
ghost use Rattle.std.specs.Prelude.{◌≡◌, ◌==◌, ◌⊎◌, ℕ, Bool, List, if◌then◌else◌, true, false, Some, None, slice_get, unwrap_or};
ghost use Rattle.std.specs.List.{list_any};
ghost use Rattle.cache_words.specs.Blake.{blake2b_128};
ghost use Rattle.rules_ffi_arguments.specs.Moments.{is_moment};
ghost use Rattle.gateway_rules.specs.Options.{options_of};
ghost use Rattle.gateway_rules.specs.Urls.{url_key_in};
ghost use Rattle.gateway_exchanges.specs.Frames.{HasSameButWakes};
ghost use Rattle.gateway_exchanges.specs.Replies.{reply_of};
ghost use Rattle.gateway_exchanges.specs.Tables.{has_place};
ghost use Rattle.gateway_tier.specs.Purges.{IsPurged};
ghost use Rattle.gateway_tier.specs.Walks.{AreChanged};
ghost use Rattle.gateway.specs.Calls.{IsRefused, IsUnread};
ghost use Rattle.gateway.specs.Purges.{floor_with, later_of, IsTold, PurgesAll, PurgesKey};

use crate::calling::answer;
use cache_words::key::hash_key;
use gateway_exchanges::outs::{Event, Out, Status};
use gateway_rules::moments::{Moment, is_moment, is_past};
use gateway_state::state::Gateway;
use gateway_tier::purging::{purge_at, remove};
use rules_ffi_arguments::bad::Bad;
use std::alloc::AllocError;

/// Purges a URL as people write it: whether anything was there.
pub fn purge(g: &mut Gateway, url: &[u8]) -> Out
    ensures unread { unwrap_or (url_key_in (options_of g.old.rules) url.now) None ≡ None → IsUnread g.old g.new result }
    ensures purged { (key : List ℕ) → url_key_in (options_of g.old.rules) url.now ≡ Some (Some key) → PurgesKey (blake2b_128 key) g.old g.new result ⊎ IsRefused Status.Memory 0 g.old g.new result }
{
    match g.rules.url_key(url) {
        Ok(Some(key)) => purge_key(g, key.as_slice()),
        Ok(None) | Err(Bad::Call) => Out::new(g.alloc, Status::BadArgument),
        Err(Bad::Memory) => Out::new(g.alloc, Status::Memory),
    }
}

/// Purges a key as the rules write it, which another partition named.
pub fn purge_key(g: &mut Gateway, key: &[u8]) -> Out
    ensures { PurgesKey (blake2b_128 key.now) g.old g.new result }
{
    let mut out = answer(g, 0, Status::Done);
    match remove(g, &hash_key(key), None, &mut out) {
        Ok(found) => out.found = found,
        Err(_) => out.status = Status::Memory,
    }
    out
}

/// Purges all: what is stored, or asked of the origin, not later than `now` answers nobody who asks from now on.
pub fn purge_all(g: &mut Gateway, now: Moment) -> Out
    ensures refused { is_moment now.seconds now.nanoseconds ≡ false → IsRefused Status.BadArgument 0 g.old g.new result }
    ensures purged { is_moment now.seconds now.nanoseconds ≡ true → IsRefused Status.Memory 0 g.old g.new result ⊎ (PurgesAll now g.old g.new × IsTold result) }
{
    if !is_moment(now) {
        return answer(g, 0, Status::BadArgument);
    }
    let mut out = answer(g, 0, Status::Done);
    let Ok(numbers) = g.table.numbers() else {
        return answer(g, 0, Status::Memory);
    };
    if out.tell(Event::PurgedAll).is_err() {
        return answer(g, 0, Status::Memory);
    }
    purge_open(g, now, numbers.as_slice(), &mut out);
    out
}

// With the numbers of all who are open.
fn purge_open(g: &mut Gateway, now: Moment, numbers: &[u64], out: &mut Out)
    requires { (x : ℕ) → list_any (λ y. x == y) numbers.now ≡ has_place x g.old.table }
    ensures purged { PurgesAll now g.old g.new }
    ensures status { (enough : Bool) × ((reply_of out.new).status ≡ (if enough then Status.Done else Status.Memory)) }
    ensures reply { reply_of out.new ≡ record (reply_of out.old) { status = (reply_of out.new).status; wakes = (reply_of out.new).wakes } }
{
    raise_floor(g, now);
    g.predicted.clear();
    let purged = purge_every(g, numbers, out);
    out.status = if purged.is_ok() {
        Status::Done
    } else {
        Status::Memory
    };
}

// What isn't later than that answers nobody any more. Where moments go back, it is later than all that the origin was asked, and no sooner than it was.
fn raise_floor(g: &mut Gateway, now: Moment)
    ensures { g.new ≡ record g.old { floor = Some (floor_with g.old.floor g.old.latest now) } }
{
    let now = later_of(now, g.latest);
    g.floor = match g.floor {
        Some(floor) => Some(later_of(floor, now)),
        None => Some(now),
    };
}

fn later_of(moment: Moment, other: Moment) -> Moment
    ensures { result ≡ later_of moment other }
{
    if is_past(moment, other) {
        moment
    } else {
        other
    }
}

// What the origin is asked from then on is asked at that moment, or later.
pub(crate) fn note_moment(g: &mut Gateway, now: Moment)
    ensures { g.new ≡ record g.old { latest = later_of g.old.latest now } }
{
    g.latest = later_of(g.latest, now);
}

// Each of them meets the purge, also where there is no memory to say who is woken.
fn purge_every(g: &mut Gateway, numbers: &[u64], out: &mut Out) -> Result<(), AllocError>
    ensures purged { AreChanged (IsPurged None None) numbers.now g.old.table g.new.table }
    ensures rest { g.new ≡ record g.old { table = g.new.table; tier = g.new.tier; flying = g.new.flying } }
    ensures reply { HasSameButWakes out.old out.new }
{
    let mut outcome = Ok(());
    for place in 0..numbers.len() {
        let y = number_at(numbers, place);
        hide_at_tier(g, y);
        let purged = purge_at(g, y, None, None, out);
        if purged.is_err() {
            outcome = purged;
        }
    }
    outcome
}

fn number_at(numbers: &[u64], place: usize) -> u64
    ensures { result ≡ unwrap_or (slice_get numbers.now place) 0 }
{
    numbers.get(place).copied().unwrap_or(0)
}

// At the tier nobody finds its write any more; who reads on there gets all of it.
fn hide_at_tier(g: &mut Gateway, number: u64)
    ensures { g.new ≡ record g.old { tier = g.new.tier } }
{
    let key = match g.table.get(number) {
        Some(e) if e.is_joinable() => e.key,
        _ => None,
    };
    if let Some(key) = &key {
        let _was = g.purge_at(key);
    }
}
