//! Responses that vary: under a first key stands a list of sets, and each set has a second key, under which a response is stored (RFC 9111, 4.1).
ghost use Rattle.std.specs.Prelude.{◌≡◌, true, false, Some, IfOk, IfSome, OnOk};
ghost use Rattle.gateway_steps.specs.Phases.{is_undecided};
ghost use Rattle.gateway_rules.specs.Options.{options_of};
ghost use Rattle.gateway_rules.specs.Values.{response_of};
ghost use Rattle.gateway_rules.specs.Varying.{index_of};
ghost use Rattle.gateway_state.specs.AtTier.{peeked};
ghost use Rattle.gateway_tier.specs.Looks.{is_too_old, HasSameButHeld};
ghost use Rattle.gateway_tier.specs.Variants.{index_in, place_in, placed_by};

use crate::at_tier::{let_go, seek};
use crate::looks::{is_index, is_too_old};
use crate::notices::{Notice, hide_writer, tell_all};
use bytes::Bytes;
use cache_words::key::{HashBinary, hash_key};
use gateway_exchanges::exchange::Exchange;
use gateway_exchanges::found::{Look, nothing};
use gateway_exchanges::outs::{Event, Out};
use gateway_rules::moments::{Moment, is_past};
use gateway_rules::values::ResponseHead;
use gateway_rules::varying::VaryIndex;
use gateway_state::at_tier::given_of;
use gateway_state::state::Gateway;
use gateway_types::looks::Permit;
use rules_ffi_arguments::bad::Bad;
use std::alloc::AllocError;

// ==== look-ups

/// Looks up under the first key, and, where a list of variants stands there, under the second keys: of what is found the newest counts, else the place of
/// the first set.
pub fn seek_place(
    g: &mut Gateway,
    e: &mut Exchange,
    now: Moment,
    out: &mut Out,
) -> Result<Look, Bad>
    requires undecided { is_undecided e.old.steps.state ≡ true }
    ensures current { IfOk result (λ look. is_too_old g.old.floor look.found ≡ false) }
    ensures state { HasSameButHeld e.old.steps.state e.new.steps.state }
    ensures rest { e.new ≡ record e.old { steps = e.new.steps; key = e.new.key; index = e.new.index; asks = record e.old.asks { flying = e.new.asks.flying } } }
    ensures gateway { g.new ≡ record g.old { tier = g.new.tier; table = g.new.table; flying = g.new.flying } }
{
    let Some(first) = e.first else {
        return Ok(nothing(Permit::None));
    };
    let lock = !e.steps.state.tier.alone;
    e.index = Bytes::new();
    let look = seek(g, e, &first, now, lock, false, out)?;
    if !is_index(&look.found) {
        return Ok(look);
    }
    e.index = look.body;
    let_go(g, e, out)?;
    match newest_place(g, e, now, out)? {
        Some(place) => seek(g, e, &place, now, lock, false, out),
        None => Ok(nothing(Permit::None)),
    }
}

// The second key of the newest of what is found, else of the first set.
fn newest_place(
    g: &mut Gateway,
    e: &mut Exchange,
    now: Moment,
    out: &mut Out,
) -> Result<Option<HashBinary>, Bad>
    requires undecided { is_undecided e.old.steps.state ≡ true }
    ensures state { HasSameButHeld e.old.steps.state e.new.steps.state }
    ensures rest { e.new ≡ record e.old { steps = e.new.steps; key = e.new.key; asks = record e.old.asks { flying = e.new.asks.flying } } }
    ensures gateway { g.new ≡ record g.old { tier = g.new.tier; table = g.new.table; flying = g.new.flying } }
{
    let keys = g.rules.secondary_keys(&e.request, e.index.as_slice())?;
    match keys.as_slice() {
        [] => Ok(None),
        [key] => Ok(Some(hash_key(key.as_slice()))),
        keys => newest_of(g, e, keys, now, out),
    }
}

fn newest_of(
    g: &mut Gateway,
    e: &mut Exchange,
    keys: &[Vec<u8>],
    now: Moment,
    out: &mut Out,
) -> Result<Option<HashBinary>, Bad>
    requires undecided { is_undecided e.old.steps.state ≡ true }
    ensures state { HasSameButHeld e.old.steps.state e.new.steps.state }
    ensures rest { e.new ≡ record e.old { steps = e.new.steps; key = e.new.key; asks = record e.old.asks { flying = e.new.asks.flying } } }
    ensures gateway { g.new ≡ record g.old { tier = g.new.tier; table = g.new.table; flying = g.new.flying } }
{
    let mut newest = None;
    let mut place = None;
    for key in keys {
        let key = hash_key(key.as_slice());
        let updated = updated_at(g, e, &key, now, out)?;
        if place.is_none() || is_later(newest, updated) {
            newest = updated;
            place = Some(key);
        }
    }
    Ok(place)
}

// Whether something was found that is later than what was found before.
fn is_later(before: Option<Moment>, found: Option<Moment>) -> bool {
    match (before, found) {
        (_, None) => false,
        (None, Some(_)) => true,
        (Some(before), Some(found)) => !is_past(before, found),
    }
}

// When what is found at a key was updated. Its request at the tier ends.
fn updated_at(
    g: &mut Gateway,
    e: &mut Exchange,
    key: &HashBinary,
    now: Moment,
    out: &mut Out,
) -> Result<Option<Moment>, Bad>
    requires undecided { is_undecided e.old.steps.state ≡ true }
    ensures state { HasSameButHeld e.old.steps.state e.new.steps.state }
    ensures rest { e.new ≡ record e.old { steps = e.new.steps; key = e.new.key; asks = record e.old.asks { flying = e.new.asks.flying } } }
    ensures gateway { g.new ≡ record g.old { tier = g.new.tier; table = g.new.table; flying = g.new.flying } }
{
    let look = seek(g, e, key, now, false, false, out)?;
    let_go(g, e, out)?;
    match &look.found {
        Some(stored) => Ok(Some(stored.shape.updated)),
        None => Ok(None),
    }
}

// ==== where a response is stored

// The list of variants that stands under a first key; empty: none does.
fn index_at(g: &Gateway, first: &HashBinary) -> Result<Bytes, AllocError>
    ensures { IfOk result (λ index. index ≡ index_in g.now.floor (peeked first.now g.now)) }
{
    match g.peek_at(first)? {
        Some((found, body)) => {
            let found = Some(found);
            if is_index(&found) && !is_too_old(g, &found) {
                Ok(body)
            } else {
                Ok(Bytes::new())
            }
        }
        None => Ok(Bytes::new()),
    }
}

/// The digest of the key under which a response is stored, by what stands under the first key now; none: it can't be.
pub(crate) fn place_of(
    g: &mut Gateway,
    e: &mut Exchange,
    response: &ResponseHead,
    now: Moment,
    out: &mut Out,
) -> Result<Option<HashBinary>, Bad>
    ensures place { IfOk result (λ place. IfSome place (λ key. place_in g.old e.old (response_of response.now) now ≡ Some (key, e.new.index))) }
    ensures rest { e.new ≡ record e.old { index = e.new.index } }
    ensures gateway { g.new ≡ record g.old { tier = g.new.tier; rng = g.new.rng; table = g.new.table; tokens = g.new.tokens } }
{
    let Some(first) = e.first else {
        return Ok(None);
    };
    let index = index_at(g, &first)?;
    let token = g.next_token()?;
    match g
        .rules
        .update_vary_index(response, now, index.as_slice(), token.as_slice())?
    {
        Some(made) => place_by(g, e, &first, &made, now, out),
        None => {
            e.index = Bytes::new();
            Ok(Some(first))
        }
    }
}

// The second key by the list as it is made. What may lack memory comes before that stands under the first key.
fn place_by(
    g: &mut Gateway,
    e: &mut Exchange,
    first: &HashBinary,
    made: &VaryIndex,
    now: Moment,
    out: &mut Out,
) -> Result<Option<HashBinary>, Bad>
    ensures place { IfOk result (λ place. IfSome place (λ key. placed_by (options_of g.old.rules) e.old first.now (Some (index_of made.now)) ≡ Some (key, e.new.index))) }
    ensures rest { e.new ≡ record e.old { index = e.new.index } }
    ensures gateway { g.new ≡ record g.old { tier = g.new.tier; rng = g.new.rng; table = g.new.table } }
{
    let keys = g.rules.secondary_keys(&e.request, made.body.as_slice())?;
    let Some(key) = keys.as_slice().get(made.place as usize) else {
        return Ok(None);
    };
    let place = hash_key(key.as_slice());
    let index = Bytes::copy_from_slice(g.alloc, made.body.as_slice())?;
    if made.is_new && !put_index(g, first, made, now, out)? {
        return Ok(None);
    }
    e.index = index;
    Ok(Some(place))
}

// Whether the new list stands under the first key. A write in flight there is never found again: it would replace the list.
fn put_index(
    g: &mut Gateway,
    first: &HashBinary,
    made: &VaryIndex,
    now: Moment,
    out: &mut Out,
) -> Result<bool, Bad>
    ensures { g.new ≡ record g.old { tier = g.new.tier; rng = g.new.rng; table = g.new.table } }
{
    let Some(given) = given_of(&made.meta) else {
        return Ok(false);
    };
    hide_writer(g, first);
    let (head, body) = (made.head.as_slice(), made.body.as_slice());
    if !g.put_at(now, first, head, body, given, out)? {
        return Ok(false);
    }
    tell_all(g, first, &Notice::IndexPut);
    out.tell(Event::VaryIndex(*first))?;
    Ok(true)
}
