//! What is found at the tier, and for whom.
ghost use Rattle.std.specs.Prelude.{◌≡◌, false, Some, Ok, IfOk, IfSome};
ghost use Rattle.tier_model.specs.declared.event.Action.{Action};
ghost use Rattle.gateway_rules.specs.Moments.{of_tier};
ghost use Rattle.gateway_state.specs.AtTier.{answer_in, IsAnswered, TakesAnytime};
ghost use Rattle.gateway_tier.specs.Looks.{is_too_old, is_index};
ghost use Rattle.gateway_tier.specs.Seeks.{body_of, lookup_of, permit_of, IsHitLook};

use crate::notices::purge_writes;
use bytes::Bytes;
use cache_words::key::HashBinary;
use gateway_exchanges::found::Look;
use gateway_exchanges::outs::Out;
use gateway_rules::moments::{Moment, is_past};
use gateway_rules::stored::Stored;
use gateway_rules::varying::VARY_INDEX_STATUS;
use gateway_state::state::Gateway;
use gateway_types::looks::Permit;
use std::alloc::AllocError;
use tier_model::event::{Answer, LockGiven};

/// Whether what was found isn't later than the last purge of all: it is as nothing.
pub fn is_too_old(g: &Gateway, found: &Option<Stored>) -> bool
    ensures { result ≡ is_too_old g.now.floor found.now }
{
    match (g.floor, found) {
        (Some(purge), Some(stored)) => is_past(purge, stored.shape.updated),
        _ => false,
    }
}

/// Whether it is a list of variants.
pub(crate) fn is_index(found: &Option<Stored>) -> bool
    ensures { result ≡ is_index found.now }
{
    match found {
        Some(stored) => stored.shape.status == VARY_INDEX_STATUS,
        None => false,
    }
}

// What is fresh and whole. Where it is too old it goes, so that not all who find it ask the origin at once.
pub(crate) fn hit_at(
    g: &mut Gateway,
    key: &HashBinary,
    now: Moment,
    out: &mut Out,
) -> Result<Option<Look>, AllocError>
    ensures gateway { g.new ≡ record g.old { tier = g.new.tier; table = g.new.table } }
    ensures current { IfOk result (λ hit. IfSome hit (λ look. is_too_old g.old.floor look.found ≡ false)) }
    ensures hit { IfOk result (λ hit. IfSome hit (λ look. IsHitLook (of_tier now) key.now g.old g.new out.old out.new look)) }
{
    let Some((found, body)) = g.hit(now, key, out)? else {
        return Ok(None);
    };
    let found = Some(found);
    if is_too_old(g, &found) {
        purge_writes(g, key);
        return Ok(None);
    }
    Ok(Some(Look {
        found,
        body,
        fresh: true,
        whole: true,
        permit: Permit::None,
    }))
}

// The whole body that was found; none: the tier refused it.
pub(crate) fn body_at(g: &mut Gateway, x: u64, out: &mut Out) -> Result<Option<Bytes>, AllocError>
    ensures gateway { g.new ≡ record g.old { tier = g.new.tier } }
    ensures read { IfOk result (λ body. IfSome body (λ bytes. (answer : Answer)
        × IsAnswered (TakesAnytime (Action.Read x)) answer_in g.old g.new out.old out.new (Ok (Some answer)) × (bytes ≡ body_of answer))) }
{
    match g.read_at(x, out)? {
        Some(Answer::Bytes(body)) => Ok(Some(body)),
        Some(_other) => Ok(Some(Bytes::new())),
        None => Ok(None),
    }
}

// What a look-up says: fresh, whole, and who may fetch. Who doesn't ask for the permit gets none.
pub(crate) fn lookup_of(answer: &Answer, lock: bool) -> (bool, bool, Permit)
    ensures { result ≡ lookup_of lock answer.now }
{
    match answer {
        Answer::Found {
            fresh,
            complete,
            lock: given,
        } => (*fresh, *complete, permit_of(lock, *given)),
        Answer::Absent { lock: given } => (false, false, permit_of(lock, *given)),
        _ => (false, false, Permit::None),
    }
}

fn permit_of(lock: bool, given: LockGiven) -> Permit
    ensures { result ≡ permit_of lock given }
{
    match given {
        LockGiven::Write if lock => Permit::Write,
        LockGiven::Read if lock => Permit::Wait,
        _ => Permit::None,
    }
}
