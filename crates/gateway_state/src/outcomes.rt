//! What the tier answers, as its caller is told: what it refuses is an outcome, and what went for room is told.
ghost use Rattle.std.specs.Prelude.{◌≡◌, ◌++◌, if◌then◌else◌, is_ok, IfOk, OnOk, OnErr, option_map};
ghost use Rattle.tier_model.specs.Calls.{evicted_before};
ghost use Rattle.gateway_exchanges.specs.Replies.{reply_of, with_evicted};
ghost use Rattle.gateway_exchanges.specs.Found.{stored_by};
ghost use Rattle.gateway_state.specs.AtTier.{digests_of, answer_in, is_stored, hit_shown, found_shown, outcome_of, is_purged, TellsEvicted};

use bytes::Bytes;
use cache_entries::entry::CacheEntryKey;
use cache_words::key::{CacheHashKey, HashBinary};
use gateway_exchanges::found::stored_of;
use gateway_exchanges::outs::Out;
use gateway_rules::stored::Stored;
use std::alloc::AllocError;
use tier_model::event::{Answer, Done, TierFault};
use tier_single::{FoundMeta, Hit};

/// Whether anything was removed.
pub fn is_purged(outcome: &Result<Answer, TierFault>) -> bool
    ensures { result ≡ is_purged outcome.now }
{
    matches!(outcome, Ok(Answer::Purged(true)))
}

/// Whether a body was stored; what went for room is told.
pub fn is_stored(outcome: Result<Answer, TierFault>, out: &mut Out) -> Result<bool, AllocError>
    ensures answer { IfOk result (λ a. a ≡ is_stored outcome) }
    ensures evicted { TellsEvicted outcome (is_ok result) out.old out.new }
{
    let stored = matches!(&outcome, Ok(Answer::Finished { .. }));
    match add_evicted_by(out, &outcome) {
        Ok(()) => Ok(stored),
        Err(fault) => Err(fault),
    }
}

/// The body with its head; what went for room is told.
pub fn hit_shown(
    came: Result<Option<Hit>, TierFault>,
    out: &mut Out,
) -> Result<Option<(Stored, Bytes)>, AllocError>
    ensures shown { IfOk result (λ a. a ≡ hit_shown came) }
    ensures evicted { TellsEvicted (outcome_of came) (is_ok result) out.old out.new }
{
    match came {
        Ok(Some(hit)) => Ok(Some((stored_of(hit.meta), hit.body))),
        Ok(None) => Ok(None),
        Err(fault) => match add_refusal(out, &fault) {
            Ok(()) => Ok(None),
            Err(lack) => Err(lack),
        },
    }
}

/// What a look-up answers, with the head of what it found.
pub fn found_shown(
    came: Result<(Answer, Option<FoundMeta>), TierFault>,
    out: &mut Out,
) -> Result<Option<(Answer, Option<Stored>)>, AllocError>
    ensures shown { IfOk result (λ a. a ≡ found_shown came) }
    ensures evicted { TellsEvicted (outcome_of came) (is_ok result) out.old out.new }
{
    match came {
        Ok(found) => {
            let (answer, meta) = found;
            Ok(Some((answer, stored_if(meta))))
        }
        Err(fault) => match add_refusal(out, &fault) {
            Ok(()) => Ok(None),
            Err(lack) => Err(lack),
        },
    }
}

fn stored_if(meta: Option<FoundMeta>) -> Option<Stored>
    ensures { result ≡ option_map stored_by meta }
{
    match meta {
        Some(meta) => Some(stored_of(meta)),
        None => None,
    }
}

/// What an outcome answers, where it isn't refused; what went for room is told.
pub fn answered(
    outcome: Result<Answer, TierFault>,
    out: &mut Out,
) -> Result<Option<Answer>, AllocError>
    ensures answer { IfOk result (λ a. a ≡ answer_in outcome) }
    ensures evicted { TellsEvicted outcome (is_ok result) out.old out.new }
{
    match add_evicted_by(out, &outcome) {
        Ok(()) => Ok(outcome.ok()),
        Err(fault) => Err(fault),
    }
}

/// Whether it isn't refused.
pub fn is_answered(outcome: Result<Answer, TierFault>, out: &mut Out) -> Result<bool, AllocError>
    ensures answer { IfOk result (λ a. a ≡ is_ok outcome) }
    ensures evicted { TellsEvicted outcome (is_ok result) out.old out.new }
{
    match add_evicted_by(out, &outcome) {
        Ok(()) => Ok(outcome.is_ok()),
        Err(fault) => Err(fault),
    }
}

/// Tells what went for room.
pub fn add_evicted_by(out: &mut Out, outcome: &Result<Answer, TierFault>) -> Result<(), AllocError>
    ensures { TellsEvicted outcome.now (is_ok result) out.old out.new }
{
    match outcome {
        Ok(Answer::Finished { evicted, .. }) => add_digests(&mut out.evicted, evicted.as_slice()),
        Ok(Answer::Revalidated { evicted }) => add_digests(&mut out.evicted, evicted.as_slice()),
        Ok(_) => Ok(()),
        Err(fault) => add_refusal(out, fault),
    }
}

fn add_refusal(out: &mut Out, fault: &TierFault) -> Result<(), AllocError>
    ensures { TellsEvicted (Err fault.now) (is_ok result) out.old out.new }
{
    match fault {
        TierFault::NumbersSpent(done)
        | TierFault::TooHeavy(done)
        | TierFault::TooLong(done)
        | TierFault::Memory(done) => add_done(out, done),
        _ => Ok(()),
    }
}

// What went before a refusal.
fn add_done(out: &mut Out, done: &Done) -> Result<(), AllocError>
    ensures { reply_of out.new ≡ (if is_ok result then with_evicted (digests_of (evicted_before done.now)) (reply_of out.old) else reply_of out.old) }
{
    if done.stored {
        add_digests(&mut out.evicted, done.evicted.as_slice())
    } else {
        Ok(())
    }
}

// All or none.
fn add_digests(digests: &mut Vec<HashBinary>, entries: &[CacheEntryKey]) -> Result<(), AllocError>
    ensures ok { OnOk result (digests.new.items ≡ digests.old.items ++ digests_of entries.now) }
    ensures err { OnErr result (digests.new.items ≡ digests.old.items) }
{
    digests.reserve(entries.len())?;
    for entry in entries {
        digests.push_reserved(entry.key().combined_bin());
    }
    Ok(())
}
