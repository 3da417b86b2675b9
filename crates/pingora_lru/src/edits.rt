//! A shard's edits, each by its call.

ghost use Rattle.std.specs.Prelude.{◌≡◌, ◌-◌, length, slice_get, is_some, IfOk, IfErr, OnOk, OnErr};
ghost use Rattle.std.specs.Option.{option_map};
ghost use Rattle.lru_core.specs.Rows.{row_of, pair_of};
ghost use Rattle.pingora_lru.specs.Calls.{after, reply_of};
ghost use Rattle.lru_actors.specs.Messages.{lost};
ghost use Rattle.pingora_lru.specs.Refusals.{IsReason};

use crate::call::{LruCall, Reply};
use lru_core::lru_unit::{LruFault, LruUnit};
use std::hash::BuildHasher;

// Does a call. A refusal changes nothing, and hands the call back.
pub(crate) fn apply<T: Drop, S: BuildHasher>(
    unit: &mut LruUnit<T, S>,
    call: LruCall<T>,
) -> Result<Reply<T>, LruFault<LruCall<T>>>
    ensures reply { IfOk result (λ r. r ≡ reply_of call unit.old.rows) }
    ensures after { OnOk result (unit.new ≡ record unit.old { rows = after call unit.old.rows }) }
    ensures err { OnErr result (unit.new ≡ unit.old) }
    ensures back { IfErr result (λ fault. lost fault ≡ call) }
    ensures reason { IfErr result (λ fault. IsReason call unit.old.bound unit.old.rows fault) }
{
    match call {
        LruCall::Admit(key, item, weight) => admit(unit, key, item, weight),
        LruCall::InsertTail(key, item, weight) => insert_tail(unit, key, item, weight),
        LruCall::IncrementWeight(key, item, delta, cap) => {
            increment_weight(unit, key, item, delta, cap)
        }
        LruCall::UpdateOrAdmit(key, item, weight) => update_or_admit(unit, key, item, weight),
        LruCall::SetWeight(key, weight) => set_weight(unit, key, weight),
        LruCall::Promote(key) => Ok(Reply::Promoted(unit.access(key))),
        LruCall::PromoteTopN(key, top) => Ok(Reply::Promoted(promote_top_n(unit, key, top))),
        LruCall::Evict => Ok(Reply::Taken(evict(unit))),
        LruCall::Remove(key) => Ok(Reply::Taken(unit.remove(key))),
    }
}

fn admit<T: Drop, S: BuildHasher>(
    unit: &mut LruUnit<T, S>,
    key: u64,
    item: T,
    weight: usize,
) -> Result<Reply<T>, LruFault<LruCall<T>>>
    ensures reply { IfOk result (λ r. r ≡ reply_of (LruCall.Admit key item weight) unit.old.rows) }
    ensures after { OnOk result (unit.new ≡ record unit.old { rows = after (LruCall.Admit key item weight) unit.old.rows }) }
    ensures err { OnErr result (unit.new ≡ unit.old) }
    ensures back { IfErr result (λ fault. lost fault ≡ LruCall.Admit key item weight) }
    ensures reason { IfErr result (λ fault. IsReason (LruCall.Admit key item weight) unit.old.bound unit.old.rows fault) }
{
    match unit.admit(key, item, weight) {
        Ok(old) => Ok(Reply::Admitted(old)),
        Err(LruFault::Memory(back)) => Err(LruFault::Memory(LruCall::Admit(key, back, weight))),
        Err(LruFault::Weight(back)) => Err(LruFault::Weight(LruCall::Admit(key, back, weight))),
        Err(LruFault::Length(back)) => Err(LruFault::Length(LruCall::Admit(key, back, weight))),
    }
}

fn insert_tail<T: Drop, S: BuildHasher>(
    unit: &mut LruUnit<T, S>,
    key: u64,
    item: T,
    weight: usize,
) -> Result<Reply<T>, LruFault<LruCall<T>>>
    ensures reply { IfOk result (λ r. r ≡ reply_of (LruCall.InsertTail key item weight) unit.old.rows) }
    ensures after { OnOk result (unit.new ≡ record unit.old { rows = after (LruCall.InsertTail key item weight) unit.old.rows }) }
    ensures err { OnErr result (unit.new ≡ unit.old) }
    ensures back { IfErr result (λ fault. lost fault ≡ LruCall.InsertTail key item weight) }
    ensures reason { IfErr result (λ fault. IsReason (LruCall.InsertTail key item weight) unit.old.bound unit.old.rows fault) }
{
    match unit.insert_tail(key, item, weight) {
        Ok(added) => Ok(Reply::Inserted(added)),
        Err(LruFault::Memory(back)) => Err(LruFault::Memory(LruCall::InsertTail(
            key, back, weight,
        ))),
        Err(LruFault::Weight(back)) => Err(LruFault::Weight(LruCall::InsertTail(
            key, back, weight,
        ))),
        Err(LruFault::Length(back)) => Err(LruFault::Length(LruCall::InsertTail(
            key, back, weight,
        ))),
    }
}

fn increment_weight<T: Drop, S: BuildHasher>(
    unit: &mut LruUnit<T, S>,
    key: u64,
    item: T,
    delta: usize,
    cap: Option<usize>,
) -> Result<Reply<T>, LruFault<LruCall<T>>>
    ensures reply { IfOk result (λ r. r ≡ reply_of (LruCall.IncrementWeight key item delta cap) unit.old.rows) }
    ensures after { OnOk result (unit.new ≡ record unit.old { rows = after (LruCall.IncrementWeight key item delta cap) unit.old.rows }) }
    ensures err { OnErr result (unit.new ≡ unit.old) }
    ensures back { IfErr result (λ fault. lost fault ≡ LruCall.IncrementWeight key item delta cap) }
    ensures reason { IfErr result (λ fault. IsReason (LruCall.IncrementWeight key item delta cap) unit.old.bound unit.old.rows fault) }
{
    match unit.increment_weight(key, move || item, delta, cap) {
        Ok((old, new, absent)) => Ok(Reply::Incremented(old, new, absent)),
        Err(LruFault::Memory(back)) => Err(LruFault::Memory(LruCall::IncrementWeight(
            key,
            back(),
            delta,
            cap,
        ))),
        Err(LruFault::Weight(back)) => Err(LruFault::Weight(LruCall::IncrementWeight(
            key,
            back(),
            delta,
            cap,
        ))),
        Err(LruFault::Length(back)) => Err(LruFault::Length(LruCall::IncrementWeight(
            key,
            back(),
            delta,
            cap,
        ))),
    }
}

fn update_or_admit<T: Drop, S: BuildHasher>(
    unit: &mut LruUnit<T, S>,
    key: u64,
    item: T,
    weight: usize,
) -> Result<Reply<T>, LruFault<LruCall<T>>>
    ensures reply { IfOk result (λ r. r ≡ reply_of (LruCall.UpdateOrAdmit key item weight) unit.old.rows) }
    ensures after { OnOk result (unit.new ≡ record unit.old { rows = after (LruCall.UpdateOrAdmit key item weight) unit.old.rows }) }
    ensures err { OnErr result (unit.new ≡ unit.old) }
    ensures back { IfErr result (λ fault. lost fault ≡ LruCall.UpdateOrAdmit key item weight) }
    ensures reason { IfErr result (λ fault. IsReason (LruCall.UpdateOrAdmit key item weight) unit.old.bound unit.old.rows fault) }
{
    let old = unit.peek_weight(key);
    match unit.admit(key, item, weight) {
        Ok(_) => Ok(Reply::Updated(old, weight.max(1))),
        Err(LruFault::Memory(back)) => Err(LruFault::Memory(LruCall::UpdateOrAdmit(
            key, back, weight,
        ))),
        Err(LruFault::Weight(back)) => Err(LruFault::Weight(LruCall::UpdateOrAdmit(
            key, back, weight,
        ))),
        Err(LruFault::Length(back)) => Err(LruFault::Length(LruCall::UpdateOrAdmit(
            key, back, weight,
        ))),
    }
}

fn set_weight<T: Drop, S: BuildHasher>(
    unit: &mut LruUnit<T, S>,
    key: u64,
    weight: usize,
) -> Result<Reply<T>, LruFault<LruCall<T>>>
    ensures reply { IfOk result (λ r. r ≡ reply_of (LruCall.SetWeight key weight) unit.old.rows) }
    ensures after { OnOk result (unit.new ≡ record unit.old { rows = after (LruCall.SetWeight key weight) unit.old.rows }) }
    ensures err { OnErr result (unit.new ≡ unit.old) }
    ensures back { IfErr result (λ fault. lost fault ≡ LruCall.SetWeight key weight) }
    ensures reason { IfErr result (λ fault. IsReason (LruCall.SetWeight key weight) unit.old.bound unit.old.rows fault) }
{
    match unit.set_weight(key, weight) {
        Ok(old) => Ok(Reply::WeightSet(old)),
        Err(_) => Err(LruFault::Weight(LruCall::SetWeight(key, weight))),
    }
}

// Moves the row of `key` to the front if it is not among the first `top`, and returns whether there is one.
pub(crate) fn promote_top_n<T, S: BuildHasher>(
    unit: &mut LruUnit<T, S>,
    key: u64,
    top: usize,
) -> bool
    ensures found { result ≡ is_some (row_of key unit.old.rows) }
    ensures after { unit.new ≡ record unit.old { rows = after (LruCall.PromoteTopN key top) unit.old.rows } }
{
    if unit.need_promote(key, top) {
        unit.access(key)
    } else {
        unit.peek_weight(key).is_some()
    }
}

// Removes the last row.
pub(crate) fn evict<T: Drop, S: BuildHasher>(unit: &mut LruUnit<T, S>) -> Option<(T, usize)>
    ensures taken { result ≡ option_map pair_of (slice_get unit.old.rows (length unit.old.rows - 1)) }
    ensures after { unit.new ≡ record unit.old { rows = after LruCall.Evict unit.old.rows } }
{
    unit.evict()
}
