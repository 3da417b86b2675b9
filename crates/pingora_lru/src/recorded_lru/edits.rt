//! Uses, insertion and weights, each a call that is kept under the lock of its shard.

ghost use Rattle.std.specs.Prelude.{◌≡◌, ℕ, ◌%◌, ◌⊎◌, List, Some, None, IsSome, IfOk, IfErr, MatchOption};
ghost use Rattle.lru_core.specs.Rows.{incremented};
ghost use Rattle.lru_core.specs.declared.rows.Row.{Row};
ghost use Rattle.pingora_lru.specs.Calls.{item_of, weight_of};
ghost use Rattle.lru_actors.specs.Messages.{lost};
ghost use Rattle.pingora_lru.specs.Closures.{WasCalled};
ghost use Rattle.pingora_lru.specs.Records.{IsLed, IsReply, IsRefused};
ghost use Rattle.pingora_lru.specs.Refusals.{IsReason};

use super::RecordedLru;
use crate::call::{LruCall, Reply};
use crate::counts::Sums;
use lru_core::lru_unit::LruFault;
use std::alloc::AllocError;
use std::hash::BuildHasher;
use std::sync::Wait;

impl<T: Drop, const N: usize, S: BuildHasher> RecordedLru<T, N, S> {
    /// Moves the row of `key` to the front of its shard, and returns whether there is one.
    ///
    /// # Errors
    ///
    /// No room in the record. Nothing changes.
    pub fn promote<R: Wait>(&self, rt: &R, key: u64) -> Result<bool, AllocError>
        ensures { IfOk result (λ found. IsReply {T = T} (LruCall.Promote key) (Reply.Promoted found)) }
    {
        match self.step(rt, self.shard_of(key), LruCall::Promote(key)) {
            Ok(Reply::Promoted(found)) => Ok(found),
            Ok(_) => unreachable!(),
            Err(_) => Err(AllocError),
        }
    }

    /// Moves the row of `key` to the front of its shard if it is not among the first `top`, and returns whether there is one.
    ///
    /// # Errors
    ///
    /// No room in the record. Nothing changes.
    pub fn promote_top_n<R: Wait>(&self, rt: &R, key: u64, top: usize) -> Result<bool, AllocError>
        ensures { IfOk result (λ found. IsReply {T = T} (LruCall.PromoteTopN key top) (Reply.Promoted found)) }
    {
        match self.step(rt, self.shard_of(key), LruCall::PromoteTopN(key, top)) {
            Ok(Reply::Promoted(found)) => Ok(found),
            Ok(_) => unreachable!(),
            Err(_) => Err(AllocError),
        }
    }

    /// Inserts `item` under `key` at the front of its shard, with a weight of 1 at least, in place of what the key had.
    /// Returns the shard.
    ///
    /// # Errors
    ///
    /// No room in the record, or what the shard refuses. Nothing changes, and the item comes back.
    pub fn admit<R: Wait>(
        &self,
        rt: &R,
        key: u64,
        item: T,
        weight: usize,
    ) -> Result<usize, LruFault<T>>
        ensures shard { IfOk result (λ i. i ≡ key % N) }
        ensures back { IfErr result (λ fault. lost fault ≡ item) }
        ensures reason { IfErr result (λ fault. IsRefused (LruCall.Admit key item weight) fault) }
    {
        let shard = self.shard_of(key);
        match self.step(rt, shard, LruCall::Admit(key, item, weight)) {
            Ok(_) => Ok(shard),
            Err(fault) => Err(item_back(fault)),
        }
    }

    /// Inserts `item` under a new key at the back of its shard, with its weight as it is, and returns `true`. Nothing changes
    /// if the key is there.
    ///
    /// # Errors
    ///
    /// No room in the record, or what the shard refuses. Nothing changes, and the item comes back.
    pub fn insert_tail<R: Wait>(
        &self,
        rt: &R,
        key: u64,
        item: T,
        weight: usize,
    ) -> Result<bool, LruFault<T>>
        ensures reply { IfOk result (λ added. IsReply (LruCall.InsertTail key item weight) (Reply.Inserted added)) }
        ensures back { IfErr result (λ fault. lost fault ≡ item) }
        ensures reason { IfErr result (λ fault. IsRefused (LruCall.InsertTail key item weight) fault) }
    {
        match self.step(
            rt,
            self.shard_of(key),
            LruCall::InsertTail(key, item, weight),
        ) {
            Ok(Reply::Inserted(added)) => Ok(added),
            Ok(_) => unreachable!(),
            Err(fault) => Err(item_back(fault)),
        }
    }

    /// Sets the weight of `key`, as it is, and returns the old one, if the key is there. The order stays.
    ///
    /// # Errors
    ///
    /// No room in the record, or the shard's weight would pass its bound. Nothing changes.
    pub fn set_weight<R: Wait>(
        &self,
        rt: &R,
        key: u64,
        weight: usize,
    ) -> Result<Option<usize>, LruFault<()>>
        ensures reply { IfOk result (λ old. IsReply {T = T} (LruCall.SetWeight key weight) (Reply.WeightSet old)) }
        ensures reason { IfErr result (λ fault. IsRefused {T = T} (LruCall.SetWeight key weight) fault) }
    {
        match self.step(rt, self.shard_of(key), LruCall::SetWeight(key, weight)) {
            Ok(Reply::WeightSet(old)) => Ok(old),
            Ok(_) => unreachable!(),
            Err(LruFault::Memory(_)) => Err(LruFault::Memory(())),
            Err(LruFault::Weight(_)) => Err(LruFault::Weight(())),
            Err(LruFault::Length(_)) => Err(LruFault::Length(())),
        }
    }

    /// Adds `delta` to the weight of `key`, as `Lru::increment_weight`. `admit_data` runs under the shard's lock.
    ///
    /// # Errors
    ///
    /// No room in the record, or what the shard refuses. Nothing changes, and `admit_data` comes back uncalled.
    pub fn increment_weight<R: Wait, F: FnOnce() -> T>(
        &self,
        rt: &R,
        key: u64,
        admit_data: F,
        delta: usize,
        max_weight: Option<usize>,
    ) -> Result<usize, LruFault<F>>
    where
        F: Drop,
        requires { F.IsAlwaysCallable admit_data }
        ensures weight { IfOk result (λ w. (rows : List (Row T)) × IsLed rows × (w ≡ incremented key delta max_weight rows)) }
        ensures back { IfErr result (λ fault. lost fault ≡ admit_data) }
    {
        let mut unit = self.shards[self.shard_of(key)].lock(rt);
        let before = Sums::of(unit.unit());
        let added: Result<(usize, usize, bool), LruFault<F>> = unit.increment_weight(
            key, admit_data, delta, max_weight,
        );
        self.counts.recount(unit.unit(), before);
        let now = added?;
        Ok(now.1)
    }

    /// Updates or inserts, as `Lru::update_or_admit`. The kept weight is the one that was set. Both run under the shard's
    /// lock, and must not ask for it.
    ///
    /// # Errors
    ///
    /// No room in the record, when neither is called; or what the shard refuses, as there.
    pub fn update_or_admit<R: Wait, U: FnOnce(&mut T, usize) -> usize, A: FnOnce() -> (T, usize)>(
        &self,
        rt: &R,
        key: u64,
        update: U,
        admit_data: A,
    ) -> Result<Option<usize>, LruFault<Option<T>>>
    where
        U: Drop,
        A: Drop,
        requires update { U.IsAlwaysCallable update }
        requires admit { A.IsAlwaysCallable admit_data }
        ensures old { IfOk result (λ old. (rows : List (Row T)) × IsLed rows × (old ≡ weight_of key rows)) }
        ensures called { IfOk result (λ old. MatchOption old ((d : T) × (w : ℕ) × A.post admit_data (d, w)) (λ v. WasCalled U.FnOnce update v)) }
        ensures back { IfErr result (λ fault. MatchOption (lost fault) ((fault ≡ LruFault.Memory None) ⊎ ((fault ≡ LruFault.Weight None) × ((v : ℕ)
            × WasCalled U.FnOnce update v))) (λ d. (w : ℕ) × A.post admit_data (d, w))) }
    {
        let mut unit = self.shards[self.shard_of(key)].lock(rt);
        let before = Sums::of(unit.unit());
        let added: Result<(Option<usize>, usize), LruFault<Option<T>>> = unit.update_or_admit(
            key, update, admit_data,
        );
        self.counts.recount(unit.unit(), before);
        match added {
            Ok(now) => Ok(now.0),
            Err(fault) => Err(fault),
        }
    }
}

// The refusal of a call with its data alone.
fn item_back<T: Drop>(fault: LruFault<LruCall<T>>) -> LruFault<T>
    requires { IsSome (item_of (lost fault)) }
    ensures back { Some (lost result) ≡ item_of (lost fault) }
    ensures reason { (call : LruCall T) (bound : ℕ) (rows : List (Row T)) → IsReason call bound rows fault → IsReason call bound rows result }
{
    match fault {
        LruFault::Memory(call) => LruFault::Memory(call.into_item().unwrap()),
        LruFault::Weight(call) => LruFault::Weight(call.into_item().unwrap()),
        LruFault::Length(call) => LruFault::Length(call.into_item().unwrap()),
    }
}
