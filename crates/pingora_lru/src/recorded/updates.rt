//! Calls of a recorded shard whose data closures make.

ghost use Rattle.std.specs.Prelude.{◌≡◌, ◌≢◌, ℕ, ◌++◌, ◌∷◌, ◌⊎◌, [], max, not, is_some, Some, None, Err, IfOk, IfErr, OnErr};
ghost use Rattle.lru_core.specs.Rows.{only, admitted, row_of, incremented, total_weight, a_row, IsHeavy, IsLong};
ghost use Rattle.lru_core.specs.Updates.{IsUpdated, IsUpdateRefused};
ghost use Rattle.pingora_lru.specs.Closures.{WasAdmitted, WasRefused};
ghost use Rattle.pingora_lru.specs.Calls.{weight_of};
ghost use Rattle.lru_actors.specs.Messages.{lost, weighing};
ghost use Rattle.pingora_lru.specs.Records.{bare};

use super::RecordedUnit;
use crate::call::{Kept, LruCall, Reply};
use lru_core::lru_unit::LruFault;
use std::hash::BuildHasher;

impl<T: Drop, S: BuildHasher> RecordedUnit<T, S> {
    /// Does `LruUnit::increment_weight`, and keeps it as a `LruCall::IncrementWeight`.
    ///
    /// # Errors
    ///
    /// No room in the record, or what the shard refuses. Nothing changes, and `admit_data` comes back uncalled.
    pub fn increment_weight<F: FnOnce() -> T>(
        &mut self,
        key: u64,
        admit_data: F,
        delta: usize,
        max_weight: Option<usize>,
    ) -> Result<(usize, usize, bool), LruFault<F>>
    where
        F: Drop,
        requires { F.IsAlwaysCallable admit_data }
        ensures reply { IfOk result (λ p. let rows = self.old.rows in p ≡ (total_weight (only key rows), incremented key delta max_weight rows, not (is_some (row_of key rows)))) }
        ensures after { IfOk result (λ p. (d : T) × (self.new.rows ≡ weighing key d p.1 self.old.rows)) }
        ensures admitted { only key self.old.rows ≡ [] → IfOk result (λ p. (d : T) × F.post admit_data d × (self.new.rows ≡ a_row key d p.1 ∷ self.old.rows)) }
        ensures kept { IfOk result (λ p. self.new.kept ≡ self.old.kept ++ record { call = LruCall.IncrementWeight key tt delta max_weight; reply = Reply.Incremented p.0 p.1 p.2 } ∷ []) }
        ensures bound { self.new.bound ≡ self.old.bound }
        ensures err { OnErr result (self.new ≡ self.old) }
        ensures back { IfErr result (λ fault. lost fault ≡ admit_data) }
        ensures heavy { (f : F) → result ≡ Err (LruFault.Weight f) → IsHeavy self.old.bound key (incremented key delta max_weight self.old.rows) self.old.rows }
        ensures long { (f : F) → result ≡ Err (LruFault.Length f) → (only key self.old.rows ≡ []) × IsLong self.old.bound self.old.rows }
    {
        if self.kept.reserve(1).is_err() {
            return Err(LruFault::Memory(admit_data));
        }
        let added: Result<(usize, usize, bool), LruFault<F>> = self
            .unit
            .increment_weight(key, admit_data, delta, max_weight);
        let (old, new, absent) = added?;
        self.kept.push_reserved(Kept {
            call: LruCall::IncrementWeight(key, (), delta, max_weight),
            reply: Reply::Incremented(old, new, absent),
        });
        Ok((old, new, absent))
    }

    /// Does `LruUnit::update_or_admit`, and keeps it as a `LruCall::UpdateOrAdmit` with the weight that was set.
    ///
    /// # Errors
    ///
    /// No room in the record, when neither closure is called; or what the shard refuses, as there. No key, weight, place or
    /// record changes.
    pub fn update_or_admit<U: FnOnce(&mut T, usize) -> usize, A: FnOnce() -> (T, usize)>(
        &mut self,
        key: u64,
        update: U,
        admit_data: A,
    ) -> Result<(Option<usize>, usize), LruFault<Option<T>>>
    where
        U: Drop,
        A: Drop,
        requires update { U.IsAlwaysCallable update }
        requires admit { A.IsAlwaysCallable admit_data }
        ensures reply { IfOk result (λ p. p.0 ≡ weight_of key self.old.rows) }
        ensures after { IfOk result (λ p. (d : T) × (self.new.rows ≡ admitted key d p.1 self.old.rows)) }
        ensures updated { only key self.old.rows ≢ [] → IfOk result (λ p. (v : ℕ) × (p.0 ≡ Some v) × IsUpdated U.FnOnce update key self.old.rows v p.1 self.new.rows) }
        ensures admitted { only key self.old.rows ≡ [] → IfOk result (λ p. WasAdmitted (A.post admit_data) key p.1 self.old.rows self.new.rows) }
        ensures kept { IfOk result (λ p. self.new.kept ≡ self.old.kept ++ record { call = LruCall.UpdateOrAdmit key tt p.1; reply = Reply.Updated p.0 p.1 } ∷ []) }
        ensures bound { self.new.bound ≡ self.old.bound }
        ensures err { OnErr result ((bare self.new.rows ≡ bare self.old.rows) × (self.new.kept ≡ self.old.kept)) }
        ensures update_refused { let s = self.old in only key s.rows ≢ [] → IfErr result (λ e. (e ≡ LruFault.Memory None) ⊎ IsUpdateRefused U.FnOnce update key s.rows s.bound e self.new.rows) }
        ensures refused { let s = self.old in only key s.rows ≡ [] → IfErr result (λ e. (e ≡ LruFault.Memory None) ⊎ WasRefused (A.post admit_data) s.rows s.bound e) }
        ensures same { only key self.old.rows ≡ [] → OnErr result (self.new ≡ self.old) }
        ensures full { result ≡ Err (LruFault.Memory None) → self.new ≡ self.old }
    {
        if self.kept.reserve(1).is_err() {
            return Err(LruFault::Memory(None));
        }
        let added: Result<(Option<usize>, usize), LruFault<Option<T>>> = self
            .unit
            .update_or_admit(key, update, admit_data);
        match added {
            Ok((old, new)) => {
                self.kept.push_reserved(Kept {
                    call: LruCall::UpdateOrAdmit(key, (), new),
                    reply: Reply::Updated(old, new),
                });
                Ok((old, new))
            }
            Err(fault) => Err(fault),
        }
    }
}
