//! A shard that keeps a record of its calls and their replies.

ghost use Rattle.std.specs.Prelude.{◌≡◌, ◌<◌, ◌++◌, ◌∷◌, [], IfOk, IfErr, OnOk, OnErr};
ghost use Rattle.pingora_lru.specs.Calls.{after, reply_of, bare_call, bare_reply};
ghost use Rattle.lru_actors.specs.Messages.{lost};
ghost use Rattle.pingora_lru.specs.Records.{IsRecord, bare};
ghost use Rattle.pingora_lru.specs.Refusals.{IsReason};

mod updates;

use crate::call::{Kept, LruCall, Reply};
use crate::edits::apply;
use lru_core::lru_unit::{LruFault, LruUnit};
use std::alloc::{AllocError, Global};
use std::hash::{BuildHasher, BuildHasherDefault, FoldHasher};
use std::marker::Model;

/// A shard that keeps its calls and their replies, as keys and weights. A contract sees its rows, its bound and its record; the
/// calls of the record lead from no rows to the rows that are there, and each reply is that of the rows at its call.
#[derive(Drop)]
pub struct RecordedUnit<T, S: BuildHasher = BuildHasherDefault<FoldHasher>> {
    unit: LruUnit<T, S>,
    kept: Vec<Kept>,
}

impl<T, S: BuildHasher> Model for RecordedUnit<T, S> {
    ghost use Rattle.pingora_lru.specs.Records.{Recorded};

    ghost Value = { Recorded T };

    ghost use Rattle.std.specs.Prelude.{[]};
    ghost use Rattle.pingora_lru.specs.Records.{IsRecord, bare};

    ghost view = { λ u. record { rows = u.unit.rows; bound = u.unit.bound; kept = u.kept.items } };

    ghost invariant = { λ u. IsRecord [] u.kept.items (bare u.unit.rows) };
}

impl<T: Drop> RecordedUnit<T, BuildHasherDefault<FoldHasher>> {
    /// Returns a shard without rows and calls, under hashes with a fixed start. Neither the number of rows nor their weight will
    /// pass `bound`. `capacity` is a hint for the room of its rows.
    pub fn with_capacity(alloc: Global, capacity: usize, bound: usize) -> Result<Self, AllocError>
        ensures { IfOk result (λ u. u ≡ record { rows = []; bound = bound; kept = [] }) }
    {
        RecordedUnit::with_hasher(alloc, BuildHasherDefault::new(), capacity, bound)
    }
}

impl<T: Drop, S: BuildHasher + Copy> RecordedUnit<T, S> {
    /// Returns a shard without rows and calls, whose look-ups hash with that start. Neither the number of rows nor their weight
    /// will pass `bound`. `capacity` is a hint for the room of its rows.
    pub fn with_hasher(
        alloc: Global,
        hasher: S,
        capacity: usize,
        bound: usize,
    ) -> Result<Self, AllocError>
        ensures { IfOk result (λ u. u ≡ record { rows = []; bound = bound; kept = [] }) }
    {
        Ok(RecordedUnit {
            unit: LruUnit::with_hasher(alloc, hasher, capacity, bound)?,
            kept: Vec::new(alloc),
        })
    }
}

impl<T: Drop, S: BuildHasher> RecordedUnit<T, S> {
    /// Does a call, and keeps it with its reply.
    ///
    /// # Errors
    ///
    /// No room in the record, or what the shard refuses. Nothing changes, and the call comes back.
    pub fn step(&mut self, call: LruCall<T>) -> Result<Reply<T>, LruFault<LruCall<T>>>
        ensures reply { IfOk result (λ r. r ≡ reply_of call self.old.rows) }
        ensures after { OnOk result (self.new.rows ≡ after call self.old.rows) }
        ensures kept { IfOk result (λ r. self.new.kept ≡ self.old.kept ++ record { call = bare_call call; reply = bare_reply r } ∷ []) }
        ensures bound { self.new.bound ≡ self.old.bound }
        ensures err { OnErr result (self.new ≡ self.old) }
        ensures back { IfErr result (λ fault. lost fault ≡ call) }
        ensures reason { IfErr result (λ fault. IsReason call self.old.bound self.old.rows fault) }
    {
        if self.kept.reserve(1).is_err() {
            return Err(LruFault::Memory(call));
        }
        let bare = call.bare();
        match apply(&mut self.unit, call) {
            Ok(reply) => {
                self.kept.push_reserved(Kept {
                    call: bare,
                    reply: reply.bare(),
                });
                Ok(reply)
            }
            Err(fault) => Err(fault),
        }
    }

    /// Reserves room for `additional` more rows. It is a hint.
    pub fn reserve(&mut self, additional: usize) -> Result<(), AllocError>
        ensures same { self.new ≡ self.old }
        ensures refused { OnErr result (0 < additional) }
    {
        self.unit.reserve(additional)
    }

    /// Returns the shard under the record, for looks.
    pub fn unit(&self) -> &LruUnit<T, S>
        ensures rows { result.now.rows ≡ self.now.rows }
        ensures bound { result.now.bound ≡ self.now.bound }
        ensures replays { IsRecord [] self.now.kept (bare self.now.rows) }
    {
        &self.unit
    }

    /// Returns the calls and replies, the first first.
    pub fn kept(&self) -> &[Kept]
        ensures kept { result.now ≡ self.now.kept }
        ensures replays { IsRecord [] self.now.kept (bare self.now.rows) }
    {
        self.kept.as_slice()
    }
}
