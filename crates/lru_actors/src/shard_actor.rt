//! The actor of one shard.

ghost use Rattle.std.specs.Prelude.{◌≡◌, [], is_some, IfOk, IfErr, OnOk, OnErr, MatchOption};
ghost use Rattle.std.specs.List.{AllZip};
ghost use Rattle.lru_core.specs.Rows.{pairs_of, row_of};
ghost use Rattle.lru_actors.specs.Looks.{IsCopy, IsLastCopy};
ghost use Rattle.lru_actors.specs.Messages.{after, lost, IsReason};

use crate::message::Message;
use lru_core::lru_unit::{LruFault, LruUnit};
use std::alloc::{AllocError, Global};
use std::hash::{BuildHasher, BuildHasherDefault, FoldHasher};

/// A shard's list, as its actor keeps it.
///
/// Rows are found by the hashes of their keys' hashes. `with_capacity` hashes with a fixed start, for keys that the caller chooses
/// itself; `with_hasher` takes a start of the caller's, for keys that attackers choose, who then can't slow look-ups down.
#[derive(Drop)]
pub struct ShardActor<K, S: BuildHasher = BuildHasherDefault<FoldHasher>> {
    /// The rows, keyed by hash, most recent first.
    pub unit: LruUnit<K, S>,
    alloc: Global,
}

impl<K: Drop> ShardActor<K, BuildHasherDefault<FoldHasher>> {
    /// Returns an actor whose shard has no rows, under hashes with a fixed start. Neither their number nor their weight will pass
    /// `bound`. `capacity` is a hint for the room of its rows.
    pub fn with_capacity(alloc: Global, capacity: usize, bound: usize) -> Result<Self, AllocError>
        ensures { IfOk result (λ a. (a.unit.rows ≡ []) × (a.unit.bound ≡ bound)) }
    {
        ShardActor::with_hasher(alloc, BuildHasherDefault::new(), capacity, bound)
    }
}

impl<K: Drop, S: BuildHasher + Copy> ShardActor<K, S> {
    /// The same, with hashes of that start.
    pub fn with_hasher(
        alloc: Global,
        hasher: S,
        capacity: usize,
        bound: usize,
    ) -> Result<Self, AllocError>
        ensures { IfOk result (λ a. (a.unit.rows ≡ []) × (a.unit.bound ≡ bound)) }
    {
        Ok(ShardActor {
            unit: LruUnit::with_hasher(alloc, hasher, capacity, bound)?,
            alloc,
        })
    }
}

impl<K, S: BuildHasher> ShardActor<K, S> {
    /// Moves the row of a hash to the front, and returns whether there is one.
    pub fn promote(&mut self, hash: u64) -> bool
        ensures found { result ≡ is_some (row_of hash self.old.unit.rows) }
        ensures after { self.new ≡ record self.old { unit = record self.old.unit { rows = after (Message.Promote hash) self.old.unit.rows } } }
    {
        self.unit.access(hash)
    }
}

impl<K: Drop, S: BuildHasher> ShardActor<K, S> {
    /// Applies a message.
    ///
    /// # Errors
    ///
    /// The shard has no memory or no room for one more row, or its weight would pass its bound. Nothing changes, and the message
    /// comes back.
    pub fn apply(&mut self, message: Message<K>) -> Result<(), LruFault<Message<K>>>
        ensures after { OnOk result (self.new.unit ≡ record self.old.unit { rows = after message self.old.unit.rows }) }
        ensures err { OnErr result (self.new.unit ≡ self.old.unit) }
        ensures back { IfErr result (λ fault. lost fault ≡ message) }
        ensures reason { IfErr result (λ fault. IsReason message self.old.unit.bound self.old.unit.rows fault) }
    {
        match message {
            Message::Admit(hash, key, weight) => admit(&mut self.unit, hash, key, weight),
            Message::InsertTail(hash, key, weight) => {
                insert_tail(&mut self.unit, hash, key, weight)
            }
            Message::Promote(hash) => {
                let _found = self.promote(hash);
                Ok(())
            }
            Message::Remove(hash) => {
                let _gone = self.unit.remove(hash);
                Ok(())
            }
            Message::IncrementWeight(hash, key, delta, cap) => {
                increment_weight(&mut self.unit, hash, key, delta, cap)
            }
        }
    }
}

fn admit<K: Drop, S: BuildHasher>(
    unit: &mut LruUnit<K, S>,
    hash: u64,
    key: K,
    weight: usize,
) -> Result<(), LruFault<Message<K>>>
    ensures after { OnOk result (unit.new ≡ record unit.old { rows = after (Message.Admit hash key weight) unit.old.rows }) }
    ensures err { OnErr result (unit.new ≡ unit.old) }
    ensures back { IfErr result (λ fault. lost fault ≡ Message.Admit hash key weight) }
    ensures reason { IfErr result (λ fault. IsReason (Message.Admit hash key weight) unit.old.bound unit.old.rows fault) }
{
    match unit.admit(hash, key, weight) {
        Ok(_) => Ok(()),
        Err(LruFault::Memory(key)) => Err(LruFault::Memory(Message::Admit(hash, key, weight))),
        Err(LruFault::Weight(key)) => Err(LruFault::Weight(Message::Admit(hash, key, weight))),
        Err(LruFault::Length(key)) => Err(LruFault::Length(Message::Admit(hash, key, weight))),
    }
}

fn insert_tail<K: Drop, S: BuildHasher>(
    unit: &mut LruUnit<K, S>,
    hash: u64,
    key: K,
    weight: usize,
) -> Result<(), LruFault<Message<K>>>
    ensures after { OnOk result (unit.new ≡ record unit.old { rows = after (Message.InsertTail hash key weight) unit.old.rows }) }
    ensures err { OnErr result (unit.new ≡ unit.old) }
    ensures back { IfErr result (λ fault. lost fault ≡ Message.InsertTail hash key weight) }
    ensures reason { IfErr result (λ fault. IsReason (Message.InsertTail hash key weight) unit.old.bound unit.old.rows fault) }
{
    match unit.insert_tail(hash, key, weight) {
        Ok(_) => Ok(()),
        Err(LruFault::Memory(key)) => Err(LruFault::Memory(Message::InsertTail(hash, key, weight))),
        Err(LruFault::Weight(key)) => Err(LruFault::Weight(Message::InsertTail(hash, key, weight))),
        Err(LruFault::Length(key)) => Err(LruFault::Length(Message::InsertTail(hash, key, weight))),
    }
}

fn increment_weight<K: Drop, S: BuildHasher>(
    unit: &mut LruUnit<K, S>,
    hash: u64,
    key: K,
    delta: usize,
    cap: Option<usize>,
) -> Result<(), LruFault<Message<K>>>
    ensures after { OnOk result (unit.new ≡ record unit.old { rows = after (Message.IncrementWeight hash key delta cap) unit.old.rows }) }
    ensures err { OnErr result (unit.new ≡ unit.old) }
    ensures back { IfErr result (λ fault. lost fault ≡ Message.IncrementWeight hash key delta cap) }
    ensures reason { IfErr result (λ fault. IsReason (Message.IncrementWeight hash key delta cap) unit.old.bound unit.old.rows fault) }
{
    match unit.increment_weight(hash, move || key, delta, cap) {
        Ok(_) => Ok(()),
        Err(LruFault::Memory(back)) => {
            let message = Message::IncrementWeight(hash, back(), delta, cap);
            Err(LruFault::Memory(message))
        }
        Err(LruFault::Weight(back)) => {
            let message = Message::IncrementWeight(hash, back(), delta, cap);
            Err(LruFault::Weight(message))
        }
        Err(LruFault::Length(back)) => {
            let message = Message::IncrementWeight(hash, back(), delta, cap);
            Err(LruFault::Length(message))
        }
    }
}

impl<K: Clone, S: BuildHasher> ShardActor<K, S> {
    /// Returns a clone of the key of the last row, and its weight. The order stays.
    pub fn peek_lru(&self) -> Result<Option<(K, usize)>, AllocError>
        ensures { IfOk result (λ o. MatchOption o (self.now.unit.rows ≡ []) (IsLastCopy K.is_clone self.now.unit.rows)) }
    {
        match self.unit.peek_lru() {
            Some((key, weight)) => Ok(Some((key.clone()?, weight))),
            None => Ok(None),
        }
    }

    /// Returns clones of the keys of all rows with their weights, most recent first.
    pub fn snapshot(&self) -> Result<Vec<(K, usize)>, AllocError>
        ensures { IfOk result (λ v. AllZip (IsCopy K.is_clone) (pairs_of self.now.unit.rows) v.items) }
    {
        let mut pairs = Vec::with_capacity(self.alloc, self.unit.len())?;
        let mut rows = self.unit.iter();
        'rows: while let Some((key, weight)) = rows.next() {
            pairs.push((key.clone()?, weight))?;
        }
        Ok(pairs)
    }
}
