//! Calls that send a message.

ghost use Rattle.std.specs.Prelude.{◌≡◌, ◌%◌, ◌<◌, IfOk, IfErr};
ghost use Rattle.lru_async.specs.Faults.{ComesBackUnsent, unsent};
ghost use Rattle.lru_async.specs.Hashes.{key_hash};
ghost use Rattle.crossbeam_channel.specs.Err.{send_message};
ghost use Rattle.lru_actors.specs.Messages.{hash_of};

use super::AsyncLru;
use crate::command::Command;
use crate::fault::{SendFault, TailFault};
use crate::hash::hash_key;
use crossbeam_channel::{SendError, bounded};
use lru_actors::Message;
use std::hash::Hash;
use std::sync::Wait;

impl<K: Hash + Clone, const N: usize> AsyncLru<K, N> {
    /// Puts a key at the front of its shard with that weight, of 1 at least, in place of what its hash had. Returns the shard.
    ///
    /// # Errors
    ///
    /// The key was not sent, and comes back.
    pub fn admit<R: Wait>(&self, rt: &R, key: K, weight: usize) -> Result<usize, SendFault<K>>
        ensures shard { IfOk result (λ i. i ≡ key_hash (K.hash_input key) % N) }
        ensures back { IfErr result (λ fault. unsent fault ≡ key) }
    {
        match self.send(rt, Message::Admit(hash_key(&key), key, weight)) {
            Ok(shard) => Ok(shard),
            Err(SendFault::Memory(Message::Admit(_, key, _))) => Err(SendFault::Memory(key)),
            Err(SendFault::Closed(Message::Admit(_, key, _))) => Err(SendFault::Closed(key)),
            Err(_) => unreachable!(),
        }
    }

    /// Puts a key at the back of its shard, with its weight as it is, if its hash is not there. Returns the shard.
    ///
    /// # Errors
    ///
    /// The key was not sent, and comes back.
    pub fn insert_tail<R: Wait>(&self, rt: &R, key: K, weight: usize) -> Result<usize, SendFault<K>>
        ensures shard { IfOk result (λ i. i ≡ key_hash (K.hash_input key) % N) }
        ensures back { IfErr result (λ fault. unsent fault ≡ key) }
    {
        match self.send(rt, Message::InsertTail(hash_key(&key), key, weight)) {
            Ok(shard) => Ok(shard),
            Err(SendFault::Memory(Message::InsertTail(_, key, _))) => Err(SendFault::Memory(key)),
            Err(SendFault::Closed(Message::InsertTail(_, key, _))) => Err(SendFault::Closed(key)),
            Err(_) => unreachable!(),
        }
    }

    /// Does what `insert_tail` does, and waits until it is done: returns whether the key's hash was new.
    ///
    /// # Errors
    ///
    /// The key was not sent, and comes back; or its shard has no memory or no room for one more row, or its weight would pass its
    /// bound, which is `Refused`.
    pub fn insert_tail_checked<R: Wait>(
        &self,
        rt: &R,
        key: K,
        weight: usize,
    ) -> Result<bool, TailFault<K>>
        ensures back { IfErr result (ComesBackUnsent key) }
    {
        let hash = hash_key(&key);
        let Ok((to, from)) = bounded(self.alloc, 1) else {
            return Err(TailFault::Unsent(SendFault::Memory(key)));
        };
        match self.send_gated(rt, hash, Command::InsertTail(hash, key, weight, to)) {
            Ok(_) => {}
            Err(SendError::OutOfMemory(Command::InsertTail(_, key, _, _))) => {
                return Err(TailFault::Unsent(SendFault::Memory(key)));
            }
            Err(SendError::Disconnected(Command::InsertTail(_, key, _, _))) => {
                return Err(TailFault::Unsent(SendFault::Closed(key)));
            }
            Err(_) => unreachable!(),
        }
        match from.recv(rt) {
            Ok(Ok(is_new)) => Ok(is_new),
            Ok(Err(fault)) => Err(TailFault::Refused(fault)),
            Err(_) => Err(TailFault::Unanswered),
        }
    }

    /// Adds to the weight of a key, up to a cap, if there is one, but never down, and moves it to the front of its shard. If its
    /// hash is not there, the key is put there with that weight, of 1 at least.
    ///
    /// # Errors
    ///
    /// The message was not sent.
    pub fn increment_weight<R: Wait>(
        &self,
        rt: &R,
        key: &K,
        delta: usize,
        max_weight: Option<usize>,
    ) -> Result<(), SendFault<()>> {
        let Ok(own) = key.clone() else {
            return Err(SendFault::Memory(()));
        };
        self.tell(
            rt,
            Message::IncrementWeight(hash_key(key), own, delta, max_weight),
        )
    }

    /// Takes the row of a key's hash out.
    ///
    /// # Errors
    ///
    /// The message was not sent.
    pub fn remove<R: Wait>(&self, rt: &R, key: &K) -> Result<(), SendFault<()>> {
        self.remove_by_hash(rt, hash_key(key))
    }

    /// Takes the row of a hash out.
    ///
    /// # Errors
    ///
    /// The message was not sent.
    pub fn remove_by_hash<R: Wait>(&self, rt: &R, key_hash: u64) -> Result<(), SendFault<()>> {
        self.tell(rt, Message::Remove(key_hash))
    }

    /// Wakes an eviction worker, which evicts if a limit is passed.
    pub fn trigger_eviction<R: Wait>(&self, rt: &R) {
        let _awake = self.crew.wake.try_send(rt, ());
    }

    // Sends a message that need not come back.
    fn tell<R: Wait>(&self, rt: &R, message: Message<K>) -> Result<(), SendFault<()>> {
        match self.send(rt, message) {
            Ok(_) => Ok(()),
            Err(SendFault::Memory(_)) => Err(SendFault::Memory(())),
            Err(SendFault::Closed(_)) => Err(SendFault::Closed(())),
        }
    }

    // Sends a message to the shard of its hash, which is returned. A message that is not sent comes back.
    fn send<R: Wait>(&self, rt: &R, message: Message<K>) -> Result<usize, SendFault<Message<K>>>
        ensures shard { IfOk result (λ i. i ≡ hash_of message % N) }
        ensures back { IfErr result (λ fault. unsent fault ≡ message) }
    {
        match self.send_gated(rt, message.hash(), Command::Apply(message)) {
            Ok(shard) => Ok(shard),
            Err(SendError::OutOfMemory(Command::Apply(message))) => Err(SendFault::Memory(message)),
            Err(SendError::Disconnected(Command::Apply(message))) => Err(SendFault::Closed(
                message,
            )),
            Err(_) => unreachable!(),
        }
    }

    // Sends a command that changes rows to the shard of a hash, which is returned, once it may be ahead.
    fn send_gated<R: Wait>(
        &self,
        rt: &R,
        hash: u64,
        command: Command<K>,
    ) -> Result<usize, SendError<Command<K>>>
        ensures shard { IfOk result (λ i. i ≡ hash % N) }
        ensures back { IfErr result (λ fault. send_message fault ≡ command) }
    {
        let shard = self.shard_of(hash);
        let gate = &self.crew.counts.gate;
        gate.enter(rt, &self.crew.wake);
        match self.crew.shards[shard].send(rt, command) {
            Ok(()) => Ok(shard),
            Err(unsent) => {
                gate.leave(rt, 1);
                Err(unsent)
            }
        }
    }
}
