//! Calls that ask an actor. A question waits for the messages that were sent to its shard before it.

ghost use Rattle.std.specs.Prelude.{◌≡◌, ◌%◌, ◌<◌};

use super::AsyncLru;
use crate::command::Command;
use crate::fault::SendFault;
use crate::hash::hash_key;
use crossbeam_channel::{Receiver, SendError, Sender, bounded};
use std::alloc::AllocError;
use std::hash::Hash;
use std::sync::Wait;

impl<K: Hash + Clone, const N: usize> AsyncLru<K, N> {
    /// Moves a key to the front of its shard, and returns whether its hash was there.
    ///
    /// # Errors
    ///
    /// The question was not sent.
    pub fn promote<R: Wait>(&self, rt: &R, key: &K) -> Result<bool, SendFault<()>> {
        self.promote_by_hash(rt, hash_key(key))
    }

    /// Moves the row of a hash to the front of its shard, and returns whether it was there.
    ///
    /// # Errors
    ///
    /// The question was not sent.
    pub fn promote_by_hash<R: Wait>(&self, rt: &R, key_hash: u64) -> Result<bool, SendFault<()>> {
        let (to, from) = self.reply()?;
        let question = Command::Promote(key_hash, to);
        self.ask(rt, self.shard_of(key_hash), question, from)
    }

    /// Returns whether a key's hash is there. The order stays.
    ///
    /// # Errors
    ///
    /// The question was not sent.
    pub fn peek<R: Wait>(&self, rt: &R, key: &K) -> Result<bool, SendFault<()>> {
        Ok(self.peek_weight(rt, key)?.is_some())
    }

    /// Returns the weight of a key's hash, if it is there. The order stays.
    ///
    /// # Errors
    ///
    /// The question was not sent.
    pub fn peek_weight<R: Wait>(&self, rt: &R, key: &K) -> Result<Option<usize>, SendFault<()>> {
        let hash = hash_key(key);
        let (to, from) = self.reply()?;
        self.ask(rt, self.shard_of(hash), Command::PeekWeight(hash, to), from)
    }

    /// Returns a clone of the key of the last row of a shard, and its weight. The order stays.
    ///
    /// # Errors
    ///
    /// The question was not sent, or there is no memory for the clone.
    pub fn peek_lru<R: Wait>(
        &self,
        rt: &R,
        shard: usize,
    ) -> Result<Option<(K, usize)>, SendFault<()>>
        requires { shard < N }
    {
        let (to, from) = self.reply()?;
        Ok(self.ask(rt, shard, Command::PeekLru(to), from)??)
    }

    /// Returns the keys of all rows of a shard with their weights, most recent first. The keys are clones, which are to equal what
    /// they are clones of.
    ///
    /// # Errors
    ///
    /// The question was not sent, or there is no memory for the clones.
    pub fn snapshot_shard<R: Wait>(
        &self,
        rt: &R,
        shard: usize,
    ) -> Result<Vec<(K, usize)>, SendFault<()>>
        requires within { shard < N }
        requires clones { (key copy : K) → K.is_clone key copy → copy ≡ key }
    {
        let (to, from) = self.reply()?;
        Ok(self.ask(rt, shard, Command::Snapshot(to), from)??)
    }

    /// Returns the weight of the rows of a shard.
    ///
    /// # Errors
    ///
    /// The question was not sent.
    pub fn shard_weight<R: Wait>(&self, rt: &R, shard: usize) -> Result<usize, SendFault<()>>
        requires { shard < N }
    {
        let (to, from) = self.reply()?;
        self.ask(rt, shard, Command::Weigh(to), from)
    }

    // A channel for one reply.
    fn reply<A: Drop>(&self) -> Result<(Sender<A>, Receiver<A>), AllocError> {
        bounded(self.alloc, 1)
    }

    // Sends a question, and waits for the reply to it.
    fn ask<R: Wait, A: Drop>(
        &self,
        rt: &R,
        shard: usize,
        question: Command<K>,
        reply: Receiver<A>,
    ) -> Result<A, SendFault<()>>
        requires { shard < N }
    {
        match self.crew.shards[shard].send(rt, question) {
            Ok(()) => reply.recv(rt).map_err(|_| SendFault::Closed(())),
            Err(SendError::OutOfMemory(_)) => Err(SendFault::Memory(())),
            Err(SendError::Disconnected(_)) => Err(SendFault::Closed(())),
        }
    }
}
