//! Actors, eviction workers and callback workers in one thread, step by step.

ghost use Rattle.std.specs.Prelude.{◌≡◌, ◌%◌, ◌<◌, ◌∷◌, ◌++◌, ℕ, [], length, true, false, replicate, None, Ok, IfSome, IfNone, IfOk, IfErr, OnOk, OnErr};
ghost use Rattle.lru_core.specs.Cores.{Core, is_over, shard_of, shard_bound, IsStep};
ghost use Rattle.lru_actors.specs.Messages.{hash_of, lost, IsReason};
ghost use Rattle.lru_actors.specs.Steps.{applied, IsSent, IsTaken};
ghost use Rattle.lru_actors.specs.Worlds.{Turn, History, State, IsWorld, Tells, queue_of};

mod edits;

use crate::event::{Event, Outcome, StepFault};
use crate::message::Message;
use crate::queue::Queue;
use edits::apply;
use lru_core::LruCore;
use lru_core::lru_unit::LruFault;
use std::alloc::{AllocError, Global};
use std::collections::VecDeque;
use std::hash::{BuildHasher, BuildHasherDefault, FoldHasher};
use std::marker::Model;

/// N shards with their queues of messages, and the evicted pairs that wait for their callbacks.
///
/// Rows are found by the hashes of their keys' hashes. `new` hashes with a fixed start, for keys that the caller chooses itself;
/// `with_hasher` takes a start of the caller's, for keys that attackers choose, who then can't slow look-ups down.
#[derive(Drop)]
pub struct World<K, const N: usize, S: BuildHasher = BuildHasherDefault<FoldHasher>> {
    core: LruCore<K, N, S>,
    queues: Vec<Queue<Message<K>>>,
    dispatch: VecDeque<(K, usize)>,
}

impl<K, const N: usize, S: BuildHasher> Model for World<K, N, S> {
    ghost use Rattle.lru_actors.specs.Worlds.{State};

    ghost Value = { State K };

    ghost use Rattle.std.specs.Prelude.{◌≡◌, length};

    ghost view = { λ w. record { core = w.core; queues = w.queues.items; dispatch = w.dispatch.items } };

    ghost invariant = { λ w. length w.queues.items ≡ N };
}

impl<K: Drop, const N: usize> World<K, N, BuildHasherDefault<FoldHasher>> {
    /// Returns shards without rows, under hashes with a fixed start, with no messages. Past `weight_limit`, or past that number of
    /// rows, an eviction step evicts.
    pub fn new(
        alloc: Global,
        weight_limit: usize,
        len_watermark: Option<usize>,
    ) -> Result<Self, AllocError>
        requires { 0 < N }
        ensures lists { IfOk result (λ w. w.core ≡ record { shards = replicate N []; limit = weight_limit; watermark = len_watermark; evicted_weight = 0; evicted_len = 0 }) }
        ensures begun { IfOk result (λ w. IsWorld N w.core [] w) }
    {
        World::with_hasher(
            alloc,
            BuildHasherDefault::new(),
            weight_limit,
            len_watermark,
        )
    }
}

impl<K: Drop, const N: usize, S: BuildHasher + Copy> World<K, N, S> {
    /// The same, with hashes of that start.
    pub fn with_hasher(
        alloc: Global,
        hasher: S,
        weight_limit: usize,
        len_watermark: Option<usize>,
    ) -> Result<Self, AllocError>
        requires { 0 < N }
        ensures lists { IfOk result (λ w. w.core ≡ record { shards = replicate N []; limit = weight_limit; watermark = len_watermark; evicted_weight = 0; evicted_len = 0 }) }
        ensures begun { IfOk result (λ w. IsWorld N w.core [] w) }
    {
        let mut queues = Vec::new(alloc);
        'queues: for _ in 0..N {
            queues.push(Queue::new(alloc))?;
        }
        Ok(World {
            core: LruCore::with_hasher(alloc, hasher, weight_limit, 0, len_watermark)?,
            queues,
            dispatch: VecDeque::new(alloc),
        })
    }
}

impl<K: Drop, const N: usize, S: BuildHasher> World<K, N, S> {
    /// Does one step. Each history that the world may have come from has one turn more then, which the answer gives.
    ///
    /// # Errors
    ///
    /// No memory for a message or a pair, or a message that its shard refuses.
    pub fn step(&mut self, event: Event<K>) -> Result<Outcome<K>, StepFault<K>>
        ensures { (first : Core K) (h : History K) → IsWorld N first h self.old → (t : Turn K) × Tells N self.old event result t × IsWorld N first (t ∷ h) self.new }
    {
        match event {
            Event::Send(message) => match self.send(message) {
                Ok(shard) => Ok(Outcome::Sent(shard)),
                Err(back) => Err(StepFault::Unsent(back)),
            },
            Event::Act(shard) => match self.act(shard) {
                Ok(true) => Ok(Outcome::Applied),
                Ok(false) => Ok(Outcome::Nothing),
                Err(fault) => Err(StepFault::Refused(fault)),
            },
            Event::Evict(a, b) => match self.evict(a, b) {
                Ok(true) => Ok(Outcome::Evicted),
                Ok(false) => Ok(Outcome::Nothing),
                Err(_) => Err(StepFault::NoRoom),
            },
            Event::CallBack => match self.call_back() {
                Some(pair) => Ok(Outcome::Called(pair.0, pair.1)),
                None => Ok(Outcome::Nothing),
            },
        }
    }
}

impl<K: Drop, const N: usize, S: BuildHasher> World<K, N, S> {
    // Puts a message into the queue of its shard, which is returned.
    fn send(&mut self, message: Message<K>) -> Result<usize, Message<K>>
        ensures ok { IfOk result (λ i. (i ≡ hash_of message % N) × (i < N) × IsSent self.old i message self.new) }
        ensures err { OnErr result (self.new ≡ self.old) }
        ensures back { IfErr result (λ back. back ≡ message) }
        ensures lists { length self.old.queues ≡ N }
    {
        let shard = message.hash() as usize % self.core.shards();
        self.queues[shard].push(message)?;
        Ok(shard)
    }

    // Takes the first message that waits for a shard.
    fn take(&mut self, shard: usize) -> Option<Message<K>>
        ensures some { IfSome result (λ m. IsTaken self.old shard m self.new × (self.new.core ≡ self.old.core)) }
        ensures none { IfNone result ((queue_of self.old shard ≡ []) × (self.new ≡ self.old)) }
        ensures lists { length self.old.queues ≡ N }
    {
        if shard < self.queues.len() {
            self.queues[shard].pop()
        } else {
            None
        }
    }

    // Applies the first message that waits for a shard, and returns whether there was one.
    fn act(&mut self, shard: usize) -> Result<bool, LruFault<Message<K>>>
        ensures some { result ≡ Ok true → (m : Message K) × IsTaken self.old shard m self.new × (self.new.core ≡ applied N self.old.core m) }
        ensures none { result ≡ Ok false → (queue_of self.old shard ≡ []) × (self.new ≡ self.old) }
        ensures refused { IfErr result (λ fault. IsTaken self.old shard (lost fault) self.new × (self.new.core ≡ self.old.core)) }
        ensures reason { IfErr result (λ fault. let m = lost fault in IsReason m (shard_bound N) (shard_of N self.old.core (hash_of m)) fault) }
        ensures lists { length self.old.queues ≡ N }
    {
        let Some(message) = self.take(shard) else {
            return Ok(false);
        };
        match apply(&mut self.core, message) {
            Ok(()) => Ok(true),
            Err(fault) => Err(fault),
        }
    }

    // Evicts a pair by two words, where a limit is passed, and returns whether it did.
    fn evict(&mut self, a: u64, b: u64) -> Result<bool, AllocError>
        ensures some { result ≡ Ok true → (pair : K × ℕ) × IsStep N self.old.core a b pair self.new.core × (self.new.dispatch ≡ self.old.dispatch ++ pair ∷ []) × (self.new.queues ≡ self.old.queues) }
        ensures none { result ≡ Ok false → (is_over self.old.core ≡ false) × (self.new ≡ self.old) }
        ensures err { OnErr result ((is_over self.old.core ≡ true) × (self.new ≡ self.old)) }
    {
        if !self.core.is_over() {
            return Ok(false);
        }
        self.dispatch.reserve(1)?;
        let pair = self.core.evict_step(a, b).unwrap();
        self.dispatch.push_back_reserved(pair);
        Ok(true)
    }

    // Takes the first pair that waits for its callback.
    fn call_back(&mut self) -> Option<(K, usize)>
        ensures some { IfSome result (λ pair. (self.old.dispatch ≡ pair ∷ self.new.dispatch) × (self.new.core ≡ self.old.core) × (self.new.queues ≡ self.old.queues)) }
        ensures none { IfNone result ((self.old.dispatch ≡ []) × (self.new ≡ self.old)) }
    {
        self.dispatch.pop_front()
    }
}

impl<K, const N: usize, S: BuildHasher> World<K, N, S> {
    /// Returns the lists of the shards, for looks.
    pub fn core(&self) -> &LruCore<K, N, S>
        ensures { result.now ≡ self.now.core }
    {
        &self.core
    }

    /// Returns the evicted pairs that wait for their callbacks, the first first.
    pub fn dispatch(&self) -> &VecDeque<(K, usize)>
        ensures { result.now.items ≡ self.now.dispatch }
    {
        &self.dispatch
    }
}
