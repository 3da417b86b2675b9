//! Steps of a world of actors, and what they answer.

ghost use Rattle.std.specs.Prelude.{◌≡◌, Some};
ghost use Rattle.lru_actors.specs.FaultTexts.{step_fault_text};

use crate::message::Message;
use lru_core::lru_unit::LruFault;
use std::error::Error;
use std::fmt;

/// A step of a world of actors.
#[derive(Debug, Drop)]
pub enum Event<K> {
    /// A message is sent to the shard of its hash.
    Send(Message<K>),
    /// The actor of that shard takes the first message that waits for it, and applies it.
    Act(usize),
    /// Where the weight is past the limit or the number of rows past the watermark, an eviction worker takes the last row of the
    /// shard that two words pick, and puts its pair into the dispatch list.
    Evict(u64, u64),
    /// A callback worker takes the first pair of the dispatch list.
    CallBack,
}

/// What a step did.
#[derive(Debug, Drop)]
pub enum Outcome<K> {
    /// The message waits for that shard.
    Sent(usize),
    /// The message changed its shard's list.
    Applied,
    /// A pair was evicted.
    Evicted,
    /// The key and the weight with which to call back.
    Called(K, usize),
    /// There was nothing to do: no message waits for the shard, no limit is passed, or no pair waits for its callback.
    Nothing,
}

/// Why a step was refused.
#[derive(Debug, Drop)]
pub enum StepFault<K> {
    /// There is no memory for one more message. It comes back, and nothing changes.
    Unsent(Message<K>),
    /// The shard refused the message, which comes back. The message waits no more; nothing else changes.
    Refused(LruFault<Message<K>>),
    /// There is no memory for one more evicted pair. Nothing changes.
    NoRoom,
}

impl<K> fmt::Display for StepFault<K> {
    ghost output = { λ fault. Some (step_fault_text fault) };

    fn fmt<W: fmt::Write>(&self, f: &mut fmt::Formatter<W>) -> fmt::Result {
        match self {
            StepFault::Unsent(_) => f.write_str("out of memory for a message"),
            StepFault::Refused(fault) => fmt::Display::fmt(fault, f),
            StepFault::NoRoom => f.write_str("out of memory for an evicted pair"),
        }
    }
}

impl<K: fmt::Debug + Drop> Error for StepFault<K> {}
