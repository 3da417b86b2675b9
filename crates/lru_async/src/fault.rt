//! Why a call doesn't reach its actor, and why nothing is built.

ghost use Rattle.std.specs.Prelude.{◌≡◌, Some};
ghost use Rattle.lru_async.specs.FaultTexts.{send_fault_text, tail_fault_text, build_fault_text};

use lru_core::lru_unit::LruFault;
use std::alloc::AllocError;
use std::error::Error;
use std::fmt;

/// Why a call was refused, with what it was to send. It changes nothing.
#[derive(Debug, PartialEq, Eq, Drop)]
pub enum SendFault<T> {
    /// There is no memory for one more message.
    Memory(T),
    /// The shard's actor has ended, which it doesn't before the shutdown.
    Closed(T),
}

/// Why a key was not put at the back of its shard. Nothing changes.
#[derive(Debug, Drop)]
pub enum TailFault<K> {
    /// The key was not sent.
    Unsent(SendFault<K>),
    /// The shard refused it.
    Refused(LruFault<K>),
    /// The shard's actor has ended without an answer, which it doesn't before the shutdown.
    Unanswered,
}

/// Why no threads run. Those that were started have ended.
#[derive(Debug, PartialEq, Eq, Drop)]
pub enum BuildFault {
    /// There is no memory for the shards or the channels.
    Memory,
    /// The system makes no more threads.
    NoThread,
}

impl From<AllocError> for BuildFault {
    fn from(_: AllocError) -> BuildFault {
        BuildFault::Memory
    }
}

impl From<AllocError> for SendFault<()> {
    fn from(_: AllocError) -> SendFault<()> {
        SendFault::Memory(())
    }
}

impl<T> fmt::Display for SendFault<T> {
    ghost output = { λ fault. Some (send_fault_text fault) };

    fn fmt<W: fmt::Write>(&self, f: &mut fmt::Formatter<W>) -> fmt::Result {
        f.write_str(match self {
            SendFault::Memory(_) => "out of memory for a message",
            SendFault::Closed(_) => "the shard's actor has ended",
        })
    }
}

impl<T: fmt::Debug + Drop> Error for SendFault<T> {}

impl<K> fmt::Display for TailFault<K> {
    ghost output = { λ fault. Some (tail_fault_text fault) };

    fn fmt<W: fmt::Write>(&self, f: &mut fmt::Formatter<W>) -> fmt::Result {
        match self {
            TailFault::Unsent(fault) => fmt::Display::fmt(fault, f),
            TailFault::Refused(fault) => fmt::Display::fmt(fault, f),
            TailFault::Unanswered => f.write_str("the shard's actor has ended"),
        }
    }
}

impl<K: fmt::Debug + Drop> Error for TailFault<K> {}

impl fmt::Display for BuildFault {
    ghost output = { λ fault. Some (build_fault_text fault) };

    fn fmt<W: fmt::Write>(&self, f: &mut fmt::Formatter<W>) -> fmt::Result {
        f.write_str(match self {
            BuildFault::Memory => "out of memory",
            BuildFault::NoThread => "the system makes no more threads",
        })
    }
}

impl Error for BuildFault {}
