//! How the program ends.
ghost use Rattle.std.specs.Prelude.{◌≡◌};
ghost use Rattle.trace_replay.specs.OptionStatuses.{status_of as options_status};
ghost use Rattle.trace_replay.specs.Statuses.{status_of, fault_status, replay_status};

use crate::options::OptionsError;
use crate::replay::ReplayError;
use std::alloc::AllocError;
use std::io;
use thiserror::Error;

/// Why the program ended early.
#[derive(Debug, Drop, Error)]
pub enum Fault {
    /// The command line gives no options.
    #[error("{0}")]
    Options(OptionsError),
    /// The replay ended early.
    #[error("{0}")]
    Replay(ReplayError),
}

impl From<io::Error> for Fault {
    fn from(error: io::Error) -> Fault {
        Fault::Replay(ReplayError::from(error))
    }
}

impl From<AllocError> for Fault {
    fn from(_error: AllocError) -> Fault {
        Fault::Replay(ReplayError::Memory)
    }
}

/// A fault that a program ends with.
pub trait Ends {
    ghost use Rattle.std.specs.Prelude.{ℕ};

    ghost ends: { Self → ℕ };

    /// Returns the exit status: 0 if help or the version was requested, 1 on an I/O error, out of memory or where no shard was saved,
    /// 2 on a bad command line.
    fn exit_status(&self) -> u8
        ensures { result ≡ ends self.now };
}

impl Ends for ReplayError {
    ghost ends = { replay_status };

    fn exit_status(&self) -> u8 {
        1
    }
}

impl Ends for OptionsError {
    ghost ends = { options_status };

    fn exit_status(&self) -> u8 {
        self.status()
    }
}

impl Ends for Fault {
    ghost ends = { fault_status };

    fn exit_status(&self) -> u8 {
        match self {
            Fault::Replay(error) => error.exit_status(),
            Fault::Options(error) => error.exit_status(),
        }
    }
}

/// The exit status of what came of a replay, of a command line or of the program: 0 on success, and else that of the fault.
pub fn status<E: Ends>(outcome: &Result<(), E>) -> u8
    ensures { result ≡ status_of E.ends outcome.now }
{
    match outcome {
        Ok(()) => 0,
        Err(fault) => fault.exit_status(),
    }
}
