//! Why the program ends early.
use curve_lines::RunFault;
use std::alloc::{AllocError, AllocFailed};
use std::io;
use thiserror::Error;

/// Why the program ended early.
#[derive(Debug, Drop, Error)]
pub enum Fault {
    /// The words are no command line of the program, or ask for help or the version.
    #[error("{0}")]
    CommandLine(clap::Error),
    /// The value of an option is none that it may have.
    #[error("{0}")]
    Wrong(&'static str),
    /// The run ended early.
    #[error("{0}")]
    Run(RunFault),
}

impl From<io::Error> for Fault {
    fn from(error: io::Error) -> Fault {
        Fault::Run(RunFault::from(error))
    }
}

impl From<AllocError> for Fault {
    fn from(_error: AllocError) -> Fault {
        Fault::Run(RunFault::Memory)
    }
}

impl<T: Drop> From<AllocFailed<T>> for Fault {
    fn from(_error: AllocFailed<T>) -> Fault {
        Fault::Run(RunFault::Memory)
    }
}

impl From<clap::Error> for Fault {
    fn from(error: clap::Error) -> Fault {
        match error.kind() {
            clap::error::ErrorKind::OutOfMemory => Fault::Run(RunFault::Memory),
            _ => Fault::CommandLine(error),
        }
    }
}
