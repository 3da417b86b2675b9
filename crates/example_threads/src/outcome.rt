//! What comes of the calls, and what can keep them from being made.
ghost use Rattle.std.specs.Prelude.{◌≡◌, ◌≢◌, ◌+◌, ◌<◌, ◌^◌, OnOk};
ghost use Rattle.tier_model.specs.declared.event.TierFault.TheVariants.{NoRecord};

use cache_evict::PackWriteFault;
use cache_tier::{Answer, GatherFault, PassFault, Report, TierFault};
use std::alloc::AllocError;
use std::io;
use std::time::Duration;

/// What came of calls. The counts stop at 2^64 - 1.
#[derive(Clone, Copy)]
pub struct Tally {
    /// The calls that were made.
    pub calls: u64,
    /// Those that the tier answered. The others it refused.
    pub answered: u64,
    /// The look-ups that found a whole body, still fresh.
    pub fresh: u64,
    /// The bytes that were read.
    pub bytes: u64,
}

impl Tally {
    /// Returns the tally of no call.
    pub fn new() -> Tally
        ensures { result ≡ record { calls = 0; answered = 0; fresh = 0; bytes = 0 } }
    {
        Tally {
            calls: 0,
            answered: 0,
            fresh: 0,
            bytes: 0,
        }
    }

    /// Counts a call that was refused. Its caller goes on, but where there is no memory, or the call was not made at all.
    pub fn refuse(&mut self, fault: &TierFault) -> Result<(), Trouble>
        requires { self.old.calls + 1 < 2 ^ 64 }
        ensures made { OnOk result (fault.now ≢ NoRecord) }
        ensures calls { OnOk result (self.new.calls ≡ self.old.calls + 1) }
    {
        match fault {
            TierFault::NoRecord => return Err(Trouble::NoRecord),
            TierFault::Memory(_) => return Err(Trouble::Memory),
            _ => self.calls += 1,
        }
        Ok(())
    }

    /// Counts a call that was answered.
    pub fn answer(&mut self, answer: &Answer)
        requires { self.old.calls + 1 < 2 ^ 64 }
        ensures { self.new.calls ≡ self.old.calls + 1 }
    {
        self.calls += 1;
        self.answered = self.answered.saturating_add(1);
        match answer {
            Answer::Found {
                fresh: true,
                complete: true,
                lock: _,
            } => self.fresh = self.fresh.saturating_add(1),
            Answer::Bytes(bytes) => {
                self.bytes = self.bytes.saturating_add(bytes.len() as u64);
            }
            _ => {}
        }
    }

    /// Returns both tallies together.
    pub fn with(self, other: Tally) -> Tally
        ensures { self.calls + other.calls < 2 ^ 64 → result.calls ≡ self.calls + other.calls }
    {
        Tally {
            calls: self.calls.saturating_add(other.calls),
            answered: self.answered.saturating_add(other.answered),
            fresh: self.fresh.saturating_add(other.fresh),
            bytes: self.bytes.saturating_add(other.bytes),
        }
    }
}

/// What came of the sharing.
#[derive(Clone, Copy)]
pub struct Day {
    /// What came of the calls of all threads.
    pub tally: Tally,
    /// How many calls the tier has, as it says once it is closed.
    pub recorded: u64,
    pub report: Report,
    /// How many notes of the history a replay comes to; none: nothing was replayed.
    pub replayed: Option<u64>,
    /// How long the threads took for their calls.
    pub took: Duration,
}

/// What can't be done.
#[derive(Clone, Copy)]
pub enum Trouble {
    CommandLine,
    Io,
    Memory,
    NoRecord,
    NotShared(PackWriteFault),
    NoPass(PassFault),
    NotGathered(GatherFault),
    /// So many passes are outstanding.
    Outstanding(u64),
}

impl From<AllocError> for Trouble {
    fn from(_error: AllocError) -> Trouble {
        Trouble::Memory
    }
}

impl From<io::Error> for Trouble {
    fn from(error: io::Error) -> Trouble {
        match error.kind() {
            io::ErrorKind::OutOfMemory => Trouble::Memory,
            _ => Trouble::Io,
        }
    }
}

/// Says what can't be done.
pub fn advice(trouble: &Trouble) -> &'static str {
    match trouble {
        Trouble::CommandLine => "usage: example_threads kept|counted CALLS [timed]",
        Trouble::Io => "the clock can't be read, or standard output not written",
        Trouble::Memory => "out of memory",
        Trouble::NoRecord => "no memory for the record of a call, which was not made",
        Trouble::NotShared(PackWriteFault::TooLong) =>
            "a shard has more entries than its text can count",
        Trouble::NotShared(PackWriteFault::Memory) => "no memory to share the tier",
        Trouble::NoPass(PassFault::PassesSpent) => "no pass is left",
        Trouble::NoPass(PassFault::Memory) => "no memory for a pass",
        Trouble::NotGathered(GatherFault::PassDiffers { .. }) =>
            "a pass is not what the history has of its caller",
        Trouble::NotGathered(GatherFault::Memory) => "no memory to gather the passes",
        Trouble::Outstanding(_) => "a pass was lost",
    }
}
