//! What a lock keeps of a permit that it gave.
ghost use Rattle.std.specs.Prelude.{◌≡◌, true};
ghost use Rattle.cache_lock.specs.State.{fresh_core};
ghost use Rattle.cache_lock.specs.Status.{is_waiting, is_end};
ghost use Rattle.cache_lock.specs.Answers.{is_over_age};

use crate::status::LockStatus;
use cache_words::key::HashBinary;
use cache_words::time::{Duration, Moment};

/// A permit as its lock keeps it: since when it is held, for how long others wait for it, and how it ended.
#[derive(Clone, Copy, Debug, PartialEq, Eq)]
pub struct LockCore {
    /// When the permit was given.
    pub lock_start: Moment,
    /// The age from which others don't wait for it.
    pub age_timeout: Duration,
    pub(crate) status: LockStatus,
    pub(crate) stale_writer: bool,
}

impl LockCore {
    /// Returns the core of a permit that is given at a moment; `stale_writer` says that a stale response is there.
    pub fn new(age_timeout: Duration, stale_writer: bool, moment: Moment) -> LockCore
        ensures { result ≡ fresh_core age_timeout stale_writer moment }
    {
        LockCore {
            lock_start: moment,
            age_timeout,
            status: LockStatus::Waiting,
            stale_writer,
        }
    }

    /// Whether the permit has no outcome yet.
    pub fn locked(&self) -> bool
        ensures { result ≡ is_waiting self.now.status }
    {
        matches!(self.status, LockStatus::Waiting)
    }

    /// Stores how the permit ended.
    pub fn unlock(&mut self, reason: LockStatus)
        requires { is_end reason ≡ true }
        ensures { self.new ≡ record self.old { status = reason } }
    {
        self.status = reason;
    }

    /// Returns how the permit ended.
    pub fn lock_status(&self) -> LockStatus
        ensures { result ≡ self.now.status }
    {
        self.status
    }

    /// Whether the permit is at least as old as its age at that moment.
    pub fn is_over_age(&self, moment: Moment) -> bool
        ensures { result ≡ is_over_age self.now moment }
    {
        moment
            .elapsed_since(self.lock_start)
            .is_at_least(&self.age_timeout)
    }

    /// Returns whether the permit was given where a stale response is there.
    pub fn stale_writer(&self) -> bool
        ensures { result ≡ self.now.stale_writer }
    {
        self.stale_writer
    }
}

/// A core with the key that it is of, and the number of permits and read locks that name it.
#[derive(Clone, Copy, Debug, PartialEq, Eq)]
pub struct HeldCore {
    pub(crate) core: LockCore,
    pub(crate) key: HashBinary,
    pub(crate) names: u64,
}
