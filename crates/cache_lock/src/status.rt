//! How a wait for a permit ended.
ghost use Rattle.std.specs.Prelude.{◌≡◌};
ghost use Rattle.cache_lock.specs.Status.{is_end, status_at, status_or_give_up, status_number, status_name};

/// How a permit ended; `Waiting` while it has not.
#[derive(Clone, Copy, Debug, PartialEq, Eq)]
pub enum LockStatus {
    /// The permit is held.
    Waiting,
    /// The response is stored.
    Done,
    /// The writer failed, and another may not.
    TransientError,
    /// The response is not kept.
    GiveUp,
    /// The permit was dropped.
    Dangling,
    /// A reader waited for its longest time; never stored.
    WaitTimeout,
    /// The permit is older than the lock's age.
    AgeTimeout,
}

impl LockStatus {
    /// Returns the status of a number; none past 6.
    pub fn from_repr(number: u8) -> Option<LockStatus>
        ensures { result ≡ status_at number }
    {
        match number {
            0 => Some(LockStatus::Waiting),
            1 => Some(LockStatus::Done),
            2 => Some(LockStatus::TransientError),
            3 => Some(LockStatus::GiveUp),
            4 => Some(LockStatus::Dangling),
            5 => Some(LockStatus::WaitTimeout),
            6 => Some(LockStatus::AgeTimeout),
            _ => None,
        }
    }

    /// Whether a permit may end with the status: it is neither `Waiting` nor `WaitTimeout`, which is a reader's own.
    pub fn is_end(&self) -> bool
        ensures { result ≡ is_end self.now }
    {
        !matches!(self, LockStatus::Waiting | LockStatus::WaitTimeout)
    }
}

/// The status's name.
impl From<LockStatus> for &'static str {
    ghost from_gives = { λ status name. name.now ≡ status_name status };

    fn from(status: LockStatus) -> &'static str {
        match status {
            LockStatus::Waiting => "Waiting",
            LockStatus::Done => "Done",
            LockStatus::TransientError => "TransientError",
            LockStatus::GiveUp => "GiveUp",
            LockStatus::Dangling => "Dangling",
            LockStatus::WaitTimeout => "WaitTimeout",
            LockStatus::AgeTimeout => "AgeTimeout",
        }
    }
}

impl From<LockStatus> for u8 {
    ghost from_gives = { λ status number. number ≡ status_number status };

    fn from(status: LockStatus) -> u8 {
        match status {
            LockStatus::Waiting => 0,
            LockStatus::Done => 1,
            LockStatus::TransientError => 2,
            LockStatus::GiveUp => 3,
            LockStatus::Dangling => 4,
            LockStatus::WaitTimeout => 5,
            LockStatus::AgeTimeout => 6,
        }
    }
}

impl From<u8> for LockStatus {
    ghost from_gives = { λ number status. status ≡ status_or_give_up number };

    /// A number past 6 is read as `GiveUp`.
    fn from(number: u8) -> LockStatus {
        LockStatus::from_repr(number).unwrap_or(LockStatus::GiveUp)
    }
}
