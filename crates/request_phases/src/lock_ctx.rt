//! What a request keeps of a lock that is on.
ghost use Rattle.std.specs.Prelude.{◌≡◌};
ghost use Rattle.request_phases.specs.Locks.{unlocked};

use cache_lock::Locked;
use cache_words::time::Duration;

/// What a request keeps of a lock that is on. The lock itself is lent to each call.
#[derive(Debug, PartialEq, Eq)]
pub struct LockCtx {
    /// The permit or read lock that is held.
    pub lock: Option<Locked>,
    /// The longest time that the request waits in all; none: as long as permits may be held.
    pub wait_timeout: Option<Duration>,
    /// How often the request asks again after a wait; none leaves that open.
    pub max_retries: Option<usize>,
}

/// Options of a lock, for one request.
#[derive(Clone, Copy, Debug, PartialEq, Eq, Default)]
pub struct CacheOptionOverrides {
    /// The longest time that the request waits in all; none: as long as permits may be held.
    pub wait_timeout: Option<Duration>,
    /// How often the request asks again after a wait; none leaves that open.
    pub max_lock_retries: Option<usize>,
}

impl LockCtx {
    /// Returns one that holds nothing, under these options.
    pub fn new(overrides: Option<CacheOptionOverrides>) -> LockCtx
        ensures { result ≡ unlocked overrides }
    {
        match overrides {
            Some(options) => LockCtx {
                lock: None,
                wait_timeout: options.wait_timeout,
                max_retries: options.max_lock_retries,
            },
            None => LockCtx {
                lock: None,
                wait_timeout: None,
                max_retries: None,
            },
        }
    }
}
