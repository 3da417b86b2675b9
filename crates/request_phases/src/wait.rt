//! A request's wait for a permit.
ghost use Rattle.std.specs.Prelude.{◌≡◌, true, Some};
ghost use Rattle.cache_lock.specs.State.{status_of, after_all};
ghost use Rattle.cache_lock.specs.Answers.{wait_outcome, poll_changes};
ghost use Rattle.request_phases.specs.Locks.{waits, timeout_of};
ghost use Rattle.request_phases.specs.Waits.{first_poll, time_waited, is_over_timeout, released_as, ended_as, told, found_by, wait_told, request_polled, lock_polled, digest_polled};

use crate::digest::{HttpCacheDigest, LockAbandon};
use crate::request_lock::RequestLock;
use cache_heads::NoCacheReason;
use cache_lock::{
    CacheKeyLock, LockStatus, LockWaitOutcome, Locked, ReadLock, UnusableFills, WaitOutcome,
};
use cache_store::trace::Span;
use cache_words::time::{Duration, Moment};

// What is reported of a permit that has ended.
fn released_as(status: LockStatus) -> LockWaitOutcome
    ensures { result ≡ released_as status }
{
    match status {
        LockStatus::Done => LockWaitOutcome::Done,
        LockStatus::TransientError => LockWaitOutcome::TransientError,
        LockStatus::GiveUp => LockWaitOutcome::GiveUp,
        LockStatus::Waiting | LockStatus::Dangling => LockWaitOutcome::Dangling,
        LockStatus::WaitTimeout => LockWaitOutcome::WaitTimeout,
        LockStatus::AgeTimeout => LockWaitOutcome::AgeTimeout,
    }
}

// What is reported of what a poll found, by the core's status.
fn ended_as(status: LockStatus, found: WaitOutcome) -> LockWaitOutcome
    ensures { result ≡ ended_as status found }
{
    match found {
        WaitOutcome::Released => released_as(status),
        WaitOutcome::AgeTimeout => LockWaitOutcome::AgeTimeout,
        WaitOutcome::Abandoned(fill) => LockWaitOutcome::Abandoned {
            reason: NoCacheReason::Custom(fill.reason),
            token: fill.token,
        },
    }
}

// The status of a core; `Dangling` where the lock has none of that number.
fn status_of<L: CacheKeyLock>(lock: &L, number: u64) -> LockStatus
    ensures { result ≡ status_of number (L.state lock.now) }
{
    match lock.core(number) {
        Some(core) => core.lock_status(),
        None => LockStatus::Dangling,
    }
}

// Polls a read lock, reports what came of it, and the lock's trace of an outcome.
fn poll<L: CacheKeyLock>(
    lock: &mut L,
    read: &ReadLock,
    over: bool,
    unusable: &UnusableFills,
    moment: Moment,
) -> Option<LockWaitOutcome>
    ensures outcome { let s = L.state lock.old in let n = read.now.number in result ≡ told (status_of n s) over (wait_outcome n unusable.now.fills.items moment s) }
    ensures change { let s = L.state lock.old in let n = read.now.number in L.state lock.new ≡ after_all (poll_changes n (wait_outcome n unusable.now.fills.items moment s)) s }
{
    let status = status_of(lock, read.number());
    let outcome = match lock.poll_wait(read, unusable, moment) {
        Some(found) => ended_as(status, found),
        None if over => LockWaitOutcome::WaitTimeout,
        None => return None,
    };
    lock.trace_lock_wait(&Span::inactive(), read, outcome.lock_status());
    Some(outcome)
}

impl HttpCacheDigest {
    // Adds a wait that has ended.
    fn add_wait(&mut self, outcome: LockWaitOutcome, waited: Duration)
        ensures { self.new ≡ digest_polled (Some outcome) waited self.old }
    {
        self.add_lock_duration(waited);
        if let LockWaitOutcome::Abandoned { reason, token } = outcome {
            self.lock_abandon = Some(LockAbandon { reason, token });
        }
    }
}

impl RequestLock {
    // When the read lock was polled first: now, if it wasn't before.
    fn first_poll(&self, moment: Moment) -> Moment
        ensures { result ≡ first_poll self.now moment }
    {
        self.polled.unwrap_or(moment)
    }

    // Whether a wait of that length is at least as long as the longest one, less what the request waited before.
    fn is_over(&self, before: Option<Duration>, waited: Duration) -> bool
        ensures { result ≡ is_over_timeout (timeout_of self.now) before waited }
    {
        match self.wait_timeout() {
            Some(longest) => {
                let before = before.unwrap_or(Duration::zero());
                waited.is_at_least(&longest.saturating_sub(before))
            }
            None => false,
        }
    }

    /// Returns how the wait for a permit ended, the first that holds: the permit has ended, as its status says; it is past its
    /// age; its writer published a fill that the request can't use; the wait is at least as long as the longest one, less what the
    /// digest says was waited before. `None` while the wait goes on. A wait counts from its first poll; moments may come in any order.
    ///
    /// With an outcome the read lock is left, and the digest has the time of the wait, and why it was given up for a fill.
    pub fn wait<L: CacheKeyLock>(
        &mut self,
        lock: &mut L,
        digest: &mut HttpCacheDigest,
        unusable: &UnusableFills,
        moment: Moment,
    ) -> Option<LockWaitOutcome>
        requires { waits self.old ≡ true }
        ensures outcome { result ≡ wait_told self.old digest.old unusable.now.fills.items moment (L.state lock.old) }
        ensures request { self.new ≡ request_polled result moment self.old }
        ensures lock { let s = L.state lock.old in L.state lock.new ≡ lock_polled self.old (found_by self.old unusable.now.fills.items moment s) result s }
        ensures digest { digest.new ≡ digest_polled result (time_waited self.old moment) digest.old }
    {
        let first = self.first_poll(moment);
        let waited = moment.elapsed_since(first);
        let over = self.is_over(digest.lock_duration, waited);
        let outcome = match self.held() {
            Some(Locked::Read(read)) => poll(lock, read, over, unusable, moment),
            _ => unreachable!(),
        };
        match outcome {
            Some(ended) => {
                self.leave(lock);
                digest.add_wait(ended, waited);
            }
            None => self.polled = Some(first),
        }
        outcome
    }
}
