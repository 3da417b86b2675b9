//! Statuses by number and name, cores, and what waits end with.
use cache_heads::NoCacheReason;
use cache_lock::{
    CacheKeyLock, CacheLock, LockCore, LockStatus, LockWaitOutcome, Locked, UnusableFill,
    UnusableFills, WritePermit,
};
use cache_words::time::{Duration, Moment};
use std::alloc::Global;
use std::hash::{BuildHasherDefault, FoldHasher};

const ROWS: &[(u8, LockStatus, &str)] = &[
    (0, LockStatus::Waiting, "Waiting"),
    (1, LockStatus::Done, "Done"),
    (2, LockStatus::TransientError, "TransientError"),
    (3, LockStatus::GiveUp, "GiveUp"),
    (4, LockStatus::Dangling, "Dangling"),
    (5, LockStatus::WaitTimeout, "WaitTimeout"),
    (6, LockStatus::AgeTimeout, "AgeTimeout"),
];

#[test]
fn statuses_have_numbers_and_names(rt: HostRuntime) {
    for &(number, status, name) in ROWS {
        assert!(rt; LockStatus::from_repr(number) == Some(status));
        assert!(rt; u8::from(status) == number);
        let text: &'static str = status.into();
        assert!(rt; text == name);
    }
    assert!(rt; LockStatus::from_repr(7) == None);
    assert!(rt; LockStatus::from(7) == LockStatus::GiveUp);
}

const OUTCOMES: &[(LockWaitOutcome, LockStatus)] = &[
    (LockWaitOutcome::Done, LockStatus::Done),
    (LockWaitOutcome::TransientError, LockStatus::TransientError),
    (LockWaitOutcome::Dangling, LockStatus::Dangling),
    (LockWaitOutcome::WaitTimeout, LockStatus::WaitTimeout),
    (LockWaitOutcome::AgeTimeout, LockStatus::AgeTimeout),
    (LockWaitOutcome::GiveUp, LockStatus::GiveUp),
    (
        LockWaitOutcome::Abandoned {
            reason: NoCacheReason::ResponseTooLarge,
            token: 7,
        },
        LockStatus::GiveUp,
    ),
];

#[test]
fn outcomes_have_statuses(rt: HostRuntime) {
    for &(outcome, status) in OUTCOMES {
        assert!(rt; outcome.lock_status() == status);
    }
}

#[test]
fn a_core_is_locked_until_it_is_unlocked(rt: HostRuntime) {
    let mut core = LockCore::new(Duration::from_seconds(2), true, Moment::from_seconds(10));
    assert!(rt; (core.locked(), core.stale_writer()) == (true, true));
    assert!(rt; !core.is_over_age(Moment::from_seconds(11)));
    assert!(rt; core.is_over_age(Moment::from_seconds(12)));
    core.unlock(LockStatus::Done);
    assert!(rt; (core.locked(), core.lock_status()) == (false, LockStatus::Done));
}

const FILLS: &[UnusableFill] = &[
    UnusableFill {
        token: 7,
        reason: "old",
    },
    UnusableFill {
        token: 8,
        reason: "other",
    },
];

fn first_of(alloc: Global, published: &[u64]) -> Option<Option<u64>> {
    let mut list = Vec::new(alloc);
    list.extend_from_slice(FILLS).ok()?;
    let fills = UnusableFills::new(list);
    if fills.fills() != FILLS {
        return None;
    }
    Some(fills.first_match(published).map(|fill| fill.token))
}

/// The fills' order decides, not that of the tokens.
#[test]
fn the_first_fill_that_is_published(rt: HostRuntime) {
    let alloc = rt.alloc();
    assert!(rt; first_of(alloc, &[9, 8, 7]) == Some(Some(7)));
    assert!(rt; first_of(alloc, &[8]) == Some(Some(8)));
    assert!(rt; first_of(alloc, &[]) == Some(None));
}

/// A custom reason gives up.
#[test]
fn what_a_lock_tells_by_default(rt: HostRuntime) {
    let start: BuildHasherDefault<FoldHasher> = BuildHasherDefault::new();
    let mut lock = CacheLock::with_hasher(rt.alloc(), Duration::from_seconds(2), start);
    assert!(rt; lock.custom_lock_status("any") == LockStatus::GiveUp);
    let locked = Locked::Write(WritePermit::new(0));
    assert!(rt; locked.is_write());
    lock.leave(locked);
}
