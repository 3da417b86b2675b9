//! Rows of calls of a lock, with what each must return.
use cache_lock::{LockStatus, UnusableFill, WaitOutcome};

/// What a lock must give, by the core's number.
#[derive(Clone, Copy, PartialEq, Eq)]
pub(super) enum Given {
    Write(u64),
    Read(u64),
}

/// A call, with what it must return. Permits and read locks are named by their core's number: read locks of such a number come
/// from another lock, and what the lock gives is counted until `LeaveRead`.
#[derive(Clone, Copy)]
pub(super) enum Step {
    /// At a second, a key of one byte; key 2 has a stale response.
    Lock(i64, u8, Given),
    Release(u8, u64, LockStatus),
    Unlock(u64, LockStatus),
    DropPermit(u64),
    LeaveRead(u64),
    Publish(u64, u64),
    /// Whether a stub gives a read lock.
    Stub(u64, bool),
    /// At a second, by a reader that can't use fill 7.
    Poll(i64, u64, Option<WaitOutcome>),
    /// At a second, the status that is reported to a reader.
    Status(i64, u64, LockStatus),
    /// Whether the permit has not ended.
    Locked(u64, bool),
    /// At a second, whether the permit is past its age.
    Expired(i64, u64, bool),
    /// The permit's status, and whether a stale response was there.
    Permit(u64, LockStatus, bool),
    /// Whether the lock has the core.
    Has(u64, bool),
}

pub(super) const FILL: UnusableFill = UnusableFill {
    token: 7,
    reason: "old",
};

const RELEASED: Option<WaitOutcome> = Some(WaitOutcome::Released);

const AGED: Option<WaitOutcome> = Some(WaitOutcome::AgeTimeout);

/// One permit a key; a reader is answered once the permit is released.
const GET_RELEASE: &[Step] = &[
    Step::Lock(10, 1, Given::Write(0)),
    Step::Lock(10, 1, Given::Read(0)),
    Step::Lock(10, 2, Given::Write(1)),
    Step::Locked(0, true),
    Step::Permit(0, LockStatus::Waiting, false),
    Step::Permit(1, LockStatus::Waiting, true),
    Step::Poll(10, 0, None),
    Step::Release(1, 0, LockStatus::Done),
    Step::Locked(0, false),
    Step::Poll(10, 0, RELEASED),
    Step::Status(10, 0, LockStatus::Done),
    Step::Lock(10, 1, Given::Write(2)),
    Step::Has(0, true),
    Step::LeaveRead(0),
    Step::Has(0, false),
];

/// A dropped permit lets the next have one.
const DANGLING: &[Step] = &[
    Step::Lock(10, 1, Given::Write(0)),
    Step::Lock(10, 1, Given::Read(0)),
    Step::DropPermit(0),
    Step::Poll(10, 0, RELEASED),
    Step::Status(10, 0, LockStatus::Dangling),
    Step::Lock(10, 1, Given::Write(1)),
    Step::Lock(10, 1, Given::Read(1)),
];

/// Past its age a permit doesn't wait; its late release leaves the new permit.
pub(super) const LATE: &[Step] = &[
    Step::Lock(10, 1, Given::Write(0)),
    Step::Lock(11, 1, Given::Read(0)),
    Step::Poll(11, 0, None),
    Step::Lock(13, 1, Given::Read(0)),
    Step::Status(12, 0, LockStatus::AgeTimeout),
    Step::Locked(0, true),
    Step::Expired(11, 0, false),
    Step::Expired(12, 0, true),
    Step::Poll(12, 0, AGED),
    Step::Locked(0, false),
    Step::Lock(12, 1, Given::Write(1)),
    Step::Release(1, 0, LockStatus::Done),
    Step::Status(12, 0, LockStatus::AgeTimeout),
    Step::Lock(12, 1, Given::Read(1)),
    Step::Release(1, 1, LockStatus::GiveUp),
    Step::Status(12, 1, LockStatus::GiveUp),
    Step::Lock(12, 1, Given::Write(2)),
];

/// A permit that is dropped late leaves the new one; its readers find it dropped.
const LATE_DROP: &[Step] = &[
    Step::Lock(10, 1, Given::Write(0)),
    Step::Lock(11, 1, Given::Read(0)),
    Step::Lock(11, 1, Given::Read(0)),
    Step::Poll(11, 0, None),
    Step::Poll(12, 0, AGED),
    Step::LeaveRead(0),
    Step::Lock(12, 1, Given::Write(1)),
    Step::DropPermit(0),
    Step::Lock(12, 1, Given::Read(1)),
    Step::Poll(12, 0, RELEASED),
    Step::Status(12, 0, LockStatus::Dangling),
];

/// A release comes before the age, the age before a published fill; moments may go back.
const ORDER: &[Step] = &[
    Step::Lock(10, 1, Given::Write(0)),
    Step::Lock(10, 1, Given::Read(0)),
    Step::Publish(0, 6),
    Step::Poll(5, 0, None),
    Step::Publish(0, 7),
    Step::Poll(5, 0, Some(WaitOutcome::Abandoned(FILL))),
    Step::Poll(12, 0, AGED),
    Step::Poll(10, 0, RELEASED),
    Step::DropPermit(0),
    Step::Status(10, 0, LockStatus::Dangling),
];

/// A permit that is unlocked leaves its core to the key, and a permit of no core here changes nothing.
pub(super) const OTHERS: &[Step] = &[
    Step::Lock(10, 1, Given::Write(0)),
    Step::Lock(10, 1, Given::Read(0)),
    Step::Unlock(0, LockStatus::Done),
    Step::Lock(10, 1, Given::Read(0)),
    Step::DropPermit(9),
    Step::Publish(9, 7),
    Step::Poll(10, 9, RELEASED),
    Step::Status(10, 9, LockStatus::Dangling),
    Step::Expired(10, 9, true),
    Step::Permit(9, LockStatus::Dangling, false),
    Step::LeaveRead(0),
    Step::LeaveRead(0),
    Step::Has(0, false),
    Step::Lock(10, 1, Given::Write(1)),
];

/// A permit that is released under another key is dropped, and the permit of that key stays.
const ANOTHER_KEY: &[Step] = &[
    Step::Lock(10, 1, Given::Write(0)),
    Step::Lock(10, 1, Given::Read(0)),
    Step::Lock(10, 3, Given::Write(1)),
    Step::Release(3, 0, LockStatus::Done),
    Step::Status(10, 0, LockStatus::Dangling),
    Step::Lock(10, 3, Given::Read(1)),
    Step::Lock(10, 1, Given::Write(2)),
    Step::Release(1, 2, LockStatus::Done),
    Step::Lock(10, 1, Given::Write(3)),
    Step::Release(3, 1, LockStatus::Done),
    Step::Lock(10, 3, Given::Write(4)),
];

/// A stub's read lock is counted: handing it back leaves the permit. A stub of no core gives none.
const STUBS: &[Step] = &[
    Step::Stub(0, false),
    Step::Lock(10, 1, Given::Write(0)),
    Step::Stub(0, true),
    Step::LeaveRead(0),
    Step::Lock(10, 1, Given::Read(0)),
    Step::LeaveRead(0),
    Step::DropPermit(0),
    Step::Has(0, false),
    Step::Stub(0, false),
];

pub(super) const ROWS: &[&[Step]] = &[
    GET_RELEASE,
    DANGLING,
    LATE,
    LATE_DROP,
    ORDER,
    OTHERS,
    ANOTHER_KEY,
    STUBS,
];
