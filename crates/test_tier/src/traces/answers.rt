//! The lines that are written for outcomes and for the report.
use crate::model::entry;
use bytes::Bytes;
use cache_lock::LockStatus;
use std::alloc::Global;
use tier_model::event::{Answer, Done, Entries, LockGiven, TierFault};
use tier_model::report::Report;
use trace_lines::text::{add_outcome_line, add_report_line};

// An outcome for which a line is written.
#[derive(Clone, Copy)]
enum Given {
    Found(bool, bool, LockGiven),
    Absent(LockGiven),
    Waited(Option<LockStatus>),
    Begun,
    Written,
    Pending,
    Bytes(&'static [u8]),
    // A body of three bytes, with two evictions.
    Finished,
    TooHeavy,
    // Not an outcome, but REPORT.
    Report,
}

const WRITTEN: &[(Given, &[u8])] = &[
    (
        Given::Found(true, true, LockGiven::None),
        b"found fresh complete lock=none\n",
    ),
    (
        Given::Found(true, false, LockGiven::None),
        b"found fresh partial lock=none\n",
    ),
    (
        Given::Found(false, true, LockGiven::Write),
        b"found stale complete lock=write\n",
    ),
    (
        Given::Found(false, false, LockGiven::Read),
        b"found stale partial lock=read\n",
    ),
    (Given::Absent(LockGiven::None), b"absent lock=none\n"),
    (Given::Absent(LockGiven::Write), b"absent lock=write\n"),
    (Given::Absent(LockGiven::Read), b"absent lock=read\n"),
    (Given::Waited(None), b"pending\n"),
    (Given::Waited(Some(LockStatus::Done)), b"waited done\n"),
    (
        Given::Waited(Some(LockStatus::TransientError)),
        b"waited transient-error\n",
    ),
    (Given::Waited(Some(LockStatus::GiveUp)), b"waited give-up\n"),
    (
        Given::Waited(Some(LockStatus::Dangling)),
        b"waited dangling\n",
    ),
    (
        Given::Waited(Some(LockStatus::AgeTimeout)),
        b"waited age-timeout\n",
    ),
    (
        Given::Waited(Some(LockStatus::WaitTimeout)),
        b"waited wait-timeout\n",
    ),
    (Given::Begun, b"begun\n"),
    (Given::Written, b"written\n"),
    (Given::Pending, b"pending\n"),
    (Given::Bytes(b"ab\xff"), b"bytes 6162ff\n"),
    (Given::Bytes(b""), b"bytes -\n"),
    (Given::Finished, b"finished 3 evicted=2\n"),
    (Given::TooHeavy, b"fault 11 TooHeavy\n"),
    (Given::Report, REPORT_LINE),
];

const REPORT: Report = Report {
    found: 2,
    absent: 18446744073709551615,
    bodies: 4,
    bytes: 3,
    meta: 7,
    tracked: 5,
    weight: 6,
    evicted: 0,
    external: 0,
};

const REPORT_LINE: &[u8] =
    b"report found=2 absent=18446744073709551615 bodies=4 bytes=3 meta=7 tracked=5 weight=6 evicted=0\n";

fn outcome(alloc: Global, given: Given) -> Option<Result<Answer, TierFault>> {
    match given {
        Given::Found(fresh, complete, lock) => Some(Ok(Answer::Found {
            fresh,
            complete,
            lock,
        })),
        Given::Absent(lock) => Some(Ok(Answer::Absent { lock })),
        Given::Waited(status) => Some(Ok(Answer::Waited(status))),
        Given::Begun => Some(Ok(Answer::Begun)),
        Given::Written => Some(Ok(Answer::Written)),
        Given::Pending => Some(Ok(Answer::Pending)),
        Given::Bytes(bytes) => Some(Ok(Answer::Bytes(Bytes::from_static(bytes)))),
        Given::Finished => Some(Ok(Answer::Finished {
            length: 3,
            evicted: Entries::from_vec(vec![in alloc; entry(alloc, 1), entry(alloc, 1)].ok()?),
        })),
        Given::TooHeavy => Some(Err(TierFault::TooHeavy(Done {
            stored: true,
            admitted: false,
            evicted: Entries::new(alloc),
        }))),
        Given::Report => None,
    }
}

// Whether this is written for an outcome, or for the report.
fn is_written(alloc: Global, given: Given, want: &[u8]) -> bool {
    let mut out = Vec::new(alloc);
    let added = match outcome(alloc, given) {
        Some(outcome) => add_outcome_line(alloc, &mut out, &outcome),
        None => add_report_line(alloc, &mut out, &REPORT),
    };
    added.is_ok() && out.as_slice() == want
}

fn all_are_written(alloc: Global) -> bool {
    let mut all = true;
    for &(given, want) in WRITTEN {
        all = all && is_written(alloc, given, want);
    }
    all
}

#[test]
fn answers_and_a_report_are_written(rt: HostRuntime) {
    assert!(rt; all_are_written(rt.alloc()));
}
