//! Calls of both managers at one shard.

use crate::managers::names::{A, B, C, D, E, F};
use crate::managers::shards::shards_do;
use crate::managers::steps::{Step, list_does};

/// What the entries may weigh, how many there may be, and the calls.
type Case = (usize, Option<usize>, &'static [Step]);

const CASES: &[Case] = &[
    (
        4,
        None,
        &[
            Step::Admit(A, 1, &[]),
            Step::Admit(B, 2, &[]),
            Step::Admit(C, 1, &[]),
            Step::Peek(A, true),
            Step::Admit(D, 2, &[A, B]),
            Step::Peek(A, false),
            Step::Holds(3, 2),
            Step::Evicted(3, 2),
        ],
    ),
    (
        4,
        None,
        &[
            Step::Admit(A, 1, &[]),
            Step::Admit(B, 2, &[]),
            Step::Admit(C, 1, &[]),
            Step::Access(A, 9, true),
            Step::Admit(D, 2, &[B]),
            Step::Holds(4, 3),
        ],
    ),
    (
        4,
        None,
        &[
            Step::Admit(A, 1, &[]),
            Step::Admit(B, 2, &[]),
            Step::Admit(C, 1, &[]),
            Step::Remove(A),
            Step::Remove(A),
            Step::Admit(D, 2, &[B]),
            Step::Holds(3, 2),
        ],
    ),
    (
        4,
        None,
        &[
            Step::Admit(A, 1, &[]),
            Step::Admit(B, 2, &[]),
            Step::Admit(C, 1, &[]),
            Step::Admit(B, 1, &[]),
            Step::Admit(D, 1, &[]),
            Step::Admit(D, 2, &[A]),
            Step::Holds(4, 3),
        ],
    ),
    // What is admitted again is used last.
    (
        4,
        None,
        &[
            Step::Admit(A, 1, &[]),
            Step::Admit(B, 2, &[]),
            Step::Admit(C, 1, &[]),
            Step::Admit(A, 1, &[]),
            Step::Admit(D, 2, &[B]),
            Step::Holds(4, 3),
        ],
    ),
    (
        4,
        None,
        &[
            Step::Access(A, 1, false),
            Step::Access(B, 2, false),
            Step::Access(C, 2, false),
            Step::Holds(5, 3),
            Step::Admit(D, 2, &[A, B]),
        ],
    ),
    (
        4,
        None,
        &[
            Step::Raise(A, 2, None, &[]),
            Step::Raise(B, 100, Some(3), &[A]),
            Step::Holds(3, 1),
        ],
    ),
    (
        10,
        None,
        &[
            Step::Raise(A, 0, None, &[]),
            Step::Raise(B, 3, None, &[]),
            Step::Raise(B, 100, Some(2), &[]),
            Step::Holds(4, 2),
        ],
    ),
    (
        100,
        Some(4),
        &[
            Step::Admit(A, 1, &[]),
            Step::Admit(B, 1, &[]),
            Step::Admit(C, 1, &[]),
            Step::Admit(D, 1, &[]),
            Step::Admit(E, 1, &[A]),
            Step::Admit(F, 1, &[B]),
            Step::Holds(4, 4),
            Step::Evicted(2, 2),
        ],
    ),
    (
        1,
        None,
        &[
            Step::Admit((b"a", Some(1)), 1, &[]),
            Step::Admit((b"a", Some(2)), 1, &[(b"a", Some(1))]),
            Step::Peek(A, false),
            Step::Peek((b"a", Some(2)), true),
        ],
    ),
    (
        2,
        None,
        &[
            Step::AccessTwice(A, 1),
            Step::AccessTwice(B, 1),
            Step::AccessTwice(C, 1),
            Step::Holds(3, 3),
        ],
    ),
    // The evicted weight stays at the greatest number.
    (
        0,
        None,
        &[
            Step::Admit(A, usize::MAX, &[A]),
            Step::Evicted(usize::MAX, 1),
            Step::Admit(B, usize::MAX, &[B]),
            Step::Evicted(usize::MAX, 2),
            Step::Holds(0, 0),
        ],
    ),
];

/// Calls that only one list counts so: an entry weighs what it is put with.
const UNRAISED: &[Step] = &[
    Step::Admit(A, 0, &[]),
    Step::Access(B, 0, false),
    Step::Holds(0, 2),
];

/// The same calls of shards: an entry weighs 1 at least.
const RAISED: &[Step] = &[
    Step::Admit(A, 0, &[]),
    Step::Access(B, 0, false),
    Step::Holds(2, 2),
];

#[test]
fn both_managers_evict_alike(rt: HostRuntime) {
    for &(limit, watermark, steps) in CASES {
        assert!(rt; list_does(rt.alloc(), limit, watermark, None, steps));
        assert!(rt; shards_do::<1>(rt.alloc(), (limit, 0, watermark), None, &[], steps));
    }
    assert!(rt; list_does(rt.alloc(), 1, None, None, UNRAISED));
    assert!(rt; shards_do::<1>(rt.alloc(), (9, 0, None), None, &[], RAISED));
}
