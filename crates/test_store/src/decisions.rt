//! Admission, and the limit on the size of a body.
ghost use Rattle.std.specs.Prelude.{⊤};

use crate::samples::known;
use cache_heads::ErrorType;
use cache_store::admission::{AdmissionPolicy, Decision};
use cache_store::max_file_size::{ERR_RESPONSE_TOO_LARGE, MaxFileSizeTracker};
use cache_words::key::CacheKey;
use std::alloc::Global;
use std::test::*;

// Admits keys of at least so many bytes.
#[derive(Clone, Copy)]
struct LongKeys {
    least: usize,
}

impl AdmissionPolicy for LongKeys {
    ghost decides = { λ _ _ _. ⊤ };

    fn observe(&self, key: &CacheKey) -> Decision {
        if key.primary_key().len() < self.least {
            Decision::Defer { observed: 3 }
        } else {
            Decision::Ready { observed: 4 }
        }
    }
}

// What such a policy decides on a key of two bytes.
fn decided(alloc: Global, policy: &dyn AdmissionPolicy) -> (u32, bool) {
    let decision = policy.observe(&known(alloc, b"aa"));
    (decision.observed(), decision.is_deferred())
}

// A limit, bytes that are added twice, and whether they are within the limit each time.
const SIZES: &[(usize, usize, bool, bool)] = &[
    (0, 0, true, true),
    (0, 1, false, false),
    (5, 3, true, false),
    (6, 3, true, true),
    (usize::MAX - 1, usize::MAX, false, false),
    (usize::MAX, usize::MAX, true, true),
];

fn is_counted(limit: usize, bytes: usize, first: bool, second: bool) -> bool {
    let mut tracker = MaxFileSizeTracker::new(limit);
    let before = tracker.allow_caching();
    let added = [tracker.add_body_bytes(bytes), tracker.add_body_bytes(bytes)];
    let after = tracker.allow_caching();
    [before, added[0], added[1], after] == [true, first, second, second]
        && tracker.max_file_size_bytes() == limit
}

#[test]
fn policies_decide_and_sizes_are_counted(rt: HostRuntime) {
    let decided = [
        decided(rt.alloc(), &LongKeys { least: 2 }),
        decided(rt.alloc(), &LongKeys { least: 3 }),
    ];
    assert!(rt; decided == [(4, false), (3, true)]);
    for &(limit, bytes, first, second) in SIZES {
        assert!(rt; is_counted(limit, bytes, first, second));
    }
    assert!(rt; ERR_RESPONSE_TOO_LARGE == ErrorType::Custom("response too large"));
}
