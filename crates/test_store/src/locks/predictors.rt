//! Marks of keys whose responses are not kept.
ghost use Rattle.std.specs.Prelude.{◌<◌, nat_eq, codes};
ghost use Rattle.std.specs.Cmp.Lexicographic.{pointwise};

use cache_heads::NoCacheReason;
use cache_words::key::CacheKey;
use request_predictor::{CacheablePredictor, CustomReasonPredicate, NothingSkipped, Predictor};
use std::alloc::{AllocError, Global};

/// A call, with what it must return. A key is of one byte.
#[derive(Clone, Copy)]
enum Step {
    /// Whether the key is predicted to be kept.
    Predict(u8, bool),
    /// Why it isn't.
    Reason(u8, Option<NoCacheReason>),
    /// Marks the key as kept.
    Keep(u8, bool),
    /// Marks the key as not kept.
    Mark(u8, NoCacheReason, Option<bool>),
}

/// One custom reason is skipped.
#[derive(Clone, Copy, Drop)]
struct OneSkipped {}

impl CustomReasonPredicate for OneSkipped {
    ghost skips = { λ _ text. pointwise nat_eq text (codes "skipped") };

    fn is_skipped(&self, reason: &'static str) -> bool {
        reason == "skipped"
    }
}

const OF_ORIGIN: NoCacheReason = NoCacheReason::OriginNotCache;

const TOO_LARGE: NoCacheReason = NoCacheReason::ResponseTooLarge;

/// The key of a byte, or of none when out of memory.
fn key_of(alloc: Global, byte: u8) -> CacheKey {
    match Vec::from_slice(alloc, &[byte]) {
        Ok(primary) => CacheKey::new(primary, String::new(alloc)),
        Err(AllocError) => CacheKey::new(Vec::new(alloc), String::new(alloc)),
    }
}

fn is_done<P: CacheablePredictor>(alloc: Global, predictor: &mut P, step: Step) -> bool {
    match step {
        Step::Predict(byte, wanted) => {
            predictor.cacheable_prediction(&key_of(alloc, byte)) == wanted
        }
        Step::Reason(byte, wanted) => {
            predictor.predicted_uncacheable_reason(&key_of(alloc, byte)) == wanted
        }
        Step::Keep(byte, wanted) => predictor.mark_cacheable(&key_of(alloc, byte)) == wanted,
        Step::Mark(byte, reason, wanted) => {
            predictor
                .mark_uncacheable(&key_of(alloc, byte), reason)
                .ok()
                == Some(wanted)
        }
    }
}

fn all_done<P: CacheablePredictor>(alloc: Global, predictor: &mut P, steps: &[Step]) -> bool {
    for &step in steps {
        if !is_done(alloc, predictor, step) {
            return false;
        }
    }
    true
}

/// Whether all calls of a predictor of N shards come true; false when out of memory.
fn does<const N: usize>(
    alloc: Global,
    capacity: usize,
    skipped: Option<OneSkipped>,
    steps: &[Step],
) -> bool
    requires { 0 < N }
{
    match Predictor::<N, OneSkipped>::new(alloc, capacity, skipped) {
        Ok(mut predictor) => all_done(alloc, &mut predictor, steps),
        Err(_) => false,
    }
}

/// Only what the origin forbids is remembered, until the key is kept again.
const MARKS: &[Step] = &[
    Step::Predict(1, true),
    Step::Mark(1, NoCacheReason::InternalError, None),
    Step::Predict(1, true),
    Step::Mark(1, NoCacheReason::StorageError, None),
    Step::Predict(1, true),
    Step::Mark(1, OF_ORIGIN, Some(true)),
    Step::Predict(1, false),
    Step::Predict(2, true),
    Step::Keep(1, false),
    Step::Predict(1, true),
    Step::Keep(1, true),
];

/// The reason is the one of the last mark; a mark that isn't remembered leaves it.
const REASONS: &[Step] = &[
    Step::Reason(1, None),
    Step::Mark(1, NoCacheReason::Custom("signed"), Some(true)),
    Step::Reason(1, Some(NoCacheReason::Custom("signed"))),
    Step::Mark(1, TOO_LARGE, Some(false)),
    Step::Reason(1, Some(TOO_LARGE)),
    Step::Mark(1, NoCacheReason::InternalError, None),
    Step::Reason(1, Some(TOO_LARGE)),
    Step::Keep(1, false),
    Step::Reason(1, None),
];

/// These reasons say nothing of later responses.
const FORGOTTEN: &[Step] = &[
    Step::Mark(1, NoCacheReason::NeverEnabled, None),
    Step::Mark(1, NoCacheReason::Deferred, None),
    Step::Mark(1, NoCacheReason::CacheLockGiveUp, None),
    Step::Mark(1, NoCacheReason::CacheLockTimeout, None),
    Step::Mark(1, NoCacheReason::CacheLockRetryLimit, None),
    Step::Mark(1, NoCacheReason::DeclinedToUpstream, None),
    Step::Mark(1, NoCacheReason::UpstreamError, None),
    Step::Mark(1, NoCacheReason::PredictedResponseTooLarge, None),
    Step::Keep(1, true),
];

/// A custom reason that the predicate names is not remembered, nor what never is.
const SKIPPED: &[Step] = &[
    Step::Mark(1, NoCacheReason::InternalError, None),
    Step::Mark(1, NoCacheReason::Custom("other"), Some(true)),
    Step::Predict(1, false),
    Step::Predict(2, true),
    Step::Mark(2, NoCacheReason::Custom("skipped"), None),
    Step::Predict(2, true),
    Step::Mark(1, NoCacheReason::Custom("skipped"), None),
    Step::Reason(1, Some(NoCacheReason::Custom("other"))),
];

/// Without a predicate each custom reason is remembered.
const UNSKIPPED: &[Step] = &[
    Step::Mark(2, NoCacheReason::Custom("skipped"), Some(true)),
    Step::Predict(2, false),
];

/// A mark comes first, a look doesn't move it, and the last of three falls out.
const ORDER: &[Step] = &[
    Step::Mark(1, OF_ORIGIN, Some(true)),
    Step::Mark(2, OF_ORIGIN, Some(true)),
    Step::Mark(3, OF_ORIGIN, Some(true)),
    Step::Mark(1, OF_ORIGIN, Some(false)),
    Step::Predict(2, false),
    Step::Mark(4, OF_ORIGIN, Some(true)),
    Step::Predict(1, false),
    Step::Predict(2, true),
    Step::Predict(3, false),
    Step::Predict(4, false),
];

/// A capacity of 0 is 1.
const ONE: &[Step] = &[
    Step::Mark(1, OF_ORIGIN, Some(true)),
    Step::Predict(1, false),
    Step::Mark(2, OF_ORIGIN, Some(true)),
    Step::Predict(1, true),
    Step::Predict(2, false),
];

const TABLES: &[(usize, bool, &[Step])] = &[
    (10, false, MARKS),
    (10, false, REASONS),
    (10, false, FORGOTTEN),
    (10, true, SKIPPED),
    (10, false, UNSKIPPED),
    (3, false, ORDER),
    (0, false, ONE),
];

#[test]
fn marks_are_remembered(rt: HostRuntime) {
    for &(capacity, skips, steps) in TABLES {
        let skipped = if skips { Some(OneSkipped {}) } else { None };
        assert!(rt; does::<1>(rt.alloc(), capacity, skipped, steps));
    }
}

/// There may be more than 32 lists.
#[test]
fn many_lists(rt: HostRuntime) {
    assert!(rt; does::<64>(rt.alloc(), 10, None, MARKS));
    assert!(rt; !NothingSkipped {}.is_skipped("any"));
}
