//! Moments and durations.
use crate::words::hash_alike;
use cache_words::laws;
use cache_words::time::{Duration, Moment};
use std::cmp::Ordering;

fn at(seconds: i64, nanoseconds: u32) -> Moment {
    Moment::new(seconds, nanoseconds).unwrap()
}

fn span(seconds: u64, nanoseconds: u32) -> Duration {
    Duration::new(seconds, nanoseconds).unwrap()
}

// The moments so much later and earlier.
fn moved(start: Moment, by: Duration) -> (Option<Moment>, Option<Moment>) {
    (start.checked_add(by), start.checked_sub(by))
}

#[test]
fn moments_are_added_to(rt: HostRuntime) {
    let half = span(2, 500_000_000);
    let (late, early) = (at(13, 100_000_000), at(8, 100_000_000));
    assert!(rt; moved(at(10, 600_000_000), half) == (Some(late), Some(early)));
    assert!(rt; moved(late, half) == (Some(at(15, 600_000_000)), Some(at(10, 600_000_000))));
    assert!(rt; moved(at(0, 0), span(0, 1)) == (Some(at(0, 1)), Some(at(-1, 999_999_999))));
    assert!(rt; moved(at(i64::MAX, 0), span(1, 0)) == (None, Some(at(i64::MAX - 1, 0))));
    assert!(rt; moved(at(i64::MIN, 0), span(0, 1)) == (Some(at(i64::MIN, 1)), None));
    assert!(rt; late.elapsed_since(at(10, 600_000_000)) == half);
    assert!(rt; at(10, 600_000_000).elapsed_since(late) == span(0, 0));
    assert!(rt; at(0, 0).elapsed_since(at(-1, 999_999_999)) == span(0, 1));
    assert!(rt; at(i64::MAX, 0).elapsed_since(at(i64::MIN, 0)) == span(u64::MAX, 0));
    assert!(rt; Moment::new(0, 1_000_000_000).is_none());
    assert!(rt; Moment::from_seconds(-1).is_before_epoch());
    assert!(rt; !Moment::from_seconds(0).is_before_epoch());
}

// Whether the first is no later than the second, the same the other way round, and how they compare.
fn order(first: Moment, second: Moment) -> (bool, bool, Ordering) {
    let is_at_most = first.is_at_most(&second);
    (is_at_most, second.is_at_most(&first), first.cmp(&second))
}

#[test]
fn moments_are_compared(rt: HostRuntime) {
    laws::order_is_by_time();
    assert!(rt; order(at(1, 2), at(1, 2)) == (true, true, Ordering::Equal));
    assert!(rt; order(at(1, 2), at(1, 3)) == (true, false, Ordering::Less));
    assert!(rt; order(at(-1, 9), at(0, 0)) == (true, false, Ordering::Less));
}

// Both together, the same or the longest time, and what is left of the first after the second.
fn both(first: Duration, second: Duration) -> (Option<Duration>, Duration, Duration) {
    let rest = first.saturating_sub(second);
    (
        first.checked_add(second),
        first.saturating_add(second),
        rest,
    )
}

// The same of a sum that there is.
fn sum(sum: Duration, rest: Duration) -> (Option<Duration>, Duration, Duration) {
    (Some(sum), sum, rest)
}

#[test]
fn durations_are_added(rt: HostRuntime) {
    let most = span(u64::MAX, 999_999_999);
    assert!(rt;
        both(span(1, 700_000_000), span(1, 300_000_000)) == sum(span(3, 0), span(0, 400_000_000))
    );
    assert!(rt; both(span(u64::MAX, 0), span(1, 0)) == (None, most, span(u64::MAX - 1, 0)));
    assert!(rt; both(span(1, 0), span(2, 0)) == sum(span(3, 0), span(0, 0)));
    assert!(rt; both(span(2, 0), span(0, 1)) == sum(span(2, 1), span(1, 999_999_999)));
    assert!(rt; both(span(5, 5), span(5, 5)) == sum(span(10, 10), span(0, 0)));
    assert!(rt; Duration::new(0, 1_000_000_000).is_none());
    assert!(rt; Duration::zero() == Duration::from_seconds(0));
}

// Whether the first is longer than the second by each call, and as long as itself.
fn is_longer(longer: Duration, shorter: Duration) -> bool {
    longer.is_at_least(&shorter)
        && !shorter.is_at_least(&longer)
        && longer > shorter
        && longer.is_at_least(&longer)
        && !(longer > longer)
}

// Whether the times of so many seconds, each a moment and no time, hash alike.
fn times_hash_alike(first: i64, second: i64) -> bool {
    let first = (Moment::from_seconds(first), Duration::zero());
    let second = (Moment::from_seconds(second), Duration::zero());
    (first == second) && hash_alike(&first, &second)
}

#[test]
fn durations_are_compared_and_times_hash_alike(rt: HostRuntime) {
    assert!(rt; is_longer(span(1, 700_000_000), span(0, 0)));
    assert!(rt; is_longer(span(2, 0), span(1, 9)));
    assert!(rt; is_longer(span(1, 9), span(1, 8)));
    assert!(rt; times_hash_alike(1, 1));
    assert!(rt; !times_hash_alike(1, 2));
}
