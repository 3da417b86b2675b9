//! Calls of a shard, one after another, and what it then shows.

use lru_core::lru_unit::{LruUnit, LruUnitIter};
use std::alloc::Global;

fn pair(row: Option<(&u32, usize)>) -> Option<(u32, usize)> {
    match row {
        Some((data, weight)) => Some((*data, weight)),
        None => None,
    }
}

/// Whether an iterator gives these data and weights.
pub fn gives(mut rows: LruUnitIter<'_, u32>, wanted: &[(u32, usize)]) -> bool {
    for &row in wanted {
        if pair(rows.next()) != Some(row) {
            return false;
        }
    }
    rows.next().is_none()
}

fn shows(unit: &LruUnit<u32>, rows: &[(u32, usize)]) -> bool {
    unit.len() == rows.len() && gives(unit.iter(), rows)
}

// A shard with this room, and then with room for a row more.
fn shard(alloc: Global, capacity: usize, bound: usize) -> LruUnit<u32> {
    let mut unit = LruUnit::with_capacity(alloc, capacity, bound).unwrap();
    unit.reserve(1).unwrap();
    unit
}

// An update that adds 1 to the data, and so much to the weight.
fn raise(
    unit: &mut LruUnit<u32>,
    key: u64,
    by: usize,
    new: (u32, usize),
) -> Option<(Option<usize>, usize)> {
    let raise = |data: &mut u32, weight: usize| {
        *data = data.wrapping_add(1);
        weight.saturating_add(by)
    };
    unit.update_or_admit(key, raise, || new).ok()
}

#[test]
fn rows_are_used_weighed_and_evicted(rt: HostRuntime) {
    let mut unit = shard(rt.alloc(), 2, 100);
    assert!(rt; unit.admit(2, 20, 2).ok() == Some(0));
    assert!(rt; shows(&unit, &[(20, 2)]));
    assert!(rt; unit.admit(4, 40, 4).ok() == Some(0));
    assert!(rt; shows(&unit, &[(40, 4), (20, 2)]));
    assert!(rt; unit.admit(2, 21, 5).ok() == Some(2));
    assert!(rt; shows(&unit, &[(21, 5), (40, 4)]));
    assert!(rt; !unit.access(9));
    assert!(rt; (unit.peek(4).copied(), unit.peek_weight(4)) == (Some(40), Some(4)));
    assert!(rt; !unit.access(9));
    assert!(rt; (unit.peek(9).copied(), unit.peek_weight(9)) == (None, None));
    assert!(rt; !unit.access(9));
    assert!(rt; pair(unit.peek_lru()) == Some((40, 4)));
    assert!(rt; !unit.access(9));
    assert!(rt; unit.need_promote(4, 1));
    assert!(rt; !unit.access(9));
    assert!(rt; !unit.need_promote(2, 1));
    assert!(rt; !unit.access(9));
    assert!(rt; !unit.need_promote(9, 1));
    assert!(rt; unit.access(4));
    assert!(rt; shows(&unit, &[(40, 4), (21, 5)]));
    assert!(rt; unit.insert_tail(6, 60, 0).ok() == Some(true));
    assert!(rt; shows(&unit, &[(40, 4), (21, 5), (60, 0)]));
    assert!(rt; unit.insert_tail(6, 61, 9).ok() == Some(false));
    assert!(rt; pair(unit.peek_lru()) == Some((60, 0)));
    assert!(rt; unit.set_weight(6, 7).ok() == Some(Some(0)));
    assert!(rt; pair(unit.peek_lru()) == Some((60, 7)));
    assert!(rt; unit.set_weight(9, 7).ok() == Some(None));
    assert!(rt; shows(&unit, &[(40, 4), (21, 5), (60, 7)]));
    assert!(rt; unit.evict() == Some((60, 7)));
    assert!(rt; shows(&unit, &[(40, 4), (21, 5)]));
    assert!(rt; unit.remove(4) == Some((40, 4)));
    assert!(rt; shows(&unit, &[(21, 5)]));
    assert!(rt; unit.evict() == Some((21, 5)));
    assert!(rt; pair(unit.peek_lru()) == None);
    assert!(rt; unit.evict() == None);
    assert!(rt; shows(&unit, &[]));
    assert!(rt; unit.evict() == None);
    assert!(rt; unit.weight() == 0);
}

// Increments up to a cap.
#[test]
fn weights_grow_up_to_a_cap(rt: HostRuntime) {
    let mut unit = shard(rt.alloc(), 0, 100);
    assert!(rt; unit.increment_weight(1, || 10, 100, Some(3)).ok() == Some((0, 3, true)));
    assert!(rt; shows(&unit, &[(10, 3)]));
    assert!(rt; unit.increment_weight(1, || 11, 100, Some(2)).ok() == Some((3, 3, false)));
    assert!(rt; shows(&unit, &[(10, 3)]));
    assert!(rt; unit.increment_weight(2, || 20, 5, Some(0)).ok() == Some((0, 1, true)));
    assert!(rt; shows(&unit, &[(20, 1), (10, 3)]));
    assert!(rt; unit.increment_weight(1, || 12, 4, None).ok() == Some((3, 7, false)));
    assert!(rt; shows(&unit, &[(10, 7), (20, 1)]));
    assert!(rt; unit.increment_weight(3, || 30, 93, None).ok() == None);
    assert!(rt; (unit.peek(3).copied(), unit.peek_weight(3)) == (None, None));
    assert!(rt; !unit.access(9));
    assert!(rt; unit.weight() == 8);
}

// An update past the bound leaves the weight and the place.
#[test]
fn weights_stay_within_the_bound(rt: HostRuntime) {
    let mut unit = shard(rt.alloc(), 0, 10);
    assert!(rt; unit.admit(1, 10, 4).ok() == Some(0));
    assert!(rt; shows(&unit, &[(10, 4)]));
    assert!(rt; unit.admit(2, 20, 1).ok() == Some(0));
    assert!(rt; shows(&unit, &[(20, 1), (10, 4)]));
    assert!(rt; raise(&mut unit, 1, 6, (0, 0)) == None);
    assert!(rt; shows(&unit, &[(20, 1), (11, 4)]));
    assert!(rt; raise(&mut unit, 3, 0, (30, 6)) == None);
    assert!(rt; shows(&unit, &[(20, 1), (11, 4)]));
    assert!(rt; unit.set_weight(1, 10).ok() == None);
    assert!(rt; pair(unit.peek_lru()) == Some((11, 4)));
    assert!(rt; unit.admit(3, 30, 6).ok() == None);
    assert!(rt; (unit.peek(3).copied(), unit.peek_weight(3)) == (None, None));
    assert!(rt; unit.insert_tail(3, 30, 6).ok() == None);
    assert!(rt; (unit.peek(3).copied(), unit.peek_weight(3)) == (None, None));
    assert!(rt; raise(&mut unit, 1, 5, (0, 0)) == Some((Some(4), 9)));
    assert!(rt; shows(&unit, &[(12, 9), (20, 1)]));
    assert!(rt; !unit.access(9));
    assert!(rt; unit.weight() == 10);
}

// The rows of a filled shard come from both ends, and stay.
#[test]
fn rows_come_from_both_ends(rt: HostRuntime) {
    let mut unit = shard(rt.alloc(), 3, 100);
    assert!(rt; unit.insert_tail(4, 4, 40).ok() == Some(true));
    assert!(rt; pair(unit.peek_lru()) == Some((4, 40)));
    assert!(rt; unit.insert_tail(3, 3, 30).ok() == Some(true));
    assert!(rt; pair(unit.peek_lru()) == Some((3, 30)));
    assert!(rt; unit.insert_tail(1, 1, 10).ok() == Some(true));
    assert!(rt; pair(unit.peek_lru()) == Some((1, 10)));
    assert!(rt; !unit.access(9));
    let mut rows = unit.iter();
    assert!(rt; pair(rows.next()) == Some((4, 40)));
    assert!(rt; pair(rows.next_back()) == Some((1, 10)));
    assert!(rt; rows.size_hint() == (1, Some(1)));
    assert!(rt; pair(rows.next()) == Some((3, 30)));
    assert!(rt; pair(rows.next()) == None);
    assert!(rt; pair(rows.next_back()) == None);
    assert!(rt; !unit.access(9));
    assert!(rt; pair(unit.peek_lru()) == Some((1, 10)));
}
