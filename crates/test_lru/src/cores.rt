//! Calls of a core, one after another, each with the data and weights of shard 0 then.

ghost use Rattle.std.specs.Prelude.{◌<◌};

use crate::shards::gives;
use lru_core::LruCore;
use lru_core::lru_unit::LruFault;
use std::alloc::Global;

// Whether a shard has these data and weights, and the sum of them.
fn has<const N: usize>(core: &LruCore<u32, N>, shard: usize, rows: &[(u32, usize)]) -> bool {
    if shard >= core.shards() {
        return false;
    }
    let mut weight = 0usize;
    for row in rows {
        weight = weight.wrapping_add(row.1);
    }
    core.shard_len(shard) == rows.len()
        && core.shard_weight(shard) == weight
        && gives(core.iter(shard), rows)
}

// The data of each row of a shard as digits, and their weight.
fn digits_of<const N: usize>(core: &LruCore<u32, N>, shard: usize) -> (u32, usize) {
    let mut digits = 0u32;
    let mut weight = 0usize;
    if shard < core.shards() {
        core.iter_for_each(shard, |row| {
            digits = digits.wrapping_mul(10).wrapping_add(*row.0);
            weight = weight.wrapping_add(row.1);
        });
    }
    (digits, weight)
}

// A core of N shards: its limit, the room for rows, and a watermark.
fn core<const N: usize>(
    alloc: Global,
    limit: usize,
    capacity: usize,
    watermark: Option<usize>,
) -> LruCore<u32, N>
    requires { 0 < N }
{
    LruCore::with_capacity_and_watermark(alloc, limit, capacity, watermark).unwrap()
}

// An update that adds 1 to the data and so much to the weight, or sets that to 0.
fn update(
    core: &mut LruCore<u32, 1>,
    key: u64,
    by: Option<usize>,
    new: (u32, usize),
) -> Option<Option<usize>> {
    let update = |data: &mut u32, weight: usize| {
        *data = data.wrapping_add(1);
        match by {
            Some(by) => weight.saturating_add(by),
            None => 0,
        }
    };
    core.update_or_admit(key, update, || new).ok()
}

#[test]
fn updates_and_evictions_of_a_shard(rt: HostRuntime) {
    let mut core = core::<1>(rt.alloc(), 99, 0, None);
    assert!(rt; core.admit(2, 20, 2).ok() == Some(0));
    assert!(rt; has(&core, 0, &[(20, 2)]));
    assert!(rt; core.admit(4, 40, 4).ok() == Some(0));
    assert!(rt; has(&core, 0, &[(40, 4), (20, 2)]));
    assert!(rt; update(&mut core, 2, Some(3), (0, 0)) == Some(Some(2)));
    assert!(rt; has(&core, 0, &[(21, 5), (40, 4)]));
    assert!(rt; update(&mut core, 6, Some(0), (60, 0)) == Some(None));
    assert!(rt; has(&core, 0, &[(60, 1), (21, 5), (40, 4)]));
    assert!(rt; update(&mut core, 4, None, (0, 0)) == Some(Some(4)));
    assert!(rt; has(&core, 0, &[(41, 1), (60, 1), (21, 5)]));
    assert!(rt; (core.len(), core.weight()) == (3, 7));
    assert!(rt; has(&core, 0, &[(41, 1), (60, 1), (21, 5)]));
    assert!(rt; core.evict_shard(0) == Some((21, 5)));
    assert!(rt; has(&core, 0, &[(41, 1), (60, 1)]));
    assert!(rt; core.evict_shard(0) == Some((60, 1)));
    assert!(rt; has(&core, 0, &[(41, 1)]));
    assert!(rt; core.evict_shard(0) == Some((41, 1)));
    assert!(rt; has(&core, 0, &[]));
    assert!(rt; core.evict_shard(0) == None);
    assert!(rt; has(&core, 0, &[]));
}

#[test]
fn promotions_and_looks(rt: HostRuntime) {
    let mut core = core::<1>(rt.alloc(), 9, 0, None);
    assert!(rt; core.insert_tail(1, 11, 1).ok() == Some(true));
    assert!(rt; has(&core, 0, &[(11, 1)]));
    assert!(rt; core.insert_tail(2, 12, 0).ok() == Some(true));
    assert!(rt; has(&core, 0, &[(11, 1), (12, 0)]));
    assert!(rt; core.promote_top_n(1, 1));
    assert!(rt; has(&core, 0, &[(11, 1), (12, 0)]));
    assert!(rt; !core.promote_top_n(9, 1));
    assert!(rt; has(&core, 0, &[(11, 1), (12, 0)]));
    assert!(rt; core.promote(2));
    assert!(rt; has(&core, 0, &[(12, 0), (11, 1)]));
    assert!(rt; !core.promote(9));
    assert!(rt; has(&core, 0, &[(12, 0), (11, 1)]));
    assert!(rt; core.promote_top_n(1, 1));
    assert!(rt; has(&core, 0, &[(11, 1), (12, 0)]));
    assert!(rt; core.set_weight(2, 5).ok() == Some(Some(0)));
    assert!(rt; has(&core, 0, &[(11, 1), (12, 5)]));
    assert!(rt; core.increment_weight(3, || 13, 2, None).ok() == Some(2));
    assert!(rt; has(&core, 0, &[(13, 2), (11, 1), (12, 5)]));
    assert!(rt; core.peek(2));
    assert!(rt; has(&core, 0, &[(13, 2), (11, 1), (12, 5)]));
    assert!(rt; !core.peek(9));
    assert!(rt; has(&core, 0, &[(13, 2), (11, 1), (12, 5)]));
    assert!(rt; core.peek_weight(2) == Some(5));
    assert!(rt; has(&core, 0, &[(13, 2), (11, 1), (12, 5)]));
    assert!(rt; core.peek_lru(0) == Some((&12, 5)));
    assert!(rt; has(&core, 0, &[(13, 2), (11, 1), (12, 5)]));
    assert!(rt; (core.len(), core.weight()) == (3, 8));
    assert!(rt; has(&core, 0, &[(13, 2), (11, 1), (12, 5)]));
}

#[test]
fn a_step_takes_the_longer_of_two_shards(rt: HostRuntime) {
    let mut core = core::<2>(rt.alloc(), 0, 0, None);
    assert!(rt; core.admit(0, 10, 1).ok() == Some(0));
    assert!(rt; has(&core, 0, &[(10, 1)]));
    assert!(rt; core.admit(2, 12, 1).ok() == Some(0));
    assert!(rt; has(&core, 0, &[(12, 1), (10, 1)]));
    assert!(rt; core.admit(1, 11, 1).ok() == Some(1));
    assert!(rt; has(&core, 0, &[(12, 1), (10, 1)]));
    assert!(rt; core.evict_step(1, 0) == Some((10, 1)));
    assert!(rt; has(&core, 0, &[(12, 1)]));
    assert!(rt; core.evict_shard(3) == Some((11, 1)));
    assert!(rt; has(&core, 0, &[(12, 1)]));
    assert!(rt; core.remove(2) == Some((12, 1)));
    assert!(rt; has(&core, 0, &[]));
    assert!(rt; core.evict_step(1, 0) == None);
    assert!(rt; has(&core, 0, &[]));
}

#[test]
fn a_step_takes_the_first_of_equal_shards(rt: HostRuntime) {
    let mut core = core::<2>(rt.alloc(), 0, 0, None);
    assert!(rt; core.admit(0, 10, 1).ok() == Some(0));
    assert!(rt; has(&core, 0, &[(10, 1)]));
    assert!(rt; core.admit(1, 11, 1).ok() == Some(1));
    assert!(rt; has(&core, 0, &[(10, 1)]));
    assert!(rt; core.evict_step(1, 0) == Some((11, 1)));
    assert!(rt; has(&core, 0, &[(10, 1)]));
}

const PART: usize = usize::MAX / 2;

#[test]
fn a_shard_is_not_past_its_part_of_the_weight(rt: HostRuntime) {
    let mut core = core::<2>(rt.alloc(), 9, 0, None);
    assert!(rt; core.admit(0, 10, PART).ok() == Some(0));
    assert!(rt; has(&core, 0, &[(10, PART)]));
    assert!(rt; core.admit(2, 12, 1).ok() == None);
    assert!(rt; has(&core, 0, &[(10, PART)]));
    assert!(rt; core.admit(1, 11, 1).ok() == Some(1));
    assert!(rt; has(&core, 0, &[(10, PART)]));
    assert!(rt; core.increment_weight(0, || 0, 1, None).ok() == None);
    assert!(rt; has(&core, 0, &[(10, PART)]));
    assert!(rt; core.increment_weight(0, || 0, 1, Some(PART)).ok() == Some(PART));
    assert!(rt; has(&core, 0, &[(10, PART)]));
    assert!(rt; matches!(core.admit(2, 12, 1), Err(LruFault::Weight(12))));
    assert!(rt; has(&core, 0, &[(10, PART)]));
}

#[test]
fn each_row_of_a_shard_is_visited(rt: HostRuntime) {
    let mut core = core::<2>(rt.alloc(), 9, 4, None);
    assert!(rt; core.admit(1, 1, 1).ok() == Some(1));
    assert!(rt; has(&core, 0, &[]));
    assert!(rt; core.admit(2, 2, 1).ok() == Some(0));
    assert!(rt; has(&core, 0, &[(2, 1)]));
    assert!(rt; core.admit(3, 3, 1).ok() == Some(1));
    assert!(rt; has(&core, 0, &[(2, 1)]));
    assert!(rt; core.admit(4, 4, 1).ok() == Some(0));
    assert!(rt; has(&core, 0, &[(4, 1), (2, 1)]));
    assert!(rt; digits_of(&core, 1) == (31, 2));
    assert!(rt; has(&core, 0, &[(4, 1), (2, 1)]));
    assert!(rt; has(&core, 1, &[(3, 1), (1, 1)]));
    assert!(rt; has(&core, 0, &[(4, 1), (2, 1)]));
}

#[test]
fn a_step_goes_on_from_shard_to_shard(rt: HostRuntime) {
    let mut core = core::<4>(rt.alloc(), 0, 0, None);
    assert!(rt; core.admit(3, 13, 1).ok() == Some(3));
    assert!(rt; has(&core, 0, &[]));
    assert!(rt; core.evict_step(0, 0) == Some((13, 1)));
    assert!(rt; has(&core, 0, &[]));
    assert!(rt; core.evict_step(0, 0) == None);
    assert!(rt; has(&core, 0, &[]));
}

#[test]
fn a_watermark_and_a_limit(rt: HostRuntime) {
    let mut core = core::<4>(rt.alloc(), 9, 0, Some(0));
    assert!(rt; core.admit(3, 13, 1).ok() == Some(3));
    assert!(rt; has(&core, 0, &[]));
    assert!(rt; core.evict_step(0, 0) == Some((13, 1)));
    assert!(rt; has(&core, 0, &[]));
    assert!(rt; core.weight_limit() == 9);
    assert!(rt; has(&core, 0, &[]));
    core.set_weight_limit(8);
    assert!(rt; core.weight_limit() == 8);
    assert!(rt; has(&core, 0, &[]));
}
