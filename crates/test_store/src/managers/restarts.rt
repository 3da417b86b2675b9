//! Shards that one manager saves, wholly or in part, and another loads.

use crate::managers::saved::{Step, sharded};
use cache_evict::lru;
use lru_files::persistence::{MemFolder, TestFolder};
use std::alloc::Global;

/// Calls of two shards that are saved, and of others that are loaded from their files, where a temporary file goes.
const SAVED: &[Step] = &[Step::Use(&[1, 2, 3, 4, 5, 2]), Step::Save(Some(2))];

const LOADED: &[Step] = &[Step::Load([2, 0, 0, 1]), Step::Holds(5)];

/// Whether both have the same text of a shard.
fn have_same_text<const N: usize>(
    alloc: Global,
    one: &lru::Manager<N>,
    other: &lru::Manager<N>,
    shard: usize,
) -> bool {
    if shard >= N {
        return false;
    }
    match (
        one.serialize_shard(alloc, shard),
        other.serialize_shard(alloc, shard),
    ) {
        (Ok(one), Ok(other)) => one == other,
        _ => false,
    }
}

/// Whether shards that are saved and loaded by another manager have the same texts there.
fn round_trip(alloc: Global) -> Option<bool> {
    let mut folder = MemFolder::new(alloc);
    folder.put("dir/lru.data.9.tmp", &[]).ok()?;
    let old = sharded::<2, MemFolder>(alloc, &mut folder, &[7, 8], SAVED)?;
    let new = sharded::<2, MemFolder>(alloc, &mut folder, &[7, 8], LOADED)?;
    Some(have_same_text(alloc, &old, &new, 0) && have_same_text(alloc, &old, &new, 1))
}

#[test]
fn shards_are_as_they_were_saved(rt: HostRuntime) {
    assert!(rt; round_trip(rt.alloc()) == Some(true));
}

/// A call of a folder that fails while two shards are saved, and how many shards are loaded then, missing and errored, and how many
/// temporary files went.
const PARTS: &[(usize, [usize; 4])] = &[
    (2, [1, 1, 0, 0]),
    (3, [1, 1, 0, 1]),
    (5, [1, 1, 0, 1]),
    (6, [1, 1, 0, 0]),
    (9, [1, 1, 0, 1]),
];

const SAVED_IN_PART: &[Step] = &[Step::Use(&[1, 2, 3, 4, 5, 2]), Step::Save(Some(1))];

/// Whether the shard that was saved is loaded as it was, and the other one is empty.
fn part_is_loaded(alloc: Global, call: usize, wanted: [usize; 4]) -> Option<bool> {
    let mut folder = TestFolder::fails_once(MemFolder::new(alloc), call);
    let old = sharded::<2, TestFolder>(alloc, &mut folder, &[7, 8], SAVED_IN_PART)?;
    let new = sharded::<2, TestFolder>(alloc, &mut folder, &[7, 8], &[Step::Load(wanted)])?;
    let (saved, other) = if call <= 5 { (1, 0) } else { (0, 1) };
    Some(have_same_text(alloc, &old, &new, saved) && new.shard_len(other) == 0)
}

/// Whether of the first shard's file the rows before a fault are loaded, and all of the second's.
fn faulty_part_is_loaded(alloc: Global) -> Option<bool> {
    let mut folder = MemFolder::new(alloc);
    let old = sharded::<2, MemFolder>(alloc, &mut folder, &[7, 8], SAVED)?;
    let text = old.serialize_shard(alloc, 0).ok()?;
    let (_last, left) = text.as_slice().split_last()?;
    folder.put("dir/lru.data.0", left).ok()?;
    let loads = [Step::Load([1, 0, 1, 0]), Step::Holds(4)];
    let new = sharded::<2, MemFolder>(alloc, &mut folder, &[7, 8], &loads)?;
    Some(have_same_text(alloc, &old, &new, 1))
}

#[test]
fn a_shard_that_fails_leaves_the_others(rt: HostRuntime) {
    for &(call, wanted) in PARTS {
        assert!(rt; part_is_loaded(rt.alloc(), call, wanted) == Some(true));
    }
    assert!(rt; faulty_part_is_loaded(rt.alloc()) == Some(true));
}

const WORDS: &[u32] = &[7, 8, 9, 10];

/// A load of four shards that aren't there, which does five calls; uses; and a save that is stopped at the third shard's flush.
const FIRST: &[Step] = &[
    Step::Load([0, 4, 0, 0]),
    Step::Use(&[1, 2, 3, 4, 5, 6, 7, 8, 9, 10, 11, 12, 13, 14, 15, 16]),
    Step::Save(Some(2)),
];

/// A load of two shards, which removes a file and does eight calls; uses; and a save that is stopped at the second shard's write.
const SECOND: &[Step] = &[
    Step::Load([2, 2, 0, 1]),
    Step::Use(&[
        17, 18, 19, 20, 21, 22, 23, 24, 25, 26, 27, 28, 29, 30, 31, 32,
    ]),
    Step::Save(Some(1)),
];

const THIRD: &[Step] = &[Step::Load([2, 2, 0, 1]), Step::Load([2, 2, 0, 0])];

/// Whether the first shard is the second manager's, the next one the first manager's, and no other was saved.
fn is_of_both(
    alloc: Global,
    first: &lru::Manager<4>,
    second: &lru::Manager<4>,
    third: &lru::Manager<4>,
) -> bool {
    have_same_text(alloc, second, third, 0)
        && have_same_text(alloc, first, third, 1)
        && !have_same_text(alloc, first, second, 0)
        && !have_same_text(alloc, first, second, 1)
        && third.shard_len(2) == 0
        && third.shard_len(3) == 0
}

/// Whether three managers, the saves of two of which are stopped, load each shard as one of them saved it.
fn three_restarts(alloc: Global) -> Option<bool> {
    let mut folder = TestFolder::stops_after(MemFolder::new(alloc), 16, 0);
    let first = sharded::<4, TestFolder>(alloc, &mut folder, WORDS, FIRST)?;
    let mut folder = TestFolder::stops_after(folder.into_inner(), 14, 3);
    let second = sharded::<4, TestFolder>(alloc, &mut folder, WORDS, SECOND)?;
    let mut folder = folder.into_inner();
    let third = sharded::<4, MemFolder>(alloc, &mut folder, WORDS, THIRD)?;
    Some(is_of_both(alloc, &first, &second, &third))
}

#[test]
fn each_shard_is_loaded_as_it_was_saved_last(rt: HostRuntime) {
    assert!(rt; three_restarts(rt.alloc()) == Some(true));
}
