//! Saves that are stopped at each call and each byte.
ghost use Rattle.std.specs.Prelude.{◌≡◌, ◌<◌, length};

use super::{Files, LIMIT, Left, OLD, PATHS, Plan, Told, age, leaves, put_all, saved};
use std::alloc::Global;
use tier_single::tier::Tier;

// A save makes the directory, and then creates, writes, flushes and renames a file for each shard.
fn left_by(shards: usize, calls: usize, bytes: usize) -> Left {
    let of_shards = calls.saturating_sub(1);
    let whole = of_shards / 4;
    Left {
        plan: Plan::After(calls, bytes),
        told: if whole == 0 {
            Told::Folder
        } else {
            Told::Report(whole, shards.saturating_sub(whole))
        },
        from: whole,
        to: shards,
        removed: if of_shards % 4 == 0 { 0 } else { 1 },
    }
}

// How many bytes the call after so many writes.
fn written_after(files: &Files, calls: usize) -> usize {
    if calls % 4 != 2 {
        return 0;
    }
    match PATHS.get(calls / 4) {
        Some(path) => match files.new.bytes(path) {
            Some(bytes) => bytes.len(),
            None => 0,
        },
        None => 0,
    }
}

// No key is looked up after a stop within a write: that takes the most of the time.
const NONE: &[u8] = b"";

// How many stops leave what they should: each number of calls, and at a write each number of its bytes.
fn held<const N: usize>(
    alloc: Global,
    tier: &Tier<N>,
    files: &Files,
    words: &[u32],
    names: &[u8],
) -> usize
    requires { (0 < N) × (length words.now ≡ N) }
{
    let mut held = 0usize;
    for calls in 0..N.saturating_mul(4).saturating_add(2) {
        for bytes in 0..written_after(files, calls).saturating_add(1) {
            let left = left_by(N, calls, bytes);
            let looked = if bytes == 0 { names } else { NONE };
            if leaves(alloc, tier, files, words, looked, left) {
                held = held.saturating_add(1);
            }
        }
    }
    held
}

// Each number of calls at a save of these keys over the old ones.
fn stops<const N: usize>(alloc: Global, words: &[u32], names: &[u8]) -> usize
    requires { (0 < N) × (length words.now ≡ N) }
{
    match Tier::<N>::new(alloc, LIMIT, None, age(), None) {
        Ok(mut tier) => {
            let _put = put_all(alloc, &mut tier, names);
            let old = saved::<N>(alloc, words, OLD);
            let new = saved::<N>(alloc, words, names);
            held(alloc, &tier, &Files { old, new }, words, names)
        }
        Err(_) => 0,
    }
}

const LISTS: &[&[u8]] = &[b"", b"a", b"abcdefghijklmnopqrst"];

// The stops at saves of no row, of one and of 20.
fn stops_of_all<const N: usize>(alloc: Global, words: &[u32]) -> usize
    requires { (0 < N) × (length words.now ≡ N) }
{
    let mut held = 0usize;
    for &names in LISTS {
        held = held.saturating_add(stops::<N>(alloc, words, names));
    }
    held
}

// With N shards a save of texts of so many bytes together has 4 N + 2 stops and one more for each byte: 2713 of these are at 20 rows.
#[test]
fn every_stop_at_one_shard_leaves_its_file_old_or_whole(rt: HostRuntime) {
    assert!(rt; stops_of_all::<1>(rt.alloc(), &[7]) == 7 + 35 + 656);
}

#[test]
fn every_stop_at_two_shards_leaves_each_file_old_or_whole(rt: HostRuntime) {
    assert!(rt; stops_of_all::<2>(rt.alloc(), &[7, 8]) == 12 + 40 + 659);
}

#[test]
fn every_stop_at_four_shards_leaves_each_file_old_or_whole(rt: HostRuntime) {
    assert!(rt; stops_of_all::<4>(rt.alloc(), &[7, 8, 9, 7]) == 22 + 50 + 669);
}

#[test]
fn every_stop_at_sixteen_shards_leaves_each_file_old_or_whole(rt: HostRuntime) {
    let words = [7, 8, 9, 7, 8, 9, 7, 8, 9, 7, 8, 9, 7, 8, 9, 7];
    assert!(rt; stops::<16>(rt.alloc(), &words, b"") == 82);
    assert!(rt; stops::<16>(rt.alloc(), &words, b"a") == 110);
}

#[test]
fn every_stop_at_sixteen_shards_of_20_rows_leaves_each_file_old_or_whole(rt: HostRuntime) {
    let words = [7, 8, 9, 7, 8, 9, 7, 8, 9, 7, 8, 9, 7, 8, 9, 7];
    assert!(rt; stops::<16>(rt.alloc(), &words, b"abcdefghijklmnopqrst") == 729);
}
