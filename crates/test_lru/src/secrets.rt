//! Hashes that start with a secret word, and shards that are searched by them.

use lru_core::LruCore;
use lru_core::lru_unit::LruUnit;
use seeded_hashing::SeededState;
use std::alloc::Global;
use std::hash::BuildHasher;

/// Two words, a number, and whether its hashes under them are equal.
const HASHES: &[(u64, u64, u64, bool)] = &[
    (1, 1, 5, true),
    (1, 2, 5, false),
    (0, 1, 0, false),
    (u64::MAX, u64::MAX, u64::MAX, true),
];

fn hash_of(word: u64, number: u64) -> u64 {
    SeededState { word }.hash_one(number)
}

type Unit = LruUnit<u32, SeededState>;

type Core = LruCore<u32, 2, SeededState>;

/// Whether a row is found in a shard under a secret word.
fn shard_finds(alloc: Global, word: u64) -> bool {
    match Unit::with_hasher(alloc, SeededState { word }, 2, 9) {
        Ok(mut unit) => {
            unit.admit(7, 70, 3).ok() == Some(0)
                && unit.peek(7).copied() == Some(70)
                && unit.peek(8).is_none()
        }
        Err(_) => false,
    }
}

fn core_finds(alloc: Global, word: u64) -> bool {
    match Core::with_hasher(alloc, SeededState { word }, 9, 2, None) {
        Ok(mut core) => {
            core.admit(7, 70, 3).ok() == Some(1) && core.remove(7) == Some((70, 3)) && !core.peek(7)
        }
        Err(_) => false,
    }
}

#[test]
fn words_part_hashes_and_hide_no_row(rt: HostRuntime) {
    for &(one, other, number, equal) in HASHES {
        assert!(rt; (hash_of(one, number) == hash_of(other, number)) == equal);
    }
    for word in 0..3 {
        assert!(rt; shard_finds(rt.alloc(), word) && core_finds(rt.alloc(), word));
    }
}
