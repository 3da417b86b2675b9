//! Keys, tags and ids that are chosen so that std's hasher multiplies by 0, or nearly so, where it hashes them in one write: 64 such values then have one
//! place or two of 64. The hashes start with a known word, so that each run gives the same.
use cache_entries::entry::{CacheEntryId, CacheEntryKey, CacheEntryKeyRef};
use cache_words::key::CacheKey;
use lru_numbers::Numbers;
use request_predictor::{ConcurrentHashTable, ConcurrentLruCache};
use seeded_hashing::SeededState;
use std::alloc::Global;
use std::hash::{BuildHasher, Hasher};
use std::sync::Wait;
use std::test::*;

const HASHER: SeededState = SeededState {
    word: 0x1357_9bdf_0246_8ace,
};

/// With what the second half of a block of sixteen bytes is joined.
const MULTIPLIER: u64 = 0x9e37_79b9_7f4a_7c15;

/// How many values are hashed, to as many places.
const PLACES: u64 = 64;

/// At random 40 places get a value, and fewer than this practically never.
const FEWEST: u32 = 30;

/// What is hashed, by a number each.
#[derive(Clone, Copy)]
enum Chosen {
    /// An entry whose tag has eight digits and this end.
    Tag(&'static str),
    /// An entry of this tag, whose id is the number joined with these bits.
    Id(&'static str, u64),
    /// Twenty bytes in one write, of which these are the middle eight.
    Long(u64),
    /// Sixteen bytes, of which these are the last eight.
    Wide(u64),
}

/// This end leaves nearly nothing of the eight bytes before it.
const END: &str = "\u{15}\u{7c}\u{4a}\u{7f}\u{39}\u{79}\u{37}\u{1e}";

/// The chosen ones, and an ordinary one of each kind.
const ROWS: &[Chosen] = &[
    Chosen::Tag(END),
    Chosen::Tag("/picture"),
    Chosen::Id(END, MULTIPLIER),
    Chosen::Id("", 0),
    Chosen::Long(MULTIPLIER),
    Chosen::Long(0),
    Chosen::Wide(MULTIPLIER),
    Chosen::Wide(0),
];

fn hash_of_entry(alloc: Global, tag: String, id: Option<CacheEntryId>) -> Option<u64> {
    let primary = Vec::from_slice(alloc, b"k").ok()?;
    let key = CacheKey::new(primary, tag).to_compact().ok()?;
    let numbers: Numbers<1, SeededState> = Numbers::with_hasher(alloc, HASHER);
    let entry = CacheEntryKey::from_entry_id(key, id);
    Some(numbers.hash_of(CacheEntryKeyRef::from(&entry)))
}

fn hash_of_twenty(number: u64, middle: u64) -> u64 {
    let mut bytes = [0u8; 20];
    bytes[..8].copy_from_slice(&number.to_le_bytes());
    bytes[8..16].copy_from_slice(&middle.to_le_bytes());
    let mut state = HASHER.build_hasher();
    state.write(&bytes);
    state.finish()
}

/// A key with the number in its first eight bytes.
fn wide(last: u64, number: u64) -> u128 {
    (last as u128) << 64 | number as u128
}

fn hash_of(alloc: Global, chosen: Chosen, number: u64) -> Option<u64> {
    match chosen {
        Chosen::Tag(end) => {
            let tag = format!(in alloc; "{number:08}{end}").ok()?;
            hash_of_entry(alloc, tag, None)
        }
        Chosen::Id(tag, bits) => {
            let tag = String::from_str(alloc, tag).ok()?;
            hash_of_entry(alloc, tag, Some(CacheEntryId::new(bits ^ number)))
        }
        Chosen::Long(middle) => Some(hash_of_twenty(number, middle)),
        Chosen::Wide(last) => Some(HASHER.hash_one(wide(last, number))),
    }
}

/// How many places the hashes have, by their low bits or by their high ones, whichever are fewer.
fn places(alloc: Global, chosen: Chosen) -> Option<u32> {
    let mut low = 0u64;
    let mut high = 0u64;
    for number in 0..PLACES {
        let hash = hash_of(alloc, chosen, number)?;
        low |= 1 << (hash % PLACES);
        high |= 1 << (hash >> 58) % PLACES;
    }
    Some(low.count_ones().min(high.count_ones()))
}

#[test]
fn chosen_values_hash_apart(rt: HostRuntime) {
    for &chosen in ROWS {
        let places = places(rt.alloc(), chosen);
        assert!(rt; places >= Some(FEWEST));
    }
}

/// How many chosen keys are put: were they hashed alike, the tests would take minutes.
const KEYS: u64 = 30_000;

fn map_holds_all<R: Wait>(rt: &R, map: &ConcurrentHashTable<u64, 4, SeededState>) -> bool {
    for number in 0..KEYS {
        let key = wide(MULTIPLIER, number);
        if map.write(rt, key).insert(key, number).is_err() {
            return false;
        }
    }
    for number in 0..KEYS {
        let key = wide(MULTIPLIER, number);
        if map.read(rt, key).get(&key) != Some(&number) {
            return false;
        }
    }
    true
}

fn lists_hold_all<R: Wait>(rt: &R, lists: &ConcurrentLruCache<u64, 4, SeededState>) -> bool {
    for number in 0..KEYS {
        let key = wide(MULTIPLIER, number);
        if lists.write(rt, key).put(key, number).is_err() {
            return false;
        }
    }
    for number in 0..KEYS {
        let key = wide(MULTIPLIER, number);
        if lists.read(rt, key).peek(key) != Some(&number) {
            return false;
        }
    }
    true
}

#[test]
fn maps_and_lists_hold_chosen_keys(rt: HostRuntime) {
    let map = match ConcurrentHashTable::with_hasher(rt.alloc(), HASHER) {
        Ok(map) => map_holds_all(&rt, &map),
        Err(_) => false,
    };
    let lists = match ConcurrentLruCache::with_hasher(rt.alloc(), 100_000, HASHER) {
        Ok(lists) => lists_hold_all(&rt, &lists),
        Err(_) => false,
    };
    assert!(rt; (map, lists) == (true, true));
}
