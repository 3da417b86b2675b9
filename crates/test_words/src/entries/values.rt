//! Entries as values: how they compare, hash and are shown, and a map that is searched without a copy.
use crate::words::{hash_alike, is_shown};
use cache_entries::entry::{CacheEntryId, CacheEntryKey, CacheEntryKeyRef};
use cache_entries::laws;
use cache_words::key::{CacheKey, CompactCacheKey};
use indexmap::IndexMap;
use std::alloc::{AllocError, Global};
use std::cmp::Ordering;

// The entry of these bytes with the tag `1`, with this id if there is one.
pub(crate) fn entry(
    alloc: Global,
    primary: &[u8],
    id: Option<u64>,
) -> Result<CacheEntryKey, AllocError> {
    let primary = Vec::from_slice(alloc, primary)?;
    let key = CacheKey::new(primary, String::from_str(alloc, "1")?);
    Ok(CacheEntryKey::from_entry_id(key.to_compact()?, id_of(id)))
}

fn id_of(number: Option<u64>) -> Option<CacheEntryId> {
    match number {
        Some(number) => Some(CacheEntryId::new(number)),
        None => None,
    }
}

/// The same, or the empty entry when out of memory.
pub(crate) fn item(alloc: Global, primary: &[u8], id: Option<u64>) -> CacheEntryKey {
    match entry(alloc, primary, id) {
        Ok(item) => item,
        Err(AllocError) => CacheEntryKey::empty(alloc),
    }
}

// The kept key of `aa`, or the empty one when out of memory.
fn known(alloc: Global) -> CompactCacheKey {
    item(alloc, b"aa", None).into_key()
}

type Name = (&'static [u8], Option<u64>);

// Two entries, and how the first compares with the second where that doesn't rest on a digest.
const PAIRS: &[(Name, Name, Ordering)] = &[
    ((b"aa", None), (b"aa", None), Ordering::Equal),
    ((b"aa", Some(7)), (b"aa", Some(7)), Ordering::Equal),
    ((b"aa", None), (b"aa", Some(0)), Ordering::Less),
    ((b"aa", Some(0)), (b"aa", None), Ordering::Greater),
    ((b"aa", Some(1)), (b"aa", Some(2)), Ordering::Less),
    ((b"bb", None), (b"aa", Some(7)), Ordering::Less),
];

// Whether comparisons and hashes, owned and borrowed, say the same.
fn are_told_apart(a: &CacheEntryKey, b: &CacheEntryKey, is_same: bool) -> bool {
    let (first, second) = (CacheEntryKeyRef::from(a), CacheEntryKeyRef::from(b));
    (*a == *b) == is_same
        && (first == second) == is_same
        && hash_alike(a, b) == is_same
        && hash_alike(a, &first)
        && hash_alike(b, &second)
}

fn entries_compare(alloc: Global) -> bool {
    for &(first, second, order) in PAIRS {
        let a = item(alloc, first.0, first.1);
        let b = item(alloc, second.0, second.1);
        if a.cmp(&b) != order
            || a.partial_cmp(&b) != Some(order)
            || !are_told_apart(&a, &b, order == Ordering::Equal)
        {
            return false;
        }
    }
    true
}

// The id of an entry of `aa`, and what follows the key where it is shown.
const SHOWN: &[(Option<u64>, &str)] = &[
    (None, "ac10f2aef117729f8dad056b3059eb7e, user_tag: 1"),
    (
        Some(7),
        "ac10f2aef117729f8dad056b3059eb7e, user_tag: 1, entry ID: 7",
    ),
    (
        Some(0),
        "ac10f2aef117729f8dad056b3059eb7e, user_tag: 1, entry ID: 0",
    ),
    (
        Some(u64::MAX),
        "ac10f2aef117729f8dad056b3059eb7e, user_tag: 1, entry ID: ffffffffffffffff",
    ),
];

// Whether entries are shown so, owned and borrowed.
fn are_shown(alloc: Global) -> bool {
    for &(id, text) in SHOWN {
        let owned = item(alloc, b"aa", id);
        if !is_shown(alloc, &owned, text)
            || !is_shown(alloc, &CacheEntryKeyRef::from(&owned), text)
        {
            return false;
        }
    }
    true
}

// Whether an entry is copied, and has this key and id.
fn has_parts(owned: CacheEntryKey, key: &CompactCacheKey, id: Option<CacheEntryId>) -> bool {
    let is_copied = match owned.clone() {
        Ok(copy) => copy == owned,
        Err(AllocError) => false,
    };
    let is_right = is_copied && *owned.key() == *key && owned.entry_id() == id;
    owned.into_key() == *key && is_right
}

// Whether an entry of a key has its parts, borrowed, owned and copied.
fn have_parts(key: &CompactCacheKey, id: Option<CacheEntryId>) -> bool {
    let borrowed = CacheEntryKeyRef::from_entry_id(key, id);
    let is_right = *borrowed.key() == *key && borrowed.entry_id() == id;
    match borrowed.to_entry() {
        Ok(owned) => has_parts(owned, key, id) && is_right,
        Err(AllocError) => false,
    }
}

const EMPTY: &str = "00000000000000000000000000000000, user_tag: ";

// Whether an entry of a key, one of a key and an id, and the empty one are as they are spelled.
fn are_made(alloc: Global) -> bool {
    let id = CacheEntryId::new(3);
    let empty = CacheEntryKey::empty(alloc);
    CacheEntryKey::key_only(known(alloc)) == item(alloc, b"aa", None)
        && CacheEntryKey::identified(known(alloc), id) == item(alloc, b"aa", Some(3))
        && is_shown(alloc, &empty, EMPTY)
        && empty.entry_id().is_none()
}

#[test]
fn entries_compare_hash_and_are_shown(rt: HostRuntime) {
    laws::same_is_equal();
    laws::borrowed_is_owned();
    laws::ids_tell_entries_apart();
    assert!(rt; entries_compare(rt.alloc()));
    assert!(rt; are_shown(rt.alloc()));
    assert!(rt; have_parts(&known(rt.alloc()), None));
    assert!(rt; have_parts(&known(rt.alloc()), Some(CacheEntryId::new(3))));
    assert!(rt; CacheEntryId::new(3).get() == 3);
    assert!(rt; are_made(rt.alloc()));
}

type Map = IndexMap<CacheEntryKey, u64>;

// An id, and what a map has for the borrowed entry of the key with it.
const FOUND: &[(Option<u64>, Option<u64>)] = &[
    (None, Some(1)),
    (Some(7), Some(2)),
    (Some(8), None),
];

// Whether a map finds by borrowed entries what it must.
fn finds(map: &Map, key: &CompactCacheKey) -> bool {
    for &(id, want) in FOUND {
        let borrowed = CacheEntryKeyRef::from_entry_id(key, id_of(id));
        if map.get(borrowed).copied() != want {
            return false;
        }
    }
    true
}

// Whether a map of two entries of `aa` is.
fn is_searched(alloc: Global) -> bool {
    let mut map = IndexMap::new(alloc);
    map.insert(item(alloc, b"aa", None), 1).is_ok()
        && map.insert(item(alloc, b"aa", Some(7)), 2).is_ok()
        && finds(&map, &known(alloc))
}

#[test]
fn a_map_is_searched_by_borrowed_entries(rt: HostRuntime) {
    assert!(rt; is_searched(rt.alloc()));
}
