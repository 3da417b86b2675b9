//! Purge targets, tags of writes, faults and steps.
use bytes::Bytes;
use cache_entries::entry::{CacheEntryId, CacheEntryKey, CacheEntryKeyRef};
use cache_store::storage::streaming_write::{U32WriteId, U64WriteId};
use cache_store::storage::{
    MissFinishType, PurgeAction, PurgeOutcome, PurgeTarget, PurgeType, ReadStep, StoreFault,
};
use cache_words::key::CacheKey;
use std::alloc::{AllocError, Global};
use std::test::*;

// Whether an exact entry is the target or a key, the entry's id or that by which a purge of the key is answered, the target's text, and
// the id of what a purge removes.
type Row = (bool, Option<u64>, &'static str, Option<u64>);

const ACTIVE: &str = "active entry for ac10f2aef117729f8dad056b3059eb7e, user_tag: 1";

const TARGETS: &[Row] = &[
    (
        true,
        None,
        "ac10f2aef117729f8dad056b3059eb7e, user_tag: 1",
        None,
    ),
    (
        true,
        Some(255),
        "ac10f2aef117729f8dad056b3059eb7e, user_tag: 1, entry ID: ff",
        Some(255),
    ),
    (false, None, ACTIVE, None),
    (false, Some(7), ACTIVE, Some(7)),
];

fn id_of(number: Option<u64>) -> Option<CacheEntryId> {
    match number {
        Some(number) => Some(CacheEntryId::new(number)),
        None => None,
    }
}

fn entry(alloc: Global, id: Option<CacheEntryId>) -> Option<CacheEntryKey> {
    let primary = Vec::from_slice(alloc, b"aa").ok()?;
    let tag = String::from_str(alloc, "1").ok()?;
    match CacheKey::new(primary, tag).to_compact() {
        Ok(key) => Some(CacheEntryKey::from_entry_id(key, id)),
        Err(AllocError) => None,
    }
}

fn is_target(alloc: Global, entry: &CacheEntryKey, row: Row) -> bool {
    let (is_exact, _, text, id) = row;
    let key = entry.key();
    let (target, removed) = if is_exact {
        let target = PurgeTarget::Exact(entry);
        (target, target.removed_entry(None))
    } else {
        let target = PurgeTarget::Active(key);
        (target, target.removed_entry(entry.entry_id()))
    };
    is_shown(alloc, target, text)
        && *target.key() == *key
        && removed == CacheEntryKeyRef::from(entry)
        && removed.entry_id() == id_of(id)
        && (target == PurgeTarget::Exact(entry)) == is_exact
        && (target == PurgeTarget::Active(key)) != is_exact
}

// Whether the entry that an exact purge removed is the target, where the store answers with the target's own id.
fn is_removed_by_its_id(entry: &CacheEntryKey) -> bool {
    PurgeTarget::Exact(entry).removed_entry(entry.entry_id()) == CacheEntryKeyRef::from(entry)
}

fn is_shown(alloc: Global, target: PurgeTarget<'_>, text: &str) -> bool {
    match format!(in alloc; "{target}") {
        Ok(shown) => shown.as_str() == text,
        Err(_) => false,
    }
}

fn row_holds(alloc: Global, row: Row) -> bool {
    match entry(alloc, id_of(row.1)) {
        Some(entry) => is_target(alloc, &entry, row) && is_removed_by_its_id(&entry),
        None => false,
    }
}

// Bytes of tags, and their numbers as wide and as narrow ones.
type Tag = (&'static [u8], Option<u64>, Option<u32>);

const TAGS: &[Tag] = &[
    (b"\0\0\0\0\0\0\0\0", Some(0), None),
    (
        b"\x01\x02\x03\x04\x05\x06\x07\x08",
        Some(0x0102_0304_0506_0708),
        None,
    ),
    (b"\xff\xff\xff\xff\xff\xff\xff\xff", Some(u64::MAX), None),
    (b"\0\0\0\0", None, Some(0)),
    (b"\x01\x02\x03\x04", None, Some(0x0102_0304)),
    (b"\xff\xff\xff\xff", None, Some(u32::MAX)),
    (b"", None, None),
    (b"\0\0\0", None, None),
    (b"\0\0\0\0\0\0\0", None, None),
    (b"\0\0\0\0\0\0\0\0\0", None, None),
];

fn is_wide(bytes: &[u8], number: Option<u64>) -> bool {
    match U64WriteId::try_from(bytes) {
        Ok(id) => {
            let found = u64::from(id);
            number == Some(found) && U64WriteId::from(found).as_bytes() == bytes
        }
        Err(_) => number.is_none(),
    }
}

fn is_narrow(bytes: &[u8], number: Option<u32>) -> bool {
    match U32WriteId::try_from(bytes) {
        Ok(id) => {
            let found = u32::from(id);
            number == Some(found) && U32WriteId::from(found).as_bytes() == bytes
        }
        Err(_) => number.is_none(),
    }
}

const FAULTS: &[(StoreFault, &str)] = &[
    (StoreFault::Memory, "out of memory"),
    (
        StoreFault::WriteRemoved,
        "the key was purged since the write began",
    ),
    (
        StoreFault::AfterEnd,
        "the end of the write was already marked",
    ),
    (StoreFault::SeekRange, "the range is not within the body"),
    (StoreFault::NoMeta, "no meta is stored under the key"),
    (
        StoreFault::WriteNumbersSpent,
        "no number is left for a write",
    ),
    (
        StoreFault::MetaMoment,
        "a moment of the meta can't be written",
    ),
];

fn is_said(alloc: Global, fault: StoreFault, text: &str) -> bool {
    match format!(in alloc; "{fault}") {
        Ok(shown) => shown.as_str() == text,
        Err(_) => false,
    }
}

#[test]
fn targets_tags_and_faults(rt: HostRuntime) {
    for &row in TARGETS {
        assert!(rt; row_holds(rt.alloc(), row));
    }
    for &(bytes, wide, narrow) in TAGS {
        assert!(rt; is_wide(bytes, wide) && is_narrow(bytes, narrow));
    }
    for &(fault, text) in FAULTS {
        assert!(rt; is_said(rt.alloc(), fault, text));
    }
}

fn left_of(step: ReadStep) -> Option<usize> {
    match step {
        ReadStep::Bytes(bytes) => Some(bytes.len()),
        ReadStep::Pending | ReadStep::End => None,
    }
}

#[test]
fn outcomes_compare(rt: HostRuntime) {
    let differ = [
        PurgeOutcome::Purged(Some(CacheEntryId::new(7))) != PurgeOutcome::Purged(None),
        PurgeOutcome::NotFound != PurgeOutcome::Expired,
        PurgeType::Eviction != PurgeType::Invalidation,
        PurgeAction::Delete != PurgeAction::Expire,
        MissFinishType::Created(3) != MissFinishType::Appended(3, None),
    ];
    let left = [
        left_of(ReadStep::Bytes(Bytes::from_static(b"abc"))),
        left_of(ReadStep::Pending),
        left_of(ReadStep::End),
    ];
    assert!(rt; differ == [true; 5] && left == [Some(3), None, None]);
}
