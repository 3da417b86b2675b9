//! Entries and rows as MessagePack: written in the shortest form, read in any.
use crate::entries::values::item;
use cache_entries::entry::{CacheEntryKey, CacheEntryKeyRef};
use cache_entries::laws;
use cache_entries::pack::{entry_hash, put_entry, put_row, take_entry, take_row};
use cache_words::pack::{Cursor, PackFault, writing};
use std::alloc::Global;

// What stands in a text: the key of `aa` with the tag `1` in its shortest form, or in one that is nowhere the shortest.
#[derive(Clone, Copy)]
pub(crate) enum Key {
    No,
    Short,
    Wide,
}

// Bytes, a key, and bytes after it.
type Text = (&'static [u8], Key, &'static [u8]);

fn bytes_of(alloc: Global, text: Text) -> Option<Vec<u8>> {
    let (before, key, rest) = text;
    let key: &[u8] = match key {
        Key::No => b"",
        Key::Short => {
            b"\x93\xdc\x00\x10\xcc\xac\x10\xcc\xf2\xcc\xae\xcc\xf1\x17\x72\xcc\x9f\xcc\x8d\xcc\xad\x05\x6b\x30\x59\xcc\xeb\x7e\xc0\xa1\x31"
        }
        Key::Wide => {
            b"\xdc\x00\x03\xdd\x00\x00\x00\x10\xcd\x00\xac\xce\x00\x00\x00\x10\xcf\x00\x00\x00\x00\x00\x00\x00\xf2\xcc\xae\xcc\xf1\x17\x72\xcc\x9f\xcc\x8d\xcc\xad\x05\x6b\x30\x59\xcc\xeb\x7e\xc0\xda\x00\x01\x31"
        }
    };
    let mut bytes = Vec::from_slice(alloc, before).ok()?;
    bytes.extend_from_slice(key).ok()?;
    bytes.extend_from_slice(rest).ok()?;
    Some(bytes)
}

// An id, and how many bytes are left after the entry.
type Read = Result<(Option<u64>, usize), PackFault>;

const READ: &[(Text, Read)] = &[
    ((b"", Key::Short, b""), Ok((None, 0))),
    ((b"", Key::Short, b"\xc0\x07"), Ok((None, 2))),
    ((b"", Key::Wide, b""), Ok((None, 0))),
    ((b"\x92", Key::Short, b"\xc0"), Ok((None, 0))),
    ((b"\xdc\0\x02", Key::Short, b"\xc0"), Ok((None, 0))),
    ((b"\xdd\0\0\0\x02", Key::Short, b"\xc0"), Ok((None, 0))),
    ((b"\x92", Key::Short, b"\x07"), Ok((Some(7), 0))),
    ((b"\x92", Key::Wide, b"\xcc\x07"), Ok((Some(7), 0))),
    ((b"\x92", Key::Short, b"\xcd\0\x07"), Ok((Some(7), 0))),
    ((b"\x92", Key::Short, b"\xce\0\0\0\x07"), Ok((Some(7), 0))),
    (
        (b"\x92", Key::Short, b"\xcf\0\0\0\0\0\0\0\x07\x93"),
        Ok((Some(7), 1)),
    ),
    (
        (b"\x92", Key::Short, b"\xcf\xff\xff\xff\xff\xff\xff\xff\xff"),
        Ok((Some(u64::MAX), 0)),
    ),
];

const FAULTS: &[(Text, PackFault)] = &[
    ((b"", Key::No, b""), PackFault::Short),
    ((b"\x92", Key::No, b""), PackFault::Short),
    ((b"\x92", Key::Short, b""), PackFault::Short),
    ((b"\x92", Key::Short, b"\xcd\0"), PackFault::Short),
    ((b"\x92", Key::Short, b"\xa0"), PackFault::Kind),
    ((b"\x92", Key::Short, b"\xd0\x07"), PackFault::Kind),
    ((b"\x92", Key::No, b"\xc0\x07"), PackFault::Kind),
    ((b"\xc0", Key::Short, b""), PackFault::Kind),
    ((b"\x90", Key::Short, b""), PackFault::Length),
    ((b"\x91", Key::Short, b""), PackFault::Length),
    ((b"\x94", Key::Short, b""), PackFault::Length),
    ((b"\xdd\xff\xff\xff\xff", Key::No, b""), PackFault::Length),
    ((b"\x92\x92", Key::Short, b""), PackFault::Length),
    (
        (b"\x93\xdc\0\x10\xcd\x01\0", Key::No, b""),
        PackFault::Range,
    ),
    (
        (
            b"\x92\x93\xdc\0\x10\0\0\0\0\0\0\0\0\0\0\0\0\0\0\0\0\xc0\xa1\xff",
            Key::No,
            b"",
        ),
        PackFault::Utf8,
    ),
];

// Whether an entry is read, which must be of `aa`, or this fault is reported. After a fault the cursor is where it was.
fn is_read(alloc: Global, bytes: &[u8], want: Read) -> bool {
    let mut cursor = Cursor { rest: bytes };
    match (take_entry(&mut cursor), want) {
        (Ok(found), Ok((id, left))) => match found.to_entry(alloc) {
            Ok(owned) => cursor.rest.len() == left && owned == item(alloc, b"aa", id),
            Err(_) => false,
        },
        (Err(fault), Err(wanted)) => fault == wanted && cursor.rest.len() == bytes.len(),
        _ => false,
    }
}

fn text_is_read(alloc: Global, text: Text, want: Read) -> bool {
    match bytes_of(alloc, text) {
        Some(bytes) => is_read(alloc, bytes.as_slice(), want),
        None => false,
    }
}

fn are_read(alloc: Global) -> bool {
    for &(text, want) in READ {
        if !text_is_read(alloc, text, want) {
            return false;
        }
    }
    for &(text, fault) in FAULTS {
        if !text_is_read(alloc, text, Err(fault)) {
            return false;
        }
    }
    true
}

// An id of an entry of `aa`, the bytes around the key where it is written, and its hash. The hashes are Python's, by
// `hashlib.blake2b(digest_size=16)` over the bytes.
const WRITTEN: &[(Option<u64>, Text, u64)] = &[
    (None, (b"", Key::Short, b""), 0xea9a2ac3dcd6c63c),
    (Some(7), (b"\x92", Key::Short, b"\x07"), 0x8a4f21e9564af8f5),
    (
        Some(1 << 40),
        (b"\x92", Key::Short, b"\xcf\0\0\x01\0\0\0\0\0"),
        0xa991b4205015b41a,
    ),
    (
        Some(u64::MAX),
        (b"\x92", Key::Short, b"\xcf\xff\xff\xff\xff\xff\xff\xff\xff"),
        0x817b1ee2ccaf5217,
    ),
];

// Whether the entry of `aa` with that id is written so, and has this hash.
fn is_spelled(alloc: Global, id: Option<u64>, text: Text, hash: u64) -> bool {
    let owned = item(alloc, b"aa", id);
    let borrowed = CacheEntryKeyRef::from(&owned);
    let mut out = Vec::new(alloc);
    put_entry(&mut out, borrowed).is_ok()
        && bytes_of(alloc, text) == Some(out)
        && entry_hash(borrowed) == hash
}

fn are_spelled(alloc: Global) -> bool {
    for &(id, text, hash) in WRITTEN {
        if !is_spelled(alloc, id, text, hash) {
            return false;
        }
    }
    entry_hash(CacheEntryKeyRef::from(&CacheEntryKey::empty(alloc))) == 0xe2e934a731fcf75e
}

#[test]
fn entries_are_read_written_and_hashed(rt: HostRuntime) {
    laws::written_is_spelled();
    laws::one_spelling();
    assert!(rt; are_read(rt.alloc()));
    assert!(rt; are_spelled(rt.alloc()));
}

// Rows are read until one can't be: what they weigh together, how many they are, and the fault then.
fn rows_of(bytes: &[u8]) -> (usize, usize, Option<PackFault>) {
    let mut cursor = Cursor { rest: bytes };
    let mut weight = 0usize;
    let mut found = 0usize;
    let rows = match cursor.array() {
        Ok(rows) => rows,
        Err(fault) => return (0, 0, Some(fault)),
    };
    for _ in 0..rows {
        match take_row(&mut cursor) {
            Ok(row) => weight = weight.wrapping_add(row.weight),
            Err(fault) => return (weight, found, Some(fault)),
        }
        found = found.wrapping_add(1);
    }
    (weight, found, None)
}

const ROWS: &[(Text, usize, usize, Option<PackFault>)] = &[
    ((b"\x90", Key::No, b""), 0, 0, None),
    ((b"\x91\x92", Key::Short, b"\x01"), 1, 1, None),
    (
        (b"\xdc\0\x01\xdc\0\x02", Key::Wide, b"\xcc\x01"),
        1,
        1,
        None,
    ),
    (
        (b"\xdd\0\0\0\x01\xdd\0\0\0\x02", Key::Short, b"\xcd\0\x01"),
        1,
        1,
        None,
    ),
    ((b"\x91\x92\x92", Key::Short, b"\x07\0"), 0, 1, None),
    (
        (
            b"\x91\x92",
            Key::Short,
            b"\xcf\xff\xff\xff\xff\xff\xff\xff\xff",
        ),
        usize::MAX,
        1,
        None,
    ),
    (
        (b"\x92\x92", Key::Short, b"\x05\x91"),
        5,
        1,
        Some(PackFault::Length),
    ),
    (
        (b"\x92\x92", Key::Short, b"\x05"),
        5,
        1,
        Some(PackFault::Short),
    ),
    (
        (b"\x92\x92", Key::Short, b"\x05\x92\xc0"),
        5,
        1,
        Some(PackFault::Kind),
    ),
    (
        (b"\x91\x92", Key::Short, b"\xc0"),
        0,
        0,
        Some(PackFault::Kind),
    ),
    (
        (b"\xdd\xff\xff\xff\xff", Key::No, b""),
        0,
        0,
        Some(PackFault::Short),
    ),
    ((b"", Key::No, b""), 0, 0, Some(PackFault::Short)),
    ((b"\xc0", Key::No, b""), 0, 0, Some(PackFault::Kind)),
];

fn rows_are_read(alloc: Global) -> bool {
    for &(text, weight, count, fault) in ROWS {
        let is_right = match bytes_of(alloc, text) {
            Some(bytes) => rows_of(bytes.as_slice()) == (weight, count, fault),
            None => false,
        };
        if !is_right {
            return false;
        }
    }
    true
}

// Whether an order of use of one row, of an entry of `aa` with that id, is written so.
fn is_row_written(alloc: Global, id: Option<u64>, weight: usize, text: Text) -> bool {
    let owned = item(alloc, b"aa", id);
    let mut out = Vec::new(alloc);
    writing::put_array(&mut out, 1).is_ok()
        && put_row(&mut out, CacheEntryKeyRef::from(&owned), weight).is_ok()
        && bytes_of(alloc, text) == Some(out)
}

const WRITTEN_ROWS: &[(Option<u64>, usize, Text)] = &[
    (None, 1, (b"\x91\x92", Key::Short, b"\x01")),
    (
        Some(7),
        256,
        (b"\x91\x92\x92", Key::Short, b"\x07\xcd\x01\0"),
    ),
];

fn rows_are_written(alloc: Global) -> bool {
    for &(id, weight, text) in WRITTEN_ROWS {
        if !is_row_written(alloc, id, weight, text) {
            return false;
        }
    }
    true
}

#[test]
fn rows_are_read_and_written(rt: HostRuntime) {
    laws::rows_are_spelled();
    assert!(rt; rows_are_read(rt.alloc()));
    assert!(rt; rows_are_written(rt.alloc()));
}
