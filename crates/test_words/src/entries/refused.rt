//! Each call that takes memory, with a look at what a refusal leaves. These tests pass whichever allocation fails.
use crate::entries::values::entry;
use cache_entries::entry::{CacheEntryId, CacheEntryKey, CacheEntryKeyRef};
use cache_entries::pack::{put_entry, put_row, take_entry};
use cache_words::pack::{Cursor, PackWriteFault};
use std::alloc::{AllocError, Global};

#[derive(Clone, Copy)]
enum Put {
    Entry,
    Row,
}

// Whether a writer added bytes to the one that was there, or was refused and left that one alone.
fn adds_or_keeps(alloc: Global, owned: &CacheEntryKey, put: Put) -> bool {
    let Ok(mut out) = Vec::from_slice(alloc, &[9]) else {
        return true;
    };
    let borrowed = CacheEntryKeyRef::from(owned);
    let done = match put {
        Put::Entry => put_entry(&mut out, borrowed),
        Put::Row => put_row(&mut out, borrowed, 5),
    };
    match done {
        Ok(()) => out.len() > 1,
        Err(fault) => fault == PackWriteFault::Memory && out.as_slice() == [9].as_slice(),
    }
}

fn writes_add_or_keep(alloc: Global, id: Option<u64>) -> bool {
    match entry(alloc, b"aa", id) {
        Ok(owned) => {
            adds_or_keeps(alloc, &owned, Put::Entry) && adds_or_keeps(alloc, &owned, Put::Row)
        }
        Err(AllocError) => true,
    }
}

#[test]
fn refused_writes_leave_the_bytes(rt: HostRuntime) {
    assert!(rt; writes_add_or_keep(rt.alloc(), None));
    assert!(rt; writes_add_or_keep(rt.alloc(), Some(7)));
}

// Whether an outcome is a copy of the entry, or refused.
fn is_copy(found: Result<CacheEntryKey, AllocError>, owned: &CacheEntryKey) -> bool {
    match found {
        Ok(copy) => copy == *owned,
        Err(AllocError) => true,
    }
}

// Whether an entry of id 7 stays, copied or not.
fn entry_is_left(alloc: Global) -> bool {
    match entry(alloc, b"aa", Some(7)) {
        Ok(owned) => {
            is_copy(owned.clone(), &owned)
                && is_copy(CacheEntryKeyRef::from(&owned).to_entry(), &owned)
                && owned.entry_id() == Some(CacheEntryId::new(7))
        }
        Err(AllocError) => true,
    }
}

const TEXT: &[u8] = b"\x92\x93\xdc\x00\x10\0\0\0\0\0\0\0\0\0\0\0\0\0\0\0\0\xc0\xa1x\x07";

// Whether the text is read to its end, and a copy of what was read has the id 7, or is refused.
fn is_read_and_copied(alloc: Global) -> bool {
    let mut cursor = Cursor { rest: TEXT };
    let Ok(read) = take_entry(&mut cursor) else {
        return false;
    };
    let is_right = match read.to_entry(alloc) {
        Ok(owned) => owned.entry_id() == Some(CacheEntryId::new(7)),
        Err(AllocError) => true,
    };
    is_right && cursor.rest.is_empty()
}

#[test]
fn refused_copies_leave_the_entry_and_what_was_read(rt: HostRuntime) {
    assert!(rt; entry_is_left(rt.alloc()));
    assert!(rt; is_read_and_copied(rt.alloc()));
}
