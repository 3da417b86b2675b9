//! Calls that are refused memory, with a look at what is left. What is refused once is asked for again, and then answers as if it had
//! come first.
use super::reading::finish;
use crate::samples::{known, meta};
use bytes::Bytes;
use cache_heads::CacheMeta;
use cache_store::storage::{
    HandleHit, HandleMiss, MissFault, MissFinishType, ReadStep, Storage, StoreFault,
};
use cache_words::key::{CacheHashKey, CacheKey};
use cache_words::time::Moment;
use std::alloc::Global;
use store_memory::MemCache;
use store_memory::handlers::{MemHitHandler, MemMissHandler};

fn is_added(store: &mut MemCache, writer: &mut MemMissHandler, piece: &'static [u8]) -> bool {
    writer
        .write_body(store, Bytes::from_static(piece), false)
        .is_ok()
}

pub(super) fn adds(
    store: &mut MemCache,
    writer: &mut MemMissHandler,
    piece: &'static [u8],
) -> bool {
    is_added(store, writer, piece) || is_added(store, writer, piece)
}

fn looks(store: &mut MemCache, key: &CacheKey) -> Option<MemHitHandler> {
    match store.lookup(key) {
        Ok(Some((_meta, reader))) => Some(reader),
        _ => None,
    }
}

pub(super) fn reader(store: &mut MemCache, key: &CacheKey) -> Option<MemHitHandler> {
    match looks(store, key) {
        Some(reader) => Some(reader),
        None => looks(store, key),
    }
}

// Whether the next read is these bytes, or the end where there are none.
fn is_read(store: &mut MemCache, reader: &mut MemHitHandler, want: &[u8]) -> bool {
    match reader.read_body(store) {
        Ok(ReadStep::Bytes(bytes)) => bytes.as_slice() == want,
        Ok(ReadStep::End) => want.is_empty(),
        _ => false,
    }
}

// Whether a reader reads these bytes and the end.
fn reads(store: &mut MemCache, mut reader: MemHitHandler, want: &[u8]) -> bool {
    let read = is_read(store, &mut reader, want) || is_read(store, &mut reader, want);
    let right = read && is_read(store, &mut reader, b"");
    finish(store, Some(reader));
    right
}

fn is_finished(store: &mut MemCache, writer: MemMissHandler) -> bool {
    match writer.finish(store) {
        Ok(_) => true,
        Err(MissFault::Memory(back)) => is_finished_again(store, back),
        Err(_) => false,
    }
}

pub(super) fn is_finished_again(store: &mut MemCache, writer: MemMissHandler) -> bool {
    match writer.finish(store) {
        Ok(_) => true,
        Err(MissFault::Memory(back)) => {
            back.leave(store);
            false
        }
        Err(_) => false,
    }
}

pub(super) fn is_stored(store: &MemCache, key: &CacheKey, want: &[u8]) -> bool {
    match store.finished(&key.combined_bin()) {
        Some((_meta, bytes)) => bytes.as_slice() == want,
        None => false,
    }
}

fn is_whole(store: &mut MemCache, key: &CacheKey, mut writer: MemMissHandler) -> bool {
    let is_written = adds(store, &mut writer, b"a")
        && adds(store, &mut writer, b"b")
        && adds(store, &mut writer, b"cde");
    let reader = reader(store, key);
    let is_finished = is_finished(store, writer);
    let is_read = match reader {
        Some(reader) => reads(store, reader, b"abcde"),
        None => false,
    };
    is_written && is_finished && is_read && is_stored(store, key, b"abcde")
}

fn begin(
    store: &mut MemCache,
    key: &CacheKey,
    meta: &CacheMeta,
) -> Result<MemMissHandler, StoreFault> {
    store.get_miss_handler(key, meta)
}

pub(super) fn writer(
    store: &mut MemCache,
    key: &CacheKey,
    meta: &CacheMeta,
) -> Option<MemMissHandler> {
    match begin(store, key, meta) {
        Ok(writer) => Some(writer),
        Err(_) => begin(store, key, meta).ok(),
    }
}

// Whether a body of three pieces is whole after its finish, and its reader reads it to the end.
fn has_body(store: &mut MemCache, key: &CacheKey, meta: &CacheMeta) -> bool {
    match writer(store, key, meta) {
        Some(writer) => is_whole(store, key, writer),
        None => false,
    }
}

// The same, whichever allocation is refused.
pub(super) fn keeps_pieces(alloc: Global) -> bool {
    let key = known(alloc, b"aa");
    let mut store = MemCache::new(alloc);
    has_body(&mut store, &key, &meta(alloc, 1300))
}

// Whether a look-up finds this body.
fn is_found(store: &mut MemCache, key: &CacheKey, want: &[u8]) -> bool {
    match reader(store, key) {
        Some(reader) => reads(store, reader, want),
        None => false,
    }
}

// Whether a write leaves the old body until it is finished.
fn is_replaced(store: &mut MemCache, key: &CacheKey, mut writer: MemMissHandler) -> bool {
    let is_left = adds(store, &mut writer, b"xy") && is_stored(store, key, b"abcde");
    is_finished(store, writer) && is_left && is_stored(store, key, b"xy")
}

fn begins(store: &mut MemCache, key: &CacheKey, meta: &CacheMeta) -> bool {
    match begin(store, key, meta) {
        Ok(writer) => is_replaced(store, key, writer),
        Err(_) => false,
    }
}

fn begins_or_leaves(store: &mut MemCache, key: &CacheKey, meta: &CacheMeta) -> bool {
    match begin(store, key, meta) {
        Ok(writer) => is_replaced(store, key, writer),
        Err(fault) => {
            fault == StoreFault::Memory
                && is_found(store, key, b"abcde")
                && begins(store, key, meta)
        }
    }
}

#[test]
fn a_refused_begin_leaves_the_body(rt: HostRuntime) {
    let key = known(rt.alloc(), b"aa");
    let meta = meta(rt.alloc(), 1300);
    let mut store = MemCache::new(rt.alloc());
    assert!(rt; has_body(&mut store, &key, &meta));
    assert!(rt; begins_or_leaves(&mut store, &key, &meta));
}

// Whether a finish stores two bytes, which weigh 32 with their meta.
fn creates(store: &mut MemCache, writer: MemMissHandler) -> bool {
    match writer.finish(store) {
        Ok(MissFinishType::Created(weight)) => weight == 32,
        Ok(_) => false,
        Err(MissFault::Memory(back)) => {
            back.leave(store);
            false
        }
        Err(_) => false,
    }
}

// Whether this body is stored, or none where it has no bytes.
fn is_left(store: &MemCache, key: &CacheKey, left: &[u8]) -> bool {
    is_stored(store, key, left) || left.is_empty() && store.finished_len() == 0
}

fn creates_or_leaves(
    store: &mut MemCache,
    key: &CacheKey,
    writer: MemMissHandler,
    left: &[u8],
) -> bool {
    match writer.finish(store) {
        Ok(MissFinishType::Created(weight)) => weight == 32,
        Ok(_) => false,
        Err(MissFault::Memory(back)) => {
            let is_left = is_left(store, key, left);
            creates(store, back) && is_left
        }
        Err(_) => false,
    }
}

fn writes_or_leaves(
    store: &mut MemCache,
    key: &CacheKey,
    mut writer: MemMissHandler,
    left: &[u8],
) -> bool {
    let is_written = adds(store, &mut writer, b"x") && adds(store, &mut writer, b"y");
    creates_or_leaves(store, key, writer, left) && is_written && is_stored(store, key, b"xy")
}

fn finishes_or_leaves(store: &mut MemCache, key: &CacheKey, meta: &CacheMeta, left: &[u8]) -> bool {
    match writer(store, key, meta) {
        Some(writer) => writes_or_leaves(store, key, writer, left),
        None => false,
    }
}

#[test]
fn a_refused_finish_leaves_the_body(rt: HostRuntime) {
    let key = known(rt.alloc(), b"aa");
    let meta = meta(rt.alloc(), 1300);
    let mut store = MemCache::new(rt.alloc());
    assert!(rt; has_body(&mut store, &key, &meta));
    assert!(rt; finishes_or_leaves(&mut store, &key, &meta, b"abcde"));
}

#[test]
fn a_refused_finish_stores_nothing(rt: HostRuntime) {
    let key = known(rt.alloc(), b"aa");
    let meta = meta(rt.alloc(), 1300);
    let mut store = MemCache::new(rt.alloc());
    assert!(rt; finishes_or_leaves(&mut store, &key, &meta, b""));
}

// Whether the body is there with a meta that is fresh until that second.
fn is_until(store: &MemCache, key: &CacheKey, until: i64) -> bool {
    let is_fresh = match store.finished(&key.combined_bin()) {
        Some((meta, _bytes)) => meta.fresh_until() == Moment::from_seconds(until),
        None => false,
    };
    is_fresh && is_stored(store, key, b"abcde")
}

fn update(store: &mut MemCache, key: &CacheKey, meta: &CacheMeta) -> Option<StoreFault> {
    store.update_meta(key, meta).err()
}

fn updates_or_leaves(store: &mut MemCache, key: &CacheKey, meta: &CacheMeta) -> bool {
    let fault = update(store, key, meta);
    let right = fault.is_none()
        || fault == Some(StoreFault::Memory)
            && is_until(store, key, 1300)
            && update(store, key, meta).is_none();
    right && is_until(store, key, 1400)
}

#[test]
fn a_refused_update_leaves_the_meta(rt: HostRuntime) {
    let key = known(rt.alloc(), b"aa");
    let old = meta(rt.alloc(), 1300);
    let new = meta(rt.alloc(), 1400);
    let mut store = MemCache::new(rt.alloc());
    assert!(rt; has_body(&mut store, &key, &old));
    assert!(rt; updates_or_leaves(&mut store, &key, &new));
}
