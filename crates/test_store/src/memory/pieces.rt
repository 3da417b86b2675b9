//! A write is kept in the pieces in which it came, whichever allocation is refused: what is read over several of them is joined, so nothing else has its
//! bytes, where one piece, or a finished body, is shared.
use super::reading::finish;
use super::refused::{adds, is_finished_again, is_stored, reader, writer};
use crate::samples::{known, meta};
use cache_store::storage::{HandleHit, HandleMiss, MissFault, ReadStep};
use cache_words::key::CacheKey;
use store_memory::MemCache;
use store_memory::handlers::{MemHitHandler, MemMissHandler};

// Whether the next read is of bytes that nothing else has, or of shared ones; nothing where it gives no bytes.
fn is_joined(store: &mut MemCache, reader: &mut MemHitHandler) -> Option<bool> {
    match reader.read_body(store) {
        Ok(ReadStep::Bytes(bytes)) => Some(bytes.is_unique()),
        _ => None,
    }
}

// The same of a new reader's read from the start, at the second time at the latest.
fn has_parts(store: &mut MemCache, key: &CacheKey) -> Option<bool> {
    let mut reader = reader(store, key)?;
    let joined = match is_joined(store, &mut reader) {
        Some(joined) => Some(joined),
        None => is_joined(store, &mut reader),
    };
    finish(store, Some(reader));
    joined
}

// Finishes a write. Where that is refused, its pieces must be there, and it is finished again.
fn is_finished(store: &mut MemCache, key: &CacheKey, writer: MemMissHandler) -> bool {
    match writer.finish(store) {
        Ok(_) => true,
        Err(MissFault::Memory(back)) => {
            let is_kept = has_parts(store, key) == Some(true);
            is_finished_again(store, back) && is_kept
        }
        Err(_) => false,
    }
}

// Whether three writes of one byte stay apart until a finish that is not refused.
fn are_kept(store: &mut MemCache, key: &CacheKey, mut writer: MemMissHandler) -> bool {
    let is_first = adds(store, &mut writer, b"a") && has_parts(store, key) == Some(false);
    let is_written = adds(store, &mut writer, b"b") && adds(store, &mut writer, b"c");
    let is_kept = has_parts(store, key) == Some(true);
    is_finished(store, key, writer)
        && is_first
        && is_written
        && is_kept
        && is_stored(store, key, b"abc")
        && has_parts(store, key) == Some(false)
}

#[test]
fn three_bytes_are_three_pieces_until_a_finish_that_is_not_refused(rt: HostRuntime) {
    let key = known(rt.alloc(), b"aa");
    let meta = meta(rt.alloc(), 1300);
    let mut store = MemCache::new(rt.alloc());
    let right = match writer(&mut store, &key, &meta) {
        Some(writer) => are_kept(&mut store, &key, writer),
        None => true,
    };
    assert!(rt; right);
}
