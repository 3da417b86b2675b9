//! How large a write in flight is, with what its body has outside.
use crate::samples::{known, meta};
use bytes::Bytes;
use cache_heads::CacheMeta;
use cache_store::storage::{HandleMiss, Storage};
use std::alloc::Global;
use store_memory::MemCache;

// Whether the write of a body with 700 bytes outside is told at each step, and no other is, nor this one after its end.
pub(super) fn are_told(alloc: Global) -> Option<bool> {
    let mut store = MemCache::new(alloc);
    let outside = CacheMeta {
        external: 700,
        ..meta(alloc, 1300)
    };
    let mut writer = store.get_miss_handler(&known(alloc, b"a"), &outside).ok()?;
    let number = writer.number();
    let begun = store.write_size(number) == Some(700);
    let written = writer.write_body(&mut store, Bytes::from_static(b"body"), false);
    let grown = store.write_size(number) == Some(704) && store.write_size(number + 1) == None;
    writer.leave(&mut store);
    written.ok()?;
    Some(begun && grown && store.write_size(number) == None)
}
