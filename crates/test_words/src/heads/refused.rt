//! Calls that take memory. Nothing here makes an allocation fail: a run that makes the n-th one
//! fail shows the other arm.
use super::meta;
use super::texts::{HEADER, INTERNAL, is_read, is_written};
use cache_heads::meta::{CacheMeta, MetaFault, MetaReadFault};
use std::alloc::Global;

fn is_copied_or_left(kept: &CacheMeta) -> bool {
    match kept.response_header_copy() {
        Ok(copy) => copy.headers.len() == 1,
        Err(_) => kept.headers().len() == 1,
    }
}

fn is_written_or_refused(alloc: Global, kept: &CacheMeta) -> bool {
    match is_written(alloc, kept, INTERNAL, HEADER) {
        Ok(is_right) => is_right,
        Err(fault) => fault == MetaFault::Memory,
    }
}

fn is_read_or_refused(alloc: Global, kept: &CacheMeta) -> bool {
    match is_read(alloc, kept, INTERNAL, HEADER) {
        Ok(is_right) => is_right,
        Err(fault) => fault == MetaReadFault::Memory,
    }
}

// The meta lacks its field where memory was refused before.
fn all_done_or_refused(alloc: Global) -> bool {
    let kept = meta(alloc);
    kept.headers().is_empty()
        || is_copied_or_left(&kept)
            && is_written_or_refused(alloc, &kept)
            && is_read_or_refused(alloc, &kept)
}

#[test]
fn refused_copy_write_and_read_of_a_meta(rt: HostRuntime) {
    assert!(rt; all_done_or_refused(rt.alloc()));
}
