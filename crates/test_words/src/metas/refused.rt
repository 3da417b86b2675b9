//! Calls that take memory. Nothing here makes an allocation fail: a run that makes the n-th one fail shows the other arm.
use super::head::names_of;
use super::internal::early;
use crate::made::head_of;
use head_lines::ResponseHeader;
use head_metas::fault::{MetaFault, MetaReadFault};
use head_metas::versions::{InternalMetaV0, InternalMetaV2};
use head_metas::{head, internal};
use std::alloc::{AllocError, Global};

fn moments_are_written(alloc: Global) -> bool {
    let first: InternalMetaV0 = early();
    match internal::write(alloc, &InternalMetaV2::from(first)) {
        Ok(text) => text.len() == 21,
        Err(fault) => fault == MetaFault::Memory,
    }
}

fn is_written(alloc: Global, header: &ResponseHeader) -> bool {
    match head::write(alloc, header) {
        Ok(text) => text.len() == 47,
        Err(AllocError) => header.headers.len() == 1,
    }
}

// The head lacks its field where memory was refused before.
fn head_is_written(alloc: Global) -> bool {
    let header = head_of(alloc, "x-name-of-its-own", "a value of some length");
    header.headers.is_empty() || is_written(alloc, &header)
}

fn head_is_read(alloc: Global) -> bool {
    let text = b"\x92\xcc\xc8\x92\x92\xb1x-name-of-its-own\xc4\x01a\x92\xa4etag\xc4\x01b";
    match names_of(alloc, text) {
        Ok(count) => count == 2,
        Err(fault) => fault == MetaReadFault::Memory,
    }
}

#[test]
fn refused_writes_and_reads(rt: HostRuntime) {
    assert!(rt; moments_are_written(rt.alloc()));
    assert!(rt; head_is_written(rt.alloc()));
    assert!(rt; head_is_read(rt.alloc()));
}

// Takes more memory than the tests above, and is no test of a refusal: where it passes, none of them met one.
#[test]
fn ample_memory_meets_no_refusal(rt: HostRuntime) {
    for i in 0..40 {
        assert!(rt; Vec::from_slice(rt.alloc(), &[i; 64]).is_ok());
    }
}
