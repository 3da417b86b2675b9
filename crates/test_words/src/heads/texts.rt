//! Metas as bytes.
use super::meta;
use crate::made::head_of;
use cache_heads::cache_control::CacheControl;
use cache_heads::filters::resp_cacheable;
use cache_heads::meta::{
    CacheMeta, CacheMetaDefaults, MetaFault, MetaReadFault, NeverByStatus, ResponseHeader,
};
use cache_heads::{RespCacheable, laws};
use cache_words::pack::fault::PackFault;
use cache_words::time::Moment;
use std::alloc::Global;

pub(super) const INTERNAL: &[u8] =
    b"\x99\x02\x92\xcd\x03\xf2\0\x92\xcd\x03\xe8\0\x92\xcd\x03\xe8\0\x05\x3c\xc0\xc0\x92\xcd\x03\xe8\0";

pub(super) const HEADER: &[u8] = b"\x92\xcc\xc8\x91\x92\xa4etag\xc4\x03\"a\"";

// What the original writes of a response that came at 127.
const PUT_INTERNAL: &[u8] =
    b"\x99\x02\x92\xcc\xad\0\x92\x7f\0\x92\x7f\0\xce\0\x01\x11\x70\x3c\xc0\xc0\x92\x7f\0";

const PUT_HEADER: &[u8] =
    b"\x92\xcc\xc8\x91\x92\xadcache-control\xc4\x3bmax-age=46, stale-while-revalidate=70000, stale-if-error=60";

/// Whether a meta is written so, and takes as many bytes as it says.
pub(super) fn is_written(
    alloc: Global,
    meta: &CacheMeta,
    internal: &[u8],
    header: &[u8],
) -> Result<bool, MetaFault> {
    match meta.serialize(alloc) {
        Ok((first, second)) => {
            let is_so = first.as_slice() == internal && second.as_slice() == header;
            let len = first.len().checked_add(second.len());
            Ok(is_so && meta.written_len() == len)
        }
        Err(fault) => Err(fault),
    }
}

/// Whether this meta is read.
pub(super) fn is_read(
    alloc: Global,
    meta: &CacheMeta,
    internal: &[u8],
    header: &[u8],
) -> Result<bool, MetaReadFault> {
    match CacheMeta::deserialize(alloc, internal, header) {
        Ok(read) => Ok(read.internal == meta.internal && *read.headers() == *meta.headers()),
        Err(fault) => Err(fault),
    }
}

// Bytes, and whether a meta is read from them: its moments and numbers are read before the head.
const READ: &[(&[u8], &[u8], Result<bool, MetaReadFault>)] = &[
    (INTERNAL, HEADER, Ok(true)),
    (b"\x96", b"\xc0", Err(MetaReadFault::Pack(PackFault::Short))),
    (INTERNAL, b"\xc0", Err(MetaReadFault::Pack(PackFault::Kind))),
];

fn are_read(alloc: Global, meta: &CacheMeta) -> bool {
    for &(internal, header, want) in READ {
        if is_read(alloc, meta, internal, header) != want {
            return false;
        }
    }
    true
}

// Whether a meta is written and read again, and refused with a moment before 1970.
fn both_ways(alloc: Global) -> bool {
    let mut meta = meta(alloc);
    let is_right = is_written(alloc, &meta, INTERNAL, HEADER) == Ok(true) && are_read(alloc, &meta);
    meta.set_epoch_override(Moment::from_seconds(-1));
    let written = is_written(alloc, &meta, INTERNAL, HEADER);
    is_right && written == Err(MetaFault::MetaMoment)
}

#[test]
fn metas_are_read_again_and_the_first_fault_is_told(rt: HostRuntime) {
    laws::meta_is_read_again();
    laws::one_meta();
    assert!(rt; both_ways(rt.alloc()));
}

fn is_kept(alloc: Global, found: RespCacheable) -> bool {
    if !found.is_cacheable() {
        return false;
    }
    is_written(alloc, &found.unwrap_meta(), PUT_INTERNAL, PUT_HEADER) == Ok(true)
}

// Puts a response that came at 127.
fn put(control: Option<&CacheControl>, header: ResponseHeader) -> RespCacheable {
    let defaults = CacheMetaDefaults::new(NeverByStatus, 0, 0);
    resp_cacheable(Moment::from_seconds(127), control, header, false, &defaults)
}

fn is_put(alloc: Global, line: &str) -> bool {
    let header = head_of(alloc, "cache-control", line);
    match CacheControl::from_resp_headers(alloc, &header) {
        Ok(found) => is_kept(alloc, put(found.as_ref(), header)),
        Err(_) => false,
    }
}

#[test]
fn the_meta_of_a_put_is_written(rt: HostRuntime) {
    let line = "max-age=46, stale-while-revalidate=70000, stale-if-error=60";
    assert!(rt; is_put(rt.alloc(), line));
}
