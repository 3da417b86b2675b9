//! Which heads are packed, and that one of at most 256 names shares no buffer with the meta that came; of neither a clause speaks.
use crate::samples::meta;
use cache_words::time::Moment;
use head_packed::PackedMeta;
use http_header::{HeaderMap, HeaderName, HeaderValue};
use std::alloc::Global;

// A head of so many names, each with one value, which is marked as sensitive or not, in a meta that was renewed or not.
#[derive(Clone, Copy)]
struct Row {
    names: u16,
    sensitive: bool,
    renewed: bool,
    // Whether its head is packed, if it has a value that shows it.
    packed: Option<bool>,
    // Whether it shares no buffer.
    own: bool,
}

const ROWS: &[Row] = &[
    Row {
        names: 0,
        sensitive: false,
        renewed: false,
        packed: None,
        own: true,
    },
    Row {
        names: 7,
        sensitive: false,
        renewed: false,
        packed: Some(true),
        own: true,
    },
    Row {
        names: 256,
        sensitive: false,
        renewed: false,
        packed: Some(true),
        own: true,
    },
    Row {
        names: 7,
        sensitive: false,
        renewed: true,
        packed: Some(true),
        own: true,
    },
    Row {
        names: 7,
        sensitive: true,
        renewed: false,
        packed: Some(false),
        own: true,
    },
    Row {
        names: 257,
        sensitive: false,
        renewed: false,
        packed: Some(false),
        own: false,
    },
];

// What fields share with their source: the first one its name, and each its value.
#[derive(Drop)]
struct Shared {
    name: HeaderName,
    value: HeaderValue,
}

fn letter(i: u16) -> u8 {
    b'a' + (i % 16) as u8
}

// The name of that number.
fn name_of(i: u16) -> [u8; 3] {
    [letter(i / 256), letter(i / 16), letter(i)]
}

// Appends the field of that number.
fn append(
    alloc: Global,
    headers: &mut HeaderMap,
    i: u16,
    sensitive: bool,
    shared: &Shared,
) -> Option<()> {
    let name = match i {
        0 => shared.name.clone().ok()?,
        _ => HeaderName::from_bytes(alloc, &name_of(i)).ok()?,
    };
    let mut value = shared.value.clone().ok()?;
    value.set_sensitive(sensitive);
    headers.append(name, value).ok()?;
    Some(())
}

fn packed(alloc: Global, row: Row, shared: &Shared) -> Option<PackedMeta> {
    let mut meta = meta(alloc, 1000);
    for i in 0..row.names {
        append(alloc, &mut meta.header.headers, i, row.sensitive, shared)?;
    }
    if row.renewed {
        meta.internal.updated = Moment::from_seconds(1001);
    }
    PackedMeta::pack(alloc, &meta).ok()
}

// The first value of the head that is read, if it has one.
fn first_value(alloc: Global, packed: &PackedMeta) -> Option<HeaderValue> {
    match packed.unpack(alloc) {
        Ok(mut read) => read.header.headers.remove("x-name"),
        Err(_) => None,
    }
}

// Whether its head is packed, if it has a value: no value that is read then shares its buffer with one that is kept.
fn is_packed(alloc: Global, packed: &PackedMeta) -> Option<bool> {
    match first_value(alloc, packed) {
        Some(value) => Some(value.as_shared().is_unique()),
        None => None,
    }
}

fn is_so(alloc: Global, row: Row, shared: Shared) -> bool {
    match packed(alloc, row, &shared) {
        Some(packed) => {
            let is_packed = is_packed(alloc, &packed);
            let value_is_own = shared.value.as_shared().is_unique();
            let name_is_own = HeaderValue::from_name(shared.name).as_shared().is_unique();
            is_packed == row.packed && value_is_own == row.own && name_is_own == row.own
        }
        None => false,
    }
}

fn make_shared(alloc: Global) -> Option<Shared> {
    let name = HeaderName::from_bytes(alloc, b"x-name").ok()?;
    let value = HeaderValue::from_bytes(alloc, b"a value").ok()?;
    Some(Shared { name, value })
}

#[test]
fn metas_are_kept_in_little_memory(rt: HostRuntime) {
    for &row in ROWS {
        let is_so = match make_shared(rt.alloc()) {
            Some(shared) => is_so(rt.alloc(), row, shared),
            None => false,
        };
        assert!(rt; is_so);
    }
}
