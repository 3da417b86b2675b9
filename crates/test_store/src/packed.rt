//! Metas that are packed and read again.
use crate::samples::meta;
use cache_heads::CacheMeta;
use cache_words::time::Moment;
use head_packed::PackedMeta;
use http_header::HeaderValue;
use std::alloc::Global;

// A meta: whether a value is marked as sensitive, whether it was renewed, whether it varies, and what its body has outside.
#[derive(Clone, Copy)]
struct Row {
    sensitive: bool,
    renewed: bool,
    varies: bool,
    external: u64,
}

const ROWS: &[Row] = &[
    Row {
        sensitive: false,
        renewed: false,
        varies: false,
        external: 0,
    },
    Row {
        sensitive: true,
        renewed: false,
        varies: false,
        external: 0,
    },
    Row {
        sensitive: false,
        renewed: true,
        varies: false,
        external: 0,
    },
    Row {
        sensitive: false,
        renewed: false,
        varies: true,
        external: 0,
    },
    Row {
        sensitive: true,
        renewed: true,
        varies: true,
        external: 0,
    },
    Row {
        sensitive: false,
        renewed: false,
        varies: false,
        external: 7,
    },
    Row {
        sensitive: true,
        renewed: true,
        varies: false,
        external: 1 << 63,
    },
];

fn value(alloc: Global, line: &[u8], sensitive: bool) -> Option<HeaderValue> {
    let mut value = HeaderValue::from_bytes(alloc, line).ok()?;
    value.set_sensitive(sensitive);
    Some(value)
}

fn fill(alloc: Global, sample: &mut CacheMeta, row: Row) -> Option<()> {
    let cookie = value(alloc, b"a=1", row.sensitive)?;
    sample.header.headers.append("set-cookie", cookie).ok()?;
    let plain = value(alloc, b"text/plain", false)?;
    sample.header.headers.append("content-type", plain).ok()?;
    if row.renewed {
        sample.update_freshness(Moment::from_seconds(1300), 5, 6, Moment::from_seconds(1000));
    }
    if row.varies {
        sample.set_variance([7; 16]);
    }
    sample.external = row.external;
    Some(())
}

fn is_sensitive(meta: &CacheMeta) -> bool {
    match meta.header.headers.get("set-cookie") {
        Some(value) => value.is_sensitive(),
        None => false,
    }
}

// Whether the meta is read as it was.
fn is_read(alloc: Global, packed: &PackedMeta, sample: &CacheMeta) -> bool {
    match packed.unpack(alloc) {
        Ok(read) => {
            read.internal == sample.internal
                && packed.internal() == sample.internal
                && read.external == sample.external
                && packed.external() == sample.external
                && read.header.status == sample.header.status
                && read.header.headers == sample.header.headers
                && is_sensitive(&read) == is_sensitive(sample)
        }
        Err(_) => false,
    }
}

// The meta is read as it was, also after it goes stale earlier.
fn is_kept(alloc: Global, packed: &mut PackedMeta, sample: &mut CacheMeta, row: Row) -> bool {
    let fresh = packed.fresh_until();
    let holds = is_read(alloc, packed, sample) && is_sensitive(sample) == row.sensitive;
    packed.expire_at(Moment::from_seconds(1400));
    let stays = packed.fresh_until();
    packed.expire_at(Moment::from_seconds(1200));
    sample.expire_at(Moment::from_seconds(1200));
    let until = Moment::from_seconds(1300);
    holds && fresh == until && stays == until && is_read(alloc, packed, sample)
}

fn row_holds(alloc: Global, row: Row) -> bool {
    let mut sample = meta(alloc, 1300);
    if fill(alloc, &mut sample, row).is_none() {
        return false;
    }
    match PackedMeta::pack(alloc, &sample) {
        Ok(mut packed) => is_kept(alloc, &mut packed, &mut sample, row),
        Err(_) => false,
    }
}

#[test]
fn packed_metas_are_read_as_they_were(rt: HostRuntime) {
    for &row in ROWS {
        assert!(rt; row_holds(rt.alloc(), row));
    }
}
