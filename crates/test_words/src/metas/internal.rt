//! Moments and numbers of metas as bytes.
use cache_words::pack::PackFault;
use cache_words::time::Moment;
use head_metas::fault::MetaFault;
use head_metas::versions::{EarlyInternalMeta, InternalMetaV0, InternalMetaV1, InternalMetaV2};
use head_metas::{internal, laws};
use std::alloc::Global;

// An early meta of a response that was stored at second 1000.
pub fn early<const VERSION: u8>() -> EarlyInternalMeta<VERSION> {
    EarlyInternalMeta {
        fresh_until: Moment::from_seconds(1010),
        created: Moment::from_seconds(1000),
        stale_while_revalidate_sec: 0,
        stale_if_error_sec: 0,
    }
}

// The same in the latest form.
fn latest() -> InternalMetaV2 {
    InternalMetaV2 {
        fresh_until: Moment::from_seconds(1010),
        created: Moment::from_seconds(1000),
        updated: Moment::from_seconds(1000),
        stale_while_revalidate_sec: 0,
        stale_if_error_sec: 0,
        variance: None,
        epoch_override: None,
        provenance: None,
    }
}

#[test]
fn early_metas_are_seen_as_the_latest(rt: HostRuntime) {
    let first: InternalMetaV0 = early();
    let second: InternalMetaV1 = early();
    assert!(rt; InternalMetaV2::from(first) == latest());
    assert!(rt; InternalMetaV2::from(second) == latest());
    assert!(rt; (InternalMetaV1::VERSION, InternalMetaV2::VERSION) == (1, 2));
}

// Bytes, and what refuses them, or else they are read as the latest: each form, with all that may be absent, and with nil in
// its place, and with bytes after it; and then the first faults of metas.
const READ: &[(&[u8], Option<PackFault>)] = &[
    (
        b"\x94\x92\xcd\x03\xf2\x00\x92\xcd\x03\xe8\x00\x00\x00",
        None,
    ),
    (
        b"\x95\x01\x92\xcd\x03\xf2\x00\x92\xcd\x03\xe8\x00\x00\x00",
        None,
    ),
    (
        b"\x96\x02\x92\xcd\x03\xf2\x00\x92\xcd\x03\xe8\x00\x92\xcd\x03\xe8\x00\x00\x00",
        None,
    ),
    (
        b"\x97\x02\x92\xcd\x03\xf2\x00\x92\xcd\x03\xe8\x00\x92\xcd\x03\xe8\x00\x00\x00\xc0",
        None,
    ),
    (
        b"\x98\x02\x92\xcd\x03\xf2\x00\x92\xcd\x03\xe8\x00\x92\xcd\x03\xe8\x00\x00\x00\xc0\xc0",
        None,
    ),
    (
        b"\x99\x02\x92\xcd\x03\xf2\x00\x92\xcd\x03\xe8\x00\x92\xcd\x03\xe8\x00\x00\x00\xc0\xc0\xc0\xff",
        None,
    ),
    (
        b"\xdc\x00\x06\x02\xdc\x00\x02\xce\x00\x00\x03\xf2\xcc\x00\x92\xcd\x03\xe8\x00\x92\xcd\x03\xe8\x00\x00\xcf\x00\x00\x00\x00\x00\x00\x00\x00",
        None,
    ),
    (b"", Some(PackFault::Short)),
    (
        b"\x94\x92\x00\x00\x92\x00\x00\x00\x00",
        Some(PackFault::Short),
    ),
    (b"\x93\x03\0\0\0\0\0\0\0\0", Some(PackFault::Range)),
    (b"\x95\x02\0\0\0\0\0\0\0\0", Some(PackFault::Length)),
    (b"\x9a\x02\0\0\0\0\0\0\0\0", Some(PackFault::Length)),
    (b"\x96\x01\0\0\0\0\0\0\0\0", Some(PackFault::Length)),
    (b"\x96\xcc\x02\0\0\0\0\0\0\0", Some(PackFault::Kind)),
    (b"\x83\x03\0\0\0\0\0\0\0\0", Some(PackFault::Kind)),
    (b"\x96\x02\0\0\0\0\0\0\0\0", Some(PackFault::Kind)),
    (b"\x96\x02\x93\0\0\0\0\0\0\0", Some(PackFault::Length)),
    (b"\x94\x92\0\0\x92\0\0\xce\x01\x02", Some(PackFault::Short)),
    (
        b"\x94\x92\0\0\x92\0\0\xcf\0\0\0\x01\0\0\0\0\0",
        Some(PackFault::Range),
    ),
    (
        b"\x97\x02\x92\0\0\x92\0\0\x92\0\0\0\0\x90",
        Some(PackFault::Length),
    ),
    (
        b"\x99\x02\x92\0\0\x92\0\0\x92\0\0\0\0\xc0\xc0",
        Some(PackFault::Short),
    ),
];

fn is_read_so(bytes: &[u8], fault: Option<PackFault>) -> bool {
    match fault {
        Some(fault) => internal::read(bytes) == Err(fault),
        None => internal::read(bytes) == Ok(latest()),
    }
}

#[test]
fn every_form_of_a_meta_is_read_and_the_first_fault_returned(rt: HostRuntime) {
    for &(bytes, fault) in READ {
        assert!(rt; is_read_so(bytes, fault));
    }
}

#[derive(Clone, Copy)]
enum Field {
    FreshUntil,
    Created,
    Updated,
    EpochOverride,
    Provenance,
}

// A meta with this moment before 1970.
fn too_early(field: Field) -> InternalMetaV2 {
    let mut meta = latest();
    let moment = Moment::from_seconds(-1);
    match field {
        Field::FreshUntil => meta.fresh_until = moment,
        Field::Created => meta.created = moment,
        Field::Updated => meta.updated = moment,
        Field::EpochOverride => meta.epoch_override = Some(moment),
        Field::Provenance => meta.provenance = Some(moment),
    }
    meta
}

fn is_refused(alloc: Global, meta: &InternalMetaV2) -> bool {
    match internal::write(alloc, meta) {
        Ok(_) => false,
        Err(fault) => fault == MetaFault::MetaMoment,
    }
}

#[test]
fn a_moment_before_1970_is_not_written(rt: HostRuntime) {
    for field in [
        Field::FreshUntil,
        Field::Created,
        Field::Updated,
        Field::EpochOverride,
        Field::Provenance,
    ] {
        assert!(rt; is_refused(rt.alloc(), &too_early(field)));
    }
}

#[test]
fn what_is_written_is_read_again(rt: HostRuntime) {
    laws::internal_is_read_again();
    laws::one_internal();
}
