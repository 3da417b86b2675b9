//! Recency texts of both managers.

use crate::managers::names::{A, B, C, D, Name};
use crate::managers::shards::shards_do;
use crate::managers::steps::{Step, all_done, list_does};
use cache_evict::{LoadFault, lru, simple_lru};
use cache_words::pack::PackFault;
use std::alloc::{AllocError, Global};

/// A key of 31 bytes and a tag of one, as a row holds it.
const KEY: &[u8] =
    b"\x93\xdc\x00\x10\xcc\xac\x10\xcc\xf2\xcc\xae\xcc\xf1\x17\x72\xcc\x9f\xcc\x8d\xcc\xad\x05\x6b\x30\x59\xcc\xeb\x7e\xc0\xa1\x31";

const AA: Name = (b"aa", None);

/// A text: its head, and what stands after the key in each row.
pub type Text = (&'static [u8], &'static [&'static [u8]]);

fn put_rows(bytes: &mut Vec<u8>, weights: &[&[u8]]) -> Result<(), AllocError> {
    for weight in weights {
        bytes.push(0x92)?;
        bytes.extend_from_slice(KEY)?;
        bytes.extend_from_slice(weight)?;
    }
    Ok(())
}

pub fn bytes_of(alloc: Global, text: Text) -> Option<Vec<u8>> {
    let mut bytes = Vec::from_slice(alloc, text.0).ok()?;
    match put_rows(&mut bytes, text.1) {
        Ok(()) => Some(bytes),
        Err(_) => None,
    }
}

/// What a load returns, and the weight and number of all entries after it.
type Loaded = (Result<(), LoadFault>, usize, usize);

const SHORT: Result<(), LoadFault> = Err(LoadFault::Text(PackFault::Short));

const KIND: Result<(), LoadFault> = Err(LoadFault::Text(PackFault::Kind));

const WEIGHT: Result<(), LoadFault> = Err(LoadFault::Weight);

/// A weight that a shard of four can't have.
const HEAVY: &[u8] = b"\xcf\xff\xff\xff\xff\xff\xff\xff\xff";

const TEXTS: &[(Text, Loaded, Loaded)] = &[
    ((b"\x91", &[b"\x01"]), (Ok(()), 1, 1), (Ok(()), 1, 1)),
    (
        (b"\xdc\0\x01", &[b"\xcd\0\x03\xc1"]),
        (Ok(()), 3, 1),
        (Ok(()), 3, 1),
    ),
    ((b"\x91", &[b"\x00"]), (Ok(()), 0, 1), (Ok(()), 0, 1)),
    ((b"\x92", &[b"\x01"]), (SHORT, 1, 1), (SHORT, 1, 1)),
    (
        (b"\x92", &[b"\x01", b"\x02"]),
        (Ok(()), 1, 1),
        (Ok(()), 2, 1),
    ),
    ((b"\x91", &[HEAVY]), (WEIGHT, 0, 0), (Ok(()), usize::MAX, 1)),
    (
        (b"\x92", &[b"\x01", HEAVY]),
        (Ok(()), 1, 1),
        (Ok(()), usize::MAX, 1),
    ),
    ((b"\x91", &[b"\xc0"]), (KIND, 0, 0), (KIND, 0, 0)),
    ((b"\xdd\xff\xff\xff\xff", &[]), (SHORT, 0, 0), (SHORT, 0, 0)),
    ((b"\x90", &[]), (Ok(()), 0, 0), (Ok(()), 0, 0)),
    ((b"", &[]), (SHORT, 0, 0), (SHORT, 0, 0)),
];

fn are_read(alloc: Global, text: Text, sharded: Loaded, simple: Loaded) -> bool {
    match bytes_of(alloc, text) {
        Some(bytes) => {
            let (one, other) = ((bytes.as_slice(), sharded.0), (bytes.as_slice(), simple.0));
            let held = [Step::Holds(sharded.1, sharded.2)];
            shards_do::<4>(alloc, (9, 0, None), Some(one), &[], &held)
                && list_does(
                    alloc,
                    9,
                    None,
                    Some(other),
                    &[Step::Holds(simple.1, simple.2)],
                )
        }
        None => false,
    }
}

/// What a manager may weigh, its calls, the text that it saves then, and the calls of one into which the text is loaded.
type Kept = (usize, &'static [Step], Option<Text>, &'static [Step]);

const KEPT: &[Kept] = &[
    (
        9,
        &[Step::Admit(AA, 1, &[])],
        Some((b"\x91", &[b"\x01"])),
        &[Step::Holds(1, 1)],
    ),
    // What is loaded evicts as what was saved.
    (
        4,
        &[
            Step::Admit(A, 1, &[]),
            Step::Admit(B, 2, &[]),
            Step::Admit(C, 1, &[]),
            Step::Access(A, 1, true),
        ],
        None,
        &[Step::Holds(4, 3), Step::Admit(D, 2, &[B])],
    ),
];

fn saved_by_shard(alloc: Global, limit: usize, steps: &[Step]) -> Option<Vec<u8>> {
    match lru::Manager::<1>::with_capacity(alloc, limit, 0) {
        Ok(mut shard) => {
            if all_done(alloc, &mut shard, steps) {
                shard.serialize_shard(alloc, 0).ok()
            } else {
                None
            }
        }
        Err(_) => None,
    }
}

fn saved_by_list(alloc: Global, limit: usize, steps: &[Step]) -> Option<Vec<u8>> {
    match simple_lru::Manager::new(alloc, limit) {
        Ok(mut list) => {
            if all_done(alloc, &mut list, steps) {
                list.serialize(alloc).ok()
            } else {
                None
            }
        }
        Err(_) => None,
    }
}

/// Whether the bytes are that text, if there is one.
fn is_text(alloc: Global, bytes: &[u8], text: Option<Text>) -> bool {
    match text {
        Some(text) => match bytes_of(alloc, text) {
            Some(text) => text.as_slice() == bytes,
            None => false,
        },
        None => true,
    }
}

/// Whether the bytes are that text, and are loaded by both managers.
fn are_loaded(alloc: Global, bytes: &[u8], kept: Kept) -> bool {
    let (limit, _, text, steps) = kept;
    let load = Some((bytes, Ok(())));
    is_text(alloc, bytes, text)
        && shards_do::<1>(alloc, (limit, 0, None), load, &[], steps)
        && list_does(alloc, limit, None, load, steps)
}

/// Whether both managers save the same bytes, which are loaded again.
fn are_kept(alloc: Global, kept: Kept) -> bool {
    match (
        saved_by_shard(alloc, kept.0, kept.1),
        saved_by_list(alloc, kept.0, kept.1),
    ) {
        (Some(one), Some(other)) => one == other && are_loaded(alloc, one.as_slice(), kept),
        _ => false,
    }
}

#[test]
fn texts_are_read_and_written(rt: HostRuntime) {
    for &(text, sharded, simple) in TEXTS {
        assert!(rt; are_read(rt.alloc(), text, sharded, simple));
    }
    for &kept in KEPT {
        assert!(rt; are_kept(rt.alloc(), kept));
    }
}
