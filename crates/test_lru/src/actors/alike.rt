//! Managers of entries in two shards, with actors and without, as one table for both.

mod plain;
mod running;

use cache_entries::entry::CacheEntryKey;
use cache_words::key::CompactCacheKey;
use cache_words::text::Text;
use std::alloc::Global;

/// A call on an entry.
#[derive(Clone, Copy)]
pub(crate) enum Call {
    Admit(usize),
    /// Weight is added, up to a cap.
    Increment(usize, usize),
    /// A use, with the weight of an entry that isn't tracked; whether it was.
    Access(usize, bool),
    /// What it weighs, if it is tracked.
    Weighs(Option<usize>),
    Remove,
    /// By the parts of its key.
    RemoveParts,
}

/// How many entries a shard has, what they weigh, and the number of the last of them.
pub(crate) type Side = (usize, usize, Option<u8>);

/// An entry, by its shard and its number there, a call on it, and then both shards, and the number and the weight of all that was
/// evicted.
pub(crate) type Row = (usize, u8, Call, (Side, Side), (usize, usize));

/// An entry by its shard and its number there, and its weight.
pub(crate) type Gone = (usize, u8, usize);

/// What the entries may weigh, and past how many some are evicted.
pub(crate) const LIMIT: usize = 20;

pub(crate) const MARK: usize = 4;

const NONE: Side = (0, 0, None);

/// Where an entry is evicted one shard is empty, so the draws don't matter.
const ROWS: &[Row] = &[
    (0, 0, Call::Weighs(None), (NONE, NONE), (0, 0)),
    (0, 0, Call::Admit(5), ((1, 5, Some(0)), NONE), (0, 0)),
    (0, 1, Call::Increment(7, 3), ((2, 8, Some(0)), NONE), (0, 0)),
    (
        0,
        0,
        Call::Increment(9, 11),
        ((2, 14, Some(1)), NONE),
        (0, 0),
    ),
    (
        0,
        0,
        Call::Increment(1, 4),
        ((2, 14, Some(1)), NONE),
        (0, 0),
    ),
    (
        0,
        0,
        Call::Weighs(Some(11)),
        ((2, 14, Some(1)), NONE),
        (0, 0),
    ),
    (
        0,
        1,
        Call::Access(9, true),
        ((2, 14, Some(0)), NONE),
        (0, 0),
    ),
    (0, 2, Call::Admit(7), ((2, 10, Some(1)), NONE), (1, 11)),
    (0, 3, Call::Admit(0), ((3, 11, Some(1)), NONE), (1, 11)),
    (0, 4, Call::Admit(1), ((4, 12, Some(1)), NONE), (1, 11)),
    (0, 5, Call::Admit(1), ((4, 10, Some(2)), NONE), (2, 14)),
    (
        0,
        2,
        Call::Increment(20, 13),
        ((4, 16, Some(3)), NONE),
        (2, 14),
    ),
    (
        0,
        5,
        Call::Increment(9, 50),
        ((1, 10, Some(5)), NONE),
        (5, 29),
    ),
    (0, 5, Call::Remove, (NONE, NONE), (5, 29)),
    (1, 0, Call::Admit(4), (NONE, (1, 4, Some(0))), (5, 29)),
    (
        1,
        1,
        Call::Access(6, false),
        (NONE, (2, 10, Some(0))),
        (5, 29),
    ),
    (
        0,
        0,
        Call::Admit(2),
        ((1, 2, Some(0)), (2, 10, Some(0))),
        (5, 29),
    ),
    (
        1,
        0,
        Call::Weighs(Some(4)),
        ((1, 2, Some(0)), (2, 10, Some(0))),
        (5, 29),
    ),
    (
        1,
        0,
        Call::Access(1, true),
        ((1, 2, Some(0)), (2, 10, Some(1))),
        (5, 29),
    ),
    (
        1,
        1,
        Call::RemoveParts,
        ((1, 2, Some(0)), (1, 4, Some(0))),
        (5, 29),
    ),
    (0, 0, Call::Remove, (NONE, (1, 4, Some(0))), (5, 29)),
    (1, 2, Call::Admit(17), (NONE, (1, 17, Some(2))), (6, 33)),
    (1, 2, Call::RemoveParts, (NONE, NONE), (6, 33)),
    (1, 3, Call::Admit(30), (NONE, NONE), (7, 63)),
];

/// What goes, in order.
const GONE: &[Gone] = &[
    (0, 0, 11),
    (0, 1, 3),
    (0, 3, 1),
    (0, 4, 1),
    (0, 2, 13),
    (1, 0, 4),
    (1, 3, 30),
];

/// The entry of a key.
pub(crate) fn entry(alloc: Global, key: u8) -> CacheEntryKey {
    CacheEntryKey::key_only(CompactCacheKey {
        primary: [key; 16],
        variance: None,
        user_tag: Text::from_string(String::new(alloc)),
    })
}

#[test]
fn managers_of_two_shards_answer_alike(rt: HostRuntime) {
    assert!(rt; plain::answers(rt.alloc(), ROWS, GONE));
    assert!(rt; running::answers(&rt, rt.alloc(), ROWS, GONE) == Some(true));
}
