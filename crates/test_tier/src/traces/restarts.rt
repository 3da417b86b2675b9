//! Replays that load an order of use from a folder and save one to it.
mod early_ends;

use crate::traces::played::{Played, Replay, Way, play};
use lru_files::persistence::{Folder, MemFolder, TestFolder};
use seeded_hashing::SeededState;
use std::alloc::Global;
use trace_replay::options::ShardCount;

const HASHER: SeededState = SeededState { word: 3 };

// The file of the first shard, and the name under which a save with the first word of seed 0 writes it.
pub(crate) const FILE: &str = "dir/lru.data.0";

const TEMP: &str = "dir/lru.data.0.d4e2bc53.tmp";

// What a file has: no entry, or those of keys of one letter, each of weight 51, that of a body of one byte, the latest used first.
pub(crate) const NONE: &[u8] = b"\x90";

pub(crate) const BA: &[u8] =
    b"\x92\x92\x93\xdc\x00\x10\xcc\x96\x17+LS7,\xcc\xd1\x0f\xcc\xad\xcc\xdc\xcc\x82\x1b\xcc\xfe\x03\
        \x18\xc0\xa03\x92\x93\xdc\x00\x10'\xcc\xc3^n\xcc\x93s\xcc\x87\x7f)\xcc\xe5bFNFI~\xc0\xa03";

pub(crate) const CBA: &[u8] =
    b"\x93\x92\x93\xdc\x00\x10\xcc\xca\xcc\xec\x17\xcc\xf4\xcc\xb8\x15\xcc\x9dHl\xcc\xa3R \xcc\x9a\
        \x0f\xcc\xc2\xcc\xd5\xc0\xa03\x92\x93\xdc\x00\x10\xcc\x96\x17+LS7,\xcc\xd1\x0f\xcc\xad\xcc\
        \xdc\xcc\x82\x1b\xcc\xfe\x03\x18\xc0\xa03\x92\x93\xdc\x00\x10'\xcc\xc3^n\xcc\x93s\xcc\x87\x7f\
        )\xcc\xe5bFNFI~\xc0\xa03";

pub(crate) const DCB: &[u8] =
    b"\x93\x92\x93\xdc\x00\x10\x0d\xcc\xf334\xcc\x8b\xcc\xb2\xcc\xc4\xcc\xf0`^\x01\x0bg\x06\xcc\xf5\
        \xcc\xbb\xc0\xa03\x92\x93\xdc\x00\x10\xcc\xca\xcc\xec\x17\xcc\xf4\xcc\xb8\x15\xcc\x9dHl\xcc\
        \xa3R \xcc\x9a\x0f\xcc\xc2\xcc\xd5\xc0\xa03\x92\x93\xdc\x00\x10\xcc\x96\x17+LS7,\xcc\xd1\x0f\
        \xcc\xad\xcc\xdc\xcc\x82\x1b\xcc\xfe\x03\x18\xc0\xa03";

// BA without its last byte, and what is loaded of it.
const CUT: &[u8] =
    b"\x92\x92\x93\xdc\x00\x10\xcc\x96\x17+LS7,\xcc\xd1\x0f\xcc\xad\xcc\xdc\xcc\x82\x1b\xcc\xfe\x03\
        \x18\xc0\xa03\x92\x93\xdc\x00\x10'\xcc\xc3^n\xcc\x93s\xcc\x87\x7f)\xcc\xe5bFNFI~\xc0\xa0";

pub(crate) const B: &[u8] =
    b"\x91\x92\x93\xdc\x00\x10\xcc\x96\x17+LS7,\xcc\xd1\x0f\xcc\xad\xcc\xdc\xcc\x82\x1b\xcc\xfe\x03\x18\xc0\xa03";

// A put of one byte, and looks.
const PUT_C: &[u8] =
    b"{\"op\":\"put\",\"at\":7,\"key\":\"63\",\"pieces\":[\"485454502f312e3120323030204f4b0d0a4361\
        6368652d436f6e74726f6c3a206d61782d6167653d3130300d0a0d0a\",\"78\"]}\n";

const PUT_D_LOOK_ABCD: &[u8] =
    b"{\"op\":\"put\",\"at\":7,\"key\":\"64\",\"pieces\":[\"485454502f312e3120323030204f4b0d0a4361\
        6368652d436f6e74726f6c3a206d61782d6167653d3130300d0a0d0a\",\"78\"]}\n{\"op\":\"open\",\"at\
        \":7,\"id\":1,\"key\":\"61\"}\n{\"op\":\"look\",\"at\":7,\"id\":1}\n{\"op\":\"open\",\"at\"\
        :7,\"id\":2,\"key\":\"62\"}\n{\"op\":\"look\",\"at\":7,\"id\":2}\n{\"op\":\"open\",\"at\":\
        7,\"id\":3,\"key\":\"63\"}\n{\"op\":\"look\",\"at\":7,\"id\":3}\n{\"op\":\"open\",\"at\":7\
        ,\"id\":4,\"key\":\"64\"}\n{\"op\":\"look\",\"at\":7,\"id\":4}\n";

const LOOK_ABC: &[u8] =
    b"{\"op\":\"open\",\"at\":7,\"id\":1,\"key\":\"61\"}\n{\"op\":\"look\",\"at\":7,\"id\":1}\n{\"\
        op\":\"open\",\"at\":7,\"id\":2,\"key\":\"62\"}\n{\"op\":\"look\",\"at\":7,\"id\":2}\n{\"o\
        p\":\"open\",\"at\":7,\"id\":3,\"key\":\"63\"}\n{\"op\":\"look\",\"at\":7,\"id\":3}\n";

// Which calls of a folder fail: none, each rename, this one, or all after so many.
#[derive(Clone, Copy)]
enum Fails {
    Never,
    Renames,
    Once(usize),
    After(usize),
}

// A replay over a directory that has these files: these are among as many then.
#[derive(Clone, Copy)]
struct Row {
    before: &'static [(&'static str, &'static [u8])],
    fails: Fails,
    way: Way,
    replay: Replay<'static>,
    after: &'static [(&'static str, &'static [u8])],
    count: usize,
}

fn are_put(folder: &mut MemFolder, files: &[(&str, &[u8])]) -> bool {
    let mut all = true;
    for &(path, bytes) in files {
        all = folder.put(path, bytes).is_ok() && all;
    }
    all
}

fn has(folder: &mut MemFolder, files: &[(&str, &[u8])], count: usize) -> bool {
    let mut all = match folder.list("dir") {
        Ok(names) => names.len() == count,
        Err(_) => false,
    };
    for &(path, bytes) in files {
        all = all && folder.bytes(path) == Some(bytes);
    }
    all
}

// How a replay goes over a folder, and what is left; `None` where memory was refused before.
fn leave(alloc: Global, folder: MemFolder, row: &Row) -> (Option<Played>, MemFolder) {
    let mut folder = folder;
    if !are_put(&mut folder, row.before) {
        return (None, folder);
    }
    let mut folder = match row.fails {
        Fails::Never => TestFolder::fails_once(folder, 0),
        Fails::Renames => TestFolder::renames_fail(folder),
        Fails::Once(call) => TestFolder::fails_once(folder, call),
        Fails::After(calls) => TestFolder::stops_after(folder, calls, 0),
    };
    let played = play(alloc, Some(&mut folder), HASHER, row.replay, row.way);
    (played, folder.into_inner())
}

// Whether each row holds, over a folder of its own, or each over what the one before it left.
fn all_hold(alloc: Global, rows: &[Row], go_on: bool) -> bool {
    let mut all = true;
    let mut folder = MemFolder::new(alloc);
    for row in rows {
        let (played, mut left) = leave(alloc, folder, row);
        all = match played {
            Some(played) => {
                all && played.ends && played.is_written && has(&mut left, row.after, row.count)
            }
            None => false,
        };
        folder = if go_on { left } else { MemFolder::new(alloc) };
    }
    all
}

const ROWS: &[Row] = &[
    Row {
        before: &[],
        fails: Fails::Never,
        way: Way::Whole,
        replay: Replay {
            limit: 1_000_000,
            shards: ShardCount::One,
            trace: b"",
            written: b"recency loaded=0 missing=1 errored=0\nreport found=0 absent=0 bodies=0 byte\
                s=0 meta=0 tracked=0 weight=0 evicted=0\nrecency saved=1 failed=0\n",
            status: 0,
        },
        after: &[(FILE, NONE)],
        count: 1,
    },
    Row {
        before: &[(FILE, NONE)],
        fails: Fails::Never,
        way: Way::Whole,
        replay: Replay {
            limit: 1_000_000,
            shards: ShardCount::One,
            trace: b"",
            written: b"recency loaded=1 missing=0 errored=0\nreport found=0 absent=0 bodies=0 byte\
                s=0 meta=0 tracked=0 weight=0 evicted=0\nrecency saved=1 failed=0\n",
            status: 0,
        },
        after: &[(FILE, NONE)],
        count: 1,
    },
    Row {
        before: &[(FILE, CBA)],
        fails: Fails::Never,
        way: Way::Whole,
        replay: Replay {
            limit: 153,
            shards: ShardCount::One,
            trace: PUT_D_LOOK_ABCD,
            written: b"recency loaded=1 missing=0 errored=0\nfinished 1 evicted=1\nopened\nabsent \
                lock=none\nopened\nabsent lock=none\nopened\nabsent lock=none\nopened\nfound fresh \
                complete lock=none\nreport found=1 absent=3 bodies=1 bytes=1 meta=50 tracked=3 we\
                ight=153 evicted=1\nrecency saved=1 failed=0\n",
            status: 0,
        },
        after: &[(FILE, DCB)],
        count: 1,
    },
    Row {
        before: &[(FILE, CUT)],
        fails: Fails::Never,
        way: Way::Whole,
        replay: Replay {
            limit: 1_000_000,
            shards: ShardCount::One,
            trace: b"",
            written: b"recency loaded=0 missing=0 errored=1\nreport found=0 absent=0 bodies=0 byte\
                s=0 meta=0 tracked=1 weight=51 evicted=0\nrecency saved=1 failed=0\n",
            status: 0,
        },
        after: &[(FILE, B)],
        count: 1,
    },
    // What comes after the rows is not read. The other files have no rows.
    Row {
        before: &[(FILE, b"\x90\0")],
        fails: Fails::Never,
        way: Way::Whole,
        replay: Replay {
            limit: 1_000_000,
            shards: ShardCount::One,
            trace: b"",
            written: b"recency loaded=1 missing=0 errored=0\nreport found=0 absent=0 bodies=0 byte\
                s=0 meta=0 tracked=0 weight=0 evicted=0\nrecency saved=1 failed=0\n",
            status: 0,
        },
        after: &[(FILE, NONE)],
        count: 1,
    },
    Row {
        before: &[(FILE, b"\xc0")],
        fails: Fails::Never,
        way: Way::Whole,
        replay: Replay {
            limit: 1_000_000,
            shards: ShardCount::One,
            trace: b"",
            written: b"recency loaded=0 missing=0 errored=1\nreport found=0 absent=0 bodies=0 byte\
                s=0 meta=0 tracked=0 weight=0 evicted=0\nrecency saved=1 failed=0\n",
            status: 0,
        },
        after: &[(FILE, NONE)],
        count: 1,
    },
    Row {
        before: &[(FILE, b"\xdd\xff\xff\xff\xff")],
        fails: Fails::Never,
        way: Way::Whole,
        replay: Replay {
            limit: 1_000_000,
            shards: ShardCount::One,
            trace: b"",
            written: b"recency loaded=0 missing=0 errored=1\nreport found=0 absent=0 bodies=0 byte\
                s=0 meta=0 tracked=0 weight=0 evicted=0\nrecency saved=1 failed=0\n",
            status: 0,
        },
        after: &[(FILE, NONE)],
        count: 1,
    },
];

#[test]
fn an_order_of_use_is_loaded_and_saved(rt: HostRuntime) {
    assert!(rt; all_hold(rt.alloc(), ROWS, false));
}

// Where each rename fails, the new text stays under its temporary name. The tenth call is the first rename: one lists the directory,
// four look for files, one makes it, and three write the first text.
const NOT_SAVED: &[Row] = &[
    Row {
        before: &[],
        fails: Fails::Renames,
        way: Way::Whole,
        replay: Replay {
            limit: 1_000_000,
            shards: ShardCount::One,
            trace: b"",
            written: b"recency loaded=0 missing=1 errored=0\nreport found=0 absent=0 bodies=0 byte\
                s=0 meta=0 tracked=0 weight=0 evicted=0\nrecency saved=0 failed=1\n",
            status: 1,
        },
        after: &[(TEMP, NONE)],
        count: 1,
    },
    Row {
        before: &[],
        fails: Fails::Once(10),
        way: Way::Whole,
        replay: Replay {
            limit: 1_000_000,
            shards: ShardCount::Four,
            trace: b"",
            written: b"recency loaded=0 missing=4 errored=0\nreport found=0 absent=0 bodies=0 byte\
                s=0 meta=0 tracked=0 weight=0 evicted=0\nrecency saved=3 failed=1\n",
            status: 0,
        },
        after: &[
            (TEMP, NONE),
            ("dir/lru.data.1", NONE),
            ("dir/lru.data.3", NONE),
        ],
        count: 4,
    },
];

#[test]
fn shards_that_are_not_saved_are_told(rt: HostRuntime) {
    assert!(rt; all_hold(rt.alloc(), NOT_SAVED, false));
}

// A save that is stopped before its rename leaves the text that was there, and its own under another name. A replay after it goes
// on from that, finds no key, and clears up.
const STOPPED: &[Row] = &[
    Row {
        before: &[(FILE, BA)],
        fails: Fails::After(7),
        way: Way::Whole,
        replay: Replay {
            limit: 1_000_000,
            shards: ShardCount::One,
            trace: PUT_C,
            written: b"recency loaded=1 missing=0 errored=0\nfinished 1 evicted=0\nreport found=0 \
                absent=0 bodies=1 bytes=1 meta=50 tracked=3 weight=153 evicted=0\nrecency saved=0 \
                failed=1\n",
            status: 1,
        },
        after: &[(FILE, BA), (TEMP, CBA)],
        count: 2,
    },
    Row {
        before: &[],
        fails: Fails::Never,
        way: Way::Whole,
        replay: Replay {
            limit: 1_000_000,
            shards: ShardCount::One,
            trace: LOOK_ABC,
            written: b"recency loaded=1 missing=0 errored=0\nopened\nabsent lock=none\nopened\nabs\
                ent lock=none\nopened\nabsent lock=none\nreport found=0 absent=3 bodies=0 bytes=0 \
                meta=0 tracked=2 weight=102 evicted=0\nrecency saved=1 failed=0\n",
            status: 0,
        },
        after: &[(FILE, BA)],
        count: 1,
    },
];

#[test]
fn a_stopped_save_leaves_the_order_before_it(rt: HostRuntime) {
    assert!(rt; all_hold(rt.alloc(), STOPPED, true));
}
