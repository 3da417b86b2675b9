//! Replays that end early, and what they leave in the folder.
use super::{BA, CBA, FILE, Fails, NONE, PUT_C, Row, TEMP, all_hold, leave};
use crate::traces::played::{Replay, Way};
use lru_files::persistence::MemFolder;
use std::alloc::Global;
use trace_replay::options::ShardCount;

// A directory with BA, and a temporary file that an earlier run left.
const TWO: &[(&str, &[u8])] = &[(FILE, BA), (TEMP, NONE)];

// A put over it: the first line comes before a read, and the answer before the next one.
const UNREAD: Replay = Replay {
    limit: 1_000_000,
    shards: ShardCount::One,
    trace: PUT_C,
    written: b"recency loaded=1 missing=0 errored=0\nfinished 1 evicted=0\n",
    status: 1,
};

const READS: &[Row] = &[
    Row {
        before: TWO,
        fails: Fails::Never,
        way: Way::Reads(10),
        replay: UNREAD,
        after: &[(FILE, BA)],
        count: 1,
    },
    Row {
        before: TWO,
        fails: Fails::Never,
        way: Way::Reads(100_000),
        replay: UNREAD,
        after: &[(FILE, BA)],
        count: 1,
    },
];

#[test]
fn a_fault_of_the_reader_saves_nothing(rt: HostRuntime) {
    assert!(rt; all_hold(rt.alloc(), READS, false));
}

// All lines, of which the last reports the save.
const LINES: &[u8] =
    b"recency loaded=1 missing=0 errored=0\nfinished 1 evicted=0\nreport found=0 absent=0 bodies=1 \
        bytes=1 meta=50 tracked=3 weight=153 evicted=0\nrecency saved=1 failed=0\n";

const UNWRITTEN: Replay = Replay {
    limit: 1_000_000,
    shards: ShardCount::One,
    trace: PUT_C,
    written: LINES,
    status: 1,
};

const SAVED: Replay = Replay {
    limit: 1_000_000,
    shards: ShardCount::One,
    trace: PUT_C,
    written: LINES,
    status: 0,
};

const WRITES: &[Row] = &[
    Row {
        before: TWO,
        fails: Fails::Never,
        way: Way::Writes(0, true),
        replay: UNWRITTEN,
        after: &[(FILE, BA)],
        count: 1,
    },
    Row {
        before: TWO,
        fails: Fails::Never,
        way: Way::Writes(37, true),
        replay: UNWRITTEN,
        after: &[(FILE, BA)],
        count: 1,
    },
    Row {
        before: TWO,
        fails: Fails::Never,
        way: Way::Writes(137, true),
        replay: UNWRITTEN,
        after: &[(FILE, BA)],
        count: 1,
    },
    Row {
        before: TWO,
        fails: Fails::Never,
        way: Way::Writes(138, true),
        replay: UNWRITTEN,
        after: &[(FILE, CBA)],
        count: 1,
    },
    Row {
        before: TWO,
        fails: Fails::Never,
        way: Way::Writes(162, true),
        replay: UNWRITTEN,
        after: &[(FILE, CBA)],
        count: 1,
    },
    Row {
        before: TWO,
        fails: Fails::Never,
        way: Way::Writes(163, true),
        replay: SAVED,
        after: &[(FILE, CBA)],
        count: 1,
    },
];

#[test]
fn a_fault_of_the_writer_saves_nothing_before_the_last_line(rt: HostRuntime) {
    assert!(rt; all_hold(rt.alloc(), WRITES, false));
}

const CB: &[u8] =
    b"\x92\x92\x93\xdc\x00\x10\xcc\xca\xcc\xec\x17\xcc\xf4\xcc\xb8\x15\xcc\x9dHl\xcc\xa3R \xcc\x9a\
        \x0f\xcc\xc2\xcc\xd5\xc0\xa03\x92\x93\xdc\x00\x10\xcc\x96\x17+LS7,\xcc\xd1\x0f\xcc\xad\xcc\
        \xdc\xcc\x82\x1b\xcc\xfe\x03\x18\xc0\xa03";

const C: &[u8] =
    b"\x91\x92\x93\xdc\x00\x10\xcc\xca\xcc\xec\x17\xcc\xf4\xcc\xb8\x15\xcc\x9dHl\xcc\xa3R \xcc\x9a\
        \x0f\xcc\xc2\xcc\xd5\xc0\xa03";

const ROOMY: Row = Row {
    before: TWO,
    fails: Fails::Never,
    way: Way::Writes(1_000, true),
    replay: SAVED,
    after: &[],
    count: 1,
};

// Whether a file has the text of before, or one of the run: after a load that was refused memory, which counts as errored, the run
// has the rows before the refusal.
fn leaves_a_whole_text(alloc: Global) -> bool {
    let (played, left) = leave(alloc, MemFolder::new(alloc), &ROOMY);
    match left.bytes(FILE) {
        Some(bytes) => bytes == BA || bytes == CBA || bytes == CB || bytes == C,
        None => played.is_none(),
    }
}

#[test]
fn out_of_memory_leaves_a_whole_text(rt: HostRuntime) {
    assert!(rt; leaves_a_whole_text(rt.alloc()));
}
