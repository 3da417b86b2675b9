//! Readers and writers that fail or wait, and memory that runs out, in mid-stream.
use crate::traces::played::{Replay, Way, play};
use seeded_hashing::SeededState;
use std::alloc::Global;
use trace_replay::options::ShardCount;

// Whether a trace goes as told in each way.
fn all_hold(alloc: Global, word: u64, replay: Replay<'_>, ways: &[Way]) -> bool {
    let mut all = true;
    for &way in ways {
        all = match play(alloc, None, SeededState { word }, replay, way) {
            Some(played) => all && played.ends && played.is_written,
            None => false,
        };
    }
    all
}

const CUT: Replay = Replay {
    limit: 1,
    shards: ShardCount::One,
    trace: b"{}\n{",
    written: b"refused Op\n",
    status: 1,
};

const READS: &[Way] = &[
    Way::Reads(1),
    Way::Reads(2),
    Way::Reads(3),
    Way::Reads(4),
    Way::Reads(100),
];

#[test]
fn a_fault_of_the_reader_ends_the_run(rt: HostRuntime) {
    assert!(rt; all_hold(rt.alloc(), 2, CUT, READS));
}

const LONG_READS: &[Way] = &[Way::Reads(1_000), Way::Reads(65_536), Way::Reads(2_000_000)];

fn long_lines_hold(alloc: Global) -> bool {
    let mut text = Vec::new(alloc);
    let made = text.resize(100_000, b' ').is_ok()
        && text.extend_from_slice(b"\n{}\n").is_ok()
        && text.resize(1_500_000, b' ').is_ok()
        && text.extend_from_slice(b"\n{}\n").is_ok();
    let replay = Replay {
        limit: 1,
        shards: ShardCount::One,
        trace: text.as_slice(),
        written: b"refused NotJson\nrefused Op\nrefused NotJson\nrefused Op\n",
        status: 1,
    };
    made && all_hold(alloc, 2, replay, LONG_READS)
}

// Lines longer than a read asks for, each before a short one.
#[test]
fn long_lines_are_read_whole(rt: HostRuntime) {
    assert!(rt; long_lines_hold(rt.alloc()));
}

const TWO: Replay = Replay {
    limit: 1,
    shards: ShardCount::One,
    trace: b"{}\n{}\n",
    written: b"refused Op\nrefused Op\n",
    status: 1,
};

// Room for a line and a half without a fault of the flush, and more than enough with one: then the report isn't written.
const WRITES: &[Way] = &[Way::Writes(15, true), Way::Writes(1000, false)];

#[test]
fn a_fault_of_the_writer_ends_the_run(rt: HostRuntime) {
    assert!(rt; all_hold(rt.alloc(), 2, TWO, WRITES));
}

const QUESTIONS: Replay = Replay {
    limit: 1,
    shards: ShardCount::One,
    trace: b"{}\n{\"op\":\"look\",\"at\":1,\"id\":9}\n[]\n{\"op\":\"drop\",\"at\":1,\"id\":9}\n",
    written: b"refused Op\nfault 1 NoRequest\nrefused NotObject\nfault 1 NoRequest\nreport found=0 \
        absent=0 bodies=0 bytes=0 meta=0 tracked=0 weight=0 evicted=0\n",
    status: 0,
};

#[test]
fn each_line_is_answered_before_the_next_is_read(rt: HostRuntime) {
    assert!(rt; all_hold(rt.alloc(), 1, QUESTIONS, &[Way::Talks([3, 28, 3, 28])]));
}

// The put of the body `abc`, fresh for ten seconds from second 1000 on, which a read gives alone, and a request for it.
const PUT: Replay = Replay {
    limit: 100,
    shards: ShardCount::One,
    trace: b"{\"op\":\"put\",\"at\":1000,\"key\":\"00000000000000000000000000000061\",\"pieces\":[\
        \"485454502f312e3120323030204f4b0d0a43616368652d436f6e74726f6c3a206d61782d6167653d31300d0a\
        0d0a616263\"]}\n{\"op\":\"open\",\"at\":1005,\"id\":1,\"key\":\"00000000000000000000000000\
        000061\"}\n{\"op\":\"look\",\"at\":1005,\"id\":1}\n{\"op\":\"read\",\"at\":1005,\"id\":1}\n",
    written: b"finished 3 evicted=0\nopened\nfound fresh complete lock=none\nbytes 616263\nreport \
        found=1 absent=0 bodies=1 bytes=3 meta=57 tracked=1 weight=60 evicted=0\n",
    status: 0,
};

fn put_is_cut(alloc: Global) -> bool {
    match play(alloc, None, SeededState { word: 2 }, PUT, Way::Parts(176)) {
        Some(played) => played.is_cut,
        None => true,
    }
}

// If one allocation fails, either the run ends there or the tier refuses that event: what was written by then begins the
// whole output.
#[test]
fn out_of_memory_changes_no_line(rt: HostRuntime) {
    assert!(rt; put_is_cut(rt.alloc()));
}
