//! What calls are made with.
use std::alloc::Global;
use tier_calls::held::TierHandle;
use tier_calls::made::make;
use tier_calls::structs::{
    CallAnswer, Counts, EntryShown, FileShown, FoundShown, HeadShown, Lent, MetaWords, MomentWords,
    Options,
};
use tier_calls::told::plain;

pub(crate) fn options(shards: u64) -> Options {
    Options {
        limit: 200,
        watermark: u64::MAX,
        age: 10,
        wait: u64::MAX,
        shards,
        seed: 0,
        hash_start: 99,
        max_body_bytes: 0,
        reserved: [0; 4],
    }
}

pub(crate) fn handle(alloc: Global) -> TierHandle {
    let mut out = answer();
    make(alloc, &options(1), &mut out)
}

pub(crate) fn answer() -> CallAnswer {
    plain(99)
}

pub(crate) fn at(seconds: u64) -> MomentWords {
    MomentWords {
        seconds,
        nanoseconds: 0,
    }
}

pub(crate) fn meta(until: u64) -> MetaWords {
    MetaWords {
        fresh_until: at(until),
        created: at(1000),
        updated: at(1000),
        provenance: at(1000),
        stale_while_revalidate: 0,
        stale_if_error: 0,
        external: 0,
        reserved: 0,
    }
}

pub(crate) fn lent() -> Lent {
    Lent {
        at: std::ptr::null(),
        len: 7,
    }
}

fn head() -> HeadShown {
    HeadShown {
        status: 7,
        lines: 7,
        fresh_until: at(7),
        created: at(7),
        updated: at(7),
        provenance: at(7),
        stale_while_revalidate: 7,
        stale_if_error: 7,
        external: 7,
        block: lent(),
        body_len: 7,
    }
}

pub(crate) fn found() -> FoundShown {
    FoundShown {
        answer: answer(),
        head: head(),
        body: lent(),
    }
}

pub(crate) fn entry() -> EntryShown {
    EntryShown {
        status: 7,
        foreign: 7,
        primary: lent(),
        variance: lent(),
        tag: lent(),
        external: 7,
    }
}

pub(crate) fn file() -> FileShown {
    FileShown {
        status: 7,
        bytes: lent(),
    }
}

pub(crate) fn counts() -> Counts {
    Counts {
        found: 7,
        absent: 7,
        bodies: 7,
        bytes: 7,
        meta: 7,
        external: 7,
        tracked: 7,
        weight: 7,
        evicted: 7,
        reserved: [7; 3],
    }
}
