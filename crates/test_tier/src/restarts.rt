//! Tiers that are saved to a folder, and tiers that start from it.
use crate::asks::Ask;
use crate::outcomes::Outcome;
use crate::traces::restarts::{BA, DCB, FILE};
use crate::trials::{Held, follow, is_ready};
use cache_words::time::Duration;
use lru_files::persistence::{MemFolder, TestFolder};
use std::alloc::Global;
use tier_model::event::LockGiven;
use tier_single::tier::Tier;

const EVER: usize = usize::MAX;

// What is asked of a tier before its first save, what before its second, and how many calls that one does.
#[derive(Clone, Copy)]
struct Row {
    before: &'static [Ask],
    more: &'static [Ask],
    calls: usize,
    // The limit of a tier that starts then, what it is asked with what comes of it, the bytes that it holds, and what it saves.
    limit: usize,
    asks: &'static [(Ask, Outcome)],
    bytes: u64,
    text: &'static [u8],
}

const NOT_FOUND: Outcome = Outcome::Absent(LockGiven::None);

const ROWS: &[Row] = &[
    // The latest used of four entries go on, the oldest is evicted, and only what was put since is found.
    Row {
        before: &[
            Ask::Put(b'a', b"x"),
            Ask::Put(b'b', b"x"),
            Ask::Put(b'c', b"x"),
        ],
        more: &[],
        calls: EVER,
        limit: 153,
        asks: &[
            (Ask::Put(b'd', b"x"), Outcome::Finished(1, 1)),
            (Ask::Open(1, b'a'), Outcome::Opened),
            (Ask::Look(1), NOT_FOUND),
            (Ask::Open(2, b'b'), Outcome::Opened),
            (Ask::Look(2), NOT_FOUND),
            (Ask::Open(3, b'c'), Outcome::Opened),
            (Ask::Look(3), NOT_FOUND),
            (Ask::Open(4, b'd'), Outcome::Opened),
            (Ask::Look(4), Outcome::Found),
        ],
        bytes: 1,
        text: DCB,
    },
    // A save that stops before its rename, which is its fifth call, leaves what the one before it saved.
    Row {
        before: &[Ask::Put(b'a', b"x"), Ask::Put(b'b', b"x")],
        more: &[Ask::Put(b'c', b"x")],
        calls: 4,
        limit: 1_000_000,
        asks: &[
            (Ask::Open(1, b'a'), Outcome::Opened),
            (Ask::Look(1), NOT_FOUND),
            (Ask::Open(2, b'b'), Outcome::Opened),
            (Ask::Look(2), NOT_FOUND),
            (Ask::Open(3, b'c'), Outcome::Opened),
            (Ask::Look(3), NOT_FOUND),
        ],
        bytes: 0,
        text: BA,
    },
];

// The folder after a save of which so many calls are done.
fn save(tier: &Tier<1>, folder: MemFolder, calls: usize) -> MemFolder {
    let mut folder = TestFolder::stops_after(folder, calls, 0);
    let _saved = tier.save(&mut folder, "dir", &[7]);
    folder.into_inner()
}

fn starts(tier: &mut Tier<1>, folder: &mut MemFolder) -> bool {
    if !tier.is_new() {
        return false;
    }
    match tier.start(folder, "dir") {
        Ok(report) => report.loaded == 1,
        Err(_) => false,
    }
}

// What the first tier leaves in a folder.
fn saved(alloc: Global, tier: &mut Tier<1>, row: &Row) -> MemFolder {
    let _ready = is_ready(alloc, tier, row.before);
    let folder = save(tier, MemFolder::new(alloc), EVER);
    let _more = is_ready(alloc, tier, row.more);
    save(tier, folder, row.calls)
}

// Whether a tier that starts from it goes on as told.
fn goes_on(alloc: Global, tier: &mut Tier<1>, folder: MemFolder, row: &Row) -> bool {
    let mut folder = folder;
    let is_started = starts(tier, &mut folder) && tier.has_only_order();
    let is_answered = follow(alloc, tier, row.asks, Held::Answered) == Held::Answered;
    let left = save(tier, folder, EVER);
    let is_kept = tier.report().bytes == row.bytes && left.bytes(FILE) == Some(row.text);
    is_started && is_answered && is_kept
}

fn holds(alloc: Global, row: &Row) -> bool {
    let age = Duration::from_seconds(1);
    let folder = match Tier::<1>::new(alloc, 1_000_000, None, age, None) {
        Ok(mut tier) => saved(alloc, &mut tier, row),
        Err(_) => return false,
    };
    match Tier::<1>::new(alloc, row.limit, None, age, None) {
        Ok(mut tier) => goes_on(alloc, &mut tier, folder, row),
        Err(_) => false,
    }
}

fn all_hold(alloc: Global) -> bool {
    let mut all = true;
    for row in ROWS {
        all = holds(alloc, row) && all;
    }
    all
}

#[test]
fn a_tier_starts_from_what_another_saved(rt: HostRuntime) {
    assert!(rt; all_hold(rt.alloc()));
}

// A file with one row, of the key `a` and the greatest weight.
const GREATEST: &[u8] =
    b"\x91\x92\x93\xdc\x00\x10'\xcc\xc3^n\xcc\x93s\xcc\x87\x7f)\xcc\xe5bFNFI~\xc0\xa0\xcf\xff\xff\xff\xff\xff\xff\xff\xff";

// A body that is stored, whose entry then weighs too much to be admitted.
const TOO_HEAVY: &[(Ask, Outcome)] = &[
    (Ask::Put(b'b', b"x"), Outcome::TooHeavy(true, false, 0)),
    (Ask::Open(1, b'b'), Outcome::Opened),
    (Ask::Look(1), NOT_FOUND),
];

fn is_refused(alloc: Global, tier: &mut Tier<1>) -> bool {
    let mut folder = MemFolder::new(alloc);
    let is_started = folder.put(FILE, GREATEST).is_ok() && starts(tier, &mut folder);
    let is_told = follow(alloc, tier, TOO_HEAVY, Held::Answered) == Held::Answered;
    let report = tier.report();
    is_started && is_told && report.tracked == 1 && report.weight == u64::MAX && report.bodies == 0
}

fn greatest_is_refused(alloc: Global) -> bool {
    match Tier::<1>::new(alloc, EVER, None, Duration::from_seconds(1), None) {
        Ok(mut tier) => is_refused(alloc, &mut tier),
        Err(_) => false,
    }
}

#[test]
fn a_row_of_the_greatest_weight_leaves_no_room(rt: HostRuntime) {
    assert!(rt; greatest_is_refused(rt.alloc()));
}
