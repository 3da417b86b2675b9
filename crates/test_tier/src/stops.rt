//! Saves of a tier that are stopped at each call and each byte, or of which one call fails, and tiers that start from what they leave.
ghost use Rattle.std.specs.Prelude.{◌≡◌, ◌<◌, length};

mod alone;
mod every;

use crate::asks::Ask;
use crate::outcomes::Outcome;
use crate::trials::step;
use cache_words::pack::PackWriteFault;
use cache_words::time::Duration;
use lru_files::persistence::{Folder, MemFolder, ShardSaveReport, TestFolder};
use std::alloc::Global;
use tier_model::event::{LockGiven, TierFault};
use tier_single::tier::Tier;

pub(crate) const LIMIT: usize = 1_000_000;

const PATHS: &[&str] = &[
    "dir/lru.data.0",
    "dir/lru.data.1",
    "dir/lru.data.2",
    "dir/lru.data.3",
    "dir/lru.data.4",
    "dir/lru.data.5",
    "dir/lru.data.6",
    "dir/lru.data.7",
    "dir/lru.data.8",
    "dir/lru.data.9",
    "dir/lru.data.10",
    "dir/lru.data.11",
    "dir/lru.data.12",
    "dir/lru.data.13",
    "dir/lru.data.14",
    "dir/lru.data.15",
];

// The keys that were saved before.
const OLD: &[u8] = b"xyz";

// Which calls of a save fail: none, all after so many, the first of which writes so many bytes, or this one.
#[derive(Clone, Copy)]
pub(crate) enum Plan {
    Never,
    After(usize, usize),
    Once(usize),
}

// What a save answers: how many shards it saved, and how many not.
#[derive(Clone, Copy, PartialEq, Eq)]
pub(crate) enum Told {
    Report(usize, usize),
    Folder,
    Else,
}

// What a save under a plan leaves: the shards whose files are old then, from one to another, while the others' are new, and how many
// temporary files the next start removes.
#[derive(Clone, Copy)]
struct Left {
    plan: Plan,
    told: Told,
    from: usize,
    to: usize,
    removed: usize,
}

// What the files were before a save, and what a whole save makes of them.
#[derive(Drop)]
struct Files {
    old: MemFolder,
    new: MemFolder,
}

pub(crate) fn age() -> Duration {
    Duration::from_seconds(1)
}

fn planned(folder: MemFolder, plan: Plan) -> TestFolder {
    match plan {
        Plan::Never => TestFolder::fails_once(folder, 0),
        Plan::After(calls, bytes) => TestFolder::stops_after(folder, calls, bytes),
        Plan::Once(call) => TestFolder::fails_once(folder, call),
    }
}

fn answer(came: Result<ShardSaveReport<PackWriteFault>, TierFault>) -> Told {
    match came {
        Ok(report) => Told::Report(report.saved, report.failed.len()),
        Err(TierFault::Folder) => Told::Folder,
        Err(_) => Told::Else,
    }
}

// What a save answers, and the folder then.
pub(crate) fn save<const N: usize>(
    tier: &Tier<N>,
    folder: MemFolder,
    words: &[u32],
    plan: Plan,
) -> (Told, MemFolder)
    requires { length words.now ≡ N }
{
    let mut folder = planned(folder, plan);
    let told = answer(tier.save(&mut folder, "dir", words));
    (told, folder.into_inner())
}

fn put_all<const N: usize>(alloc: Global, tier: &mut Tier<N>, names: &[u8]) -> bool {
    let mut all = true;
    for &name in names {
        all = step(alloc, tier, Ask::Put(name, b"x")) == Outcome::Finished(1, 0) && all;
    }
    all
}

// Whether no key is found.
fn finds_nothing<const N: usize>(alloc: Global, tier: &mut Tier<N>, names: &[u8]) -> bool {
    let mut all = true;
    for &name in names {
        let opened = step(alloc, tier, Ask::Open(1, name));
        let looked = step(alloc, tier, Ask::Look(1));
        let dropped = step(alloc, tier, Ask::Drop(1));
        all = looked == Outcome::Absent(LockGiven::None) && all;
        all = opened == Outcome::Opened && dropped == Outcome::Dropped && all;
    }
    all
}

fn has_files(folder: &mut MemFolder, count: usize) -> bool {
    match folder.list("dir") {
        Ok(names) => names.len() == count,
        Err(_) => false,
    }
}

// Whether a new tier loads each shard's file, and removes so many others.
fn starts<const N: usize>(tier: &mut Tier<N>, folder: &mut MemFolder, removed: usize) -> bool {
    if !tier.is_new() {
        return false;
    }
    let is_told = match tier.start(folder, "dir") {
        Ok(report) => report.loaded == N && report.cleanup.removed == removed,
        Err(_) => false,
    };
    is_told && has_files(folder, N)
}

fn copy(alloc: Global, from: &MemFolder) -> MemFolder {
    let mut folder = MemFolder::new(alloc);
    for &path in PATHS {
        if let Some(bytes) = from.bytes(path) {
            let _put = folder.put(path, bytes);
        }
    }
    folder
}

// Whether the files of the shards from one to another are old, and the others' new.
fn are(folder: &MemFolder, files: &Files, left: Left) -> bool {
    let mut all = true;
    let mut shard = 0usize;
    for &path in PATHS {
        let is_old = left.from <= shard && shard < left.to;
        let from = if is_old { &files.old } else { &files.new };
        all = folder.bytes(path) == from.bytes(path) && all;
        shard = shard.wrapping_add(1);
    }
    all
}

// What a tier saves that has these keys.
fn saved<const N: usize>(alloc: Global, words: &[u32], names: &[u8]) -> MemFolder
    requires { (0 < N) × (length words.now ≡ N) }
{
    let folder = MemFolder::new(alloc);
    match Tier::<N>::new(alloc, LIMIT, None, age(), None) {
        Ok(mut tier) => {
            let _put = put_all(alloc, &mut tier, names);
            save(&tier, folder, words, Plan::Never).1
        }
        Err(_) => folder,
    }
}

// What a tier saves that starts from a folder, holds nothing but its order of use, and finds none of these keys; nothing where that
// isn't so.
fn goes_on<const N: usize>(
    alloc: Global,
    folder: &mut MemFolder,
    words: &[u32],
    names: &[u8],
    removed: usize,
) -> MemFolder
    requires { (0 < N) × (length words.now ≡ N) }
{
    let empty = MemFolder::new(alloc);
    match Tier::<N>::new(alloc, LIMIT, None, age(), None) {
        Ok(mut tier) => {
            let is_started = starts(&mut tier, folder, removed) && tier.has_only_order();
            if is_started && finds_nothing(alloc, &mut tier, names) {
                save(&tier, empty, words, Plan::Never).1
            } else {
                empty
            }
        }
        Err(_) => empty,
    }
}

// Whether a save under a plan leaves this, and the next tier starts from just that: it saves it again.
fn leaves<const N: usize>(
    alloc: Global,
    tier: &Tier<N>,
    files: &Files,
    words: &[u32],
    names: &[u8],
    left: Left,
) -> bool
    requires { (0 < N) × (length words.now ≡ N) }
{
    let (told, mut folder) = save(tier, copy(alloc, &files.old), words, left.plan);
    let is_left = told == left.told && are(&folder, files, left);
    let next = goes_on::<N>(alloc, &mut folder, words, names, left.removed);
    is_left && are(&next, files, left)
}
