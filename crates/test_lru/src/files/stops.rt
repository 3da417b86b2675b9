// Saves that are stopped, or of which one call fails.
use crate::files::calls::{Answer, Saver, Text, Told, loads, save};
use crate::files::loads::holds;
use lru_files::persistence::{Folder, MemFolder, ShardFileError, ShardSaveSetupError, TestFolder};
use std::alloc::Global;

// The words of four shards, and of one.
pub const FOUR: &[u32] = &[0x12ab_34cd, 1, 0xffff_ffff, 0];

const ONE: &[u32] = &[0x12ab_34cd];

pub const OLD: Text = Some(b"old");

pub const NEW: Text = Some(b"newer");

// Which calls of a save fail.
#[derive(Clone, Copy)]
enum Plan {
    // All after so many, the first of which writes so many bytes, if it writes.
    After(usize, usize),
    Once(usize),
    Renames,
}

fn planned(folder: MemFolder, plan: Plan) -> TestFolder {
    match plan {
        Plan::After(calls, bytes) => TestFolder::stops_after(folder, calls, bytes),
        Plan::Once(call) => TestFolder::fails_once(folder, call),
        Plan::Renames => TestFolder::renames_fail(folder),
    }
}

// What a save of new texts answers, over old texts of the shards of some words, where calls fail by a plan; and the folder then.
fn after(alloc: Global, old: &[u32], new: &[u32], plan: Plan) -> (Answer, MemFolder) {
    let mut folder = MemFolder::new(alloc);
    let _ = save(alloc, &mut folder, Saver::Plain, "dir", old, &[OLD; 4]);
    let mut failing = planned(folder, plan);
    let answer = save(alloc, &mut failing, Saver::Plain, "dir", new, &[NEW; 4]);
    (answer, failing.into_inner())
}

pub const PATHS: &[&str] = &[
    "dir/lru.data.0",
    "dir/lru.data.1",
    "dir/lru.data.2",
    "dir/lru.data.3",
];

// Whether the first of the shards have the new text, from one number to another they have another text, and the last the new one.
fn are(folder: &MemFolder, shards: usize, from: usize, to: usize, text: Text) -> bool {
    let mut shard = 0usize;
    for &path in PATHS {
        let wanted = if shard >= shards {
            None
        } else if from <= shard && shard < to {
            text
        } else {
            NEW
        };
        if !holds(folder, path, wanted) {
            return false;
        }
        shard = shard.wrapping_add(1);
    }
    true
}

// What a save over old texts leaves: its answer, if it is looked at, the shards that keep the old text, from one to another, and how many
// temporary files a load removes then.
type Left = (Option<Answer>, usize, usize, usize);

fn leaves(alloc: Global, words: &[u32], plan: Plan, left: Left) -> bool {
    let (wanted, from, to, removed) = left;
    let (answer, mut folder) = after(alloc, words, words, plan);
    let texts: &[u8] = if from == 0 && to > 0 {
        b"0old"
    } else {
        b"0newer"
    };
    let told = Told {
        loaded: 1,
        texts,
        missing: 0,
        failed: None,
        failed_next: None,
        removed,
        unremoved: None,
    };
    (wanted.is_none() || wanted == Some(answer))
        && are(&folder, words.len(), from, to, OLD)
        && loads(alloc, &mut folder, "dir", 1, told)
}

// How many calls a save over an old file does, whether the file is new then, and how many files the next load removes.
const STOPS: &[(usize, bool, usize)] = &[
    (0, false, 0),
    (1, false, 0),
    (2, false, 1),
    (3, false, 1),
    (4, false, 1),
    (5, true, 0),
    (6, true, 0),
];

const BYTES: &[usize] = &[0, 1, 5, 9];

#[test]
fn a_stopped_save_leaves_each_file_old_or_new(rt: HostRuntime) {
    for &(calls, is_new, removed) in STOPS {
        for &bytes in BYTES {
            let old = if is_new { 0 } else { 1 };
            assert!(rt;
                leaves(
                    rt.alloc(),
                    ONE,
                    Plan::After(calls, bytes),
                    (None, 0, old, removed)
                )
            );
        }
    }
    for calls in 0..18usize {
        let of_shards = calls.saturating_sub(1);
        let temp = if of_shards % 4 == 0 { 0 } else { 1 };
        assert!(rt;
            leaves(
                rt.alloc(),
                FOUR,
                Plan::After(calls, 1),
                (None, of_shards / 4, 4, temp)
            )
        );
    }
}

const NO_FOLDER: Option<Answer> = Some(Answer::Setup(ShardSaveSetupError::CreateDir));

// The calls on one shard's files, in their order, and how many temporary files each leaves where it fails.
const KINDS: &[(ShardFileError, usize)] = &[
    (ShardFileError::Create, 0),
    (ShardFileError::Write, 1),
    (ShardFileError::Flush, 1),
    (ShardFileError::Rename, 1),
];

// The words of the shards, the call that fails, and what is left: no call on a shard's file fails, so all shards are new, or all old.
const WHOLE: &[(&[u32], usize, Left)] = &[
    (ONE, 1, (NO_FOLDER, 0, 1, 0)),
    (ONE, 6, (Some(Answer::Report(1, 0, None)), 0, 0, 0)),
    (FOUR, 1, (NO_FOLDER, 0, 4, 0)),
    (FOUR, 99, (Some(Answer::Report(4, 0, None)), 0, 0, 0)),
];

// Whether each call on one shard's files that fails fails that shard alone.
fn fails_alone(alloc: Global, words: &[u32], shard: usize) -> bool {
    let mut call = shard.wrapping_mul(4).wrapping_add(2);
    for &(kind, removed) in KINDS {
        let first = Some((shard, kind));
        let answer = if words.len() == 1 {
            Answer::AllFailed(1, first)
        } else {
            Answer::Report(3, 1, first)
        };
        let left = (Some(answer), shard, shard.wrapping_add(1), removed);
        if !leaves(alloc, words, Plan::Once(call), left) {
            return false;
        }
        call = call.wrapping_add(1);
    }
    true
}

#[test]
fn one_failing_call_fails_its_shard_alone(rt: HostRuntime) {
    for &(words, call, left) in WHOLE {
        assert!(rt; leaves(rt.alloc(), words, Plan::Once(call), left));
    }
    assert!(rt; fails_alone(rt.alloc(), ONE, 0));
    for shard in 0..4usize {
        assert!(rt; fails_alone(rt.alloc(), FOUR, shard));
    }
}

// A plan for a save of one shard where nothing was, the call that fails, and the bytes of the temporary file then.
const PARTS: &[(Plan, ShardFileError, &[u8])] = &[
    (Plan::After(2, 0), ShardFileError::Write, b""),
    (Plan::After(2, 1), ShardFileError::Write, b"n"),
    (Plan::After(2, 4), ShardFileError::Write, b"newe"),
    (Plan::After(2, 5), ShardFileError::Write, b"newer"),
    (Plan::After(2, 9), ShardFileError::Write, b"newer"),
    (Plan::Renames, ShardFileError::Rename, b"newer"),
];

fn leaves_part(alloc: Global, plan: Plan, call: ShardFileError, part: &'static [u8]) -> bool {
    let (answer, folder) = after(alloc, &[], ONE, plan);
    answer == Answer::AllFailed(1, Some((0, call)))
        && are(&folder, 1, 0, 1, None)
        && holds(&folder, "dir/lru.data.0.12ab34cd.tmp", Some(part))
        && folder.failures() == 1
}

// Whether of four shards the third alone isn't saved, whose list fails.
fn third_fails(alloc: Global) -> bool {
    let texts = [NEW, NEW, None, NEW];
    let mut folder = MemFolder::new(alloc);
    save(alloc, &mut folder, Saver::Async, "dir", FOUR, &texts) == Answer::Report(3, 1, None)
        && are(&folder, 4, 2, 3, None)
        && folder.failures() == 0
}

#[test]
fn what_fails_leaves_its_part(rt: HostRuntime) {
    for &(plan, call, part) in PARTS {
        assert!(rt; leaves_part(rt.alloc(), plan, call, part));
    }
    assert!(rt; third_fails(rt.alloc()));
}
