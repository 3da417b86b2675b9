// Two saves of four shards, each of which is stopped.
use crate::files::calls::{Saver, Text, Told, loads, save};
use crate::files::loads::holds;
use crate::files::stops::{FOUR, NEW, OLD, PATHS};
use lru_files::persistence::{MemFolder, TestFolder};
use std::alloc::Global;

// The words of the second save where they aren't those of the first.
const OTHER: &[u32] = &[7, 8, 9, 10];

const LAST: Text = Some(b"the last");

// The folder after a save that was stopped after so many calls; a write that is stopped leaves two bytes.
fn stopped(alloc: Global, folder: MemFolder, words: &[u32], text: Text, calls: usize) -> MemFolder {
    let mut failing = TestFolder::stops_after(folder, calls, 2);
    let _ = save(alloc, &mut failing, Saver::Plain, "dir", words, &[text; 4]);
    failing.into_inner()
}

// What a save does at one shard where so many calls may still be done: how many may be then, whether the file is new, and how many
// temporary files are left. A shard takes four calls; where the temporary file's name is taken the first of them fails.
fn spends(calls: usize, is_taken: bool) -> (usize, bool, usize) {
    if is_taken {
        (calls.saturating_sub(1), false, 0)
    } else if calls < 4 {
        (0, false, calls.min(1))
    } else {
        (calls.wrapping_sub(4), true, 0)
    }
}

// How many temporary files are left of two saves, stopped after so many calls, if each shard's file is the last that was renamed;
// with equal words the second meets the names of the first. The first call of a save makes the directory.
fn are_of_their_saves(folder: &MemFolder, calls: (usize, usize), equal: bool) -> Option<usize> {
    let mut first = calls.0.saturating_sub(1);
    let mut second = calls.1.saturating_sub(1);
    let mut temporary = 0usize;
    for &path in PATHS {
        let (rest, is_new, left) = spends(first, false);
        let (rest_of_second, is_last, left_too) = spends(second, equal && left > 0);
        let wanted = if is_last {
            LAST
        } else if is_new {
            NEW
        } else {
            OLD
        };
        if !holds(folder, path, wanted) {
            return None;
        }
        first = rest;
        second = rest_of_second;
        temporary = temporary.wrapping_add(left).wrapping_add(left_too);
    }
    Some(temporary)
}

// The text that a load of the first shard gives.
fn first_text(calls: (usize, usize), equal: bool) -> &'static [u8] {
    let is_taken = equal && 1 < calls.0 && calls.0 < 5;
    if calls.1 >= 5 && !is_taken {
        b"0the last"
    } else if calls.0 >= 5 {
        b"0newer"
    } else {
        b"0old"
    }
}

// Whether a load removes so many temporary files, and leaves each shard's file.
fn removes(
    alloc: Global,
    folder: &mut MemFolder,
    calls: (usize, usize),
    equal: bool,
    removed: usize,
) -> bool {
    let told = Told {
        loaded: 1,
        texts: first_text(calls, equal),
        missing: 0,
        failed: None,
        failed_next: None,
        removed,
        unremoved: None,
    };
    loads(alloc, folder, "dir", 1, told)
        && are_of_their_saves(folder, calls, equal) == Some(removed)
}

// Whether two saves over old files, stopped after so many calls, leave each file old, of the first save or of the second.
fn leave_whole(alloc: Global, calls: (usize, usize), equal: bool) -> bool {
    let mut folder = MemFolder::new(alloc);
    let _ = save(alloc, &mut folder, Saver::Plain, "dir", FOUR, &[OLD; 4]);
    let words = if equal { FOUR } else { OTHER };
    let folder = stopped(alloc, folder, FOUR, NEW, calls.0);
    let mut folder = stopped(alloc, folder, words, LAST, calls.1);
    match are_of_their_saves(&folder, calls, equal) {
        Some(removed) => removes(alloc, &mut folder, calls, equal, removed),
        None => false,
    }
}

// Each save does 17 calls, if none fails.
#[test]
fn two_stopped_saves_leave_each_file_of_one(rt: HostRuntime) {
    for first in 0..18usize {
        for second in 0..18usize {
            assert!(rt; leave_whole(rt.alloc(), (first, second), false));
            assert!(rt; leave_whole(rt.alloc(), (first, second), true));
        }
    }
}
