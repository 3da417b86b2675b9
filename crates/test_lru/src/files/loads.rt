// What a load removes, reads and reports, and calls of a folder in memory.
use crate::files::calls::{Call, Failed, Text, Told, is_done, loads};
use lru_files::persistence::{MemFolder, ShardFileError, TestFolder, hex_word};
use std::alloc::Global;

// (the path, the bytes, whether a load removes it)
const FILES: &[(&str, &[u8], bool)] = &[
    ("dir/lru.data.0", b"zero", false),
    ("dir/lru.data.2", b"", false),
    ("dir/lru.data.0.12ab34cd.tmp", b"z", true),
    ("dir/lru.data.tmp", b"", true),
    ("dir/lru.data.0.bak", b"b", false),
    ("dir/xlru.data.tmp", b"x", false),
    ("other/lru.data.1.tmp", b"o", false),
];

// Whether the files are put.
fn are_put(folder: &mut MemFolder) -> bool {
    for &(path, bytes, _) in FILES {
        if folder.put(path, bytes).is_err() {
            return false;
        }
    }
    true
}

// How many files are left of those that a load removes, and of the others.
fn left(folder: &MemFolder) -> (usize, usize) {
    let mut left = (0usize, 0usize);
    for &(path, _, is_temporary) in FILES {
        if folder.bytes(path).is_some() {
            left = if is_temporary {
                (left.0.wrapping_add(1), left.1)
            } else {
                (left.0, left.1.wrapping_add(1))
            };
        }
    }
    left
}

// Whether a load of which one call fails reports this, and leaves all files that it didn't remove.
fn fails_so(alloc: Global, call: usize, told: Told) -> bool {
    let mut folder = MemFolder::new(alloc);
    let put = are_put(&mut folder);
    let mut failing = TestFolder::fails_once(folder, call);
    let loaded = loads(alloc, &mut failing, "dir", 3, told);
    put && loaded && left(&failing.into_inner()) == (2usize.saturating_sub(told.removed), 5)
}

// The third shard's file is empty.
const EMPTY: Failed = Some((2, None));

const LISTING: Option<ShardFileError> = Some(ShardFileError::ReadDir);

const REMOVAL: Option<ShardFileError> = Some(ShardFileError::Remove);

const OPENING: Option<ShardFileError> = Some(ShardFileError::Open);

const READING: Option<ShardFileError> = Some(ShardFileError::Read);

// (the failing call, how many were removed, what failed in that, how many were loaded and what, how many were missing, which failed)
const ROWS: &[(
    usize,
    usize,
    Option<ShardFileError>,
    usize,
    &[u8],
    usize,
    [Failed; 2],
)] = &[
    (99, 2, None, 1, b"0zero", 1, [EMPTY, None]),
    (1, 0, LISTING, 1, b"0zero", 1, [EMPTY, None]),
    (2, 1, REMOVAL, 1, b"0zero", 1, [EMPTY, None]),
    (3, 1, REMOVAL, 1, b"0zero", 1, [EMPTY, None]),
    (4, 2, None, 0, b"", 1, [Some((0, OPENING)), EMPTY]),
    (5, 2, None, 0, b"", 1, [Some((0, READING)), EMPTY]),
    (6, 2, None, 1, b"0zero", 0, [Some((1, OPENING)), EMPTY]),
    (8, 2, None, 1, b"0zero", 1, [Some((2, READING)), None]),
];

#[test]
fn a_load_removes_temporary_files_and_reads_each_shard(rt: HostRuntime) {
    for &(call, removed, unremoved, loaded, texts, missing, errored) in ROWS {
        let told = Told {
            loaded,
            texts,
            missing,
            failed: errored[0],
            failed_next: errored[1],
            removed,
            unremoved,
        };
        assert!(rt; fails_so(rt.alloc(), call, told));
    }
}

pub fn holds(folder: &MemFolder, path: &str, text: Text) -> bool {
    match (folder.bytes(path), text) {
        (Some(bytes), Some(text)) => bytes == text,
        (None, None) => true,
        _ => false,
    }
}

#[derive(Clone, Copy)]
enum Step {
    Put(&'static str, &'static [u8]),
    Holds(&'static str, Text),
    Do(Call),
}

// Whether all steps of a new folder come true.
fn goes(alloc: Global, steps: &[Step]) -> bool {
    let mut folder = MemFolder::new(alloc);
    for &step in steps {
        let right = match step {
            Step::Put(path, bytes) => folder.put(path, bytes).is_ok(),
            Step::Holds(path, text) => holds(&folder, path, text),
            Step::Do(call) => is_done(&mut folder, call),
        };
        if !right {
            return false;
        }
    }
    true
}

const PATH: &str = "dir/simple_lru.data";

const TEMP: &str = "dir/simple_lru.data.0000000c.tmp";

const STEPS: &[&[Step]] = &[
    // A file that is there is not created.
    &[
        Step::Put("dir/a", b"old"),
        Step::Do(Call::Create("dir/a", false)),
        Step::Holds("dir/a", Some(b"old")),
        Step::Do(Call::Failures(1)),
    ],
    // A write brings no removed file back.
    &[
        Step::Do(Call::Create("dir/a", true)),
        Step::Do(Call::Remove("dir/a")),
        Step::Do(Call::Write(b"more", false)),
        Step::Holds("dir/a", None),
        Step::Do(Call::Failures(1)),
    ],
    // One file is replaced.
    &[
        Step::Put(PATH, b"old"),
        Step::Do(Call::Replace(TEMP, PATH, b"new", None)),
        Step::Holds(PATH, Some(b"new")),
        Step::Holds(TEMP, None),
    ],
];

fn is_spelled(alloc: Global, word: u32, text: &str) -> bool {
    match hex_word(alloc, word) {
        Ok(digits) => digits.as_str() == text,
        Err(_) => false,
    }
}

// Words, and the eight digits of each.
const DIGITS: &[(u32, &str)] = &[(0x0c, "0000000c"), (0xfedc_ba98, "fedcba98")];

#[test]
fn files_in_memory_are_kept_and_words_spelled(rt: HostRuntime) {
    for &steps in STEPS {
        assert!(rt; goes(rt.alloc(), steps));
    }
    for &(word, text) in DIGITS {
        assert!(rt; is_spelled(rt.alloc(), word, text));
    }
}
