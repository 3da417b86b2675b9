// The folder of the system, in folders of the tests' own.
use crate::files::calls::{Answer, Call, Saver, Text, Told, is_done, loads, save};
use lru_files::persistence::{HostFolder, ShardFileError};
use std::alloc::Global;
use std::{fs, os};

type System = HostFolder<HostRuntime>;

#[derive(Clone, Copy)]
enum Step {
    // Puts a folder, a file, or a link to a path, without the folder that is tested.
    Dir(&'static str),
    Put(&'static str, &'static str),
    Link(&'static str, &'static str),
    // The bytes of a file.
    Holds(&'static str, Text),
    // A call of the folder, or of a second one.
    Do(Call),
    Second(Call),
    // A save of two shards, and a load of three.
    Save(&'static str),
    Load(&'static str, Told),
}

fn holds(rt: &HostRuntime, path: &str, text: Text) -> bool {
    match fs::read(rt, path) {
        Ok(bytes) => text == Some(bytes.as_slice()),
        Err(_) => text.is_none(),
    }
}

const TWO: &[Text] = &[Some(b"zero"), Some(b"one")];

fn is_right(
    rt: &HostRuntime,
    alloc: Global,
    first: &mut System,
    second: &mut System,
    step: Step,
) -> bool {
    match step {
        Step::Dir(path) => fs::create_dir_all(rt, path).is_ok(),
        Step::Put(path, text) => fs::write(rt, path, text).is_ok(),
        Step::Link(to, path) => os::unix::fs::symlink(rt, to, path).is_ok(),
        Step::Holds(path, text) => holds(rt, path, text),
        Step::Do(call) => is_done(first, call),
        Step::Second(call) => is_done(second, call),
        Step::Save(dir) => {
            save(alloc, first, Saver::Async, dir, &[7, 8], TWO) == Answer::Report(2, 0, None)
        }
        Step::Load(dir, told) => loads(alloc, first, dir, 3, told),
    }
}

fn are_right(
    rt: &HostRuntime,
    alloc: Global,
    first: &mut System,
    second: &mut System,
    steps: &[Step],
) -> bool {
    for &step in steps {
        if !is_right(rt, alloc, first, second, step) {
            return false;
        }
    }
    true
}

// Whether the steps before, and then others, come true.
fn go(rt: &HostRuntime, alloc: Global, before: &[Step], then: &[Step]) -> Option<bool> {
    let mut first = HostFolder::new(rt.clone().ok()?);
    let mut second = HostFolder::new(rt.clone().ok()?);
    Some(
        are_right(rt, alloc, &mut first, &mut second, before)
            && are_right(rt, alloc, &mut first, &mut second, then),
    )
}

// A load finds both shards that were saved, misses the third, and removes a temporary file.
const SAVED: &[Step] = &[
    Step::Save("files_tests_folder"),
    Step::Put("files_tests_folder/lru.data.1.00000008.tmp", "part"),
    Step::Load(
        "files_tests_folder",
        Told {
            loaded: 2,
            texts: b"0zero1one",
            missing: 1,
            failed: None,
            failed_next: None,
            removed: 1,
            unremoved: None,
        },
    ),
    Step::Do(Call::Failures(0)),
    Step::Do(Call::List("files_tests_no_folder", false)),
];

const MADE: Step = Step::Dir("files_tests_replaced");

const PATH: &str = "files_tests_replaced/simple_lru.data";

const TEMP: &str = "files_tests_replaced/simple_lru.data.12ab34cd.tmp";

// A file is replaced whole over the one before, and then closed: nothing more can be written, which counts as one failure.
const REPLACED: &[Step] = &[
    Step::Do(Call::Replace(TEMP, PATH, b"new text", None)),
    Step::Do(Call::Write(b"more", false)),
    Step::Do(Call::Failures(1)),
    Step::Holds(PATH, Some(b"new text")),
    Step::Holds(TEMP, None),
];

const TAKEN: &str = "files_tests_taken/lru.data.0.00000007.tmp";

const TAKEN_PATH: &str = "files_tests_taken/lru.data.0";

const ELSEWHERE: &str = "files_tests_taken/elsewhere";

// What is at the temporary path before: a file of another saver's, or a link to a file elsewhere or to nothing.
const TAKEN_BY_FILE: &[Step] = &[
    Step::Dir("files_tests_taken"),
    Step::Put(ELSEWHERE, "kept"),
    Step::Put(TAKEN_PATH, "old"),
    Step::Put(TAKEN, "another's"),
    TAKEN_FAILS,
    Step::Holds(TAKEN, Some(b"another's")),
];

const TAKEN_BY_LINK: &[Step] = &[
    Step::Dir("files_tests_taken"),
    Step::Put(ELSEWHERE, "kept"),
    Step::Put(TAKEN_PATH, "old"),
    Step::Link("elsewhere", TAKEN),
    TAKEN_FAILS,
];

const TAKEN_BY_LINK_TO_NOTHING: &[Step] = &[
    Step::Dir("files_tests_taken"),
    Step::Put(ELSEWHERE, "kept"),
    Step::Put(TAKEN_PATH, "old"),
    Step::Link("nowhere", TAKEN),
    TAKEN_FAILS,
];

const TAKEN_FAILS: Step = Step::Do(Call::Replace(
    TAKEN,
    TAKEN_PATH,
    b"new",
    Some(ShardFileError::Create),
));

// A temporary name that is taken is not written, which counts as one failure, and the files beside it are as before.
const KEPT: &[Step] = &[
    Step::Do(Call::Failures(1)),
    Step::Holds(TAKEN_PATH, Some(b"old")),
    Step::Holds(ELSEWHERE, Some(b"kept")),
    Step::Holds("files_tests_taken/nowhere", None),
];

const SAVERS_TEMP: &str = "files_tests_savers/lru.data.0.00000007.tmp";

const SAVERS_PATH: &str = "files_tests_savers/lru.data.0";

const SECOND: &[u8] = b"of the second saver";

// Two savers under equal words, in turn: the second creates nothing, and the first goes on.
const SAVERS: &[Step] = &[
    Step::Do(Call::Make("files_tests_savers")),
    Step::Do(Call::Create(SAVERS_TEMP, true)),
    Step::Do(Call::Write(b"the first ", true)),
    Step::Second(Call::Replace(
        SAVERS_TEMP,
        SAVERS_PATH,
        SECOND,
        Some(ShardFileError::Create),
    )),
    Step::Do(Call::Write(b"saver's", true)),
    Step::Do(Call::Flush),
    Step::Do(Call::Rename(SAVERS_TEMP, SAVERS_PATH)),
    Step::Holds(SAVERS_PATH, Some(b"the first saver's")),
    Step::Second(Call::Replace(SAVERS_TEMP, SAVERS_PATH, SECOND, None)),
    Step::Holds(SAVERS_PATH, Some(SECOND)),
];

// Of three shards, one is a folder, one a link to a file that never ends, and one a file: the third alone is loaded.
const ODD: &[Step] = &[
    Step::Dir("files_tests_odd/lru.data.0"),
    Step::Link("/dev/zero", "files_tests_odd/lru.data.1"),
    Step::Put("files_tests_odd/lru.data.2", "two"),
    Step::Load(
        "files_tests_odd",
        Told {
            loaded: 1,
            texts: b"2two",
            missing: 0,
            failed: Some((0, Some(ShardFileError::Open))),
            failed_next: Some((1, Some(ShardFileError::Open))),
            removed: 0,
            unremoved: None,
        },
    ),
];

// A path is opened only as a file; each fault counts as one failure.
const OPENED: &[Step] = &[
    Step::Dir("files_tests_opened/folder"),
    Step::Put("files_tests_opened/file", "text"),
    Step::Link("file", "files_tests_opened/link"),
    Step::Link("absent", "files_tests_opened/dangling"),
    Step::Do(Call::Open("files_tests_opened/file", Some(true))),
    Step::Do(Call::Open("files_tests_opened/absent", Some(false))),
    Step::Do(Call::Failures(0)),
    Step::Do(Call::Open("files_tests_opened/folder", None)),
    Step::Do(Call::Failures(1)),
    Step::Do(Call::Open("files_tests_opened/link", None)),
    Step::Do(Call::Failures(2)),
    Step::Do(Call::Open("files_tests_opened/dangling", None)),
    Step::Do(Call::Failures(3)),
    Step::Do(Call::Open("/dev/zero", None)),
    Step::Do(Call::Failures(4)),
    Step::Do(Call::Open("files_tests_opened/file/below", None)),
    Step::Do(Call::Failures(5)),
];

// The folder of the test, and its steps.
const CASES: &[(&str, &[Step], &[Step])] = &[
    ("files_tests_folder", SAVED, &[]),
    ("files_tests_replaced", &[MADE], REPLACED),
    (
        "files_tests_replaced",
        &[MADE, Step::Put(PATH, "old")],
        REPLACED,
    ),
    (
        "files_tests_replaced",
        &[MADE, Step::Put(PATH, "older and longer")],
        REPLACED,
    ),
    ("files_tests_taken", TAKEN_BY_FILE, KEPT),
    ("files_tests_taken", TAKEN_BY_LINK, KEPT),
    ("files_tests_taken", TAKEN_BY_LINK_TO_NOTHING, KEPT),
    ("files_tests_savers", SAVERS, &[]),
    ("files_tests_odd", ODD, &[]),
    ("files_tests_opened", OPENED, &[]),
];

#[test]
fn a_folder_of_the_system_keeps_its_files(rt: HostRuntime) {
    for &(dir, before, then) in CASES {
        let _ = fs::remove_dir_all(&rt, dir);
        let right = go(&rt, rt.alloc(), before, then);
        let _ = fs::remove_dir_all(&rt, dir);
        assert!(rt; right == Some(true), "in {dir}");
    }
}
