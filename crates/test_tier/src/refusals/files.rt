//! Starts and saves of a tier that memory is refused: what the tier and the files are then, and that the next one is whole.
use crate::asks::Ask;
use crate::stops::{LIMIT, Plan, Told, age, save};
use crate::traces::restarts::{B, BA, CBA, FILE, NONE};
use crate::trials::{Held, is_ready};
use lru_files::persistence::MemFolder;
use std::alloc::Global;
use tier_model::event::TierFault;
use tier_single::tier::Tier;

// What a start answers.
#[derive(Clone, Copy, PartialEq, Eq)]
enum Came {
    Loaded,
    // A row was refused memory, or the file.
    Cut,
    // Memory ran out before anything was done.
    Refused,
    Else,
}

fn told_by(loaded: usize, errored: usize) -> Came {
    match (loaded, errored) {
        (1, 0) => Came::Loaded,
        (0, 1) => Came::Cut,
        _ => Came::Else,
    }
}

fn start(tier: &mut Tier<1>, folder: &mut MemFolder) -> Came {
    if !tier.is_new() {
        return Came::Else;
    }
    match tier.start(folder, "dir") {
        Ok(report) => told_by(report.loaded, report.errored.len()),
        Err(TierFault::Memory(_)) => Came::Refused,
        Err(_) => Came::Else,
    }
}

// What a start comes to; after one that is refused, and leaves the tier new, what the next one does.
fn start_again(tier: &mut Tier<1>, folder: &mut MemFolder) -> Came {
    match start(tier, folder) {
        Came::Refused => start(tier, folder),
        came => came,
    }
}

// What a file has that a tier saves.
#[derive(Clone, Copy, PartialEq, Eq)]
enum Rows {
    // Those that were saved before, and a third one first.
    CBA,
    BA,
    B,
    None,
    // There is no such file.
    Absent,
    Else,
}

fn rows_in(folder: &MemFolder) -> Rows {
    match folder.bytes(FILE) {
        Some(text) if text == CBA => Rows::CBA,
        Some(text) if text == BA => Rows::BA,
        Some(text) if text == B => Rows::B,
        Some(text) if text == NONE => Rows::None,
        Some(_) => Rows::Else,
        None => Rows::Absent,
    }
}

// Whether the tier saves the rows of the file, or after a cut the first of them. That save may be refused too.
fn goes_on(alloc: Global, tier: &Tier<1>, came: Came) -> Held {
    let (told, saved) = save(tier, MemFolder::new(alloc), &[7], Plan::Never);
    match (came, rows_in(&saved)) {
        (Came::Loaded, Rows::BA) => Held::Answered,
        (Came::Cut, Rows::B | Rows::None) => Held::Refused,
        (Came::Loaded, Rows::Absent) if told != Told::Report(1, 0) => Held::Elsewhere,
        _ => Held::Broken,
    }
}

fn starts(alloc: Global, tier: &mut Tier<1>) -> Held {
    let mut folder = MemFolder::new(alloc);
    if folder.put(FILE, BA).is_err() {
        return Held::Elsewhere;
    }
    let came = start_again(tier, &mut folder);
    goes_on(alloc, tier, came)
}

// Whether the file is old or whole after a save that may be refused, and whole after the next, under another word: no save writes over
// a temporary file.
fn saves(tier: &Tier<1>, folder: MemFolder) -> Held {
    let (told, folder) = save(tier, folder, &[7], Plan::Never);
    let first = rows_in(&folder);
    let (_, folder) = save(tier, folder, &[8], Plan::Never);
    match (told, first, rows_in(&folder)) {
        (Told::Report(1, 0), Rows::CBA, Rows::CBA) => Held::Answered,
        (Told::Folder | Told::Else, Rows::BA | Rows::CBA, Rows::CBA) => Held::Refused,
        _ => Held::Broken,
    }
}

const THREE: &[Ask] = &[
    Ask::Put(b'a', b"x"),
    Ask::Put(b'b', b"x"),
    Ask::Put(b'c', b"x"),
];

fn saves_over(alloc: Global, tier: &mut Tier<1>) -> Held {
    let mut folder = MemFolder::new(alloc);
    if folder.put(FILE, BA).is_ok() && is_ready(alloc, tier, THREE) {
        saves(tier, folder)
    } else {
        Held::Elsewhere
    }
}

// What is done with a tier that is new.
#[derive(Clone, Copy)]
enum Files {
    Start,
    Save,
}

fn held(alloc: Global, files: Files) -> Held {
    match Tier::<1>::new(alloc, LIMIT, None, age(), None) {
        Ok(mut tier) => match files {
            Files::Start => starts(alloc, &mut tier),
            Files::Save => saves_over(alloc, &mut tier),
        },
        Err(_) => Held::Elsewhere,
    }
}

#[test]
fn a_refused_start_leaves_a_tier_that_starts(rt: HostRuntime) {
    assert!(rt; held(rt.alloc(), Files::Start) != Held::Broken);
}

#[test]
fn a_refused_save_leaves_the_file_old_or_whole(rt: HostRuntime) {
    assert!(rt; held(rt.alloc(), Files::Save) != Held::Broken);
}

#[test]
fn ample_memory_meets_no_refusal(rt: HostRuntime) {
    let started = held(rt.alloc(), Files::Start) == Held::Answered;
    assert!(rt; started && held(rt.alloc(), Files::Save) == Held::Answered);
}
