//! Managers of two shards with their threads running, whose shards are saved, each to a file of its own, and loaded from them.

ghost use Rattle.std.specs.Prelude.{◌<◌};

use crate::actors::made::generators;
use cache_entries::entry::CacheEntryKey;
use cache_evict::EvictFault;
use cache_words::key::CompactCacheKey;
use cache_words::text::Text;
use cache_words::time::Moment;
use lru_async_manager::{Manager, text_of};
use lru_files::persistence::{Folder, MemFolder, TestFolder};
use std::alloc::Global;
use std::sync::Wait;
use std::thread::Threads;

/// Entries, each of a weight of its own.
const ADMITTED: &[(u8, usize)] = &[(1, 1), (2, 2), (3, 3), (4, 5), (5, 7), (6, 11), (7, 13)];

const FILES: [&str; 2] = ["dir/lru.data.0", "dir/lru.data.1"];

fn entry(alloc: Global, key: u8) -> CacheEntryKey {
    CacheEntryKey::key_only(CompactCacheKey {
        primary: [key; 16],
        variance: None,
        user_tag: Text::from_string(String::new(alloc)),
    })
}

/// The text of the entries of a shard, the one that was admitted last first; none where it has no entry.
fn wanted(alloc: Global, manager: &Manager<2>, shard: usize) -> Option<Vec<u8>> {
    let mut pairs = Vec::new(alloc);
    for &(key, weight) in ADMITTED.iter().rev() {
        let item = entry(alloc, key);
        if manager.get_shard_for_key(&item) == shard {
            pairs.push((item, weight)).ok()?;
        }
    }
    if pairs.is_empty() {
        return None;
    }
    text_of(alloc, pairs.as_slice()).ok()
}

/// Whether the files have the texts of both shards.
fn has_files(alloc: Global, manager: &Manager<2>, folder: &MemFolder) -> bool {
    for shard in 0..2 {
        let is_there = match wanted(alloc, manager, shard) {
            Some(text) => folder.bytes(FILES[shard]) == Some(text.as_slice()),
            None => false,
        };
        if !is_there {
            return false;
        }
    }
    true
}

/// Whether a manager has the text of a shard, or of no entry.
fn has_text<R: Wait>(
    rt: &R,
    alloc: Global,
    manager: &Manager<2>,
    shard: usize,
    is_empty: bool,
) -> bool {
    if shard >= 2 {
        return false;
    }
    let Ok(text) = manager.serialize_shard(rt, alloc, shard) else {
        return false;
    };
    if is_empty {
        return text.as_slice() == [0x90u8].as_slice();
    }
    wanted(alloc, manager, shard) == Some(text)
}

fn admits<R: Wait>(rt: &R, alloc: Global, manager: &Manager<2>) -> bool {
    for &(key, weight) in ADMITTED {
        let moment = Moment::from_seconds(0);
        if manager
            .admit(rt, entry(alloc, key), weight, moment)
            .is_err()
        {
            return false;
        }
    }
    true
}

/// A manager without entries.
fn built<R: Threads + Wait + Copy + Send + 'static>(rt: &R, alloc: Global) -> Option<Manager<2>> {
    Manager::builder(100, |_: CacheEntryKey, _: usize| {})
        .num_eviction_workers(1)
        .build(rt, alloc, generators(alloc, 1)?)
        .ok()
}

/// How many shards a save saves, and which failed first.
type Saved = Option<(usize, Option<usize>)>;

/// Whether a save ends so; with none saved it is the fault of a file.
fn is_saved<R: Wait, F: Folder>(
    rt: &R,
    alloc: Global,
    manager: &Manager<2>,
    folder: &mut F,
    saved: Saved,
) -> bool {
    match manager.save(rt, alloc, folder, "dir", &[7, 8]) {
        Ok(report) => {
            let first = report.failed.first().map(|failed| failed.0);
            saved == Some((report.saved, first))
        }
        Err(EvictFault::File(gone)) => saved.is_none() && gone.is_empty(),
        Err(_) => false,
    }
}

/// Whether both shards are saved to a folder, to one whose calls fail from some on, and to one whose renames fail.
fn saves<R: Wait>(rt: &R, alloc: Global, manager: &Manager<2>, folder: &mut MemFolder) -> bool {
    let mut renames = TestFolder::renames_fail(MemFolder::new(alloc));
    let mut first = TestFolder::fails_once(MemFolder::new(alloc), 5);
    let mut second = TestFolder::fails_once(MemFolder::new(alloc), 9);
    is_saved(rt, alloc, manager, folder, Some((2, None)))
        && has_files(alloc, manager, folder)
        && is_saved(rt, alloc, manager, &mut renames, None)
        && is_saved(rt, alloc, manager, &mut first, Some((1, Some(0))))
        && is_saved(rt, alloc, manager, &mut second, Some((1, Some(1))))
}

/// How many shards are loaded, missing and errored, and which have no entry then.
type Loaded = (usize, usize, usize, [bool; 2]);

/// Whether a load into a manager without entries ends so.
fn loads<R: Threads + Wait + Copy + Send + 'static>(
    rt: &R,
    alloc: Global,
    folder: &mut MemFolder,
    wanted: Loaded,
) -> Option<bool> {
    let manager = built(rt, alloc)?;
    let (loaded, missing, errored, are_empty) = wanted;
    let is_loaded = match manager.load(rt, alloc, folder, "dir") {
        Ok(report) => {
            report.loaded == loaded && report.missing == missing && report.errored.len() == errored
        }
        Err(_) => false,
    };
    let has_texts = has_text(rt, alloc, &manager, 0, are_empty[0])
        && has_text(rt, alloc, &manager, 1, are_empty[1]);
    manager.shutdown(rt);
    Some(is_loaded && has_texts)
}

/// Whether loads of both files, of one and a faulty one, and of one alone end as they must.
fn all_load<R: Threads + Wait + Copy + Send + 'static>(
    rt: &R,
    alloc: Global,
    folder: &mut MemFolder,
) -> Option<bool> {
    let both = loads(rt, alloc, folder, (2, 0, 0, [false, false]))?;
    let text = folder.bytes(FILES[0])?.to_vec(alloc).ok()?;
    let (_last, left) = text.as_slice().split_last()?;
    folder.put(FILES[0], left).ok()?;
    let second = loads(rt, alloc, folder, (1, 0, 1, [true, false]))?;
    let mut alone = MemFolder::new(alloc);
    alone.put(FILES[0], text.as_slice()).ok()?;
    let first = loads(rt, alloc, &mut alone, (1, 1, 0, [false, true]))?;
    Some(both && second && first)
}

fn round_trip<R: Threads + Wait + Copy + Send + 'static>(rt: &R, alloc: Global) -> Option<bool> {
    let manager = built(rt, alloc)?;
    let mut folder = MemFolder::new(alloc);
    let is_saved = admits(rt, alloc, &manager) && saves(rt, alloc, &manager, &mut folder);
    manager.shutdown(rt);
    Some(is_saved && all_load(rt, alloc, &mut folder)?)
}

#[test]
fn shards_of_a_running_manager_are_saved_and_loaded(rt: HostRuntime) {
    assert!(rt; round_trip(&rt, rt.alloc()) == Some(true));
}
