//! Managers that are saved to files and loaded from them.

ghost use Rattle.std.specs.Prelude.{◌≡◌, ◌<◌, length};

use cache_entries::entry::{CacheEntryKey, CacheEntryKeyRef};
use cache_evict::{EvictFault, EvictionManager, LoadFault, PackWriteFault, lru, simple_lru};
use cache_words::key::CompactCacheKey;
use cache_words::text::Text;
use cache_words::time::Moment;
use lru_files::persistence::{Folder, MemFolder, ShardLoadReport, ShardSaveReport, TestFolder};
use rand_core::SeedableRng;
use rand_pcg::Pcg64;
use std::alloc::Global;

/// A call, with what it must return. A key is that of an entry.
#[derive(Clone, Copy)]
pub enum Step {
    /// Uses in order; each entry weighs as much as its key says.
    Use(&'static [u8]),
    /// How many shards are saved, or none by the fault of a file.
    Save(Option<usize>),
    /// How many shards are loaded, missing and errored, and how many temporary files went.
    Load([usize; 4]),
    /// A load is the fault of a file.
    NoLoad,
    /// The number of all entries.
    Holds(usize),
    /// An entry of that weight is admitted, for which this one goes alone, or none.
    Admit(u8, usize, Option<u8>),
}

fn entry(alloc: Global, key: u8) -> CacheEntryKey {
    CacheEntryKey::key_only(CompactCacheKey {
        primary: [key; 16],
        variance: None,
        user_tag: Text::from_string(String::new(alloc)),
    })
}

fn uses<M: EvictionManager>(alloc: Global, manager: &mut M, keys: &[u8]) -> bool {
    let moment = Moment::from_seconds(0);
    for &key in keys {
        let item = entry(alloc, key);
        let size = usize::from(key);
        let used = manager.access(alloc, CacheEntryKeyRef::from(&item), size, moment);
        if used.is_err() {
            return false;
        }
    }
    true
}

fn is_saved(
    saved: Result<ShardSaveReport<PackWriteFault>, EvictFault>,
    wanted: Option<usize>,
) -> bool {
    match saved {
        Ok(report) => wanted == Some(report.saved),
        Err(EvictFault::File(gone)) => wanted.is_none() && gone.is_empty(),
        Err(_) => false,
    }
}

fn is_loaded(loaded: Result<ShardLoadReport<LoadFault>, EvictFault>, wanted: [usize; 4]) -> bool {
    let [loads, missing, errored, removed] = wanted;
    match loaded {
        Ok(report) => {
            report.loaded == loads
                && report.missing == missing
                && report.errored.len() == errored
                && report.cleanup.removed == removed
        }
        Err(_) => false,
    }
}

fn is_no_file(loaded: Result<ShardLoadReport<LoadFault>, EvictFault>) -> bool {
    match loaded {
        Err(EvictFault::File(gone)) => gone.is_empty(),
        _ => false,
    }
}

/// Whether the admission of an entry evicts this one alone, or none.
fn evicts<M: EvictionManager>(
    alloc: Global,
    manager: &mut M,
    key: u8,
    size: usize,
    gone: Option<u8>,
) -> bool {
    let mut rng = Pcg64::seed_from_u64(0);
    let moment = Moment::from_seconds(0);
    match manager.admit(alloc, entry(alloc, key), size, moment, &mut rng) {
        Ok(evicted) => match gone {
            Some(gone) => evicted.len() == 1 && evicted.first() == Some(&entry(alloc, gone)),
            None => evicted.is_empty(),
        },
        Err(_) => false,
    }
}

/// Whether all calls come true, with these words for the names of a save.
fn all_done<M: EvictionManager, F: Folder>(
    alloc: Global,
    manager: &mut M,
    folder: &mut F,
    words: &[u32],
    steps: &[Step],
) -> bool
    requires { length words.now ≡ M.shard_count }
{
    for &step in steps {
        let is_done = match step {
            Step::Use(keys) => uses(alloc, manager, keys),
            Step::Save(wanted) => is_saved(manager.save(alloc, folder, "dir", words), wanted),
            Step::Load(wanted) => is_loaded(manager.load(alloc, folder, "dir"), wanted),
            Step::NoLoad => is_no_file(manager.load(alloc, folder, "dir")),
            Step::Holds(items) => manager.total_items() == items,
            Step::Admit(key, size, gone) => evicts(alloc, manager, key, size, gone),
        };
        if !is_done {
            return false;
        }
    }
    true
}

/// Whether all calls of one list come true, with this word for the name of a save; false when out of memory.
fn list_does<F: Folder>(alloc: Global, folder: &mut F, word: u32, steps: &[Step]) -> bool {
    match simple_lru::Manager::new(alloc, 4) {
        Ok(mut list) => all_done(alloc, &mut list, folder, &[word], steps),
        Err(_) => false,
    }
}

/// A manager of N shards of which all calls came true, with these words for the names of a save; none when out of memory.
pub fn sharded<const N: usize, F: Folder>(
    alloc: Global,
    folder: &mut F,
    words: &[u32],
    steps: &[Step],
) -> Option<lru::Manager<N>>
    requires some { 0 < N }
    requires words { length words.now ≡ N }
{
    let mut manager = lru::Manager::<N>::with_capacity(alloc, 100, 0).ok()?;
    if all_done(alloc, &mut manager, folder, words, steps) {
        Some(manager)
    } else {
        None
    }
}

/// How many bytes of a file of three rows are cut off, and how many shards are then loaded, missing and errored, and how many
/// entries there are. A file that isn't there is cut wholly.
const CUTS: &[(usize, [usize; 4])] = &[
    (0, [1, 0, 0, 3]),
    (1, [0, 0, 1, 2]),
    (24, [0, 0, 1, 2]),
    (25, [0, 0, 1, 1]),
    (72, [0, 0, 1, 0]),
    (73, [0, 0, 1, 0]),
    (74, [0, 1, 0, 0]),
];

/// The text of a shard that has three rows.
fn text_of_three(alloc: Global) -> Option<Vec<u8>> {
    let mut folder = MemFolder::new(alloc);
    let old = sharded::<1, MemFolder>(alloc, &mut folder, &[7], &[Step::Use(&[1, 2, 3])])?;
    old.serialize_shard(alloc, 0).ok()
}

/// Whether a file with the text but for so many bytes, or none where all are cut and one more, is loaded so.
fn is_cut(alloc: Global, text: &[u8], cut: usize, wanted: [usize; 4]) -> bool {
    let [loaded, missing, errored, items] = wanted;
    let steps = [
        Step::Load([loaded, missing, errored, 0]),
        Step::Holds(items),
    ];
    let mut folder = MemFolder::new(alloc);
    let is_put = match text.len().checked_sub(cut) {
        Some(len) => match text.get(..len) {
            Some(left) => folder.put("dir/lru.data.0", left).is_ok(),
            None => false,
        },
        None => true,
    };
    is_put && sharded::<1, MemFolder>(alloc, &mut folder, &[7], &steps).is_some()
}

#[test]
fn rows_before_a_fault_stay(rt: HostRuntime) {
    let text = text_of_three(rt.alloc()).unwrap_or(Vec::new(rt.alloc()));
    for &(cut, wanted) in CUTS {
        assert!(rt; is_cut(rt.alloc(), text.as_slice(), cut, wanted));
    }
}

/// Calls of a list that is saved, and of one that is loaded from its file.
const SAVED_LIST: &[Step] = &[
    Step::Admit(1, 1, None),
    Step::Admit(2, 2, None),
    Step::Admit(3, 1, None),
    Step::Use(&[1]),
    Step::Save(Some(1)),
];

const LOADED_LIST: &[Step] = &[Step::Load([1, 0, 0, 0]), Step::Admit(4, 2, Some(2))];

fn evicts_next(alloc: Global) -> bool {
    let mut folder = MemFolder::new(alloc);
    list_does(alloc, &mut folder, 7, SAVED_LIST) && list_does(alloc, &mut folder, 7, LOADED_LIST)
}

#[test]
fn a_loaded_list_evicts_what_was_used_longest_ago(rt: HostRuntime) {
    assert!(rt; evicts_next(rt.alloc()));
}

/// Calls where each rename fails, of shards and of a list, and of a list whose file is faulty.
const UNSAVED: &[Step] = &[Step::Use(&[1]), Step::Save(None)];

const UNSAVED_LIST: &[Step] = &[Step::Use(&[1]), Step::Save(None), Step::NoLoad];

const FAULTY_LIST: &[Step] = &[Step::Use(&[1]), Step::NoLoad];

fn shards_are_unsaved(alloc: Global) -> bool {
    let mut folder = TestFolder::renames_fail(MemFolder::new(alloc));
    sharded::<2, TestFolder>(alloc, &mut folder, &[7, 8], UNSAVED).is_some()
}

fn lists_fail(alloc: Global) -> bool {
    let mut folder = TestFolder::renames_fail(MemFolder::new(alloc));
    let mut faulty = MemFolder::new(alloc);
    list_does(alloc, &mut folder, 9, UNSAVED_LIST)
        && faulty.put("dir/simple_lru.data", &[0x91, 0xc0]).is_ok()
        && list_does(alloc, &mut faulty, 7, FAULTY_LIST)
}

#[test]
fn what_fails_wholly_is_the_fault_of_a_file(rt: HostRuntime) {
    assert!(rt; shards_are_unsaved(rt.alloc()));
    assert!(rt; lists_fail(rt.alloc()));
}
