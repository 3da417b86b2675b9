//! Calls of a manager with its threads running.

use crate::actors::made::{called, generators, limited};
use cache_entries::entry::{CacheEntryId, CacheEntryKey, CacheEntryKeyRef};
use cache_evict::lru::Manager as OwnRows;
use cache_evict::{EvictionManager, KeyParts};
use cache_words::key::CompactCacheKey;
use cache_words::text::Text;
use cache_words::time::Moment;
use lru_async_manager::Manager;
use seeded_hashing::SeededState;
use std::alloc::Global;
use std::sync::Wait;
use std::thread::Threads;

/// A call on the entry of a key and perhaps an id, and what it must answer.
#[derive(Clone, Copy)]
pub enum Step {
    Admit(usize),
    /// At the back; whether it is newly tracked.
    InsertTail(usize, bool),
    /// Weight is added, up to a cap.
    Increment(usize, usize),
    Remove,
    /// By the parts of the key.
    RemoveParts,
    Access(usize, bool),
    Peek(bool),
    PeekWeight(Option<usize>),
    /// It is the last entry of the shard.
    Last,
    /// The weight of the shard, and the number of its entries.
    Weighs(usize, usize),
    /// The shard's text has so many bytes, and gives another manager the same rows, which weigh as much.
    Text(usize, usize),
}

/// A key, perhaps an id, and a call.
pub type Row = (u8, Option<u64>, Step);

const CALLS: &[Row] = &[
    (1, None, Step::Text(1, 0)),
    (1, Some(5), Step::Increment(7, 10)),
    (1, None, Step::Weighs(7, 1)),
    (1, None, Step::Remove),
    (1, None, Step::RemoveParts),
    (1, Some(5), Step::PeekWeight(Some(7))),
    (1, None, Step::Peek(false)),
    (1, Some(5), Step::Last),
    (2, None, Step::Admit(0)),
    (3, None, Step::Access(4, false)),
    (2, None, Step::Access(9, true)),
    (2, None, Step::Weighs(12, 3)),
    (2, None, Step::InsertTail(9, false)),
    (2, None, Step::Text(75, 12)),
    (1, Some(5), Step::Last),
    (1, Some(5), Step::Remove),
    (1, Some(5), Step::Peek(false)),
    (3, None, Step::Last),
    (2, None, Step::RemoveParts),
    (2, None, Step::Peek(false)),
    (4, None, Step::InsertTail(0, true)),
    (4, None, Step::Last),
    (4, None, Step::Remove),
    (3, None, Step::Weighs(4, 1)),
];

/// The entry of a key and perhaps an id.
fn entry(alloc: Global, key: u8, id: Option<u64>) -> CacheEntryKey {
    let key = CompactCacheKey {
        primary: [key; 16],
        variance: None,
        user_tag: Text::from_string(String::new(alloc)),
    };
    match id {
        Some(id) => CacheEntryKey::identified(key, CacheEntryId::new(id)),
        None => CacheEntryKey::key_only(key),
    }
}

/// Whether a text gives a manager rows of that weight, of which it writes the same text.
fn gives(alloc: Global, text: &Vec<u8>, weight: usize) -> bool {
    let Ok(mut other) = OwnRows::<1>::with_capacity(alloc, 100, 0) else {
        return false;
    };
    let is_loaded = other.deserialize_shard(alloc, text.as_slice()).is_ok();
    match other.serialize_shard(alloc, 0) {
        Ok(again) => is_loaded && again == *text && other.total_size() == weight,
        Err(_) => false,
    }
}

/// Whether a manager has a text of so many bytes, which gives rows of that weight.
fn has_text<R: Wait>(
    rt: &R,
    alloc: Global,
    manager: &Manager<1>,
    len: usize,
    weight: usize,
) -> bool {
    match manager.serialize_shard(rt, alloc, 0) {
        Ok(text) => text.len() == len && gives(alloc, &text, weight),
        Err(_) => false,
    }
}

/// Whether an entry is put so.
fn puts<R: Wait>(rt: &R, manager: &Manager<1>, item: CacheEntryKey, step: Step) -> bool {
    match step {
        Step::Admit(size) => manager.admit(rt, item, size, Moment::from_seconds(0)) == Ok(0),
        Step::InsertTail(size, is_new) => {
            manager.insert_tail(rt, item, size).ok() == Some(is_new)
        }
        Step::Last => manager.peek_lru(rt, 0) == Ok(Some(item)),
        _ => false,
    }
}

/// Whether an entry is used so.
fn uses<R: Wait>(rt: &R, manager: &Manager<1>, item: &CacheEntryKey, step: Step) -> bool {
    match step {
        Step::Increment(delta, cap) => {
            manager.increment_weight(rt, item, delta, Some(cap)) == Ok(())
        }
        Step::Remove => manager.remove(rt, CacheEntryKeyRef::from(item)) == Ok(()),
        Step::Access(size, found) => {
            let item = CacheEntryKeyRef::from(item);
            manager.access(rt, item, size, Moment::from_seconds(0)) == Ok(found)
        }
        Step::Peek(found) => manager.peek(rt, item) == Ok(found),
        Step::PeekWeight(weight) => manager.peek_weight(rt, item) == Ok(weight),
        _ => false,
    }
}

/// Whether a call answers what it must.
pub fn does<R: Wait>(rt: &R, alloc: Global, manager: &Manager<1>, row: Row) -> bool {
    match row.2 {
        Step::Admit(_) | Step::InsertTail(..) | Step::Last => {
            puts(rt, manager, entry(alloc, row.0, row.1), row.2)
        }
        Step::RemoveParts => {
            let parts = KeyParts {
                primary: [row.0; 16],
                variance: None,
                user_tag: "",
            };
            manager.remove_parts(rt, parts) == Ok(())
        }
        Step::Weighs(weight, items) => {
            manager.shard_weight(rt, 0) == Ok(weight)
                && manager.shard_len(0) == items
                && manager.total_items() == items
        }
        Step::Text(len, weight) => has_text(rt, alloc, manager, len, weight),
        _ => uses(rt, manager, &entry(alloc, row.0, row.1), row.2),
    }
}

/// Whether all calls do, and one shard has a weight of 4 then, and nothing was evicted.
fn all_do<R: Wait>(rt: &R, alloc: Global, manager: &Manager<1>, rows: &[Row]) -> bool {
    for &row in rows {
        if !does(rt, alloc, manager, row) {
            return false;
        }
    }
    manager.get_shard_for_key(&entry(alloc, 1, None)) == 0
        && manager.shards() == 1
        && manager.total_size() == 4
        && manager.evicted_items() == 0
        && manager.evicted_size() == 0
}

/// Whether a manager without entries, of limit 100, answers the calls as it must. It ends then.
fn answers<R: Threads + Wait>(rt: &R, alloc: Global, manager: Manager<1>, rows: &[Row]) -> bool {
    let all = all_do(rt, alloc, &manager, rows);
    manager.shutdown(rt);
    all
}

/// Whether a manager that was built does, of which all is set or, of a manager with a start of the caller's for its tables, that alone.
fn built_answers<R: Threads + Wait + Copy + Send + 'static>(
    rt: &R,
    alloc: Global,
    start: Option<SeededState>,
) -> Option<bool> {
    let builder = Manager::builder(100, |_: CacheEntryKey, _: usize| {});
    let builder = match start {
        Some(start) => builder.with_hasher(start),
        None => {
            builder
                .capacity(4)
                .len_watermark(10)
                .num_eviction_workers(1)
                .num_callback_workers(2)
        }
    };
    let manager = builder.build(rt, alloc, generators(alloc, 1)?).ok()?;
    Some(answers(rt, alloc, manager, CALLS))
}

/// Whether a manager of lists that run does.
fn lists_answer<R: Threads + Wait + Copy + Send + 'static>(rt: &R, alloc: Global) -> Option<bool> {
    let lists = called(rt, alloc, limited(100, None, 1), generators(alloc, 1)?)?;
    Some(answers(rt, alloc, Manager::from_lru(lists), CALLS))
}

#[test]
fn entries_are_tracked(rt: HostRuntime) {
    assert!(rt; built_answers(&rt, rt.alloc(), None) == Some(true));
    assert!(rt; built_answers(&rt, rt.alloc(), Some(SeededState { word: 7 })) == Some(true));
    assert!(rt; lists_answer(&rt, rt.alloc()) == Some(true));
}
