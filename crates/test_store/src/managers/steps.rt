//! Calls of any manager, one after another.

use crate::managers::names::{Name, are, item};
use crate::managers::shards::Load;
use crate::managers::uses::use_twice;
use cache_entries::entry::{CacheEntryKey, CacheEntryKeyRef};
use cache_evict::{EvictFault, EvictionManager, simple_lru};
use cache_words::time::Moment;
use rand_core::SeedableRng;
use rand_pcg::Pcg64;
use std::alloc::Global;

/// A call, with what it must return.
#[derive(Clone, Copy)]
pub enum Step {
    Admit(Name, usize, &'static [Name]),
    Raise(Name, usize, Option<usize>, &'static [Name]),
    Access(Name, usize, bool),
    Remove(Name),
    Peek(Name, bool),
    /// Two uses, of which the second finds the entry.
    AccessTwice(Name, usize),
    /// Calls that are refused since a shard can't count the weight, with no entry evicted.
    AdmitHeavy(Name, usize),
    RaiseHeavy(Name, usize),
    AccessHeavy(Name, usize),
    /// The weight and the number of all entries.
    Holds(usize, usize),
    /// The same of all evicted ones.
    Evicted(usize, usize),
}

/// Whether an admission or an increment evicted these; `None` is a refusal for the weight.
fn are_evicted(
    alloc: Global,
    evicted: Result<Vec<CacheEntryKey>, EvictFault>,
    gone: Option<&[Name]>,
) -> bool {
    match evicted {
        Ok(evicted) => match gone {
            Some(gone) => are(alloc, evicted.as_slice(), gone),
            None => false,
        },
        Err(EvictFault::Weight(evicted)) => gone.is_none() && evicted.is_empty(),
        Err(_) => false,
    }
}

/// The same of a use.
fn is_used(used: Result<bool, EvictFault>, found: Option<bool>) -> bool {
    match used {
        Ok(was) => found == Some(was),
        Err(EvictFault::Weight(evicted)) => found.is_none() && evicted.is_empty(),
        Err(_) => false,
    }
}

fn admits<M: EvictionManager>(
    alloc: Global,
    manager: &mut M,
    rng: &mut Pcg64,
    row: (Name, usize),
    gone: Option<&[Name]>,
) -> bool {
    let moment = Moment::from_seconds(0);
    are_evicted(
        alloc,
        manager.admit(alloc, item(alloc, row.0), row.1, moment, rng),
        gone,
    )
}

fn raises<M: EvictionManager>(
    alloc: Global,
    manager: &mut M,
    rng: &mut Pcg64,
    row: (Name, usize, Option<usize>),
    gone: Option<&[Name]>,
) -> bool {
    are_evicted(
        alloc,
        manager.increment_weight(alloc, &item(alloc, row.0), row.1, row.2, rng),
        gone,
    )
}

/// Whether a use, a removal or a look of an entry does what it must.
fn finds<M: EvictionManager>(
    alloc: Global,
    manager: &mut M,
    item: &CacheEntryKey,
    step: Step,
) -> bool {
    let moment = Moment::from_seconds(0);
    let borrowed = CacheEntryKeyRef::from(item);
    match step {
        Step::AccessTwice(_, size) => {
            is_used(
                use_twice(alloc, manager, borrowed, size, moment),
                Some(true),
            )
        }
        Step::Remove(_) => {
            manager.remove(borrowed);
            true
        }
        Step::Peek(_, found) => manager.peek(item) == found,
        Step::Access(_, size, found) => {
            is_used(manager.access(alloc, borrowed, size, moment), Some(found))
        }
        Step::AccessHeavy(_, size) => is_used(manager.access(alloc, borrowed, size, moment), None),
        _ => false,
    }
}

/// Whether the call returns that.
pub fn is_done<M: EvictionManager>(
    alloc: Global,
    manager: &mut M,
    rng: &mut Pcg64,
    step: Step,
) -> bool {
    match step {
        Step::Admit(name, size, gone) => admits(alloc, manager, rng, (name, size), Some(gone)),
        Step::AdmitHeavy(name, size) => admits(alloc, manager, rng, (name, size), None),
        Step::Raise(name, delta, cap, gone) => {
            raises(alloc, manager, rng, (name, delta, cap), Some(gone))
        }
        Step::RaiseHeavy(name, delta) => raises(alloc, manager, rng, (name, delta, None), None),
        Step::Access(name, ..)
        | Step::AccessHeavy(name, _)
        | Step::AccessTwice(name, _)
        | Step::Remove(name)
        | Step::Peek(name, _) => finds(alloc, manager, &item(alloc, name), step),
        Step::Holds(size, items) => {
            manager.total_size() == size && manager.total_items() == items
        }
        Step::Evicted(size, items) => {
            manager.evicted_size() == size && manager.evicted_items() == items
        }
    }
}

/// Whether all calls come true.
pub fn all_done<M: EvictionManager>(alloc: Global, manager: &mut M, steps: &[Step]) -> bool {
    let mut rng = Pcg64::seed_from_u64(1);
    for &step in steps {
        if !is_done(alloc, manager, &mut rng, step) {
            return false;
        }
    }
    true
}

/// Whether a load and then all calls of one list come true; false when out of memory.
pub fn list_does(
    alloc: Global,
    limit: usize,
    watermark: Option<usize>,
    load: Load<'_>,
    steps: &[Step],
) -> bool {
    match simple_lru::Manager::new_with_watermark(alloc, limit, watermark) {
        Ok(mut list) => {
            let loaded = match load {
                Some((bytes, wanted)) => list.deserialize(alloc, bytes) == wanted,
                None => true,
            };
            loaded && all_done(alloc, &mut list, steps)
        }
        Err(_) => false,
    }
}
