//! A cache, its keys and metas.
ghost use Rattle.std.specs.Prelude.{◌≡◌};

use crate::answer::{Answer, DONE, NO_MEMORY, NONE, yes_or_no};
use crate::heads::{STORED, head_of};
use crate::noting::{Notes, Noting};
use crate::step::Step;
use cache_evict::lru::Manager;
use cache_evict::{CacheEntryKey, CacheEntryKeyRef, EvictionManager};
use cache_heads::CacheMeta;
use cache_lock::CacheLock;
use cache_store::admission::{AdmissionPolicy, Decision};
use cache_store::storage::{PurgeTarget, Storage};
use cache_words::key::{CacheHashKey, CacheKey, CompactCacheKey};
use cache_words::time::{Duration, Moment};
use request_predictor::Predictor;
use request_store::CacheParts;
use std::alloc::Global;
use std::sync::atomic::{AtomicU32, Ordering};

/// Defers the key `d`, and counts how often it was asked, of any key.
#[derive(Drop)]
pub struct DefersD {
    asked: AtomicU32,
}

impl DefersD {
    pub fn new() -> DefersD {
        DefersD {
            asked: AtomicU32::new(0),
        }
    }
}

impl AdmissionPolicy for DefersD {
    ghost decides = { λ _ _ _. Unit {0} };

    fn observe(&self, key: &CacheKey) -> Decision {
        let before = self.asked.fetch_add(1, Ordering::Relaxed);
        let observed = before.wrapping_add(1);
        if key.primary_key() == b"d".as_slice() {
            Decision::Defer { observed }
        } else {
            Decision::Ready { observed }
        }
    }
}

type Cache<S, L, A> = CacheParts<S, Noting, Predictor<1>, L, A>;

/// The lock whose permits may be held for 5 seconds.
pub fn lock(alloc: Global) -> CacheLock {
    CacheLock::new(alloc, Duration::from_seconds(5))
}

/// The cache over a store, with a lock and a policy, whose bodies may weigh so much in all.
pub fn cache<S: Drop, L: Drop, A: Drop>(
    alloc: Global,
    store: S,
    lock: L,
    policy: A,
    limit: usize,
) -> Option<Cache<S, L, A>> {
    let predictor = Predictor::<1>::new(alloc, 4, None).ok()?;
    let manager = Manager::<1>::with_capacity(alloc, limit, 0).ok()?;
    Some(CacheParts {
        store,
        manager: Noting {
            manager,
            until: None,
        },
        predictor,
        lock,
        policy,
    })
}

/// The key of one letter.
pub fn key(alloc: Global, letter: u8) -> Option<CacheKey> {
    let primary = Vec::from_slice(alloc, &[letter]).ok()?;
    Some(CacheKey::new(primary, String::new(alloc)))
}

/// The meta that a step names: fresh until a second, made at another or at 1000, with windows of 30 and 60 seconds.
pub fn meta(alloc: Global, step: Step<'_>) -> CacheMeta {
    let created = Moment::from_seconds(step.second.parse().unwrap_or(1000));
    CacheMeta::new(step.moment(), created, 30, 60, head_of(alloc, STORED))
}

fn compact(alloc: Global, letter: u8) -> Option<CompactCacheKey> {
    key(alloc, letter)?.to_compact().ok()
}

/// Whether the entry of a key is tracked.
pub fn tracked<S: Storage, E: EvictionManager, P, L, A>(
    alloc: Global,
    parts: &CacheParts<S, E, P, L, A>,
    letter: u8,
) -> Answer {
    match compact(alloc, letter) {
        Some(key) => yes_or_no(parts.manager.peek(&CacheEntryKey::from_entry_id(key, None))),
        None => NO_MEMORY,
    }
}

/// Until when the response was fresh of which the manager was told last.
pub fn told_until<S, E: Notes, P, L, A>(parts: &CacheParts<S, E, P, L, A>) -> Answer {
    match parts.manager.told_until() {
        Some(until) => Answer::Second(until.seconds()),
        None => NONE,
    }
}

// What a body of one byte weighs with its meta, which takes 77.
const ONE: usize = 78;

// Tracks an entry that leaves room for such a body.
fn weigh_down<E: EvictionManager>(alloc: Global, manager: &mut E, key: CompactCacheKey) -> Answer {
    let entry = CacheEntryKey::from_entry_id(key, None);
    let moment = Moment::from_seconds(1000);
    match manager.access(
        alloc,
        CacheEntryKeyRef::from(&entry),
        usize::MAX - ONE,
        moment,
    ) {
        Ok(_) => DONE,
        Err(_) => NO_MEMORY,
    }
}

// Takes the entry of a key out, and tracks a heavy one.
fn replace<E: EvictionManager>(alloc: Global, manager: &mut E, key: &CompactCacheKey) -> Answer {
    match compact(alloc, b'z') {
        Some(heavy) => {
            manager.remove(PurgeTarget::Active(key).removed_entry(None));
            weigh_down(alloc, manager, heavy)
        }
        None => NO_MEMORY,
    }
}

/// Takes the entry of a key out of the order of use, and tracks another there that leaves room for a body of one byte.
pub fn burden<S: Storage, E: EvictionManager, P, L, A>(
    alloc: Global,
    parts: &mut CacheParts<S, E, P, L, A>,
    letter: u8,
) -> Answer {
    match compact(alloc, letter) {
        Some(key) => replace(alloc, &mut parts.manager, &key),
        None => NO_MEMORY,
    }
}
