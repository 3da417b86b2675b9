//! Look-ups of what is fresh, with their heads.
use crate::samples::{known, meta};
use bytes::Bytes;
use cache_lock::CacheLock;
use head_packed::HeldMeta;
use pingora_cache::eviction::lru::Manager;
use pingora_cache::storage::{FoundAt, FreshLook, HandleHit, HandleMiss, Storage};
use pingora_cache::time::{Duration, Moment};
use pingora_cache::{CacheParts, MemCache, MemHitHandler, NoPolicy};
use std::alloc::Global;

type Cache = CacheParts<MemCache, Manager<1>, (), CacheLock>;

// A body of four bytes under "a", which is fresh until 1000, and no entry is tracked.
fn filled(alloc: Global) -> Option<Cache> {
    let mut store = MemCache::new(alloc);
    let body = Bytes::from_static(b"body");
    store
        .store_whole(&known(alloc, b"a"), meta(alloc, 1000), body)
        .ok()?;
    Some(CacheParts {
        store,
        manager: Manager::<1>::with_capacity(alloc, 1000, 0).ok()?,
        predictor: (),
        lock: CacheLock::new(alloc, Duration::from_seconds(10)),
        policy: NoPolicy,
    })
}

// What is fresh, if that was found.
fn fresh_in(look: FreshLook<MemHitHandler>) -> Option<(Moment, MemHitHandler)> {
    match look {
        FreshLook::Fresh(until, hit) => Some((until, hit)),
        FreshLook::Stale | FreshLook::Absent => None,
    }
}

fn fresh_at(
    alloc: Global,
    cache: &mut Cache,
    name: &[u8],
    moment: Moment,
) -> Option<(Moment, MemHitHandler)> {
    match cache.store.lookup_fresh(&known(alloc, name), moment) {
        Ok(look) => fresh_in(look),
        Err(_) => None,
    }
}

// Whether a look-up finds what is fresh at a second, until 1000.
fn is_found(alloc: Global, cache: &mut Cache, name: &[u8], second: i64) -> bool {
    let moment = Moment::from_seconds(second);
    match fresh_at(alloc, cache, name, moment) {
        Some((until, hit)) => {
            hit.finish(&mut cache.store);
            until == Moment::from_seconds(1000)
        }
        None => false,
    }
}

#[test]
fn fresh_bodies_are_found(rt: HostRuntime) {
    let alloc = rt.alloc();
    let found = match filled(alloc) {
        Some(mut cache) => {
            is_found(alloc, &mut cache, b"a", 1000)
                && !is_found(alloc, &mut cache, b"a", 1001)
                && !is_found(alloc, &mut cache, b"b", 1000)
        }
        None => false,
    };
    assert!(rt; found);
}

// A fresh body comes with its head, whose text a share keeps.
fn has_fresh_head(alloc: Global, cache: &mut Cache) -> Option<bool> {
    let (_until, hit) = fresh_at(alloc, cache, b"a", Moment::from_seconds(1000))?;
    let has = match hit.head() {
        Some(head) => head.status() == meta(alloc, 1000).header.status,
        None => false,
    };
    hit.finish(&mut cache.store);
    Some(has)
}

// Whether a meta that is held is that of the body: its moments and numbers, and its head.
fn is_held(alloc: Global, held: &HeldMeta) -> Option<bool> {
    let wanted = meta(alloc, 1000);
    let read = held.unpack().ok()?;
    let same = read.header.status == wanted.header.status
        && read.header.headers == wanted.header.headers
        && read.internal == wanted.internal;
    Some(same && held.internal() == wanted.internal && held.external() == 0)
}

// What is stale comes with its meta.
fn has_stale_meta(alloc: Global, cache: &mut Cache) -> Option<bool> {
    let moment = Moment::from_seconds(1001);
    let found = match cache.store.lookup_at(&known(alloc, b"a"), moment) {
        Ok(Some(found)) => found,
        _ => return None,
    };
    match found {
        FoundAt::Stale(held, hit) => {
            hit.finish(&mut cache.store);
            is_held(alloc, &held)
        }
        FoundAt::Fresh(_until, hit) => {
            hit.finish(&mut cache.store);
            None
        }
    }
}

// The number of the write in flight under "b", whose reader holds no head.
fn number_in_flight(alloc: Global, cache: &mut Cache) -> Option<u64> {
    let (_until, hit) = fresh_at(alloc, cache, b"b", Moment::from_seconds(1000))?;
    let number = hit.write_number();
    let bare = hit.head().is_none();
    hit.finish(&mut cache.store);
    if bare { Some(number) } else { None }
}

fn is_lent(cache: &Cache, number: Option<u64>) -> bool {
    match number {
        Some(number) => cache.store.write_head(number).is_some(),
        None => false,
    }
}

// The head of a write in flight is lent by its number, until the write is left.
fn is_lent_in_flight(alloc: Global, cache: &mut Cache) -> bool {
    let miss = match cache
        .store
        .get_miss_handler(&known(alloc, b"b"), &meta(alloc, 1000))
    {
        Ok(miss) => miss,
        Err(_) => return false,
    };
    let number = number_in_flight(alloc, cache);
    let lent = is_lent(cache, number);
    miss.leave(&mut cache.store);
    lent && !is_lent(cache, number)
}

fn have_heads(alloc: Global) -> Option<bool> {
    let mut cache = filled(alloc)?;
    let fresh = has_fresh_head(alloc, &mut cache)?;
    let stale = has_stale_meta(alloc, &mut cache)?;
    Some(fresh && stale && is_lent_in_flight(alloc, &mut cache))
}

#[test]
fn readers_have_heads(rt: HostRuntime) {
    assert!(rt; have_heads(rt.alloc()) == Some(true));
}
