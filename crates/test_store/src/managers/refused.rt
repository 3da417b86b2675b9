//! Each call that takes memory, with a look at what a refusal leaves. These tests pass whichever allocation fails.

ghost use Rattle.std.specs.Prelude.{◌<◌};

use crate::managers::names::{A, B, C, D, Name, entry};
use crate::managers::numbers::{Given, give};
use cache_entries::entry::CacheEntryKeyRef;
use cache_evict::numbers::Numbers;
use cache_evict::{EvictFault, EvictionManager, LoadFault, PackWriteFault, lru, simple_lru};
use cache_words::pack::PackFault;
use cache_words::time::Moment;
use rand_core::SeedableRng;
use rand_pcg::Pcg64;
use std::alloc::Global;

const NAMES: &[Name] = &[A, B, C, D];

/// Whether each entry gets a number, or is refused for want of memory and all is as before.
fn numbers_stop(alloc: Global) -> bool {
    let mut numbers: Numbers<4> = Numbers::new(alloc);
    for &name in NAMES {
        let count = numbers.len();
        let right = match give(alloc, &mut numbers, name, 5) {
            Given::Number(number) => numbers.len() > count && numbers.entry_of(number).is_some(),
            Given::Memory => numbers.len() == count,
            Given::Spent | Given::Other => false,
        };
        if !right {
            return false;
        }
    }
    true
}

#[derive(Clone, Copy)]
enum Call {
    Admit,
    Access,
    Raise,
}

/// Why the call of an entry with the weight 1 stopped, if it did; `None` also where there is no memory for the entry.
fn fault_of<M: EvictionManager>(
    alloc: Global,
    manager: &mut M,
    rng: &mut Pcg64,
    call: Call,
    name: Name,
) -> Option<EvictFault> {
    let moment = Moment::from_seconds(0);
    let item = entry(alloc, name).ok()?;
    match call {
        Call::Admit => manager.admit(alloc, item, 1, moment, rng).err(),
        Call::Access => {
            let item = CacheEntryKeyRef::from(&item);
            manager.access(alloc, item, 1, moment).err()
        }
        Call::Raise => manager.increment_weight(alloc, &item, 1, None, rng).err(),
    }
}

/// Whether a call stopped, if it did, for want of memory, with all as before or else a limit passed.
fn is_right(fault: Option<EvictFault>, is_same: bool, is_over: bool) -> bool {
    match fault {
        None => true,
        Some(EvictFault::Memory(gone)) => gone.is_empty() && is_same || is_over,
        Some(_) => false,
    }
}

/// Whether each call that stops does so for want of memory, and leaves all as before, or else a limit passed.
fn stops_for_memory<M: EvictionManager>(alloc: Global, manager: &mut M, call: Call) -> bool {
    let mut rng = Pcg64::seed_from_u64(1);
    for &name in NAMES {
        let (size, items) = (manager.total_size(), manager.total_items());
        let fault = fault_of(alloc, manager, &mut rng, call, name);
        let is_same = manager.total_size() == size && manager.total_items() == items;
        if !is_right(fault, is_same, manager.total_size() > 2) {
            return false;
        }
    }
    true
}

const TEXT: &[u8] =
    b"\x91\x92\x93\xdc\x00\x10\xcc\xac\x10\xcc\xf2\xcc\xae\xcc\xf1\x17\x72\xcc\x9f\xcc\x8d\xcc\xad\x05\x6b\x30\x59\xcc\xeb\x7e\xc0\xa1\x31\x01";

/// Whether the row is there, or the load was refused for want of memory and nothing is there.
fn is_loaded_or_refused(loaded: Result<(), LoadFault>, items: usize) -> bool {
    match loaded {
        Ok(()) => items == 1,
        Err(fault) => fault == LoadFault::Memory && items == 0,
    }
}

/// Whether the text is that which was loaded, or was refused for want of memory.
fn is_text_or_refused(written: Result<Vec<u8>, PackWriteFault>) -> bool {
    match written {
        Ok(bytes) => bytes.as_slice() == TEXT,
        Err(fault) => fault == PackWriteFault::Memory,
    }
}

/// Whether a text is loaded and written, unless memory is refused.
fn shard_takes(alloc: Global) -> bool {
    match lru::Manager::<1>::with_capacity(alloc, 9, 0) {
        Ok(mut shard) => {
            let loaded = shard.deserialize_shard(alloc, TEXT);
            is_loaded_or_refused(loaded, shard.total_items())
                && (loaded.is_err() || is_text_or_refused(shard.serialize_shard(alloc, 0)))
        }
        Err(_) => true,
    }
}

/// The same of one list.
fn list_takes(alloc: Global) -> bool {
    match simple_lru::Manager::new(alloc, 9) {
        Ok(mut list) => {
            let loaded = list.deserialize(alloc, TEXT);
            is_loaded_or_refused(loaded, list.total_items())
                && (loaded.is_err() || is_text_or_refused(list.serialize(alloc)))
        }
        Err(_) => true,
    }
}

/// A text that states 2^32 - 1 rows, and has none.
const STATED: &[u8] = b"\xdd\xff\xff\xff\xff";

const SHORT: Result<(), LoadFault> = Err(LoadFault::Text(PackFault::Short));

/// Whether such a text is too short, whichever allocation fails: none goes by the stated number.
fn stated_rows_take_nothing(alloc: Global) -> bool {
    match lru::Manager::<1>::with_capacity(alloc, 9, 0) {
        Ok(mut shard) => {
            shard.deserialize_shard(alloc, STATED) == SHORT && shard.total_items() == 0
        }
        Err(_) => true,
    }
}

/// The same of one list.
fn stated_rows_of_a_list_take_nothing(alloc: Global) -> bool {
    match simple_lru::Manager::new(alloc, 9) {
        Ok(mut list) => list.deserialize(alloc, STATED) == SHORT && list.total_items() == 0,
        Err(_) => true,
    }
}

/// Whether calls of N shards stop for want of memory alone.
fn shards_stop<const N: usize>(alloc: Global, call: Call) -> bool
    requires { 0 < N }
{
    match lru::Manager::<N>::with_capacity(alloc, 2, 0) {
        Ok(mut shards) => stops_for_memory(alloc, &mut shards, call),
        Err(_) => true,
    }
}

fn list_stops(alloc: Global, call: Call) -> bool {
    match simple_lru::Manager::new(alloc, 2) {
        Ok(mut list) => stops_for_memory(alloc, &mut list, call),
        Err(_) => true,
    }
}

#[test]
fn refusals_leave_what_was_there(rt: HostRuntime) {
    assert!(rt; numbers_stop(rt.alloc()));
    for call in [Call::Admit, Call::Access, Call::Raise] {
        assert!(rt; shards_stop::<1>(rt.alloc(), call));
        assert!(rt; shards_stop::<4>(rt.alloc(), call));
        assert!(rt; list_stops(rt.alloc(), call));
    }
    assert!(rt; shard_takes(rt.alloc()) && list_takes(rt.alloc()));
}

#[test]
fn a_stated_number_of_rows_takes_no_memory(rt: HostRuntime) {
    assert!(rt; stated_rows_take_nothing(rt.alloc()));
    assert!(rt; stated_rows_of_a_list_take_nothing(rt.alloc()));
}
