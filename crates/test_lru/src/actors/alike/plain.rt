//! A manager without actors, whose calls return what they evict.

use crate::actors::alike::{Call, Gone, LIMIT, MARK, Row, Side, entry};
use cache_entries::entry::{CacheEntryKey, CacheEntryKeyRef};
use cache_evict::lru::Manager;
use cache_evict::{EvictFault, EvictionManager, KeyParts};
use cache_words::time::Moment;
use rand_core::SeedableRng;
use rand_pcg::Pcg64;
use std::alloc::Global;

/// A manager, the generator of its draws, and what is still to go, in order.
#[derive(Drop)]
struct Player {
    manager: Manager<2>,
    rng: Pcg64,
    left: &'static [Gone],
}

impl Player {
    /// The key of the entry of a shard that has that number there.
    fn key_of(&self, alloc: Global, shard: usize, number: u8) -> u8 {
        let mut before = number;
        for key in 0..200 {
            if self.manager.get_shard_for_key(&entry(alloc, key)) == shard {
                if before == 0 {
                    return key;
                }
                before = before.wrapping_sub(1);
            }
        }
        200
    }

    /// Whether a call returned the entries that are next to go.
    fn took(&mut self, alloc: Global, gone: Result<Vec<CacheEntryKey>, EvictFault>) -> bool {
        let Ok(gone) = gone else {
            return false;
        };
        for item in gone.iter() {
            let Some((next, left)) = self.left.split_first() else {
                return false;
            };
            if *item != entry(alloc, self.key_of(alloc, next.0, next.1)) {
                return false;
            }
            self.left = left;
        }
        true
    }

    /// Whether an entry is put so.
    fn puts(&mut self, alloc: Global, key: u8, call: Call) -> bool {
        let item = entry(alloc, key);
        let gone = match call {
            Call::Admit(size) => {
                let moment = Moment::from_seconds(0);
                self.manager.admit(alloc, item, size, moment, &mut self.rng)
            }
            Call::Increment(delta, cap) => {
                self.manager
                    .increment_weight(alloc, &item, delta, Some(cap), &mut self.rng)
            }
            _ => return false,
        };
        self.took(alloc, gone)
    }

    /// Whether a call on an entry answers what it must.
    fn does(&mut self, alloc: Global, key: u8, call: Call) -> bool {
        let item = entry(alloc, key);
        match call {
            Call::Admit(_) | Call::Increment(..) => self.puts(alloc, key, call),
            Call::Access(size, found) => {
                let moment = Moment::from_seconds(0);
                let item = CacheEntryKeyRef::from(&item);
                self.manager.access(alloc, item, size, moment).ok() == Some(found)
            }
            Call::Weighs(weight) => {
                self.manager.peek_weight(&item) == weight
                    && self.manager.peek(&item) == weight.is_some()
            }
            Call::Remove => {
                self.manager.remove(CacheEntryKeyRef::from(&item));
                true
            }
            Call::RemoveParts => {
                self.manager.remove_parts(KeyParts {
                    primary: [key; 16],
                    variance: None,
                    user_tag: "",
                });
                true
            }
        }
    }

    /// Whether a shard is so.
    fn shows(&self, alloc: Global, shard: usize, side: Side) -> bool {
        if shard >= 2 {
            return false;
        }
        let (len, weight, last) = side;
        let is_last = match last {
            Some(number) => {
                let item = entry(alloc, self.key_of(alloc, shard, number));
                self.manager.peek_lru(shard) == Some(&item)
            }
            None => self.manager.peek_lru(shard).is_none(),
        };
        is_last
            && self.manager.shard_len(shard) == len
            && self.manager.shard_weight(shard) == weight
    }

    /// Whether a row comes true.
    fn plays(&mut self, alloc: Global, row: Row) -> bool {
        let (shard, number, call, sides, (evicted, weight)) = row;
        let key = self.key_of(alloc, shard, number);
        self.does(alloc, key, call)
            && self.shows(alloc, 0, sides.0)
            && self.shows(alloc, 1, sides.1)
            && self.manager.evicted_items() == evicted
            && self.manager.evicted_size() == weight
    }
}

/// Whether a manager answers all rows, and these went, in order; false when out of memory.
pub(crate) fn answers(alloc: Global, rows: &[Row], gone: &'static [Gone]) -> bool {
    let Ok(manager) = Manager::with_capacity_and_watermark(alloc, LIMIT, 0, Some(MARK)) else {
        return false;
    };
    let mut player = Player {
        manager,
        rng: Pcg64::seed_from_u64(1),
        left: gone,
    };
    for &row in rows {
        if !player.plays(alloc, row) {
            return false;
        }
    }
    player.left.is_empty()
}
