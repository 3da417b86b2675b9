//! A caller of any manager.

ghost use Rattle.std.specs.Prelude.{◌≡◌, OnOk};
ghost use Rattle.cache_entries.specs.Entry.{owned_of};
ghost use Rattle.cache_evict.specs.Managed.{use_first};

use cache_entries::entry::CacheEntryKeyRef;
use cache_evict::{EvictFault, EvictionManager};
use cache_words::time::Moment;
use std::alloc::Global;

/// Uses an entry twice, as a body that is read by two requests, and returns whether the second use found it.
pub fn use_twice<E: EvictionManager>(
    alloc: Global,
    manager: &mut E,
    item: CacheEntryKeyRef<'_>,
    size: usize,
    moment: Moment,
) -> Result<bool, EvictFault>
    ensures { let used = use_first E.shard_count (owned_of item.entry) (E.weighed size) in OnOk result (E.managed manager.new ≡ used (used (E.managed manager.old))) }
{
    let _was_tracked = manager.access(alloc, item, size, moment)?;
    manager.access(alloc, item, size, moment)
}
