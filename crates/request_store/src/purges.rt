//! What an eviction does in a store.

ghost use Rattle.request_store.specs.Stored.{Purged};

use cache_evict::CacheEntryKey;
use cache_store::storage::{PurgeTarget, PurgeType, Storage};

/// Purges what is stored of entries, in order. A purge that finds nothing is passed over.
pub fn purge_all<S: Storage>(store: &mut S, evicted: &[CacheEntryKey])
    ensures { Purged S.held S.ids S.purged_as evicted.now store.old store.new }
{
    for entry in evicted {
        store.purge(PurgeTarget::Exact(entry), PurgeType::Eviction);
    }
}
