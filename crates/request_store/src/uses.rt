//! Uses of entries.
ghost use Rattle.std.specs.Prelude.{◌≡◌, [], Some, None, IfErr, OnOk, OnErr};
ghost use Rattle.cache_entries.specs.Rows.{weight_of};
ghost use Rattle.cache_evict.specs.Faults.{IsPutRefused, evicted_of};
ghost use Rattle.cache_evict.specs.Managed.{rows_of, use_first};
ghost use Rattle.request_store.specs.Admissions.{compact};
ghost use Rattle.cache_words.specs.Key.{key_of};
ghost use Rattle.request_store.specs.Entries.{entry_at};

use cache_evict::{CacheEntryId, CacheEntryKeyRef, EvictFault, EvictionManager};
use cache_words::key::{CacheHashKey, CacheKey, CompactCacheKey};
use cache_words::text::Text;
use cache_words::time::Moment;
use std::alloc::Global;
use std::mem;

// Takes the tag out of a key, and returns the key as a cache keeps it, with the tag: nothing is copied.
fn lent_key(alloc: Global, key: &mut CacheKey) -> CompactCacheKey
    ensures kept { result ≡ compact (key_of key.old) }
    ensures lent { key.new ≡ record key.old { user_tag = [] } }
{
    let empty = Text::from_string(String::new(alloc));
    let user_tag = mem::replace(&mut key.user_tag, empty);
    CompactCacheKey {
        primary: key.primary_bin(),
        variance: key.variance_bin(),
        user_tag,
    }
}

/// Counts a use of the entry of a key with an id, which has that weight in its store. The key lends its tag to the entry, and has it again
/// then: nothing is copied, so a use of a tracked entry takes no memory.
///
/// # Errors
///
/// Those of the manager's `access`, of an entry that isn't tracked. All is as before.
pub fn use_entry<E: EvictionManager>(
    alloc: Global,
    manager: &mut E,
    key: &mut CacheKey,
    id: Option<CacheEntryId>,
    weight: usize,
    fresh_until: Moment,
) -> Result<(), EvictFault>
    ensures key { key.new ≡ key.old }
    ensures ok { OnOk result (E.managed manager.new ≡ use_first E.shard_count (entry_at (Some key.old) id) (E.weighed weight) (E.managed manager.old)) }
    ensures err { OnErr result (E.managed manager.new ≡ E.managed manager.old) }
    ensures refused { IfErr result (λ fault. IsPutRefused E.shard_count (entry_at (Some key.old) id) (E.weighed weight) (E.managed manager.old) fault × (evicted_of fault ≡ [])) }
    ensures untracked { let e = entry_at (Some key.old) id in OnErr result (weight_of e (rows_of E.shard_count e (E.managed manager.old)) ≡ None) }
{
    let compact = lent_key(alloc, key);
    let entry = CacheEntryKeyRef::from_entry_id(&compact, id);
    let used = manager.access(alloc, entry, weight, fresh_until);
    key.user_tag = compact.user_tag;
    match used {
        Ok(_) => Ok(()),
        Err(fault) => Err(fault),
    }
}
