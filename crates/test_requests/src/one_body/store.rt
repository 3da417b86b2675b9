//! What a cache asks of the store.
ghost use Rattle.std.specs.Prelude.{◌≡◌, ⊤, false, option_map};
ghost use Rattle.cache_entries.specs.Entry.{number_of, same_id};
ghost use Rattle.test_requests.specs.OneBody.{is_spent as spent_in};

use super::copies::written_copy;
use super::{OneBody, OneHit, OneMiss};
use cache_entries::entry::CacheEntryId;
use cache_heads::CacheMeta;
use cache_store::storage::{Found, PurgeOutcome, PurgeTarget, PurgeType, Storage, StoreFault};
use cache_words::key::{CacheHashKey, CacheKey, HashBinary};

// Whether both are one id, or none.
fn is_same(a: Option<CacheEntryId>, b: Option<CacheEntryId>) -> bool
    ensures { result ≡ same_id (option_map number_of a) (option_map number_of b) }
{
    match (a, b) {
        (None, None) => true,
        (Some(a), Some(b)) => a.get() == b.get(),
        _ => false,
    }
}

impl Storage for OneBody {
    type Hit = OneHit;

    type Miss = OneMiss;

    type NewMeta = (HashBinary, CacheMeta);

    ghost key_in = { λ n. n.0 };

    ghost meta_in = { λ n. n.1 };

    ghost is_spent = { spent_in };

    ghost streams = { false };

    ghost purged_as = { λ _ _ _. ⊤ };

    fn lookup(&mut self, key: &CacheKey) -> Result<Found<OneHit>, StoreFault> {
        self.look(&key.combined_bin())
    }

    fn lookup_streaming_write(
        &mut self,
        key: &CacheKey,
        _tag: Option<&[u8]>,
    ) -> Result<Found<OneHit>, StoreFault> {
        self.lookup(key)
    }

    fn get_miss_handler(
        &mut self,
        key: &CacheKey,
        meta: &CacheMeta,
    ) -> Result<OneMiss, StoreFault> {
        match &self.flight {
            Some(_) => Err(StoreFault::WriteNumbersSpent),
            None if self.next == u64::MAX => Err(StoreFault::WriteNumbersSpent),
            None => match written_copy(meta) {
                Ok(meta) => Ok(self.begin(key.combined_bin(), meta)),
                Err(fault) => Err(fault),
            },
        }
    }

    fn purge(&mut self, target: PurgeTarget<'_>, _purge_type: PurgeType) -> PurgeOutcome {
        let key = target.key().combined_bin();
        match target {
            PurgeTarget::Exact(entry) if !is_same(entry.entry_id(), self.id_at(&key)) => {
                PurgeOutcome::NotFound
            }
            _ => self.remove(&key),
        }
    }

    fn prepare_meta(
        &self,
        key: &CacheKey,
        meta: &CacheMeta,
    ) -> Result<((HashBinary, CacheMeta), usize), StoreFault> {
        let key = key.combined_bin();
        match &self.body {
            Some(row) if row.key == key => match written_copy(meta) {
                Ok(meta) => Ok(((key, meta), row.bytes.len())),
                Err(fault) => Err(fault),
            },
            _ => Err(StoreFault::NoMeta),
        }
    }

    fn install_meta(&mut self, new: (HashBinary, CacheMeta)) {
        let (key, meta) = new;
        match &mut self.body {
            Some(row) => row.renew(&key, meta),
            None => {}
        }
    }

    fn support_streaming_partial_write(&self) -> bool {
        false
    }
}
