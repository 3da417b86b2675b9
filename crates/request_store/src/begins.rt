//! How a write begins.
ghost use Rattle.std.specs.Prelude.{◌≡◌, MatchResult};
ghost use Rattle.cache_words.specs.Key.{key_of, combined};
ghost use Rattle.request_store.specs.Begins.{IsBegun, IsNotBegun};

use cache_heads::CacheMeta;
use cache_store::laws::own_reader;
use cache_store::storage::{HandleMiss, Storage, StoreFault};
use cache_words::key::CacheKey;

/// A writer, and where the store streams the reader of what it writes.
pub type Begun<H, M> = (M, Option<H>);

/// Begins a write, and where the store streams looks up its own reader.
///
/// # Errors
///
/// Those of the store's beginning, and of its look-up of the write, which then is left.
pub fn begin<S: Storage>(
    store: &mut S,
    key: &CacheKey,
    meta: &CacheMeta,
) -> Result<Begun<S::Hit, S::Miss>, StoreFault>
    ensures begun { let k = combined (key_of key.now) in let spent = S.is_spent (S.held store.old) in
        MatchResult result (λ b. IsBegun S.Hit.reader S.Miss.number (λ m. S.tagged (S.Miss.tag m)) S.streams spent k meta.now b.0 b.1 (S.held store.old) (S.held store.new))
        (λ fault. IsNotBegun S.Hit.reader S.Miss.number (λ m. S.tagged (S.Miss.tag m)) S.streams spent k meta.now fault (S.held store.old) (S.held store.new)) }
    ensures ids { S.ids store.new ≡ S.ids store.old }
{
    own_reader();
    let miss = match store.get_miss_handler(key, meta) {
        Ok(miss) => miss,
        Err(fault) => return Err(fault),
    };
    if !store.support_streaming_partial_write() {
        return Ok((miss, None));
    }
    match store.lookup_streaming_reader(key, miss.streaming_write_tag()) {
        Ok(Some(own)) => Ok((miss, Some(own))),
        Ok(None) => unreachable!(),
        Err(fault) => {
            miss.leave(store);
            Err(fault)
        }
    }
}
