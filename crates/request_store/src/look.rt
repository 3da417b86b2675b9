//! Look-ups of responses that are no older than a moment.
ghost use Rattle.std.specs.Prelude.{◌≡◌, true, is_none, is_some, IfOk, IfErr, OnErr, Ok};
ghost use Rattle.cache_words.specs.Key.{key_of, combined};
ghost use Rattle.cache_store.specs.Looks.{Tells, shows, told_at};
ghost use Rattle.cache_store.specs.declared.storage.StoreFault.{StoreFault as Fault};
ghost use Rattle.request_store.specs.Looks.{is_hidden, valid_look, IsValidFound, IsValidFoundAt};

use cache_heads::CacheMeta;
use cache_store::laws::joined_then_parted;
use cache_store::storage::{Found, FoundAt, HandleHit, Storage, StoreFault};
use cache_words::key::CacheKey;
use cache_words::time::Moment;
use head_packed::HeldMeta;

// Whether a response was created before that moment.
fn is_hidden(since: Option<Moment>, meta: &CacheMeta) -> bool
    ensures { result ≡ is_hidden since meta.now }
{
    match since {
        Some(since) => !since.is_at_most(&meta.created()),
        None => false,
    }
}

/// Returns what a look-up of a key finds that is no older than a moment, and whether the store has nothing at all.
///
/// # Errors
///
/// Those of the look-up. Nothing has changed.
pub fn look_valid<S: Storage>(
    store: &mut S,
    key: &CacheKey,
    since: Option<Moment>,
) -> Result<(Found<S::Hit>, bool), StoreFault>
    ensures look { let shown = shows S.streams (combined (key_of key.now)) (S.held store.old).store in
        IfOk result (λ found. IsValidFound S.Hit.reader (valid_look since shown) (S.held store.old) found.0 (S.held store.new)) }
    ensures err { IfErr result (λ f. (f ≡ Fault.Memory) × (S.held store.new ≡ S.held store.old)) }
    ensures looked { OnErr result (is_some (shows S.streams (combined (key_of key.now)) (S.held store.old).store) ≡ true) }
    ensures none { let shown = shows S.streams (combined (key_of key.now)) (S.held store.old).store in IfOk result (λ found. found.1 ≡ is_none shown) }
    ensures tells { let k = combined (key_of key.now) in IfOk result (λ found. Tells S.Hit.weight S.Hit.id S.weigh (S.ids store.old k) (shows S.streams k (S.held store.old).store) (Ok found.0)) }
    ensures ids { S.ids store.new ≡ S.ids store.old }
{
    joined_then_parted();
    match store.lookup(key) {
        Ok(Some((meta, hit))) => {
            if is_hidden(since, &meta) {
                hit.finish(store);
                Ok((None, false))
            } else {
                Ok((Some((meta, hit)), false))
            }
        }
        Ok(None) => Ok((None, true)),
        Err(fault) => Err(fault),
    }
}

// Returns what is found as it is reported at a moment.
fn told_at<H>(moment: Moment, meta: CacheMeta, hit: H) -> FoundAt<H>
    ensures { result ≡ told_at moment (meta, hit) }
{
    if meta.is_fresh(moment) {
        FoundAt::Fresh(meta.fresh_until(), hit)
    } else {
        FoundAt::Stale(HeldMeta::whole(meta), hit)
    }
}

/// The same, as it is reported at a moment: of a response that is fresh only how long it is. A store that keeps metas packed unpacks none, unless
/// older responses aren't to be found.
///
/// # Errors
///
/// Those of the look-up. Nothing has changed.
#[inline(always)]
pub fn look_valid_at<S: Storage>(
    store: &mut S,
    key: &CacheKey,
    since: Option<Moment>,
    moment: Moment,
) -> Result<(Option<FoundAt<S::Hit>>, bool), StoreFault>
    ensures look { let k = combined (key_of key.now) in let shown = shows S.streams k (S.held store.old).store in
        IfOk result (λ found. IsValidFoundAt S.Hit.reader S.Hit.weight S.Hit.id S.weigh (S.ids store.old k) moment since shown (S.held store.old) found.0 (S.held store.new)) }
    ensures err { IfErr result (λ f. (f ≡ Fault.Memory) × (S.held store.new ≡ S.held store.old)) }
    ensures looked { OnErr result (is_some (shows S.streams (combined (key_of key.now)) (S.held store.old).store) ≡ true) }
    ensures none { let shown = shows S.streams (combined (key_of key.now)) (S.held store.old).store in IfOk result (λ found. found.1 ≡ is_none shown) }
    ensures ids { S.ids store.new ≡ S.ids store.old }
{
    if since.is_some() {
        let (found, nothing) = match look_valid(store, key, since) {
            Ok(found) => found,
            Err(fault) => return Err(fault),
        };
        return match found {
            Some((meta, hit)) => Ok((Some(told_at(moment, meta, hit)), nothing)),
            None => Ok((None, nothing)),
        };
    }
    match store.lookup_at(key, moment) {
        Ok(Some(found)) => Ok((Some(found), false)),
        Ok(None) => Ok((None, true)),
        Err(fault) => Err(fault),
    }
}
