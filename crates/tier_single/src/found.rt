//! What is found, with a share of its head.
ghost use Rattle.std.specs.Prelude.{◌≡◌, IsSome, IfOk, MatchResult, option_map};
ghost use Rattle.store_memory.specs.Shown.{meta_shown};
ghost use Rattle.tier_model.specs.Shelf.{look};
ghost use Rattle.tier_requests.specs.Shelves.{shelf_of};
ghost use Rattle.tier_single.specs.Hits.{meta_of, hit_at, weighed_hit, weighed_body};

use bytes::Bytes;
use cache_words::key::HashBinary;
use cache_words::time::Moment;
use head_metas::versions::InternalMetaV2;
use head_packed::SharedHead;
use std::alloc::AllocError;
use std::hash::BuildHasher;
use store_memory::{MemCache, PackedMeta, ShownMeta};

/// The meta of what was found: its head, of which it is a share, its moments and numbers, and how many bytes its body has outside the tier. It
/// stays whatever becomes of the key.
#[derive(Drop)]
pub struct FoundMeta {
    pub head: SharedHead,
    pub internal: InternalMetaV2,
    pub external: u64,
}

/// A whole body that was fresh, with its meta. Its bytes are those of the store, and aren't copied.
#[derive(Drop)]
pub struct Hit {
    pub body: Bytes,
    pub meta: FoundMeta,
}

// Returns a share of a meta.
fn shared(packed: &PackedMeta) -> Result<FoundMeta, AllocError>
    ensures { IfOk result (λ meta. meta_of meta ≡ packed.now) }
{
    match packed.head().clone() {
        Ok(head) => Ok(FoundMeta {
            head,
            internal: packed.internal(),
            external: packed.external(),
        }),
        Err(fault) => Err(fault),
    }
}

// Returns a share of the meta that is shown.
pub(crate) fn shared_of(shown: ShownMeta<'_>) -> Result<FoundMeta, AllocError>
    ensures { IfOk result (λ meta. meta_of meta ≡ meta_shown shown.entry) }
{
    match shown {
        ShownMeta::InFlight(packed) | ShownMeta::Finished(packed) => shared(packed),
    }
}

// Returns a share of a body and of its meta.
fn hit_of(packed: &PackedMeta, bytes: &Bytes) -> Result<Hit, AllocError>
    ensures { IfOk result (λ hit. (meta_of hit.meta ≡ packed.now) × (hit.body ≡ bytes.now)) }
{
    let body = bytes.clone()?;
    match shared(packed) {
        Ok(meta) => Ok(Hit { body, meta }),
        Err(fault) => Err(fault),
    }
}

// Returns the body that a look-up of a key finds, if it is whole and fresh at a moment, and what it weighs.
pub(crate) fn fresh_body<S: BuildHasher>(
    store: &MemCache<S>,
    key: &HashBinary,
    moment: Moment,
) -> Result<Option<(Hit, usize)>, AllocError>
    ensures { MatchResult result (λ found. option_map weighed_hit found ≡ option_map weighed_body (hit_at moment (look key.now (shelf_of store.now))))
        (λ _. IsSome (hit_at moment (look key.now (shelf_of store.now)))) }
{
    let Some((packed, bytes, weight)) = store.shown_body(key) else {
        return Ok(None);
    };
    if !moment.is_at_most(&packed.fresh_until()) {
        return Ok(None);
    }
    match hit_of(packed, bytes) {
        Ok(hit) => Ok(Some((hit, weight))),
        Err(fault) => Err(fault),
    }
}
