//! Copies of metas.
ghost use Rattle.std.specs.Prelude.{◌≡◌, ◌↔◌, IfOk, IfErr, IfSome, IsTrue};
ghost use Rattle.head_metas.specs.Internal.{IsSinceEpoch, IsWritable};
ghost use Rattle.cache_store.specs.declared.storage.StoreFault.{StoreFault as Fault};
ghost use Rattle.cache_store.specs.Renewals.{Refused};
ghost use Rattle.store_memory.specs.Shown.{meta_shown};

use crate::counted_meta::CountedMeta;
use crate::flight::Reserved;
use cache_heads::CacheMeta;
use cache_store::storage::StoreFault;
use cache_words::key::HashBinary;
use cache_words::time::Moment;
use head_metas::versions::InternalMetaV2;
use head_packed::{HeldMeta, PackedMeta};
use std::alloc::{AllocError, Global};

/// The meta of what a look-up shows.
#[derive(Clone, Copy)]
pub enum ShownMeta<'a> {
    /// Of a write in flight.
    InFlight(&'a PackedMeta),
    /// Of a finished body.
    Finished(&'a PackedMeta),
}

impl ShownMeta<'_> {
    /// Returns a copy of the meta.
    ///
    /// # Errors
    ///
    /// `AllocError` where there is no memory for the head.
    pub fn to_meta(&self, alloc: Global) -> Result<CacheMeta, AllocError>
        ensures { IfOk result (λ meta. meta ≡ meta_shown self.now) }
    {
        match self {
            ShownMeta::InFlight(packed) | ShownMeta::Finished(packed) => packed.unpack(alloc),
        }
    }
}

/// A meta that was made ready to be put beside the body of a key.
#[derive(Drop)]
pub struct NewMeta {
    pub(crate) key: HashBinary,
    pub(crate) meta: CountedMeta,
}

// Returns whether a moment that may be absent is not before 1970.
fn is_since_epoch(moment: Option<Moment>) -> bool
    ensures { IsTrue result ↔ IfSome moment IsSinceEpoch }
{
    match moment {
        Some(moment) => !moment.is_before_epoch(),
        None => true,
    }
}

// Returns whether each moment can be written. It takes no memory, as writing would.
pub(crate) fn is_writable(internal: &InternalMetaV2) -> bool
    ensures { IsTrue result ↔ IsWritable internal.now }
{
    is_since_epoch(Some(internal.fresh_until))
        && is_since_epoch(Some(internal.created))
        && is_since_epoch(Some(internal.updated))
        && is_since_epoch(internal.epoch_override)
        && is_since_epoch(internal.provenance)
}

// Returns a meta that can be written, packed.
pub(crate) fn written_packed(alloc: Global, meta: &CacheMeta) -> Result<CountedMeta, StoreFault>
    ensures value { IfOk result (λ packed. (packed ≡ meta.now) × IsWritable meta.now.internal) }
    ensures fault { IfErr result (Refused meta.now) }
{
    if !is_writable(&meta.internal) {
        return Err(StoreFault::MetaMoment);
    }
    match CountedMeta::pack(alloc, meta) {
        Ok(packed) => Ok(packed),
        Err(_) => Err(StoreFault::Memory),
    }
}

// Returns the record of a body with a meta that can be written.
pub(crate) fn reserved_for(alloc: Global, meta: &CacheMeta) -> Result<Reserved, StoreFault>
    ensures value { IfOk result (λ reserved. (reserved ≡ meta.now) × IsWritable meta.now.internal) }
    ensures fault { IfErr result (Refused meta.now) }
{
    let packed = match written_packed(alloc, meta) {
        Ok(packed) => packed,
        Err(fault) => return Err(fault),
    };
    match Reserved::new(alloc, packed) {
        Ok(reserved) => Ok(reserved),
        Err(_) => Err(StoreFault::Memory),
    }
}

// Returns a packed meta, with its head read.
#[inline(always)]
pub(crate) fn unpacked(alloc: Global, packed: &PackedMeta) -> Result<CacheMeta, StoreFault>
    ensures value { IfOk result (λ meta. meta ≡ packed.now) }
    ensures fault { IfErr result (λ f. f ≡ Fault.Memory) }
{
    match packed.unpack(alloc) {
        Ok(meta) => Ok(meta),
        Err(_) => Err(StoreFault::Memory),
    }
}

// Returns a packed meta, with a share of its head.
#[inline(always)]
pub(crate) fn held(alloc: Global, packed: &PackedMeta) -> Result<HeldMeta, StoreFault>
    ensures value { IfOk result (λ meta. meta ≡ packed.now) }
    ensures fault { IfErr result (λ f. f ≡ Fault.Memory) }
{
    match packed.share(alloc) {
        Ok(meta) => Ok(meta),
        Err(_) => Err(StoreFault::Memory),
    }
}
