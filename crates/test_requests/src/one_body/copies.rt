//! Copies of metas.
ghost use Rattle.std.specs.Prelude.{◌≡◌, ◌↔◌, IfOk, IfErr, IfSome, IsTrue};
ghost use Rattle.head_metas.specs.Internal.{IsSinceEpoch, IsWritable};
ghost use Rattle.cache_store.specs.Renewals.{Refused};
ghost use Rattle.cache_store.specs.declared.storage.StoreFault.{StoreFault as Fault};

use cache_heads::CacheMeta;
use cache_store::storage::StoreFault;
use cache_words::time::Moment;
use head_metas::versions::InternalMetaV2;

pub(crate) fn copy_of(meta: &CacheMeta) -> Result<CacheMeta, StoreFault>
    ensures value { IfOk result (λ copy. copy ≡ meta.now) }
    ensures fault { IfErr result (λ f. f ≡ Fault.Memory) }
{
    match meta.response_header_copy() {
        Ok(header) => Ok(CacheMeta {
            internal: meta.internal,
            header,
            external: meta.external,
        }),
        Err(_) => Err(StoreFault::Memory),
    }
}

// Returns whether a moment that may be absent is not before 1970.
fn is_since_epoch(moment: Option<Moment>) -> bool
    ensures { IsTrue result ↔ IfSome moment IsSinceEpoch }
{
    match moment {
        Some(moment) => !moment.is_before_epoch(),
        None => true,
    }
}

fn is_writable(internal: &InternalMetaV2) -> bool
    ensures { IsTrue result ↔ IsWritable internal.now }
{
    is_since_epoch(Some(internal.fresh_until))
        && is_since_epoch(Some(internal.created))
        && is_since_epoch(Some(internal.updated))
        && is_since_epoch(internal.epoch_override)
        && is_since_epoch(internal.provenance)
}

pub(crate) fn written_copy(meta: &CacheMeta) -> Result<CacheMeta, StoreFault>
    ensures value { IfOk result (λ copy. (copy ≡ meta.now) × IsWritable meta.now.internal) }
    ensures fault { IfErr result (Refused meta.now) }
{
    if is_writable(&meta.internal) {
        copy_of(meta)
    } else {
        Err(StoreFault::MetaMoment)
    }
}
