//! Metas as bytes.
ghost use Rattle.std.specs.Prelude.{◌≡◌, ◌≢◌, ◌↔◌, ◌≤◌, ◌^◌, Ok, Err, IfOk, OnOk, IfSome, IfNone, IsErrOf};
ghost use Rattle.head_metas.specs.Head.{IsCountable, written_head};
ghost use Rattle.head_metas.specs.HeadReading.{Gives};
ghost use Rattle.head_metas.specs.Internal.{IsWritable, written_meta};
ghost use Rattle.cache_heads.specs.declared.meta.CacheMeta.{CacheMeta};
ghost use Rattle.cache_heads.specs.Meta.{meta_length};
ghost use Rattle.cache_heads.specs.MetaBytes.{BeginWithMeta, cache_meta_at};

use crate::meta::CacheMeta;
use head_metas::fault::{MetaFault, MetaReadFault};
use head_metas::{head, internal};
use std::alloc::Global;

impl CacheMeta {
    /// Returns the meta as two byte strings: its moments and numbers, and its head. `external` is
    /// left out: it's 0 in the meta that is read again.
    ///
    /// # Errors
    ///
    /// `MetaMoment` exactly where one of its moments is before 1970. `Memory` when out of memory,
    /// and where the head has 2^32 values, or a value of 2^32 bytes: no form counts these.
    pub fn serialize(&self, alloc: Global) -> Result<(Vec<u8>, Vec<u8>), MetaFault>
        ensures internal { IfOk result (λ halves. halves.0.items ≡ written_meta self.now.internal) }
        ensures header { IfOk result (λ halves. halves.1.items ≡ written_head self.now.header) }
        ensures counted { OnOk result (IsCountable self.now.header.headers) }
        ensures moment { IsErrOf result MetaFault.MetaMoment ↔ ¬ (IsWritable self.now.internal) }
        ensures writable { result ≢ Err MetaFault.MetaMoment → IsWritable self.now.internal }
    {
        let internal = internal::write(alloc, &self.internal)?;
        let header = head::write(alloc, &self.header)?;
        Ok((internal, header))
    }

    /// Returns how many bytes the two halves take as they are written; none where a `usize` can't count them.
    pub fn written_len(&self) -> Option<usize>
        requires { IsWritable self.now.internal }
        ensures some { IfSome result (λ n. n ≡ meta_length self.now) }
        ensures none { IfNone result (2 ^ 64 ≤ meta_length self.now) }
    {
        head::written_len(&self.header)?.checked_add(internal::written_len(&self.internal))
    }

    /// Returns the meta whose halves these bytes begin with, with nothing outside.
    ///
    /// # Errors
    ///
    /// The first fault from the left, of the moments and numbers before the head's; or `Memory`
    /// when out of memory for the head.
    pub fn deserialize(
        alloc: Global,
        internal: &[u8],
        header: &[u8],
    ) -> Result<CacheMeta, MetaReadFault>
        ensures found { IfOk result (BeginWithMeta internal.now header.now) }
        ensures only { (m : CacheMeta) → BeginWithMeta internal.now header.now m → Gives {X = CacheMeta} result (Ok m) }
        ensures exact { Gives result (cache_meta_at internal.now header.now) }
    {
        let internal = internal::read(internal)?;
        let header = head::read(alloc, header)?;
        Ok(CacheMeta {
            internal,
            header,
            external: 0,
        })
    }
}
