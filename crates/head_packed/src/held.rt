//! Metas whose heads are maps, or shares of what a cache keeps.
ghost use Rattle.std.specs.Prelude.{◌≡◌, IfOk};
ghost use Rattle.head_packed.specs.Held.{head_of};

use crate::SharedHead;
use cache_heads::CacheMeta;
use head_lines::ResponseHeader;
use head_metas::versions::InternalMetaV2;
use std::alloc::{AllocError, Global};
use std::marker::Model;

// A head as a map, or a share of one that is kept as text, with what it is read with.
#[derive(Drop)]
enum HeldHead {
    Whole(ResponseHeader),
    Shared(SharedHead, Global),
}

impl HeldHead {
    // Returns a copy of the head, with its map.
    fn unpack(&self) -> Result<ResponseHeader, AllocError>
        ensures { IfOk result (λ header. header ≡ head_of self.now) }
    {
        match self {
            HeldHead::Whole(header) => header.clone(),
            HeldHead::Shared(head, alloc) => head.unpack(*alloc),
        }
    }
}

/// A meta that is held: its head is a map, or a share of one that is kept as text, and is read only when it is asked for. A contract sees it
/// as the meta.
#[derive(Drop)]
pub struct HeldMeta {
    internal: InternalMetaV2,
    head: HeldHead,
    external: u64,
}

impl Model for HeldMeta {
    ghost use Rattle.cache_heads.specs.declared.meta.CacheMeta.{CacheMeta};
    ghost use Rattle.cache_heads.specs.contracts.meta.CacheMeta.{the_row};
    ghost use Rattle.head_packed.specs.Held.{head_of};

    ghost Value = { CacheMeta };

    ghost coded = { the_row.coded };

    ghost view = { λ m. record { internal = m.internal; header = head_of m.head; external = m.external } };
}

impl HeldMeta {
    /// Holds a meta as it is.
    pub fn whole(meta: CacheMeta) -> HeldMeta
        ensures { result ≡ meta }
    {
        let CacheMeta {
            internal,
            header,
            external,
        } = meta;
        HeldMeta {
            internal,
            head: HeldHead::Whole(header),
            external,
        }
    }

    // Holds a share of a head with moments and numbers.
    pub(crate) fn shared(
        alloc: Global,
        internal: InternalMetaV2,
        head: SharedHead,
        external: u64,
    ) -> HeldMeta
        ensures { result ≡ record { internal = internal; header = head; external = external } }
    {
        HeldMeta {
            internal,
            head: HeldHead::Shared(head, alloc),
            external,
        }
    }

    /// Returns the meta, as a copy whose head is a map.
    ///
    /// # Errors
    ///
    /// `AllocError` where there is no memory for the head.
    pub fn unpack(&self) -> Result<CacheMeta, AllocError>
        ensures { IfOk result (λ meta. meta ≡ self.now) }
    {
        match self.head.unpack() {
            Ok(header) => Ok(CacheMeta {
                internal: self.internal,
                header,
                external: self.external,
            }),
            Err(fault) => Err(fault),
        }
    }

    /// Returns its moments and numbers.
    pub fn internal(&self) -> InternalMetaV2
        ensures { result ≡ self.now.internal }
    {
        self.internal
    }

    /// Returns how many bytes the body has outside the cache.
    pub fn external(&self) -> u64
        ensures { result ≡ self.now.external }
    {
        self.external
    }
}
