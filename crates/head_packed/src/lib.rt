//! Metas of responses, packed: a cache keeps many, and a head takes several times less memory as text than as a map of fields, and can be
//! shared.
//!
//! A contract sees a `PackedMeta` as the meta that it was packed from.
//!
//! Its contract is that of `PackedMeta::unpack`: it returns just that meta, or out of memory. `PackedMeta::head` lends the head, of which a
//! clone is a share.
//! `store_memory` keeps a packed meta with each body. `PackedMeta::share` gives a `HeldMeta`, which holds a share of the head, so that who
//! looks at a meta need not unpack it.
#![tactic(auto)]

ghost use Rattle.std.specs.Prelude.{◌≡◌, ◌≤◌, ◌^◌, length, true, IsOk, IfOk, IfSome, IfNone};
ghost use Rattle.cache_heads.specs.Fresh.{earlier_of};
ghost use Rattle.cache_heads.specs.Meta.{meta_length};
ghost use Rattle.head_metas.specs.Head.{written_head};
ghost use Rattle.head_metas.specs.Internal.{IsWritable};
ghost use Rattle.head_packed.specs.Packed.{in_short, kept_meta};

use cache_heads::CacheMeta;
use cache_words::time::Moment;
use head_metas::internal;
use head_metas::versions::InternalMetaV2;
pub use held::HeldMeta;
pub use shared::SharedHead;
use std::alloc::{AllocError, Global};
use std::marker::Model;

mod copying;
mod held;
mod shared;
mod text;

// A meta that was stored once, of a body with nothing outside: its update and its provenance are its creation, no other moment is its
// epoch, and it varies by nothing. Its head is packed.
#[derive(Drop)]
struct ShortMeta {
    fresh_until: Moment,
    created: Moment,
    stale_while_revalidate_sec: u32,
    stale_if_error_sec: u32,
    head: SharedHead,
}

// Any other meta.
#[derive(Drop)]
struct AnyMeta {
    internal: InternalMetaV2,
    head: SharedHead,
    external: u64,
}

// What is kept: one tag for moments and head, since each enum has a tag of 8 bytes.
#[derive(Drop)]
enum Kept {
    Short(ShortMeta),
    Any(Box<AnyMeta>),
}

/// A meta in little memory: its head is kept as text. A contract sees it as the meta.
#[derive(Drop)]
pub struct PackedMeta {
    kept: Kept,
}

impl Model for PackedMeta {
    ghost use Rattle.cache_heads.specs.declared.meta.CacheMeta.{CacheMeta};
    ghost use Rattle.cache_heads.specs.contracts.meta.CacheMeta.{the_row};
    ghost use Rattle.head_packed.specs.Packed.{kept_meta};

    ghost Value = { CacheMeta };

    ghost coded = { the_row.coded };

    ghost view = { λ m. kept_meta m.kept };
}

// Whether moments and numbers, of a body that has so much outside, can be kept in short.
fn is_short(internal: &InternalMetaV2, external: u64) -> bool
    ensures short { result ≡ true → (internal.now ≡ in_short internal.now) × (external ≡ 0) }
    ensures whole { internal.now ≡ in_short internal.now → external ≡ 0 → result ≡ true }
{
    let was_created = match internal.provenance {
        Some(provenance) => provenance == internal.created,
        None => false,
    };
    was_created
        && internal.updated == internal.created
        && internal.epoch_override.is_none()
        && internal.variance.is_none()
        && external == 0
}

impl Kept {
    // Keeps moments and numbers with a head, and what the body has outside.
    fn of(
        alloc: Global,
        internal: &InternalMetaV2,
        head: SharedHead,
        external: u64,
    ) -> Result<Kept, AllocError>
        ensures kept { IfOk result (λ kept. kept_meta kept ≡ record { internal = internal.now; header = head; external = external }) }
        ensures short { internal.now ≡ in_short internal.now → external ≡ 0 → IsOk result }
    {
        if is_short(internal, external) {
            return Ok(Kept::Short(ShortMeta {
                fresh_until: internal.fresh_until,
                created: internal.created,
                stale_while_revalidate_sec: internal.stale_while_revalidate_sec,
                stale_if_error_sec: internal.stale_if_error_sec,
                head,
            }));
        }
        let any = AnyMeta {
            internal: *internal,
            head,
            external,
        };
        match Box::new(alloc, any) {
            Ok(boxed) => Ok(Kept::Any(boxed)),
            Err(_) => Err(AllocError),
        }
    }

    // Returns the moments and numbers.
    fn internal(&self) -> InternalMetaV2
        ensures { result ≡ (kept_meta self.now).internal }
    {
        match self {
            Kept::Short(short) => InternalMetaV2 {
                fresh_until: short.fresh_until,
                created: short.created,
                updated: short.created,
                stale_while_revalidate_sec: short.stale_while_revalidate_sec,
                stale_if_error_sec: short.stale_if_error_sec,
                variance: None,
                epoch_override: None,
                provenance: Some(short.created),
            },
            Kept::Any(any) => any.internal,
        }
    }

    // Returns how many bytes the body has outside.
    fn external(&self) -> u64
        ensures { result ≡ (kept_meta self.now).external }
    {
        match self {
            Kept::Short(_) => 0,
            Kept::Any(any) => any.external,
        }
    }

    // Lends the head.
    fn head(&self) -> &SharedHead
        ensures { result.now ≡ (kept_meta self.now).header }
    {
        match self {
            Kept::Short(short) => &short.head,
            Kept::Any(any) => &any.head,
        }
    }

    // Returns until when it is fresh.
    fn fresh_until(&self) -> Moment
        ensures { result ≡ (kept_meta self.now).internal.fresh_until }
    {
        match self {
            Kept::Short(short) => short.fresh_until,
            Kept::Any(any) => any.internal.fresh_until,
        }
    }

    // Sets until when it is fresh.
    fn set_fresh_until(&mut self, moment: Moment)
        ensures { kept_meta self.new ≡ record (kept_meta self.old) { internal = record (kept_meta self.old).internal { fresh_until = moment } } }
    {
        match self {
            Kept::Short(short) => short.fresh_until = moment,
            Kept::Any(any) => any.internal.fresh_until = moment,
        }
    }
}

impl PackedMeta {
    /// Packs a meta. Its head is kept as text, which shares no buffer with the meta's fields. Where a value is marked as sensitive, or
    /// the head has more than 256 names, the fields are kept too; those of more than 256 names share their buffers.
    ///
    /// # Errors
    ///
    /// `AllocError` where memory runs out, or where a `usize` can't count the bytes of the head as it is written.
    pub fn pack(alloc: Global, meta: &CacheMeta) -> Result<PackedMeta, AllocError>
        ensures { IfOk result (λ packed. packed ≡ meta.now) }
    {
        let head = SharedHead::pack(alloc, &meta.header)?;
        let kept = Kept::of(alloc, &meta.internal, head, meta.external)?;
        Ok(PackedMeta { kept })
    }

    /// Returns its moments and numbers.
    pub fn internal(&self) -> InternalMetaV2
        ensures { result ≡ self.now.internal }
    {
        self.kept.internal()
    }

    /// Returns how many bytes the body has outside the cache.
    pub fn external(&self) -> u64
        ensures { result ≡ self.now.external }
    {
        self.kept.external()
    }

    /// Returns until when the response is fresh.
    pub fn fresh_until(&self) -> Moment
        ensures { result ≡ self.now.internal.fresh_until }
    {
        self.kept.fresh_until()
    }

    /// Lends its head. A clone of it is a share.
    pub fn head(&self) -> &SharedHead
        ensures { result.now ≡ self.now.header }
    {
        self.kept.head()
    }

    /// Returns how many bytes its head takes as it is written.
    pub fn head_len(&self) -> usize
        ensures { result ≡ length (written_head self.now.header) }
    {
        self.kept.head().len()
    }

    /// Returns how many bytes its two halves take as they are written; none where a `usize` can't count them.
    pub fn written_len(&self) -> Option<usize>
        requires { IsWritable self.now.internal }
        ensures some { IfSome result (λ n. n ≡ meta_length self.now) }
        ensures none { IfNone result (2 ^ 64 ≤ meta_length self.now) }
    {
        self.kept
            .head()
            .len()
            .checked_add(internal::written_len(&self.kept.internal()))
    }

    /// Returns the meta, with its head read.
    ///
    /// # Errors
    ///
    /// `AllocError` where there is no memory for the head.
    pub fn unpack(&self, alloc: Global) -> Result<CacheMeta, AllocError>
        ensures { IfOk result (λ meta. meta ≡ self.now) }
    {
        let header = self.kept.head().unpack(alloc)?;
        let internal = self.kept.internal();
        let external = self.kept.external();
        Ok(CacheMeta {
            internal,
            header,
            external,
        })
    }

    /// Returns the meta with a share of its head. It takes no memory for the head.
    ///
    /// # Errors
    ///
    /// `AllocError` where there are too many shares.
    pub fn share(&self, alloc: Global) -> Result<HeldMeta, AllocError>
        ensures { IfOk result (λ meta. meta ≡ self.now) }
    {
        match self.kept.head().clone() {
            Ok(head) => Ok(HeldMeta::shared(
                alloc,
                self.kept.internal(),
                head,
                self.kept.external(),
            )),
            Err(fault) => Err(fault),
        }
    }

    /// Ends freshness at a moment, unless it ends earlier.
    pub fn expire_at(&mut self, moment: Moment)
        ensures { self.new ≡ record self.old { internal = record self.old.internal { fresh_until = earlier_of self.old.internal.fresh_until moment } } }
    {
        if !self.kept.fresh_until().is_at_most(&moment) {
            self.kept.set_fresh_until(moment);
        }
    }
}
