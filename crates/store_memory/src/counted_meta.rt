//! Metas that are kept beside bodies.
ghost use Rattle.std.specs.Prelude.{◌≡◌, ◌+◌, ◌<◌, ◌≤◌, ◌^◌, ◌<ℤ◌, ◌≤ℤ◌, pos, nat_abs, length, IfOk, IfSome};
ghost use Rattle.cache_words.specs.Forms.{shortest, numbers};
ghost use Rattle.cache_words.specs.Items.{optional_moment_of};
ghost use Rattle.cache_words.specs.Pack.{moment_of};
ghost use Rattle.cache_words.specs.Time.{second};
ghost use Rattle.head_metas.specs.Head.{written_head};
ghost use Rattle.head_metas.specs.Internal.{IsSinceEpoch, IsWritable, item_count, provenance_of, written_meta};
ghost use Rattle.cache_heads.specs.Meta.{meta_length, meta_weight};
ghost use Rattle.cache_store.specs.Renewals.{expired};

use crate::meta::is_writable;
use cache_heads::CacheMeta;
use cache_words::time::Moment;
use head_metas::internal;
use head_metas::versions::InternalMetaV2;
use head_packed::PackedMeta;
use std::alloc::{AllocError, Global};
use std::marker::Model;

// Fewer bytes than these are kept of a body, a head takes fewer as it is written, and a body has fewer outside: so each body can be weighed
// with each meta, and a meta that was made ready for one body can be put beside the next.
pub(crate) const TOO_LONG: usize = 1 << 62;

// A packed meta whose head isn't too long and whose body hasn't too much outside, with what it weighs: a look-up needs not count that.
#[derive(Drop)]
pub(crate) struct CountedMeta {
    meta: PackedMeta,
    weight: usize,
}

impl Model for CountedMeta {
    ghost use Rattle.std.specs.Prelude.{◌≡◌, ◌+◌, ◌<◌, ◌^◌, length};
    ghost use Rattle.head_metas.specs.Head.{written_head};
    ghost use Rattle.cache_heads.specs.Meta.{meta_weight};
    ghost use Rattle.cache_heads.specs.declared.meta.CacheMeta.{CacheMeta};
    ghost use Rattle.cache_heads.specs.contracts.meta.CacheMeta.{the_row};

    ghost Value = { CacheMeta };

    ghost coded = { the_row.coded };

    ghost view = { λ m. m.meta };

    ghost invariant = { λ m. (length (written_head m.meta.header) < 2 ^ 62) × (m.meta.external < 2 ^ 62) × (m.weight ≡ meta_weight m.meta) × (m.weight < 2 ^ 63 + 2 ^ 62) };
}

impl CountedMeta {
    // Packs a meta.
    pub(crate) fn pack(alloc: Global, meta: &CacheMeta) -> Result<CountedMeta, AllocError>
        ensures { IfOk result (λ counted. counted ≡ meta.now) }
    {
        match PackedMeta::pack(alloc, meta) {
            Ok(packed) => CountedMeta::of(packed),
            Err(fault) => Err(fault),
        }
    }

    // Keeps a meta that is packed, unless it weighs too much.
    fn of(meta: PackedMeta) -> Result<CountedMeta, AllocError>
        ensures { IfOk result (λ counted. counted ≡ meta) }
    {
        if meta.head_len() < TOO_LONG && meta.external() < TOO_LONG as u64 {
            let weight = weight_of(&meta);
            Ok(CountedMeta { meta, weight })
        } else {
            Err(AllocError)
        }
    }

    // Lends the packed meta.
    pub(crate) fn packed(&self) -> &PackedMeta
        ensures { result.now ≡ self.now }
    {
        &self.meta
    }

    // Returns what it weighs.
    pub(crate) fn weight(&self) -> usize
        ensures weight { result ≡ meta_weight self.now }
        ensures most { result < 2 ^ 63 + 2 ^ 62 }
    {
        self.weight
    }

    // Returns how many bytes its two halves take as they are written.
    pub(crate) fn len(&self) -> usize
        ensures { result ≡ meta_length self.now }
    {
        self.weight - self.meta.external() as usize
    }

    // Ends freshness at a moment, unless it ends earlier.
    pub(crate) fn expire_at(&mut self, moment: Moment)
        ensures { self.new ≡ expired moment self.old }
    {
        self.meta.expire_at(moment);
        self.weight = weight_of(&self.meta);
    }
}

// Counts what a packed meta weighs: what its body has outside, and the bytes of its halves as they are written.
fn weight_of(meta: &PackedMeta) -> usize
    requires head { length (written_head meta.now.header) < 2 ^ 62 }
    requires outside { meta.now.external < 2 ^ 62 }
    ensures weight { result ≡ meta_weight meta.now }
    ensures most { result < 2 ^ 63 + 2 ^ 62 }
{
    meta.external() as usize + written_len(meta)
}

// Counts the bytes of both halves of a packed meta as they are written.
fn written_len(meta: &PackedMeta) -> usize
    requires { length (written_head meta.now.header) < 2 ^ 62 }
    ensures len { result ≡ meta_length meta.now }
    ensures most { result < 2 ^ 63 }
{
    internal_len(&meta.internal()) + meta.head_len()
}

// Returns how many bytes moments and numbers take as they are written: of a moment before 1970, at which a body may have gone stale,
// as many as of one as far behind it.
fn internal_len(meta: &InternalMetaV2) -> usize
    ensures len { result ≡ length (written_meta meta.now) }
    ensures most { result ≤ 122 }
{
    if is_writable(meta) {
        internal::written_len(meta)
    } else {
        internal::written_len(&mirrored_meta(meta))
    }
}

// Returns a meta that can be written and takes as many bytes.
fn mirrored_meta(meta: &InternalMetaV2) -> InternalMetaV2
    ensures writable { IsWritable result }
    ensures len { length (written_meta result) ≡ length (written_meta meta.now) }
{
    InternalMetaV2 {
        fresh_until: mirrored(meta.fresh_until),
        created: mirrored(meta.created),
        updated: mirrored(meta.updated),
        stale_while_revalidate_sec: meta.stale_while_revalidate_sec,
        stale_if_error_sec: meta.stale_if_error_sec,
        variance: meta.variance,
        epoch_override: mirrored_option(meta.epoch_override),
        provenance: mirrored_option(meta.provenance),
    }
}

// The same of a moment that may be absent.
fn mirrored_option(moment: Option<Moment>) -> Option<Moment>
    ensures since { IfSome result IsSinceEpoch }
    ensures count { item_count result ≡ item_count moment }
    ensures nil { length (optional_moment_of result) ≡ length (optional_moment_of moment) }
    ensures there { length (provenance_of result) ≡ length (provenance_of moment) }
{
    match moment {
        Some(moment) => Some(mirrored(moment)),
        None => None,
    }
}

// Returns a moment since 1970 that takes as many bytes: one before it is put as many seconds after it.
fn mirrored(moment: Moment) -> Moment
    ensures since { IsSinceEpoch result }
    ensures len { length (moment_of result) ≡ length (moment_of moment) }
{
    if !moment.is_before_epoch() {
        return moment;
    }
    moment_at(opposite(moment.seconds()), moment.nanoseconds())
}

// Returns the moment of these seconds and nanoseconds.
fn moment_at(seconds: i64, nanoseconds: u32) -> Moment
    requires { nanoseconds < second }
    ensures { result ≡ record { seconds = seconds; nanoseconds = nanoseconds } }
{
    Moment::new(seconds, nanoseconds).unwrap()
}

// Returns a number that takes as many bytes as a negative one without its sign; the greatest where none is as far from 0.
fn opposite(seconds: i64) -> i64
    requires { seconds <ℤ pos 0 }
    ensures since { pos 0 ≤ℤ result }
    ensures len { length (shortest numbers (nat_abs result)) ≡ length (shortest numbers (nat_abs seconds)) }
{
    match seconds {
        i64::MIN => i64::MAX,
        _ => -seconds,
    }
}
