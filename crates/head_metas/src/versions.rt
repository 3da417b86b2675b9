//! The moments and numbers of a meta, in the three forms that caches have written. Memory holds the latest alone.
ghost use Rattle.head_metas.specs.Versions.{of_early};

use cache_words::key::HashBinary;
use cache_words::time::Moment;

/// The first two forms, which have the same fields. The first is written without a version.
#[derive(Clone, Copy, Debug, PartialEq, Eq)]
pub struct EarlyInternalMeta<const VERSION: u8> {
    /// The last moment at which the response is fresh.
    pub fresh_until: Moment,
    /// When the response was stored.
    pub created: Moment,
    /// For how many seconds it is served stale while it is validated.
    pub stale_while_revalidate_sec: u32,
    /// For how many seconds it is served stale on errors.
    pub stale_if_error_sec: u32,
}

/// The first form.
pub type InternalMetaV0 = EarlyInternalMeta<0>;

/// The second form.
pub type InternalMetaV1 = EarlyInternalMeta<1>;

impl EarlyInternalMeta<1> {
    /// The version of this form.
    pub const VERSION: u8 = 1;
}

/// The latest form.
#[derive(Clone, Copy, Debug, PartialEq, Eq)]
pub struct InternalMetaV2 {
    /// The last moment at which the response is fresh.
    pub fresh_until: Moment,
    /// When the response was stored.
    pub created: Moment,
    /// When it was stored or last revalidated.
    pub updated: Moment,
    /// For how many seconds it is served stale while it is validated.
    pub stale_while_revalidate_sec: u32,
    /// For how many seconds it is served stale on errors.
    pub stale_if_error_sec: u32,
    /// Which variant of the response this is, where it varies.
    pub variance: Option<HashBinary>,
    /// The moment from which its age counts; `updated` where there is none.
    pub epoch_override: Option<Moment>,
    /// The timestamp that hit filters compare with, which a refresh keeps; `created` where there is none.
    pub provenance: Option<Moment>,
}

impl InternalMetaV2 {
    /// The version of this form.
    pub const VERSION: u8 = 2;
}

impl<const VERSION: u8> From<EarlyInternalMeta<VERSION>> for InternalMetaV2 {
    ghost use Rattle.std.specs.Prelude.{◌≡◌};

    ghost from_gives = { λ early meta. meta ≡ of_early VERSION early };

    fn from(early: EarlyInternalMeta<VERSION>) -> InternalMetaV2 {
        InternalMetaV2 {
            fresh_until: early.fresh_until,
            created: early.created,
            updated: early.created,
            stale_while_revalidate_sec: early.stale_while_revalidate_sec,
            stale_if_error_sec: early.stale_if_error_sec,
            variance: None,
            epoch_override: None,
            provenance: None,
        }
    }
}
