//! What a caller may say of a response in place of the judgement by its lines.
ghost use Rattle.std.specs.Prelude.{◌≡◌, ◌<◌, ◌^◌, nat_lt, if◌then◌else◌, Some, None};
ghost use Rattle.cache_heads.specs.Meta.{new_given};

use crate::outside::Outside;
use cache_words::time::Moment;

/// All of a meta but the head and what is set later: until when a response is fresh, whatever its
/// own lines say, and how many bytes its body has outside the cache.
#[derive(Clone, Copy, PartialEq, Eq, Debug)]
pub struct GivenMeta {
    /// Until when the response is fresh, this moment too.
    pub fresh_until: Moment,
    /// When it came.
    pub created: Moment,
    /// When it came or was last validated.
    pub updated: Moment,
    /// When the stored object to which it goes back came.
    pub provenance: Moment,
    /// For how many seconds it may be served stale while it is validated.
    pub stale_while_revalidate_sec: u32,
    /// For how many seconds it may be served stale on errors.
    pub stale_if_error_sec: u32,
    external: Outside,
}

impl GivenMeta {
    /// Makes what is said of a response that came at `created` and is fresh until `fresh_until`,
    /// as `CacheMeta::new`: with nothing outside.
    pub fn new(
        fresh_until: Moment,
        created: Moment,
        stale_while_revalidate_sec: u32,
        stale_if_error_sec: u32,
    ) -> GivenMeta
        ensures { result ≡ new_given fresh_until created stale_while_revalidate_sec stale_if_error_sec }
    {
        GivenMeta {
            fresh_until,
            created,
            updated: created,
            provenance: created,
            stale_while_revalidate_sec,
            stale_if_error_sec,
            external: Outside::nothing(),
        }
    }

    /// The same of a body that has so many bytes outside the cache, which count in its weight; `None` from 2^62 on, where no weight could be
    /// counted.
    pub fn with_external(self, external: u64) -> Option<GivenMeta>
        ensures { result ≡ (if nat_lt external (2 ^ 62) then Some (record self { external = external }) else None) }
    {
        match Outside::new(external) {
            Some(external) => Some(GivenMeta { external, ..self }),
            None => None,
        }
    }

    /// How many bytes the body has outside the cache.
    pub fn external(&self) -> u64
        ensures value { result ≡ self.now.external }
        ensures below { result < 2 ^ 62 }
    {
        self.external.count()
    }
}
