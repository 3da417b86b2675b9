//! The policy of admission of a cache that has none.
ghost use Rattle.std.specs.Prelude.{◌≡◌};
ghost use Rattle.cache_store.specs.declared.admission.Decision.TheVariants.{Ready};

use cache_store::admission::{AdmissionPolicy, Decision};
use cache_words::key::CacheKey;

/// The policy of a cache that has none: each response may be stored.
#[derive(Clone, Copy, PartialEq, Eq, Debug)]
pub struct NoPolicy;

impl AdmissionPolicy for NoPolicy {
    ghost decides = { λ _ _ decision. decision ≡ Ready 0 };

    fn observe(&self, _key: &CacheKey) -> Decision {
        Decision::Ready { observed: 0 }
    }
}
