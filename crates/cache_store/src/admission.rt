//! Which responses are admitted to the cache.
ghost use Rattle.std.specs.Prelude.{◌≡◌, ◌↔◌, IsTrue};
ghost use Rattle.cache_words.specs.Key.{Key, key_of};
ghost use Rattle.cache_store.specs.Admission.{observations, IsDeferred};

use cache_words::key::CacheKey;

/// What a policy says of a key, with how often it has observed it.
#[derive(Clone, Copy, PartialEq, Eq, Debug)]
pub enum Decision {
    /// Not yet.
    Defer {
        /// How often the key was observed.
        observed: u32,
    },
    /// The response may be stored.
    Ready {
        /// How often the key was observed.
        observed: u32,
    },
}

impl Decision {
    /// Returns how often the key was observed.
    pub fn observed(self) -> u32
        ensures { result ≡ observations self }
    {
        match self {
            Decision::Defer { observed } | Decision::Ready { observed } => observed,
        }
    }

    /// Returns whether the response is not to be stored yet.
    pub fn is_deferred(self) -> bool
        ensures { IsTrue result ↔ IsDeferred self }
    {
        matches!(self, Decision::Defer { .. })
    }
}

/// Decides whether a key is asked for often enough that its response is stored.
///
/// What a policy may decide of a key is the member: of one that decides by the key alone that is one decision. Of one that counts through the
/// shared borrow, as by atomics, which no contract sees, it is each that the count may lead to.
pub trait AdmissionPolicy {
    ghost use Rattle.cache_store.specs.declared.admission.Decision.{Decision};

    // Holds of a decision that the policy may give of a key.
    ghost decides: { Self → Key → Decision → Type 0 };

    /// Notes that the key was asked for, and decides.
    fn observe(&self, key: &CacheKey) -> Decision
        ensures { decides self.now (key_of key.now) result };
}

/// Any policy, in a box.
pub type BoxedPolicy = Box<dyn AdmissionPolicy + Send + Sync + Drop>;

impl AdmissionPolicy for BoxedPolicy {
    ghost decides = { λ b. (AdmissionPolicy-box b).decides b.value };

    fn observe(&self, key: &CacheKey) -> Decision {
        (**self).observe(key)
    }
}
