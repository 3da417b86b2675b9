//! Which reasons of the user's own are not remembered.
ghost use Rattle.std.specs.Prelude.{◌≡◌, ℕ, List, Bool, false};

/// Which custom reasons are skipped.
pub trait CustomReasonPredicate {
    // Whether a text is skipped.
    ghost skips: { Self → List ℕ → Bool };

    /// Whether a custom reason of that text is not remembered.
    fn is_skipped(&self, reason: &'static str) -> bool
        ensures { result ≡ skips self.now reason.now };
}

/// Each custom reason is remembered.
#[derive(Clone, Copy, Debug, PartialEq, Eq)]
pub struct NothingSkipped {}

impl CustomReasonPredicate for NothingSkipped {
    ghost skips = { λ _ _. false };

    fn is_skipped(&self, _reason: &'static str) -> bool {
        false
    }
}
