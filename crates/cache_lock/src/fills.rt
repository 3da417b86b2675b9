//! Fills that a reader can't use, by the tokens under which writers publish them.
ghost use Rattle.std.specs.Prelude.{◌≡◌, option_copied};
ghost use Rattle.cache_lock.specs.Fills.{is_published, fill_among};
ghost use Rattle.cache_lock.specs.Outcomes.{status_of_outcome};

use crate::status::LockStatus;
use cache_heads::NoCacheReason;
use std::marker::Model;

/// A fill that a reader can't use.
#[derive(Clone, Copy, Debug, PartialEq, Eq)]
pub struct UnusableFill {
    /// What the writer publishes of it.
    pub token: u64,
    /// Why the reader can't use it.
    pub reason: &'static str,
}

/// The fills that a reader can't use. Of several that are published, the first in this order is reported.
#[derive(Clone, Debug, PartialEq, Eq, Drop)]
pub struct UnusableFills {
    fills: Vec<UnusableFill>,
}

impl UnusableFills {
    /// Returns these fills.
    pub fn new(fills: Vec<UnusableFill>) -> UnusableFills
        ensures { result.fills ≡ fills }
    {
        UnusableFills { fills }
    }

    /// Returns the fills.
    pub fn fills(&self) -> &[UnusableFill]
        ensures { result.now ≡ self.now.fills.items }
    {
        &self.fills
    }

    /// Returns the first fill whose token is published.
    pub fn first_match(&self, published: &[u64]) -> Option<UnusableFill>
        ensures { result ≡ fill_among published.now self.now.fills.items }
    {
        find_published(&self.fills, published).copied()
    }
}

// Whether the fill's token is published.
fn is_published(published: &[u64], fill: &UnusableFill) -> bool
    ensures { result ≡ is_published published.now fill.now }
{
    published.contains(&fill.token)
}

// The first fill whose token is published.
fn find_published<'a>(fills: &'a [UnusableFill], published: &[u64]) -> Option<&'a UnusableFill>
    ensures { option_copied result ≡ fill_among published.now fills.now }
{
    fills.iter().find(|fill| is_published(published, fill))
}

/// How a wait ended, as a poll found it.
#[derive(Clone, Copy, Debug, PartialEq, Eq)]
pub enum WaitOutcome {
    /// The permit has ended.
    Released,
    /// The permit is older than its age.
    AgeTimeout,
    /// The writer published a fill that the reader can't use.
    Abandoned(UnusableFill),
}

/// How a wait ended, as it is reported to the one who waited.
#[derive(Clone, Copy, Debug, PartialEq, Eq)]
pub enum LockWaitOutcome {
    /// The response is stored.
    Done,
    /// The writer failed, and another may not.
    TransientError,
    /// The permit was dropped.
    Dangling,
    /// The reader waited for its longest time.
    WaitTimeout,
    /// The permit is older than the lock's age.
    AgeTimeout,
    /// The response is not kept.
    GiveUp,
    /// The writer published a fill that the reader can't use.
    Abandoned {
        /// Why the reader can't use it.
        reason: NoCacheReason,
        /// What the writer published of it.
        token: u64,
    },
}

impl LockWaitOutcome {
    /// Returns the status of the same name; of `Abandoned` it is `GiveUp`.
    pub fn lock_status(&self) -> LockStatus
        ensures { result ≡ status_of_outcome self.now }
    {
        match self {
            LockWaitOutcome::Done => LockStatus::Done,
            LockWaitOutcome::TransientError => LockStatus::TransientError,
            LockWaitOutcome::Dangling => LockStatus::Dangling,
            LockWaitOutcome::WaitTimeout => LockStatus::WaitTimeout,
            LockWaitOutcome::AgeTimeout => LockStatus::AgeTimeout,
            LockWaitOutcome::GiveUp | LockWaitOutcome::Abandoned { .. } => LockStatus::GiveUp,
        }
    }
}

// The tokens that a writer published last.
#[derive(Debug, Drop)]
pub(crate) struct PublishedTokens {
    tokens: Vec<u64>,
}

impl Model for PublishedTokens {
    ghost use Rattle.std.specs.Prelude.{ℕ, List};

    ghost Value = { List ℕ };

    ghost view = { λ p. p.tokens.items };
}

impl PublishedTokens {
    pub(crate) fn new(tokens: Vec<u64>) -> PublishedTokens
        ensures { result ≡ tokens.items }
    {
        PublishedTokens { tokens }
    }

    pub(crate) fn tokens(&self) -> &[u64]
        ensures { result.now ≡ self.now }
    {
        &self.tokens
    }
}
