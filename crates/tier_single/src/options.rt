//! What a tier is made with.

use cache_words::time::Duration;

/// What a tier was made with: the arguments of `Tier::new`.
#[derive(Clone, Copy, PartialEq, Eq, Debug)]
pub struct TierOptions {
    /// The most that the entries may weigh together: each the bytes of its body, those of its meta as it is written, and those that the body
    /// has outside the tier.
    pub limit: usize,
    /// The most entries there may be; any number if `None`.
    pub watermark: Option<usize>,
    /// How long others wait for one permit to write.
    pub age: Duration,
    /// How long a request waits for permits in all; without bound if `None`.
    pub wait: Option<Duration>,
}
