//! A new tier and its events in one call: the promise from the beginning.
ghost use Rattle.std.specs.Prelude.{◌<◌, IfOk};
ghost use Rattle.tier_promise.specs.Promise.{Keeps};

use crate::tier::Tier;
use cache_words::time::Duration;
use rand_core::Rng;
use std::alloc::Global;
use tier_model::event::{Answer, Event, TierFault};
use tier_requests::faults::nothing_done;

/// Gives events to a new tier, and returns what it answers: these outcomes keep the promise, by whatever events.
///
/// # Errors
///
/// `Memory` where there is no memory for the tier or for the outcomes; what single events run out of is an outcome.
pub fn answers<const N: usize, R: Rng>(
    alloc: Global,
    rng: &mut R,
    limit: usize,
    watermark: Option<usize>,
    age: Duration,
    wait: Option<Duration>,
    events: &[Event],
) -> Result<Vec<Result<Answer, TierFault>>, TierFault>
    requires { 0 < N }
    ensures { IfOk result (λ outcomes. Keeps (record { shards = N; limit = limit; watermark = watermark; age = age; wait = wait })
        events.now outcomes.items (R.stream rng.old) (R.stream rng.new)) }
{
    let Ok(mut tier) = Tier::<N>::new(alloc, limit, watermark, age, wait) else {
        return Err(TierFault::Memory(nothing_done(alloc)));
    };
    tier.run(rng, events)
}
