//! What the tier is made with.
ghost use Rattle.std.specs.Prelude.{◌≡◌, IfOk};
ghost use Rattle.tier_model.specs.Started.{HasOnlyOrder, settings_of};
ghost use Rattle.tier_single.specs.Options.{settings_with};

use cache_tier::{Duration, Tier, TierOptions};
use std::alloc::{AllocError, Global};

// Room for all that four threads store, 732,000 bytes with its metas, so that nothing is evicted.
fn settings() -> TierOptions {
    TierOptions {
        limit: 1_000_000,
        watermark: None,
        age: Duration::from_seconds(10),
        wait: None,
    }
}

/// Returns an empty tier of four shards, and the options that it was made with.
pub fn empty(alloc: Global) -> Result<(TierOptions, Tier<4>), AllocError>
    ensures { IfOk result (λ made. HasOnlyOrder made.1 × (settings_of made.1 ≡ settings_with 4 made.0)) }
{
    let set = settings();
    let tier = Tier::<4>::new(alloc, set.limit, set.watermark, set.age, set.wait)?;
    Ok((set, tier))
}
