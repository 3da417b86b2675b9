//! How a tier is made.
ghost use Rattle.std.specs.Prelude.{◌≡◌, ◌⊎◌, ◌∷◌, [], ℕ, option_map};
ghost use Rattle.cache_words.specs.Time.{span_of};
ghost use Rattle.tier_calls.specs.Made.{most_of, some_of, settings_of, IsMade};
ghost use Rattle.tier_calls.specs.Tiers.{made_with};

use crate::held::TierHandle;
use crate::shards::{Settings, Shards};
use crate::statuses;
use crate::structs::{CallAnswer, Options};
use crate::told::plain;
use cache_words::time::Duration;
use rand_core::SeedableRng;
use rand_pcg::Pcg64;
use seeded_hashing::SeededState;
use std::alloc::Global;

// The watermark of this number: all bits set are none.
fn watermark_of(number: u64) -> Option<usize>
    ensures { result ≡ some_of number }
{
    if number == statuses::NONE {
        return None;
    }
    Some(number as usize)
}

// The longest wait of this number of seconds: all bits set are none.
fn wait_of(number: u64) -> Option<Duration>
    ensures { result ≡ option_map span_of (some_of number) }
{
    if number == statuses::NONE {
        return None;
    }
    Some(Duration::from_seconds(number))
}

// What a tier is made with, by these options.
fn settings_of(options: &Options) -> Settings
    ensures { (n : ℕ) → made_with n result ≡ settings_of n options.now }
{
    Settings {
        hasher: SeededState {
            word: options.hash_start,
        },
        limit: options.limit as usize,
        watermark: watermark_of(options.watermark),
        age: Duration::from_seconds(options.age),
        wait: wait_of(options.wait),
    }
}

// The bound of this number: 0 is half of the limit.
fn most_of(number: u64, limit: u64) -> u64
    ensures { result ≡ most_of number limit }
{
    if number == 0 { limit / 2 } else { number }
}

// So many shards as the options say; no tier has so many where a reserved word isn't 0.
fn shards_of(options: &Options) -> u64
    ensures { ((options.now.reserved ≡ 0 ∷ 0 ∷ 0 ∷ 0 ∷ []) × (result ≡ options.now.shards)) ⊎ (¬ (options.now.reserved ≡ 0 ∷ 0 ∷ 0 ∷ 0 ∷ []) × (result ≡ 0)) }
{
    if options.reserved == [0; 4] {
        options.shards
    } else {
        0
    }
}

/// Makes a tier, if there is memory for it and tiers have so many shards: `READY`, or `MEMORY`, or `BAD_CALL`.
pub fn make(alloc: Global, options: &Options, out: &mut CallAnswer) -> TierHandle
    ensures { IsMade options.now out.new result }
{
    let tier = Shards::new(alloc, shards_of(options), &settings_of(options));
    *out = plain(tier.status());
    let most = most_of(options.max_body_bytes, options.limit);
    TierHandle::new(alloc, tier, Pcg64::seed_from_u64(options.seed), most)
}
