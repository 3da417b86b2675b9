//! How a recorded tier began.
ghost use Rattle.std.specs.Prelude.{◌≡◌, ◌<◌, ℕ, IfOk, OnOk, IsErrOf};
ghost use Rattle.cache_evict.specs.Loads.{CantBeWritten};
ghost use Rattle.cache_evict.specs.Managed.{IsSharded, rows_at};
ghost use Rattle.cache_evict.specs.Stored.{IsText};
ghost use Rattle.cache_words.specs.declared.pack.fault.PackWriteFault.{PackWriteFault};
ghost use Rattle.tier_single.specs.Options.{settings_with};
ghost use Rattle.tier_model.specs.Started.{HasOnlyOrder, settings_of};
ghost use Rattle.tier_recorded.specs.Openings.{AreTexts, Opens};

use bytes::Bytes;
use cache_evict::PackWriteFault;
use cache_evict::lru::Manager;
use rand_core::Rng;
use std::alloc::Global;
use std::hash::BuildHasher;
use std::marker::Model;
use tier_single::{Tier, TierOptions};

/// The texts of a tier's shards, in order: of each the entries with their weights, most recent first.
#[derive(Debug, Drop)]
pub struct ShardTexts {
    items: Vec<Bytes>,
}

impl Model for ShardTexts {
    ghost use Rattle.std.specs.Prelude.{ℕ, List};

    ghost Value = { List (List ℕ) };

    ghost view = { λ t. t.items.items };
}

impl ShardTexts {
    /// Returns the texts in order.
    pub fn as_slice(&self) -> &[Bytes]
        ensures { result.now ≡ self.now }
    {
        self.items.as_slice()
    }
}

/// How a recorded tier began: what it was made with, what its shards had loaded, and its generator as it was then.
#[derive(Drop)]
pub struct Snapshot<R> {
    pub options: TierOptions,
    pub texts: ShardTexts,
    pub rng: R,
}

// The text of a shard.
fn text_of<const N: usize, S: BuildHasher>(
    alloc: Global,
    manager: &Manager<N, S>,
    shard: usize,
) -> Result<Bytes, PackWriteFault>
    requires { shard < N }
    ensures text { IfOk result (λ text. IsText (rows_at manager.now.shards shard) text) }
    ensures long { IsErrOf result PackWriteFault.TooLong → CantBeWritten (rows_at manager.now.shards shard) }
{
    let text = manager.serialize_shard(alloc, shard)?;
    match Bytes::from_vec(text) {
        Ok(text) => Ok(text),
        Err(_) => Err(PackWriteFault::Memory),
    }
}

// The texts of all shards.
fn texts_of<const N: usize, S: BuildHasher>(
    alloc: Global,
    manager: &Manager<N, S>,
) -> Result<ShardTexts, PackWriteFault>
    ensures sharded { OnOk result (IsSharded N manager.now) }
    ensures texts { IfOk result (λ texts. AreTexts manager.now.shards texts) }
    ensures long { IsErrOf result PackWriteFault.TooLong → (i : ℕ) × CantBeWritten (rows_at manager.now.shards i) }
{
    let count = manager.shards();
    let Ok(mut items) = Vec::with_capacity(alloc, count) else {
        return Err(PackWriteFault::Memory);
    };
    for shard in 0..count {
        items.push_reserved(text_of(alloc, manager, shard)?);
    }
    Ok(ShardTexts { items })
}

impl<R: Rng + Clone> Snapshot<R> {
    /// Keeps how a tier begins that was made with these options (`tier.options()` returns them) and holds nothing but its order of use
    /// (`has_only_order` is asked for), and its generator.
    ///
    /// # Errors
    ///
    /// No memory for the texts or the generator's copy; or no form counts the entries of a shard or the bytes of a tag, which is `TooLong`.
    pub fn of<const N: usize, S: BuildHasher>(
        alloc: Global,
        options: TierOptions,
        tier: &Tier<N, S>,
        rng: &R,
    ) -> Result<Snapshot<R>, PackWriteFault>
        requires only_order { HasOnlyOrder tier.now }
        requires made { settings_of tier.now ≡ settings_with N options }
        requires words { (copy : R) → R.is_clone rng.now copy → R.stream copy ≡ R.stream rng.now }
        ensures opens { IfOk result (λ opening. Opens N opening tier.now) }
        ensures words { IfOk result (λ opening. R.stream opening.rng ≡ R.stream rng.now) }
        ensures long { IsErrOf result PackWriteFault.TooLong → (i : ℕ) × CantBeWritten (rows_at tier.now.managed.shards i) }
    {
        let texts = texts_of(alloc, tier.manager())?;
        let Ok(copy) = rng.clone() else {
            return Err(PackWriteFault::Memory);
        };
        Ok(Snapshot {
            options,
            texts,
            rng: copy,
        })
    }
}
