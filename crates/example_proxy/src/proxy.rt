//! What a proxy asks of a tier. Its answers are those of the tier's past, which each call makes longer by one or more.
ghost use Rattle.tier_model.specs.declared.event.Action.TheVariants as on;
ghost use Rattle.std.specs.Prelude.{None};
ghost use Rattle.example_proxy.specs.Finds.{Answers, IsFind, Tells};

use cache_tier::{Action, Answer, Bytes, CacheKey, Event, Moment, Pieces, Tier, TierFault};
use rand_core::Rng;

// A proxy that serves many clients at once numbers its requests; this one serves one at a time, and so asks for no lock.
const REQUEST: u64 = 1;

fn ask<R: Rng>(
    tier: &mut Tier<4>,
    rng: &mut R,
    moment: Moment,
    action: Action,
) -> Result<Answer, TierFault>
    ensures { Answers tier.old (record { moment = moment; action = action }) result tier.new }
{
    tier.step(rng, &Event { moment, action })
}

/// Returns the body that is stored for a key, where it is whole and fresh at that moment.
pub fn find(tier: &mut Tier<4>, moment: Moment, key: &CacheKey) -> Result<Option<Bytes>, TierFault>
    ensures { Tells (IsFind moment key.now) tier.old result tier.new }
{
    match tier.hit(moment, REQUEST, key) {
        Ok(Some(hit)) => Ok(Some(hit.body)),
        Ok(None) => Ok(None),
        Err(fault) => Err(fault),
    }
}

/// Stores a response, whose bytes come in pieces, under a key.
pub fn store<R: Rng>(
    tier: &mut Tier<4>,
    rng: &mut R,
    moment: Moment,
    key: CacheKey,
    pieces: Pieces,
) -> Result<Answer, TierFault>
    ensures { Answers tier.old (record { moment = moment; action = on.Put key pieces None }) result tier.new }
{
    ask(tier, rng, moment, Action::put(key, pieces))
}

/// Removes what is stored for a key; the answer says whether something was.
pub fn purge<R: Rng>(
    tier: &mut Tier<4>,
    rng: &mut R,
    moment: Moment,
    key: CacheKey,
) -> Result<Answer, TierFault>
    ensures { Answers tier.old (record { moment = moment; action = on.Purge key }) result tier.new }
{
    ask(tier, rng, moment, Action::Purge { key })
}

/// Says what a fault means for a proxy. None of them keeps it from handing the origin's response on.
pub fn advice(fault: &TierFault) -> &'static str {
    match fault {
        TierFault::NoRequest | TierFault::IdInUse | TierFault::WrongPhase =>
            "a mistake of the proxy's own",
        TierFault::BadHead | TierFault::Incomplete => "the origin sent no whole response",
        TierFault::BeforeEpoch => "the clock stands before 1970",
        TierFault::TooHeavy(_) | TierFault::TooLong(_) | TierFault::NumbersSpent(_) =>
            "more than can be counted",
        TierFault::Memory(_) =>
            "out of memory; the tier is as before, but for what it tells of evictions",
        _ => "an event that this proxy doesn't use",
    }
}
