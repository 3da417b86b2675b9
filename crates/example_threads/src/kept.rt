//! The tier for tests: all its calls are kept, and can be replayed.
ghost use Rattle.std.specs.Prelude.{◌≡◌, ◌*◌, IfOk, length};

use crate::caller::{Shared, four_timed};
use crate::outcome::{Day, Tally, Trouble};
use crate::setting::empty;
use cache_tier::{Answer, Event, Pass, Recorded, SharedTier, Tier, TierFault, is_same_note, noted};
use rand_core::SeedableRng;
use rand_pcg::Pcg64;
use std::alloc::Global;
use std::rt::Clock;
use std::sync::Wait;
use std::sync::ledger::{Blank, Ledger};
use std::thread::Threads;
use std::time::Duration;

type Kept<L> = SharedTier<4, Pcg64, L>;

// The longest history that is replayed.
const SHORT: usize = 10_000;

impl<L: Ledger> Shared for SharedTier<4, Pcg64, L> {
    type Pass = Pass<L>;

    ghost made = { λ pass. length pass.records };

    fn new_pass<W: Wait>(&self, rt: &W) -> Result<Pass<L>, Trouble> {
        match self.pass(rt) {
            Ok(pass) => Ok(pass),
            Err(fault) => Err(Trouble::NoPass(fault)),
        }
    }

    fn call<W: Wait>(&self, rt: &W, pass: &mut Pass<L>, event: Event) -> Result<Answer, TierFault> {
        self.step(rt, pass, event)
    }
}

// A new tier of four shards, shared.
fn shared<L: Ledger>(alloc: Global, blank: Blank) -> Result<Kept<L>, Trouble>
    requires { (blank.name ≡ L.name) × (blank.parts ≡ L.parts) × (L.parts ≡ 4294967296) }
{
    let (set, tier) = empty(alloc)?;
    match SharedTier::new(alloc, blank, set, tier, Pcg64::seed_from_u64(1)) {
        Ok(tier) => Ok(tier),
        Err(back) => Err(Trouble::NotShared(back.fault)),
    }
}

// Steps a new tier through the history, with a copy of the opening's generator: how many notes are those of the records.
fn replayed<L: Ledger>(alloc: Global, recorded: &Recorded<4, Pcg64, L>) -> Result<u64, Trouble> {
    let opening = recorded.opening();
    let set = opening.options;
    let mut tier = Tier::<4>::new(alloc, set.limit, set.watermark, set.age, set.wait)?;
    let mut rng = opening.rng.clone()?;
    let mut same: u64 = 0;
    for record in recorded.history() {
        let outcome = tier.step(&mut rng, record.event.event());
        if is_same_note(&noted(&outcome), &record.note) {
            same = same.saturating_add(1);
        }
    }
    Ok(same)
}

// The same, where the history is short.
fn replayed_if_short<L: Ledger>(
    alloc: Global,
    recorded: &Recorded<4, Pcg64, L>,
) -> Result<Option<u64>, Trouble> {
    if recorded.history().len() > SHORT {
        return Ok(None);
    }
    Ok(Some(replayed(alloc, recorded)?))
}

// The day of a tier that was closed.
fn day_of<L: Ledger>(
    alloc: Global,
    recorded: &Recorded<4, Pcg64, L>,
    tally: Tally,
    took: Duration,
) -> Result<Day, Trouble>
    ensures { IfOk result (λ day. day.tally ≡ tally) }
{
    let replayed = replayed_if_short(alloc, recorded)?;
    Ok(Day {
        tally,
        recorded: recorded.history().len() as u64,
        report: recorded.tier().report(),
        replayed,
        took,
    })
}

// Closes the tier, once all passes are gathered.
fn closed<L: Ledger>(
    alloc: Global,
    tier: Kept<L>,
    tally: Tally,
    took: Duration,
) -> Result<Day, Trouble>
    ensures { IfOk result (λ day. day.tally ≡ tally) }
{
    match tier.close() {
        Ok(recorded) => day_of(alloc, &recorded, tally, took),
        Err((outstanding, _)) => Err(Trouble::Outstanding(outstanding)),
    }
}

/// Lets four threads share a new tier, for so many calls each. `blank` is the tier's ledger, and `L` names it.
pub fn kept_day<L: Ledger + Send + Sync, W: Threads + Wait + Clock + Sync>(
    rt: &W,
    alloc: Global,
    blank: Blank,
    calls: u32,
) -> Result<Day, Trouble>
    requires { (blank.name ≡ L.name) × (blank.parts ≡ L.parts) × (L.parts ≡ 4294967296) }
    ensures { IfOk result (λ day. day.tally.calls ≡ 4 * calls) }
{
    let tier: Kept<L> = shared(alloc, blank)?;
    let (passes, tally, took) = four_timed(rt, alloc, &tier, calls)?;
    if let Err(back) = tier.gather(rt, passes) {
        return Err(Trouble::NotGathered(back.fault));
    }
    closed(alloc, tier, tally, took)
}
