//! The tier for production: its calls are counted, and none is kept.
ghost use Rattle.std.specs.Prelude.{◌≡◌, ◌*◌, IfOk};

use crate::caller::{Shared, four_timed};
use crate::outcome::{Day, Tally, Trouble};
use crate::setting::empty;
use cache_tier::{Answer, CallPass, CountedTier, Event, TierFault};
use rand_core::SeedableRng;
use rand_pcg::Pcg64;
use std::alloc::Global;
use std::rt::Clock;
use std::sync::Wait;
use std::sync::ledger::{Blank, Ledger};
use std::thread::Threads;
use std::time::Duration;

type Counted<L> = CountedTier<4, Pcg64, L>;

impl<L: Ledger> Shared for CountedTier<4, Pcg64, L> {
    type Pass = CallPass<L>;

    ghost made = { λ pass. pass };

    fn new_pass<W: Wait>(&self, rt: &W) -> Result<CallPass<L>, Trouble> {
        match self.pass(rt) {
            Ok(pass) => Ok(pass),
            Err(fault) => Err(Trouble::NoPass(fault)),
        }
    }

    fn call<W: Wait>(
        &self,
        rt: &W,
        pass: &mut CallPass<L>,
        event: Event,
    ) -> Result<Answer, TierFault> {
        self.step(rt, pass, &event)
    }
}

// A new tier of four shards, shared.
fn shared<L: Ledger>(alloc: Global, blank: Blank) -> Result<Counted<L>, Trouble>
    requires { (blank.name ≡ L.name) × (blank.parts ≡ L.parts) × (L.parts ≡ 4294967296) }
{
    let (set, tier) = empty(alloc)?;
    match CountedTier::new(alloc, blank, set, tier, Pcg64::seed_from_u64(1)) {
        Ok(tier) => Ok(tier),
        Err(back) => Err(Trouble::NotShared(back.fault)),
    }
}

// Closes the tier, once all passes are gathered.
fn closed<L: Ledger>(tier: Counted<L>, tally: Tally, took: Duration) -> Result<Day, Trouble>
    ensures { IfOk result (λ day. day.tally ≡ tally) }
{
    match tier.close() {
        Ok(counted) => Ok(Day {
            tally,
            recorded: counted.calls(),
            report: counted.tier().report(),
            replayed: None,
            took,
        }),
        Err((outstanding, _)) => Err(Trouble::Outstanding(outstanding)),
    }
}

/// Lets four threads share a new tier, for so many calls each. `blank` is the tier's ledger, and `L` names it.
pub fn counted_day<L: Ledger + Send + Sync, W: Threads + Wait + Clock + Sync>(
    rt: &W,
    alloc: Global,
    blank: Blank,
    calls: u32,
) -> Result<Day, Trouble>
    requires { (blank.name ≡ L.name) × (blank.parts ≡ L.parts) × (L.parts ≡ 4294967296) }
    ensures { IfOk result (λ day. day.tally.calls ≡ 4 * calls) }
{
    let tier: Counted<L> = shared(alloc, blank)?;
    let (passes, tally, took) = four_timed(rt, alloc, &tier, calls)?;
    for pass in passes {
        tier.gather(rt, pass);
    }
    closed(tier, tally, took)
}
