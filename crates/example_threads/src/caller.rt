//! Threads that call one tier, each with a pass of its own.
ghost use Rattle.std.specs.Prelude.{◌≡◌, ℕ, ◌+◌, ◌*◌, OnOk, IfOk, All, length};
ghost use Rattle.tier_recorded.specs.Recorded.{MatchRecorded};

use crate::mix::{asked, event};
use crate::outcome::{Tally, Trouble};
use cache_tier::{Answer, Event, TierFault};
use std::alloc::Global;
use std::rt::Clock;
use std::sync::Wait;
use std::thread;
use std::thread::Threads;
use std::time::{Duration, Instant};

/// A tier that threads share.
pub trait Shared {
    /// The right to make calls.
    type Pass: Drop;

    /// How many calls were made with a pass.
    ghost made: { Self.Pass → ℕ };

    /// Gives a pass for a new caller.
    fn new_pass<W: Wait>(&self, rt: &W) -> Result<Self::Pass, Trouble>
        ensures { IfOk result (λ pass. made pass ≡ 0) };

    /// Makes a call. `NoRecord` says that it wasn't made.
    fn call<W: Wait>(
        &self,
        rt: &W,
        pass: &mut Self::Pass,
        event: Event,
    ) -> Result<Answer, TierFault>
        ensures { MatchRecorded result (made pass.new ≡ made pass.old) (made pass.new ≡ made pass.old + 1) };
}

// Makes a thread's calls, and stops where one can't be made.
fn work<T: Shared, W: Wait>(
    rt: &W,
    alloc: Global,
    tier: &T,
    pass: &mut T::Pass,
    thread: u32,
    calls: u32,
) -> Result<Tally, Trouble>
    ensures made { OnOk result (T.made pass.new ≡ T.made pass.old + calls) }
    ensures counted { IfOk result (λ tally. tally.calls ≡ calls) }
{
    let mut tally = Tally::new();
    for number in 0..calls {
        let event = event(alloc, asked(thread, number))?;
        match tier.call(rt, pass, event) {
            Ok(answer) => tally.answer(&answer),
            Err(fault) => tally.refuse(&fault)?,
        }
    }
    Ok(tally)
}

// The same with a pass that the thread hands back.
fn worked<T: Shared, W: Wait>(
    rt: &W,
    alloc: Global,
    tier: &T,
    mut pass: T::Pass,
    thread: u32,
    calls: u32,
) -> (T::Pass, Result<Tally, Trouble>)
    ensures made { OnOk result.1 (T.made result.0 ≡ T.made pass + calls) }
    ensures counted { IfOk result.1 (λ tally. tally.calls ≡ calls) }
{
    let tally = work(rt, alloc, tier, &mut pass, thread, calls);
    (pass, tally)
}

// Lets four threads make so many calls each: the passes with which they were made, and what came of all.
fn four_at_work<T: Shared + Sync, W: Threads + Wait + Sync>(
    rt: &W,
    alloc: Global,
    tier: &T,
    calls: u32,
) -> Result<(Vec<T::Pass>, Tally), Trouble>
where
    T::Pass: Send,
    ensures passes { IfOk result (λ back. (length back.0.items ≡ 4) × All (λ pass. T.made pass ≡ calls) back.0.items) }
    ensures counted { IfOk result (λ back. back.1.calls ≡ 4 * calls) }
{
    let a = tier.new_pass(rt)?;
    let b = tier.new_pass(rt)?;
    let c = tier.new_pass(rt)?;
    let d = tier.new_pass(rt)?;
    let mut passes = Vec::with_capacity(alloc, 4)?;
    let ((a, b), (c, d)) = thread::join(
        rt,
        || {
            thread::join(
                rt,
                || worked(rt, alloc, tier, a, 0, calls),
                || worked(rt, alloc, tier, b, 1, calls),
            )
        },
        || {
            thread::join(
                rt,
                || worked(rt, alloc, tier, c, 2, calls),
                || worked(rt, alloc, tier, d, 3, calls),
            )
        },
    );
    passes.push_reserved(a.0);
    passes.push_reserved(b.0);
    passes.push_reserved(c.0);
    passes.push_reserved(d.0);
    let tally = a.1?.with(b.1?).with(c.1?).with(d.1?);
    Ok((passes, tally))
}

/// The same, and how long the threads took.
pub fn four_timed<T: Shared + Sync, W: Threads + Wait + Clock + Sync>(
    rt: &W,
    alloc: Global,
    tier: &T,
    calls: u32,
) -> Result<(Vec<T::Pass>, Tally, Duration), Trouble>
where
    T::Pass: Send,
    ensures passes { IfOk result (λ back. (length back.0.items ≡ 4) × All (λ pass. T.made pass ≡ calls) back.0.items) }
    ensures counted { IfOk result (λ back. back.1.calls ≡ 4 * calls) }
{
    let start = Instant::now(rt)?;
    let (passes, tally) = four_at_work(rt, alloc, tier, calls)?;
    let took = start.elapsed(rt)?;
    Ok((passes, tally, took))
}
