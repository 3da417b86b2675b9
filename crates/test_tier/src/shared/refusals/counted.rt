//! A counted tier that memory is refused: what was refused is asked for again, and then answers as if it had come first.
ghost use Rattle.std.specs.Prelude.{◌≡◌};

use crate::shared::asks::{Ask, event};
use crate::shared::threads::empty;
use rand_core::SeedableRng;
use rand_pcg::Pcg64;
use std::alloc::Global;
use std::marker::Brand;
use std::sync::Wait;
use std::sync::ledger::{Blank, Ledger};
use tier_shared::{CallPass, CountedTier, LEDGER_PARTS};
use tier_single::{Answer, Report, TierFault};

type Counted<L> = CountedTier<4, Pcg64, L>;

// An empty tier, shared.
fn counted<L: Ledger>(alloc: Global, blank: Blank) -> Option<Counted<L>>
    requires { (blank.name ≡ L.name) × (blank.parts ≡ L.parts) × (L.parts ≡ 4294967296) }
{
    let (set, tier) = empty(alloc)?;
    CountedTier::new(alloc, blank, set, tier, Pcg64::seed_from_u64(1)).ok()
}

// What came of a call.
#[derive(Clone, Copy, PartialEq, Eq)]
enum Came {
    Done,
    // Something fresh and complete.
    Found,
    Memory,
    // Another fault.
    Fault,
}

fn told_of(outcome: &Result<Answer, TierFault>) -> Came {
    match outcome {
        Ok(
            Answer::Found {
                fresh: true,
                complete: true,
                ..
            },
        ) => Came::Found,
        Ok(_) => Came::Done,
        Err(TierFault::Memory(_)) => Came::Memory,
        Err(_) => Came::Fault,
    }
}

// Makes a call, and once more where memory is refused to it; `None` where it is refused to the event.
fn call<L: Ledger, W: Wait>(
    rt: &W,
    alloc: Global,
    tier: &Counted<L>,
    pass: &mut CallPass<L>,
    ask: Ask,
) -> Option<Came> {
    let event = event(alloc, ask)?;
    match told_of(&tier.step(rt, pass, &event)) {
        Came::Memory => Some(told_of(&tier.step(rt, pass, &event))),
        came => Some(came),
    }
}

// Whether a key that is put is found.
fn is_found<L: Ledger, W: Wait>(
    rt: &W,
    alloc: Global,
    tier: &Counted<L>,
    pass: &mut CallPass<L>,
) -> Option<bool> {
    let put = call(rt, alloc, tier, pass, Ask::Put(b'a'))?;
    let open = call(rt, alloc, tier, pass, Ask::Open(1, b'a'))?;
    let look = call(rt, alloc, tier, pass, Ask::Look(1))?;
    Some(put == Came::Done && open == Came::Done && look == Came::Found)
}

const ONE_FOUND: Report = Report {
    found: 1,
    absent: 0,
    bodies: 1,
    bytes: 2,
    meta: 50,
    tracked: 1,
    weight: 52,
    evicted: 0,
    external: 0,
};

// Whether a tier is closed once both passes are gathered, and not before, and has counted the calls of both.
fn is_closed<L: Ledger, W: Wait>(
    rt: &W,
    tier: Counted<L>,
    one: CallPass<L>,
    two: CallPass<L>,
) -> bool {
    let calls = one.calls().wrapping_add(two.calls());
    tier.gather(rt, one);
    match tier.close() {
        Err((1, tier)) => {
            tier.gather(rt, two);
            match tier.close() {
                Ok(counted) => counted.calls() == calls
                    && counted.into_tier().report() == ONE_FOUND,
                Err(_) => false,
            }
        }
        _ => false,
    }
}

// Whether two passes make their calls; `None` where memory was refused to the test itself.
fn day<L: Ledger, W: Wait>(rt: &W, alloc: Global, blank: Blank) -> Option<bool>
    requires { (blank.name ≡ L.name) × (blank.parts ≡ L.parts) × (L.parts ≡ 4294967296) }
{
    let tier: Counted<L> = counted(alloc, blank)?;
    let mut one = tier.pass(rt).ok()?;
    let mut two = tier.pass(rt).ok()?;
    let found = is_found(rt, alloc, &tier, &mut one)?;
    let unopened = call(rt, alloc, &tier, &mut two, Ask::Look(2))?;
    let is_told = found && unopened == Came::Fault && tier.report(rt) == ONE_FOUND;
    Some(is_told && two.calls() == 1 && is_closed(rt, tier, one, two))
}

#[test]
fn refused_calls_leave_a_count_that_closes(rt: HostRuntime) {
    let day = day::<Brand, HostRuntime>(&rt, rt.alloc(), Blank::new(LEDGER_PARTS));
    assert!(rt; day != Some(false));
}

#[test]
fn ample_memory_meets_no_refusal(rt: HostRuntime) {
    let day = day::<Brand, HostRuntime>(&rt, rt.alloc(), Blank::new(LEDGER_PARTS));
    assert!(rt; day == Some(true));
}

// Puts a key by a pass that is then lost.
fn put<L: Ledger, W: Wait>(
    rt: &W,
    alloc: Global,
    tier: &Counted<L>,
    mut pass: CallPass<L>,
) -> Option<u64> {
    let put = call(rt, alloc, tier, &mut pass, Ask::Put(b'a'))?;
    if put == Came::Done {
        Some(pass.calls())
    } else {
        Some(0)
    }
}

// Whether a tier whose pass is lost isn't closed, and is given up with its count.
fn is_given_up<L: Ledger, W: Wait>(rt: &W, alloc: Global, blank: Blank) -> Option<bool>
    requires { (blank.name ≡ L.name) × (blank.parts ≡ L.parts) × (L.parts ≡ 4294967296) }
{
    let tier: Counted<L> = counted(alloc, blank)?;
    let pass = tier.pass(rt).ok()?;
    let calls = put(rt, alloc, &tier, pass)?;
    match tier.close() {
        Err((1, tier)) => {
            let counted = tier.abandon();
            Some(calls != 0 && counted.calls() == calls && counted.outstanding() == 1)
        }
        _ => Some(false),
    }
}

#[test]
fn a_refused_call_of_a_lost_pass_is_counted(rt: HostRuntime) {
    let given_up = is_given_up::<Brand, HostRuntime>(&rt, rt.alloc(), Blank::new(LEDGER_PARTS));
    assert!(rt; given_up != Some(false));
}
