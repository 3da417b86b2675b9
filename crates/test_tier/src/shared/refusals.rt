//! Passes, calls and gathers that memory is refused, each made again.
ghost use Rattle.std.specs.Prelude.{◌≡◌};

mod counted;

use crate::shared::asks::{Ask, event};
use crate::shared::threads::{Shared, shared};
use std::alloc::Global;
use std::marker::Brand;
use std::sync::Wait;
use std::sync::ledger::{Blank, Ledger};
use tier_shared::{Gathered, LEDGER_PARTS, Pass};
use tier_single::TierFault;

// A pass, by a second try where the first is refused.
fn pass_again<L: Ledger, W: Wait>(rt: &W, tier: &Shared<L>) -> Option<Pass<L>> {
    match tier.pass(rt) {
        Ok(pass) => Some(pass),
        Err(_) => tier.pass(rt).ok(),
    }
}

// What came of a put.
#[derive(Clone, Copy, PartialEq, Eq)]
enum Came {
    Put,
    // Refused by the tier, and recorded.
    Recorded,
    // Nothing was recorded.
    Not,
    Else,
}

fn put<L: Ledger, W: Wait>(rt: &W, alloc: Global, tier: &Shared<L>, pass: &mut Pass<L>) -> Came {
    match event(alloc, Ask::Put(b'a')) {
        Some(event) => match tier.step(rt, pass, event) {
            Ok(_) => Came::Put,
            Err(TierFault::NoRecord) => Came::Not,
            Err(TierFault::Memory(_)) => Came::Recorded,
            Err(_) => Came::Else,
        },
        None => Came::Not,
    }
}

// How many records two puts leave, of which the second comes to what it would alone; `None` where it doesn't.
fn put_again<L: Ledger, W: Wait>(
    rt: &W,
    alloc: Global,
    tier: &Shared<L>,
    pass: &mut Pass<L>,
) -> Option<u64> {
    let first = put(rt, alloc, tier, pass);
    let second = put(rt, alloc, tier, pass);
    match (first, second) {
        (Came::Put | Came::Recorded, Came::Put | Came::Recorded) => Some(2),
        (Came::Put, Came::Not) | (Came::Not, Came::Put) => Some(1),
        _ => None,
    }
}

// What is gathered, by a second try where the first is refused and the passes come back.
fn gather_again<L: Ledger, W: Wait>(
    rt: &W,
    tier: &Shared<L>,
    passes: Vec<Pass<L>>,
) -> Option<Gathered> {
    match tier.gather(rt, passes) {
        Ok(gathered) => Some(gathered),
        Err(back) => tier.gather(rt, back.passes).ok(),
    }
}

// The history's length once the tier is closed.
fn closed<L: Ledger>(tier: Shared<L>) -> Option<u64> {
    let recorded = tier.close().ok()?;
    Some(recorded.history().len() as u64)
}

// Two passes, of which one puts; `None` where memory was refused to the test itself.
fn day<L: Ledger, W: Wait>(rt: &W, alloc: Global, blank: Blank) -> Option<bool>
    requires { (blank.name ≡ L.name) × (blank.parts ≡ L.parts) × (L.parts ≡ 4294967296) }
{
    let tier: Shared<L> = shared(alloc, blank)?;
    let mut one = pass_again(rt, &tier)?;
    let two = pass_again(rt, &tier)?;
    let is_numbered = one.caller() == 0 && two.caller() == 1;
    let records = put_again(rt, alloc, &tier, &mut one);
    let passes = vec![in alloc; one, two].ok()?;
    let gathered = gather_again(rt, &tier, passes);
    let is_gathered = match gathered {
        Some(gathered) => gathered.outstanding == 0 && Some(gathered.records) == records,
        None => false,
    };
    Some(is_numbered && is_gathered && closed(tier) == records)
}

#[test]
fn refused_calls_leave_a_history_that_closes(rt: HostRuntime) {
    let day = day::<Brand, HostRuntime>(&rt, rt.alloc(), Blank::new(LEDGER_PARTS));
    assert!(rt; day != Some(false));
}

#[test]
fn ample_memory_meets_no_refusal(rt: HostRuntime) {
    let day = day::<Brand, HostRuntime>(&rt, rt.alloc(), Blank::new(LEDGER_PARTS));
    assert!(rt; day == Some(true));
}
