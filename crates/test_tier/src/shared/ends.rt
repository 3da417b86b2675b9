//! What tiers that threads share tell of a body that was read to its end, and of a request that isn't open.
ghost use Rattle.std.specs.Prelude.{◌≡◌};

use crate::shared::asks::{Ask, event};
use crate::shared::threads::{Shared, Tallied, call, counted, shared};
use cache_words::time::Moment;
use std::alloc::Global;
use std::marker::Brand;
use std::sync::Wait;
use std::sync::ledger::{Blank, Ledger};
use tier_model::event::{Action, Event};
use tier_shared::{CallPass, LEDGER_PARTS, Pass};

// What is told before a body is read, once it is, and of a request that isn't open.
type Told = (Option<bool>, Option<bool>, Option<bool>);

const ASKS: &[Ask] = &[Ask::Put(b'a'), Ask::Open(1, b'a'), Ask::Look(1)];

fn read() -> Event {
    Event {
        moment: Moment::from_seconds(7),
        action: Action::Read { request: 1 },
    }
}

fn tells<L: Ledger, W: Wait>(
    rt: &W,
    alloc: Global,
    tier: &Shared<L>,
    pass: &mut Pass<L>,
) -> Option<Told> {
    for ask in ASKS {
        let _answer = call(rt, alloc, tier, pass, *ask)?;
    }
    let before = tier.is_whole(rt, 1);
    let _read = tier.step(rt, pass, read()).ok()?;
    Some((before, tier.is_whole(rt, 1), tier.is_whole(rt, 2)))
}

fn shared_tells<L: Ledger, W: Wait>(rt: &W, alloc: Global, blank: Blank) -> Option<Told>
    requires { (blank.name ≡ L.name) × (blank.parts ≡ L.parts) × (L.parts ≡ 4294967296) }
{
    let tier: Shared<L> = shared(alloc, blank)?;
    let mut pass = tier.pass(rt).ok()?;
    tells(rt, alloc, &tier, &mut pass)
}

fn tells_by_count<L: Ledger, W: Wait>(
    rt: &W,
    alloc: Global,
    tier: &Tallied<L>,
    pass: &mut CallPass<L>,
) -> Option<Told> {
    for ask in ASKS {
        let _answer = tier.step(rt, pass, &event(alloc, *ask)?).ok()?;
    }
    let before = tier.is_whole(rt, 1);
    let _read = tier.step(rt, pass, &read()).ok()?;
    Some((before, tier.is_whole(rt, 1), tier.is_whole(rt, 2)))
}

fn counted_tells<L: Ledger, W: Wait>(rt: &W, alloc: Global, blank: Blank) -> Option<Told>
    requires { (blank.name ≡ L.name) × (blank.parts ≡ L.parts) × (L.parts ≡ 4294967296) }
{
    let tier: Tallied<L> = counted(alloc, blank)?;
    let mut pass = tier.pass(rt).ok()?;
    tells_by_count(rt, alloc, &tier, &mut pass)
}

#[test]
fn a_shared_tier_tells_whether_all_came(rt: HostRuntime) {
    let told = shared_tells::<Brand, HostRuntime>(&rt, rt.alloc(), Blank::new(LEDGER_PARTS));
    assert!(rt; told == Some((None, Some(true), None)));
}

#[test]
fn a_counted_tier_tells_whether_all_came(rt: HostRuntime) {
    let told = counted_tells::<Brand, HostRuntime>(&rt, rt.alloc(), Blank::new(LEDGER_PARTS));
    assert!(rt; told == Some((None, Some(true), None)));
}
