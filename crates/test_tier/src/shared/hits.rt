//! Hits of a key in tiers that threads share, at second 7 after some events: what comes, and how many calls are kept of it.
ghost use Rattle.std.specs.Prelude.{◌≡◌};

use crate::asks::{Ask, event, key};
use crate::shared::threads::{Shared, Tallied, counted, shared};
use cache_words::time::Moment;
use std::alloc::Global;
use std::marker::Brand;
use std::sync::Wait;
use std::sync::ledger::{Blank, Ledger};
use tier_shared::{CallPass, LEDGER_PARTS, Pass};
use tier_single::{Hit, TierFault};

// What comes of a hit of key `a` by request 1.
#[derive(Clone, Copy)]
enum Came {
    Body(&'static [u8]),
    Nothing,
    IdInUse,
}

struct Row {
    before: &'static [Ask],
    came: Came,
    calls: u64,
}

const ROWS: &[Row] = &[
    Row {
        before: &[Ask::Put(b'a', b"xy")],
        came: Came::Body(b"xy"),
        calls: 4,
    },
    Row {
        before: &[Ask::Put(b'b', b"xy")],
        came: Came::Nothing,
        calls: 0,
    },
    Row {
        before: &[Ask::PutStale(b'a', b"xy")],
        came: Came::Nothing,
        calls: 0,
    },
    // A write in flight.
    Row {
        before: &[Ask::Open(2, b'a'), Ask::Look(2), Ask::Begin(2)],
        came: Came::Nothing,
        calls: 0,
    },
    Row {
        before: &[Ask::Put(b'a', b"xy"), Ask::Open(1, b'b')],
        came: Came::IdInUse,
        calls: 1,
    },
];

fn is_hit(came: &Result<Option<Hit>, TierFault>, wanted: Came) -> bool {
    match (came, wanted) {
        (Ok(Some(hit)), Came::Body(bytes)) => {
            hit.body.as_slice() == bytes && hit.meta.head.status().as_u16() == 200
        }
        (Ok(None), Came::Nothing) => true,
        (Err(TierFault::IdInUse), Came::IdInUse) => true,
        _ => false,
    }
}

fn plays<L: Ledger, W: Wait>(
    rt: &W,
    alloc: Global,
    tier: &Shared<L>,
    pass: &mut Pass<L>,
    row: &Row,
) -> Option<bool> {
    for ask in row.before {
        let _answer = tier.step(rt, pass, event(alloc, *ask)?).ok()?;
    }
    let before = pass.records().len() as u64;
    let came = tier.hit(rt, pass, Moment::from_seconds(7), 1, &key(alloc, b'a')?);
    let after = pass.records().len() as u64;
    Some(is_hit(&came, row.came) && after.saturating_sub(before) == row.calls)
}

fn shared_plays<L: Ledger, W: Wait>(rt: &W, alloc: Global, blank: Blank, row: &Row) -> Option<bool>
    requires { (blank.name ≡ L.name) × (blank.parts ≡ L.parts) × (L.parts ≡ 4294967296) }
{
    let tier: Shared<L> = shared(alloc, blank)?;
    let mut pass = tier.pass(rt).ok()?;
    plays(rt, alloc, &tier, &mut pass, row)
}

fn count<L: Ledger, W: Wait>(
    rt: &W,
    alloc: Global,
    tier: &Tallied<L>,
    pass: &mut CallPass<L>,
    row: &Row,
) -> Option<bool> {
    for ask in row.before {
        let _answer = tier.step(rt, pass, &event(alloc, *ask)?).ok()?;
    }
    let before = pass.calls();
    let came = tier.hit(rt, pass, Moment::from_seconds(7), 1, &key(alloc, b'a')?);
    let after = pass.calls();
    Some(is_hit(&came, row.came) && after.saturating_sub(before) == row.calls)
}

fn counted_plays<L: Ledger, W: Wait>(rt: &W, alloc: Global, blank: Blank, row: &Row) -> Option<bool>
    requires { (blank.name ≡ L.name) × (blank.parts ≡ L.parts) × (L.parts ≡ 4294967296) }
{
    let tier: Tallied<L> = counted(alloc, blank)?;
    let mut pass = tier.pass(rt).ok()?;
    count(rt, alloc, &tier, &mut pass, row)
}

#[test]
fn hits_in_a_shared_tier(rt: HostRuntime) {
    for row in ROWS {
        let blank = Blank::new(LEDGER_PARTS);
        assert!(rt; shared_plays::<Brand, HostRuntime>(&rt, rt.alloc(), blank, row) == Some(true));
    }
}

#[test]
fn hits_in_a_counted_tier(rt: HostRuntime) {
    for row in ROWS {
        let blank = Blank::new(LEDGER_PARTS);
        assert!(rt; counted_plays::<Brand, HostRuntime>(&rt, rt.alloc(), blank, row) == Some(true));
    }
}
