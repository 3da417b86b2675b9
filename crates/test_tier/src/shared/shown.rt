//! The heads that tiers show which threads share: of a key that was put, and of one that wasn't.
ghost use Rattle.std.specs.Prelude.{◌≡◌};

use crate::shared::asks::{Ask, event, key};
use crate::shared::threads::{Shared, call, empty, shared};
use cache_heads::CacheMeta;
use cache_words::time::Moment;
use rand_core::SeedableRng;
use rand_pcg::Pcg64;
use std::alloc::{AllocError, Global};
use std::marker::Brand;
use std::sync::Wait;
use std::sync::ledger::{Blank, Ledger};
use tier_shared::{CountedTier, LEDGER_PARTS};

// What a head says: its status, the moment until which it is fresh, and how many lines it has.
type Said = Option<(u16, Moment, usize)>;

fn said_by(shown: Result<Option<CacheMeta>, AllocError>) -> Option<Said> {
    match shown {
        Ok(Some(meta)) => {
            let header = meta.response_header();
            let lines = header.headers.len();
            Some(Some((header.status.as_u16(), meta.fresh_until(), lines)))
        }
        Ok(None) => Some(None),
        Err(_) => None,
    }
}

// What is shown of a key that was put, and of another.
fn shared_shows<L: Ledger, W: Wait>(rt: &W, alloc: Global, blank: Blank) -> Option<(Said, Said)>
    requires { (blank.name ≡ L.name) × (blank.parts ≡ L.parts) × (L.parts ≡ 4294967296) }
{
    let tier: Shared<L> = shared(alloc, blank)?;
    let mut pass = tier.pass(rt).ok()?;
    let _put = call(rt, alloc, &tier, &mut pass, Ask::Put(b'a'))?;
    let there = said_by(tier.shown_meta(rt, alloc, &key(alloc, b'a')?))?;
    let absent = said_by(tier.shown_meta(rt, alloc, &key(alloc, b'b')?))?;
    Some((there, absent))
}

// The same of a tier that counts its calls.
fn counted_shows<L: Ledger, W: Wait>(rt: &W, alloc: Global, blank: Blank) -> Option<(Said, Said)>
    requires { (blank.name ≡ L.name) × (blank.parts ≡ L.parts) × (L.parts ≡ 4294967296) }
{
    let (set, tier) = empty(alloc)?;
    let tier: CountedTier<4, Pcg64, L> = CountedTier::new(
        alloc,
        blank,
        set,
        tier,
        Pcg64::seed_from_u64(1),
    ).ok()?;
    let mut pass = tier.pass(rt).ok()?;
    let _put = tier
        .step(rt, &mut pass, &event(alloc, Ask::Put(b'a'))?)
        .ok()?;
    let there = said_by(tier.shown_meta(rt, alloc, &key(alloc, b'a')?))?;
    let absent = said_by(tier.shown_meta(rt, alloc, &key(alloc, b'b')?))?;
    Some((there, absent))
}

// A body put at second 7 for 100 seconds, under a head of one line.
fn put() -> Said {
    Some((200, Moment::from_seconds(107), 1))
}

#[test]
fn a_shared_tier_shows_the_head_of_what_was_put(rt: HostRuntime) {
    let shown = shared_shows::<Brand, HostRuntime>(&rt, rt.alloc(), Blank::new(LEDGER_PARTS));
    assert!(rt; shown == Some((put(), None)));
}

#[test]
fn a_counted_tier_shows_the_head_of_what_was_put(rt: HostRuntime) {
    let shown = counted_shows::<Brand, HostRuntime>(&rt, rt.alloc(), Blank::new(LEDGER_PARTS));
    assert!(rt; shown == Some((put(), None)));
}
