//! A tier that starts from files and is then shared.
ghost use Rattle.std.specs.Prelude.{◌≡◌, IfSome};
ghost use Rattle.tier_model.specs.Started.{HasOnlyOrder, settings_of};
ghost use Rattle.tier_single.specs.Options.{settings_with};

use crate::shared::asks::{Ask, event};
use crate::shared::threads::{Shared, call};
use cache_words::time::Duration;
use lru_files::persistence::MemFolder;
use rand_core::SeedableRng;
use rand_pcg::Pcg64;
use std::alloc::Global;
use std::marker::Brand;
use std::sync::Wait;
use std::sync::ledger::{Blank, Ledger};
use tier_shared::{LEDGER_PARTS, Pass, SharedTier, TierOptions};
use tier_single::Tier;

// What both tiers are made with.
fn options() -> TierOptions {
    TierOptions {
        limit: 1_000,
        watermark: Some(10),
        age: Duration::from_seconds(3),
        wait: Some(Duration::from_seconds(2)),
    }
}

fn made(alloc: Global) -> Option<Tier<4>> {
    let set = options();
    Tier::<4>::new(alloc, set.limit, set.watermark, set.age, set.wait).ok()
}

// Puts a key, and saves what is tracked.
fn is_saved(alloc: Global, tier: &mut Tier<4>, folder: &mut MemFolder) -> bool {
    let mut rng = Pcg64::seed_from_u64(1);
    let is_put = match event(alloc, Ask::Put(b'a')) {
        Some(event) => tier.step(&mut rng, &event).is_ok(),
        None => false,
    };
    match tier.save(folder, "dir", &[1, 2, 3, 4]) {
        Ok(report) => is_put && report.saved == 4,
        Err(_) => false,
    }
}

fn is_started(tier: &mut Tier<4>, folder: &mut MemFolder) -> bool {
    if !tier.is_new() {
        return false;
    }
    match tier.start(folder, "dir") {
        Ok(report) => report.loaded == 4,
        Err(_) => false,
    }
}

// A tier that starts from what another saved.
fn restarted(alloc: Global) -> Option<Tier<4>> {
    let mut folder = MemFolder::new(alloc);
    let mut first = made(alloc)?;
    let mut tier = made(alloc)?;
    if is_saved(alloc, &mut first, &mut folder) && is_started(&mut tier, &mut folder) {
        Some(tier)
    } else {
        None
    }
}

// The tier with the options that it tells, where it holds nothing but its order of use.
fn with_options(tier: Tier<4>) -> Option<(TierOptions, Tier<4>)>
    ensures { IfSome result (λ told. HasOnlyOrder told.1 × (settings_of told.1 ≡ settings_with 4 told.0)) }
{
    let options = tier.options();
    if tier.has_only_order() {
        Some((options, tier))
    } else {
        None
    }
}

// Shares a tier by the options that it tells.
fn shared<L: Ledger>(alloc: Global, blank: Blank, tier: Tier<4>) -> Option<Shared<L>>
    requires { (blank.name ≡ L.name) × (blank.parts ≡ L.parts) × (L.parts ≡ 4294967296) }
{
    let (options, tier) = with_options(tier)?;
    SharedTier::new(alloc, blank, options, tier, Pcg64::seed_from_u64(1)).ok()
}

// Whether a key is found.
fn is_found<L: Ledger, W: Wait>(
    rt: &W,
    alloc: Global,
    tier: &Shared<L>,
    pass: &mut Pass<L>,
    name: u8,
) -> Option<bool> {
    let _opened = call(rt, alloc, tier, pass, Ask::Open(1, name))?;
    call(rt, alloc, tier, pass, Ask::Look(1))
}

// What came of a started tier that was shared.
#[derive(Clone, Copy, PartialEq, Eq, Debug)]
struct Came {
    // Whether the key that was saved is found.
    found: bool,
    // The length of the history.
    records: usize,
    // The options, and how many entries are tracked.
    options: TierOptions,
    tracked: u64,
}

fn closed<L: Ledger>(tier: Shared<L>, found: bool) -> Option<Came> {
    let recorded = tier.close().ok()?;
    let records = recorded.history().len();
    let options = recorded.opening().options;
    let tracked = recorded.into_tier().report().tracked;
    Some(Came {
        found,
        records,
        options,
        tracked,
    })
}

fn day<L: Ledger, W: Wait>(rt: &W, alloc: Global, blank: Blank) -> Option<Came>
    requires { (blank.name ≡ L.name) × (blank.parts ≡ L.parts) × (L.parts ≡ 4294967296) }
{
    let tier: Shared<L> = shared(alloc, blank, restarted(alloc)?)?;
    let mut pass = tier.pass(rt).ok()?;
    let found = is_found(rt, alloc, &tier, &mut pass, b'a')?;
    let _gathered = tier.gather(rt, vec![in alloc; pass].ok()?).ok()?;
    closed(tier, found)
}

// Its order of use is that of the files, and no body is there.
#[test]
fn a_tier_that_starts_from_files_is_shared(rt: HostRuntime) {
    let day = day::<Brand, HostRuntime>(&rt, rt.alloc(), Blank::new(LEDGER_PARTS));
    assert!(rt;
        day == Some(Came {
            found: false,
            records: 2,
            options: options(),
            tracked: 1
        })
    );
}
