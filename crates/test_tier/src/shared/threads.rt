//! Four threads at one tier, and a fifth caller.
ghost use Rattle.std.specs.Prelude.{◌≡◌, IfSome};
ghost use Rattle.tier_model.specs.Started.{HasOnlyOrder, settings_of};
ghost use Rattle.tier_single.specs.Options.{settings_with};

use crate::shared::asks::{Ask, event};
use cache_words::time::Duration;
use rand_core::SeedableRng;
use rand_pcg::Pcg64;
use std::alloc::Global;
use std::marker::Brand;
use std::sync::Wait;
use std::sync::ledger::{Blank, Ledger};
use std::thread;
use std::thread::Threads;
use tier_shared::{
    CountedTier, Gathered, LEDGER_PARTS, Pass, Recorded, SharedTier, TierOptions, is_same_note,
    noted,
};
use tier_single::{Answer, Tier};

pub(crate) type Shared<L> = SharedTier<4, Pcg64, L>;

pub(crate) type Tallied<L> = CountedTier<4, Pcg64, L>;

fn options() -> TierOptions {
    TierOptions {
        limit: 1_000_000,
        watermark: None,
        age: Duration::from_seconds(1),
        wait: None,
    }
}

// An empty tier of four shards, and the options that it was made with.
pub(crate) fn empty(alloc: Global) -> Option<(TierOptions, Tier<4>)>
    ensures { IfSome result (λ made. HasOnlyOrder made.1 × (settings_of made.1 ≡ settings_with 4 made.0)) }
{
    let set = options();
    match Tier::<4>::new(alloc, set.limit, set.watermark, set.age, set.wait) {
        Ok(tier) => Some((set, tier)),
        Err(_) => None,
    }
}

// A new tier of four shards, shared.
pub(crate) fn shared<L: Ledger>(alloc: Global, blank: Blank) -> Option<Shared<L>>
    requires { (blank.name ≡ L.name) × (blank.parts ≡ L.parts) × (L.parts ≡ 4294967296) }
{
    let (set, tier) = empty(alloc)?;
    SharedTier::new(alloc, blank, set, tier, Pcg64::seed_from_u64(1)).ok()
}

// A new tier of four shards, shared, whose calls are only counted.
pub(crate) fn counted<L: Ledger>(alloc: Global, blank: Blank) -> Option<Tallied<L>>
    requires { (blank.name ≡ L.name) × (blank.parts ≡ L.parts) × (L.parts ≡ 4294967296) }
{
    let (set, tier) = empty(alloc)?;
    CountedTier::new(alloc, blank, set, tier, Pcg64::seed_from_u64(1)).ok()
}

// One call. What comes: whether something fresh and complete was found; `None` where the call wasn't answered.
pub(crate) fn call<L: Ledger, W: Wait>(
    rt: &W,
    alloc: Global,
    tier: &Shared<L>,
    pass: &mut Pass<L>,
    ask: Ask,
) -> Option<bool> {
    match tier.step(rt, pass, event(alloc, ask)?) {
        Ok(
            Answer::Found {
                fresh,
                complete,
                ..
            },
        ) => Some(fresh && complete),
        Ok(_) => Some(false),
        Err(_) => None,
    }
}

// A thread that puts a key, opens it under the request of that number, and looks it up: its pass, and whether all was answered
// and the key found.
fn put_and_look<L: Ledger, W: Wait>(
    rt: &W,
    alloc: Global,
    tier: &Shared<L>,
    mut pass: Pass<L>,
    name: u8,
) -> (Pass<L>, bool) {
    let id = name as u64;
    let put = call(rt, alloc, tier, &mut pass, Ask::Put(name));
    let open = call(rt, alloc, tier, &mut pass, Ask::Open(id, name));
    let found = call(rt, alloc, tier, &mut pass, Ask::Look(id));
    let is_found = put == Some(false) && open == Some(false) && found == Some(true);
    (pass, is_found)
}

// How many keys a pass finds, of those given, each under a request of its own.
pub(crate) fn look_at_all<L: Ledger, W: Wait>(
    rt: &W,
    alloc: Global,
    tier: &Shared<L>,
    pass: &mut Pass<L>,
    names: &[u8],
) -> usize {
    let mut found: usize = 0;
    for &name in names {
        let id = 100 + name as u64;
        let open = call(rt, alloc, tier, pass, Ask::Open(id, name));
        if open == Some(false) && call(rt, alloc, tier, pass, Ask::Look(id)) == Some(true) {
            found = found.saturating_add(1);
        }
    }
    found
}

// Steps a new tier through the history, with a copy of the opening's generator: how many notes are those of the record.
fn replayed<L: Ledger>(alloc: Global, recorded: &Recorded<4, Pcg64, L>) -> Option<usize> {
    let opening = recorded.opening();
    let set = opening.options;
    let mut tier = Tier::<4>::new(alloc, set.limit, set.watermark, set.age, set.wait).ok()?;
    let mut rng = opening.rng.clone().ok()?;
    let mut same: usize = 0;
    for record in recorded.history() {
        let outcome = tier.step(&mut rng, record.event.event());
        if is_same_note(&noted(&outcome), &record.note) {
            same = same.saturating_add(1);
        }
    }
    Some(same)
}

// Passes of four threads and of a fifth caller.
#[derive(Drop)]
struct Passes<L: Ledger> {
    first: Vec<Pass<L>>,
    fifth: Pass<L>,
    // Whether each thread found its key.
    own: bool,
}

// Two passes.
pub(crate) fn pair<L: Ledger, W: Wait>(rt: &W, tier: &Shared<L>) -> Option<(Pass<L>, Pass<L>)> {
    let a = tier.pass(rt).ok()?;
    let b = tier.pass(rt).ok()?;
    Some((a, b))
}

// Four threads, each with its pass: the passes, and whether each found its key.
fn at_work<L: Ledger + Send + Sync, W: Threads + Wait + Sync>(
    rt: &W,
    alloc: Global,
    tier: &Shared<L>,
    one: (Pass<L>, Pass<L>),
    two: (Pass<L>, Pass<L>),
) -> Option<(Vec<Pass<L>>, bool)> {
    let (a, b) = one;
    let (c, d) = two;
    let ((a, b), (c, d)) = thread::join(
        rt,
        || {
            thread::join(
                rt,
                || put_and_look(rt, alloc, tier, a, b'a'),
                || put_and_look(rt, alloc, tier, b, b'b'),
            )
        },
        || {
            thread::join(
                rt,
                || put_and_look(rt, alloc, tier, c, b'c'),
                || put_and_look(rt, alloc, tier, d, b'd'),
            )
        },
    );
    let own = a.1 && b.1 && c.1 && d.1;
    let passes = vec![in alloc; a.0, b.0, c.0, d.0].ok()?;
    Some((passes, own))
}

// The same with new passes, and a fifth.
fn four_at_work<L: Ledger + Send + Sync, W: Threads + Wait + Sync>(
    rt: &W,
    alloc: Global,
    tier: &Shared<L>,
) -> Option<Passes<L>> {
    let one = pair(rt, tier)?;
    let two = pair(rt, tier)?;
    let fifth = tier.pass(rt).ok()?;
    let first_in_order = one.0.caller() == 0 && one.1.caller() == 1;
    let in_order = first_in_order && two.0.caller() == 2 && two.1.caller() == 3;
    let (first, own) = at_work(rt, alloc, tier, one, two)?;
    Some(Passes {
        first,
        fifth,
        own: own && in_order,
    })
}

// How many keys the fifth pass finds, and what is gathered once it is taken back.
fn fifth_at_work<L: Ledger, W: Wait>(
    rt: &W,
    alloc: Global,
    tier: &Shared<L>,
    mut fifth: Pass<L>,
) -> Option<(usize, Gathered)> {
    let all = look_at_all(rt, alloc, tier, &mut fifth, b"abcd");
    let passes = vec![in alloc; fifth].ok()?;
    let gathered = tier.gather(rt, passes).ok()?;
    Some((all, gathered))
}

// The history's length once the tier is closed, and how many of its notes a replay comes to.
fn closed<L: Ledger>(alloc: Global, tier: Shared<L>) -> Option<(usize, usize)> {
    let recorded = tier.close().ok()?;
    let same = replayed(alloc, &recorded)?;
    Some((recorded.history().len(), same))
}

// What came of four threads and a fifth pass.
#[derive(Clone, Copy, PartialEq, Eq, Debug)]
struct Day {
    // What the threads' passes gathered, and what is there once the fifth is gathered too.
    first: Gathered,
    last: Gathered,
    // Whether the callers were numbered in order and each thread found its key, and how many the fifth pass found.
    own: bool,
    all: usize,
    // Why an early `close` was refused.
    early: u64,
    // The history's length at the end, and how many of its notes a replay comes to.
    records: usize,
    replayed: usize,
}

fn four_threads<L: Ledger + Send + Sync, W: Threads + Wait + Sync>(
    rt: &W,
    alloc: Global,
    blank: Blank,
) -> Option<Day>
    requires { (blank.name ≡ L.name) × (blank.parts ≡ L.parts) × (L.parts ≡ 4294967296) }
{
    let tier: Shared<L> = shared(alloc, blank)?;
    let Passes { first, fifth, own } = four_at_work(rt, alloc, &tier)?;
    let first = tier.gather(rt, first).ok()?;
    let (early, tier) = tier.close().err()?;
    let (all, last) = fifth_at_work(rt, alloc, &tier, fifth)?;
    let (records, replayed) = closed(alloc, tier)?;
    Some(Day {
        first,
        last,
        own,
        all,
        early,
        records,
        replayed,
    })
}

#[test]
fn four_threads_share_a_tier(rt: HostRuntime) {
    let day = four_threads::<Brand, HostRuntime>(&rt, rt.alloc(), Blank::new(LEDGER_PARTS));
    assert!(rt;
        day == Some(Day {
            first: Gathered {
                outstanding: 1,
                records: 12
            },
            last: Gathered {
                outstanding: 0,
                records: 20
            },
            own: true,
            all: 4,
            early: 1,
            records: 20,
            replayed: 20
        })
    );
}
