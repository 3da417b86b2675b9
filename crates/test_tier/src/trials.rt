//! Trials of a tier without a file: what is asked of it, and how that goes.
use crate::asks::{Ask, event, key};
use crate::outcomes::{Outcome, is_answer, outcome_of};
use cache_evict::EvictionManager;
use cache_store::storage::Storage;
use cache_words::time::Duration;
use lru_files::persistence::MemFolder;
use rand_pcg::Pcg32;
use std::alloc::{AllocError, Global};
use tier_single::tier::Tier;

// A call on a tier of which something was asked before.
#[derive(Clone, Copy)]
pub(crate) struct Row {
    pub(crate) limit: usize,
    pub(crate) before: &'static [Ask],
    pub(crate) ask: Ask,
    // What comes of it where memory is there, and what comes of what is asked then.
    pub(crate) want: Outcome,
    pub(crate) after: &'static [(Ask, Outcome)],
    // What comes of what is asked after a refusal that did nothing, and after one that took a body back.
    pub(crate) refused: &'static [(Ask, Outcome)],
    pub(crate) taken_back: &'static [(Ask, Outcome)],
    // After how many evictions memory may run out, and what comes of what is asked then.
    pub(crate) evicted: usize,
    pub(crate) cut_short: &'static [(Ask, Outcome)],
}

// What is done with a tier that is empty.
#[derive(Clone, Copy)]
pub(crate) enum Trial {
    Call(Row),
    // What is asked first, and then what has these outcomes.
    Steps(&'static [Ask], &'static [(Ask, Outcome)]),
    // The same, where what has these outcomes is asked in one run.
    Run(&'static [Ask], &'static [(Ask, Outcome)]),
    // A start from a folder without a file, and then what has these outcomes: before each of them the tier is new, and after them it isn't.
    Start(&'static [(Ask, Outcome)]),
    // What is asked, and whether the tier is new then, and holds nothing but its order of use.
    New(&'static [Ask], bool, bool),
    // What has these outcomes, with what is tracked then weighs, and what was evicted.
    Weights(&'static [(Ask, Outcome, u64, usize)]),
    // What is asked, and until which second the head is fresh that a look-up of the key `a` finds then.
    Shown(&'static [Ask], Option<i64>),
    // The store is lent: it has the body of a put, and shows writes in flight.
    Store,
}

// What came of a trial.
#[derive(Clone, Copy, PartialEq, Eq)]
pub(crate) enum Held {
    Answered,
    // Memory was refused, and what is left is as before.
    Refused,
    // Memory was refused before the call or after it.
    Elsewhere,
    Broken,
}

pub(crate) fn step<const N: usize>(alloc: Global, tier: &mut Tier<N>, ask: Ask) -> Outcome {
    let mut rng = Pcg32::new(1, 1);
    match event(alloc, ask) {
        Some(event) => outcome_of(&tier.step(&mut rng, &event)),
        None => Outcome::Unasked,
    }
}

// What it says of a trial that an outcome isn't as wanted.
fn differs(outcome: Outcome) -> Held {
    if is_answer(outcome) || outcome == Outcome::Else {
        Held::Broken
    } else {
        Held::Elsewhere
    }
}

// Whether what is asked has these outcomes; `held` where it does.
pub(crate) fn follow(
    alloc: Global,
    tier: &mut Tier<1>,
    asks: &[(Ask, Outcome)],
    held: Held,
) -> Held {
    for &(ask, want) in asks {
        let outcome = step(alloc, tier, ask);
        if outcome != want {
            return differs(outcome);
        }
    }
    held
}

// Asks all this of a tier, and says whether memory was there for it.
pub(crate) fn is_ready(alloc: Global, tier: &mut Tier<1>, asks: &[Ask]) -> bool {
    for &ask in asks {
        if !is_answer(step(alloc, tier, ask)) {
            return false;
        }
    }
    true
}

// What comes of the row's call, by a tier of which was asked what comes before it.
fn call(alloc: Global, tier: &mut Tier<1>, row: &Row) -> Held {
    let before = tier.report();
    let outcome = step(alloc, tier, row.ask);
    let is_same = tier.report() == before;
    let (asks, held) = match outcome {
        Outcome::Unasked => return Held::Elsewhere,
        Outcome::Refused if is_same => (row.refused, Held::Refused),
        Outcome::TakenBack if is_same => (row.taken_back, Held::Refused),
        // the body that was there is gone with its entry
        Outcome::TakenBack if matches!(row.ask, Ask::RevalidateLong(_)) => {
            (row.taken_back, Held::Refused)
        }
        Outcome::CutShort(evicted) if evicted == row.evicted => (row.cut_short, Held::Refused),
        outcome if outcome == row.want => (row.after, Held::Answered),
        _ => return Held::Broken,
    };
    follow(alloc, tier, asks, held)
}

// What comes of one run; a run that is refused leaves the tier as it was.
fn run(alloc: Global, tier: &mut Tier<1>, asks: &[(Ask, Outcome)]) -> Held {
    let mut events = Vec::new(alloc);
    for &(ask, _) in asks {
        match event(alloc, ask) {
            Some(event) => {
                if events.push(event).is_err() {
                    return Held::Elsewhere;
                }
            }
            None => return Held::Elsewhere,
        }
    }
    let mut rng = Pcg32::new(1, 1);
    let before = tier.report();
    match tier.run(&mut rng, events.as_slice()) {
        Ok(outcomes) => {
            let mut held = Held::Answered;
            for (outcome, &(_, want)) in outcomes.iter().zip(asks) {
                let outcome = outcome_of(outcome);
                if held == Held::Answered && outcome != want {
                    held = differs(outcome);
                }
            }
            if outcomes.len() == asks.len() {
                held
            } else {
                Held::Broken
            }
        }
        Err(_) => {
            if tier.report() == before {
                Held::Refused
            } else {
                Held::Broken
            }
        }
    }
}

// Whether a tier is new, and starts from a folder without a file.
fn starts(tier: &mut Tier<1>, folder: &mut MemFolder) -> bool {
    if !tier.is_new() {
        return false;
    }
    match tier.start(folder, "dir") {
        Ok(report) => report.missing == 1,
        Err(_) => false,
    }
}

fn start(alloc: Global, tier: &mut Tier<1>, asks: &[(Ask, Outcome)]) -> Held {
    let mut folder = MemFolder::new(alloc);
    let mut holds = starts(tier, &mut folder);
    for &(ask, want) in asks {
        holds = tier.is_new() && step(alloc, tier, ask) == want && holds;
    }
    if holds && !tier.is_new() {
        Held::Answered
    } else {
        Held::Broken
    }
}

fn weigh(alloc: Global, tier: &mut Tier<1>, asks: &[(Ask, Outcome, u64, usize)]) -> Held {
    for &(ask, want, weight, evicted) in asks {
        let outcome = step(alloc, tier, ask);
        if outcome != want {
            return differs(outcome);
        }
        if tier.report().weight != weight || tier.manager().evicted_size() != evicted {
            return Held::Broken;
        }
    }
    Held::Answered
}

// Whether the head of what is found under the key `a` is shown, which is fresh until that second.
fn shows(alloc: Global, tier: &Tier<1>, until: Option<i64>) -> Held {
    let Some(key) = key(alloc, b'a') else {
        return Held::Elsewhere;
    };
    let seconds = match tier.shown(&key) {
        Some(shown) => match shown.to_meta(alloc) {
            Ok(meta) => Some(meta.internal.fresh_until.seconds()),
            Err(AllocError) => return Held::Refused,
        },
        None => None,
    };
    if seconds == until {
        Held::Answered
    } else {
        Held::Broken
    }
}

fn try_on(alloc: Global, tier: &mut Tier<1>, trial: Trial) -> Held {
    match trial {
        Trial::Call(row) => {
            if is_ready(alloc, tier, row.before) {
                call(alloc, tier, &row)
            } else {
                Held::Elsewhere
            }
        }
        Trial::Steps(before, asks) => {
            if is_ready(alloc, tier, before) {
                follow(alloc, tier, asks, Held::Answered)
            } else {
                Held::Refused
            }
        }
        Trial::Run(before, asks) => {
            if is_ready(alloc, tier, before) {
                run(alloc, tier, asks)
            } else {
                Held::Elsewhere
            }
        }
        Trial::Start(asks) => start(alloc, tier, asks),
        Trial::Weights(asks) => weigh(alloc, tier, asks),
        Trial::New(asks, is_new, has_only_order) => {
            if !is_ready(alloc, tier, asks) {
                Held::Elsewhere
            } else if tier.is_new() == is_new && tier.has_only_order() == has_only_order {
                Held::Answered
            } else {
                Held::Broken
            }
        }
        Trial::Shown(asks, until) => {
            if is_ready(alloc, tier, asks) {
                shows(alloc, tier, until)
            } else {
                Held::Elsewhere
            }
        }
        Trial::Store => {
            let put = step(alloc, tier, Ask::Put(b'a', b"xx"));
            if put != Outcome::Finished(2, 0) {
                differs(put)
            } else if tier.store().support_streaming_partial_write()
                && tier.store().finished_len() == 1
            {
                Held::Answered
            } else {
                Held::Broken
            }
        }
    }
}

// What comes of a trial of a tier with this limit.
pub(crate) fn try_out(alloc: Global, limit: usize, what: Trial) -> Held {
    match Tier::<1>::new(alloc, limit, None, Duration::from_seconds(1), None) {
        Ok(mut tier) => try_on(alloc, &mut tier, what),
        Err(AllocError) => Held::Refused,
    }
}
