//! Requests that are served where memory is refused, by one tier and by two side by side.
use crate::asks::key;
use crate::trials::Held;
use bytes::Bytes;
use cache_words::time::{Duration, Moment};
use rand_pcg::Pcg32;
use seeded_hashing::SeededState;
use std::alloc::Global;
use tier_model::event::TierFault;
use tier_model::report::Report;
use tier_pairs::{Pair, Side, Stopped, run_two, uniform};
use tier_served::{Method, Request, Serve, Served};
use tier_single::tier::Tier;

// A key, and the response that the origin would give; none where what is stored is purged.
type Asked = (u8, &'static [u8]);

const TWO: &[u8] = b"HTTP/1.1 200 OK\r\nCache-Control: max-age=100\r\n\r\nxx";

const THREE: &[u8] = b"HTTP/1.1 200 OK\r\nCache-Control: max-age=100\r\n\r\nxxx";

// Of the length of the first, and with a shorter head.
const LIGHT: &[u8] = b"HTTP/1.1 200 OK\r\nCache-Control: max-age=10\r\n\r\nxx";

// What serving a request gave: a body of so many bytes, or whether the key was found, how many bytes were stored then, and after how
// many evictions.
#[derive(Clone, Copy, PartialEq, Eq)]
enum Gave {
    Hit(usize),
    Filled(bool, usize, usize),
    Purged(bool),
    Refused,
    Else,
}

fn of_served(served: &Served) -> Gave {
    match served {
        Served::Hit { body } => Gave::Hit(body.len()),
        Served::Filled {
            found,
            length,
            evicted,
        } => Gave::Filled(*found, *length, evicted.as_slice().len()),
        Served::Passed { .. } => Gave::Else,
        Served::Purged(was) => Gave::Purged(*was),
    }
}

fn told_by(came: Result<Served, TierFault>) -> Gave {
    match came {
        Ok(served) => of_served(&served),
        Err(TierFault::Memory(_)) => Gave::Refused,
        Err(_) => Gave::Else,
    }
}

fn method(response: &'static [u8]) -> Method {
    if response.is_empty() {
        Method::Purge
    } else {
        Method::Get {
            response: Bytes::from_static(response),
        }
    }
}

fn request(alloc: Global, asked: Asked) -> Option<Request> {
    match key(alloc, asked.0) {
        Some(key) => Some(Request {
            moment: Moment::from_seconds(7),
            key,
            method: method(asked.1),
        }),
        None => None,
    }
}

fn serve(alloc: Global, tier: &mut Tier<1>, asked: Asked) -> Gave {
    let mut rng = Pcg32::new(1, 1);
    match request(alloc, asked) {
        Some(request) => told_by(tier.serve(alloc, &mut rng, &request)),
        None => Gave::Refused,
    }
}

fn looked(report: Report) -> u64 {
    report.found.saturating_add(report.absent)
}

// Whether all is as before, but for one look-up at most.
fn is_left(before: Report, now: Report) -> bool {
    let counted = Report {
        found: before.found,
        absent: before.absent,
        ..now
    };
    counted == before && looked(now).saturating_sub(looked(before)) <= 1
}

// What a request gives; after one that is refused, what the next one does.
fn serve_again(alloc: Global, tier: &mut Tier<1>, asked: Asked) -> Gave {
    let before = tier.report();
    let gave = serve(alloc, tier, asked);
    if gave != Gave::Refused {
        return gave;
    }
    if is_left(before, tier.report()) {
        serve(alloc, tier, asked)
    } else {
        Gave::Else
    }
}

// What is asked of an empty tier of 104 bytes, two bodies of two with their metas, and what it gives.
const SERVED: &[(Asked, Gave)] = &[
    ((b'a', TWO), Gave::Filled(false, 2, 0)),
    ((b'a', TWO), Gave::Hit(2)),
    ((b'b', THREE), Gave::Filled(false, 3, 1)),
    ((b'b', b""), Gave::Purged(true)),
];

fn tier(alloc: Global, limit: usize) -> Option<Tier<1>> {
    Tier::<1>::new(alloc, limit, None, Duration::from_seconds(1), None).ok()
}

fn all_served(alloc: Global, tier: &mut Tier<1>) -> bool {
    let mut all = true;
    for &(asked, want) in SERVED {
        all = serve_again(alloc, tier, asked) == want && all;
    }
    all
}

fn serves(alloc: Global) -> bool {
    match tier(alloc, 104) {
        Some(mut tier) => all_served(alloc, &mut tier),
        None => true,
    }
}

#[test]
fn a_refused_serve_keeps_its_look_up_alone(rt: HostRuntime) {
    assert!(rt; serves(rt.alloc()));
}

// What is asked of two tiers, of 103 bytes and of 104.
const ASKED: &[Asked] = &[(b'a', TWO), (b'b', TWO), (b'a', TWO)];

const WANTED: &[(Gave, Gave)] = &[
    (Gave::Filled(false, 2, 0), Gave::Filled(false, 2, 0)),
    (Gave::Filled(false, 2, 1), Gave::Filled(false, 2, 0)),
    (Gave::Filled(false, 2, 1), Gave::Hit(2)),
];

fn requests(alloc: Global, all: &[Asked]) -> Option<Vec<Request>> {
    let mut requests = Vec::new(alloc);
    for &asked in all {
        match request(alloc, asked) {
            Some(request) => {
                if requests.push(request).is_err() {
                    return None;
                }
            }
            None => return None,
        }
    }
    Some(requests)
}

fn is_wanted(pair: &Pair, place: usize) -> bool {
    match WANTED.get(place) {
        Some(&(lesser, greater)) => {
            of_served(&pair.lesser) == lesser && of_served(&pair.greater) == greater
        }
        None => false,
    }
}

fn are_wanted(pairs: &[Pair]) -> bool {
    let mut all = true;
    let mut place = 0usize;
    for pair in pairs {
        all = is_wanted(pair, place) && all;
        place = place.wrapping_add(1);
    }
    all
}

// Whether a run that stopped gives the pairs until then, and tells whose fault it was: that tier's look-up is counted or not, the lesser
// one served as many requests as there are pairs, and one more where the fault is the other's.
fn is_told(stopped: &Stopped, lesser: u64, greater: u64) -> bool {
    let served = stopped.pairs.len() as u64;
    let is_told = match stopped.side {
        None => served == 0 && lesser == 0 && greater == 0,
        Some(Side::Lesser) => greater == served && lesser.saturating_sub(served) <= 1,
        Some(Side::Greater) => lesser.saturating_sub(served) == 1 && greater <= lesser,
    };
    is_told && matches!(stopped.fault, TierFault::Memory(_)) && are_wanted(stopped.pairs.as_slice())
}

fn run(alloc: Global, lesser: &mut Tier<1>, greater: &mut Tier<1>, requests: &[Request]) -> Held {
    let mut rng = Pcg32::new(1, 1);
    match run_two(alloc, lesser, greater, &mut rng, requests) {
        Ok(pairs) if pairs.len() == 3 && are_wanted(pairs.as_slice()) => Held::Answered,
        Err(stopped) if is_told(&stopped, looked(lesser.report()), looked(greater.report())) => {
            Held::Refused
        }
        _ => Held::Broken,
    }
}

fn run_beside(alloc: Global, lesser: &mut Tier<1>, requests: &[Request]) -> Held {
    match tier(alloc, 104) {
        Some(mut greater) => run(alloc, lesser, &mut greater, requests),
        None => Held::Elsewhere,
    }
}

// A run of two tiers that are empty.
fn run_fresh(alloc: Global, requests: &[Request]) -> Held {
    match tier(alloc, 103) {
        Some(mut lesser) => run_beside(alloc, &mut lesser, requests),
        None => Held::Elsewhere,
    }
}

// The same, and where that is refused once more.
fn run_again(alloc: Global, requests: &[Request]) -> Held {
    match run_fresh(alloc, requests) {
        Held::Refused => match run_fresh(alloc, requests) {
            Held::Answered => Held::Refused,
            _ => Held::Broken,
        },
        held => held,
    }
}

fn runs(alloc: Global) -> Held {
    match requests(alloc, ASKED) {
        Some(requests) => run_again(alloc, requests.as_slice()),
        None => Held::Elsewhere,
    }
}

#[test]
fn a_refused_run_of_two_gives_the_pairs_before_it(rt: HostRuntime) {
    assert!(rt; runs(rt.alloc()) != Held::Broken);
}

const UNLIKE: &[Asked] = &[(b'a', TWO), (b'a', THREE)];

const UNLIKE_HEADS: &[Asked] = &[(b'a', TWO), (b'a', LIGHT)];

// Whether requests are uniform, by a second try where the first is refused.
fn is_uniform(alloc: Global, requests: &[Request]) -> bool {
    let hasher = SeededState { word: 3 };
    match uniform(alloc, hasher, requests) {
        Ok(yes) => yes,
        Err(_) => uniform(alloc, hasher, requests).unwrap_or(false),
    }
}

// Whether that is so or not, as told.
fn are_uniform(alloc: Global, all: &[Asked], want: bool) -> bool {
    match requests(alloc, all) {
        Some(requests) => is_uniform(alloc, requests.as_slice()) == want,
        None => true,
    }
}

#[test]
fn a_refused_question_is_answered_when_asked_again(rt: HostRuntime) {
    let alike = are_uniform(rt.alloc(), ASKED, true);
    assert!(rt; alike && are_uniform(rt.alloc(), UNLIKE, false));
    assert!(rt; are_uniform(rt.alloc(), UNLIKE_HEADS, false));
}

#[test]
fn ample_memory_meets_no_refusal(rt: HostRuntime) {
    assert!(rt; runs(rt.alloc()) == Held::Answered && serves(rt.alloc()));
}
