//! Hits in one call, and look-ups with the head of what they find, at second 7 after some events.

use crate::asks::{Ask, event, key};
use cache_words::time::{Duration, Moment};
use rand_core::SeedableRng;
use rand_pcg::Pcg64;
use std::alloc::Global;
use tier_model::event::{Answer, TierFault};
use tier_single::{FoundMeta, Hit, LockGiven, Tier};

type One = Tier<1>;

// What a head says: its status, the second up to which it is fresh, and its text.
type Said = (u16, i64, &'static [u8]);

// What is asked of a tier after the events: a hit of a request of that number, one without a number, or the find of a request.
#[derive(Clone, Copy)]
enum Call {
    Hit(u64, u8),
    HitAlone(u8),
    Find(u64),
}

// What comes of it.
#[derive(Clone, Copy)]
enum Came {
    Body(&'static [u8], Said),
    Nothing,
    IdInUse,
    Found(bool, bool, Said),
    Absent,
    Refused,
}

struct Row {
    before: &'static [Ask],
    call: Call,
    came: Came,
    // How many look-ups found something then.
    found: u64,
}

const FRESH: Said = (200, 107, b"cache-control: max-age=100\r\n");

const STALE: Said = (200, 6, b"cache-control: no-cache\r\n");

const ROWS: &[Row] = &[
    Row {
        before: &[Ask::Put(b'a', b"xy")],
        call: Call::Hit(1, b'a'),
        came: Came::Body(b"xy", FRESH),
        found: 1,
    },
    Row {
        before: &[Ask::Put(b'a', b"xy")],
        call: Call::HitAlone(b'a'),
        came: Came::Body(b"xy", FRESH),
        found: 1,
    },
    Row {
        before: &[Ask::Put(b'a', b"xy")],
        call: Call::Hit(1, b'b'),
        came: Came::Nothing,
        found: 0,
    },
    Row {
        before: &[Ask::PutStale(b'a', b"xy")],
        call: Call::Hit(1, b'a'),
        came: Came::Nothing,
        found: 0,
    },
    // A write in flight hides the body before it.
    Row {
        before: &[
            Ask::PutStale(b'a', b"xy"),
            Ask::Open(1, b'a'),
            Ask::Look(1),
            Ask::Begin(1),
        ],
        call: Call::HitAlone(b'a'),
        came: Came::Nothing,
        found: 1,
    },
    Row {
        before: &[Ask::Put(b'a', b"xy"), Ask::Open(1, b'b')],
        call: Call::Hit(1, b'a'),
        came: Came::IdInUse,
        found: 0,
    },
    Row {
        before: &[Ask::Put(b'a', b"xy"), Ask::Open(1, b'a')],
        call: Call::Find(1),
        came: Came::Found(true, true, FRESH),
        found: 1,
    },
    Row {
        before: &[Ask::PutStale(b'a', b"xy"), Ask::Open(1, b'a')],
        call: Call::Find(1),
        came: Came::Found(false, true, STALE),
        found: 1,
    },
    // Of a write in flight the head that it began with.
    Row {
        before: &[
            Ask::PutStale(b'a', b"xy"),
            Ask::Open(1, b'a'),
            Ask::Look(1),
            Ask::Begin(1),
            Ask::Open(2, b'a'),
        ],
        call: Call::Find(2),
        came: Came::Found(true, false, FRESH),
        found: 2,
    },
    Row {
        before: &[Ask::Open(1, b'a')],
        call: Call::Find(1),
        came: Came::Absent,
        found: 0,
    },
    Row {
        before: &[Ask::Put(b'a', b"xy")],
        call: Call::Find(1),
        came: Came::Refused,
        found: 0,
    },
];

fn says(meta: &FoundMeta, said: Said) -> bool {
    let (status, until, text) = said;
    meta.head.status().as_u16() == status
        && meta.internal.fresh_until.seconds() == until
        && meta.head.text() == text
        && meta.external == 0
}

fn is_hit(came: &Result<Option<Hit>, TierFault>, wanted: Came) -> bool {
    match (came, wanted) {
        (Ok(Some(hit)), Came::Body(bytes, said)) => {
            hit.body.as_slice() == bytes && says(&hit.meta, said)
        }
        (Ok(None), Came::Nothing) => true,
        (Err(TierFault::IdInUse), Came::IdInUse) => true,
        _ => false,
    }
}

fn is_find(came: &Result<(Answer, Option<FoundMeta>), TierFault>, wanted: Came) -> bool {
    match (came, wanted) {
        (
            Ok(
                (
                    Answer::Found {
                        fresh,
                        complete,
                        lock: LockGiven::None,
                    },
                    Some(meta),
                ),
            ),
            Came::Found(is_fresh, is_complete, said),
        ) => *fresh == is_fresh && *complete == is_complete && says(meta, said),
        (Ok((Answer::Absent { .. }, None)), Came::Absent) => true,
        (Err(TierFault::NoRequest), Came::Refused) => true,
        _ => false,
    }
}

fn comes(alloc: Global, tier: &mut One, call: Call, wanted: Came) -> Option<bool> {
    let moment = Moment::from_seconds(7);
    match call {
        Call::Hit(request, name) => {
            let came = tier.hit(moment, request, &key(alloc, name)?);
            Some(is_hit(&came, wanted))
        }
        Call::HitAlone(name) => {
            let came = tier.hit_alone(moment, &key(alloc, name)?);
            Some(is_hit(&came, wanted))
        }
        Call::Find(request) => {
            let came = tier.find(moment, request);
            Some(is_find(&came, wanted))
        }
    }
}

fn plays(alloc: Global, row: &Row) -> Option<bool> {
    let age = Duration::from_seconds(10);
    let mut tier = One::new(alloc, 1000, None, age, None).ok()?;
    let mut rng = Pcg64::seed_from_u64(1);
    for ask in row.before {
        let _answer = tier.step(&mut rng, &event(alloc, *ask)?).ok()?;
    }
    let came = comes(alloc, &mut tier, row.call, row.came)?;
    Some(came && tier.report().found == row.found)
}

#[test]
fn hits_and_finds_give_body_and_head(rt: HostRuntime) {
    for row in ROWS {
        assert!(rt; plays(rt.alloc(), row) == Some(true));
    }
}
