//! Whether all came of what a request reads, after some events at second 7.

use crate::asks::{Ask, event};
use bytes::Bytes;
use cache_words::time::{Duration, Moment};
use rand_core::SeedableRng;
use rand_pcg::Pcg64;
use std::alloc::Global;
use tier_model::event::{Action, Event};
use tier_single::Tier;

type One = Tier<1>;

// What comes of a write of request 1, of the key `a`, which request 2 reads as it comes.
#[derive(Clone, Copy)]
enum Step {
    Of(Ask),
    // The last piece of the write.
    Last(&'static [u8]),
}

struct Row {
    steps: &'static [Step],
    request: u64,
    told: Option<bool>,
}

// The write begins, and has a reader.
const BEGUN: &[Ask] = &[
    Ask::Open(1, b'a'),
    Ask::Look(1),
    Ask::Begin(1),
    Ask::Open(2, b'a'),
    Ask::Look(2),
    Ask::Piece(1, b"xy"),
];

const ROWS: &[Row] = &[
    // More is there.
    Row {
        steps: &[],
        request: 2,
        told: None,
    },
    // More may come.
    Row {
        steps: &[Step::Of(Ask::Read(2))],
        request: 2,
        told: None,
    },
    Row {
        steps: &[Step::Of(Ask::Read(2)), Step::Of(Ask::Finish(1))],
        request: 2,
        told: Some(true),
    },
    Row {
        steps: &[Step::Of(Ask::Read(2)), Step::Of(Ask::Drop(1))],
        request: 2,
        told: Some(false),
    },
    // It was given up, and more is there.
    Row {
        steps: &[Step::Of(Ask::Drop(1))],
        request: 2,
        told: None,
    },
    Row {
        steps: &[Step::Of(Ask::Drop(1)), Step::Of(Ask::Read(2))],
        request: 2,
        told: Some(false),
    },
    Row {
        steps: &[Step::Last(b"z"), Step::Of(Ask::Read(2))],
        request: 2,
        told: Some(true),
    },
    // All had come before it was given up.
    Row {
        steps: &[
            Step::Last(b"z"),
            Step::Of(Ask::Drop(1)),
            Step::Of(Ask::Read(2)),
        ],
        request: 2,
        told: Some(true),
    },
    // Its end met a removal.
    Row {
        steps: &[
            Step::Of(Ask::Read(2)),
            Step::Of(Ask::Purge(b'a')),
            Step::Of(Ask::Drop(1)),
        ],
        request: 2,
        told: Some(false),
    },
    // A finished body, before it is read and then.
    Row {
        steps: &[
            Step::Of(Ask::Finish(1)),
            Step::Of(Ask::Open(3, b'a')),
            Step::Of(Ask::Look(3)),
        ],
        request: 3,
        told: None,
    },
    Row {
        steps: &[
            Step::Of(Ask::Finish(1)),
            Step::Of(Ask::Open(3, b'a')),
            Step::Of(Ask::Look(3)),
            Step::Of(Ask::Read(3)),
        ],
        request: 3,
        told: Some(true),
    },
    // It reads nothing.
    Row {
        steps: &[Step::Of(Ask::Open(3, b'a'))],
        request: 3,
        told: None,
    },
    // It isn't open.
    Row {
        steps: &[],
        request: 3,
        told: None,
    },
];

fn event_of(alloc: Global, step: Step) -> Option<Event> {
    match step {
        Step::Of(ask) => event(alloc, ask),
        Step::Last(bytes) => Some(Event {
            moment: Moment::from_seconds(7),
            action: Action::Piece {
                request: 1,
                bytes: Bytes::from_static(bytes),
                end: true,
            },
        }),
    }
}

fn tells(alloc: Global, row: &Row) -> Option<bool> {
    let age = Duration::from_seconds(10);
    let mut tier = One::new(alloc, 1000, None, age, None).ok()?;
    let mut rng = Pcg64::seed_from_u64(1);
    for ask in BEGUN {
        let _answer = tier.step(&mut rng, &event(alloc, *ask)?).ok()?;
    }
    for step in row.steps {
        let _answer = tier.step(&mut rng, &event_of(alloc, *step)?).ok()?;
    }
    Some(tier.is_whole(row.request) == row.told)
}

#[test]
fn readers_are_told_whether_all_came(rt: HostRuntime) {
    for row in ROWS {
        assert!(rt; tells(rt.alloc(), row) == Some(true));
    }
}
