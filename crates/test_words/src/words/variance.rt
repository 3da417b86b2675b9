//! The hash of what a response varies by.
use crate::words::{bytes, string};
use cache_words::key::{HashBinary, str2hex};
use cache_words::laws;
use cache_words::variance::VarianceBuilder;
use std::alloc::Global;

#[derive(Clone, Copy)]
enum Given {
    Borrowed,
    OwnedValue,
    OwnedBoth,
}

type Row = (&'static str, &'static str, Given);

// Names with values, and the hash that the original cache's own code gives.
const CASES: &[(&[Row], &str)] = &[
    (
        &[
            ("x", "éé", Given::OwnedBoth),
            ("accept-encoding", ",", Given::OwnedValue),
            ("x", ",ab", Given::OwnedBoth),
        ],
        "b0d008adcdf47d62c546bd0f620231cd",
    ),
    (
        &[
            ("", " b", Given::OwnedValue),
            ("accept-encoding", ";,,a", Given::OwnedValue),
            ("", ",;", Given::Borrowed),
        ],
        "b537dea3d7ae7a62acc81e70af983a63",
    ),
    (
        &[
            ("origin", "bé  ", Given::Borrowed),
            ("", "b", Given::OwnedValue),
            ("", "", Given::OwnedBoth),
        ],
        "9d34549d893637ca98a278cc85dcbf30",
    ),
    (
        &[("", ";,", Given::Borrowed)],
        "02e2a14c3f6ecf5d6a4a6002b37939f3",
    ),
    (
        &[("x", "é", Given::Borrowed)],
        "b86d6b881e39e2889b93fa5dc31bf243",
    ),
];

// The names of one set in two orders, of which the second gives one of them twice.
const ORDER: &[Row] = &[
    ("a", "1", Given::Borrowed),
    ("b", "2", Given::Borrowed),
    ("c", "3", Given::Borrowed),
];

const OTHER_ORDER: &[Row] = &[
    ("c", "3", Given::OwnedBoth),
    ("a", "0", Given::OwnedBoth),
    ("b", "2", Given::OwnedBoth),
    ("a", "1", Given::OwnedBoth),
];

// The variance of rows; `None` where memory is refused.
fn variance_of(alloc: Global, rows: &[Row]) -> Option<Option<HashBinary>> {
    let mut builder = VarianceBuilder::new(alloc);
    for &(name, value, given) in rows {
        let is_added = match given {
            Given::Borrowed => builder.add_value(name, value).is_ok(),
            Given::OwnedValue => {
                builder
                    .add_owned_value(name, bytes(alloc, value.as_bytes()))
                    .is_ok()
            }
            Given::OwnedBoth => {
                builder
                    .add_owned_name_value(string(alloc, name), bytes(alloc, value.as_bytes()))
                    .is_ok()
            }
        };
        if !is_added {
            return None;
        }
    }
    Some(builder.finalize())
}

fn are_hashes(alloc: Global) -> bool {
    for &(rows, hash) in CASES {
        if variance_of(alloc, rows) != Some(str2hex(hash)) {
            return false;
        }
    }
    variance_of(alloc, &[]) == Some(None)
}

fn are_one_hash(alloc: Global, rows: &[Row], others: &[Row]) -> bool {
    match variance_of(alloc, rows) {
        Some(Some(hash)) => variance_of(alloc, others) == Some(Some(hash)),
        _ => false,
    }
}

const LENT: &[Row] = &[
    ("a", "1", Given::Borrowed),
    ("b", "1", Given::Borrowed),
    ("c", "1", Given::Borrowed),
    ("d", "1", Given::Borrowed),
];

// Whether values of each type are added, and then there is a variance, which there wasn't before: that of rows.
fn are_lent(alloc: Global, rows: &[Row]) -> bool {
    let vec = bytes(alloc, b"1");
    let string = string(alloc, "1");
    let mut builder = VarianceBuilder::new(alloc);
    let before = builder.has_variance();
    !before
        && builder.add_value("a", vec.as_slice()).is_ok()
        && builder.add_value("b", b"1").is_ok()
        && builder.add_value("c", &vec).is_ok()
        && builder.add_value("d", &string).is_ok()
        && builder.has_variance()
        && Some(builder.finalize()) == variance_of(alloc, rows)
}

#[test]
fn variances_as_the_original(rt: HostRuntime) {
    laws::any_order();
    assert!(rt; are_hashes(rt.alloc()));
    assert!(rt; are_one_hash(rt.alloc(), ORDER, OTHER_ORDER));
    assert!(rt; are_lent(rt.alloc(), LENT));
}
