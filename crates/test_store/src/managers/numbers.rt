//! Numbers of entries.

ghost use Rattle.std.specs.Prelude.{◌<◌};

use crate::managers::names::{A, B, C, Name, entry, is, item};
use cache_entries::entry::CacheEntryKeyRef;
use cache_evict::numbers::{Numbers, NumbersFault};
use std::alloc::Global;
use std::hash::BuildHasherDefault;

/// A call, with what it must return.
#[derive(Clone, Copy)]
enum Step {
    /// An entry of that hash gets that number, or none is left.
    Give(Name, u64, Option<u64>),
    GiveBack(u64, Option<Name>),
    NumberOf(Name, Option<u64>),
    EntryOf(u64, Option<Name>),
    Len(usize),
    Empty(bool),
}

/// What the gift of a number to an entry returns.
#[derive(Clone, Copy)]
pub enum Given {
    Number(u64),
    /// None is left, and the entry comes back.
    Spent,
    /// There is no memory for the number, or for the entry.
    Memory,
    /// The entry has a number, or there are too many entries, or another entry comes back.
    Other,
}

/// Gives a number to the entry of a name, if it has none.
pub fn give<const N: usize>(
    alloc: Global,
    numbers: &mut Numbers<N>,
    name: Name,
    hash: u64,
) -> Given {
    let Ok(given) = entry(alloc, name) else {
        return Given::Memory;
    };
    if numbers.number_of(CacheEntryKeyRef::from(&given)).is_some() {
        return Given::Other;
    }
    match numbers.give(given, hash) {
        Ok(number) => Given::Number(number),
        Err(NumbersFault::NumbersSpent(back)) => {
            if is(alloc, Some(&back), Some(name)) {
                Given::Spent
            } else {
                Given::Other
            }
        }
        Err(NumbersFault::Memory(_)) => Given::Memory,
        Err(NumbersFault::Length(_)) => Given::Other,
    }
}

fn is_done<const N: usize>(alloc: Global, numbers: &mut Numbers<N>, step: Step) -> bool {
    match step {
        Step::Give(name, hash, wanted) => match give(alloc, numbers, name, hash) {
            Given::Number(number) => wanted == Some(number),
            Given::Spent => wanted.is_none(),
            Given::Memory | Given::Other => false,
        },
        Step::GiveBack(number, name) => match numbers.give_back(number) {
            Some(back) => is(alloc, Some(&back), name),
            None => name.is_none(),
        },
        Step::NumberOf(name, wanted) => {
            numbers.number_of(CacheEntryKeyRef::from(&item(alloc, name))) == wanted
        }
        Step::EntryOf(number, name) => is(alloc, numbers.entry_of(number), name),
        Step::Len(count) => numbers.len() == count,
        Step::Empty(empty) => numbers.is_empty() == empty,
    }
}

/// Whether all calls come true.
fn all_done<const N: usize>(alloc: Global, steps: &[Step]) -> bool
    requires { 0 < N }
{
    let mut numbers: Numbers<N> = Numbers::with_hasher(alloc, BuildHasherDefault::new());
    for &step in steps {
        if !is_done(alloc, &mut numbers, step) {
            return false;
        }
    }
    true
}

/// Numbers of one rest.
const FOUR_APART: &[&[Step]] = &[
    &[
        Step::Give(A, 5, Some(5)),
        Step::Give(B, 5, Some(9)),
        Step::Give(C, 9, Some(13)),
        Step::Len(3),
        Step::NumberOf(B, Some(9)),
        Step::EntryOf(13, Some(C)),
    ],
    &[
        Step::Give(A, u64::MAX, Some(u64::MAX)),
        Step::Give(B, u64::MAX, Some(3)),
    ],
    &[
        Step::Empty(true),
        Step::Give(A, 5, Some(5)),
        Step::Empty(false),
        Step::GiveBack(5, Some(A)),
        Step::GiveBack(5, None),
        Step::Empty(true),
        Step::NumberOf(A, None),
        Step::EntryOf(5, None),
        Step::Give(B, 5, Some(5)),
    ],
];

/// Only two numbers have a rest.
const FAR_APART: &[Step] = &[
    Step::Give(A, 0, Some(0)),
    Step::Give(B, 0, Some(9_223_372_036_854_775_808)),
    Step::Give(C, 0, None),
    Step::Len(2),
];

#[test]
fn numbers_are_given_until_they_are_spent(rt: HostRuntime) {
    for &steps in FOUR_APART {
        assert!(rt; all_done::<4>(rt.alloc(), steps));
    }
    assert!(rt; all_done::<9_223_372_036_854_775_808>(rt.alloc(), FAR_APART));
}
