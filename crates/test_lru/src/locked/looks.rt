//! Evictions and looks of lists under locks, with a record and without, each with its answer.

ghost use Rattle.std.specs.Prelude.{◌<◌};

use pingora_lru::{Lru, RecordedLru};
use rand_core::SeedableRng;
use rand_pcg::Pcg64;
use std::alloc::Global;
use std::sync::Wait;

/// Data and weights of rows.
pub(crate) type Pairs = &'static [(u32, usize)];

/// An eviction with what it takes, or another limit.
#[derive(Clone, Copy)]
pub(crate) enum Eviction {
    Shard(u64, Option<(u32, usize)>),
    Step(u64, u64, Option<(u32, usize)>),
    ToLimit(Pairs),
    Limit(usize),
}

/// A look, and what it sees.
#[derive(Clone, Copy)]
pub(crate) enum Look {
    Peek(u64, bool),
    Weight(u64, Option<usize>),
    /// The last row of a shard.
    Last(usize, Option<(u32, usize)>),
    /// The rows of a shard, most recent first, and their weight, once room for more is reserved.
    Rows(usize, Pairs, usize),
    /// How many rows there are, their weight, and the same of the evicted ones.
    Counts(usize, usize, usize, usize),
}

fn plain_evicts_to_limit<R: Wait, const N: usize>(
    rt: &R,
    alloc: Global,
    list: &Lru<u32, N>,
    pairs: Pairs,
) -> bool {
    match list.evict_to_limit(rt, alloc, &mut Pcg64::seed_from_u64(1)) {
        Ok(gone) => gone.as_slice() == pairs,
        Err(_) => false,
    }
}

/// Whether an eviction from a list without a record takes what it must.
pub(crate) fn plain_evicts<R: Wait, const N: usize>(
    rt: &R,
    alloc: Global,
    list: &Lru<u32, N>,
    eviction: Eviction,
) -> bool {
    match eviction {
        Eviction::Shard(shard, gone) => list.evict_shard(rt, shard) == gone,
        Eviction::Step(a, b, gone) => list.evict_step(rt, a, b) == gone,
        Eviction::ToLimit(pairs) => plain_evicts_to_limit(rt, alloc, list, pairs),
        Eviction::Limit(limit) => {
            list.set_weight_limit(limit);
            list.weight_limit() == limit
        }
    }
}

fn recorded_evicts_to_limit<R: Wait, const N: usize>(
    rt: &R,
    alloc: Global,
    list: &RecordedLru<u32, N>,
    pairs: Pairs,
) -> bool {
    match list.evict_to_limit(rt, alloc, &mut Pcg64::seed_from_u64(1)) {
        Ok(gone) => gone.as_slice() == pairs,
        Err(_) => false,
    }
}

/// The same of a list with a record.
pub(crate) fn recorded_evicts<R: Wait, const N: usize>(
    rt: &R,
    alloc: Global,
    list: &RecordedLru<u32, N>,
    eviction: Eviction,
) -> bool {
    match eviction {
        Eviction::Shard(shard, gone) => list.evict_shard(rt, shard).ok() == Some(gone),
        Eviction::Step(a, b, gone) => list.evict_step(rt, a, b).ok() == Some(gone),
        Eviction::ToLimit(pairs) => recorded_evicts_to_limit(rt, alloc, list, pairs),
        Eviction::Limit(limit) => {
            list.set_weight_limit(limit);
            list.weight_limit() == limit
        }
    }
}

/// Whether the next row that is expected is this one; it isn't expected any more then.
fn is_next(rows: &mut &[(u32, usize)], data: u32, weight: usize) -> bool {
    match rows.split_first() {
        Some((row, rest)) => {
            let same = row.0 == data && row.1 == weight;
            *rows = rest;
            same
        }
        None => false,
    }
}

/// Whether a shard of a list without a record has these rows, most recent first.
fn plain_shows<R: Wait, const N: usize>(
    rt: &R,
    list: &Lru<u32, N>,
    shard: usize,
    rows: Pairs,
) -> bool
    requires { shard < N }
{
    let mut left = rows;
    let mut same = true;
    list.iter_for_each(rt, shard, |(data, weight): (&u32, usize)| {
        same = is_next(&mut left, *data, weight) && same;
    });
    same && left.is_empty() && list.shard_len(rt, shard) == rows.len()
}

/// The same of a list with a record.
fn recorded_shows<R: Wait, const N: usize>(
    rt: &R,
    list: &RecordedLru<u32, N>,
    shard: usize,
    rows: Pairs,
) -> bool
    requires { shard < N }
{
    let mut left = rows;
    let mut same = true;
    list.iter_for_each(rt, shard, |(data, weight): (&u32, usize)| {
        same = is_next(&mut left, *data, weight) && same;
    });
    same && left.is_empty() && list.shard_len(rt, shard) == rows.len()
}

/// Whether a shard of a list without a record has these rows with their weight, once room for more is reserved.
fn plain_has<R: Wait, const N: usize>(
    rt: &R,
    list: &Lru<u32, N>,
    shard: usize,
    rows: Pairs,
    weight: usize,
) -> bool {
    shard < N
        && list.reserve_shard(rt, shard, 4).is_ok()
        && plain_shows(rt, list, shard, rows)
        && list.shard_weight(rt, shard) == weight
}

/// The same of a list with a record.
fn recorded_has<R: Wait, const N: usize>(
    rt: &R,
    list: &RecordedLru<u32, N>,
    shard: usize,
    rows: Pairs,
    weight: usize,
) -> bool {
    shard < N
        && list.reserve_shard(rt, shard, 4).is_ok()
        && recorded_shows(rt, list, shard, rows)
        && list.shard_weight(rt, shard) == weight
}

/// Whether a look at a list without a record sees what it must.
pub(crate) fn plain_looks<R: Wait, const N: usize>(rt: &R, list: &Lru<u32, N>, look: Look) -> bool {
    match look {
        Look::Peek(key, found) => list.peek(rt, key) == found,
        Look::Weight(key, weight) => list.peek_weight(rt, key) == weight,
        Look::Last(shard, last) => shard < N && list.peek_lru(rt, shard).ok() == Some(last),
        Look::Rows(shard, rows, weight) => plain_has(rt, list, shard, rows, weight),
        Look::Counts(len, weight, evicted_len, evicted_weight) => {
            list.len() == len
                && list.weight() == weight
                && list.evicted_len() == evicted_len
                && list.evicted_weight() == evicted_weight
        }
    }
}

/// The same of a list with a record.
pub(crate) fn recorded_looks<R: Wait, const N: usize>(
    rt: &R,
    list: &RecordedLru<u32, N>,
    look: Look,
) -> bool {
    match look {
        Look::Peek(key, found) => list.peek(rt, key) == found,
        Look::Weight(key, weight) => list.peek_weight(rt, key) == weight,
        Look::Last(shard, last) => shard < N && list.peek_lru(rt, shard).ok() == Some(last),
        Look::Rows(shard, rows, weight) => recorded_has(rt, list, shard, rows, weight),
        Look::Counts(len, weight, evicted_len, evicted_weight) => {
            list.len() == len
                && list.weight() == weight
                && list.evicted_len() == evicted_len
                && list.evicted_weight() == evicted_weight
        }
    }
}
