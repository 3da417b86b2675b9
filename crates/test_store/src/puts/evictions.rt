//! Puts that evict, and puts that memory cuts short.
use crate::puts::bench::{Cache, Cut, Got, Put, cache, holds, put_in};
use std::alloc::Global;
use std::test::*;

#[derive(Clone, Copy)]
enum Step {
    // A put of a body at a second.
    Put(u8, &'static [u8], i64, Got),
    // What is found under a key.
    Find(u8, Option<&'static [u8]>),
}

// A body weighs its bytes and 58 of its meta: 26 of moments and numbers, and 32 of the head.
const META: usize = 58;

// Room for three bodies with four bytes.
const LIMIT: usize = 3 * META + 4;

// With its meta one byte more than the limit.
const LARGE: &[u8] = &[b'x'; LIMIT - META + 1];

// With its meta so many that only an empty body with its meta would be too many beside it.
const LONG: &[u8] = &[b'f'; LIMIT - 2 * META + 1];

const LIMITED: &[Step] = &[
    Step::Put(b'a', b"a", 1000, Got::Stored(1, 0)),
    Step::Put(b'b', b"bb", 1000, Got::Stored(2, 0)),
    Step::Put(b'c', b"c", 1000, Got::Stored(1, 0)),
    Step::Put(b'd', b"dd", 1000, Got::Stored(2, 2)),
    Step::Find(b'a', None),
    Step::Find(b'b', None),
    Step::Find(b'c', Some(b"c")),
    Step::Find(b'd', Some(b"dd")),
    // A body that is larger than the limit evicts all, and itself.
    Step::Put(b'x', LARGE, 1000, Got::Stored(LIMIT - META + 1, 3)),
    Step::Find(b'c', None),
    Step::Find(b'x', None),
    // An empty body weighs its meta.
    Step::Put(b'e', b"", 1000, Got::Stored(0, 0)),
    Step::Put(b'f', LONG, 1000, Got::Stored(LIMIT - 2 * META + 1, 1)),
    Step::Find(b'e', None),
    // A later body takes the place of an earlier one.
    Step::Put(b'f', b"f", 1000, Got::Stored(1, 0)),
    Step::Find(b'f', Some(b"f")),
    // A moment before 1970 can't be written, and what is stored stays.
    Step::Put(b'f', b"g", -1, Got::Refused("meta moment")),
    Step::Find(b'f', Some(b"f")),
];

const HEAD: &[u8] = b"HTTP/1.1 200 OK\r\nCache-Control: max-age=100\r\n\r\n";

fn put_at(name: u8, body: &'static [u8], second: i64) -> Put {
    Put {
        name,
        head: HEAD,
        body,
        cut: Cut::HeadAndBody,
        limit: None,
        second,
    }
}

fn is_done(alloc: Global, cache: &mut Cache, step: Step) -> bool {
    match step {
        Step::Put(name, body, second, want) => match put_in(
            alloc,
            cache,
            put_at(name, body, second),
        ) {
            Some((got, _)) => got == want,
            None => false,
        },
        Step::Find(name, body) => holds(alloc, cache, name, body) == Some(true),
    }
}

fn all_done(alloc: Global, cache: &mut Cache, steps: &[Step]) -> bool {
    for &step in steps {
        if !is_done(alloc, cache, step) {
            return false;
        }
    }
    true
}

#[test]
fn puts_evict_and_purge(rt: HostRuntime) {
    let done = match cache(rt.alloc(), LIMIT) {
        Some(mut cache) => all_done(rt.alloc(), &mut cache, LIMITED),
        None => false,
    };
    assert!(rt; done);
}

// Whether, after a put of `b` with room for one of both, `a` and `b` are found as what came of it says.
fn is_left_so(alloc: Global, cache: &mut Cache, got: Got) -> Option<bool> {
    match got {
        Got::Stored(..) => Some(
            holds(alloc, cache, b'a', None)? && holds(alloc, cache, b'b', Some(b"bbb"))?,
        ),
        Got::CutShort(evicted) => {
            let kept: Option<&[u8]> = if evicted == 0 { Some(b"aaa") } else { None };
            Some(holds(alloc, cache, b'a', kept)? && holds(alloc, cache, b'b', None)?)
        }
        _ => Some(false),
    }
}

fn put_two(alloc: Global, cache: &mut Cache) -> Option<bool> {
    if let (Got::CutShort(_), _) = put_in(alloc, cache, put_at(b'a', b"aaa", 1000))? {
        return None;
    }
    let (got, _) = put_in(alloc, cache, put_at(b'b', b"bbb", 1000))?;
    is_left_so(alloc, cache, got)
}

#[test]
fn a_put_that_memory_cuts_short_is_taken_back(rt: HostRuntime) {
    let left = match cache(rt.alloc(), META + 4) {
        Some(mut cache) => put_two(rt.alloc(), &mut cache),
        None => None,
    };
    assert!(rt; left != Some(false));
}
