//! Lists with actors, and names of saves, by the paths under which they are shown.

use pingora_lru::async_lru::{AsyncLru, Receiver, Rng, hash_key};
use pingora_lru::persistence::hex_word;
use rand_core::SeedableRng;
use rand_pcg::Pcg64;
use std::alloc::Global;
use std::sync::Wait;
use std::thread::Threads;

/// Whether a list has a row, and not once it is removed.
fn has_row<R: Wait>(rt: &R, list: &AsyncLru<u32, 1>) -> bool {
    list.admit(rt, 5, 7) == Ok(0)
        && list.peek_weight(rt, &5) == Ok(Some(7))
        && list.remove_by_hash(rt, hash_key(&5u32)) == Ok(())
        && list.peek(rt, &5) == Ok(false)
}

/// The same of a list with an actor.
fn answers<R: Threads + Wait + Copy + Send + 'static>(rt: &R, alloc: Global) -> Option<bool> {
    let mut generators = Vec::new(alloc);
    generators.push(Pcg64::seed_from_u64(0)).ok()?;
    let list: AsyncLru<u32, 1> = AsyncLru::builder(100, |_: u32, _: usize| {})
        .build(rt, alloc, generators)
        .ok()?;
    let all = has_row(rt, &list);
    list.shutdown(rt);
    Some(all)
}

/// A list of limit 0 without callbacks, and the receiver of its evicted pairs.
fn received<R: Threads + Wait + Copy + Send + 'static, G: Rng + Drop + Send + 'static>(
    rt: &R,
    alloc: Global,
    generators: Vec<G>,
) -> Option<(AsyncLru<u32, 1>, Receiver<(u32, usize)>)> {
    AsyncLru::builder(0, |_: u32, _: usize| {})
        .build_with_eviction_receiver(rt, alloc, generators)
        .ok()
}

/// Whether the receiver gets a row that such a list evicts.
fn receives<R: Threads + Wait + Copy + Send + 'static>(rt: &R, alloc: Global) -> Option<bool> {
    let mut generators = Vec::new(alloc);
    generators.push(Pcg64::seed_from_u64(0)).ok()?;
    let (list, pairs) = received(rt, alloc, generators)?;
    let gone = list.admit(rt, 5, 7) == Ok(0) && pairs.recv(rt).ok() == Some((5, 7));
    list.shutdown(rt);
    Some(gone)
}

#[test]
fn lists_with_actors_are_shown(rt: HostRuntime) {
    assert!(rt; answers(&rt, rt.alloc()) == Some(true));
    assert!(rt; receives(&rt, rt.alloc()) == Some(true));
}

fn is_spelled(alloc: Global, word: u32, text: &str) -> bool {
    match hex_word(alloc, word) {
        Ok(digits) => digits.as_str() == text,
        Err(_) => false,
    }
}

#[test]
fn names_of_saves_are_shown(rt: HostRuntime) {
    assert!(rt; is_spelled(rt.alloc(), 0xab, "000000ab"));
}
