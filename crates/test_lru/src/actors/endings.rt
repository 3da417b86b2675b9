//! What a shutdown leaves undone.

use crate::actors::made::{comes_past, limited, received};
use lru_async::AsyncLru;
use rand_core::{Rng, SeedableRng};
use rand_pcg::Pcg64;
use std::alloc::Global;
use std::sync::atomic::{AtomicU64, Ordering};
use std::sync::{Arc, Wait};
use std::thread::Threads;

/// How many draws have begun, and how many generators are gone.
#[derive(Drop)]
struct Signs {
    drawn: AtomicU64,
    gone: AtomicU64,
}

impl Signs {
    /// Begins a draw. The first waits until a generator is gone, for so many turns at most.
    fn begin(&self) {
        if self.drawn.fetch_add(1, Ordering::SeqCst) == 0 {
            let _ = comes_past(&self.gone, 0);
        }
    }
}

/// A generator that shows its draws and its end.
struct Shown {
    words: Pcg64,
    signs: Arc<Signs>,
}

impl Drop for Shown {
    fn drop(self) {
        let Shown { words: _, signs } = self;
        signs.gone.fetch_add(1, Ordering::SeqCst);
    }
}

impl Rng for Shown {
    ghost stream = { λ s. ⟦<Pcg64 as Rng>⟧.stream s.words };

    fn next_u32(&mut self) -> u32 {
        self.words.next_u32()
    }

    fn next_u64(&mut self) -> u64 {
        self.signs.begin();
        self.words.next_u64()
    }

    fn fill_bytes(&mut self, dst: &mut [u8]) {
        self.words.fill_bytes(dst)
    }
}

fn generators(alloc: Global, signs: &Arc<Signs>) -> Option<Vec<Shown>> {
    let mut generators = Vec::new(alloc);
    for seed in 0..2 {
        let words = Pcg64::seed_from_u64(seed);
        let signs = Arc::try_clone(signs).ok()?;
        generators.push(Shown { words, signs }).ok()?;
    }
    Some(generators)
}

type List = AsyncLru<u32, 1>;

/// Whether rows are sent that weigh nothing, and one that passes the limit, and one worker is woken.
fn wakes<R: Wait>(rt: &R, list: &List, signs: &Signs) -> bool {
    for key in 0..9 {
        if list.insert_tail(rt, key, 0) != Ok(0) {
            return false;
        }
    }
    list.admit(rt, 9, 1) == Ok(0) && comes_past(&signs.drawn, 0)
}

/// Ends a list of limit 0 with two eviction workers while one of them is in a step of eviction, which goes on once the other has ended.
/// Returns whether the pair that is evicted then is the only one.
fn ends<R: Threads + Wait + Copy + Send + 'static>(rt: &R, alloc: Global) -> Option<bool> {
    let drawn = AtomicU64::new(0);
    let gone = AtomicU64::new(0);
    let signs = Arc::new(alloc, Signs { drawn, gone }).ok()?;
    let (list, pairs) = received(rt, alloc, limited(0, None, 2), generators(alloc, &signs)?)?;
    let woken = wakes(rt, &list, &signs);
    list.shutdown(rt);
    Some(woken && pairs.recv(rt).ok() == Some((8, 0)) && pairs.recv(rt).is_err())
}

#[test]
fn a_shutdown_stops_evictions(rt: HostRuntime) {
    assert!(rt; ends(&rt, rt.alloc()) == Some(true));
}
