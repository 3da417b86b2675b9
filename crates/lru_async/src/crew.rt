//! What reaches the threads that run, and ends them.

ghost use Rattle.std.specs.Prelude.{◌≡◌, ◌<◌, vec_len, IfOk};

use crate::command::Command;
use crate::counts::Counts;
use crate::evictor::Evictor;
use crate::fault::BuildFault;
use crate::plan::Wires;
use crate::start::{start_actors, start_evictors};
use crate::threads::Actor;
use crossbeam_channel::{Receiver, Sender, bounded};
use rand_core::Rng;
use seeded_hashing::SeededState;
use std::alloc::Global;
use std::sync::atomic::Ordering;
use std::sync::{Arc, Wait};
use std::thread::Threads;

// The senders to the actors of N shards, and what ends all threads. Its users are generic in N; it isn't, since the proofs of
// threads that start don't pass through functions that are. No thread's handle is kept, so that callers in several threads share it.
pub(crate) struct Crew<K> {
    pub(crate) shards: Vec<Sender<Command<K>>>,
    pub(crate) counts: Arc<Counts>,
    pub(crate) wake: Sender<()>,
    // How many eviction workers there are at most.
    evictors: usize,
    // Each thread has a clone until its work is over. Nothing is sent.
    pub(crate) running: Sender<()>,
    over: Receiver<()>,
}

impl<K: Drop> Crew<K> {
    // Ends all threads, and waits until the work of each is over. An eviction worker ends once it is woken, and then drops its
    // senders to the actors, which end where no sender is left. With the eviction workers go the senders to the callback workers.
    pub(crate) fn shutdown<H: Wait>(self, rt: &H) {
        let Crew {
            shards,
            counts,
            wake,
            evictors,
            running,
            over,
        } = self;
        counts.closing.store(true, Ordering::SeqCst);
        'woken: for _ in 0..evictors {
            let _ended = wake.send(rt, ());
        }
        drop(shards);
        drop(running);
        let _disconnected = over.recv(rt);
    }
}

impl<K: Clone + Send + 'static> Crew<K> {
    // Starts the actors and the eviction workers, one for each generator, up to a number. The evicted pairs go to the receiver.
    pub(crate) fn start<H: Threads + Wait + Copy + Send + 'static, G: Rng + Drop + Send + 'static>(
        rt: &H,
        alloc: Global,
        hasher: SeededState,
        shards: usize,
        counts: Counts,
        capacity: usize,
        workers: usize,
        generators: Vec<G>,
    ) -> Result<(Crew<K>, Receiver<(K, usize)>), BuildFault>
        requires { 0 < shards }
        ensures { IfOk result (λ r. vec_len r.0.shards ≡ shards) }
    {
        let wires = Wires::new(alloc, counts, workers.min(generators.len()))?;
        let (senders, actors) = wires.actors(alloc, hasher, shards, capacity)?;
        let evictors = wires.evictors(alloc, &senders, generators, workers)?;
        let (running, over) = bounded(alloc, 1)?;
        let Wires {
            counts,
            wake,
            dispatched,
            ..
        } = wires;
        let crew = Crew {
            shards: senders,
            counts,
            wake,
            evictors: evictors.len(),
            running,
            over,
        };
        Ok((crew.run(rt, actors, evictors)?, dispatched))
    }

    // Starts the threads of these actors and eviction workers. If not all start, those that did end.
    fn run<H: Threads + Wait + Copy + Send + 'static, G: Rng + Drop + Send + 'static>(
        self,
        rt: &H,
        actors: Vec<Actor<K>>,
        evictors: Vec<Evictor<K, G>>,
    ) -> Result<Crew<K>, BuildFault>
        ensures { IfOk result (λ crew. crew.shards ≡ self.shards) }
    {
        let started = match start_actors(rt, actors, &self.running) {
            Ok(()) => start_evictors(rt, evictors, &self.running),
            Err(fault) => {
                // They have senders to the actors, which end where no sender is left.
                drop(evictors);
                Err(fault)
            }
        };
        match started {
            Ok(()) => Ok(self),
            Err(fault) => {
                self.shutdown(rt);
                Err(fault)
            }
        }
    }
}
