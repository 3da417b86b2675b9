//! What an eviction worker does.

use crate::command::Command;
use crate::counts::Counts;
use crate::pick::pick;
use crossbeam_channel::{Receiver, SendError, Sender};
use rand_core::Rng;
use std::sync::atomic::Ordering;
use std::sync::{Arc, Wait};

// How many rows one command takes out of a shard at most.
pub(crate) const MOST_AT_ONCE: usize = 16;

// What evicts.
#[derive(Drop)]
pub(crate) struct Evictor<K, G> {
    pub(crate) generator: G,
    pub(crate) woken: Receiver<()>,
    pub(crate) shards: Vec<Sender<Command<K>>>,
    pub(crate) lens: Vec<usize>,
    pub(crate) counts: Arc<Counts>,
    pub(crate) reply: Sender<Vec<(K, usize)>>,
    pub(crate) replies: Receiver<Vec<(K, usize)>>,
    pub(crate) dispatch: Sender<(K, usize)>,
    // The evicted pairs that are still to be dispatched, the first of them last; none once an actor has ended.
    pub(crate) pending: Option<Vec<(K, usize)>>,
}

// What a step of a worker did.
#[derive(Clone, Copy, Debug, PartialEq, Eq)]
enum Step {
    // Rows may have gone.
    Took,
    // No limit is passed.
    Kept,
    // It can't go on for now.
    GaveUp,
}

impl<K: Drop, G: Rng + Drop> Evictor<K, G> {
    // Evicts each time that it is woken, until the threads are to end.
    pub(crate) fn run<R: Wait>(mut self, rt: &R) {
        for _ in rt.forever() {
            if self.woken.recv(rt).is_err() || self.is_to_end() {
                break;
            }
            self.evict(rt);
        }
        let _sent = self.dispatch_pending(rt);
    }

    fn is_to_end(&self) -> bool {
        self.counts.closing.load(Ordering::SeqCst)
    }

    // Evicts until no limit is passed, it can't go on, or the threads are to end.
    fn evict<R: Wait>(&mut self, rt: &R) {
        for _ in rt.forever() {
            if self.is_to_end() {
                break;
            }
            match self.step(rt) {
                Step::Took => {}
                Step::Kept => break,
                Step::GaveUp => {
                    self.counts.gate.give_up(rt);
                    break;
                }
            }
        }
    }

    // Evicts from the shard that two draws pick, if a limit is passed. The pairs of the step before go out first: without memory
    // for that nothing is evicted.
    fn step<R: Wait>(&mut self, rt: &R) -> Step {
        if !self.dispatch_pending(rt) {
            return Step::GaveUp;
        }
        if self.counts.settle(rt) {
            return Step::Kept;
        }
        self.counts.read_lens(&mut self.lens);
        let a = self.generator.next_u64();
        let b = self.generator.next_u64();
        let Some(shard) = pick(self.lens.as_slice(), a, b) else {
            return Step::GaveUp;
        };
        match self.take(rt, shard) {
            Some(()) => Step::Took,
            None => Step::GaveUp,
        }
    }

    // Sends the pairs that are pending, in the order in which they went, and returns whether none is any more. One for which there is
    // no memory stays pending, as those after it do. Where no receiver is left, they are dropped.
    fn dispatch_pending<R: Wait>(&mut self, rt: &R) -> bool {
        let Some(pending) = &mut self.pending else {
            return true;
        };
        for _ in 0..MOST_AT_ONCE {
            let Some(pair) = pending.pop() else {
                return true;
            };
            if let Err(SendError::OutOfMemory(pair)) = self.dispatch.send(rt, pair) {
                let _room = pending.push(pair);
                return false;
            }
        }
        pending.is_empty()
    }

    // Has a shard take last rows out, which are pending then. Nothing comes back where the actor can't be asked.
    fn take<R: Wait>(&mut self, rt: &R, shard: usize) -> Option<()> {
        let to = self.reply.clone().ok()?;
        let actor = self.shards.get(shard)?;
        let room = self.pending.take()?;
        match actor.send(rt, Command::Evict(room, to)) {
            Ok(()) => {
                let mut gone = self.replies.recv(rt).ok()?;
                gone.reverse();
                self.pending = Some(gone);
                Some(())
            }
            Err(SendError::OutOfMemory(Command::Evict(room, _))) => {
                self.pending = Some(room);
                None
            }
            Err(_) => None,
        }
    }
}
