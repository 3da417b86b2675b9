//! What an actor does, and a callback worker.

ghost use Rattle.std.specs.Prelude.{◌≡◌, ◌<◌};
ghost use Rattle.std.specs.Arc.{arc_value};

use crate::callback::AsyncEvictionCallback;
use crate::command::Command;
use crate::counts::{Counts, Sums};
use crossbeam_channel::{Receiver, Sender};
use lru_actors::ShardActor;
use seeded_hashing::SeededState;
use std::sync::atomic::Ordering;
use std::sync::{Arc, Wait};

// A shard with its actor's channel.
#[derive(Drop)]
pub(crate) struct Actor<K> {
    pub(crate) shard: usize,
    pub(crate) actor: ShardActor<K, SeededState>,
    pub(crate) commands: Receiver<Command<K>>,
    pub(crate) counts: Arc<Counts>,
    pub(crate) wake: Sender<()>,
    // Whether there are eviction workers.
    pub(crate) evicts: bool,
}

impl<K: Clone> Actor<K> {
    // Does the commands in their order, until each sender is gone.
    pub(crate) fn run<R: Wait>(mut self, rt: &R) {
        for _ in rt.forever() {
            let Ok(command) = self.commands.recv(rt) else {
                break;
            };
            self.obey(rt, command);
        }
    }

    // A message that the shard refuses is dropped, and so is a reply that no one waits for.
    fn obey<R: Wait>(&mut self, rt: &R, command: Command<K>) {
        match command {
            Command::Apply(message) => {
                let before = Sums::of(&self.actor.unit);
                let _refused = self.actor.apply(message);
                self.changed(rt, before);
            }
            Command::InsertTail(hash, key, weight, to) => {
                let before = Sums::of(&self.actor.unit);
                let inserted = self.actor.unit.insert_tail(hash, key, weight);
                self.changed(rt, before);
                let _unread = to.send(rt, inserted);
            }
            Command::Promote(hash, to) => {
                let _unread = to.send(rt, self.actor.promote(hash));
            }
            Command::PeekWeight(hash, to) => {
                let _unread = to.send(rt, self.actor.unit.peek_weight(hash));
            }
            Command::PeekLru(to) => {
                let _unread = to.send(rt, self.actor.peek_lru());
            }
            Command::Snapshot(to) => {
                let _unread = to.send(rt, self.actor.snapshot());
            }
            Command::Weigh(to) => {
                let _unread = to.send(rt, self.actor.unit.weight());
            }
            Command::Evict(room, to) => {
                let _unread = to.send(rt, self.evict(room));
            }
        }
    }

    // Counts the shard again after a change that came with a message. Where a limit is passed then, it wakes an eviction worker, and
    // the message stays ahead until the limits are kept, if there is a worker at all.
    fn changed<R: Wait>(&mut self, rt: &R, before: Sums) {
        self.counts.recount(self.shard, &self.actor.unit, before);
        if self.evicts && self.counts.is_over() {
            self.counts.gate.applied();
            let _awake = self.wake.try_send(rt, ());
        } else {
            self.counts.gate.leave(rt, 1);
        }
    }

    // Takes last rows out while a limit is passed and there is room for them; where the threads are to end, one at most.
    fn evict(&mut self, room: Vec<(K, usize)>) -> Vec<(K, usize)> {
        let mut gone = room;
        for _ in 0..gone.capacity() {
            if gone.len() >= gone.capacity() || !self.counts.is_over() {
                break;
            }
            let before = Sums::of(&self.actor.unit);
            let Some(pair) = self.actor.unit.evict() else {
                break;
            };
            self.counts.recount(self.shard, &self.actor.unit, before);
            self.counts.evicted(pair.1);
            gone.push_reserved(pair);
            if self.counts.closing.load(Ordering::SeqCst) {
                break;
            }
        }
        gone
    }
}

// Calls back with each pair that is dispatched, until no more come.
pub(crate) fn call_back<R: Wait, K: Drop, C: AsyncEvictionCallback<K> + Drop>(
    rt: &R,
    pairs: Receiver<(K, usize)>,
    callback: Arc<C>,
)
    requires { C.ready (arc_value callback) }
{
    for _ in rt.forever() {
        let Ok((key, weight)) = pairs.recv(rt) else {
            break;
        };
        callback.call(key, weight);
    }
}
