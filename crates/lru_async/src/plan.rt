//! What each thread begins with: shards, channels and counters.

ghost use Rattle.std.specs.Prelude.{◌≡◌, ◌<◌, vec_len, IfOk};

use crate::command::Command;
use crate::counts::Counts;
use crate::evictor::{Evictor, MOST_AT_ONCE};
use crate::threads::Actor;
use crossbeam_channel::{Receiver, Sender, bounded, unbounded};
use lru_actors::ShardActor;
use seeded_hashing::SeededState;
use std::alloc::{AllocError, Global};
use std::sync::Arc;

// The ends of the channels that all threads share, and the counters.
#[derive(Drop)]
pub(crate) struct Wires<K> {
    pub(crate) counts: Arc<Counts>,
    pub(crate) wake: Sender<()>,
    pub(crate) woken: Receiver<()>,
    pub(crate) dispatch: Sender<(K, usize)>,
    pub(crate) dispatched: Receiver<(K, usize)>,
    // Whether there are eviction workers.
    evicts: bool,
}

impl<K: Drop> Wires<K> {
    // Returns wires for a number of eviction workers.
    pub(crate) fn new(
        alloc: Global,
        counts: Counts,
        workers: usize,
    ) -> Result<Wires<K>, AllocError> {
        let (wake, woken) = bounded(alloc, workers.max(1))?;
        let (dispatch, dispatched) = unbounded(alloc)?;
        Ok(Wires {
            counts: Arc::new(alloc, counts)?,
            wake,
            woken,
            dispatch,
            dispatched,
            evicts: workers > 0,
        })
    }

    // Returns an actor of a shard without rows, under hashes with that start, and the sender of its commands.
    fn actor(
        &self,
        alloc: Global,
        hasher: SeededState,
        shard: usize,
        capacity: usize,
        bound: usize,
    ) -> Result<(Sender<Command<K>>, Actor<K>), AllocError> {
        let (to, commands) = unbounded(alloc)?;
        let actor = Actor {
            shard,
            actor: ShardActor::with_hasher(alloc, hasher, capacity, bound)?,
            commands,
            counts: Arc::try_clone(&self.counts)?,
            wake: self.wake.clone()?,
            evicts: self.evicts,
        };
        Ok((to, actor))
    }

    // Returns an actor for each shard, under hashes with that start, and the senders of their commands.
    pub(crate) fn actors(
        &self,
        alloc: Global,
        hasher: SeededState,
        shards: usize,
        capacity: usize,
    ) -> Result<(Vec<Sender<Command<K>>>, Vec<Actor<K>>), AllocError>
        requires { 0 < shards }
        ensures { IfOk result (λ r. vec_len r.0 ≡ shards) }
    {
        let mut senders = Vec::with_capacity(alloc, shards)?;
        let mut actors = Vec::with_capacity(alloc, shards)?;
        'shards: for shard in 0..shards {
            let room = capacity / shards;
            let (to, actor) = self.actor(alloc, hasher, shard, room, usize::MAX / shards)?;
            senders.push(to)?;
            actors.push(actor)?;
        }
        Ok((senders, actors))
    }

    // Returns an eviction worker for each generator, up to a number.
    pub(crate) fn evictors<G: Drop>(
        &self,
        alloc: Global,
        shards: &Vec<Sender<Command<K>>>,
        generators: Vec<G>,
        most: usize,
    ) -> Result<Vec<Evictor<K, G>>, AllocError> {
        let mut evictors = Vec::new(alloc);
        'workers: for generator in generators {
            if evictors.len() >= most {
                break;
            }
            evictors.push(self.evictor(alloc, shards, generator)?)?;
        }
        Ok(evictors)
    }

    fn evictor<G: Drop>(
        &self,
        alloc: Global,
        shards: &Vec<Sender<Command<K>>>,
        generator: G,
    ) -> Result<Evictor<K, G>, AllocError> {
        let mut senders = Vec::with_capacity(alloc, shards.len())?;
        let mut lens = Vec::with_capacity(alloc, shards.len())?;
        'shards: for to in shards {
            senders.push(to.clone()?)?;
            lens.push(0)?;
        }
        let (reply, replies) = bounded(alloc, 1)?;
        Ok(Evictor {
            generator,
            woken: self.woken.clone()?,
            shards: senders,
            lens,
            counts: Arc::try_clone(&self.counts)?,
            reply,
            replies,
            dispatch: self.dispatch.clone()?,
            pending: Some(Vec::with_capacity(alloc, MOST_AT_ONCE)?),
        })
    }
}
