//! Threads that start. Each drops its clone of the sender `running` last, after all that its work had.

ghost use Rattle.std.specs.Arc.{arc_value};

use crate::callback::AsyncEvictionCallback;
use crate::evictor::Evictor;
use crate::fault::BuildFault;
use crate::threads::{Actor, call_back};
use crossbeam_channel::{Receiver, Sender};
use rand_core::Rng;
use std::sync::{Arc, Wait};
use std::thread;
use std::thread::Threads;

// Starts a thread for each actor.
pub(crate) fn start_actors<H: Threads + Wait + Copy + Send + 'static, K: Clone + Send + 'static>(
    rt: &H,
    actors: Vec<Actor<K>>,
    running: &Sender<()>,
) -> Result<(), BuildFault> {
    'actors: for actor in actors {
        let handle = *rt;
        let last = running.clone()?;
        let work = move || {
            actor.run(&handle);
            drop(last);
        };
        if thread::spawn(rt, work).is_err() {
            return Err(BuildFault::NoThread);
        }
    }
    Ok(())
}

// Starts a thread for each eviction worker.
pub(crate) fn start_evictors<
    H: Threads + Wait + Copy + Send + 'static,
    K: Drop + Send + 'static,
    G: Rng + Drop + Send + 'static,
>(rt: &H, evictors: Vec<Evictor<K, G>>, running: &Sender<()>) -> Result<(), BuildFault> {
    'evictors: for evictor in evictors {
        let handle = *rt;
        let last = running.clone()?;
        let work = move || {
            evictor.run(&handle);
            drop(last);
        };
        if thread::spawn(rt, work).is_err() {
            return Err(BuildFault::NoThread);
        }
    }
    Ok(())
}

// Starts as many callback workers.
pub(crate) fn start_callers<
    H: Threads + Wait + Copy + Send + 'static,
    K: Drop + Send + 'static,
    C: AsyncEvictionCallback<K> + Drop + Send + Sync + 'static,
>(
    rt: &H,
    pairs: &Receiver<(K, usize)>,
    callback: &Arc<C>,
    workers: usize,
    running: &Sender<()>,
) -> Result<(), BuildFault>
    requires { C.ready (arc_value callback.now) }
{
    'workers: for _ in 0..workers {
        let handle = *rt;
        let theirs = pairs.clone()?;
        let mine = Arc::try_clone(callback)?;
        let last = running.clone()?;
        let work = move || {
            call_back(&handle, theirs, mine);
            drop(last);
        };
        if thread::spawn(rt, work).is_err() {
            return Err(BuildFault::NoThread);
        }
    }
    Ok(())
}
