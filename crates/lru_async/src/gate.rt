//! How far callers may be ahead of the actors and the eviction workers.

use crossbeam_channel::Sender;
use std::sync::atomic::{AtomicUsize, Ordering};
use std::sync::{Condvar, Mutex, Wait};

// How many messages may be ahead before callers wait, and with how many they go on.
const MOST_AHEAD: usize = 256;

const FEW_AHEAD: usize = MOST_AHEAD / 2;

// Counts the messages that are ahead: those that no actor has applied yet, and those that were applied while a limit was passed,
// until an eviction worker finds the limits kept. Each row past a limit came with one of them, so as callers wait where there are
// too many, the rows are bounded.
#[derive(Drop)]
pub(crate) struct Gate {
    ahead: AtomicUsize,
    // How many of them were applied.
    applied: AtomicUsize,
    // How often an eviction worker gave up, for want of memory. Those who wait don't wait for it.
    given_up: Mutex<u64>,
    fewer: Condvar,
}

impl Gate {
    pub(crate) fn new() -> Gate {
        Gate {
            ahead: AtomicUsize::new(0),
            applied: AtomicUsize::new(0),
            given_up: Mutex::new(0),
            fewer: Condvar::new(),
        }
    }

    // Counts a message that is about to be sent. Where too many are ahead, it waits until few are, or an eviction worker gives up.
    pub(crate) fn enter<R: Wait>(&self, rt: &R, wake: &Sender<()>) {
        if self.ahead.load(Ordering::SeqCst) >= MOST_AHEAD {
            let given_up = self.given_up.lock(rt);
            let before = *given_up;
            let _awake = wake.try_send(rt, ());
            let ahead = &self.ahead;
            let _after = self.fewer.wait_while(rt, given_up, |times| {
                *times == before && ahead.load(Ordering::SeqCst) > FEW_AHEAD
            });
        }
        self.ahead.fetch_add(1, Ordering::SeqCst);
    }

    // Counts so many messages no more.
    pub(crate) fn leave<R: Wait>(&self, rt: &R, messages: usize) {
        let before = self.ahead.fetch_sub(messages, Ordering::SeqCst);
        if before > FEW_AHEAD && before.wrapping_sub(messages) <= FEW_AHEAD {
            // Who has found many ahead under this lock waits by now.
            drop(self.given_up.lock(rt));
            self.fewer.notify_all();
        }
    }

    // Counts a message as applied while a limit is passed.
    pub(crate) fn applied(&self) {
        self.applied.fetch_add(1, Ordering::SeqCst);
    }

    // Takes the number of messages that were applied while a limit was passed. They go back by `leave`, or by `put_back`.
    pub(crate) fn take_applied(&self) -> usize {
        self.applied.swap(0, Ordering::SeqCst)
    }

    pub(crate) fn put_back(&self, messages: usize) {
        self.applied.fetch_add(messages, Ordering::SeqCst);
    }

    // Lets go those who wait, since an eviction worker can't go on.
    pub(crate) fn give_up<R: Wait>(&self, rt: &R) {
        let mut given_up = self.given_up.lock(rt);
        *given_up = given_up.wrapping_add(1);
        drop(given_up);
        self.fewer.notify_all();
    }
}
