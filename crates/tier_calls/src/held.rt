//! A tier as a program in C holds it.
ghost use Rattle.std.specs.Prelude.{◌≡◌, ℕ, List, [], None};
ghost use Rattle.lru_files.specs.MemFolder.{files_of};
ghost use Rattle.tier_calls.specs.Answers.{IsAnswered};
ghost use Rattle.tier_calls.specs.Told.{told_of, evicted_in};

mod events;
mod files;
mod finds;
mod hits;
mod keys;
mod lists;

use crate::shards::Shards;
use crate::statuses;
use crate::structs::CallAnswer;
use crate::told::{evicted_in, plain, told_of};
use cache_words::time::Moment;
use lru_files::persistence::MemFolder;
use rand_pcg::Pcg64;
use std::alloc::Global;
use tier_model::event::{Action, Answer, Entries, Event, TierFault};

/// A tier, its generator, and what it lends.
#[derive(Drop)]
pub struct TierHandle {
    alloc: Global,
    tier: Shards,
    rng: Pcg64,
    // The entries that the last event evicted.
    evicted: Entries,
    // The entries that were listed last.
    list: Entries,
    // The files of the shards: those handed in, then those of the last save.
    folder: MemFolder,
    // The greatest number of a body's bytes, with those that it has outside.
    most: u64,
}

impl TierHandle {
    // A tier that has lent nothing.
    pub(crate) fn new(alloc: Global, tier: Shards, rng: Pcg64, most: u64) -> TierHandle
        ensures tier { result.tier ≡ tier }
        ensures most { result.most ≡ most }
        ensures rng { result.rng ≡ rng }
        ensures entries { (result.evicted ≡ []) × (result.list ≡ []) }
        ensures files { (path : List ℕ) → files_of result.folder path ≡ None }
    {
        TierHandle {
            alloc,
            tier,
            rng,
            evicted: Entries::new(alloc),
            list: Entries::new(alloc),
            folder: MemFolder::new(alloc),
            most,
        }
    }

    // Has the tier take an event, and tells what came of it.
    fn take(&mut self, moment: Moment, action: Action) -> CallAnswer
        ensures { IsAnswered self.old (record { moment = moment; action = action }) result self.new }
    {
        match self.tier.step(&mut self.rng, &Event { moment, action }) {
            Some(outcome) => self.tell(outcome),
            None => plain(statuses::BAD_CALL),
        }
    }

    // Tells what came of an event, and keeps the entries that went.
    fn tell(&mut self, outcome: Result<Answer, TierFault>) -> CallAnswer
        ensures told { result ≡ told_of outcome }
        ensures kept { self.new ≡ record self.old { evicted = evicted_in outcome } }
    {
        let told = told_of(&outcome);
        self.evicted = evicted_in(self.alloc, outcome);
        told
    }
}

/// Ends a tier, with all that it holds.
pub fn end(held: TierHandle) {
    let _ended = held;
}
