//! The tier.
ghost use Rattle.std.specs.Prelude.{◌≡◌, ◌<◌, ◌∷◌, [], IfOk, IfErr, OnErr};
ghost use Rattle.tier_model.specs.State.{empty_state};
ghost use Rattle.tier_model.specs.Calls.{History, nothing_done};
ghost use Rattle.tier_model.specs.Histories.{Opening, empty_opening};
ghost use Rattle.tier_model.specs.Past.{HasPast, HoldsOrder};
ghost use Rattle.tier_model.specs.Reports.{report_of, IsReport};
ghost use Rattle.tier_single.specs.Takes.{Takes};
ghost use Rattle.tier_single.specs.Acts.{StepsBy};
ghost use Rattle.tier_requests.specs.Shelves.{shelf_of};
ghost use Rattle.tier_single.specs.Bodies.{ShowsBodies};
ghost use Rattle.tier_single.specs.Options.{settings_with};
ghost use Rattle.tier_model.specs.Started.{settings_of};

mod begin;
mod direct;
mod faults;
mod find;
mod finish;
mod give_up;
mod hit;
mod look_up;
mod lookup_stale;
mod open;
mod piece;
mod poll;
mod purge;
mod put;
mod read;
mod restarts;
mod revalidate;
mod shown;
mod sizes;
mod whole;

use crate::bodies::{all_bytes, all_metas, count, external};
use crate::options::TierOptions;
use cache_evict::EvictionManager;
use cache_evict::lru::Manager;
use cache_lock::CacheLock;
use cache_words::time::Duration;
use rand_core::Rng;
use request_store::{CacheParts, NoPolicy};
use std::alloc::{AllocError, Global};
use std::hash::{BuildHasher, BuildHasherDefault, FoldHasher};
use std::marker::Model;
use store_memory::MemCache;
use tier_model::event::{Action, Answer, Event, TierFault};
use tier_model::report::Report;
use tier_requests::faults::nothing_done;
use tier_requests::{Requests, TierParts};

/// A cache tier over N shards.
///
/// With the default hasher it is for keys and request numbers that the caller chooses itself; with one whose start the caller takes
/// at random, attackers can't choose some whose look-up among the tracked entries, the bodies or the open requests is slow.
///
/// A dropped tier ends its requests.
pub struct Tier<const N: usize, S: BuildHasher = BuildHasherDefault<FoldHasher>> {
    alloc: Global,
    wait: Option<Duration>,
    // The store of the bodies and of the writes in flight, the order of use with the limits, and the lock.
    parts: TierParts<S, Manager<N, S>>,
    requests: Requests<S>,
    found: u64,
    absent: u64,
    // What the order of use and the lock were made with.
    watermark: Option<usize>,
    age: Duration,
}

impl<const N: usize, S: BuildHasher> Model for Tier<N, S> {
    ghost use Rattle.tier_model.specs.State.{State};
    ghost use Rattle.tier_requests.specs.Codes.{state_code};
    ghost use Rattle.tier_requests.specs.Shelves.{shelf_of, IsBelow};
    ghost use Rattle.cache_evict.specs.Managed.{IsSharded};
    ghost use Rattle.tier_single.specs.States.{state_by, HasAPastOf};

    ghost Value = { State };

    ghost coded = { state_code };

    ghost view = { λ t. record {
      managed = t.parts.manager;
      wait = t.wait;
      shelf = shelf_of t.parts.store;
      lock = t.parts.lock;
      requests = t.requests;
      found = t.found;
      absent = t.absent;
    } };

    ghost invariant = { λ t. IsSharded N t.parts.manager × IsBelow (shelf_of t.parts.store)
        × HasAPastOf t.watermark t.age (state_by t.parts.manager t.wait (shelf_of t.parts.store) t.parts.lock t.requests t.found t.absent) };
}

impl<const N: usize> Tier<N, BuildHasherDefault<FoldHasher>> {
    /// Makes an empty tier. `limit` bounds the sum of the entries' weights, `watermark` their number. `age` is
    /// how long a permit holds, `wait` how long a request waits in all.
    ///
    /// # Errors
    ///
    /// `AllocError` where there is no memory for its shards.
    pub fn new(
        alloc: Global,
        limit: usize,
        watermark: Option<usize>,
        age: Duration,
        wait: Option<Duration>,
    ) -> Result<Self, AllocError>
        requires { 0 < N }
        ensures state { IfOk result (λ tier. tier ≡ empty_state
            (record { shards = N; limit = limit; watermark = watermark; age = age; wait = wait })) }
        ensures past { IfOk result (λ tier. HasPast
            (empty_opening (record { shards = N; limit = limit; watermark = watermark; age = age; wait = wait })) tier []) }
    {
        Tier::with_hasher(
            alloc,
            BuildHasherDefault::new(),
            limit,
            watermark,
            age,
            wait,
        )
    }
}

impl<const N: usize, S: BuildHasher + Copy> Tier<N, S> {
    /// The same, with hashes of that start in the tables of tracked entries, of bodies and of open requests.
    pub fn with_hasher(
        alloc: Global,
        hasher: S,
        limit: usize,
        watermark: Option<usize>,
        age: Duration,
        wait: Option<Duration>,
    ) -> Result<Self, AllocError>
        requires { 0 < N }
        ensures state { IfOk result (λ tier. tier ≡ empty_state
            (record { shards = N; limit = limit; watermark = watermark; age = age; wait = wait })) }
        ensures past { IfOk result (λ tier. HasPast
            (empty_opening (record { shards = N; limit = limit; watermark = watermark; age = age; wait = wait })) tier []) }
    {
        let manager = Manager::with_hasher(alloc, hasher, limit, 0, watermark)?;
        let parts = CacheParts {
            store: MemCache::with_hasher(alloc, hasher),
            manager,
            predictor: (),
            lock: CacheLock::with_hasher(alloc, age, hasher),
            policy: NoPolicy,
        };
        Ok(Tier {
            alloc,
            wait,
            parts,
            requests: Requests::with_hasher(alloc, hasher),
            found: 0,
            absent: 0,
            watermark,
            age,
        })
    }
}

impl<const N: usize, S: BuildHasher> Tier<N, S> {
    /// Returns what the tier was made with. It has N shards.
    pub fn options(&self) -> TierOptions
        ensures { settings_of self.now ≡ settings_with N result }
    {
        TierOptions {
            limit: self.parts.manager.weight_limit(),
            watermark: self.watermark,
            age: self.age,
            wait: self.wait,
        }
    }

    /// Returns what tracks the entries: in shards, each in the order of use, latest first, with their weights in bytes.
    pub fn manager(&self) -> &Manager<N, S>
        ensures same { result.now ≡ self.now.managed }
        ensures order { (start : Opening) (h : History) → HasPast start self.now h → HoldsOrder result.now start h }
    {
        &self.parts.manager
    }

    /// Returns what stores the bodies: just the finished bodies, each under its stored key, and just the writes in flight.
    pub fn store(&self) -> &MemCache<S>
        ensures shows { shelf_of result.now ≡ self.now.shelf }
        ensures bodies { (start : Opening) (h : History) → HasPast start self.now h → ShowsBodies result.now start h }
    {
        &self.parts.store
    }

    // Checks an event, and takes it by its own method.
    fn dispatch<R: Rng>(&mut self, rng: &mut R, event: &Event) -> Result<Answer, TierFault>
        ensures { StepsBy self.old (R.stream rng.old) event.now result self.new (R.stream rng.new) }
    {
        match &event.action {
            Action::Open { request, key, lock } => self.open(*request, key, *lock),
            Action::LookUp { request } => self.look_up(event.moment, *request),
            Action::Poll { request } => self.poll(event.moment, *request),
            Action::Begin {
                request,
                head,
                given,
            } => self.begin(event.moment, *request, head, *given),
            Action::Piece {
                request,
                bytes,
                end,
            } => self.piece(*request, bytes, *end),
            Action::Finish { request } => self.finish(rng, *request),
            Action::Revalidate {
                request,
                head,
                given,
            } => self.revalidate(rng, event.moment, *request, head, *given),
            Action::Read { request } => self.read(*request),
            Action::Drop { request } => self.drop_request(*request),
            Action::Purge { key } => self.purge(key),
            Action::Put { key, pieces, given } => self.put(rng, event.moment, key, pieces, *given),
        }
    }

    /// Takes one event and answers it. A refusal says why, and leaves the tier as before; but where a body was stored, or was given a new
    /// meta, what its key has is removed again, and the evictions done until then stay done. A revalidation that is refused so late has
    /// confirmed what its request found, and its permit is released. The generator's words pick the shard of each eviction, two by two.
    pub fn step<R: Rng>(&mut self, rng: &mut R, event: &Event) -> Result<Answer, TierFault>
        ensures { Takes self.old (R.stream rng.old) (event.now ∷ []) (result ∷ []) self.new (R.stream rng.new) }
    {
        self.dispatch(rng, event)
    }

    /// Takes events in order, and gives an outcome for each; a refused one leaves what `step` says. The room for the outcomes is taken
    /// first; without it nothing is done.
    pub fn run<R: Rng>(
        &mut self,
        rng: &mut R,
        events: &[Event],
    ) -> Result<Vec<Result<Answer, TierFault>>, TierFault>
        ensures takes { IfOk result (λ outcomes.
            Takes self.old (R.stream rng.old) events.now outcomes.items self.new (R.stream rng.new)) }
        ensures fault { IfErr result (λ fault. fault ≡ TierFault.Memory nothing_done) }
        ensures err { OnErr result ((self.new ≡ self.old) × (R.stream rng.new ≡ R.stream rng.old)) }
    {
        let Ok(mut outcomes) = Vec::with_capacity(self.alloc, events.len()) else {
            return Err(TierFault::Memory(nothing_done(self.alloc)));
        };
        for event in events {
            let outcome = self.step(rng, event);
            outcomes.push_reserved(outcome);
        }
        Ok(outcomes)
    }

    /// Returns the sum of the entries' weights, and how many they are, in constant time.
    pub fn weight(&self) -> (u64, u64)
        ensures { result ≡ ((report_of self.now).weight, (report_of self.now).tracked) }
    {
        (
            self.parts.manager.total_size() as u64,
            self.parts.manager.total_items() as u64,
        )
    }

    /// Returns what the tier did and holds.
    pub fn report(&self) -> Report
        ensures state { result ≡ report_of self.now }
        ensures past { (start : Opening) (h : History) → HasPast start self.now h → IsReport result start h }
    {
        Report {
            found: self.found,
            absent: self.absent,
            bodies: count(&self.parts.store),
            bytes: all_bytes(&self.parts.store),
            meta: all_metas(&self.parts.store),
            tracked: self.parts.manager.total_items() as u64,
            weight: self.parts.manager.total_size() as u64,
            evicted: self.parts.manager.evicted_items() as u64,
            external: external(&self.parts.store),
        }
    }
}

impl<const N: usize, S: BuildHasher + Drop> Drop for Tier<N, S> {
    fn drop(self) {
        let Tier {
            alloc: _,
            wait: _,
            mut parts,
            requests,
            found: _,
            absent: _,
            watermark: _,
            age: _,
        } = self;
        requests.end_all(&mut parts);
    }
}
