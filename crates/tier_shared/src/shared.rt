//! The shared tier.
ghost use Rattle.std.specs.Prelude.{◌≡◌, ℕ, ◌<◌, ◌≤◌, ◌∷◌, ◌++◌, [], IfOk, IfErr, IsSome, MatchResult, option_map};
ghost use Rattle.cache_words.specs.declared.pack.fault.PackWriteFault.{PackWriteFault};
ghost use Rattle.cache_evict.specs.Loads.{CantBeWritten};
ghost use Rattle.cache_evict.specs.Managed.{rows_at};
ghost use Rattle.tier_model.specs.Started.{HasOnlyOrder, settings_of};
ghost use Rattle.tier_recorded.specs.Histories.{own, owns, HasTurns};
ghost use Rattle.tier_recorded.specs.Hits.{MatchMade};
ghost use Rattle.tier_model.specs.declared.event.Action.TheVariants.{LookUp};
ghost use Rattle.tier_single.specs.Hits.{MatchHit, OneFound, OneHit, answer_found, at_moment, body_in, meta_of};
ghost use Rattle.tier_single.specs.Options.{settings_with};
ghost use Rattle.tier_recorded.specs.Recorded.{MatchRecorded, IsClosed, IsReplayed};
ghost use Rattle.tier_model.specs.Answers.{whole_told};
ghost use Rattle.tier_model.specs.Keys.{stored_key_of};
ghost use Rattle.tier_model.specs.Shelf.{look};
ghost use Rattle.tier_requests.specs.Shown.{meta_found};
ghost use Rattle.tier_recorded.specs.Seats.{total};
ghost use Rattle.tier_shared.specs.Replays.{OfSomeReplay};

use cache_evict::PackWriteFault;
use cache_heads::CacheMeta;
use cache_words::key::CacheKey;
use cache_words::time::Moment;
use rand_core::Rng;
use std::alloc::{AllocError, Global};
use std::hash::{BuildHasher, BuildHasherDefault, FoldHasher};
use std::sync::ledger::{Blank, Ledger};
use std::sync::{Mutex, Wait};
use tier_recorded::event::HeldTwice;
use tier_recorded::hits::HitEvents;
use tier_recorded::recorded::{Find, HitCame};
use tier_recorded::{Gathered, NotGathered, Pass, PassFault, Recorded, Snapshot, TierOptions};
use tier_single::{Action, Answer, Event, Tier, TierFault};

/// A tier under one lock, for threads. Whenever the lock is free, the tier in it is the replay of the history in it.
///
/// A caller makes its calls with a pass, which keeps a record of each. The passes and the history are counted by one ledger, and
/// compared as they are gathered.
#[derive(Drop)]
pub struct SharedTier<
    const N: usize,
    R: Rng,
    L: Ledger,
    S: BuildHasher = BuildHasherDefault<FoldHasher>,
> {
    alloc: Global,
    lock: Mutex<Recorded<N, R, L, S>>,
}

/// A tier that can't be shared, its generator and its blank ledger, as they were.
#[derive(Drop)]
pub struct NotShared<const N: usize, R: Rng, S: BuildHasher = BuildHasherDefault<FoldHasher>> {
    /// `Memory`: there was none for the texts of its shards or the generator's copy. `TooLong`: a shard's text can't be written.
    pub fault: PackWriteFault,
    pub blank: Blank,
    pub tier: Tier<N, S>,
    pub rng: R,
}

impl<const N: usize, R: Rng + Clone, L: Ledger, S: BuildHasher> SharedTier<N, R, L, S> {
    /// Shares a tier that was made with these options (`tier.options()` returns them) and holds nothing but its order of use
    /// (`has_only_order` is asked for), and its generator. `blank` is the
    /// tier's ledger, of 4294967296 parts.
    ///
    /// # Errors
    ///
    /// No memory for the texts of the shards or the generator's copy; or `TooLong`, where a shard's text can't be written. The tier,
    /// the generator and the ledger come back.
    pub fn new(
        alloc: Global,
        blank: Blank,
        options: TierOptions,
        tier: Tier<N, S>,
        rng: R,
    ) -> Result<SharedTier<N, R, L, S>, NotShared<N, R, S>>
        requires only_order { HasOnlyOrder tier }
        requires made { settings_of tier ≡ settings_with N options }
        requires words { (copy : R) → R.is_clone rng copy → R.stream copy ≡ R.stream rng }
        requires blank { (blank.name ≡ L.name) × (blank.parts ≡ L.parts) × (L.parts ≡ 4294967296) }
        ensures back { IfErr result (λ back. (back.tier ≡ tier) × (back.rng ≡ rng) × (back.blank ≡ blank)) }
        ensures long { IfErr result (λ back. back.fault ≡ PackWriteFault.TooLong → (i : ℕ) × CantBeWritten (rows_at tier.managed.shards i)) }
    {
        let opening = match Snapshot::of(alloc, options, &tier, &rng) {
            Ok(opening) => opening,
            Err(fault) => {
                return Err(NotShared {
                    fault,
                    blank,
                    tier,
                    rng,
                });
            }
        };
        let recorded = Recorded::open(alloc, blank, opening, tier, rng);
        Ok(SharedTier {
            alloc,
            lock: Mutex::new(recorded),
        })
    }
}

impl<const N: usize, R: Rng, L: Ledger, S: BuildHasher> SharedTier<N, R, L, S> {
    /// Gives a pass for a new caller, without records.
    ///
    /// # Errors
    ///
    /// `PassesSpent` after 4294967295 passes, and `Memory`.
    pub fn pass<W: Wait>(&self, rt: &W) -> Result<Pass<L>, PassFault>
        ensures empty { IfOk result (λ pass. pass.records ≡ []) }
    {
        self.lock.lock(rt).pass()
    }

    /// Makes a call: the tier takes the event in one turn of the lock, and its history and the pass keep it with the note of the outcome.
    ///
    /// # Errors
    ///
    /// The tier's own fault, which is recorded too. `NoRecord` where there is no memory for the record: nothing changes then, and
    /// the event is dropped.
    pub fn step<W: Wait>(
        &self,
        rt: &W,
        pass: &mut Pass<L>,
        event: Event,
    ) -> Result<Answer, TierFault>
        ensures caller { pass.new.caller ≡ pass.old.caller }
        ensures records { MatchRecorded result (pass.new.records ≡ pass.old.records) (pass.new.records ≡ pass.old.records ++ own event result ∷ []) }
    {
        let Ok(event) = HeldTwice::new(self.alloc, event) else {
            return Err(TierFault::NoRecord);
        };
        pass.step(&mut *self.lock.lock(rt), event)
    }

    /// Makes the call of a look-up in one turn of the lock, and returns with `Found` the meta of what was found, as `Tier::find` does: the head
    /// is that of the write whose bytes the request reads then, whatever other threads do.
    ///
    /// # Errors
    ///
    /// As of `step`.
    pub fn find<W: Wait>(&self, rt: &W, pass: &mut Pass<L>, moment: Moment, request: u64) -> Find
        ensures caller { pass.new.caller ≡ pass.old.caller }
        ensures records { MatchRecorded (answer_found result) (pass.new.records ≡ pass.old.records)
            (pass.new.records ≡ pass.old.records ++ own (at_moment moment (LookUp request)) (answer_found result) ∷ []) }
        ensures one { IfOk result (λ r. OneFound moment request r.0 (option_map meta_of r.1)) }
    {
        let event = Event {
            moment,
            action: Action::LookUp { request },
        };
        let Ok(event) = HeldTwice::new(self.alloc, event) else {
            return Err(TierFault::NoRecord);
        };
        pass.find(&mut *self.lock.lock(rt), event, moment, request)
    }

    /// Makes the calls of a hit in one turn of the lock, as `Tier::hit` does: the body of a key with its head, both of one write, whatever other
    /// threads do, where it is whole and fresh. The tier's history and the pass keep the calls, four of a hit; of `Ok(None)` there are none.
    ///
    /// # Errors
    ///
    /// The fault of the opening or of the look-up; the calls up to it are recorded too, with the drop of what was opened. `NoRecord` where
    /// there is no memory for the records: nothing changes then.
    pub fn hit<W: Wait>(
        &self,
        rt: &W,
        pass: &mut Pass<L>,
        moment: Moment,
        request: u64,
        key: &CacheKey,
    ) -> HitCame
        ensures caller { pass.new.caller ≡ pass.old.caller }
        ensures records { MatchMade result (pass.new.records ≡ pass.old.records) (MatchHit moment request key.now result
            (λ events outcomes. pass.new.records ≡ pass.old.records ++ owns events outcomes) (pass.new.records ≡ pass.old.records)) }
        ensures one { IfOk result (λ hit. OneHit moment (stored_key_of key.now) (option_map body_in hit)) }
    {
        let Ok(events) = HitEvents::new(self.alloc, moment, request, key) else {
            return Err(TierFault::NoRecord);
        };
        pass.hit(&mut *self.lock.lock(rt), events, moment, request, key)
    }

    /// Returns a copy of the head of what a look-up of that key finds as the tier is in one turn of the lock, of a write in flight too
    /// (`Tier::shown`): its status, lines and moments; `None` where nothing is found. The call is in no record.
    ///
    /// # Errors
    ///
    /// `AllocError` where there is no memory for the copy.
    pub fn shown_meta<W: Wait>(
        &self,
        rt: &W,
        alloc: Global,
        key: &CacheKey,
    ) -> Result<Option<CacheMeta>, AllocError>
        ensures { OfSomeReplay N R.stream (λ tier. MatchResult result (λ found. found ≡ meta_found (look (stored_key_of key.now) tier.shelf))
            (λ _. IsSome (meta_found (look (stored_key_of key.now) tier.shelf)))) }
    {
        self.lock.lock(rt).tier().shown_meta(alloc, key)
    }

    /// Returns whether all of a body came to a request that read it to its end, as the tier is in one turn of the lock (`Tier::is_whole`). The
    /// call is in no record.
    pub fn is_whole<W: Wait>(&self, rt: &W, request: u64) -> Option<bool>
        ensures { OfSomeReplay N R.stream (λ tier. result ≡ whole_told tier request) }
    {
        self.lock.lock(rt).tier().is_whole(request)
    }

    /// Takes passes back, and keeps their records, if each is what the history has of its caller. So the history has no fewer records than
    /// these passes together.
    ///
    /// # Errors
    ///
    /// `PassDiffers` where a pass isn't, and `Memory`. All passes come back.
    pub fn gather<W: Wait>(&self, rt: &W, passes: Vec<Pass<L>>) -> Result<Gathered, NotGathered<L>>
        ensures held { IfOk result (λ now. total passes.items ≤ now.records) }
        ensures back { IfErr result (λ back. back.passes.items ≡ passes.items) }
    {
        self.lock.lock(rt).gather(passes)
    }

    /// Ends the sharing, once all passes are gathered: what comes out has in each gathered pass just what the history has of its
    /// caller, and is as long as these together.
    ///
    /// # Errors
    ///
    /// The number of outstanding passes, if there are any. The shared tier comes back.
    pub fn close(self) -> Result<Recorded<N, R, L, S>, (u64, SharedTier<N, R, L, S>)>
        ensures closed { IfOk result (λ recorded. IsClosed recorded) }
        ensures replayed { IfOk result (λ recorded. IsReplayed N recorded (R.stream recorded.opening.rng) (R.stream recorded.rng)) }
        ensures turns { IfOk result (λ recorded. HasTurns [] recorded.history) }
        ensures refused { IfErr result (λ back. 0 < back.0) }
    {
        let SharedTier { alloc, lock } = self;
        let mut recorded = lock.into_inner();
        let outstanding = recorded.outstanding();
        if outstanding != 0 {
            let lock = Mutex::new(recorded);
            return Err((outstanding, SharedTier { alloc, lock }));
        }
        recorded.audit();
        Ok(recorded)
    }

    /// Ends the sharing though passes may be outstanding, as where a thread dropped its own: what comes out says what holds of it. Only
    /// `close` says of the passes that they are the history.
    pub fn abandon(self) -> Recorded<N, R, L, S>
        ensures { IsReplayed N result (R.stream result.opening.rng) (R.stream result.rng) }
    {
        let SharedTier { lock, .. } = self;
        let recorded = lock.into_inner();
        // It shows that the tier is the replay of the history.
        let _tier = recorded.tier();
        recorded
    }
}
