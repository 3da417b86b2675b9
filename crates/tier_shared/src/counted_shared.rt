//! The counted tier under a lock.
ghost use Rattle.std.specs.Prelude.{◌≡◌, ℕ, ◌+◌, ◌<◌, IfOk, IfErr, IsSome, MatchResult, option_map};
ghost use Rattle.cache_words.specs.declared.pack.fault.PackWriteFault.{PackWriteFault};
ghost use Rattle.cache_evict.specs.Loads.{CantBeWritten};
ghost use Rattle.cache_evict.specs.Managed.{rows_at};
ghost use Rattle.tier_model.specs.Started.{HasOnlyOrder, settings_of};
ghost use Rattle.tier_recorded.specs.declared.pass.PassFault.TheVariants.{PassesSpent};
ghost use Rattle.tier_single.specs.Hits.{OneFound, OneHit, answer_found, body_in, meta_of};
ghost use Rattle.tier_single.specs.Options.{settings_with};
ghost use Rattle.tier_recorded.specs.Recorded.{MatchRecorded};
ghost use Rattle.tier_recorded.specs.Hits.{MatchMade, hit_calls};
ghost use Rattle.tier_shared.specs.Counted.{CountedState, IsCounted};
ghost use Rattle.tier_model.specs.Answers.{whole_told};
ghost use Rattle.tier_model.specs.Keys.{stored_key_of};
ghost use Rattle.tier_model.specs.Reports.{report_of};
ghost use Rattle.tier_model.specs.Shelf.{look};
ghost use Rattle.tier_requests.specs.Shown.{meta_found};

use crate::NotShared;
use crate::counted::{CallPass, Counted};
use cache_heads::CacheMeta;
use cache_words::key::CacheKey;
use cache_words::time::Moment;
use rand_core::Rng;
use std::alloc::{AllocError, Global};
use std::hash::{BuildHasher, BuildHasherDefault, FoldHasher};
use std::sync::ledger::{Blank, Ledger};
use std::sync::{Mutex, Wait};
use tier_recorded::{PassFault, Snapshot, TierOptions};
use tier_single::{Answer, Event, FoundMeta, Hit, Report, Tier, TierFault};

/// A tier under one lock, for threads. Whenever the lock is free, some events, as many as were counted, lead from its opening to it.
///
/// A caller makes its calls with a pass. The passes and the tier are counted by one ledger. No event is kept, and nothing is noted of
/// an answer: `crate::SharedTier` keeps both, and its memory grows with the calls.
#[derive(Drop)]
pub struct CountedTier<
    const N: usize,
    R: Rng,
    L: Ledger,
    S: BuildHasher = BuildHasherDefault<FoldHasher>,
> {
    lock: Mutex<Counted<N, R, L, S>>,
}

impl<const N: usize, R: Rng + Clone, L: Ledger, S: BuildHasher> CountedTier<N, R, L, S> {
    /// Shares a tier that was made with these options (`tier.options()` returns them) and holds nothing but its order of use
    /// (`has_only_order` is asked for), and its generator. `blank` is the
    /// tier's ledger, of 4294967296 parts.
    ///
    /// # Errors
    ///
    /// No memory for the texts of the shards or the generator's copy; or `TooLong`, where a shard's text can't be written. The tier,
    /// the generator and the ledger come back.
    pub fn new(
        alloc: Global,
        blank: Blank,
        options: TierOptions,
        tier: Tier<N, S>,
        rng: R,
    ) -> Result<CountedTier<N, R, L, S>, NotShared<N, R, S>>
        requires only_order { HasOnlyOrder tier }
        requires made { settings_of tier ≡ settings_with N options }
        requires words { (copy : R) → R.is_clone rng copy → R.stream copy ≡ R.stream rng }
        requires blank { (blank.name ≡ L.name) × (blank.parts ≡ L.parts) × (L.parts ≡ 4294967296) }
        ensures back { IfErr result (λ back. (back.tier ≡ tier) × (back.rng ≡ rng) × (back.blank ≡ blank)) }
        ensures long { IfErr result (λ back. back.fault ≡ PackWriteFault.TooLong → (i : ℕ) × CantBeWritten (rows_at tier.managed.shards i)) }
    {
        let opening = match Snapshot::of(alloc, options, &tier, &rng) {
            Ok(opening) => opening,
            Err(fault) => {
                return Err(NotShared {
                    fault,
                    blank,
                    tier,
                    rng,
                });
            }
        };
        let counted = Counted::open(blank, opening, tier, rng);
        Ok(CountedTier {
            lock: Mutex::new(counted),
        })
    }
}

impl<const N: usize, R: Rng, L: Ledger, S: BuildHasher> CountedTier<N, R, L, S> {
    /// Gives a pass for a new caller. It takes no memory.
    ///
    /// # Errors
    ///
    /// `PassesSpent` after 4294967295 passes.
    pub fn pass<W: Wait>(&self, rt: &W) -> Result<CallPass<L>, PassFault>
        ensures pass { IfOk result (λ pass. pass ≡ 0) }
        ensures spent { IfErr result (λ fault. fault ≡ PassesSpent) }
    {
        self.lock.lock(rt).pass()
    }

    /// Makes a call: the tier takes the event in one turn of the lock and answers it, and the call is counted, in the tier and in the
    /// pass.
    ///
    /// # Errors
    ///
    /// The tier's own fault, whose call is counted too. `NoRecord` only where 2^64 - 1 calls were counted: nothing changes then.
    pub fn step<W: Wait>(
        &self,
        rt: &W,
        pass: &mut CallPass<L>,
        event: &Event,
    ) -> Result<Answer, TierFault>
        ensures { MatchRecorded result (pass.new ≡ pass.old) (pass.new ≡ pass.old + 1) }
    {
        self.lock.lock(rt).step(pass, event)
    }

    /// Makes the call of a look-up in one turn of the lock, and returns with `Found` the meta of what was found, as `Tier::find` does: the head
    /// is that of the write whose bytes the request reads then, whatever other threads do.
    ///
    /// # Errors
    ///
    /// As of `step`.
    pub fn find<W: Wait>(
        &self,
        rt: &W,
        pass: &mut CallPass<L>,
        moment: Moment,
        request: u64,
    ) -> Result<(Answer, Option<FoundMeta>), TierFault>
        ensures pass { MatchRecorded (answer_found result) (pass.new ≡ pass.old) (pass.new ≡ pass.old + 1) }
        ensures one { IfOk result (λ r. OneFound moment request r.0 (option_map meta_of r.1)) }
    {
        self.lock.lock(rt).find(pass, moment, request)
    }

    /// Makes the calls of a hit in one turn of the lock, as `Tier::hit` does: the body of a key with its meta, where it is whole and fresh. The
    /// calls, four of a hit, are counted in the tier and in the pass.
    ///
    /// # Errors
    ///
    /// The fault of the opening or of the look-up, whose calls are counted too. `NoRecord` only where 2^64 - 4 calls were counted: nothing
    /// changes then.
    pub fn hit<W: Wait>(
        &self,
        rt: &W,
        pass: &mut CallPass<L>,
        moment: Moment,
        request: u64,
        key: &CacheKey,
    ) -> Result<Option<Hit>, TierFault>
        ensures pass { MatchMade result (pass.new ≡ pass.old) (pass.new ≡ pass.old + hit_calls result) }
        ensures one { IfOk result (λ hit. OneHit moment (stored_key_of key.now) (option_map body_in hit)) }
    {
        self.lock.lock(rt).hit(pass, moment, request, key)
    }

    /// Returns the report of the tier as it is in one turn of the lock.
    pub fn report<W: Wait>(&self, rt: &W) -> Report
        ensures { (a : CountedState R) × IsCounted N a (R.stream a.opening.rng) (R.stream a.rng) × (result ≡ report_of a.tier) }
    {
        self.lock.lock(rt).tier().report()
    }

    /// Returns a copy of the head of what a look-up of that key finds as the tier is in one turn of the lock, of a write in flight too
    /// (`Tier::shown`): its status, lines and moments; `None` where nothing is found. The call isn't counted.
    ///
    /// # Errors
    ///
    /// `AllocError` where there is no memory for the copy.
    pub fn shown_meta<W: Wait>(
        &self,
        rt: &W,
        alloc: Global,
        key: &CacheKey,
    ) -> Result<Option<CacheMeta>, AllocError>
        ensures { (a : CountedState R) × IsCounted N a (R.stream a.opening.rng) (R.stream a.rng)
            × MatchResult result (λ found. found ≡ meta_found (look (stored_key_of key.now) a.tier.shelf)) (λ _. IsSome (meta_found (look (stored_key_of key.now) a.tier.shelf))) }
    {
        self.lock.lock(rt).tier().shown_meta(alloc, key)
    }

    /// Returns whether all of a body came to a request that read it to its end, as the tier is in one turn of the lock (`Tier::is_whole`). The
    /// call isn't counted.
    pub fn is_whole<W: Wait>(&self, rt: &W, request: u64) -> Option<bool>
        ensures { (a : CountedState R) × IsCounted N a (R.stream a.opening.rng) (R.stream a.rng) × (result ≡ whole_told a.tier request) }
    {
        self.lock.lock(rt).tier().is_whole(request)
    }

    /// Takes a pass back, with the calls that were made with it.
    pub fn gather<W: Wait>(&self, rt: &W, pass: CallPass<L>) {
        self.lock.lock(rt).gather(pass);
    }

    /// Ends the sharing, once all passes are gathered: as many calls were counted as were made with these passes.
    ///
    /// # Errors
    ///
    /// The number of outstanding passes, if there are any. The counted tier comes back.
    pub fn close(self) -> Result<Counted<N, R, L, S>, (u64, CountedTier<N, R, L, S>)>
        ensures gathered { IfOk result (λ counted. counted.gathered ≡ counted.passes) }
        ensures whole { IfOk result (λ counted. counted.calls ≡ counted.returned) }
        ensures counted { IfOk result (λ counted. IsCounted N counted (R.stream counted.opening.rng) (R.stream counted.rng)) }
        ensures refused { IfErr result (λ back. 0 < back.0) }
    {
        let CountedTier { lock } = self;
        let mut counted = lock.into_inner();
        let outstanding = counted.outstanding();
        if outstanding != 0 {
            let lock = Mutex::new(counted);
            return Err((outstanding, CountedTier { lock }));
        }
        counted.audit();
        Ok(counted)
    }

    /// Ends the sharing though passes may be outstanding, as where a thread dropped its own. Only `close` says of the passes that their
    /// calls are all.
    pub fn abandon(self) -> Counted<N, R, L, S>
        ensures { IsCounted N result (R.stream result.opening.rng) (R.stream result.rng) }
    {
        let CountedTier { lock } = self;
        let counted = lock.into_inner();
        // It shows that as many events as were counted lead to the tier.
        let _tier = counted.tier();
        counted
    }
}
