//! How what a request found past its moment is confirmed.
ghost use Rattle.std.specs.Prelude.{◌≡◌, true, is_some, IfOk, IfErr};
ghost use Rattle.request_store.specs.Admissions.{cache_of};
ghost use Rattle.tier_model.specs.Checks.{can_revalidate};
ghost use Rattle.tier_model.specs.Answers.{is_body_seen};
ghost use Rattle.tier_requests.specs.Shelves.{shelf_of};
ghost use Rattle.tier_requests.specs.Faults.{out_of_memory};
ghost use Rattle.tier_requests.specs.Plain.{share_of};
ghost use Rattle.tier_requests.specs.Renewals.{IsMerged, forgotten, left_held, told_as, told_of_renewal, Renews, RenewsNot};

use crate::faults::out_of_memory;
use crate::finish::done_as;
use crate::request::{Request, TierParts};
use cache_entries::entry::CacheEntryKey;
use cache_evict::EvictionManager;
use cache_heads::merged::merged_head;
use cache_heads::meta::ResponseHeader;
use cache_heads::{CacheMeta, NoCacheReason};
use cache_words::key::CacheHashKey;
use head_packed::HeldMeta;
use rand_core::Rng;
use request_cache::{HttpCache, RevalidateFault};
use request_phases::CachePhase;
use std::alloc::Global;
use std::hash::BuildHasher;
use store_memory::MemCache;
use tier_model::event::{Answer, Entries, TierFault};

// Lets go of the meta of what was confirmed, and of its head: no more is asked of it.
fn forget_confirmed<S: BuildHasher>(
    cache: &mut HttpCache<MemCache<S>>,
    held: &mut Option<Box<HeldMeta>>,
)
    ensures cache { cache.new ≡ forgotten cache.old }
    ensures held { share_of held.new ≡ left_held cache.old (share_of held.old) }
{
    match cache.phase() {
        CachePhase::Revalidated => {
            cache.forget_cache_meta();
            *held = None;
        }
        _ => {}
    }
}

// Why a renewal was refused.
fn told_as(fault: RevalidateFault) -> TierFault
    ensures { result ≡ told_as fault }
{
    match fault {
        RevalidateFault::NoMeta => TierFault::NotStored,
        RevalidateFault::MetaMoment => TierFault::BeforeEpoch,
        RevalidateFault::Memory(done) => TierFault::Memory(done_as(done)),
        RevalidateFault::Weight(done) => TierFault::TooHeavy(done_as(done)),
        RevalidateFault::Length(done) => TierFault::TooLong(done_as(done)),
        RevalidateFault::NumbersSpent(done) => TierFault::NumbersSpent(done_as(done)),
    }
}

// What came of a renewal.
fn told_of_renewal(came: Result<Vec<CacheEntryKey>, RevalidateFault>) -> Result<Answer, TierFault>
    ensures { result ≡ told_of_renewal came }
{
    match came {
        Ok(evicted) => Ok(Answer::Revalidated {
            evicted: Entries::from_vec(evicted),
        }),
        Err(fault) => Err(told_as(fault)),
    }
}

impl<S: BuildHasher> Request<S> {
    /// Returns whether what the request found may be confirmed: it is past its moment, and gave no wait.
    pub fn can_revalidate(&self) -> bool
        ensures { result ≡ can_revalidate self.now.phase self.now.gave_read }
    {
        match self.cache.phase() {
            CachePhase::Stale => !self.gave_read,
            _ => false,
        }
    }

    // Whether the request has seen something past its moment.
    fn has_seen(&self) -> bool
        ensures { result ≡ is_some self.now.seen }
    {
        match self.cache.phase() {
            CachePhase::Stale => self.held.is_some(),
            _ => false,
        }
    }

    /// Returns whether what the request found past its moment is the body that the store has under the request's key.
    pub fn finds_its_body(&self, store: &MemCache<S>) -> bool
        ensures { result ≡ is_body_seen self.now (shelf_of store.now) }
    {
        if !self.has_seen() {
            return false;
        }
        match store.body_number(&self.cache.cache_key().combined_bin()) {
            Some(number) => self.seen == number,
            None => false,
        }
    }

    /// Returns the head of what the request found past its moment, with the fields that a response sent which confirms it.
    ///
    /// # Errors
    ///
    /// Out of memory; so is told too that the head gets more names or more values than it can count.
    pub fn merged(&self, alloc: Global, sent: &ResponseHeader) -> Result<ResponseHeader, TierFault>
        requires { can_revalidate self.now.phase self.now.gave_read ≡ true }
        ensures ok { IfOk result (λ header. IsMerged self.now sent.now header) }
        ensures err { IfErr result (λ f. f ≡ out_of_memory) }
    {
        let Some(held) = &self.held else {
            unreachable!()
        };
        let Ok(meta) = held.unpack() else {
            return Err(out_of_memory(alloc));
        };
        match merged_head(&meta, sent) {
            Ok(header) => Ok(header),
            Err(_) => Err(out_of_memory(alloc)),
        }
    }

    /// Renews the body of the request's key with the meta of a response that confirms it: its moment of creation and its provenance stay.
    ///
    /// # Errors
    ///
    /// Why it isn't renewed. Where memory ran out after it was, it is removed with its entry.
    pub fn revalidate<E: EvictionManager, R: Rng>(
        &mut self,
        alloc: Global,
        parts: &mut TierParts<S, E>,
        rng: &mut R,
        meta: CacheMeta,
    ) -> Result<Answer, TierFault>
        requires { can_revalidate self.old.phase self.old.gave_read ≡ true }
        ensures answer { Renews E.shard_count E.weighed E.pick meta self.old (cache_of parts.old.store (E.managed parts.old.manager) (R.stream rng.old)) parts.old.lock
            result self.new (cache_of parts.new.store (E.managed parts.new.manager) (R.stream rng.new)) parts.new.lock }
        ensures parts { parts.new ≡ record parts.old { store = parts.new.store; manager = parts.new.manager; lock = parts.new.lock } }
    {
        let came = self.cache.revalidate_cache_meta(alloc, parts, rng, meta);
        forget_confirmed(&mut self.cache, &mut self.held);
        told_of_renewal(came)
    }

    /// Takes it that what the request found is confirmed by a response with that head, which may not be kept: the body stays as it is.
    pub fn revalidate_uncacheable<E>(&mut self, parts: &mut TierParts<S, E>, sent: ResponseHeader)
        requires { can_revalidate self.old.phase self.old.gave_read ≡ true }
        ensures answer { RenewsNot self.old parts.old.lock self.new parts.new.lock }
        ensures parts { parts.new ≡ record parts.old { lock = parts.new.lock } }
    {
        self.cache
            .revalidate_uncacheable(parts, sent, NoCacheReason::OriginNotCache);
        self.cache.forget_cache_meta();
        self.held = None;
    }
}
