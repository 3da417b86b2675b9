//! Revalidations of one of the requests.
ghost use Rattle.std.specs.Prelude.{◌≡◌, true, false, Some, option_map, unwrap_or, IfOk, IfErr, MatchOption};
ghost use Rattle.std.specs.FinMap as finite;
ghost use Rattle.request_store.specs.Admissions.{cache_of};
ghost use Rattle.tier_model.specs.Checks.{can_revalidate};
ghost use Rattle.tier_model.specs.Answers.{is_body_seen};
ghost use Rattle.tier_requests.specs.Shelves.{shelf_of};
ghost use Rattle.tier_requests.specs.Faults.{out_of_memory};
ghost use Rattle.tier_requests.specs.Rows.{OnOpen};
ghost use Rattle.tier_requests.specs.Renewals.{IsMerged, Renews, RenewsNot};

use super::Requests;
use crate::request::TierParts;
use cache_evict::EvictionManager;
use cache_heads::CacheMeta;
use cache_heads::meta::ResponseHeader;
use rand_core::Rng;
use std::alloc::Global;
use std::hash::BuildHasher;
use store_memory::MemCache;
use tier_model::event::{Answer, TierFault};

impl<S: BuildHasher> Requests<S> {
    /// Returns whether what the request of that number found may be confirmed, if it is open.
    pub fn can_revalidate(&self, id: u64) -> Option<bool>
        ensures { result ≡ option_map (λ q. can_revalidate q.phase q.gave_read) (finite.get self.now id) }
    {
        match self.table.get(&id) {
            Some(kept) => Some(kept.request().can_revalidate()),
            None => None,
        }
    }

    /// Returns whether the request of that number is open, and what it found past its moment is the body that the store has under its key.
    pub fn finds_its_body(&self, id: u64, store: &MemCache<S>) -> bool
        ensures { result ≡ unwrap_or (option_map (λ q. is_body_seen q (shelf_of store.now)) (finite.get self.now id)) false }
    {
        match self.table.get(&id) {
            Some(kept) => kept.request().finds_its_body(store),
            None => false,
        }
    }

    /// Returns the head of what a request found past its moment, with the fields that a response sent which confirms it.
    ///
    /// # Errors
    ///
    /// Out of memory; so is told too that the head gets more names or more values than it can count.
    pub fn merged(
        &self,
        alloc: Global,
        id: u64,
        sent: &ResponseHeader,
    ) -> Result<ResponseHeader, TierFault>
        requires { option_map (λ q. can_revalidate q.phase q.gave_read) (finite.get self.now id) ≡ Some true }
        ensures ok { IfOk result (λ header. MatchOption (finite.get self.now id) ⊥ (λ q. IsMerged q sent.now header)) }
        ensures err { IfErr result (λ f. f ≡ out_of_memory) }
    {
        match self.table.get(&id) {
            Some(kept) => kept.request().merged(alloc, sent),
            None => unreachable!(),
        }
    }

    /// Renews the body of a request's key with the meta of a response that confirms it: its moment of creation and its provenance stay.
    ///
    /// # Errors
    ///
    /// Why it isn't renewed. Where memory ran out after it was, it is removed with its entry.
    pub fn revalidate<E: EvictionManager, R: Rng>(
        &mut self,
        alloc: Global,
        id: u64,
        parts: &mut TierParts<S, E>,
        rng: &mut R,
        meta: CacheMeta,
    ) -> Result<Answer, TierFault>
        requires { option_map (λ q. can_revalidate q.phase q.gave_read) (finite.get self.old id) ≡ Some true }
        ensures answer { let before = cache_of parts.old.store (E.managed parts.old.manager) (R.stream rng.old) in
            let after = cache_of parts.new.store (E.managed parts.new.manager) (R.stream rng.new) in
            OnOpen id self.old ⊥ (λ q left. Renews E.shard_count E.weighed E.pick meta q before parts.old.lock result left after parts.new.lock) self.new }
        ensures parts { parts.new ≡ record parts.old { store = parts.new.store; manager = parts.new.manager; lock = parts.new.lock } }
    {
        match self.table.get_mut(&id) {
            Some(kept) => kept.request.revalidate(alloc, parts, rng, meta),
            None => Err(TierFault::NoRequest),
        }
    }

    /// Takes it that what a request found is confirmed by a response with that head, which may not be kept: the body stays as it is.
    pub fn revalidate_uncacheable<E>(
        &mut self,
        id: u64,
        parts: &mut TierParts<S, E>,
        sent: ResponseHeader,
    )
        requires { option_map (λ q. can_revalidate q.phase q.gave_read) (finite.get self.old id) ≡ Some true }
        ensures answer { OnOpen id self.old ⊥ (λ q left. RenewsNot q parts.old.lock left parts.new.lock) self.new }
        ensures parts { parts.new ≡ record parts.old { lock = parts.new.lock } }
    {
        match self.table.get_mut(&id) {
            Some(kept) => kept.request.revalidate_uncacheable(parts, sent),
            None => {}
        }
    }
}
