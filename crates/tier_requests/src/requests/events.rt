//! The events of one of the requests.
ghost use Rattle.std.specs.Prelude.{◌≡◌, true, Some, Err, option_map, OnOk, OnErr, IfErr};
ghost use Rattle.std.specs.FinMap as finite;
ghost use Rattle.request_store.specs.Admissions.{cache_of};
ghost use Rattle.tier_model.specs.Checks.{can_begin, is_waiting, has_reader};
ghost use Rattle.tier_requests.specs.Shelves.{shelf_of, IsBelow};
ghost use Rattle.tier_requests.specs.Rows.{PollAnswer, ReadAnswer, PieceAnswer, Begins, BeginsNot, GivesUp, OnOpen};
ghost use Rattle.tier_requests.specs.Finishes.{FinishAnswer};
ghost use Rattle.tier_requests.specs.Looks.{LookAnswer, lent};

use super::Requests;
use crate::request::TierParts;
use bytes::Bytes;
use cache_evict::EvictionManager;
use cache_heads::CacheMeta;
use cache_words::time::Moment;
use rand_core::Rng;
use std::alloc::Global;
use std::hash::BuildHasher;
use tier_model::event::{Answer, TierFault};

impl<S: BuildHasher> Requests<S> {
    /// Looks up what is stored for a request's key.
    #[inline(always)]
    pub fn look_up<E: EvictionManager>(
        &mut self,
        alloc: Global,
        id: u64,
        parts: &mut TierParts<S, E>,
        moment: Moment,
    ) -> Result<Answer, TierFault>
        ensures answer { let before = lent (shelf_of parts.old.store) (E.managed parts.old.manager) parts.old.lock in
            let after = lent (shelf_of parts.new.store) (E.managed parts.new.manager) parts.new.lock in
            OnOpen id self.old ((result ≡ Err TierFault.NoRequest) × (after ≡ before))
            (λ q left. LookAnswer E.shard_count E.weighed moment q before result left after) self.new }
        ensures parts { parts.new ≡ record parts.old { store = parts.new.store; manager = parts.new.manager; lock = parts.new.lock } }
    {
        match self.table.get_mut(&id) {
            Some(kept) => kept.request.look_up(alloc, parts, moment),
            None => Err(TierFault::NoRequest),
        }
    }

    /// Asks how a request's wait for another's permit ended.
    pub fn poll<E>(
        &mut self,
        alloc: Global,
        id: u64,
        parts: &mut TierParts<S, E>,
        moment: Moment,
    ) -> Result<Answer, TierFault>
        ensures answer { OnOpen id self.old ((result ≡ Err TierFault.NoRequest) × (parts.new.lock ≡ parts.old.lock))
            (λ q left. PollAnswer (is_waiting q.held) moment q parts.old.lock result left parts.new.lock) self.new }
        ensures parts { parts.new ≡ record parts.old { lock = parts.new.lock } }
    {
        match self.table.get_mut(&id) {
            Some(kept) => kept.request.poll(alloc, parts, moment),
            None => Err(TierFault::NoRequest),
        }
    }

    /// Begins a request's write of a response with that meta.
    pub fn begin<E>(
        &mut self,
        alloc: Global,
        id: u64,
        parts: &mut TierParts<S, E>,
        meta: CacheMeta,
    ) -> Result<(), TierFault>
        requires open { option_map (λ q. can_begin q.phase q.gave_read) (finite.get self.old id) ≡ Some true }
        requires below { IsBelow (shelf_of parts.old.store) }
        ensures begun { OnOk result (OnOpen id self.old ⊥ (λ q left. Begins meta q (shelf_of parts.old.store) parts.old.lock left (shelf_of parts.new.store) parts.new.lock) self.new) }
        ensures refused { IfErr result (λ f. BeginsNot (shelf_of parts.old.store) f (shelf_of parts.new.store)) }
        ensures err { OnErr result ((self.new ≡ self.old) × (parts.new.lock ≡ parts.old.lock)) }
        ensures parts { parts.new ≡ record parts.old { store = parts.new.store; lock = parts.new.lock } }
    {
        match self.table.get_mut(&id) {
            Some(kept) => kept.request.begin(alloc, parts, meta),
            None => Err(TierFault::NoRequest),
        }
    }

    /// Stops a request's use of the cache: its response may not be kept.
    pub fn give_up<E>(&mut self, id: u64, parts: &mut TierParts<S, E>)
        requires { option_map (λ q. can_begin q.phase q.gave_read) (finite.get self.old id) ≡ Some true }
        ensures given_up { OnOpen id self.old ⊥ (λ q left. GivesUp q (shelf_of parts.old.store) parts.old.lock left (shelf_of parts.new.store) parts.new.lock) self.new }
        ensures parts { parts.new ≡ record parts.old { store = parts.new.store; lock = parts.new.lock } }
    {
        match self.table.get_mut(&id) {
            Some(kept) => kept.request.give_up(parts),
            None => {}
        }
    }

    /// Adds bytes to a request's write.
    pub fn piece<E>(
        &mut self,
        alloc: Global,
        id: u64,
        parts: &mut TierParts<S, E>,
        bytes: &Bytes,
        end: bool,
    ) -> Result<Answer, TierFault>
        ensures answer { OnOpen id self.old ((result ≡ Err TierFault.NoRequest) × (shelf_of parts.new.store ≡ shelf_of parts.old.store))
            (λ q left. (left ≡ q) × PieceAnswer q.write bytes.now end (shelf_of parts.old.store) result (shelf_of parts.new.store)) self.new }
        ensures parts { parts.new ≡ record parts.old { store = parts.new.store } }
    {
        match self.table.get_mut(&id) {
            Some(kept) => kept.request.piece(alloc, parts, bytes, end),
            None => Err(TierFault::NoRequest),
        }
    }

    /// Ends a request's write: its bytes are a body.
    pub fn finish<E: EvictionManager, R: Rng>(
        &mut self,
        alloc: Global,
        id: u64,
        parts: &mut TierParts<S, E>,
        rng: &mut R,
    ) -> Result<Answer, TierFault>
        ensures answer { let before = cache_of parts.old.store (E.managed parts.old.manager) (R.stream rng.old) in
            let after = cache_of parts.new.store (E.managed parts.new.manager) (R.stream rng.new) in
            OnOpen id self.old ((result ≡ Err TierFault.NoRequest) × (after ≡ before))
            (λ q left. FinishAnswer E.shard_count E.weighed E.pick q.write q before result left after) self.new }
        ensures lock { parts.new.lock ≡ parts.old.lock }
        ensures parts { parts.new ≡ record parts.old { store = parts.new.store; manager = parts.new.manager; lock = parts.new.lock } }
    {
        match self.table.get_mut(&id) {
            Some(kept) => kept.request.finish(alloc, parts, rng),
            None => Err(TierFault::NoRequest),
        }
    }

    /// Reads on in what a request's last look-up found, or in what it writes.
    #[inline(always)]
    pub fn read<E>(
        &mut self,
        alloc: Global,
        id: u64,
        parts: &TierParts<S, E>,
    ) -> Result<Answer, TierFault>
        ensures { OnOpen id self.old (result ≡ Err TierFault.NoRequest) (λ q left. ReadAnswer (has_reader q.reader) q (shelf_of parts.now.store) result left) self.new }
    {
        match self.table.get_mut(&id) {
            Some(kept) => kept.request.read(alloc, parts),
            None => Err(TierFault::NoRequest),
        }
    }
}
