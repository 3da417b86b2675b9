//! What a store does.
ghost use Rattle.std.specs.Prelude.{◌≡◌, Bool, Option, Some, true, option_map, IfOk, MatchResult};
ghost use Rattle.cache_words.specs.Key.{combined, key_of};
ghost use Rattle.cache_changes.specs.Changes.{StoredKey};
ghost use Rattle.cache_changes.specs.Store.{body_at};
ghost use Rattle.cache_heads.specs.declared.meta.CacheMeta.{CacheMeta as Meta};
ghost use Rattle.cache_store.specs.declared.storage.PurgeType.{PurgeType as Cause};
ghost use Rattle.cache_store.specs.declared.storage.PurgeType.TheVariants.{Invalidation};
ghost use Rattle.cache_store.specs.declared.storage.StoreFault.{StoreFault as Fault};
ghost use Rattle.cache_store.specs.Answers.{left};
ghost use Rattle.cache_store.specs.StoreState.{StoreState};
ghost use Rattle.cache_store.specs.Ids.{IsGiven, IdsAfter};
ghost use Rattle.cache_store.specs.Looks.{HasHeadAt, HasHeadFresh, HasHeadOf, LookAnswer, LookAtAnswer, LookFreshAnswer, ReaderAnswer, TagAnswer, Tells, asked, shows};
ghost use Rattle.cache_store.specs.Misses.{BeginAnswer};
ghost use Rattle.cache_store.specs.Purges.{PurgeAnswer, target_key, id_at};
ghost use Rattle.cache_store.specs.Renewals.{StaleAnswer, UpdateAnswer, PrepareAnswer, IsRenewed};
ghost use Rattle.cache_store.specs.Wholes.{Stores, IsWriteFault, whole_of};

use super::handlers::{Contents, HandleHit, HandleMiss};
use super::{MissFinishType, PurgeOutcome, PurgeTarget, PurgeType, StoreFault};
use bytes::Bytes;
use cache_entries::entry::CacheEntryId;
use cache_heads::CacheMeta;
use cache_words::key::CacheKey;
use cache_words::time::Moment;
use head_packed::HeldMeta;

/// What reads a body of a store.
pub type HitHandler<S> = <S as Storage>::Hit;

/// What writes a body to a store.
pub type MissHandler<S> = <S as Storage>::Miss;

/// What a look-up found: the meta, and a reader of the body.
pub type Found<H> = Option<(CacheMeta, H)>;

/// What a look-up at a moment found, with a reader of the body.
#[derive(Drop)]
pub enum FoundAt<H> {
    /// A response that is fresh up to a moment, which is no earlier than the one asked for.
    Fresh(Moment, H),
    /// A response that is fresh no more, with its meta, of which a store may give a share.
    Stale(HeldMeta, H),
}

/// What a look-up for a response that is fresh at a moment found.
#[derive(Debug, Drop)]
pub enum FreshLook<H> {
    /// A response that is fresh up to a moment, which is no earlier than the one asked for, with a reader of the body.
    Fresh(Moment, H),
    /// A response that is fresh no more.
    Stale,
    /// Nothing.
    Absent,
}

/// Why a write was not finished.
#[derive(Debug, Drop)]
pub enum MissFault<M> {
    /// Out of memory. The handler may be asked again.
    Memory(M),
    /// The write's key was purged since the write began. The handler is spent.
    WriteRemoved,
}

/// A store of bodies.
///
/// What differs between stores are the members: whether no number is left for a write, whether a look-up shows writes in flight,
/// and what a purge of a type does beside what it removes, as a count of evictions.
pub trait Storage: Contents {
    /// What reads a body. It is spent by its `finish`.
    type Hit: HandleHit<Self>;

    /// What writes a body. It is spent by its `finish` or `leave`.
    type Miss: HandleMiss<Self>;

    /// A meta that was made ready to be put beside the body of a key.
    type NewMeta: Drop;

    ghost key_in: { Self.NewMeta → StoredKey };

    ghost meta_in: { Self.NewMeta → Meta };

    ghost is_spent: { StoreState → Bool };

    ghost streams: { Bool };

    ghost purged_as: { Self → Cause → Self → Type 0 };

    /// Looks a key up.
    ///
    /// # Errors
    ///
    /// `Memory` when out of memory; nothing has changed.
    fn lookup(&mut self, key: &CacheKey) -> Result<Found<Self::Hit>, StoreFault>
        ensures look { LookAnswer Self.Hit.reader (shows streams (combined (key_of key.now)) (Self.held self.old).store)
            (Self.held self.old) result (Self.held self.new) }
        ensures head { HasHeadOf Self.Hit.head (shows streams (combined (key_of key.now)) (Self.held self.old).store) result }
        ensures tells { let k = combined (key_of key.now) in Tells Self.Hit.weight Self.Hit.id Self.weigh (Self.ids self.old k) (shows streams k (Self.held self.old).store) result }
        ensures ids { Self.ids self.new ≡ Self.ids self.old };

    /// Looks a key up for a response that is fresh at a moment: of such a one the meta isn't given. By default it is `lookup`; a store that
    /// keeps metas packed need not unpack one, and gives a share of one that is stale.
    ///
    /// # Errors
    ///
    /// `Memory` when out of memory; nothing has changed.
    fn lookup_at(
        &mut self,
        key: &CacheKey,
        moment: Moment,
    ) -> Result<Option<FoundAt<Self::Hit>>, StoreFault>
        ensures look { let k = combined (key_of key.now) in
            LookAtAnswer Self.Hit.reader Self.Hit.weight Self.Hit.id Self.weigh (Self.ids self.old k) moment (shows streams k (Self.held self.old).store)
            (Self.held self.old) result (Self.held self.new) }
        ensures head { HasHeadAt Self.Hit.head (shows streams (combined (key_of key.now)) (Self.held self.old).store) result }
        ensures ids { Self.ids self.new ≡ Self.ids self.old }
    {
        match self.lookup(key) {
            Ok(Some((meta, hit))) => {
                if meta.is_fresh(moment) {
                    Ok(Some(FoundAt::Fresh(meta.fresh_until(), hit)))
                } else {
                    Ok(Some(FoundAt::Stale(HeldMeta::whole(meta), hit)))
                }
            }
            Ok(None) => Ok(None),
            Err(fault) => Err(fault),
        }
    }

    /// Looks a key up for a response that is fresh at a moment, and for no other: how long that is fresh, and a reader of it. Where none is
    /// fresh, it returns whether there is any, and nothing has changed. By default it is `lookup_at`; a store that keeps metas apart need not
    /// read one.
    ///
    /// # Errors
    ///
    /// `Memory` when out of memory; nothing has changed.
    fn lookup_fresh(
        &mut self,
        key: &CacheKey,
        moment: Moment,
    ) -> Result<FreshLook<Self::Hit>, StoreFault>
        ensures look { let k = combined (key_of key.now) in
            LookFreshAnswer Self.Hit.reader Self.Hit.weight Self.Hit.id Self.weigh (Self.ids self.old k) moment (shows streams k (Self.held self.old).store)
            (Self.held self.old) result (Self.held self.new) }
        ensures head { HasHeadFresh Self.Hit.head (shows streams (combined (key_of key.now)) (Self.held self.old).store) result }
        ensures ids { Self.ids self.new ≡ Self.ids self.old }
    {
        match self.lookup_at(key, moment) {
            Ok(Some(found)) => match found {
                FoundAt::Fresh(until, hit) => Ok(FreshLook::Fresh(until, hit)),
                FoundAt::Stale(_meta, hit) => {
                    hit.finish(self);
                    Ok(FreshLook::Stale)
                }
            },
            Ok(None) => Ok(FreshLook::Absent),
            Err(fault) => Err(fault),
        }
    }

    /// Looks up the write of a key with that tag, which its handler lends. A tag that names no write's number asks for the key, as
    /// `lookup` does; in a store without tags that is each one, and the call is `lookup`.
    ///
    /// # Errors
    ///
    /// `WriteRemoved` where the tag names a number that isn't that of an alive write of the key in flight; those of `lookup`.
    fn lookup_streaming_write(
        &mut self,
        key: &CacheKey,
        tag: Option<&[u8]>,
    ) -> Result<Found<Self::Hit>, StoreFault>
        ensures stream { let named = Self.tagged (option_map (λ t. t.now) tag.entry) in
            TagAnswer Self.Hit.reader named (asked streams (combined (key_of key.now)) named (Self.held self.old).store)
            (Self.held self.old) result (Self.held self.new) }
        ensures head { HasHeadOf Self.Hit.head (shows streams (combined (key_of key.now)) (Self.held self.old).store) result }
        ensures tells { let k = combined (key_of key.now) in
            Tells Self.Hit.weight Self.Hit.id Self.weigh (Self.ids self.old k) (asked streams k (Self.tagged (option_map (λ t. t.now) tag.entry)) (Self.held self.old).store) result }
        ensures ids { Self.ids self.new ≡ Self.ids self.old };

    /// Looks up the write of a key with that tag for a reader of it alone, as who has begun it does. By default it is
    /// `lookup_streaming_write`; a store that keeps metas packed need not unpack one.
    ///
    /// # Errors
    ///
    /// Those of `lookup_streaming_write`.
    fn lookup_streaming_reader(
        &mut self,
        key: &CacheKey,
        tag: Option<&[u8]>,
    ) -> Result<Option<Self::Hit>, StoreFault>
        ensures reader { let k = combined (key_of key.now) in let named = Self.tagged (option_map (λ t. t.now) tag.entry) in
            ReaderAnswer Self.Hit.reader Self.Hit.weight Self.Hit.id Self.weigh (Self.ids self.old k) named (asked streams k named (Self.held self.old).store)
            (Self.held self.old) result (Self.held self.new) }
        ensures ids { Self.ids self.new ≡ Self.ids self.old }
    {
        match self.lookup_streaming_write(key, tag) {
            Ok(Some((_meta, hit))) => Ok(Some(hit)),
            Ok(None) => Ok(None),
            Err(fault) => Err(fault),
        }
    }

    /// Begins a write.
    ///
    /// # Errors
    ///
    /// `WriteNumbersSpent` exactly where no number is left, and then `MetaMoment` exactly where the meta can't be written;
    /// `Memory` when out of memory. Nothing has changed.
    fn get_miss_handler(
        &mut self,
        key: &CacheKey,
        meta: &CacheMeta,
    ) -> Result<Self::Miss, StoreFault>
        ensures begun { BeginAnswer Self.Miss.number (is_spent (Self.held self.old)) (combined (key_of key.now)) meta.now
            (Self.held self.old) result (Self.held self.new) }
        ensures ids { Self.ids self.new ≡ Self.ids self.old };

    /// Begins a write with a meta that is handed over: a store that keeps metas as they are needs no copy.
    ///
    /// # Errors
    ///
    /// Those of `get_miss_handler`.
    fn get_miss_handler_owned(
        &mut self,
        key: &CacheKey,
        meta: CacheMeta,
    ) -> Result<Self::Miss, StoreFault>
        ensures begun { BeginAnswer Self.Miss.number (is_spent (Self.held self.old)) (combined (key_of key.now)) meta
            (Self.held self.old) result (Self.held self.new) }
        ensures ids { Self.ids self.new ≡ Self.ids self.old }
    {
        self.get_miss_handler(key, &meta)
    }

    /// Stores a body that is there as a whole, and returns what a finish would and the id that the store gives it. `body` may be a small part of a buffer, as
    /// of a whole response: a store that keeps it and doesn't copy its bytes keeps that buffer. By default it is a write with these
    /// bytes; a store that shows no write before it ends may do less.
    ///
    /// # Errors
    ///
    /// Those of `get_miss_handler`, in their order; at `Memory` the write may have used a number. The bodies are as before.
    fn store_whole(
        &mut self,
        key: &CacheKey,
        meta: CacheMeta,
        body: Bytes,
    ) -> Result<(MissFinishType, Option<CacheEntryId>), StoreFault>
        ensures told { IfOk result (λ done. done.0 ≡ Self.Miss.told (whole_of (combined (key_of key.now)) meta body (Self.held self.old))) }
        ensures ids { MatchResult result (λ done. IsGiven (Some (combined (key_of key.now))) done.1 (Self.ids self.old) (Self.ids self.new)) (λ _. Self.ids self.new ≡ Self.ids self.old) }
        ensures stored { let spent = is_spent (Self.held self.old) in
            MatchResult result (λ _. Stores spent (combined (key_of key.now)) meta body (Self.held self.old) (Self.held self.new))
            (λ fault. IsWriteFault spent meta fault (Self.held self.old) (Self.held self.new)) }
    {
        let mut miss = match self.get_miss_handler_owned(key, meta) {
            Ok(miss) => miss,
            Err(fault) => return Err(fault),
        };
        if let Err(fault) = miss.write_body(self, body, true) {
            miss.leave(self);
            return Err(fault);
        }
        let id = miss.entry_id();
        match miss.finish(self) {
            Ok(finish) => Ok((finish, id)),
            Err(MissFault::WriteRemoved) => unreachable!(),
            Err(MissFault::Memory(miss)) => {
                miss.leave(self);
                Err(StoreFault::Memory)
            }
        }
    }

    /// Removes what is stored of the target. It takes no memory.
    fn purge(&mut self, target: PurgeTarget<'_>, purge_type: PurgeType) -> PurgeOutcome
        ensures purged { let k = target_key (Self.ids self.old) target.entry in PurgeAnswer k (id_at (Self.ids self.old) k)
            (Self.held self.old) result (Self.held self.new) }
        ensures ids { IdsAfter result (target_key (Self.ids self.old) target.entry) (Self.ids self.old) (Self.ids self.new) }
        ensures cause { purged_as self.old purge_type self.new };

    /// Lets what is stored of the target go stale at a moment. By default it is removed, as no longer valid.
    ///
    /// # Errors
    ///
    /// `Memory` when out of memory; nothing has changed.
    fn expire(
        &mut self,
        target: PurgeTarget<'_>,
        _moment: Moment,
    ) -> Result<PurgeOutcome, StoreFault>
        ensures stale { let k = target_key (Self.ids self.old) target.entry in
            MatchResult result (λ outcome. StaleAnswer k (id_at (Self.ids self.old) k) _moment (purged_as self.old Invalidation self.new) (Self.held self.old) outcome (Self.held self.new))
            (λ f. (f ≡ Fault.Memory) × (Self.held self.new ≡ Self.held self.old)) }
        ensures ids { MatchResult result (λ outcome. IdsAfter outcome (target_key (Self.ids self.old) target.entry) (Self.ids self.old) (Self.ids self.new))
            (λ _. Self.ids self.new ≡ Self.ids self.old) }
    {
        Ok(self.purge(target, PurgeType::Invalidation))
    }

    /// Makes another meta ready for the body of a key, and returns it with what that body weighs with it: so that what can fail comes
    /// before anything changes. `install_meta` gives it to the body.
    ///
    /// # Errors
    ///
    /// `NoMeta` where there is no body, and then `MetaMoment` where the meta can't be written; `Memory` when out of memory.
    fn prepare_meta(
        &self,
        key: &CacheKey,
        meta: &CacheMeta,
    ) -> Result<(Self::NewMeta, usize), StoreFault>
        ensures prepared { let k = combined (key_of key.now) in PrepareAnswer key_in meta_in Self.weigh (body_at k (Self.held self.now).store) k meta.now result };

    /// Gives the body of its key the meta that was made ready, if that key has a body. It takes no memory.
    fn install_meta(&mut self, new: Self::NewMeta)
        ensures installed { IsRenewed (key_in new) (λ _. meta_in new) (Self.held self.old) (Self.held self.new) }
        ensures ids { Self.ids self.new ≡ Self.ids self.old };

    /// Gives the body of a key another meta. By default that is `prepare_meta` and `install_meta`.
    ///
    /// # Errors
    ///
    /// `NoMeta` where there is no body, and then `MetaMoment` where the meta can't be written; `Memory` when out of memory.
    /// Nothing has changed.
    fn update_meta(&mut self, key: &CacheKey, meta: &CacheMeta) -> Result<(), StoreFault>
        ensures updated { let k = combined (key_of key.now) in UpdateAnswer (body_at k (Self.held self.old).store) k meta.now
            (Self.held self.old) result (Self.held self.new) }
        ensures ids { Self.ids self.new ≡ Self.ids self.old }
    {
        match self.prepare_meta(key, meta) {
            Ok((new, _weight)) => {
                self.install_meta(new);
                Ok(())
            }
            Err(fault) => Err(fault),
        }
    }

    /// Returns whether a write is read while it is written. A store that shows no write in flight returns `false`.
    fn support_streaming_partial_write(&self) -> bool
        ensures { result ≡ streams };
}
