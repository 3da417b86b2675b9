//! Look-ups, with handlers.
ghost use Rattle.std.specs.Prelude.{◌≡◌, Some, None, true, option_map, IfOk, MatchResult, Option, Result, if◌then◌else◌};
ghost use Rattle.cache_heads.specs.declared.meta.CacheMeta.{CacheMeta as Meta};
ghost use Rattle.cache_store.specs.declared.storage.store.FoundAt.TheVariants.{Fresh as FreshAt};
ghost use Rattle.cache_store.specs.declared.storage.store.FreshLook.{FreshLook as ForFresh};
ghost use Rattle.cache_heads.specs.Fresh.{is_fresh_at};
ghost use Rattle.cache_store.specs.Looks.{HasHeadFresh, LookFreshAnswer, ReaderAnswer, asked, told_at, answer_at, reader_found};
ghost use Rattle.cache_store.specs.declared.storage.StoreFault.{StoreFault as Fault};
ghost use Rattle.store_memory.specs.declared.handlers.MemHitHandler.{MemHitHandler as Handler};
ghost use Rattle.cache_store.specs.Answers.{look_up, streamed};
ghost use Rattle.store_memory.specs.Hits.{unread};
ghost use Rattle.store_memory.specs.Kept.{weigh, weight_with};
ghost use Rattle.store_memory.specs.Looks.{MemLookAnswer, MemStreamAnswer, tag_number};
ghost use Rattle.store_memory.specs.Readings.{head_of, reader_of as handler_reader, weight_of};

use crate::MemCache;
use crate::flight::{Kept, Shown};
use crate::handlers::{CompleteHit, MemHitHandler, PartialHit};
use crate::meta::{held, unpacked};
use bytes::Bytes;
use cache_heads::CacheMeta;
use cache_store::storage::streaming_write::U64WriteId;
use cache_store::storage::{Found, FoundAt, FreshLook, StoreFault};
use cache_words::key::HashBinary;
use cache_words::time::Moment;
use head_packed::{HeldMeta, SharedHead};
use std::alloc::{AllocError, Global};
use std::hash::BuildHasher;

// Returns the number that a tag names.
pub(crate) fn number_of(tag: Option<&[u8]>) -> Option<u64>
    ensures { result ≡ tag_number (option_map (λ t. t.now) tag.entry) }
{
    match U64WriteId::try_from(tag?) {
        Ok(id) => Some(u64::from(id)),
        Err(_) => None,
    }
}

// Shares bytes and a head.
#[inline(always)]
fn shared(bytes: &Bytes, head: &SharedHead) -> Result<(Bytes, SharedHead), AllocError>
    ensures { IfOk result (λ both. (both.0 ≡ bytes.now) × (both.1 ≡ head.now)) }
{
    let head: Result<SharedHead, AllocError> = head.clone();
    match head {
        Ok(head) => match bytes.clone() {
            Ok(bytes) => Ok((bytes, head)),
            Err(fault) => Err(fault),
        },
        Err(fault) => Err(fault),
    }
}

// Returns a reader of a body that is found, which is shared, as its head is.
fn reader_of(kept: &Kept) -> Result<MemHitHandler, StoreFault>
    ensures { MatchResult result (λ hit. hit ≡ Handler.Complete (unread kept.now.number kept.now.bytes (weight_with kept.now.meta kept.now.bytes) kept.now.meta.header)) (λ f. f ≡ Fault.Memory) }
{
    let body = kept.body();
    match shared(&body.bytes, body.meta.packed().head()) {
        Ok((bytes, head)) => {
            let hit = CompleteHit::new(body.number, bytes, kept.weight(), head);
            Ok(MemHitHandler::Complete(hit))
        }
        Err(_) => Err(StoreFault::Memory),
    }
}

// Returns what a look-up found where that is a body, with a share of its meta.
fn held_body(alloc: Global, kept: &Kept) -> Result<Option<(HeldMeta, MemHitHandler)>, StoreFault>
    ensures { MatchResult result (λ found. found ≡ Some (kept.now.meta, Handler.Complete (unread kept.now.number kept.now.bytes (weight_with kept.now.meta kept.now.bytes) kept.now.meta.header))) (λ f. f ≡ Fault.Memory) }
{
    let meta = held(alloc, kept.body().meta.packed())?;
    match reader_of(kept) {
        Ok(hit) => Ok(Some((meta, hit))),
        Err(fault) => Err(fault),
    }
}

// Returns what a look-up found where that is a body.
fn found_body(alloc: Global, kept: &Kept) -> Result<Found<MemHitHandler>, StoreFault>
    ensures { MatchResult result (λ found. found ≡ Some (kept.now.meta, Handler.Complete (unread kept.now.number kept.now.bytes (weight_with kept.now.meta kept.now.bytes) kept.now.meta.header))) (λ f. f ≡ Fault.Memory) }
{
    let meta = unpacked(alloc, kept.body().meta.packed())?;
    match reader_of(kept) {
        Ok(hit) => Ok(Some((meta, hit))),
        Err(fault) => Err(fault),
    }
}

// Returns a body that is found, with how long it is fresh.
#[inline(always)]
fn fresh_body(kept: &Kept) -> Result<Option<FoundAt<MemHitHandler>>, StoreFault>
    ensures { MatchResult result
        (λ found. found ≡ Some (FreshAt kept.now.meta.internal.fresh_until (Handler.Complete (unread kept.now.number kept.now.bytes (weight_with kept.now.meta kept.now.bytes) kept.now.meta.header)))) (λ f. f ≡ Fault.Memory) }
{
    let until = kept.fresh_until();
    match reader_of(kept) {
        Ok(hit) => Ok(Some(FoundAt::Fresh(until, hit))),
        Err(fault) => Err(fault),
    }
}

// Returns a body that is found, and until when it is fresh, unless it is stale at a moment.
#[inline(always)]
fn unless_stale(kept: &Kept, moment: Moment) -> Result<FreshLook<MemHitHandler>, StoreFault>
    ensures { let until = kept.now.meta.internal.fresh_until in
        MatchResult result (λ found. found ≡ (if is_fresh_at until moment
        then ForFresh.Fresh until (Handler.Complete (unread kept.now.number kept.now.bytes (weight_with kept.now.meta kept.now.bytes) kept.now.meta.header)) else ForFresh.Stale))
        (λ f. f ≡ Fault.Memory) }
{
    let until = kept.fresh_until();
    if !moment.is_at_most(&until) {
        return Ok(FreshLook::Stale);
    }
    match reader_of(kept) {
        Ok(hit) => Ok(FreshLook::Fresh(until, hit)),
        Err(fault) => Err(fault),
    }
}

// Returns what is found as it is reported at a moment.
fn told_at(moment: Moment, meta: HeldMeta, hit: MemHitHandler) -> FoundAt<MemHitHandler>
    ensures { result ≡ told_at moment (meta, hit) }
{
    let until = meta.internal().fresh_until;
    if moment.is_at_most(&until) {
        FoundAt::Fresh(until, hit)
    } else {
        FoundAt::Stale(meta, hit)
    }
}

// Returns the reader of what was found.
fn without_meta(
    found: Result<Option<(HeldMeta, MemHitHandler)>, StoreFault>,
) -> Result<Option<MemHitHandler>, StoreFault>
    ensures { result ≡ reader_found found }
{
    match found {
        Ok(Some((_meta, hit))) => Ok(Some(hit)),
        Ok(None) => Ok(None),
        Err(fault) => Err(fault),
    }
}

impl<S: BuildHasher> MemCache<S> {
    // Looks a key up. The meta of what is fresh at the moment stays packed.
    #[inline(always)]
    pub(crate) fn look_fresh(
        &mut self,
        key: &HashBinary,
        moment: Moment,
    ) -> Result<Option<FoundAt<MemHitHandler>>, StoreFault>
        ensures { (found : Result (Option (Meta × Handler)) Fault) × MemLookAnswer (look_up key.now self.old.store) self.old found self.new × (result ≡ answer_at moment found) }
    {
        let (until, number) = match self.shown(key) {
            None => return Ok(None),
            Some(Shown::Body(kept)) => {
                if moment.is_at_most(&kept.fresh_until()) {
                    return fresh_body(kept);
                }
                return self.look_told(key, moment);
            }
            Some(Shown::Flying(number, flight)) => (flight.meta.packed().fresh_until(), number),
        };
        if !moment.is_at_most(&until) {
            return self.look_told(key, moment);
        }
        if let Err(fault) = self.attach(number) {
            return Err(fault);
        }
        let hit = MemHitHandler::Partial(PartialHit::new(number));
        Ok(Some(FoundAt::Fresh(until, hit)))
    }

    // Looks a key up, and reports what is found as it is at a moment. It has room for a meta, which a look-up of a fresh body needs not.
    #[inline(never)]
    fn look_told(
        &mut self,
        key: &HashBinary,
        moment: Moment,
    ) -> Result<Option<FoundAt<MemHitHandler>>, StoreFault>
        ensures { (found : Result (Option (Meta × Handler)) Fault) × MemLookAnswer (look_up key.now self.old.store) self.old found self.new × (result ≡ answer_at moment found) }
    {
        match self.look_held(key) {
            Ok(Some((meta, hit))) => Ok(Some(told_at(moment, meta, hit))),
            Ok(None) => Ok(None),
            Err(fault) => Err(fault),
        }
    }

    // Looks a key up for what is fresh at a moment: no meta is read but for how long that is.
    pub(crate) fn find_fresh(
        &mut self,
        key: &HashBinary,
        moment: Moment,
    ) -> Result<FreshLook<MemHitHandler>, StoreFault>
        ensures look { LookFreshAnswer handler_reader weight_of (λ _. None) weigh None moment (look_up key.now self.old.store) self.old result self.new }
        ensures head { HasHeadFresh head_of (look_up key.now self.old.store) result }
    {
        let (until, number) = match self.shown(key) {
            None => return Ok(FreshLook::Absent),
            Some(Shown::Body(kept)) => return unless_stale(kept, moment),
            Some(Shown::Flying(number, flight)) => (flight.meta.packed().fresh_until(), number),
        };
        if !moment.is_at_most(&until) {
            return Ok(FreshLook::Stale);
        }
        if let Err(fault) = self.attach(number) {
            return Err(fault);
        }
        Ok(FreshLook::Fresh(until, MemHitHandler::Partial(PartialHit::new(number))))
    }

    // Looks a key up.
    pub(crate) fn look(&mut self, key: &HashBinary) -> Result<Found<MemHitHandler>, StoreFault>
        ensures { MemLookAnswer (look_up key.now self.old.store) self.old result self.new }
    {
        let alloc = self.alloc;
        let (meta, number) = match self.shown(key) {
            None => return Ok(None),
            Some(Shown::Body(kept)) => return found_body(alloc, kept),
            Some(Shown::Flying(number, flight)) => match unpacked(alloc, flight.meta.packed()) {
                Ok(meta) => (meta, number),
                Err(fault) => return Err(fault),
            },
        };
        if let Err(fault) = self.attach(number) {
            return Err(fault);
        }
        Ok(Some((meta, MemHitHandler::Partial(PartialHit::new(number)))))
    }

    // Looks a key up. The head of the meta is a share.
    fn look_held(
        &mut self,
        key: &HashBinary,
    ) -> Result<Option<(HeldMeta, MemHitHandler)>, StoreFault>
        ensures { MemLookAnswer (look_up key.now self.old.store) self.old result self.new }
    {
        let alloc = self.alloc;
        let (meta, number) = match self.shown(key) {
            None => return Ok(None),
            Some(Shown::Body(kept)) => return held_body(alloc, kept),
            Some(Shown::Flying(number, flight)) => match held(alloc, flight.meta.packed()) {
                Ok(meta) => (meta, number),
                Err(fault) => return Err(fault),
            },
        };
        if let Err(fault) = self.attach(number) {
            return Err(fault);
        }
        Ok(Some((meta, MemHitHandler::Partial(PartialHit::new(number)))))
    }

    // Looks up the write of a key in flight of that number.
    pub(crate) fn look_at(
        &mut self,
        key: &HashBinary,
        number: u64,
    ) -> Result<Found<MemHitHandler>, StoreFault>
        ensures { MemStreamAnswer (streamed key.now number self.old.store) self.old result self.new }
    {
        let alloc = self.alloc;
        let meta = match self.flying(key, number) {
            Some(flight) => match unpacked(alloc, flight.meta.packed()) {
                Ok(meta) => meta,
                Err(fault) => return Err(fault),
            },
            None => return Err(StoreFault::WriteRemoved),
        };
        if let Err(fault) = self.attach(number) {
            return Err(fault);
        }
        Ok(Some((meta, MemHitHandler::Partial(PartialHit::new(number)))))
    }

    // Looks up a reader of the write of a key in flight of that number, or of what the key shows where there is none.
    pub(crate) fn read_at(
        &mut self,
        key: &HashBinary,
        named: Option<u64>,
    ) -> Result<Option<MemHitHandler>, StoreFault>
        ensures { ReaderAnswer handler_reader weight_of (λ _. None) weigh None named (asked true key.now named self.old.store) self.old result self.new }
    {
        match named {
            Some(number) => self.read_write(key, number),
            None => self.read_shown(key),
        }
    }

    // Looks up a reader of what a key shows.
    fn read_shown(&mut self, key: &HashBinary) -> Result<Option<MemHitHandler>, StoreFault>
        ensures { ReaderAnswer handler_reader weight_of (λ _. None) weigh None None (look_up key.now self.old.store) self.old result self.new }
    {
        let found = self.look_held(key);
        without_meta(found)
    }

    // Looks up a reader of the write of a key in flight of that number.
    fn read_write(
        &mut self,
        key: &HashBinary,
        number: u64,
    ) -> Result<Option<MemHitHandler>, StoreFault>
        ensures { ReaderAnswer handler_reader weight_of (λ _. None) weigh None (Some number) (streamed key.now number self.old.store) self.old result self.new }
    {
        match self.flying(key, number) {
            Some(_flight) => {}
            None => return Err(StoreFault::WriteRemoved),
        }
        if let Err(fault) = self.attach(number) {
            return Err(fault);
        }
        Ok(Some(MemHitHandler::Partial(PartialHit::new(number))))
    }
}
