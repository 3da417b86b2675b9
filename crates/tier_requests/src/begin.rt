//! How a request's write begins, or how the request stops using the cache.
ghost use Rattle.std.specs.Prelude.{◌≡◌, true, false, IfSome, OnOk, OnErr, IfErr};
ghost use Rattle.request_phases.specs.Phases.{is_disabled};
ghost use Rattle.tier_model.specs.Checks.{can_begin};
ghost use Rattle.tier_requests.specs.Shelves.{shelf_of, IsBelow};
ghost use Rattle.tier_requests.specs.Faults.{begin_fault_for};
ghost use Rattle.tier_requests.specs.Rows.{Begins, BeginsNot, GivesUp};

use crate::faults::{nothing_done, out_of_memory};
use crate::request::{Request, TierParts};
use cache_heads::{CacheMeta, NoCacheReason};
use cache_store::storage::{HandleMiss, Storage, StoreFault};
use request_cache::HttpCache;
use std::alloc::Global;
use std::hash::BuildHasher;
use tier_model::event::TierFault;

// Asks the writer for its tag, by which the store finds the write: it names the write's number. Nothing changes.
fn ask_tag<S: Storage>(cache: &mut HttpCache<S>)
    requires { is_disabled cache.old.phase ≡ false }
    ensures same { cache.new ≡ cache.old }
    ensures named { IfSome cache.old.writer (λ m. IfSome (S.tagged (S.Miss.tag m)) (λ n. n ≡ S.Miss.number m)) }
{
    if let Some(writer) = cache.take_writer() {
        let _tag = writer.streaming_write_tag();
        cache.put_writer(writer);
    }
}

// Why a write didn't begin.
fn begin_fault_for(alloc: Global, fault: StoreFault) -> TierFault
    ensures { result ≡ begin_fault_for fault }
{
    match fault {
        StoreFault::WriteNumbersSpent => TierFault::NumbersSpent(nothing_done(alloc)),
        _ => out_of_memory(alloc),
    }
}

impl<S: BuildHasher> Request<S> {
    /// Begins the write of a response with that meta.
    pub fn begin<E>(
        &mut self,
        alloc: Global,
        parts: &mut TierParts<S, E>,
        meta: CacheMeta,
    ) -> Result<(), TierFault>
        requires phase { can_begin self.old.phase self.old.gave_read ≡ true }
        requires below { IsBelow (shelf_of parts.old.store) }
        ensures begun { OnOk result (Begins meta self.old (shelf_of parts.old.store) parts.old.lock self.new (shelf_of parts.new.store) parts.new.lock) }
        ensures refused { IfErr result (λ f. BeginsNot (shelf_of parts.old.store) f (shelf_of parts.new.store)) }
        ensures err { OnErr result ((self.new ≡ self.old) × (parts.new.lock ≡ parts.old.lock)) }
        ensures parts { parts.new ≡ record parts.old { store = parts.new.store; lock = parts.new.lock } }
    {
        match self.cache.begin_write(parts, meta) {
            Ok(()) => {
                ask_tag(&mut self.cache);
                self.held = None;
                self.unread = None;
                Ok(())
            }
            Err(fault) => Err(begin_fault_for(alloc, fault)),
        }
    }

    /// Stops using the cache: the response may not be kept.
    pub fn give_up<E>(&mut self, parts: &mut TierParts<S, E>)
        requires { can_begin self.old.phase self.old.gave_read ≡ true }
        ensures given_up { GivesUp self.old (shelf_of parts.old.store) parts.old.lock self.new (shelf_of parts.new.store) parts.new.lock }
        ensures parts { parts.new ≡ record parts.old { store = parts.new.store; lock = parts.new.lock } }
    {
        self.cache.disable(parts, NoCacheReason::OriginNotCache);
        self.held = None;
        self.unread = None;
    }
}
