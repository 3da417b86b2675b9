//! What a tier reports of faults.
ghost use Rattle.std.specs.Prelude.{◌≡◌};
ghost use Rattle.tier_model.specs.Calls.{nothing_done};
ghost use Rattle.tier_requests.specs.Faults.{out_of_memory, fault_for, lock_fault_for};

use cache_evict::EvictFault;
use cache_lock::LockFault;
use std::alloc::Global;
use tier_model::event::{Done, Entries, TierFault};

/// Nothing was done before the refusal.
pub fn nothing_done(alloc: Global) -> Done
    ensures { result ≡ nothing_done }
{
    Done {
        stored: false,
        admitted: false,
        evicted: Entries::new(alloc),
    }
}

/// There is no memory, and nothing was done.
pub fn out_of_memory(alloc: Global) -> TierFault
    ensures { result ≡ out_of_memory }
{
    TierFault::Memory(nothing_done(alloc))
}

/// A fault of the order of use, after what was done.
pub fn fault_for(fault: EvictFault, done: Done) -> TierFault
    ensures { result ≡ fault_for fault done }
{
    match fault {
        EvictFault::Memory(_) => TierFault::Memory(done),
        EvictFault::Weight(_) => TierFault::TooHeavy(done),
        EvictFault::Length(_) => TierFault::TooLong(done),
        EvictFault::NumbersSpent(_) => TierFault::NumbersSpent(done),
        EvictFault::File(_) => TierFault::Folder,
    }
}

// A fault of the lock, of which nothing was done.
pub(crate) fn lock_fault_for(alloc: Global, fault: LockFault) -> TierFault
    ensures { result ≡ lock_fault_for fault }
{
    match fault {
        LockFault::Memory => out_of_memory(alloc),
        LockFault::CoreNumbersSpent => TierFault::NumbersSpent(nothing_done(alloc)),
    }
}
