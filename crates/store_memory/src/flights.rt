//! The writes in flight, by their numbers.
ghost use Rattle.std.specs.Prelude.{◌≡◌, ◌<◌, ◌++◌, ◌∷◌, [], ℕ, Some, None, IfOk, IfErr, OnOk, OnErr, option_map, is_some, true, false};
ghost use Rattle.std.specs.Ordering.{nat_cmp};
ghost use Rattle.std.specs.BTreeMap.{get, is_at, keys, IsOrdered};
ghost use Rattle.std.specs.Map.{remove_entry};
ghost use Rattle.std.specs.List.{AllByRecursion};
ghost use Rattle.cache_store.specs.declared.storage.StoreFault.{StoreFault as Fault};
ghost use Rattle.store_memory.specs.declared.flight.Flight.{Flight as FlightValue};
ghost use Rattle.store_memory.specs.Kept.{key_at, written, ChangesAt};
ghost use Rattle.cache_store.specs.Answers.{WriteAnswer};

use crate::flight::{Flight, InFlight};
use bytes::Bytes;
use cache_store::storage::StoreFault;
use cache_words::key::HashBinary;
use std::alloc::{AllocError, Global};
use std::collections::BTreeMap;

pub(crate) type Flights = BTreeMap<u64, InFlight>;

// Puts a write after those that are there.
pub(crate) fn put(
    flights: &mut Flights,
    alloc: Global,
    number: u64,
    flight: Flight,
) -> Result<(), StoreFault>
    requires { AllByRecursion (λ n. n < number) (keys flights.old) }
    ensures ok { OnOk result ((flights.new.entries ≡ flights.old.entries ++ (number, flight) ∷ []) × IsOrdered nat_cmp flights.new) }
    ensures err { OnErr result (flights.new.entries ≡ flights.old.entries) }
    ensures fault { IfErr result (λ f. f ≡ Fault.Memory) }
{
    let Ok(kept) = InFlight::new(alloc, flight) else {
        return Err(StoreFault::Memory);
    };
    match flights.insert(number, kept) {
        Ok(_) => Ok(()),
        Err(_) => Err(StoreFault::Memory),
    }
}

// Adds bytes to a write, and marks its end where they are the last.
pub(crate) fn append(
    flights: &mut Flights,
    alloc: Global,
    number: u64,
    more: Bytes,
    eof: bool,
) -> Result<(), StoreFault>
    ensures answer { WriteAnswer (option_map (λ f. f.ended) (get nat_cmp flights.old number)) result }
    ensures ok { OnOk result (ChangesAt number (written more eof) flights.old flights.new) }
    ensures err { OnErr result (ChangesAt number (λ f. f) flights.old flights.new) }
{
    match flights.get(&number) {
        None => Err(StoreFault::WriteRemoved),
        Some(kept) if kept.flight().ended => Err(StoreFault::AfterEnd),
        Some(_) => match add_bytes(flights, alloc, number, more, eof) {
            Ok(()) => Ok(()),
            Err(_) => Err(StoreFault::Memory),
        },
    }
}

// Adds bytes to a write that is there.
fn add_bytes(
    flights: &mut Flights,
    alloc: Global,
    number: u64,
    more: Bytes,
    eof: bool,
) -> Result<(), AllocError>
    requires { (f : FlightValue) × (get nat_cmp flights.old number ≡ Some f) × (f.ended ≡ false) }
    ensures ok { OnOk result (ChangesAt number (written more eof) flights.old flights.new) }
    ensures err { OnErr result (ChangesAt number (λ f. f) flights.old flights.new) }
{
    flights.get_mut(&number).unwrap().append(alloc, more, eof)
}

// Joins the bytes of a write, whose pieces stay.
pub(crate) fn join(flights: &Flights, alloc: Global, number: u64) -> Result<Bytes, AllocError>
    requires { is_some (get nat_cmp flights.now number) ≡ true }
    ensures { IfOk result (λ bytes. (f : FlightValue) → get nat_cmp flights.now number ≡ Some f → bytes ≡ f.pieces) }
{
    let kept = flights.get(&number).unwrap();
    kept.flight().pieces.join(alloc)
}

// Returns the key of a write.
pub(crate) fn key_of(flights: &Flights, number: u64) -> Option<HashBinary>
    ensures { result ≡ key_at flights.now number }
{
    Some(flights.get(&number)?.flight().key)
}

// Takes a write out.
pub(crate) fn take(flights: &mut Flights, number: u64) -> Flight
    requires { is_some (get nat_cmp flights.old number) ≡ true }
    ensures value { get nat_cmp flights.old number ≡ Some result }
    ensures entries { flights.new.entries ≡ remove_entry (is_at (nat_cmp number)) flights.old.entries }
    ensures ordered { IsOrdered nat_cmp flights.new }
{
    flights.remove(&number).unwrap().into_flight()
}
