//! Rows of numbers in a core.

ghost use Rattle.std.specs.Prelude.{◌≡◌, ℕ, ◌%◌, ◌<◌, ◌∷◌, List, [], length, None, IfOk, IfErr, OnOk, OnErr};
ghost use Rattle.std.specs.Option.{option_map};
ghost use Rattle.cache_entries.specs.Entry.{owned_of};
ghost use Rattle.lru_core.specs.declared.rows.Row.{Row};
ghost use Rattle.lru_core.specs.Rows.{only, others, promoted, reweighed, row_of, raised, a_row};
ghost use Rattle.lru_core.specs.Cores.{shard_of, with_shard};
ghost use Rattle.cache_evict.specs.Managed.{added};
ghost use Rattle.lru_numbers.specs.Names.{name_at, HasNoNumber, with_name, without_name, IsFirstFree};
ghost use Rattle.cache_evict.specs.Numbered.{HasOwnRow, placed};
ghost use Rattle.cache_evict.specs.Refusals.{IsRowRefusal, IsNewRefusal, refusal_of, row_refusal};

use super::Refusal;
use cache_entries::entry::{CacheEntryKey, CacheEntryKeyRef};
use lru_core::LruCore;
use lru_core::lru_unit::LruFault;
use lru_numbers::{Numbers, NumbersFault};
use std::hash::BuildHasher;

/// An end of a shard.
#[derive(Clone, Copy)]
pub enum End {
    /// Where the entry used last is.
    First,
    /// Where the entry used longest ago is.
    Last,
}

// Puts the row of a number at the front of its shard, with that weight.
pub(super) fn put_first<const N: usize, S: BuildHasher>(
    core: &mut LruCore<u64, N, S>,
    number: u64,
    weight: usize,
) -> Result<(), Refusal>
    requires within { number % N < length core.old.shards }
    requires own { HasOwnRow number (shard_of N core.old number) }
    ensures ok { OnOk result (core.new ≡ with_shard N core.old number (a_row number number weight ∷ others number (shard_of N core.old number))) }
    ensures err { OnErr result (core.new ≡ core.old) }
    ensures why { IfErr result (IsRowRefusal N number weight core.old) }
{
    if weight == 0 {
        return put_weightless(core, number);
    }
    match core.admit(number, number, weight) {
        Ok(_) => Ok(()),
        Err(fault) => Err(row_refusal(fault)),
    }
}

// The same with the weight 0, which a core never gives a row that it admits.
fn put_weightless<const N: usize, S: BuildHasher>(
    core: &mut LruCore<u64, N, S>,
    number: u64,
) -> Result<(), Refusal>
    requires within { number % N < length core.old.shards }
    requires own { HasOwnRow number (shard_of N core.old number) }
    ensures ok { OnOk result (core.new ≡ with_shard N core.old number (a_row number number 0 ∷ others number (shard_of N core.old number))) }
    ensures err { OnErr result (core.new ≡ core.old) }
    ensures why { IfErr result (IsRowRefusal N number 0 core.old) }
{
    weigh_nothing(core, number)?;
    let _found = core.promote(number);
    Ok(())
}

// Gives the row of a number the weight 0, where it is or else at the back of its shard.
fn weigh_nothing<const N: usize, S: BuildHasher>(
    core: &mut LruCore<u64, N, S>,
    number: u64,
) -> Result<(), Refusal>
    requires { HasOwnRow number (shard_of N core.old number) }
    ensures ok { OnOk result ((rows : List (Row ℕ)) × (core.new ≡ with_shard N core.old number rows)
        × (promoted number rows ≡ a_row number number 0 ∷ others number (shard_of N core.old number))) }
    ensures err { OnErr result (core.new ≡ core.old) }
    ensures why { IfErr result (IsRowRefusal N number 0 core.old) }
{
    match core.insert_tail(number, number, 0) {
        Ok(true) => Ok(()),
        Ok(false) => match core.set_weight(number, 0) {
            Ok(_) => Ok(()),
            Err(_) => Err(Refusal::Weight),
        },
        Err(fault) => Err(row_refusal(fault)),
    }
}

// Puts the row of a number that has none at the back of its shard, with that weight.
fn put_last<const N: usize, S: BuildHasher>(
    core: &mut LruCore<u64, N, S>,
    number: u64,
    weight: usize,
) -> Result<(), Refusal>
    requires { only number (shard_of N core.old number) ≡ [] }
    ensures ok { OnOk result (core.new ≡ with_shard N core.old number (placed End.Last (a_row number number weight) (others number (shard_of N core.old number)))) }
    ensures err { OnErr result (core.new ≡ core.old) }
    ensures why { IfErr result (IsRowRefusal N number weight core.old) }
{
    match core.insert_tail(number, number, weight) {
        Ok(_) => Ok(()),
        Err(fault) => Err(row_refusal(fault)),
    }
}

// Adds `delta` to the weight of a number's row, up to a cap but never down, and moves the row to the front of its shard.
pub(super) fn raise_first<const N: usize, S: BuildHasher>(
    core: &mut LruCore<u64, N, S>,
    number: u64,
    delta: usize,
    cap: Option<usize>,
) -> Result<(), Refusal>
    ensures ok { let rows = shard_of N core.old number in (v : ℕ) → only number rows ≡ a_row number number v ∷ []
        → OnOk result (core.new ≡ with_shard N core.old number (a_row number number (raised v delta cap) ∷ others number rows)) }
    ensures err { OnErr result (core.new ≡ core.old) }
    ensures why { let rows = shard_of N core.old number in (v : ℕ) → only number rows ≡ a_row number number v ∷ [] → IfErr result (IsRowRefusal N number (raised v delta cap) core.old) }
{
    match core.increment_weight(number, move || number, delta, cap) {
        Ok(_) => Ok(()),
        Err(fault) => Err(row_refusal(fault)),
    }
}

// Gives the row of a number that weight, where it stands. Returns what it weighed.
pub(super) fn weigh_row<const N: usize, S: BuildHasher>(
    core: &mut LruCore<u64, N, S>,
    number: u64,
    weight: usize,
) -> Result<Option<usize>, Refusal>
    ensures before { IfOk result (λ old. old ≡ option_map (λ r. r.weight) (row_of number (shard_of N core.old number))) }
    ensures ok { OnOk result (core.new ≡ with_shard N core.old number (reweighed number weight (shard_of N core.old number))) }
    ensures err { OnErr result (core.new ≡ core.old) }
    ensures why { IfErr result (IsRowRefusal N number weight core.old) }
{
    match core.set_weight(number, weight) {
        Ok(old) => Ok(old),
        Err(_) => Err(Refusal::Weight),
    }
}

// What an entry that isn't tracked weighs once `delta` is added.
pub(super) fn weight_of_new(delta: usize, cap: Option<usize>) -> usize
    ensures { result ≡ added None delta cap }
{
    match cap {
        Some(cap) => delta.min(cap).max(1),
        None => delta.max(1),
    }
}

// Gives an entry a number, the first free one from the hash on, and puts the number's row at that end of its shard, with that
// weight.
pub(super) fn put_new<const N: usize, S: BuildHasher>(
    numbers: &mut Numbers<N, S>,
    core: &mut LruCore<u64, N, S>,
    entry: CacheEntryKey,
    hash: u64,
    weight: usize,
    end: End,
) -> Result<(), Refusal>
    requires new { HasNoNumber (name_at numbers.old) entry }
    requires free { (k : ℕ) → name_at numbers.old k ≡ None → (k % N < length core.old.shards) × (only k (shard_of N core.old k) ≡ []) }
    ensures ok { OnOk result ((k : ℕ) × IsFirstFree N (name_at numbers.old) hash k
        × ((i : ℕ) → name_at numbers.new i ≡ with_name (name_at numbers.old) k entry i)
        × (core.new ≡ with_shard N core.old k (placed end (a_row k k weight) (others k (shard_of N core.old k))))) }
    ensures numbers { OnErr result ((i : ℕ) → name_at numbers.new i ≡ name_at numbers.old i) }
    ensures core { OnErr result (core.new ≡ core.old) }
    ensures why { IfErr result (IsNewRefusal N (name_at numbers.old) hash weight core.old) }
{
    match numbers.give(entry, hash) {
        Ok(number) => match put_free(core, number, weight, end) {
            Ok(()) => Ok(()),
            Err(refusal) => {
                take_back(numbers, number);
                Err(refusal)
            }
        },
        Err(fault) => Err(refusal_of(fault)),
    }
}

// Puts the row of a number that has none at that end of its shard, with that weight.
fn put_free<const N: usize, S: BuildHasher>(
    core: &mut LruCore<u64, N, S>,
    number: u64,
    weight: usize,
    end: End,
) -> Result<(), Refusal>
    requires within { number % N < length core.old.shards }
    requires none { only number (shard_of N core.old number) ≡ [] }
    ensures ok { OnOk result (core.new ≡ with_shard N core.old number (placed end (a_row number number weight) (others number (shard_of N core.old number)))) }
    ensures err { OnErr result (core.new ≡ core.old) }
    ensures why { IfErr result (IsRowRefusal N number weight core.old) }
{
    match end {
        End::First => put_first(core, number, weight),
        End::Last => put_last(core, number, weight),
    }
}

// Takes a number back, with its entry.
pub(super) fn take_back<const N: usize, S: BuildHasher>(numbers: &mut Numbers<N, S>, number: u64)
    ensures { (i : ℕ) → name_at numbers.new i ≡ without_name (name_at numbers.old) number i }
{
    let _entry = numbers.give_back(number);
}

// A copy of an entry.
pub(super) fn copy_of(entry: CacheEntryKeyRef<'_>) -> Result<CacheEntryKey, Refusal>
    ensures copy { IfOk result (λ copy. copy ≡ owned_of entry.entry) }
    ensures memory { IfErr result (λ refusal. refusal ≡ Refusal.Memory) }
{
    match entry.to_entry() {
        Ok(copy) => Ok(copy),
        Err(_) => Err(Refusal::Memory),
    }
}

// Drops an entry.
pub(super) fn discard(entry: CacheEntryKey) {
    let _entry = entry;
}

// Why an entry has no number.
fn refusal_of(fault: NumbersFault) -> Refusal
    ensures { result ≡ refusal_of fault }
{
    match fault {
        NumbersFault::Memory(_) => Refusal::Memory,
        NumbersFault::Length(_) => Refusal::Length,
        NumbersFault::NumbersSpent(_) => Refusal::Spent,
    }
}

// Why a core doesn't take a row.
fn row_refusal<D: Drop>(fault: LruFault<D>) -> Refusal
    ensures { result ≡ row_refusal fault }
{
    match fault {
        LruFault::Memory(_) => Refusal::Memory,
        LruFault::Weight(_) => Refusal::Weight,
        LruFault::Length(_) => Refusal::Length,
    }
}
