//! Numbering the slots anew.
ghost use Rattle.std.specs.Prelude.{◌≡◌, ◌≢◌, ◌==◌, if◌then◌else◌, ℕ, ◌+◌, ◌*◌, ◌/◌, ◌<◌, ◌≤◌, ◌^◌, ◌++◌, ◌∷◌, [], List, length, sum, replicate, slice_set, IfOk, IfErr, OnOk};
ghost use Rattle.curve_heights.specs.Faults.{IsNoSlot};
ghost use Rattle.curve_heights.specs.Slots.{nobody, is_owned, owned_in, places_in, gaps_in, IsKept, IsBuilt};

use crate::fault::HeightFault;
use crate::slots::NOBODY;
use curve_sums::BlockSums;
use std::alloc::{AllocError, Global};

// New slots.
#[derive(Drop)]
pub(crate) struct Renumbered {
    pub(crate) owners: Vec<u32>,
    pub(crate) cells: Vec<u64>,
    pub(crate) gaps: Vec<u64>,
    pub(crate) slots: Vec<u32>,
    pub(crate) free: usize,
}

// A slot that has an owner counts as one.
fn counted(owner: u32) -> usize
    ensures value { result ≡ (if is_owned owner then 1 else 0) }
    ensures most { result ≤ 1 }
{
    if owner == NOBODY { 0 } else { 1 }
}

// How many slots have an owner.
fn in_use(owners: &[u32]) -> usize
    ensures { result ≡ owned_in owners.now }
{
    let mut count = 0;
    for owner in owners {
        let one = counted(*owner);
        count += one;
    }
    count
}

// What the hole in a slot weighs.
fn gap_of(owner: u32, cell: u64) -> u64
    ensures { result ≡ (if owner == nobody then cell else 0) }
{
    if owner == NOBODY { cell } else { 0 }
}

// What the holes weigh, by slot.
fn gaps_of(alloc: Global, owners: &[u32], cells: &[u64]) -> Result<Vec<u64>, AllocError>
    requires { length cells.now ≡ length owners.now }
    ensures { IfOk result (λ gaps. gaps.items ≡ gaps_in owners.now cells.now) }
{
    let mut gaps = Vec::with_capacity(alloc, owners.len())?;
    for at in 0..owners.len() {
        let gap = gap_of(owners[at], cells[at]);
        gaps.push(gap)?;
    }
    Ok(gaps)
}

// Slots that are being made.
#[derive(Drop)]
struct Built {
    owners: Vec<u32>,
    cells: Vec<u64>,
    slots: Vec<u32>,
}

// So many free slots, and so many entries without one.
fn begin(alloc: Global, entries: usize, free: usize) -> Result<Built, AllocError>
    ensures { IfOk result (λ b. (b.owners.items ≡ replicate free nobody) × (b.cells.items ≡ replicate free 0) × (b.slots.items ≡ replicate entries nobody)) }
{
    let owners = vec![in alloc; NOBODY; free]?;
    let cells = vec![in alloc; 0u64; free]?;
    let slots = vec![in alloc; NOBODY; entries]?;
    Ok(Built {
        owners,
        cells,
        slots,
    })
}

// A hole, and an entry after it.
fn add(built: &mut Built, hole: u64, owner: u32, weight: u64) -> Result<(), AllocError>
    requires few { length built.old.owners.items + 1 < 4294967295 }
    requires within { owner < length built.old.slots.items }
    ensures owners { OnOk result (built.new.owners.items ≡ built.old.owners.items ++ nobody ∷ owner ∷ []) }
    ensures cells { OnOk result (built.new.cells.items ≡ built.old.cells.items ++ hole ∷ weight ∷ []) }
    ensures slots { OnOk result (built.new.slots.items ≡ slice_set built.old.slots.items owner (length built.old.owners.items + 1)) }
{
    let slot = (built.owners.len() + 1) as u32;
    built.owners.push(NOBODY)?;
    built.owners.push(owner)?;
    built.cells.push(hole)?;
    built.cells.push(weight)?;
    built.slots[owner as usize] = slot;
    Ok(())
}

// A slot, and the hole that is to come then.
fn step(built: &mut Built, hole: u64, owner: u32, weight: u64) -> Result<u64, AllocError>
    requires few { owner ≢ nobody → length built.old.owners.items + 1 < 4294967295 }
    requires within { owner ≢ nobody → owner < length built.old.slots.items }
    requires fits { hole + weight < 2 ^ 64 }
    ensures hole { owner ≡ nobody → IfOk result (λ after. after ≡ hole + weight) }
    ensures same { owner ≡ nobody → OnOk result (built.new ≡ built.old) }
    ensures none { owner ≢ nobody → IfOk result (λ after. after ≡ 0) }
    ensures owners { owner ≢ nobody → OnOk result (built.new.owners.items ≡ built.old.owners.items ++ nobody ∷ owner ∷ []) }
    ensures cells { owner ≢ nobody → OnOk result (built.new.cells.items ≡ built.old.cells.items ++ hole ∷ weight ∷ []) }
    ensures slots { owner ≢ nobody → OnOk result (built.new.slots.items ≡ slice_set built.old.slots.items owner (length built.old.owners.items + 1)) }
{
    if owner == NOBODY {
        return Ok(hole + weight);
    }
    add(built, hole, owner, weight)?;
    Ok(0)
}

// The slots without those that are empty, after so many free ones. Holes beside one another become one, and those after the last
// entry are left out.
fn compacted(
    alloc: Global,
    owners: &[u32],
    sums: &BlockSums,
    entries: usize,
    free: usize,
) -> Result<Built, AllocError>
    requires kept { (gaps : List ℕ) × (slots : List ℕ) × (next : ℕ) × IsKept owners.now sums.now gaps slots next × (length slots ≡ entries) }
    requires few { free + 2 * owned_in owners.now < 4294967295 }
    ensures { IfOk result (λ b. (hole : ℕ) × IsBuilt owners.now sums.now free (length owners.now) hole entries b.owners.items b.cells.items b.slots.items) }
{
    let _total = sums.total();
    let mut built = begin(alloc, entries, free)?;
    let mut hole = 0;
    for at in 0..owners.len() {
        let weight = sums.get(at);
        let after = step(&mut built, hole, owners[at], weight)?;
        hole = after;
    }
    Ok(built)
}

// How many slots are left free. Numbering anew goes over all entries that ever had a slot, so their number counts too: else a stream of
// entries that are soon removed would have them all gone over each few asks.
fn free_slots(used: usize, entries: usize) -> usize
    requires { 4 * used + 64 < 4294967295 }
    ensures fits { result + 2 * used < 4294967295 }
    ensures least { 2 * used + 64 ≤ result }
    ensures most { result ≤ 2 * used + 64 + entries / 4 }
    ensures more { 4 * used + 64 + entries / 4 < 4294967295 → result ≡ 2 * used + 64 + entries / 4 }
{
    let least = 2 * used + 64;
    if entries / 4 < NOBODY as usize - least - 2 * used {
        return least + entries / 4;
    }
    least
}

// The same entries and holes at new slots, of which about half are free.
pub(crate) fn number_anew(
    alloc: Global,
    owners: &[u32],
    sums: &BlockSums,
    slots: &[u32],
) -> Result<Renumbered, HeightFault>
    requires { (gaps : List ℕ) × (next : ℕ) × IsKept owners.now sums.now gaps slots.now next }
    ensures kept { IfOk result (λ r. IsKept r.owners.items r.cells.items r.gaps.items r.slots.items r.free) }
    ensures places { IfOk result (λ r. places_in 0 r.owners.items r.cells.items ≡ places_in 0 owners.now sums.now) }
    ensures fault { IfErr result (IsNoSlot (length (places_in 0 owners.now sums.now))) }
    ensures sums { IfOk result (λ r. (sum r.cells.items < 2 ^ 64) × (sum r.gaps.items < 2 ^ 64)) }
{
    let _total = sums.total();
    let used = in_use(owners);
    let least = 4 * used + 64;
    if least >= NOBODY as usize {
        return Err(HeightFault::TooMany);
    }
    let entries = slots.len();
    let free = free_slots(used, entries);
    let built = compacted(alloc, owners, sums, entries, free)?;
    let gaps = gaps_of(alloc, built.owners.as_slice(), built.cells.as_slice())?;
    let Built {
        owners,
        cells,
        slots,
    } = built;
    Ok(Renumbered {
        owners,
        cells,
        gaps,
        slots,
        free,
    })
}
