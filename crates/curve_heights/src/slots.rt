//! Slots of entries, in the order of use: the latest is the first.
ghost use Rattle.std.specs.Prelude.{◌≡◌, ◌≢◌, ℕ, ◌+◌, ◌-◌, ◌<◌, ◌≤◌, ◌^◌, ◌∷◌, List, length, sum, slice_index, IfSome, None};
ghost use Rattle.curve_heights.specs.Places.{filled, removed, all_weights, all_sizes};
ghost use Rattle.curve_heights.specs.Slots.{nobody, places_in, IsKept};

use curve_sums::BlockSums;
use std::alloc::AllocError;

// Nobody stands in a slot; an entry stands in none.
pub(crate) const NOBODY: u32 = u32::MAX;

// The slot of an entry, where it has one.
pub(crate) fn slot_of(slots: &[u32], entry: u32) -> Option<usize>
    ensures some { IfSome result (λ q. (entry < length slots.now) × (slice_index slots.now entry ≡ q) × (q ≢ nobody)) }
    ensures none { result ≡ None → entry < length slots.now → slice_index slots.now entry ≡ nobody }
{
    if entry as usize >= slots.len() {
        return None;
    }
    let slot = slots[entry as usize];
    if slot == NOBODY {
        return None;
    }
    Some(slot as usize)
}

// Makes sure that an entry can have a slot.
pub(crate) fn grow(slots: &mut Vec<u32>, entry: u32) -> Result<(), AllocError>
    requires { entry ≢ nobody }
    ensures { (owners weights gaps : List ℕ) (next : ℕ) → IsKept owners weights gaps slots.old.items next → IsKept owners weights gaps slots.new.items next }
{
    while slots.len() <= entry as usize {
        slots.push(NOBODY)?;
    }
    Ok(())
}

// An entry leaves its slot, if it has one: a hole is left there.
pub(crate) fn leave(
    owners: &mut Vec<u32>,
    sums: &BlockSums,
    gaps: &mut BlockSums,
    slots: &mut Vec<u32>,
    next: usize,
    entry: u32,
)
    requires { IsKept owners.old.items sums.now gaps.old slots.old.items next }
    ensures kept { IsKept owners.new.items sums.now gaps.new slots.new.items next }
    ensures places { places_in 0 owners.new.items sums.now ≡ removed entry (places_in 0 owners.old.items sums.now) }
    ensures lengths { length slots.new.items ≡ length slots.old.items }
    ensures gone { entry < length slots.new.items → slice_index slots.new.items entry ≡ nobody }
{
    let _total = sums.total();
    let Some(slot) = slot_of(slots.as_slice(), entry) else {
        return;
    };
    let weight = sums.get(slot);
    owners[slot] = NOBODY;
    gaps.add(slot, weight);
    slots[entry as usize] = NOBODY;
}

// What the entries weigh but for one.
pub(crate) fn others(
    owners: &[u32],
    sums: &BlockSums,
    gaps: &BlockSums,
    slots: &[u32],
    next: usize,
    entry: u32,
) -> u64
    requires { IsKept owners.now sums.now gaps.now slots.now next }
    ensures weights { result ≡ all_weights (removed entry (places_in 0 owners.now sums.now)) }
    ensures sizes { all_sizes (removed entry (places_in 0 owners.now sums.now)) < 2 ^ 64 }
{
    let all = sums.total() - gaps.total();
    match slot_of(slots, entry) {
        None => all,
        Some(slot) => all - sums.get(slot),
    }
}

// Takes a weight from the holes, the latest first, as far as there are any.
pub(crate) fn fill(
    owners: &[u32],
    sums: &mut BlockSums,
    gaps: &mut BlockSums,
    slots: &[u32],
    next: usize,
    weight: u64,
)
    requires { IsKept owners.now sums.old gaps.old slots.now next }
    ensures kept { IsKept owners.now sums.new gaps.new slots.now next }
    ensures places { places_in 0 owners.now sums.new ≡ filled weight (places_in 0 owners.now sums.old) }
    ensures spent { 0 < sum gaps.new → sum sums.new + weight ≡ sum sums.old }
{
    let mut left = weight;
    while left > 0 {
        let Some(hole) = gaps.first() else {
            return;
        };
        let taken = gaps.get(hole).min(left);
        gaps.take(hole, taken);
        sums.take(hole, taken);
        left -= taken;
    }
}

// Puts an entry that has no slot into the one before `next`.
pub(crate) fn enter(
    owners: &mut Vec<u32>,
    sums: &mut BlockSums,
    slots: &mut Vec<u32>,
    next: usize,
    entry: u32,
    weight: u64,
)
    requires kept { (gaps : List ℕ) × IsKept owners.old.items sums.old gaps slots.old.items next }
    requires some { 0 < next }
    requires within { entry < length slots.old.items }
    requires nowhere { slice_index slots.old.items entry ≡ nobody }
    requires fits { sum sums.old + weight < 2 ^ 64 }
    ensures kept { (gaps : List ℕ) → IsKept owners.old.items sums.old gaps slots.old.items next → IsKept owners.new.items sums.new gaps slots.new.items (next - 1) }
    ensures places { places_in 0 owners.new.items sums.new ≡ record { holes = 0; entry = entry; weight = weight } ∷ places_in 0 owners.old.items sums.old }
{
    let slot = next - 1;
    owners[slot] = entry;
    sums.add(slot, weight);
    slots[entry as usize] = slot as u32;
}
