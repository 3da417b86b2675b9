//! Places of entries.
ghost use Rattle.std.specs.Prelude.{◌≡◌, ◌≢◌, ◌<◌, ◌^◌, true, false, [], length, OnOk, OnErr, IfErr, IsOk};
ghost use Rattle.curve_heights.specs.Places.{height, asked, removed, all_sizes};
ghost use Rattle.curve_heights.specs.Slots.{nobody};
ghost use Rattle.curve_heights.specs.Faults.{IsTooHeavy, IsNoSlot, IsAskFault};
ghost use Rattle.curve_heights.specs.declared.fault.HeightFault.TheVariants.{Memory};

use crate::fault::HeightFault;
use crate::renumber::{Renumbered, number_anew};
use crate::slots::{NOBODY, enter, fill, grow, leave, others, slot_of};
use curve_sums::BlockSums;
use std::alloc::Global;
use std::marker::Model;

/// Entries in the order of use, with the holes between them. A clause sees their places.
#[derive(Drop)]
pub struct TraceHeights {
    // By slot, who stands there; nobody in a hole, and in a free slot.
    owners: Vec<u32>,
    // By slot, what the entry or the hole weighs.
    sums: BlockSums,
    // By slot, what the hole weighs.
    gaps: BlockSums,
    // By entry, its slot.
    slots: Vec<u32>,
    // The slots before this one are free.
    next: usize,
}

impl Model for TraceHeights {
    ghost use Rattle.std.specs.Prelude.{List};
    ghost use Rattle.curve_heights.specs.declared.place.Place.{Place};
    ghost use Rattle.curve_heights.specs.Slots.{places_in, IsKept};

    ghost Value = { List Place };

    ghost view = { λ h. places_in 0 h.owners.items h.sums };

    ghost invariant = { λ h. IsKept h.owners.items h.sums h.gaps h.slots.items h.next };
}

impl TraceHeights {
    /// No entries.
    pub fn new(alloc: Global) -> TraceHeights
        ensures { result ≡ [] }
    {
        TraceHeights {
            owners: Vec::new(alloc),
            sums: BlockSums::new(alloc),
            gaps: BlockSums::new(alloc),
            slots: Vec::new(alloc),
            next: 0,
        }
    }

    /// The height of an entry; nothing where it has no place.
    pub fn height(&self, entry: u32) -> Option<u64>
        ensures { result ≡ height entry self.now }
    {
        match slot_of(self.slots.as_slice(), entry) {
            None => None,
            Some(slot) => Some(self.sums.through(slot)),
        }
    }

    /// Puts an entry first that is asked for. On average over many asks it takes one step for each level of the sums.
    ///
    /// # Errors
    ///
    /// `TooHeavy` where entries and holes would then weigh 2^64 or more, `TooMany` where there is no number for a slot or the entry, and
    /// `Memory` only where neither holds. Whichever it is, nothing has changed.
    pub fn ask(&mut self, alloc: Global, entry: u32, weight: u64) -> Result<(), HeightFault>
        ensures ok { OnOk result (self.new ≡ asked entry weight self.old) }
        ensures fits { OnOk result ((all_sizes self.new < 2 ^ 64) × (entry ≢ nobody)) }
        ensures err { OnErr result (self.new ≡ self.old) }
        ensures fault { IfErr result (IsAskFault entry weight self.old) }
    {
        if self.is_too_heavy(entry, weight) {
            return Err(HeightFault::TooHeavy);
        }
        if entry == NOBODY {
            return Err(HeightFault::TooMany);
        }
        self.make_room(alloc)?;
        self.grow(entry)?;
        self.put_first(entry, weight)
    }

    /// Removes an entry.
    pub fn remove(&mut self, _alloc: Global, entry: u32) -> Result<(), HeightFault>
        ensures ok { OnOk result (self.new ≡ removed entry self.old) }
        ensures done { IsOk result }
    {
        leave(
            &mut self.owners,
            &self.sums,
            &mut self.gaps,
            &mut self.slots,
            self.next,
            entry,
        );
        Ok(())
    }

    // Whether entries and holes weigh 2^64 or more once an entry is asked for.
    fn is_too_heavy(&self, entry: u32, weight: u64) -> bool
        ensures yes { result ≡ true → IsTooHeavy entry weight self.now }
        ensures no { result ≡ false → all_sizes (asked entry weight self.now) < 2 ^ 64 }
    {
        let others = others(
            self.owners.as_slice(),
            &self.sums,
            &self.gaps,
            self.slots.as_slice(),
            self.next,
            entry,
        );
        u64::MAX - others < weight
    }

    // Sees to it that a slot is free.
    fn make_room(&mut self, alloc: Global) -> Result<(), HeightFault>
        ensures same { self.new ≡ self.old }
        ensures fault { IfErr result (IsNoSlot (length self.old)) }
    {
        if self.next > 0 {
            return Ok(());
        }
        self.renumber(alloc)
    }

    // Numbers the slots anew.
    fn renumber(&mut self, alloc: Global) -> Result<(), HeightFault>
        ensures same { self.new ≡ self.old }
        ensures fault { IfErr result (IsNoSlot (length self.old)) }
    {
        let made = number_anew(
            alloc,
            self.owners.as_slice(),
            &self.sums,
            self.slots.as_slice(),
        )?;
        let Renumbered {
            owners,
            cells,
            gaps,
            slots,
            free,
        } = made;
        let sums = BlockSums::of(alloc, cells)?;
        let gaps = BlockSums::of(alloc, gaps)?;
        self.owners = owners;
        self.sums = sums;
        self.gaps = gaps;
        self.slots = slots;
        self.next = free;
        Ok(())
    }

    // Sees to it that an entry can have a slot.
    fn grow(&mut self, entry: u32) -> Result<(), HeightFault>
        requires { entry ≢ nobody }
        ensures same { self.new ≡ self.old }
        ensures fault { IfErr result (λ fault. fault ≡ Memory) }
    {
        grow(&mut self.slots, entry)?;
        Ok(())
    }

    // Puts an entry first, where a slot is free.
    fn put_first(&mut self, entry: u32, weight: u64) -> Result<(), HeightFault>
        requires { all_sizes (asked entry weight self.old) < 2 ^ 64 }
        ensures ok { OnOk result (self.new ≡ asked entry weight self.old) }
        ensures err { OnErr result (self.new ≡ self.old) }
        ensures fault { IfErr result (λ fault. fault ≡ Memory) }
    {
        if self.next == 0 || entry as usize >= self.slots.len() {
            return Err(HeightFault::Memory);
        }
        let _total = self.sums.total();
        leave(
            &mut self.owners,
            &self.sums,
            &mut self.gaps,
            &mut self.slots,
            self.next,
            entry,
        );
        fill(
            self.owners.as_slice(),
            &mut self.sums,
            &mut self.gaps,
            self.slots.as_slice(),
            self.next,
            weight,
        );
        enter(
            &mut self.owners,
            &mut self.sums,
            &mut self.slots,
            self.next,
            entry,
            weight,
        );
        self.next -= 1;
        Ok(())
    }
}
