//! The runs of all entries, and what was found fresh.
ghost use Rattle.std.specs.Prelude.{◌≡◌, ◌≢◌, ℕ, ◌+◌, ◌<◌, ◌≤◌, ◌==◌, ◌^◌, true, false, if◌then◌else◌, [], length, slice_index, IfOk, IfErr, OnOk};
ghost use Rattle.curve_runs.specs.Runs.{runs_of, since_of, loaded};
ghost use Rattle.curve_runs.specs.Counts.{counted, fresh};

use crate::fault::RunsFault;
use crate::run::{Load, Run, renew, since_at};
use crate::spans::Spans;
use crate::tally::tally;
use std::alloc::{AllocError, Global};

/// Of each entry, by its number, and each size, from when on its last load there is stale; and how many requests found their entry
/// fresh at each size, and what these entries weigh together.
#[derive(Drop)]
pub struct FreshTable {
    sizes: usize,
    runs: Vec<Vec<Run>>,
    finds: Spans,
    bytes: Spans,
    // Room for the runs of one entry.
    room: Vec<Run>,
    // A request ended halfway, so nothing is known of the counts.
    is_broken: bool,
}

impl FreshTable {
    /// No entries, of so many sizes.
    pub fn new(alloc: Global, sizes: usize) -> Result<FreshTable, AllocError>
        ensures entries { IfOk result (λ t. t.runs.items ≡ []) }
        ensures finds { IfOk result (λ t. (i : ℕ) → counted i t.finds ≡ 0) }
        ensures bytes { IfOk result (λ t. (i : ℕ) → counted i t.bytes ≡ 0) }
        ensures sizes { IfOk result (λ t. (t.sizes ≡ sizes) × (length t.finds.begun.items ≡ sizes) × (length t.bytes.begun.items ≡ sizes)) }
        ensures whole { IfOk result (λ t. t.is_broken ≡ false) }
    {
        Ok(FreshTable {
            sizes,
            runs: Vec::new(alloc),
            finds: Spans::new(alloc, sizes)?,
            bytes: Spans::new(alloc, sizes)?,
            room: Vec::new(alloc),
            is_broken: false,
        })
    }

    /// Counts a request for an entry of that weight: one of those that were asked for, or the next number.
    ///
    /// # Errors
    ///
    /// Where memory runs out, or more was found than can be counted. The table is broken then, and of no more use.
    pub fn ask(
        &mut self,
        alloc: Global,
        entry: u32,
        weight: u64,
        load: Load,
    ) -> Result<(), RunsFault>
        requires { entry ≤ length self.old.runs.items }
        ensures since { OnOk result ((e i : ℕ) → i < self.old.sizes
            → since_of e i self.new.runs.items ≡ (if e == entry then loaded load i (since_of e i self.old.runs.items) else since_of e i self.old.runs.items)) }
        ensures finds { OnOk result ((i : ℕ) → i < length self.old.finds.begun.items
            → counted i self.new.finds ≡ counted i self.old.finds + fresh load 1 i (since_of entry i self.old.runs.items)) }
        ensures bytes { OnOk result ((i : ℕ) → i < length self.old.bytes.begun.items
            → counted i self.new.bytes ≡ counted i self.old.bytes + fresh load weight i (since_of entry i self.old.runs.items)) }
        ensures sizes { OnOk result ((self.new.sizes ≡ self.old.sizes) × (length self.new.finds.begun.items ≡ length self.old.finds.begun.items)
            × (length self.new.bytes.begun.items ≡ length self.old.bytes.begun.items)) }
        ensures old { entry < length self.old.runs.items → OnOk result (length self.new.runs.items ≡ length self.old.runs.items) }
        ensures next { entry ≡ length self.old.runs.items → OnOk result (length self.new.runs.items ≡ length self.old.runs.items + 1) }
        ensures whole { OnOk result (self.new.is_broken ≡ self.old.is_broken) }
        ensures err { IfErr result (λ fault. self.new.is_broken ≡ true) }
    {
        let done = self.count(alloc, entry, weight, load);
        if done.is_err() {
            self.is_broken = true;
        }
        done
    }

    // Counts a request. Where it can't, some of the counts may have changed.
    fn count(&mut self, alloc: Global, entry: u32, weight: u64, load: Load) -> Result<(), RunsFault>
        requires { entry ≤ length self.old.runs.items }
        ensures since { OnOk result ((e i : ℕ) → i < self.old.sizes
            → since_of e i self.new.runs.items ≡ (if e == entry then loaded load i (since_of e i self.old.runs.items) else since_of e i self.old.runs.items)) }
        ensures finds { OnOk result ((i : ℕ) → i < length self.old.finds.begun.items
            → counted i self.new.finds ≡ counted i self.old.finds + fresh load 1 i (since_of entry i self.old.runs.items)) }
        ensures bytes { OnOk result ((i : ℕ) → i < length self.old.bytes.begun.items
            → counted i self.new.bytes ≡ counted i self.old.bytes + fresh load weight i (since_of entry i self.old.runs.items)) }
        ensures sizes { OnOk result ((self.new.sizes ≡ self.old.sizes) × (length self.new.finds.begun.items ≡ length self.old.finds.begun.items)
            × (length self.new.bytes.begun.items ≡ length self.old.bytes.begun.items)) }
        ensures old { entry < length self.old.runs.items → OnOk result (length self.new.runs.items ≡ length self.old.runs.items) }
        ensures next { entry ≡ length self.old.runs.items → OnOk result (length self.new.runs.items ≡ length self.old.runs.items + 1) }
        ensures whole { OnOk result (self.new.is_broken ≡ self.old.is_broken) }
    {
        known(alloc, &mut self.runs, entry)?;
        let runs = &mut self.runs[entry as usize];
        tally(&mut self.finds, runs.as_slice(), load, 1)?;
        tally(&mut self.bytes, runs.as_slice(), load, weight)?;
        renew(runs.as_slice(), load, self.sizes, &mut self.room)?;
        runs.clear();
        runs.extend_from_slice(self.room.as_slice())?;
        Ok(())
    }

    /// From when on the last load of an entry at a size is stale; 0 where there was none.
    pub fn since(&self, entry: u32, size: usize) -> u64
        requires { entry < length self.now.runs.items }
        ensures { result ≡ since_of entry size self.now.runs.items }
    {
        let runs = &self.runs[entry as usize];
        since_at(runs.as_slice(), size)
    }

    /// How many requests found their entry fresh, at each size.
    pub fn finds(&self, alloc: Global) -> Result<Vec<u128>, AllocError>
        ensures rows { IfOk result (λ rows. (i : ℕ) → i < length rows.items → slice_index rows.items i ≡ counted i self.now.finds) }
        ensures sizes { IfOk result (λ rows. length rows.items ≡ length self.now.finds.begun.items) }
    {
        self.finds.rows(alloc)
    }

    /// What these entries weigh together.
    pub fn bytes(&self, alloc: Global) -> Result<Vec<u128>, AllocError>
        ensures rows { IfOk result (λ rows. (i : ℕ) → i < length rows.items → slice_index rows.items i ≡ counted i self.now.bytes) }
        ensures sizes { IfOk result (λ rows. length rows.items ≡ length self.now.bytes.begun.items) }
    {
        self.bytes.rows(alloc)
    }
}

// Sees to it that an entry has runs.
fn known(alloc: Global, runs: &mut Vec<Vec<Run>>, entry: u32) -> Result<(), AllocError>
    requires { entry ≤ length runs.old.items }
    ensures same { OnOk result ((e : ℕ) → runs_of e runs.new.items ≡ runs_of e runs.old.items) }
    ensures old { entry < length runs.old.items → OnOk result (length runs.new.items ≡ length runs.old.items) }
    ensures next { entry ≡ length runs.old.items → OnOk result (length runs.new.items ≡ length runs.old.items + 1) }
    ensures within { OnOk result (entry < length runs.new.items) }
{
    if entry as usize == runs.len() {
        runs.push(Vec::new(alloc))?;
    }
    Ok(())
}
