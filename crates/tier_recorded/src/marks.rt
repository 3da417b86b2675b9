//! Seats of the callers whose passes are gathered.
ghost use Rattle.std.specs.Prelude.{◌≡◌, ◌+◌, ◌<◌, ◌≤◌, ◌↔◌, ◌∷◌, ◌++◌, [], ℕ, true, IsTrue, IfOk, OnOk, IfErr, length, set, vec_len, vec_capacity};
ghost use Rattle.tier_recorded.specs.declared.gather.GatherFault.TheVariants.{PassDiffers};
ghost use Rattle.tier_recorded.specs.Seats.{DiffersAt, IsOpen, Marks, MarksOnly, OneDiffers, seat_of, total};

use crate::differs::difference;
use crate::gather::GatherFault;
use crate::history::{Record, Seat};
use crate::pass::{Pass, SpentPass};
use std::alloc::Global;
use std::collections::VecDeque;
use std::sync::ledger::{Ledger, Share};

// Whether a caller has a seat, and its pass isn't gathered.
fn is_open(seats: &Vec<Seat>, caller: u64) -> bool
    ensures { IsTrue result ↔ IsOpen seats.now.items caller }
{
    let place = caller as usize;
    if place >= seats.len() {
        return false;
    }
    !seats[place].is_gathered
}

fn close_seat(seats: &mut Vec<Seat>, caller: u64)
    requires { caller < length seats.old.items }
    ensures { seats.new.items ≡ set seats.old.items caller (record (seat_of caller seats.old.items) { is_gathered = true }) }
{
    seats[caller as usize].is_gathered = true;
}

// Marks the seat of a pass's caller, where the pass is what the history has of it.
fn mark<L: Ledger>(
    history: &[Record],
    seats: &mut Vec<Seat>,
    pass: &Pass<L>,
) -> Result<(), GatherFault>
    ensures marks { OnOk result (Marks seats.old.items (pass.now ∷ []) history.now seats.new.items) }
    ensures only { OnOk result (MarksOnly seats.old.items (pass.now ∷ []) seats.new.items) }
    ensures differs { IfErr result (λ fault. (turn : ℕ) × (fault ≡ PassDiffers pass.now.caller turn) × DiffersAt seats.old.items history.now [] pass.now turn) }
{
    let caller = pass.caller();
    if !is_open(seats, caller) {
        return Err(GatherFault::PassDiffers { caller, turn: 0 });
    }
    if let Some(turn) = difference(history, caller, pass.records()) {
        return Err(GatherFault::PassDiffers { caller, turn });
    }
    close_seat(seats, caller);
    Ok(())
}

/// Returns the seats with those of the passes' callers marked too, if each pass is what the history has of its caller.
pub(crate) fn marked<L: Ledger>(
    alloc: Global,
    history: &[Record],
    seats: &[Seat],
    passes: &[Pass<L>],
) -> Result<Vec<Seat>, GatherFault>
    ensures marks { IfOk result (λ marked. Marks seats.now passes.now history.now marked.items) }
    ensures differs { IfErr result (λ fault. (c turn : ℕ) → fault ≡ PassDiffers c turn → OneDiffers seats.now history.now passes.now c turn) }
{
    let Ok(mut marked) = Vec::from_slice(alloc, seats) else {
        return Err(GatherFault::Memory);
    };
    for pass in passes {
        mark(history, &mut marked, pass)?;
    }
    Ok(marked)
}

/// Takes the passes apart: their records go to what is gathered, in order, and their shares to the owner's.
pub(crate) fn spend_all<L: Ledger>(
    owner: &mut Share<L>,
    gathered: &mut Vec<SpentPass>,
    passes: Vec<Pass<L>>,
)
    requires { vec_len gathered.old + length passes.items ≤ vec_capacity gathered.old }
    ensures gathered { gathered.new.items ≡ gathered.old.items ++ passes.items }
    ensures parts { owner.new.parts ≡ owner.old.parts + length passes.items }
    ensures amount { owner.new.amount ≡ owner.old.amount + total passes.items }
{
    let mut rest = VecDeque::from(passes);
    while let Some(pass) = rest.pop_front() {
        let (spent, share) = pass.spend();
        gathered.push_reserved(spent);
        owner.merge(share);
    }
}
