//! New slots of the list, with room in the table for their keys.

ghost use Rattle.std.specs.Prelude.{◌≡◌, ℕ, ◌<◌, ◌≤◌, true, false, length, Option, IfOk, OnOk, OnErr, nat_eq, slice_get};
ghost use Rattle.std.specs.HashMap.{get, spare};
ghost use Rattle.lru_list.specs.Slots.{has};
ghost use Rattle.lru_core.specs.Rows.{with_one};

use super::table::room_for;
use super::{End, MOST_ROWS, Row};
use lru_list::linked_list::{LinkedList, ListFault};
use std::collections::HashMap;
use std::hash::BuildHasher;

// Inserts a slot with `item` at that end, and makes room for its key in the table. `Full` if there are `MOST_ROWS`.
pub(super) fn new_slot<T: Drop, S: BuildHasher>(
    table: &mut HashMap<u64, usize, S>,
    list: &mut LinkedList<Option<Row<T>>>,
    item: Option<Row<T>>,
    end: End,
) -> Result<usize, ListFault<Option<Row<T>>>>
    ensures same { (q : ℕ) → get nat_eq table.new q ≡ get nat_eq table.old q }
    ensures room { OnOk result (0 < spare table.new) }
    ensures index { IfOk result (λ i. list.new.order ≡ with_one end i list.old.order) }
    ensures fresh { IfOk result (λ i. has list.old.order i ≡ false) }
    ensures held { IfOk result (λ i. slice_get list.new.items i ≡ Some item) }
    ensures kept { OnOk result ((j : ℕ) → has list.old.order j ≡ true → slice_get list.new.items j ≡ slice_get list.old.items j) }
    ensures err { OnErr result (list.new ≡ list.old) }
    ensures memory { (back : Option (Row T)) → result ≡ Err (ListFault.Memory back) → (back ≡ item) × (length list.old.order < MOST_ROWS) }
    ensures full { (back : Option (Row T)) → result ≡ Err (ListFault.Full back) → (back ≡ item) × (MOST_ROWS ≤ length list.old.order) }
{
    // The table refuses more as it does where memory is out.
    if list.len() >= MOST_ROWS {
        return Err(ListFault::Full(item));
    }
    if room_for(table, 1).is_err() {
        return Err(ListFault::Memory(item));
    }
    match end {
        End::Front => list.push_head(item),
        End::Back => list.push_tail(item),
    }
}
