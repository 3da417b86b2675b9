//! What a refusal for memory leaves. These tests pass whichever allocation fails.

use lru_core::lru_unit::{LruFault, LruUnit};
use lru_list::linked_list::{LinkedList, LinkedListU64, ListFault};

/// Whether each push adds an item, or is refused for memory, hands the item back and adds nothing.
fn pushes_or_keeps(list: &mut LinkedListU64) -> bool {
    for item in 1..4 {
        let len = list.len();
        let right = match list.push_head(item) {
            Ok(_) => list.len() > len,
            Err(ListFault::Memory(back)) => back == item && list.len() == len,
            Err(ListFault::Full(_)) => false,
        };
        if !right {
            return false;
        }
    }
    true
}

/// Calls that add a row.
#[derive(Clone, Copy)]
enum Call {
    Admit,
    InsertTail,
    Increment,
}

/// Whether the call was done, or was refused for memory, handed the data back and left the shard with the sums that it had.
fn is_done_or_left(unit: &mut LruUnit<u32>, call: Call) -> bool {
    let (len, weight) = (unit.len(), unit.weight());
    let refused = match call {
        Call::Admit => match unit.admit(1, 10, 2) {
            Ok(_) => return true,
            Err(LruFault::Memory(back)) => back == 10,
            Err(_) => false,
        },
        Call::InsertTail => match unit.insert_tail(2, 20, 3) {
            Ok(_) => return true,
            Err(LruFault::Memory(back)) => back == 20,
            Err(_) => false,
        },
        Call::Increment => match unit.increment_weight(3, || 30, 5, None) {
            Ok(given) => return given == (0, 5, true),
            Err(LruFault::Memory(_)) => true,
            Err(_) => false,
        },
    };
    refused && unit.len() == len && unit.weight() == weight
}

#[test]
fn refusals_leave_what_was_there(rt: HostRuntime) {
    let made: Result<LinkedListU64, _> = LinkedList::with_capacity(rt.alloc(), 0);
    if let Ok(mut list) = made {
        assert!(rt; pushes_or_keeps(&mut list));
    }
    if let Ok(mut unit) = LruUnit::<u32>::with_capacity(rt.alloc(), 0, 100) {
        for call in [Call::Admit, Call::InsertTail, Call::Increment] {
            assert!(rt; is_done_or_left(&mut unit, call));
        }
    }
}
