//! Calls of a linked list, one after another, and what it then shows.

use lru_list::linked_list::{Index, LinkedList, LinkedListU64, MOST_ITEMS};
use std::alloc::Global;

// Whether the list gives these items from its head, and the same from its tail.
fn gives(list: &LinkedListU64, items: &[u64]) -> bool {
    let mut first = list.iter();
    let mut last = list.iter();
    let mut left = items.len();
    if list.len() != left {
        return false;
    }
    for item in items {
        left = left.wrapping_sub(1);
        if first.next().copied() != Some(*item)
            || last.next_back().copied() != items.get(left).copied()
        {
            return false;
        }
    }
    first.next().is_none() && last.next_back().is_none()
}

// The item of a slot, which both looks at it tell.
fn slot(list: &mut LinkedListU64, i: Index) -> Option<u64> {
    let item = list.peek(i).copied();
    if list.peek_mut(i).is_some() != item.is_some() {
        unreachable!();
    }
    item
}

// An empty list with this room, and then with room for two items more.
fn list(alloc: Global, capacity: usize) -> LinkedListU64 {
    let mut list = LinkedList::with_capacity(alloc, capacity).unwrap();
    list.reserve(2).unwrap();
    list
}

#[test]
fn the_ends_of_an_empty_list_have_no_neighbours_outside(rt: HostRuntime) {
    let outside = u32::MAX as usize;
    for capacity in [4, 0, 2, 3] {
        let list: LinkedListU64 = LinkedList::with_capacity(rt.alloc(), capacity).unwrap();
        assert!(rt; (list.prev_index(0), list.next_index(0)) == (outside, 1));
        assert!(rt; (list.prev_index(1), list.next_index(1)) == (0, outside));
    }
    assert!(rt; MOST_ITEMS == 4294967293);
}

// The slot that was freed last is used again first.
#[test]
fn slots_are_used_again(rt: HostRuntime) {
    let mut list = list(rt.alloc(), 4);
    assert!(rt; (list.head(), list.tail()) == (None, None));
    assert!(rt; list.push_head(1).ok() == Some(2));
    assert!(rt; list.is_live(2));
    assert!(rt; list.push_head(2).ok() == Some(3));
    assert!(rt; list.is_live(3));
    assert!(rt; list.push_head(3).ok() == Some(4));
    assert!(rt; list.is_live(4));
    assert!(rt; list.remove(3) == 2);
    assert!(rt; slot(&mut list, 3) == Some(0));
    assert!(rt; list.push_head(4).ok() == Some(3));
    assert!(rt; gives(&list, &[4, 3, 1]));
    assert!(rt; (list.head(), list.tail()) == (Some(3), Some(2)));
    assert!(rt; slot(&mut list, 4) == Some(3));
    assert!(rt; slot(&mut list, 0) == None);
    assert!(rt; !list.is_live(1));
    assert!(rt; (list.prev_index(3), list.next_index(3)) == (0, 4));
    assert!(rt; (list.prev_index(2), list.next_index(2)) == (4, 1));
}

#[test]
fn items_are_promoted_replaced_and_popped(rt: HostRuntime) {
    let mut list = list(rt.alloc(), 0);
    assert!(rt; list.push_tail(3).ok() == Some(2));
    assert!(rt; list.is_live(2));
    assert!(rt; list.push_tail(2).ok() == Some(3));
    assert!(rt; list.is_live(3));
    assert!(rt; list.push_tail(4).ok() == Some(4));
    assert!(rt; list.is_live(4));
    list.promote(2);
    assert!(rt; gives(&list, &[3, 2, 4]));
    list.promote(2);
    assert!(rt; (list.head(), list.tail()) == (Some(2), Some(4)));
    list.promote(3);
    assert!(rt; gives(&list, &[2, 3, 4]));
    list.promote(3);
    assert!(rt; list.is_near_head(2, 2));
    list.promote(3);
    assert!(rt; !list.is_near_head(4, 2));
    list.promote(4);
    assert!(rt; gives(&list, &[4, 2, 3]));
    list.promote(4);
    assert!(rt; (list.head(), list.tail()) == (Some(4), Some(2)));
    assert!(rt; list.replace(3, 5) == 2);
    assert!(rt; *list.item(3) == 5);
    assert!(rt; list.pop_tail() == Some(3));
    assert!(rt; slot(&mut list, 4) == Some(4));
    assert!(rt; list.pop_tail() == Some(5));
    assert!(rt; !list.is_live(3));
    assert!(rt; list.pop_tail() == Some(4));
    assert!(rt; gives(&list, &[]));
    assert!(rt; list.pop_tail() == None);
    assert!(rt; (list.head(), list.tail()) == (None, None));
}

#[test]
fn items_near_the_head(rt: HostRuntime) {
    let mut list = list(rt.alloc(), 2);
    assert!(rt; list.push_head(1).ok() == Some(2));
    assert!(rt; list.exist_near_head(&1, 1));
    assert!(rt; list.push_head(2).ok() == Some(3));
    assert!(rt; list.exist_near_head(&2, 1));
    *list.peek_mut(3).unwrap() = 2;
    assert!(rt; !list.exist_near_head(&1, 1));
    *list.peek_mut(3).unwrap() = 2;
    assert!(rt; list.exist_near_head(&1, 2));
    *list.peek_mut(3).unwrap() = 2;
    assert!(rt; !list.exist_near_head(&3, 5));
    *list.peek_mut(2).unwrap() = 7;
    assert!(rt; list.exist_near_head(&7, 2));
    *list.peek_mut(2).unwrap() = 7;
    assert!(rt; slot(&mut list, 2) == Some(7));
    *list.peek_mut(2).unwrap() = 7;
    assert!(rt; slot(&mut list, 1) == None);
    *list.peek_mut(2).unwrap() = 7;
    assert!(rt; slot(&mut list, 4) == None);
}

// An empty list gives nothing, and three items come from both ends.
#[test]
fn items_come_from_both_ends(rt: HostRuntime) {
    let mut list = list(rt.alloc(), 3);
    let mut items = list.iter();
    assert!(rt; items.next().copied() == None);
    assert!(rt; list.push_tail(4).ok() == Some(2));
    assert!(rt; list.is_live(2));
    assert!(rt; list.push_tail(3).ok() == Some(3));
    assert!(rt; list.is_live(3));
    assert!(rt; list.push_tail(1).ok() == Some(4));
    assert!(rt; list.is_live(4));
    let mut items = list.iter();
    assert!(rt; items.next().copied() == Some(4));
    assert!(rt; items.next_back().copied() == Some(1));
    assert!(rt; items.size_hint() == (1, Some(1)));
    assert!(rt; items.next().copied() == Some(3));
    assert!(rt; items.next().copied() == None);
    assert!(rt; items.next_back().copied() == None);
}

// Each push makes a slot of items and of links, and a removal frees both: there are no others.
#[test]
fn both_vectors_have_the_same_length(rt: HostRuntime) {
    let mut list = list(rt.alloc(), 0);
    assert!(rt; list.push_head(1).ok() == Some(2));
    assert!(rt; slot(&mut list, 3) == None);
    assert!(rt; list.push_tail(2).ok() == Some(3));
    assert!(rt; slot(&mut list, 4) == None);
    assert!(rt; list.push_tail(3).ok() == Some(4));
    assert!(rt; slot(&mut list, 5) == None);
    assert!(rt; list.remove(4) == 3);
    assert!(rt; slot(&mut list, 4) == Some(0));
    assert!(rt; slot(&mut list, 5) == None);
}
