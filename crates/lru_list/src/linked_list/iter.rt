//! A list's items, from both ends.

ghost use Rattle.std.specs.Prelude.{◌≡◌, length, Some, IfSome};
ghost use Rattle.std.specs.Iterator.{YieldsFirstRef, YieldsLastRef, item_count, at_most, UpTo};
ghost use Rattle.std.specs.Iterator.SizeHint.{IsWithinCount};

use super::{Index, LinkedList};
use std::iter::FusedIterator;
use std::marker::Model;

/// An iterator from both ends. A contract sees it as the list of the items that are left.
#[derive(Drop)]
pub struct LinkedListIter<'a, K = u64> {
    pub(super) list: &'a LinkedList<K>,
    /// The index of the next item from the front, and of the next from the back.
    pub(super) front: Index,
    pub(super) back: Index,
    /// How many items were taken from the front, and how many are left.
    pub(super) from: usize,
    pub(super) left: usize,
}

impl<'a, K> Model for LinkedListIter<'a, K> {
    ghost use Rattle.std.specs.Prelude.{◌≡◌, List, take, drop, length};
    ghost use Rattle.lru_list.specs.Slots.{listed, IsBetween};

    ghost Value = { List K };

    ghost view = { λ it. listed it.list.now.items (take it.left (drop it.from it.list.now.order)) };

    ghost invariant = { λ it. IsBetween it.list.now.order it.front it.back it.from it.left × (length (listed it.list.now.items (take it.left (drop it.from it.list.now.order))) ≡ it.left) };
}

impl<'a, K> Iterator for LinkedListIter<'a, K> {
    type Item = &'a K;

    ghost next_gives = { YieldsFirstRef (λ rest. rest) };

    ghost remaining = { item_count (λ rest. rest) };

    fn next(&mut self) -> Option<&'a K> {
        if self.left == 0 {
            return None;
        }
        let list = self.list;
        let i = self.front;
        self.front = list.index_after(i);
        self.from += 1;
        self.left -= 1;
        Some(list.item(i))
    }

    fn size_hint(&self) -> (usize, Option<usize>)
        ensures lower { IsWithinCount result.0 (at_most (length self.now)) }
        ensures upper { IfSome result.1 (UpTo (at_most (length self.now))) }
        ensures exact { result ≡ (length self.now, Some (length self.now)) }
    {
        (self.left, Some(self.left))
    }
}

impl<'a, K> DoubleEndedIterator for LinkedListIter<'a, K> {
    ghost next_back_gives = { YieldsLastRef (λ rest. rest) };

    fn next_back(&mut self) -> Option<&'a K> {
        if self.left == 0 {
            return None;
        }
        let list = self.list;
        let i = self.back;
        self.back = list.index_before(i);
        self.left -= 1;
        Some(list.item(i))
    }
}

impl<'a, K> FusedIterator for LinkedListIter<'a, K> {}
