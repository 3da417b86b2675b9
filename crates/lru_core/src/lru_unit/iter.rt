//! A shard's data and weights, from both ends.

ghost use Rattle.std.specs.Prelude.{◌≡◌, length, Some, IfSome};
ghost use Rattle.std.specs.Iterator.{YieldsFirstBy, YieldsLastBy, item_count, at_most, UpTo};
ghost use Rattle.std.specs.Iterator.SizeHint.{IsWithinCount};
ghost use Rattle.lru_core.specs.Rows.{shown_pair};

use crate::rows::Row;
use lru_list::linked_list::LinkedListIter;
use std::iter::FusedIterator;
use std::marker::Model;

/// An iterator from both ends. A contract sees it as the list of the data and the weights that are left.
#[derive(Drop)]
pub struct LruUnitIter<'a, T> {
    pub(super) slots: LinkedListIter<'a, Option<Row<T>>>,
}

impl<'a, T> Model for LruUnitIter<'a, T> {
    ghost use Rattle.std.specs.Prelude.{ℕ, List, IsSome};
    ghost use Rattle.std.specs.List.{All};

    ghost Value = { List (T × ℕ) };

    ghost use Rattle.lru_core.specs.Rows.{pairs_in};

    ghost view = { λ it. pairs_in it.slots };

    ghost invariant = { λ it. All IsSome it.slots };
}

impl<'a, T> Iterator for LruUnitIter<'a, T> {
    type Item = (&'a T, usize);

    ghost next_gives = { YieldsFirstBy shown_pair (λ rest. rest) };

    ghost remaining = { item_count (λ rest. rest) };

    fn next(&mut self) -> Option<(&'a T, usize)> {
        let slot = self.slots.next()?;
        let row = slot.as_ref().unwrap();
        Some((&row.data, row.weight))
    }

    fn size_hint(&self) -> (usize, Option<usize>)
        ensures lower { IsWithinCount result.0 (at_most (length self.now)) }
        ensures upper { IfSome result.1 (UpTo (at_most (length self.now))) }
        ensures exact { result ≡ (length self.now, Some (length self.now)) }
    {
        self.slots.size_hint()
    }
}

impl<'a, T> DoubleEndedIterator for LruUnitIter<'a, T> {
    ghost next_back_gives = { YieldsLastBy shown_pair (λ rest. rest) };

    fn next_back(&mut self) -> Option<(&'a T, usize)> {
        let slot = self.slots.next_back()?;
        let row = slot.as_ref().unwrap();
        Some((&row.data, row.weight))
    }
}

impl<'a, T> FusedIterator for LruUnitIter<'a, T> {}
