//! A doubly linked list in two vectors, of items and of links: each item has an index that names it until it is removed.
//!
//! Indexes 0 and 1 are the sentinels before the first item and after the last. Items begin at index 2.

ghost use Rattle.std.specs.Prelude.{◌≡◌, ◌↔◌, ℕ, ◌+◌, ◌-◌, ◌^◌, ◌<◌, ◌≤◌, ◌++◌, ◌∷◌, [], length, take, true, false, nat_lt, IsTrue, IfSome, IfNone, IfOk, OnErr, slice_get, if◌then◌else◌, slice_index, slice_set, option_copied};
ghost use Rattle.std.specs.Borrow.{sem};
ghost use Rattle.std.specs.Option.{option_copied_mut};
ghost use Rattle.std.specs.List.{list_any};
ghost use Rattle.lru_list.specs.Slots.{has, without, freed, IsPopped, in_order};
ghost use Rattle.lru_list.specs.Lends.{lends_item, lends_slot};

pub use fault::ListFault;
pub use iter::LinkedListIter;

mod edits;
mod fault;
mod iter;
mod slots;

use slots::{
    HEAD, Link, NO_LINK, TAIL, free_slot, link_head, link_tail, next_at, prev_at, swap_item,
    take_slot, unlink,
};
use std::alloc::AllocError;
use std::marker::Model;

/// Names an item of a list.
pub type Index = usize;

/// A list of 64-bit numbers.
pub type LinkedListU64 = LinkedList<u64>;

/// The most items that a list can have: links have 32 bits, two slots are the sentinels, and one number is no link.
pub const MOST_ITEMS: usize = 4294967293;

/// A doubly linked list whose items are named by indexes.
#[derive(Drop)]
pub struct LinkedList<K = u64> {
    // What each slot holds, and apart from that its links: as many as there are slots, at the same indexes.
    items: Vec<K>,
    links: Vec<Link>,
    // The freed slots, the one freed last at the end: it is reused next. There is room for all slots, so that a
    // removal needs no memory.
    free: Vec<u32>,
}

impl<K> Model for LinkedList<K> {
    ghost use Rattle.lru_list.specs.Slots.{Slots};

    ghost Value = { Slots K };

    ghost use Rattle.std.specs.Prelude.{◌≡◌, ◌+◌, ◌≤◌, [], vec_len, vec_capacity};
    ghost use Rattle.lru_list.specs.Links.{IsChained};
    ghost use Rattle.lru_list.specs.Columns.{nexts, prevs, order_in};

    ghost view = { λ l. record { order = order_in l.links.items l.free.items; items = l.items.items; free = l.free.items } };

    ghost invariant = { λ l. IsChained (nexts l.links.items) (prevs l.links.items) (order_in l.links.items l.free.items) l.free.items [] × ((vec_len l.items ≡ vec_len l.links) × (vec_len l.links ≤ vec_capacity l.free + 2)) };
}

impl<K> LinkedList<K> {
    /// Returns the number of items.
    pub fn len(&self) -> usize
        ensures { result ≡ length self.now.order }
    {
        self.links.len() - 2 - self.free.len()
    }

    /// Returns whether `i` names an item.
    pub fn is_live(&self, i: Index) -> bool
        ensures { IsTrue result ↔ (has self.now.order i ≡ true) }
    {
        if i >= self.items.len() {
            return false;
        }
        if i < 2 {
            return false;
        }
        next_at(&self.links, i) != NO_LINK
    }

    /// Returns the item of slot `i`, or the default if the slot is free; `None` for a sentinel and past the last slot.
    pub fn peek(&self, i: Index) -> Option<&K>
        ensures { option_copied result ≡ (if nat_lt i 2 then None else slice_get self.now.items i) }
    {
        if i < 2 {
            return None;
        }
        self.items.get(i)
    }

    /// Returns the item of slot `i` for a change, or the default if the slot is free; `None` for a sentinel and past
    /// the last slot.
    pub fn peek_mut(&mut self, i: Index) -> Option<&mut K>
        ensures* writes_back { sem 𝓛 (lends_slot K.row self.entry i result) }
        ensures value { option_copied_mut result ≡ (if nat_lt i 2 then None else slice_get self.old.items i) }
    {
        if i >= self.items.len() {
            return None;
        }
        if i < 2 {
            return None;
        }
        Some(self.slot_mut(i))
    }

    fn slot_mut(&mut self, i: Index) -> &mut K
        requires { i < length self.old.items }
        ensures* writes_back { sem 𝓛 (lends_item K.row self.entry i result) }
        ensures value { slice_get self.old.items i ≡ Some result.now }
    {
        &mut self.items[i]
    }

    /// Returns the item that `i` names.
    pub fn item(&self, i: Index) -> &K
        requires { has self.now.order i ≡ true }
        ensures { slice_get self.now.items i ≡ Some result.now }
    {
        &self.items[i]
    }

    /// Returns the index of the first item.
    pub fn head(&self) -> Option<Index>
        ensures { result ≡ slice_get self.now.order 0 }
    {
        let i = next_at(&self.links, HEAD) as usize;
        if i == TAIL { None } else { Some(i) }
    }

    /// Returns the index of the last item.
    pub fn tail(&self) -> Option<Index>
        ensures { result ≡ slice_get self.now.order (length self.now.order - 1) }
    {
        let i = prev_at(&self.links, TAIL) as usize;
        if i == HEAD { None } else { Some(i) }
    }

    /// Returns the index after that of a slot or a sentinel, `u32::MAX` if there is none.
    pub fn next_index(&self, i: Index) -> Index
        requires { i < length self.now.items }
        ensures linked { (k : ℕ) → k ≤ length self.now.order → slice_index (0 ∷ (self.now.order ++ 1 ∷ [])) k ≡ i → result ≡ slice_index (self.now.order ++ 1 ∷ []) k }
        ensures freed { has self.now.free i ≡ true → result ≡ 2 ^ 32 - 1 }
        ensures last { i ≡ 1 → result ≡ 2 ^ 32 - 1 }
    {
        next_at(&self.links, i) as usize
    }

    /// Returns the index before that of a slot or a sentinel, `u32::MAX` if there is none.
    pub fn prev_index(&self, i: Index) -> Index
        requires { i < length self.now.items }
        ensures linked { (k : ℕ) → k ≤ length self.now.order → slice_index (self.now.order ++ 1 ∷ []) k ≡ i → result ≡ slice_index (0 ∷ (self.now.order ++ 1 ∷ [])) k }
        ensures freed { has self.now.free i ≡ true → result ≡ 2 ^ 32 - 1 }
        ensures first { i ≡ 0 → result ≡ 2 ^ 32 - 1 }
    {
        prev_at(&self.links, i) as usize
    }

    /// Returns whether `i` names one of the first `search_limit` items. It looks at no others.
    pub fn is_near_head(&self, i: Index, search_limit: usize) -> bool
        ensures { result ≡ has (take search_limit self.now.order) i }
    {
        let mut at = next_at(&self.links, HEAD) as usize;
        for _ in 0..search_limit {
            if at == TAIL {
                return false;
            }
            if at == i {
                return true;
            }
            at = next_at(&self.links, at) as usize;
        }
        false
    }

    /// Returns an iterator over the items, first to last, that goes from both ends.
    pub fn iter(&self) -> LinkedListIter<'_, K>
        ensures { result ≡ in_order self.now }
    {
        let left = self.len();
        LinkedListIter {
            list: self,
            front: next_at(&self.links, HEAD) as usize,
            back: prev_at(&self.links, TAIL) as usize,
            from: 0,
            left,
        }
    }

    // The index after that of an item; 1, a sentinel, after the last.
    fn index_after(&self, i: Index) -> Index
        requires { has self.now.order i ≡ true }
        ensures { (k : ℕ) → k < length self.now.order → slice_index self.now.order k ≡ i → result ≡ slice_index (self.now.order ++ 1 ∷ []) (k + 1) }
    {
        let after = next_at(&self.links, i);
        after as usize
    }

    // The index before that of an item; 0, a sentinel, before the first.
    fn index_before(&self, i: Index) -> Index
        requires { has self.now.order i ≡ true }
        ensures { (k : ℕ) → k < length self.now.order → slice_index self.now.order k ≡ i → result ≡ slice_index (0 ∷ self.now.order) k }
    {
        let before = prev_at(&self.links, i);
        before as usize
    }

    /// Reserves room for `additional` more items. It is a hint.
    pub fn reserve(&mut self, additional: usize) -> Result<(), AllocError>
        ensures same { self.new ≡ self.old }
        ensures refused { OnErr result (0 < additional) }
    {
        let unused = self.links.len() - self.free.len() - 2;
        self.items.reserve(additional)?;
        self.links.reserve(additional)?;
        self.free.reserve(additional.saturating_add(unused))
    }

    /// Moves the item that `i` names to the front.
    pub fn promote(&mut self, i: Index)
        requires { has self.old.order i ≡ true }
        ensures { self.new ≡ record self.old { order = i ∷ without i self.old.order } }
    {
        unlink(&mut self.links, i);
        link_head(&mut self.links, i);
    }

    /// Replaces the item that `i` names, and returns the old one.
    pub fn replace(&mut self, i: Index, item: K) -> K
        requires { has self.old.order i ≡ true }
        ensures value { slice_get self.old.items i ≡ Some result }
        ensures after { self.new ≡ record self.old { items = slice_set self.old.items i item } }
    {
        swap_item(&mut self.items, i, item)
    }
}

impl<K: PartialEq> LinkedList<K> {
    /// Returns whether an item that equals `value` is among the first `search_limit`. It looks at no others.
    pub fn exist_near_head(&self, value: &K, search_limit: usize) -> bool
        ensures { result ≡ list_any (λ item. K.eq item value.now) (take search_limit (in_order self.now)) }
    {
        let mut items = self.iter();
        for _ in 0..search_limit {
            let Some(item) = items.next() else {
                return false;
            };
            if item == value {
                return true;
            }
        }
        false
    }
}
