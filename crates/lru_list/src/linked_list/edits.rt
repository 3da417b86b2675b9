//! Insertion and removal.

ghost use Rattle.std.specs.Prelude.{◌≡◌, ◌<◌, ◌++◌, ◌∷◌, ℕ, [], length, true, false, IfSome, IfNone, IfOk, OnErr, slice_get, slice_set};
ghost use Rattle.lru_list.specs.Slots.{has, freed, IsPopped};

use super::slots::{
    HEAD, Link, NO_LINK, TAIL, free_slot, link_head, link_tail, prev_at, take_slot, unlink,
};
use super::{Index, LinkedList, ListFault, MOST_ITEMS};
use std::alloc::{AllocError, Global};

impl<K: Default + Drop> LinkedList<K> {
    /// Returns an empty list. `capacity` is a hint: room for that many items is reserved.
    pub fn with_capacity(alloc: Global, capacity: usize) -> Result<Self, AllocError>
        ensures { IfOk result (λ l. (l.order ≡ []) × (length l.items ≡ 2) × (l.free ≡ [])) }
    {
        let slots = capacity.saturating_add(2);
        let mut items = Vec::with_capacity(alloc, slots)?;
        let mut links = Vec::with_capacity(alloc, slots)?;
        let free = Vec::with_capacity(alloc, capacity)?;
        items.push_reserved(K::default());
        links.push_reserved(Link {
            prev: NO_LINK,
            next: TAIL as u32,
        });
        items.push_reserved(K::default());
        links.push_reserved(Link {
            prev: HEAD as u32,
            next: NO_LINK,
        });
        Ok(LinkedList { items, links, free })
    }

    /// Inserts an item at the front, and returns the index that names it until it is removed.
    pub fn push_head(&mut self, item: K) -> Result<Index, ListFault<K>>
        ensures index { IfOk result (λ i. self.new.order ≡ i ∷ self.old.order) }
        ensures fresh { IfOk result (λ i. has self.old.order i ≡ false) }
        ensures reused { IfOk result (λ i. 0 < length self.old.free → (self.old.free ≡ self.new.free ++ i ∷ []) × (self.new.items ≡ slice_set self.old.items i item)) }
        ensures made { IfOk result (λ i. self.old.free ≡ [] → (i ≡ length self.old.items) × (self.new.free ≡ []) × (self.new.items ≡ self.old.items ++ item ∷ [])) }
        ensures held { IfOk result (λ i. slice_get self.new.items i ≡ Some item) }
        ensures kept { IfOk result (λ i. (j : ℕ) → has self.old.order j ≡ true → slice_get self.new.items j ≡ slice_get self.old.items j) }
        ensures err { OnErr result (self.new ≡ self.old) }
        ensures memory { (back : K) → result ≡ Err (ListFault.Memory back) → (back ≡ item) × (self.old.free ≡ []) }
        ensures full { (back : K) → result ≡ Err (ListFault.Full back) → (back ≡ item) × (length self.old.order ≡ MOST_ITEMS) }
    {
        let slot = take_slot(&mut self.items, &mut self.links, &mut self.free, item)?;
        link_head(&mut self.links, slot);
        Ok(slot)
    }

    /// Inserts an item at the back, and returns the index that names it until it is removed.
    pub fn push_tail(&mut self, item: K) -> Result<Index, ListFault<K>>
        ensures index { IfOk result (λ i. self.new.order ≡ self.old.order ++ i ∷ []) }
        ensures fresh { IfOk result (λ i. has self.old.order i ≡ false) }
        ensures reused { IfOk result (λ i. 0 < length self.old.free → (self.old.free ≡ self.new.free ++ i ∷ []) × (self.new.items ≡ slice_set self.old.items i item)) }
        ensures made { IfOk result (λ i. self.old.free ≡ [] → (i ≡ length self.old.items) × (self.new.free ≡ []) × (self.new.items ≡ self.old.items ++ item ∷ [])) }
        ensures held { IfOk result (λ i. slice_get self.new.items i ≡ Some item) }
        ensures kept { IfOk result (λ i. (j : ℕ) → has self.old.order j ≡ true → slice_get self.new.items j ≡ slice_get self.old.items j) }
        ensures err { OnErr result (self.new ≡ self.old) }
        ensures memory { (back : K) → result ≡ Err (ListFault.Memory back) → (back ≡ item) × (self.old.free ≡ []) }
        ensures full { (back : K) → result ≡ Err (ListFault.Full back) → (back ≡ item) × (length self.old.order ≡ MOST_ITEMS) }
    {
        let slot = take_slot(&mut self.items, &mut self.links, &mut self.free, item)?;
        link_tail(&mut self.links, slot);
        Ok(slot)
    }

    /// Removes the item that `i` names, and returns it.
    pub fn remove(&mut self, i: Index) -> K
        requires { has self.old.order i ≡ true }
        ensures value { slice_get self.old.items i ≡ Some result }
        ensures after { (d : K) × K.is_default d × (self.new ≡ freed self.old i d) }
    {
        unlink(&mut self.links, i);
        free_slot(
            &mut self.items,
            &mut self.links,
            &mut self.free,
            i,
            K::default(),
        )
    }

    /// Removes the last item, and returns it.
    pub fn pop_tail(&mut self) -> Option<K>
        ensures none { IfNone result ((self.old.order ≡ []) × (self.new ≡ self.old)) }
        ensures some { IfSome result (λ x. (i : ℕ) × (d : K) × K.is_default d × IsPopped self.old i x d self.new) }
    {
        let last = prev_at(&self.links, TAIL) as usize;
        if last == HEAD {
            return None;
        }
        Some(self.remove(last))
    }
}
