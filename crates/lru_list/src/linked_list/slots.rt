//! The slots of a list: their items, their links apart from them, and the changes of both.

ghost use Rattle.std.specs.Prelude.{◌≡◌, ℕ, ◌+◌, ◌-◌, ◌^◌, ◌<◌, ◌≤◌, ◌++◌, ◌∷◌, [], length, true, IfOk, OnOk, OnErr, slice_get, slice_index, slice_set, vec_len, vec_capacity};
ghost use Rattle.std.specs.List.{All};
ghost use Rattle.lru_list.specs.Slots.{has};
ghost use Rattle.lru_list.specs.Links.{IsChained};
ghost use Rattle.lru_list.specs.Columns.{nexts, prevs, order_in};

use super::{ListFault, MOST_ITEMS};
use std::mem;

/// The link of a freed slot, and of the outer side of a sentinel.
pub(super) const NO_LINK: u32 = u32::MAX;

/// The index of the sentinel before the first item.
pub(super) const HEAD: usize = 0;

/// The index of the sentinel after the last item.
pub(super) const TAIL: usize = 1;

/// The indexes before and after that of a slot.
#[derive(Clone, Copy)]
pub(super) struct Link {
    pub(super) prev: u32,
    pub(super) next: u32,
}

pub(super) fn next_at(links: &Vec<Link>, i: usize) -> u32
    requires { i < vec_len links.now }
    ensures { result ≡ slice_index (nexts links.now.items) i }
{
    links[i].next
}

pub(super) fn prev_at(links: &Vec<Link>, i: usize) -> u32
    requires { i < vec_len links.now }
    ensures { result ≡ slice_index (prevs links.now.items) i }
{
    links[i].prev
}

pub(super) fn set_next(links: &mut Vec<Link>, i: usize, to: u32)
    requires { i < vec_len links.old }
    ensures next { nexts links.new.items ≡ slice_set (nexts links.old.items) i to }
    ensures prev { prevs links.new.items ≡ prevs links.old.items }
    ensures len { vec_len links.new ≡ vec_len links.old }
{
    links[i].next = to;
}

pub(super) fn set_prev(links: &mut Vec<Link>, i: usize, to: u32)
    requires { i < vec_len links.old }
    ensures next { nexts links.new.items ≡ nexts links.old.items }
    ensures prev { prevs links.new.items ≡ slice_set (prevs links.old.items) i to }
    ensures len { vec_len links.new ≡ vec_len links.old }
{
    links[i].prev = to;
}

pub(super) fn swap_item<K>(items: &mut Vec<K>, i: usize, item: K) -> K
    requires { i < vec_len items.old }
    ensures value { slice_get items.old.items i ≡ Some result }
    ensures items { items.new.items ≡ slice_set items.old.items i item }
    ensures len { vec_len items.new ≡ vec_len items.old }
{
    mem::replace(&mut items[i], item)
}

// Links slot `i` after the front sentinel.
pub(super) fn link_head(links: &mut Vec<Link>, i: usize)
    requires slot { i < vec_len links.old }
    requires small { i < 2 ^ 32 }
    requires first { slice_index (nexts links.old.items) 0 < vec_len links.old }
    ensures next { let n = nexts links.old.items in nexts links.new.items ≡ slice_set (slice_set n i (slice_index n 0)) 0 i }
    ensures prev { prevs links.new.items ≡ slice_set (slice_set (prevs links.old.items) i 0) (slice_index (nexts links.old.items) 0) i }
    ensures len { vec_len links.new ≡ vec_len links.old }
{
    let first = next_at(links, HEAD);
    set_next(links, i, first);
    set_prev(links, i, HEAD as u32);
    set_next(links, HEAD, i as u32);
    set_prev(links, first as usize, i as u32);
}

// Links slot `i` before the back sentinel.
pub(super) fn link_tail(links: &mut Vec<Link>, i: usize)
    requires slot { i < vec_len links.old }
    requires sentinels { 1 < vec_len links.old }
    requires small { i < 2 ^ 32 }
    requires last { slice_index (prevs links.old.items) 1 < vec_len links.old }
    ensures next { nexts links.new.items ≡ slice_set (slice_set (nexts links.old.items) i 1) (slice_index (prevs links.old.items) 1) i }
    ensures prev { let p = prevs links.old.items in prevs links.new.items ≡ slice_set (slice_set p i (slice_index p 1)) 1 i }
    ensures len { vec_len links.new ≡ vec_len links.old }
{
    let last = prev_at(links, TAIL);
    set_next(links, i, TAIL as u32);
    set_prev(links, i, last);
    set_prev(links, TAIL, i as u32);
    set_next(links, last as usize, i as u32);
}

// Links the neighbours of slot `i` to one another.
pub(super) fn unlink(links: &mut Vec<Link>, i: usize)
    requires slot { i < vec_len links.old }
    requires prev { slice_index (prevs links.old.items) i < vec_len links.old }
    requires next { slice_index (nexts links.old.items) i < vec_len links.old }
    ensures next { let n = nexts links.old.items in nexts links.new.items ≡ slice_set n (slice_index (prevs links.old.items) i) (slice_index n i) }
    ensures prev { let p = prevs links.old.items in prevs links.new.items ≡ slice_set p (slice_index (nexts links.old.items) i) (slice_index p i) }
    ensures len { vec_len links.new ≡ vec_len links.old }
{
    let prev = prev_at(links, i);
    let next = next_at(links, i);
    set_next(links, prev as usize, next);
    set_prev(links, next as usize, prev);
}

// Marks slot `i`, which is not linked, as free, and returns what it held.
pub(super) fn free_slot<K>(
    items: &mut Vec<K>,
    links: &mut Vec<Link>,
    free: &mut Vec<u32>,
    i: usize,
    default: K,
) -> K
    requires paired { vec_len items.old ≡ vec_len links.old }
    requires slot { i < vec_len links.old }
    requires small { i < 2 ^ 32 }
    requires room { vec_len free.old < vec_capacity free.old }
    ensures value { slice_get items.old.items i ≡ Some result }
    ensures next { nexts links.new.items ≡ slice_set (nexts links.old.items) i (2 ^ 32 - 1) }
    ensures prev { prevs links.new.items ≡ slice_set (prevs links.old.items) i (2 ^ 32 - 1) }
    ensures items { items.new.items ≡ slice_set items.old.items i default }
    ensures paired { vec_len items.new ≡ vec_len links.new }
    ensures len { vec_len links.new ≡ vec_len links.old }
    ensures free { free.new.items ≡ free.old.items ++ i ∷ [] }
    ensures capacity { vec_capacity free.new ≡ vec_capacity free.old }
{
    set_next(links, i, NO_LINK);
    set_prev(links, i, NO_LINK);
    free.push_reserved(i as u32);
    swap_item(items, i, default)
}

// Takes a slot for an item, which is not linked yet: the one freed last, or a new one.
pub(super) fn take_slot<K: Drop>(
    items: &mut Vec<K>,
    links: &mut Vec<Link>,
    free: &mut Vec<u32>,
    item: K,
) -> Result<usize, ListFault<K>>
    requires paired { vec_len items.old ≡ vec_len links.old }
    requires chained { IsChained (nexts links.old.items) (prevs links.old.items) (order_in links.old.items free.old.items) free.old.items [] }
    requires room { vec_len links.old ≤ vec_capacity free.old + 2 }
    ensures taken { IfOk result (λ i. IsChained (nexts links.new.items) (prevs links.new.items) (order_in links.old.items free.old.items) free.new.items (i ∷ [])) }
    ensures slot { IfOk result (λ i. (i < vec_len links.new) × (i < 2 ^ 32)) }
    ensures reused { IfOk result (λ i. 0 < length free.old.items → (free.old.items ≡ free.new.items ++ i ∷ []) × (items.new.items ≡ slice_set items.old.items i item)) }
    ensures made { IfOk result (λ i. free.old.items ≡ [] → (i ≡ length items.old.items) × (free.new.items ≡ []) × (items.new.items ≡ items.old.items ++ item ∷ [])) }
    ensures held { IfOk result (λ i. slice_get items.new.items i ≡ Some item) }
    ensures kept { IfOk result (λ i. (j : ℕ) → has (order_in links.old.items free.old.items) j ≡ true → slice_get items.new.items j ≡ slice_get items.old.items j) }
    ensures err { OnErr result ((items.new.items ≡ items.old.items) × (links.new.items ≡ links.old.items) × (free.new.items ≡ free.old.items)) }
    ensures paired { vec_len items.new ≡ vec_len links.new }
    ensures room { vec_len links.new ≤ vec_capacity free.new + 2 }
    ensures memory { (back : K) → result ≡ Err (ListFault.Memory back) → (back ≡ item) × (free.old.items ≡ []) }
    ensures full { (back : K) → result ≡ Err (ListFault.Full back) → (back ≡ item) × (length (order_in links.old.items free.old.items) ≡ MOST_ITEMS) }
{
    let i = fill_slot(items, links, free, item)?;
    Ok(i)
}

// Puts an item into the slot that was freed last, or into a new one. All room that a new one needs is reserved before
// anything changes: for the item, for its links, and for its index among the freed ones.
fn fill_slot<K: Drop>(
    items: &mut Vec<K>,
    links: &mut Vec<Link>,
    free: &mut Vec<u32>,
    item: K,
) -> Result<usize, ListFault<K>>
    requires paired { vec_len items.old ≡ vec_len links.old }
    requires sentinels { 2 ≤ vec_len links.old }
    requires small { vec_len links.old ≤ 2 ^ 32 - 1 }
    requires within { All (λ i. i < vec_len links.old) free.old.items }
    requires room { vec_len links.old ≤ vec_capacity free.old + 2 }
    ensures reused { IfOk result (λ i. 0 < length free.old.items → (free.old.items ≡ free.new.items ++ i ∷ []) × (items.new.items ≡ slice_set items.old.items i item)) }
    ensures kept { OnOk result (0 < length free.old.items → (nexts links.new.items ≡ nexts links.old.items) × (prevs links.new.items ≡ prevs links.old.items)) }
    ensures made { IfOk result (λ i. free.old.items ≡ [] → (i ≡ vec_len links.old) × (free.new.items ≡ []) × (items.new.items ≡ items.old.items ++ item ∷ [])) }
    ensures unlinked { OnOk result (free.old.items ≡ [] → (nexts links.new.items ≡ nexts links.old.items ++ (2 ^ 32 - 1) ∷ []) × (prevs links.new.items ≡ prevs links.old.items ++ (2 ^ 32 - 1) ∷ [])) }
    ensures small { IfOk result (λ i. i < 2 ^ 32 - 1) }
    ensures err { OnErr result ((items.new.items ≡ items.old.items) × (links.new.items ≡ links.old.items) × (free.new.items ≡ free.old.items)) }
    ensures paired { vec_len items.new ≡ vec_len links.new }
    ensures room { vec_len links.new ≤ vec_capacity free.new + 2 }
    ensures memory { (back : K) → result ≡ Err (ListFault.Memory back) → (back ≡ item) × (free.old.items ≡ []) }
    ensures full { (back : K) → result ≡ Err (ListFault.Full back) → (back ≡ item) × (free.old.items ≡ []) × (vec_len links.old ≡ 2 ^ 32 - 1) }
{
    if let Some(i) = free.pop() {
        let _freed = swap_item(items, i as usize, item);
        return Ok(i as usize);
    }
    let i = links.len();
    if i >= NO_LINK as usize {
        return Err(ListFault::Full(item));
    }
    if items.reserve(1).is_err() || links.reserve(1).is_err() || free.reserve(i - 1).is_err() {
        return Err(ListFault::Memory(item));
    }
    items.push_reserved(item);
    links.push_reserved(Link {
        prev: NO_LINK,
        next: NO_LINK,
    });
    Ok(i)
}
