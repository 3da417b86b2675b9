//! A doubly linked list whose items are in one vector and whose links are in another; an item is named by its index in both.
//!
//! An index names its item until that is removed; then the next push takes the slot. Nothing moves when an item is moved to the front.
//!
//! Its contract is that of each call of `linked_list::LinkedList`, exactly, over the live indexes in order: a refused push hands the
//! item back and leaves the list as it was.
//! `lru_core` keeps a shard's order of use in it. The original: <https://docs.rs/pingora-lru/0.9.1/pingora_lru/linked_list/>.
#![tactic(auto)]

pub mod laws;
pub mod linked_list;
