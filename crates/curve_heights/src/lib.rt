//! The heights of entries in one pass over requests: under which limits a cache of one list holds what is asked for.
//!
//! Entries stand in the order of use. One that leaves its place, by a removal or because it is asked for again, leaves a hole of
//! its weight there, and an ask takes its weight from the holes, the latest first. The height of an entry, what it and all in front
//! of it weigh, holes too, is the least limit that holds it (see `curve_loads`).
//!
//! Entries and holes stand at slots, over which there are sums: the latest slot is the first, and each ask takes the one before. Where
//! none is free the slots are numbered anew, so memory goes with the entries.
//!
//! Its contract is that of `ask`: the height that an entry had, and what it leaves.
//! `curve_sizes` asks it once a request.
#![tactic(auto)]

mod fault;
mod heights;
pub mod place;
mod renumber;
mod slots;

pub use fault::HeightFault;
pub use heights::TraceHeights;
