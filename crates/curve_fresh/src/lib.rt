//! What a cache of one list finds fresh: where the last load of an entry lies not more than its lifetime back.
//!
//! A request that finds its entry held and fresh loads nothing. One that finds it stale, or doesn't find it, loads it: its own moment and
//! lifetime count from then on. A stale find is a use like each find, so the order of use and what is held are those of a cache
//! without lifetimes (`curve_loads`).
//!
//! Its contracts are the laws `laws::fresh_finds_are_finds` and `laws::greater_limits_find_no_less_fresh`.
//! `curve_timed` rests on its definitions.
#![tactic(auto)]

pub mod laws;
