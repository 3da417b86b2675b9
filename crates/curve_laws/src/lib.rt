//! What a curve says of tiers.
//!
//! A curve counts what caches of one list find of the steps that requests are (`curve_sizes`). Here stands why that is what a tier of one
//! shard finds that is new and serves these requests, where they are uniform, have plain heads and none is refused; and why a greater
//! limit finds no less.
//!
//! Its contract is the law `tiers_find_what_curves_count`.
//! It joins `curve_sizes`'s counts with `tier_served`; no code calls it.
#![tactic(auto)]

pub mod laws;
