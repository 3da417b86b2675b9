//! Two tiers that serve the same requests side by side.
//!
//! Requests are uniform where each response is whole and may be kept, each stored key has one entry, and its bodies one weight, each with
//! its meta. What a tier of one shard finds of them follows from the requests alone, so a tier with greater limits finds all that one
//! with lesser limits finds: see [`run_two`].
//!
//! Its contract is that of `run_two`: what the lesser tier finds the greater one finds.
//! `test_requests` runs it over a table.
#![tactic(auto)]

mod side_by_side;

pub use side_by_side::{Pair, Side, Stopped, run_two};
pub use tier_served::uniform;
