//! The keys and items of a dictionary, as targeted fields are (RFC 8941, 3.1.2, 3.2, 3.3).
#![tactic(auto)]

pub mod items;
