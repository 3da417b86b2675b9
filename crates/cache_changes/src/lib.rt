//! What a list of changes leaves in a cache: writes in flight and bodies, and entries in the order of use.
//!
//! It has definitions and no code that runs. A call of a store or a manager says which changes it makes; what is then found is what
//! is left of all changes so far.
//!
//! Its contract is its laws: a key is found exactly where some write of it met no removal since it began.
//! The contracts of `cache_store`, `cache_evict`, `request_cache` and `tier_model` are written in its words.
#![tactic(auto)]

pub mod laws;
