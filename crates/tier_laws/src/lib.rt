//! Laws of the tier in its users' words, over the promise alone.
//!
//! `tier_promise` says what each call answers and changes. Here stands what that means for those who call: of other keys, of what was stored,
//! and of waits. Each law is of every history whose calls are answered by their rows, as `Promise` says of all that a tier was given. Its
//! statement stands in `specs`, and the function's answer is part of it: so a function that answers otherwise is refused.
//!
//! No code calls them.
#![tactic(auto)]

pub mod keys;
pub mod waits;
