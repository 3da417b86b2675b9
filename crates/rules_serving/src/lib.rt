//! How what was found answers by HTTP's rules, and the answers from that and from what came, as calls over bytes and plain structs. `rules_ffi` has
//! the other calls.
//!
//! A call is given all that it looks at, keeps nothing, and writes its texts into a room of the caller's. It reads no clock.
#![tactic(auto)]

pub mod answering;
pub mod boundary;
pub mod choosing;
pub mod rows;
pub mod serving;
pub mod telling;
pub mod whole;
