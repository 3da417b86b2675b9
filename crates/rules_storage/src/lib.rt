//! How long a response is fresh, and whether it is stored, and as what (RFC 9111, 3 and 4.2).
//!
//! No call reads a clock: moments are handed in, as nanoseconds since 1970.
#![tactic(auto)]

pub mod age;
pub mod good;
pub mod judging;
pub mod kept;
pub mod laws;
pub mod lifetime;
pub mod predicting;
pub mod reason;
pub mod selecting;
pub mod stored;
