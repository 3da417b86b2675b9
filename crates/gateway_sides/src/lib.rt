//! What a gateway does on either side of an exchange.
#![tactic(auto)]

pub mod client_side;
mod framed;
pub mod origin_side;
pub mod parts;
mod reading;
pub mod tails;
