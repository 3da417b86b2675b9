//! The open requests of a tier: each is driven by a request to a cache, and seen as a plain record.
//!
//! The contract to read first is that of `Requests::look_up`: each call answers the row of its event, and says what it leaves.
//! `tier_single` calls it, one call an event.
#![tactic(auto)]

mod begin;
pub mod faults;
mod finish;
pub mod keys;
mod look_up;
mod piece;
mod poll;
mod read;
pub mod request;
pub mod requests;
mod revalidate;
mod shown;
mod whole;

pub use request::TierParts;
pub use requests::Requests;
pub use requests::open_request::OpenRequest;
