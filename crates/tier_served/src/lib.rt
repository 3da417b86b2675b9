//! Requests that a cache tier serves.
//!
//! A request asks for what is stored under a key, with the response that the origin would give, or has what is stored there
//! removed. To serve it is to give a tier its events, one after another: see [`Serve`].
//!
//! Requests are uniform where each response is whole and may be kept, each stored key has one entry, and its bodies one weight, each with
//! its meta: see [`uniform`].
//!
//! Its contract is that of `Serve::serve`: a request's events, their answers, and what they leave.
//! `tier_pairs` serves by it; planners read its law with `tier_loads`.
#![tactic(auto)]

mod events;
pub mod laws;
mod look_ups;
pub mod request;
mod seen;
mod serve;
mod uniformity;
mod weight;

pub use request::{Method, Request, Served};
pub use serve::Serve;
pub use uniformity::uniform;
