//! What a request does with a cache: each call is allowed in some phases, and says what it leaves of the request and of each part of
//! the cache that it is lent.
//!
//! `HttpCache` is one request: it is enabled, gets its key, looks up, asks for the lock, reads or writes, and ends.
//!
//! Its contract is that of each call of `HttpCache`, over any store, manager, predictor and lock: the phase after it, the changes it makes, and
//! what a refusal leaves.
//! `tier_requests` drives one for each open request; `example_requests` shows a put, a write and a hit. The original:
//! <https://docs.rs/pingora-cache/0.9.1/pingora_cache/struct.HttpCache.html>.
#![tactic(auto, using(crate::proofs::PhaseLaws::phases))]

mod ends;
mod finish;
mod found;
mod fresh;
mod key;
mod lent;
mod lock;
mod lookup;
mod meta;
mod predict;
mod purge;
mod readers;
mod renew;
mod request;
mod revalidate;
mod size;
mod spans;
mod vary;
mod write;

pub use renew::RevalidateFault;
pub use request::{HttpCache, Uses};
pub use request_store::{FinishFault, Finished, FoundFault, LookUpFault};
