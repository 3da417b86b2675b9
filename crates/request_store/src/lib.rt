//! What a request and a put do with the store and the order of use, step by step: they look a key up, begin a write and finish it, admit
//! its entry, purge what that evicts, and take back what is refused.
//!
//! `CacheParts` are the parts of a cache that each call is lent: a store, a manager, a predictor, a lock and an admission policy.
//!
//! Its contract is that of `admit`: the entry is admitted and what that evicts is purged, or the body is taken back, and what was done is
//! reported (`Done`).
//! `request_cache` and `request_puts` call it.
#![tactic(auto)]

mod admission;
mod begins;
mod done;
mod ends;
mod faults;
mod finish;
mod look;
mod parts;
mod policy;
mod purge;
mod purges;
mod settling;
mod uses;
mod variants;

pub use admission::admit;
pub use begins::{Begun, begin};
pub use cache_store::admission::BoxedPolicy;
pub use done::{AdmitFault, Done};
pub use ends::{end_handlers, finish_reader};
pub use faults::{FinishFault, Finished, FoundFault, LookUpFault};
pub use finish::{Entries, Stored, admit_stored, entry_of, out_of_memory, store_body};
pub use look::{look_valid, look_valid_at};
pub use parts::CacheParts;
pub use policy::NoPolicy;
pub use purge::{expire_key, purge_key};
pub use purges::purge_all;
pub use settling::settle;
pub use uses::use_entry;
pub use variants::{same_variance, variance_of, vary_meta};
