//! One writer a key: who asks while a permit waits, waits; and nobody waits for ever.
//!
//! `CacheLock` gives the permit to write a key to one request, and a read lock to all others until the permit is released, dropped or
//! past its age.
//!
//! Its contract is the law `a_permit_is_given_when_none_waits`: a permit is given exactly where each earlier one of the key met a release, a drop
//! or a poll past its age.
//! Requests ask it through `request_phases`. The original: <https://docs.rs/pingora-cache/0.9.1/pingora_cache/lock/>.
#![tactic(auto)]

mod boxed;
mod fault;
mod fills;
mod key_lock;
pub mod laws;
mod lock;
mod lock_core;
mod status;
mod table;
mod tokens;

pub use fault::LockFault;
pub use fills::{LockWaitOutcome, UnusableFill, UnusableFills, WaitOutcome};
pub use key_lock::{CacheKeyLock, CacheKeyLockImpl};
pub use lock::CacheLock;
pub use lock_core::LockCore;
pub use status::LockStatus;
pub use tokens::{LockStub, Locked, ReadLock, WritePermit};
