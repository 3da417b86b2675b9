//! Phases of a request to a cache, and what a request holds of a lock.
//!
//! `CachePhase` says which calls may come next, `RequestLock` keeps the permit or the read lock of one request, and `HttpCacheDigest` what is
//! told of it at the end.
//!
//! Its contract is that of `RequestLock`: a request gives back what it holds, with the status that its end asks for.
//! `request_cache` is built on it, and `pingora_cache` shows its types. The original:
//! <https://docs.rs/pingora-cache/0.9.1/pingora_cache/enum.CachePhase.html>.
#![tactic(auto)]

mod digest;
mod forced;
mod hit;
mod lock_ctx;
mod phase;
mod release;
mod request_lock;
mod wait;

pub use digest::{HttpCacheDigest, LockAbandon};
pub use forced::ForcedFreshness;
pub use hit::HitStatus;
pub use lock_ctx::{CacheOptionOverrides, LockCtx};
pub use phase::CachePhase;
pub use release::{is_permit_reason, status_for};
pub use request_lock::{RequestLock, give_back};
