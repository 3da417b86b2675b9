//! What requests of a tier of one shard find, by the requests alone; and so of managers of one shard.
//!
//! A manager of one shard, after admissions, accesses of tracked entries and removals in which each entry has one weight, holds what loads
//! report (see `curve_loads`), whatever is drawn (`managers`). An access of an entry that isn't tracked evicts nothing, and may leave a manager
//! over its limits; the laws say nothing of it.
//!
//! Requests are uniform where each stored key has one entry and each entry one weight. After uniform requests, none refused, a
//! request or a purge finds its key exactly where the key was asked for before, not purged since, and its load was within the weight
//! limit and the watermark after each request from that last one on. Whether what is found is fresh makes no difference: what is found stale
//! is used, and then stored again.
//!
//! So of two tiers that serve the same requests the one with greater limits finds whatever the other finds, and the lesser one's
//! order of use is a front of the greater one's. That both find it fresh isn't said: the greater tier may hold an older body.
//!
//! The laws are over the plain state, the order of use and the bodies. A request stores its response whole, so between requests no
//! write is in flight. Requests stand latest first.
//!
//! Its contract is the law `laws::requests_find_by_loads`.
//! `tier_served` and `tier_pairs` rest on it.
#![tactic(auto)]

pub mod laws;
pub mod managers;
