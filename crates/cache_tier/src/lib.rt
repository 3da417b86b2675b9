//! A cache tier: store, manager of evictions and lock as one value, that takes events one by one and answers each as its state allows.
//!
//! `Tier` is for one thread, `SharedTier` and `CountedTier` for threads, `Recorded` keeps the history of its calls; `Serve` and `run_two` serve
//! whole requests.
//!
//! It has no code, so each contract is that of the crate that the name comes from; the one to read first is `Takes`, of `Tier::step` and
//! `Tier::run`: they keep the promise. `example_proxy` calls it, and `example_threads` from threads.
#![tactic(auto)]

pub use cache_evict::LoadFault;
pub use cache_evict::lru::Manager;
pub use cache_heads::CacheMeta;
pub use cache_words::pack::PackWriteFault;
pub use lru_files::persistence::{self, Folder, ShardLoadReport, ShardSaveReport};
pub use store_memory::{MemCache, ShownMeta};
pub use tier_pairs::{Pair, Side, Stopped, run_two};
pub use tier_recorded::event::HeldTwice;
pub use tier_recorded::{
    GatherFault, Gathered, NotGathered, Pass, PassFault, Recorded, ShardTexts, Snapshot, SpentPass,
};
pub use tier_served::{Method, Request, Serve, Served, uniform};
pub use tier_shared::{
    AnswerNote, CallPass, CallerRecord, Counted, CountedTier, DoneNote, FaultNote, LEDGER_PARTS,
    NotShared, Note, Record, SharedEvent, SharedTier, is_same_event, is_same_note, noted,
};
pub use tier_single::{
    Action, Answer, Bytes, CacheKey, Done, Duration, Entries, Event, FoundMeta, GivenMeta, Hit,
    LockGiven, LockStatus, Moment, Pieces, Report, Tier, TierFault, TierOptions, options, tier,
};
