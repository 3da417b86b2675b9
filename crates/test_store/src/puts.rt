//! Puts over the store in memory and a manager of one shard.
mod bench;
mod evictions;
mod responses;
