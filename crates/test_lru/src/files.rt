//! Shards saved to files and loaded again.
mod calls;
mod folders;
mod loads;
mod mixed;
mod stops;
