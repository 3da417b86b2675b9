//! Locked lists and recorded shards, as tables of calls, two threads at one list, and what else is shown.
mod edits;
mod faces;
mod lists;
mod looks;
mod records;
mod shards;
mod threads;
