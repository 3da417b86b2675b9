//! Trace lines and the program that replays them.
mod answers;
mod lines;
mod options;
mod played;
pub(crate) mod restarts;
mod streams;
