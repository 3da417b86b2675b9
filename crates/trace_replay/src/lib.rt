//! Replaying a trace of a cache tier's events: the command line, the run and the exit status of the program.
//!
//! Its contract is that of `replay::run`: the text that answers each line in order, by one tier whose history keeps the promise. Of a command
//! line `options::options` gives the options, or the first wrong word.
//! The program `tier_replay` calls it.
#![tactic(auto)]

mod command;
mod input;
pub mod options;
mod output;
pub mod replay;
pub mod restart;
pub mod status;
mod values;
