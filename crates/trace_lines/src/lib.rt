//! The lines of a trace: what each requests of a tier, and the line that answers it.
//!
//! Its contract: a line is the event that its fields say, or refused by name; an outcome is the line of the trace format.
//! `trace_replay` reads and writes by it.
#![tactic(auto)]

mod fields;
mod given;
mod hex_text;
pub mod line;
mod number;
pub mod read;
pub mod text;
mod tree;
