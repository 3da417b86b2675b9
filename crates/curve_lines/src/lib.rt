//! Lines of requests, and what caches of all sizes find of them.
//!
//! Its contract is that of `curve`: what a text of requests, read to its end, gives.
//! The program `tier_curve` calls it.
#![tactic(auto)]

mod column_line;
mod fault;
mod format;
mod held_text;
mod input;
mod line;
mod mark_text;
mod progress;
mod read;
mod record;
mod step;
mod text;
mod timed_text;
mod when;
mod written;

pub use fault::RunFault;
pub use format::{Format, Rules};
pub use input::LONGEST;
pub use progress::{EACH, Progress, Refusal};
pub use read::{Found, curve};
pub use written::report;
