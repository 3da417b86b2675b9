//! What caches of all sizes find of requests by keys: each key gets a number.
//!
//! Its contract is that of `Readings::feed`: the requests of one line more were counted, each of the parts of the keys by itself.
//! `curve_lines` hands it the lines of a trace.
#![tactic(auto)]

mod hash;
mod keyed;
mod part;
mod reading;
mod readings;
mod repeats;
mod said;
mod told;

pub use hash::is_in;
pub use keyed::KeyedCurve;
pub use part::Part;
pub use reading::Reading;
pub use readings::{PartReading, Readings};
pub use repeats::Repeats;
pub use said::{Said, is_said};
pub use told::Lifetimes;
