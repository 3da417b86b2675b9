//! What caches of all named limits find of requests at moments, and what they find fresh, in one pass.
//!
//! A request finds its entry under the limits from some first one on (`curve_sizes`). At these it is fresh where the last load there is;
//! at the others it is loaded (`curve_runs`).
//!
//! Its contract is that of `TimedCurve::ask`: the curve was fed one request more.
//! `curve_keys` hands it requests by keys.
#![tactic(auto)]

mod count;
mod curve;
mod every;
mod marking;
mod marks;
pub mod row;

pub use curve::TimedCurve;
pub use every::Every;
pub use marks::Mark;
pub use row::FreshRow;
