//! What caches of all named limits find of the same requests, in one pass.
//!
//! A request finds its entry exactly where the limit is at least the entry's height (see `curve_heights`). So each request that
//! finds adds one to the row of each such limit, and the rows are what caches of one list find that serve these requests from empty.
//!
//! Its contract is that of `SizeCurve`: for each limit the finds, and the bytes found.
//! `curve_lines` hands it the lines of a trace.
#![tactic(auto)]

mod curve;
mod fault;
pub mod laws;
pub mod row;
mod table;
mod totals;
mod watermark;
pub mod when;

pub use curve::SizeCurve;
pub use fault::CurveFault;
pub use row::CurveRow;
pub use table::Table;
pub use totals::Totals;
pub use watermark::Watermark;
pub use when::When;
