//! Hash maps, seen as finite maps.
pub mod by_key;
pub mod by_number;

pub use by_key::ByKey;
pub use by_number::ByNumber;
