//! What the calls of HTTP's rules are given as plain structs and bytes, and how texts are written into a caller's room.
//!
//! A struct is what `embed/cache_rules.h` says: words of eight bytes. A text in it is a span of the bytes that are given beside it.
#![tactic(auto)]

pub mod bad;
pub mod kept;
pub mod moments;
pub mod options;
pub mod prepared;
pub mod request;
pub mod response;
pub mod room;
pub mod shapes;
pub mod spans;
pub mod values;
pub mod words;
