//! Heads of messages, header lines, and errors as a server names them: what directives, metas and filters share.
//!
//! A head is plain: a status or a method, and the lines as a map of fields. No call of this crate reads or writes bytes.
//!
//! Its contract is that of `Error`'s Display: the name of the error's type.
//! `head_directives`, `head_metas` and `cache_heads` take its heads, and `cache_heads` shows its errors again.
#![tactic(auto)]

pub mod error;
pub mod header;

pub use error::{Error, ErrorType};
pub use header::{RequestHeader, ResponseHeader};
