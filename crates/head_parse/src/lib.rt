//! Responses read from their bytes, whole or in pieces: a head, by httparse, and the body that it announces; and heads alone.
//!
//! `ResponseParse` takes a response in pieces as they come, `read_response` a whole one, and `read_head` a head without a body.
//!
//! Its contract is that of `ResponseParse`: however the bytes are split, the reading is that of the joined ones (`laws`).
//! Puts, the tier's events and the C library read what an origin sent by it. The original:
//! <https://docs.rs/pingora-cache/0.9.1/pingora_cache/put/>.
#![tactic(auto)]

mod begun;
mod body;
mod collected;
mod front;
mod head;
pub mod laws;
mod lenient;
mod names;
pub mod parse;
mod position;
pub mod read;
pub mod response;

pub use body::content_length;
pub use parse::ResponseParse;
pub use read::{ReadHeadFault, read_head, read_response, split_response};
pub use response::{Parsed, Progress, Response, Short, Split};
