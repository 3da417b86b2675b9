//! The directives of Cache-Control (RFC 9111, 5.2): what a header line holds, and what follows from it for a shared cache.
//!
//! `CacheControl` keeps the directives of a head as a map and answers each question of the original. `KnownDirectives` reads the same lines
//! without memory, for those who only ask what may be stored and for how long.
//!
//! Its contract is the law `one_reading`: lines have exactly one list of directives, and that is the one that is read.
//! `cache_heads` asks it and shows it again as `cache_control`. The original:
//! <https://docs.rs/pingora-cache/0.9.1/pingora_cache/cache_control/>.
#![tactic(auto)]

mod control;
mod interpret;
mod key;
mod known;
pub mod laws;
mod line;
mod listed_names;
mod map;
mod reading;
mod value;

pub use cache_words::time::DELTA_SECONDS_OVERFLOW_DURATION;
pub use control::CacheControl;
pub use head_lines::{Error, ErrorType, RequestHeader, ResponseHeader};
pub use interpret::{Cacheable, InterpretCacheControl};
pub use key::DirectiveKey;
pub use known::KnownDirectives;
pub use listed_names::ListValueIter;
pub use map::{BuildDirectiveHasher, DirectiveMap};
pub use value::DirectiveValue;

/// What a number of seconds past 32 bits counts as. RFC 9111, 1.2.2 names 2147483648, or the greatest number at hand.
pub const DELTA_SECONDS_OVERFLOW_VALUE: u32 = 2_147_483_647;
