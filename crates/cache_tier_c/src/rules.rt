//! The calls of `embed/cache_rules.h`: HTTP's rules, which need no tier. Each hands on to its function in `rules_serving` or `rules_ffi`.

pub mod choosing;
pub mod keeping;
pub mod reading;
pub mod sending;
