//! What is told of the key and the meta of a request.
use crate::answer::{Answer, NONE, variance_or_none};
use cache_heads::CacheMeta;
use cache_words::key::CacheKey;

/// The letter that the key is.
pub fn letter(key: Option<&CacheKey>) -> Answer {
    match key {
        Some(key) => match key.primary_key().last() {
            Some(&letter) => Answer::Letter(char::from(letter)),
            None => NONE,
        },
        None => NONE,
    }
}

/// The key's variance.
pub fn key_variance(key: Option<&CacheKey>) -> Answer {
    match key {
        Some(key) => variance_or_none(key.get_variance_key().copied()),
        None => NONE,
    }
}

/// Until when the meta is fresh.
pub fn until(meta: Option<&CacheMeta>) -> Answer {
    match meta {
        Some(meta) => Answer::Second(meta.fresh_until().seconds()),
        None => NONE,
    }
}

/// What its response varies by.
pub fn meta_variance(meta: Option<&CacheMeta>) -> Answer {
    match meta {
        Some(meta) => variance_or_none(meta.variance()),
        None => NONE,
    }
}

/// When its family of variants began.
pub fn provenance(meta: Option<&CacheMeta>) -> Answer {
    match meta {
        Some(meta) => Answer::Second(meta.provenance().seconds()),
        None => NONE,
    }
}
