//! What a tier holds of a response: a finished body.
use bytes::Bytes;
use cache_heads::CacheMeta;

/// A finished body, and the meta that is stored with it: its head as it is kept, and its moments.
#[derive(Debug, Drop)]
pub struct Body {
    pub bytes: Bytes,
    pub meta: CacheMeta,
}
