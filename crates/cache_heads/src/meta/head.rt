//! The head of a response that is kept.
ghost use Rattle.std.specs.Prelude.{◌≡◌, IfOk};
ghost use Rattle.std.specs.Borrow.{sem};
ghost use Rattle.cache_heads.specs.MetaLends.{lends_header};

use crate::meta::CacheMeta;
use head_lines::ResponseHeader;
use http_header::HeaderMap;
use std::alloc::AllocError;

impl CacheMeta {
    /// Returns the head.
    pub fn response_header(&self) -> &ResponseHeader
        ensures { result.now ≡ self.now.header }
    {
        &self.header
    }

    /// Returns the head, to be changed.
    pub fn response_header_mut(&mut self) -> &mut ResponseHeader
        ensures* writes_back { sem 𝓛 (lends_header self.entry result) }
        ensures value { result.now ≡ self.old.header }
    {
        &mut self.header
    }

    /// Returns a copy of the head, which shares its values.
    ///
    /// # Errors
    ///
    /// `AllocError` where there is no memory for it.
    pub fn response_header_copy(&self) -> Result<ResponseHeader, AllocError>
        ensures { IfOk result (λ header. header ≡ self.now.header) }
    {
        self.header.clone()
    }

    /// Returns the fields of the head.
    pub fn headers(&self) -> &HeaderMap
        ensures { result.now ≡ self.now.header.headers }
    {
        &self.header.headers
    }
}
