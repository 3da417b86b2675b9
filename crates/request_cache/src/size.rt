//! The size of a body against its limit.
ghost use Rattle.std.specs.Prelude.{◌≡◌, Some, false, not, option_map};
ghost use Rattle.request_phases.specs.Phases.{is_disabled, is_never_enabled};
ghost use Rattle.request_cache.specs.Sizes.{tracked, is_within};

use crate::request::HttpCache;
use cache_store::max_file_size::MaxFileSizeTracker;
use cache_store::storage::Storage;

impl<S: Storage> HttpCache<S> {
    /// Sets the most bytes that a body may have, and counts from none.
    pub fn set_max_file_size_bytes(&mut self, max_file_size_bytes: usize)
        requires { is_disabled self.old.phase ≡ false }
        ensures { self.new ≡ record self.old { size = Some (record { body_bytes = 0; max_size = max_file_size_bytes }) } }
    {
        self.size = Some(MaxFileSizeTracker::new(max_file_size_bytes));
    }

    /// Returns the most bytes that a body may have, if there is a limit.
    pub fn max_file_size_bytes(&self) -> Option<usize>
        requires { is_never_enabled self.now.phase ≡ false }
        ensures { result ≡ option_map (λ t. t.max_size) self.now.size }
    {
        match &self.size {
            Some(tracker) => Some(tracker.max_file_size_bytes()),
            None => None,
        }
    }

    /// Adds bytes of a body, and returns whether all of them are within the limit, if there is one.
    pub fn track_body_bytes_for_max_file_size(&mut self, bytes_len: usize) -> bool
        requires { is_never_enabled self.old.phase ≡ false }
        ensures request { self.new ≡ record self.old { size = tracked bytes_len self.old.size } }
        ensures within { result ≡ is_within self.new.size }
    {
        match &mut self.size {
            Some(tracker) => tracker.add_body_bytes(bytes_len),
            None => true,
        }
    }

    /// Returns whether the bytes of the body so far pass the limit, if there is one.
    pub fn exceeded_max_file_size(&self) -> bool
        requires { is_never_enabled self.now.phase ≡ false }
        ensures { result ≡ not (is_within self.now.size) }
    {
        match &self.size {
            Some(tracker) => !tracker.allow_caching(),
            None => false,
        }
    }
}
