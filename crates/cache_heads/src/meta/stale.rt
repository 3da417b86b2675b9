//! For how long a response may be served after its freshness ended.
ghost use Rattle.std.specs.Prelude.{◌≡◌};
ghost use Rattle.cache_heads.specs.Fresh.{serves_stale};

use crate::meta::CacheMeta;
use cache_words::time::{Duration, Moment};

impl CacheMeta {
    /// Returns for how many seconds the stale response may be served while it is validated.
    pub fn stale_while_revalidate_sec(&self) -> u32
        ensures { result ≡ self.now.internal.stale_while_revalidate_sec }
    {
        self.internal.stale_while_revalidate_sec
    }

    /// Returns for how many seconds the stale response may be served on errors.
    pub fn stale_if_error_sec(&self) -> u32
        ensures { result ≡ self.now.internal.stale_if_error_sec }
    {
        self.internal.stale_if_error_sec
    }

    /// Returns whether the response may be served at `time` while it is validated (RFC 5861, 3).
    pub fn serve_stale_while_revalidate(&self, time: Moment) -> bool
        ensures { result ≡ serves_stale self.now.internal.fresh_until self.now.internal.stale_while_revalidate_sec time }
    {
        self.can_serve_stale(self.internal.stale_while_revalidate_sec, time)
    }

    /// Returns whether the response may be served at `time` on errors (RFC 5861, 4).
    pub fn serve_stale_if_error(&self, time: Moment) -> bool
        ensures { result ≡ serves_stale self.now.internal.fresh_until self.now.internal.stale_if_error_sec time }
    {
        self.can_serve_stale(self.internal.stale_if_error_sec, time)
    }

    /// Closes both windows.
    pub fn disable_serve_stale(&mut self)
        ensures { self.new ≡ record self.old { internal = record self.old.internal { stale_while_revalidate_sec = 0; stale_if_error_sec = 0 } } }
    {
        self.internal.stale_if_error_sec = 0;
        self.internal.stale_while_revalidate_sec = 0;
    }

    // Whether a window after freshness reaches a moment. One that ends out of range has no end.
    fn can_serve_stale(&self, serve_stale_sec: u32, time: Moment) -> bool
        ensures { result ≡ serves_stale self.now.internal.fresh_until serve_stale_sec time }
    {
        if serve_stale_sec == 0 {
            return false;
        }
        let window = Duration::from_seconds(serve_stale_sec as u64);
        match self.internal.fresh_until.checked_add(window) {
            Some(stale_until) => time.is_at_most(&stale_until),
            None => true,
        }
    }
}
