//! What is reported of a request once it has ended.
ghost use Rattle.std.specs.Prelude.{◌≡◌};
ghost use Rattle.request_phases.specs.Digests.{added, empty_digest};

use cache_heads::NoCacheReason;
use cache_store::admission::Decision;
use cache_words::time::Duration;

/// Why the last wait was given up that a fill ended.
#[derive(Clone, Copy, Debug, PartialEq, Eq)]
pub struct LockAbandon {
    /// Why the request can't use what the writer fills.
    pub reason: NoCacheReason,
    /// What the writer published of it.
    pub token: u64,
}

/// What is reported of a request once it has ended.
#[derive(Clone, Copy, Debug, PartialEq, Eq)]
pub struct HttpCacheDigest {
    /// How long it waited for permits, if it did.
    pub lock_duration: Option<Duration>,
    /// How long it looked up, if that was measured.
    pub lookup_duration: Option<Duration>,
    /// What the admission policy decided, if it was asked.
    pub admission: Option<Decision>,
    /// Why the last wait was given up that a fill ended.
    pub lock_abandon: Option<LockAbandon>,
}

impl Default for HttpCacheDigest {
    ghost use Rattle.std.specs.Prelude.{◌≡◌};

    ghost is_default = { λ d. d ≡ empty_digest };

    fn default() -> HttpCacheDigest {
        HttpCacheDigest {
            lock_duration: None,
            lookup_duration: None,
            admission: None,
            lock_abandon: None,
        }
    }
}

// Adds a further time to those before; a sum past the greatest time is the greatest.
fn add_duration(total: &mut Option<Duration>, further: Duration)
    ensures { total.new ≡ added total.old further }
{
    *total = Some(match *total {
        Some(before) => before.saturating_add(further),
        None => further,
    });
}

impl HttpCacheDigest {
    /// Adds a time of a look-up. A sum past the greatest time is the greatest.
    pub fn add_lookup_duration(&mut self, extra_lookup_duration: Duration)
        ensures { self.new ≡ record self.old { lookup_duration = added self.old.lookup_duration extra_lookup_duration } }
    {
        add_duration(&mut self.lookup_duration, extra_lookup_duration);
    }

    /// Adds a time of a wait. A sum past the greatest time is the greatest.
    pub fn add_lock_duration(&mut self, extra_lock_duration: Duration)
        ensures { self.new ≡ record self.old { lock_duration = added self.old.lock_duration extra_lock_duration } }
    {
        add_duration(&mut self.lock_duration, extra_lock_duration);
    }
}
