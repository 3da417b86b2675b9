//! Phases of a request to a cache.
ghost use Rattle.std.specs.Prelude.{◌≡◌};
ghost use Rattle.request_phases.specs.Phases.{phase_name, is_disabled, is_never_enabled, is_bypass, is_enabled, is_upstream_used};
ghost use Rattle.request_phases.specs.Phases.{has_key_phase, may_have_key, has_meta_phase, can_set_key, can_set_policy, can_set_lock, is_key_phase};
ghost use Rattle.request_phases.specs.Phases.{can_look_up, can_vary, can_miss, can_begin, is_write_phase, has_reader_phase};
ghost use Rattle.request_phases.specs.Phases.{can_finish_reader, is_stale_phase, can_serve_stale};

use cache_heads::NoCacheReason;

/// How far a request has come.
#[derive(Clone, Copy, Debug, PartialEq, Eq)]
pub enum CachePhase {
    /// The cache is off, for that reason.
    Disabled(NoCacheReason),
    /// The cache is on, and has no key.
    Uninit,
    /// The cache is passed by.
    Bypass,
    /// The key is set, and nothing was found or missed.
    CacheKey,
    /// A fresh response was found.
    Hit,
    /// No response was found.
    Miss,
    /// A stale response was found.
    Stale,
    /// A stale response was found, which another request updates.
    StaleUpdating,
    /// A stale response was found, and upstream gave a new one.
    Expired,
    /// A stale response was found, and upstream confirmed it.
    Revalidated,
    /// A stale response was found, and upstream confirmed it, with a head that isn't stored, for that reason.
    RevalidatedNoCache(NoCacheReason),
}

impl CachePhase {
    /// Returns the phase's name.
    pub fn as_str(&self) -> &'static str
        ensures { result.now ≡ phase_name self.now }
    {
        match self {
            CachePhase::Disabled(_) => "disabled",
            CachePhase::Uninit => "uninitialized",
            CachePhase::Bypass => "bypass",
            CachePhase::CacheKey => "key",
            CachePhase::Hit => "hit",
            CachePhase::Miss => "miss",
            CachePhase::Stale => "stale",
            CachePhase::StaleUpdating => "stale-updating",
            CachePhase::Expired => "expired",
            CachePhase::Revalidated => "revalidated",
            CachePhase::RevalidatedNoCache(_) => "revalidated-nocache",
        }
    }

    /// Whether the cache is off.
    pub fn is_disabled(self) -> bool
        ensures { result ≡ is_disabled self }
    {
        matches!(self, CachePhase::Disabled(_))
    }

    /// Whether the cache was never on.
    pub fn is_never_enabled(self) -> bool
        ensures { result ≡ is_never_enabled self }
    {
        matches!(self, CachePhase::Disabled(NoCacheReason::NeverEnabled))
    }

    /// Whether the cache is passed by.
    pub fn is_bypass(self) -> bool
        ensures { result ≡ is_bypass self }
    {
        matches!(self, CachePhase::Bypass)
    }

    /// Whether the cache is in use: it is neither off nor passed by.
    pub fn is_enabled(self) -> bool
        ensures { result ≡ is_enabled self }
    {
        !matches!(self, CachePhase::Disabled(_) | CachePhase::Bypass)
    }

    /// Whether the response comes from upstream.
    pub fn is_upstream_used(self) -> bool
        ensures { result ≡ is_upstream_used self }
    {
        matches!(
            self,
            CachePhase::Disabled(_)
                | CachePhase::Bypass
                | CachePhase::Miss
                | CachePhase::Expired
                | CachePhase::Revalidated
                | CachePhase::RevalidatedNoCache(_)
        )
    }

    /// Whether a key is set.
    pub fn has_key_phase(self) -> bool
        ensures { result ≡ has_key_phase self }
    {
        !matches!(self, CachePhase::Disabled(_) | CachePhase::Uninit)
    }

    /// Whether a key may be asked for: one stays where the cache was on and is off again.
    pub fn may_have_key(self) -> bool
        ensures { result ≡ may_have_key self }
    {
        !matches!(
            self,
            CachePhase::Disabled(NoCacheReason::NeverEnabled) | CachePhase::Uninit
        )
    }

    /// Whether a key may be set.
    pub fn can_set_key(self) -> bool
        ensures { result ≡ can_set_key self }
    {
        matches!(self, CachePhase::Uninit | CachePhase::CacheKey)
    }

    /// Whether an admission policy may be set.
    pub fn can_set_policy(self) -> bool
        ensures { result ≡ can_set_policy self }
    {
        self.can_set_key()
    }

    /// Whether the lock may be turned on or off.
    pub fn can_set_lock(self) -> bool
        ensures { result ≡ can_set_lock self }
    {
        matches!(
            self,
            CachePhase::CacheKey | CachePhase::Stale | CachePhase::Hit
        )
    }

    /// Whether the key is set and nothing was looked up: the cache may be passed by, and the key purged or made expire.
    pub fn is_key_phase(self) -> bool
        ensures { result ≡ is_key_phase self }
    {
        matches!(self, CachePhase::CacheKey)
    }

    /// Whether a look-up is allowed, and what it found may be reported.
    pub fn can_look_up(self) -> bool
        ensures { result ≡ can_look_up self }
    {
        matches!(self, CachePhase::CacheKey | CachePhase::Stale)
    }

    /// Whether the key may get what the response that was found varies by.
    pub fn can_vary(self) -> bool
        ensures { result ≡ can_vary self }
    {
        self.can_look_up()
    }

    /// Whether the request may miss.
    pub fn can_miss(self) -> bool
        ensures { result ≡ can_miss self }
    {
        matches!(
            self,
            CachePhase::CacheKey | CachePhase::Bypass | CachePhase::Stale
        )
    }

    /// Whether the meta of a response that is to be stored may be set.
    pub fn can_begin(self) -> bool
        ensures { result ≡ can_begin self }
    {
        matches!(self, CachePhase::Miss | CachePhase::Stale)
    }

    /// Whether a response may be written.
    pub fn is_write_phase(self) -> bool
        ensures { result ≡ is_write_phase self }
    {
        matches!(self, CachePhase::Miss | CachePhase::Expired)
    }

    /// Whether a stored body is read.
    pub fn has_reader_phase(self) -> bool
        ensures { result ≡ has_reader_phase self }
    {
        matches!(
            self,
            CachePhase::Hit
                | CachePhase::Stale
                | CachePhase::StaleUpdating
                | CachePhase::Revalidated
                | CachePhase::RevalidatedNoCache(_)
        )
    }

    /// Whether a meta may be asked for: a stored body is read, or one is written.
    pub fn has_meta_phase(self) -> bool
        ensures { result ≡ has_meta_phase self }
    {
        self.has_reader_phase() || self.is_write_phase()
    }

    /// Whether a reader may be given up: of a stored body, or of the one that is written.
    pub fn can_finish_reader(self) -> bool
        ensures { result ≡ can_finish_reader self }
    {
        self.has_meta_phase()
    }

    /// Whether what was found is stale, and upstream has not answered.
    pub fn is_stale_phase(self) -> bool
        ensures { result ≡ is_stale_phase self }
    {
        matches!(self, CachePhase::Stale)
    }

    /// Whether a stale response may be served, within its windows.
    pub fn can_serve_stale(self) -> bool
        ensures { result ≡ can_serve_stale self }
    {
        matches!(self, CachePhase::Stale | CachePhase::StaleUpdating)
    }
}
