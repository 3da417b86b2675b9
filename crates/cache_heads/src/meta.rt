//! What is kept of a response, without its body.
ghost use Rattle.std.specs.Prelude.{◌≡◌, Some, None};
ghost use Rattle.cache_words.specs.Time.{elapsed};
ghost use Rattle.cache_heads.specs.Fresh.{is_fresh_at, earlier_of};
ghost use Rattle.cache_heads.specs.Meta.{new_meta, epoch_of, provenance_of, refreshed};

mod bytes;
mod head;
mod stale;

pub use crate::defaults::{CacheMetaDefaults, FreshDurationByStatusFn, NeverByStatus};
use cache_words::key::HashBinary;
use cache_words::time::{Duration, Moment};
pub use head_lines::{RequestHeader, ResponseHeader};
pub use head_metas::fault::{MetaFault, MetaReadFault};
pub use head_metas::versions::{InternalMetaV0, InternalMetaV1, InternalMetaV2};

/// What is kept of a response: its head, and when it is fresh.
#[derive(Debug, Drop)]
pub struct CacheMeta {
    /// The moments and numbers.
    pub internal: InternalMetaV2,
    /// The head.
    pub header: ResponseHeader,
    /// How many bytes the body has outside the cache, which count in its weight. They are no part
    /// of the written halves.
    pub external: u64,
}

impl CacheMeta {
    /// Makes the meta of a response that came at `created` and is fresh until `fresh_until`, whose
    /// body has nothing outside the cache.
    pub fn new(
        fresh_until: Moment,
        created: Moment,
        stale_while_revalidate_sec: u32,
        stale_if_error_sec: u32,
        header: ResponseHeader,
    ) -> CacheMeta
        ensures { result ≡ new_meta fresh_until created stale_while_revalidate_sec stale_if_error_sec header }
    {
        CacheMeta {
            internal: InternalMetaV2 {
                fresh_until,
                created,
                updated: created,
                stale_while_revalidate_sec,
                stale_if_error_sec,
                variance: None,
                epoch_override: None,
                provenance: Some(created),
            },
            header,
            external: 0,
        }
    }

    /// Returns when the response came.
    pub fn created(&self) -> Moment
        ensures { result ≡ self.now.internal.created }
    {
        self.internal.created
    }

    /// Returns when the response came or was last validated.
    pub fn updated(&self) -> Moment
        ensures { result ≡ self.now.internal.updated }
    {
        self.internal.updated
    }

    /// Returns the timestamp of the stored object's provenance, which updates of the meta leave as
    /// it is: when it was created, unless another is set.
    pub fn provenance(&self) -> Moment
        ensures { result ≡ provenance_of self.now.internal }
    {
        self.internal.provenance.unwrap_or(self.internal.created)
    }

    /// Sets the timestamp of the provenance.
    pub fn set_provenance(&mut self, provenance: Moment)
        ensures { self.new ≡ record self.old { internal = record self.old.internal { provenance = Some provenance } } }
    {
        self.internal.provenance = Some(provenance);
    }

    /// Sets the timestamp of the provenance to when the response came.
    pub fn reset_provenance_to_created(&mut self)
        ensures { self.new ≡ record self.old { internal = record self.old.internal { provenance = Some self.old.internal.created } } }
    {
        self.internal.provenance = Some(self.internal.created);
    }

    /// Returns the moment from which the age counts: the override if there is one, else `updated`.
    pub fn epoch(&self) -> Moment
        ensures { result ≡ epoch_of self.now.internal }
    {
        self.internal
            .epoch_override
            .unwrap_or(self.internal.updated)
    }

    /// Returns the moment from which the age counts in place of `updated`, if there is one.
    pub fn epoch_override(&self) -> Option<Moment>
        ensures { result ≡ self.now.internal.epoch_override }
    {
        self.internal.epoch_override
    }

    /// Makes the age count from `epoch`.
    pub fn set_epoch_override(&mut self, epoch: Moment)
        ensures { self.new ≡ record self.old { internal = record self.old.internal { epoch_override = Some epoch } } }
    {
        self.internal.epoch_override = Some(epoch);
    }

    /// Makes the age count from `updated` again.
    pub fn remove_epoch_override(&mut self)
        ensures { self.new ≡ record self.old { internal = record self.old.internal { epoch_override = None } } }
    {
        self.internal.epoch_override = None;
    }

    /// Returns whether the response is fresh at `time`. At its last moment it still is, as in the
    /// original; by RFC 9111, 4.2, it is fresh before that moment alone.
    pub fn is_fresh(&self, time: Moment) -> bool
        ensures { result ≡ is_fresh_at self.now.internal.fresh_until time }
    {
        time.is_at_most(&self.internal.fresh_until)
    }

    /// Returns the whole seconds from the epoch to the end of freshness; 0 where it ends before
    /// the epoch.
    pub fn fresh_sec(&self) -> u64
        ensures { result ≡ (elapsed (epoch_of self.now.internal) self.now.internal.fresh_until).seconds }
    {
        self.internal
            .fresh_until
            .elapsed_since(self.epoch())
            .seconds()
    }

    /// Returns until when the response is fresh.
    pub fn fresh_until(&self) -> Moment
        ensures { result ≡ self.now.internal.fresh_until }
    {
        self.internal.fresh_until
    }

    /// Returns how old the response is at `now`: the time since the epoch.
    pub fn age(&self, now: Moment) -> Duration
        ensures { result ≡ elapsed (epoch_of self.now.internal) now }
    {
        now.elapsed_since(self.epoch())
    }

    /// Ends freshness at `instant`, unless it ends earlier.
    pub fn expire_at(&mut self, instant: Moment)
        ensures { self.new ≡ record self.old { internal = record self.old.internal { fresh_until = earlier_of self.old.internal.fresh_until instant } } }
    {
        if !self.internal.fresh_until.is_at_most(&instant) {
            self.internal.fresh_until = instant;
        }
    }

    /// Replaces freshness and both stale windows, for a response that was validated at `now`.
    pub fn update_freshness(
        &mut self,
        fresh_until: Moment,
        stale_while_revalidate_sec: u32,
        stale_if_error_sec: u32,
        now: Moment,
    )
        ensures { self.new ≡ record self.old { internal = refreshed self.old.internal fresh_until stale_while_revalidate_sec stale_if_error_sec now } }
    {
        self.internal.fresh_until = fresh_until;
        self.internal.stale_while_revalidate_sec = stale_while_revalidate_sec;
        self.internal.stale_if_error_sec = stale_if_error_sec;
        self.internal.updated = now;
    }

    /// Returns the variance of the response: the hash of what it varies by, if it does.
    pub fn variance(&self) -> Option<HashBinary>
        ensures { result ≡ self.now.internal.variance }
    {
        self.internal.variance
    }

    /// Sets the variance of the response.
    pub fn set_variance_key(&mut self, variance_key: HashBinary)
        ensures { self.new ≡ record self.old { internal = record self.old.internal { variance = Some variance_key } } }
    {
        self.internal.variance = Some(variance_key);
    }

    /// Sets the variance of the response.
    pub fn set_variance(&mut self, variance: HashBinary)
        ensures { self.new ≡ record self.old { internal = record self.old.internal { variance = Some variance } } }
    {
        self.internal.variance = Some(variance);
    }

    /// Removes the variance of the response.
    pub fn remove_variance(&mut self)
        ensures { self.new ≡ record self.old { internal = record self.old.internal { variance = None } } }
    {
        self.internal.variance = None;
    }
}
