//! What a request asks of the predictor, and what it reports to it.
ghost use Rattle.std.specs.Prelude.{◌≡◌, true, false, is_some, OnOk, OnErr, if◌then◌else◌};
ghost use Rattle.request_phases.specs.declared.phase.CachePhase.TheVariants.{Bypass};
ghost use Rattle.request_phases.specs.Phases.{is_key_phase, can_set_policy, is_never_enabled};
ghost use Rattle.request_cache.specs.Predictions.{told_by, is_predicted, told_of};

use crate::request::HttpCache;
use cache_heads::NoCacheReason;
use cache_store::storage::Storage;
use request_phases::CachePhase;
use request_predictor::CacheablePredictor;
use request_store::CacheParts;
use std::alloc::AllocError;

impl<S: Storage> HttpCache<S> {
    /// Turns the policy of admission on or off.
    pub fn set_admission_policy(&mut self, on: bool)
        requires { can_set_policy self.old.phase ≡ true }
        ensures { self.new ≡ record self.old { admits = on } }
    {
        self.admits = on;
    }

    /// Passes the cache by. Why the predictor said not to keep the response is the request's from then on.
    pub fn bypass<E, P: CacheablePredictor, L, A>(&mut self, parts: &CacheParts<S, E, P, L, A>)
        requires { is_key_phase self.old.phase ≡ true }
        ensures { self.new ≡ record self.old { phase = Bypass; predicted = told_by self.old.predicts (P.tells parts.now.predictor) self.old.key } }
    {
        self.predicted = match &self.key {
            Some(key) if self.predicts => parts.predictor.predicted_uncacheable_reason(key),
            _ => None,
        };
        self.phase = CachePhase::Bypass;
    }

    /// Returns why the predictor said not to keep the response, as the cache was passed by.
    pub fn predicted_uncacheable_reason(&self) -> Option<NoCacheReason>
        ensures { result ≡ self.now.predicted }
    {
        self.predicted
    }

    /// Returns whether the response is predicted to be kept. Without a predictor it is.
    pub fn cacheable_prediction<E, P: CacheablePredictor, L, A>(
        &self,
        parts: &CacheParts<S, E, P, L, A>,
    ) -> bool
        requires enabled { is_never_enabled self.now.phase ≡ false }
        requires key { self.now.predicts ≡ true → is_some self.now.key ≡ true }
        ensures { result ≡ is_predicted self.now.predicts (P.reason_of parts.now.predictor) self.now.key }
    {
        match &self.key {
            Some(key) if self.predicts => parts.predictor.cacheable_prediction(key),
            _ => true,
        }
    }

    /// Tells the predictor, where it is on, that the response was kept.
    pub fn response_became_cacheable<E, P: CacheablePredictor, L, A>(
        &self,
        parts: &mut CacheParts<S, E, P, L, A>,
    )
        requires enabled { is_never_enabled self.now.phase ≡ false }
        requires key { self.now.predicts ≡ true → is_some self.now.key ≡ true }
        ensures { parts.new ≡ record parts.old { predictor = told_of self.now.predicts (P.unmarked parts.old.predictor) self.now.key parts.old.predictor } }
    {
        match &self.key {
            Some(key) if self.predicts => {
                let _was_kept = parts.predictor.mark_cacheable(key);
            }
            _ => {}
        }
    }

    /// Tells the predictor, where it is on, that the response was not kept, for that reason.
    ///
    /// # Errors
    ///
    /// Out of memory, where the predictor is on. Nothing has changed.
    pub fn response_became_uncacheable<E, P: CacheablePredictor, L, A>(
        &self,
        parts: &mut CacheParts<S, E, P, L, A>,
        reason: NoCacheReason,
    ) -> Result<(), AllocError>
        requires enabled { is_never_enabled self.now.phase ≡ false }
        requires key { self.now.predicts ≡ true → is_some self.now.key ≡ true }
        ensures ok { let p = parts.old.predictor in
            OnOk result (parts.new ≡ record parts.old { predictor = told_of self.now.predicts (λ k. if P.remembers p reason then P.marked p k reason else p) self.now.key p }) }
        ensures err { OnErr result (parts.new ≡ parts.old) }
        ensures on { OnErr result (self.now.predicts ≡ true) }
    {
        match &self.key {
            Some(key) if self.predicts => match parts.predictor.mark_uncacheable(key, reason) {
                Ok(_) => Ok(()),
                Err(fault) => Err(fault),
            },
            _ => Ok(()),
        }
    }
}
