//! Puts of whole responses.
ghost use Rattle.std.specs.Prelude.{None, Some};
ghost use Rattle.cache_words.specs.Time.{MomentValue};
ghost use Rattle.tier_single.specs.Acts.{StepsBy};

use super::Tier;
use super::faults::told_of;
use crate::given::whole_given;
use crate::put::ByLines;
use cache_heads::GivenMeta;
use cache_words::key::CacheKey;
use cache_words::time::Moment;
use rand_core::Rng;
use request_puts::put::{CachePutCtx, put_body};
use std::hash::BuildHasher;
use tier_model::event::{Action, Answer, Pieces, TierFault};
use tier_requests::faults::out_of_memory;
use tier_requests::keys::kept_key;

impl<const N: usize, S: BuildHasher> Tier<N, S> {
    // Stores a response as its lines say.
    fn put_judged<R: Rng>(
        &mut self,
        rng: &mut R,
        moment: Moment,
        key: &CacheKey,
        pieces: &Pieces,
    ) -> Result<Answer, TierFault>
        ensures { StepsBy self.old (R.stream rng.old) (record { moment = moment; action = Action.Put key.now pieces.now None }) result self.new (R.stream rng.new) }
    {
        let Ok(key) = kept_key(self.alloc, key) else {
            return Err(out_of_memory(self.alloc));
        };
        let mut put = CachePutCtx::new(ByLines, key);
        let came = put.cache_put(self.alloc, &mut self.parts, rng, pieces.as_slice(), moment);
        told_of(self.alloc, came)
    }

    // Stores a response with what is said of it.
    fn put_given<R: Rng>(
        &mut self,
        rng: &mut R,
        key: &CacheKey,
        pieces: &Pieces,
        given: GivenMeta,
    ) -> Result<Answer, TierFault>
        ensures { (t : MomentValue) → StepsBy self.old (R.stream rng.old) (record { moment = t; action = Action.Put key.now pieces.now (Some given) }) result self.new (R.stream rng.new) }
    {
        let Ok(key) = kept_key(self.alloc, key) else {
            return Err(out_of_memory(self.alloc));
        };
        match whole_given(self.alloc, given, pieces.as_slice()) {
            Ok(whole) => {
                let came = put_body(
                    self.alloc,
                    &key,
                    &mut self.parts,
                    rng,
                    whole.meta,
                    whole.body,
                );
                told_of(self.alloc, came)
            }
            Err(fault) => Err(fault),
        }
    }

    pub(super) fn put<R: Rng>(
        &mut self,
        rng: &mut R,
        moment: Moment,
        key: &CacheKey,
        pieces: &Pieces,
        given: Option<GivenMeta>,
    ) -> Result<Answer, TierFault>
        ensures { StepsBy self.old (R.stream rng.old) (record { moment = moment; action = Action.Put key.now pieces.now given }) result self.new (R.stream rng.new) }
    {
        match given {
            None => self.put_judged(rng, moment, key, pieces),
            Some(given) => self.put_given(rng, key, pieces, given),
        }
    }
}
