//! A gateway's calls at its tier: what that refuses is an outcome.
ghost use Rattle.std.specs.Prelude.{◌≡◌, None, true, false, ◌||◌, is_ok, IfOk};
ghost use Rattle.rand_core.specs.Stream.{Stream};
ghost use Rattle.cache_words.specs.Time.{MomentValue};
ghost use Rattle.tier_model.specs.Calls.{Outcome};
ghost use Rattle.tier_model.specs.NoStore.{no_store_head};
ghost use Rattle.gateway_rules.specs.Moments.{of_tier};
ghost use Rattle.gateway_state.specs.Frames.{HasSameButTier};
ghost use Rattle.gateway_state.specs.AtTier.{key_with, answer_in, given_by, IsHit, IsLook, is_purged, is_memory_fault, TakesAt, TakesAnytime, IsAnswered};
ghost use Rattle.gateway_state.specs.Openings.{is_open_at, keeps_open, KeepsOpen, KeepsOthersOpen};

use crate::outcomes::{add_evicted_by, answered, found_shown, hit_shown, is_answered, is_purged};
use crate::state::Gateway;
use bytes::Bytes;
use cache_heads::GivenMeta;
use cache_words::key::{CacheKey, HashBinary};
use gateway_exchanges::outs::Out;
use gateway_rules::moments::{Moment, of_tier};
use gateway_rules::stored::Stored;
use rand_core::Rng;
use rand_pcg::Pcg64;
use rules_ffi_arguments::shapes::MetaShape;
use std::alloc::AllocError;
use tier_model::event::{Action, Answer, Event, TierFault};

impl Gateway {
    /// The key that a digest stands for. It takes no memory.
    pub fn key_of(&self, digest: &HashBinary) -> CacheKey
        ensures { result ≡ key_with digest.now }
    {
        let mut key = CacheKey::new(Vec::new(self.alloc), String::new(self.alloc));
        key.set_primary_bin_override(*digest);
        key
    }

    /// Has the tier take an event.
    pub fn event(
        &mut self,
        now: Moment,
        action: Action,
        out: &mut Out,
    ) -> Result<Option<Answer>, AllocError>
        ensures frame { HasSameButTier self.old self.new }
        ensures taken { IsAnswered (TakesAt (of_tier now) action (⟦<Pcg64 as Rng>⟧.stream self.old.rng) (⟦<Pcg64 as Rng>⟧.stream self.new.rng)) answer_in self.old self.new out.old out.new result }
        ensures open { keeps_open action ≡ true → KeepsOpen self.old self.new }
    {
        let event = Event {
            moment: of_tier(now),
            action,
        };
        let outcome = self.tier.step(&mut self.rng, &event);
        answered(outcome, out)
    }

    /// The whole and fresh body of a key, with its head.
    pub fn hit(
        &mut self,
        now: Moment,
        key: &HashBinary,
        out: &mut Out,
    ) -> Result<Option<(Stored, Bytes)>, AllocError>
        ensures frame { self.new ≡ record self.old { tier = self.new.tier } }
        ensures taken { IsHit (of_tier now) key.now self.old self.new out.old out.new result }
        ensures open { KeepsOpen self.old self.new }
    {
        let key = self.key_of(key);
        let came = self.tier.hit_alone(of_tier(now), &key);
        hit_shown(came, out)
    }

    /// Opens a request at the tier.
    pub fn open_at(
        &mut self,
        x: u64,
        key: &HashBinary,
        lock: bool,
        out: &mut Out,
    ) -> Result<bool, AllocError>
        ensures frame { self.new ≡ record self.old { tier = self.new.tier } }
        ensures taken { IsAnswered (TakesAnytime (Action.Open x (key_with key.now) lock)) is_ok self.old self.new out.old out.new result }
        ensures opened { IfOk result (λ ok. is_open_at x self.new ≡ (ok || is_open_at x self.old)) }
        ensures others { KeepsOthersOpen x self.old self.new }
    {
        let key = self.key_of(key);
        let outcome = self.tier.take_open(x, &key, lock);
        is_answered(outcome, out)
    }

    /// Looks up; `past`: as if nothing were fresh.
    pub fn look_at(
        &mut self,
        now: Moment,
        x: u64,
        past: bool,
        out: &mut Out,
    ) -> Result<Option<(Answer, Option<Stored>)>, AllocError>
        ensures frame { self.new ≡ record self.old { tier = self.new.tier } }
        ensures taken { IsLook (of_tier now) x past self.old self.new out.old out.new result }
        ensures open { KeepsOpen self.old self.new }
    {
        if past {
            let came = self.tier.lookup_stale(x);
            found_shown(came, out)
        } else {
            let came = self.tier.find(of_tier(now), x);
            found_shown(came, out)
        }
    }

    /// Reads on.
    pub fn read_at(&mut self, x: u64, out: &mut Out) -> Result<Option<Answer>, AllocError>
        ensures frame { self.new ≡ record self.old { tier = self.new.tier } }
        ensures taken { IsAnswered (TakesAnytime (Action.Read x)) answer_in self.old self.new out.old out.new result }
        ensures open { KeepsOpen self.old self.new }
    {
        let outcome = self.tier.take_read(x);
        answered(outcome, out)
    }

    /// Adds bytes to a write. Whether it was done, and whether it wasn't for want of memory.
    pub fn write_at(
        &mut self,
        x: u64,
        bytes: &Bytes,
        last: bool,
        out: &mut Out,
    ) -> Result<(bool, bool), AllocError>
        ensures frame { self.new ≡ record self.old { tier = self.new.tier } }
        ensures taken { IsAnswered (TakesAnytime (Action.Piece x bytes.now last)) (λ o. (is_ok o, is_memory_fault o)) self.old self.new out.old out.new result }
        ensures open { KeepsOpen self.old self.new }
    {
        let outcome = self.tier.take_piece(x, bytes, last);
        add_evicted_by(out, &outcome)?;
        let lacked_memory = matches!(&outcome, Err(TierFault::Memory(_)));
        Ok((outcome.is_ok(), lacked_memory))
    }

    /// Ends a write: whether it is stored.
    pub fn finish_at(&mut self, x: u64, out: &mut Out) -> Result<bool, AllocError>
        ensures frame { HasSameButTier self.old self.new }
        ensures taken { (t : MomentValue) → IsAnswered (TakesAt t (Action.Finish x) (⟦<Pcg64 as Rng>⟧.stream self.old.rng) (⟦<Pcg64 as Rng>⟧.stream self.new.rng)) is_ok self.old self.new out.old out.new result }
        ensures open { KeepsOpen self.old self.new }
    {
        let outcome = self.tier.take_finish(&mut self.rng, x);
        is_answered(outcome, out)
    }

    /// Ends a request at the tier.
    pub fn drop_at(&mut self, x: u64)
        ensures frame { self.new ≡ record self.old { tier = self.new.tier } }
        ensures taken { (o : Outcome) × TakesAnytime (Action.Drop x) self.old.tier o self.new.tier }
        ensures ended { is_open_at x self.new ≡ false }
        ensures others { KeepsOthersOpen x self.old self.new }
    {
        let _outcome = self.tier.take_drop(x);
    }

    /// Says that a response won't be stored.
    pub fn give_up_at(&mut self, x: u64)
        ensures frame { self.new ≡ record self.old { tier = self.new.tier } }
        ensures taken { (o : Outcome) × TakesAnytime (Action.Begin x no_store_head None) self.old.tier o self.new.tier }
        ensures open { KeepsOpen self.old self.new }
    {
        let _outcome = self.tier.give_up(x);
    }

    /// Removes what is stored or in flight: whether anything was.
    pub fn purge_at(&mut self, key: &HashBinary) -> bool
        ensures frame { self.new ≡ record self.old { tier = self.new.tier } }
        ensures taken { (o : Outcome) × TakesAnytime (Action.Purge (key_with key.now)) self.old.tier o self.new.tier × (result ≡ is_purged o) }
        ensures open { KeepsOpen self.old self.new }
    {
        let key = self.key_of(key);
        let outcome = self.tier.take_purge(&key);
        is_purged(&outcome)
    }
}

// Windows have 32 bits.
const MOST_SECONDS: u64 = 4_294_967_295;

/// What a tier is told of a response; none where it can't be said.
pub fn given_of(meta: &MetaShape) -> Option<GivenMeta>
    ensures { result ≡ given_by meta.now }
{
    if meta.stale_while_revalidate > MOST_SECONDS || meta.stale_if_error > MOST_SECONDS {
        return None;
    }
    let window = meta.stale_while_revalidate as u32;
    let spare = meta.stale_if_error as u32;
    let mut given = GivenMeta::new(
        of_tier(meta.fresh_until),
        of_tier(meta.created),
        window,
        spare,
    );
    given.updated = of_tier(meta.updated);
    given.provenance = of_tier(meta.provenance);
    given.with_external(meta.external)
}
