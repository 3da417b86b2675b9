//! What is whole under a key of the tier: stored in one call, and seen without a request.
ghost use Rattle.std.specs.Prelude.{◌≡◌, ◌∷◌, ◌⊎◌, [], Some, List, ℕ, IfOk, option_map};
ghost use Rattle.rand_core.specs.Stream.{Stream};
ghost use Rattle.cache_heads.specs.declared.meta.CacheMeta.{CacheMeta};
ghost use Rattle.tier_model.specs.State.{State};
ghost use Rattle.tier_requests.specs.Shelves.{shelf_of};
ghost use Rattle.gateway_rules.specs.Moments.{of_tier};
ghost use Rattle.gateway_state.specs.Frames.{HasSameButTier};
ghost use Rattle.gateway_state.specs.AtTier.{key_with, is_stored, finished_at, whole_by, peeked, IsUndone, TakesAt, IsAnswered};
ghost use Rattle.gateway_state.specs.Openings.{KeepsOpen};

use crate::outcomes::is_stored;
use crate::state::Gateway;
use bytes::Bytes;
use cache_heads::GivenMeta;
use cache_words::key::{CacheHashKey, HashBinary};
use gateway_exchanges::found::stored_of;
use gateway_exchanges::outs::Out;
use gateway_rules::moments::{Moment, of_tier};
use gateway_rules::stored::Stored;
use head_packed::PackedMeta;
use rand_core::Rng;
use rand_pcg::Pcg64;
use seeded_hashing::SeededState;
use std::alloc::{AllocError, Global};
use store_memory::MemCache;
use tier_model::event::{Action, Event, Pieces};
use tier_single::FoundMeta;

impl Gateway {
    // Stores a response that came in pieces.
    fn put_pieces(
        &mut self,
        now: Moment,
        key: &HashBinary,
        pieces: Pieces,
        given: GivenMeta,
        out: &mut Out,
    ) -> Result<bool, AllocError>
        ensures frame { HasSameButTier self.old self.new }
        ensures taken { IsAnswered (TakesAt (of_tier now) (Action.Put (key_with key.now) pieces (Some given)) (⟦<Pcg64 as Rng>⟧.stream self.old.rng) (⟦<Pcg64 as Rng>⟧.stream self.new.rng))
            is_stored self.old self.new out.old out.new result }
        ensures open { KeepsOpen self.old self.new }
    {
        let moment = of_tier(now);
        let key = self.key_of(key);
        let action = Action::Put {
            key,
            pieces,
            given: Some(given),
        };
        let event = Event { moment, action };
        let outcome = self.tier.step(&mut self.rng, &event);
        is_stored(outcome, out)
    }

    /// Stores a response under a key, of which that is said: whether it was done.
    pub fn put_at(
        &mut self,
        now: Moment,
        key: &HashBinary,
        head: &[u8],
        body: &[u8],
        given: GivenMeta,
        out: &mut Out,
    ) -> Result<bool, AllocError>
        ensures frame { HasSameButTier self.old self.new }
        ensures taken { IsUndone self.old self.new out.old out.new result
            ⊎ IsAnswered (TakesAt (of_tier now) (Action.Put (key_with key.now) (head.now ∷ body.now ∷ []) (Some given)) (⟦<Pcg64 as Rng>⟧.stream self.old.rng) (⟦<Pcg64 as Rng>⟧.stream self.new.rng))
            is_stored self.old self.new out.old out.new result }
        ensures open { KeepsOpen self.old self.new }
    {
        let pieces = pieces_of(self.alloc, head, body)?;
        self.put_pieces(now, key, pieces, given, out)
    }

    /// What is whole under a key, also what is stale, with its head: no request, no look-up and no use.
    pub fn peek_at(&self, key: &HashBinary) -> Result<Option<(Stored, Bytes)>, AllocError>
        ensures { IfOk result (λ found. found ≡ peeked key.now self.now) }
    {
        let key = self.key_of(key);
        match finished_at(self.tier.store(), &key.combined_bin()) {
            None => Ok(None),
            Some((packed, bytes)) => Ok(Some(whole_of(packed, bytes)?)),
        }
    }
}

// A body with its head.
fn whole_of(packed: &PackedMeta, bytes: &Bytes) -> Result<(Stored, Bytes), AllocError>
    ensures { IfOk result (λ whole. whole ≡ whole_by packed.now bytes.now) }
{
    let head = packed.head().clone()?;
    let meta = FoundMeta {
        head,
        internal: packed.internal(),
        external: packed.external(),
    };
    Ok((stored_of(meta), bytes.clone()?))
}

fn finished_at<'a>(
    store: &'a MemCache<SeededState>,
    key: &HashBinary,
) -> Option<(&'a PackedMeta, &'a Bytes)>
    ensures { (s : State) → shelf_of store.now ≡ s.shelf → option_map {U = CacheMeta × List ℕ} (λ f. (f.0.now, f.1.now)) result ≡ finished_at key.now s }
{
    store.finished(key)
}

// A head, and the body behind it.
fn pieces_of(alloc: Global, head: &[u8], body: &[u8]) -> Result<Pieces, AllocError>
    ensures { IfOk result (λ pieces. pieces ≡ head.now ∷ body.now ∷ []) }
{
    let mut pieces = Vec::with_capacity(alloc, 2)?;
    pieces.push_reserved(Bytes::copy_from_slice(alloc, head)?);
    pieces.push_reserved(Bytes::copy_from_slice(alloc, body)?);
    Ok(Pieces::from_vec(pieces))
}
