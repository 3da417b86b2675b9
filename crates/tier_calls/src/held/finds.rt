//! What hands bytes over without a look-up: reads, and finished bodies.
ghost use Rattle.std.specs.Prelude.{◌≡◌, ℕ, List, Option, None, Some, length, MatchOption, option_map};
ghost use Rattle.cache_heads.specs.declared.meta.CacheMeta.{CacheMeta};
ghost use Rattle.tier_calls.specs.Called.{IsRead, IsKept, IsKeptOut, IsNothingOut, IsBodyOut, bytes_in};
ghost use Rattle.tier_calls.specs.Shown.{IsNoHead, keeps_nothing};

use super::TierHandle;
use crate::arguments::{digests_of, untagged};
use crate::keeps::Keep;
use crate::lends::{head_shown, lent, no_head, nothing};
use crate::statuses;
use crate::structs::{CallAnswer, FoundShown};
use crate::told::{plain, read_told};
use bytes::Bytes;
use cache_words::key::CacheHashKey;
use head_packed::{PackedMeta, SharedHead};
use tier_model::event::{Answer, Entries, TierFault};

// Hands nothing over but an answer.
pub(super) fn nothing_out(answer: CallAnswer, out: &mut FoundShown) -> Keep
    ensures answer { out.new.answer ≡ answer }
    ensures nothing { IsNoHead out.new.head × (out.new.body.len ≡ 0) × (result ≡ keeps_nothing) }
{
    *out = FoundShown {
        answer,
        head: no_head(),
        body: nothing(),
    };
    Keep::nothing()
}

// Hands a body over.
fn body_out(answer: CallAnswer, body: Bytes, out: &mut FoundShown) -> Keep
    ensures answer { out.new.answer ≡ answer }
    ensures head { IsNoHead out.new.head }
    ensures body { (out.new.body.len ≡ length body) × (result ≡ record { body = Some body; head = None }) }
{
    *out = FoundShown {
        answer,
        head: no_head(),
        body: lent(body.as_slice()),
    };
    Keep::body(body)
}

// Hands over what a read answers.
fn read_out(told: CallAnswer, outcome: Result<Answer, TierFault>, out: &mut FoundShown) -> Keep
    ensures answer { out.new.answer ≡ told }
    ensures head { IsNoHead out.new.head }
    ensures body { IsBodyOut (bytes_in outcome) out.new.body result }
{
    match outcome {
        Ok(Answer::Bytes(bytes)) => body_out(told, bytes, out),
        Ok(_) => nothing_out(told, out),
        Err(_) => nothing_out(told, out),
    }
}

// Hands a share of a body and of its head over.
fn shared_out(head: SharedHead, body: Bytes, meta: &PackedMeta, out: &mut FoundShown) -> Keep
    requires { head ≡ meta.now.header }
    ensures { IsKeptOut meta.now body out.new result }
{
    *out = FoundShown {
        answer: plain(statuses::FOUND),
        head: head_shown(&head, &meta.internal(), meta.external(), body.len() as u64),
        body: lent(body.as_slice()),
    };
    Keep::head(head, Some(body))
}

// Hands a finished body over, if there is one.
fn kept_out(meta: &PackedMeta, body: &Bytes, out: &mut FoundShown) -> Keep
    ensures { IsKeptOut meta.now body.now out.new result }
{
    let Ok(head) = meta.head().clone() else {
        return nothing_out(plain(statuses::MEMORY), out);
    };
    let shared: Result<_, _> = body.clone();
    match shared {
        Ok(body) => shared_out(head, body, meta, out),
        Err(_) => nothing_out(plain(statuses::MEMORY), out),
    }
}

impl TierHandle {
    /// Reads on in what the request found, or writes. The end tells whether all of it came.
    pub fn read(&mut self, id: u64, out: &mut FoundShown) -> Keep
        ensures { IsRead self.old id out.new self.new result }
    {
        match self.tier.read(id) {
            Some(outcome) => {
                self.evicted = Entries::new(self.alloc);
                let told = read_told(&self.tier, id, &outcome);
                read_out(told, outcome, out)
            }
            None => nothing_out(plain(statuses::BAD_CALL), out),
        }
    }

    /// Hands over the finished body of a key, with its head. It is no look-up and no use.
    pub fn kept(&mut self, digested: u64, key: &[u8], out: &mut FoundShown) -> Keep
        ensures { IsKept self.old digested key.now out.new self.new result }
    {
        match digests_of(digested, key) {
            Some(digests) => {
                let key = untagged(self.alloc, digests);
                match self.tier.finished(&key.combined_bin()) {
                    Some((meta, body)) => kept_out(meta, body, out),
                    None => nothing_out(plain(statuses::NOTHING_SHOWN), out),
                }
            }
            None => nothing_out(plain(statuses::BAD_CALL), out),
        }
    }
}
