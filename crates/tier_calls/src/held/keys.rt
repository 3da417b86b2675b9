//! Calls by a key, without a request.
ghost use Rattle.std.specs.Prelude.{◌≡◌, ◌⊎◌, ◌∷◌, []};
ghost use Rattle.tier_calls.specs.Answers.{IsAnswered, IsAnsweredAlways, IsRefused};
ghost use Rattle.tier_calls.specs.Bounds.{behind_head, behind_line_end, size_of_put, IsWithin};
ghost use Rattle.tier_calls.specs.Called.{IsPurge, IsPut};

use super::TierHandle;
use super::events::{outside, passes};
use crate::arguments::{given_of, key_of, moment_at, pieces_of};
use crate::statuses;
use crate::structs::{CallAnswer, MetaWords};
use crate::told::plain;
use cache_heads::GivenMeta;
use cache_words::key::CacheKey;
use cache_words::time::Moment;
use tier_model::event::{Action, Pieces};

impl TierHandle {
    /// Removes what is stored for a key.
    pub fn purge(&mut self, digested: u64, key: &[u8], tag: &[u8], out: &mut CallAnswer)
        ensures { IsPurge self.old digested key.now tag.now out.new self.new }
    {
        *out = match key_of(self.alloc, digested, key, tag) {
            Ok(key) => self.purge_by(&key),
            Err(status) => plain(status),
        };
    }

    fn purge_by(&mut self, key: &CacheKey) -> CallAnswer
        ensures { IsAnsweredAlways self.old (Action.Purge key.now) result self.new }
    {
        match self.tier.purge(key) {
            Some(outcome) => self.tell(outcome),
            None => plain(statuses::BAD_CALL),
        }
    }

    /// Stores a whole response, of a head and a body.
    pub fn put(
        &mut self,
        seconds: u64,
        nanoseconds: u64,
        digested: u64,
        key: &[u8],
        tag: &[u8],
        head: &[u8],
        body: &[u8],
        given: u64,
        meta: &MetaWords,
        out: &mut CallAnswer,
    )
        ensures { IsPut self.old seconds nanoseconds digested key.now tag.now head.now body.now given meta.now out.new self.new }
    {
        *out = match moment_at(seconds, nanoseconds) {
            Some(moment) => match given_of(given, meta) {
                Some(given) => match key_of(self.alloc, digested, key, tag) {
                    Ok(key) => self.put_within(moment, key, head, body, given),
                    Err(status) => plain(status),
                },
                None => plain(statuses::BAD_CALL),
            },
            None => plain(statuses::BAD_CALL),
        };
    }

    // Stores a response, unless its body has more bytes than a body may have.
    fn put_within(
        &mut self,
        moment: Moment,
        key: CacheKey,
        head: &[u8],
        body: &[u8],
        given: Option<GivenMeta>,
    ) -> CallAnswer
        ensures { IsWithin self.old (size_of_put head.now body.now given) (λ out left. IsAnswered self.old (record { moment = moment; action = Action.Put key (head.now ∷ body.now ∷ []) given }) out left ⊎ IsRefused 13 self.old out left) result self.new }
    {
        let size = behind_head(head) as u128 + body.len() as u128;
        if passes(size, outside(&given), self.most) {
            return plain(statuses::BODY_TOO_LARGE);
        }
        self.put_by(moment, key, head, body, given)
    }

    fn put_by(
        &mut self,
        moment: Moment,
        key: CacheKey,
        head: &[u8],
        body: &[u8],
        given: Option<GivenMeta>,
    ) -> CallAnswer
        ensures { IsAnswered self.old (record { moment = moment; action = Action.Put key (head.now ∷ body.now ∷ []) given }) result self.new ⊎ IsRefused 13 self.old result self.new }
    {
        match pieces_of(self.alloc, head, body) {
            Ok(pieces) => self.take(moment, puts(key, pieces, given)),
            Err(_) => plain(statuses::MEMORY),
        }
    }
}

fn puts(key: CacheKey, pieces: Pieces, given: Option<GivenMeta>) -> Action
    ensures { result ≡ Action.Put key pieces given }
{
    Action::Put { key, pieces, given }
}

// How many bytes stand behind a line end, where they begin with one.
fn behind_line_end(bytes: &[u8]) -> Option<usize>
    ensures { result ≡ behind_line_end bytes.now }
{
    match bytes {
        [b'\n', rest @ ..] => Some(rest.len()),
        [b'\r', b'\n', rest @ ..] => Some(rest.len()),
        _ => None,
    }
}

// How many bytes stand behind the first empty line, which ends a head.
fn behind_head(bytes: &[u8]) -> usize
    ensures { result ≡ behind_head bytes.now }
{
    let mut left = bytes;
    while let [first, rest @ ..] = left {
        if *first == b'\n' {
            if let Some(behind) = behind_line_end(rest) {
                return behind;
            }
        }
        left = rest;
    }
    0
}
