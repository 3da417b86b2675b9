//! The events of requests.
ghost use Rattle.std.specs.Prelude.{◌≡◌, ◌⊎◌, ◌+◌, nat_lt};
ghost use Rattle.tier_calls.specs.Answers.{IsAnswered, IsAnsweredAlways, IsAnsweredAt, IsRefused};
ghost use Rattle.tier_calls.specs.Bounds.{outside, is_too_large, IsWithin};
ghost use Rattle.tier_calls.specs.Called.{IsOpen, IsLookUp, IsPoll, IsBegin, IsRevalidate, IsPiece, IsFinish, IsDrop, IsGiveUp};

use super::TierHandle;
use crate::arguments::{copied, given_of, key_of, moment_at};
use crate::statuses;
use crate::structs::{CallAnswer, MetaWords};
use crate::told::plain;
use bytes::Bytes;
use cache_heads::GivenMeta;
use cache_words::key::CacheKey;
use cache_words::time::Moment;
use tier_model::event::Action;

impl TierHandle {
    /// Opens a request for a key. `lock`: not 0 where its look-ups ask for the permit to write.
    pub fn open(
        &mut self,
        id: u64,
        lock: u64,
        digested: u64,
        key: &[u8],
        tag: &[u8],
        out: &mut CallAnswer,
    )
        ensures { IsOpen self.old id lock digested key.now tag.now out.new self.new }
    {
        *out = match key_of(self.alloc, digested, key, tag) {
            Ok(key) => self.open_by(id, &key, lock != 0),
            Err(status) => plain(status),
        };
    }

    fn open_by(&mut self, id: u64, key: &CacheKey, asks: bool) -> CallAnswer
        ensures { IsAnsweredAlways self.old (Action.Open id key.now asks) result self.new }
    {
        match self.tier.open(id, key, asks) {
            Some(outcome) => self.tell(outcome),
            None => plain(statuses::BAD_CALL),
        }
    }

    /// Looks up what is stored for the request's key.
    pub fn look_up(&mut self, seconds: u64, nanoseconds: u64, id: u64, out: &mut CallAnswer)
        ensures { IsLookUp self.old seconds nanoseconds id out.new self.new }
    {
        *out = self.take_at(seconds, nanoseconds, Action::LookUp { request: id });
    }

    /// Asks how the wait for another's permit ended.
    pub fn poll(&mut self, seconds: u64, nanoseconds: u64, id: u64, out: &mut CallAnswer)
        ensures { IsPoll self.old seconds nanoseconds id out.new self.new }
    {
        *out = self.take_at(seconds, nanoseconds, Action::Poll { request: id });
    }

    // Has the tier take an event at the moment of these numbers.
    fn take_at(&mut self, seconds: u64, nanoseconds: u64, action: Action) -> CallAnswer
        ensures { IsAnsweredAt self.old seconds nanoseconds action result self.new }
    {
        match moment_at(seconds, nanoseconds) {
            Some(moment) => self.take(moment, action),
            None => plain(statuses::BAD_CALL),
        }
    }

    /// Begins a write with the head of its response.
    pub fn begin(
        &mut self,
        seconds: u64,
        nanoseconds: u64,
        id: u64,
        head: &[u8],
        given: u64,
        meta: &MetaWords,
        out: &mut CallAnswer,
    )
        ensures { IsBegin self.old seconds nanoseconds id head.now given meta.now out.new self.new }
    {
        *out = match moment_at(seconds, nanoseconds) {
            Some(moment) => match given_of(given, meta) {
                Some(given) => self.begin_within(moment, id, head, given),
                None => plain(statuses::BAD_CALL),
            },
            None => plain(statuses::BAD_CALL),
        };
    }

    // Begins a write, unless its body has more outside than a body may have.
    fn begin_within(
        &mut self,
        moment: Moment,
        id: u64,
        head: &[u8],
        given: Option<GivenMeta>,
    ) -> CallAnswer
        ensures { IsWithin self.old (outside given) (λ out left. IsAnswered self.old (record { moment = moment; action = Action.Begin id head.now given }) out left ⊎ IsRefused 13 self.old out left) result self.new }
    {
        if outside(&given) > self.most {
            return plain(statuses::BODY_TOO_LARGE);
        }
        self.begin_by(moment, id, head, given)
    }

    fn begin_by(
        &mut self,
        moment: Moment,
        id: u64,
        head: &[u8],
        given: Option<GivenMeta>,
    ) -> CallAnswer
        ensures { IsAnswered self.old (record { moment = moment; action = Action.Begin id head.now given }) result self.new ⊎ IsRefused 13 self.old result self.new }
    {
        match copied(self.alloc, head) {
            Ok(head) => self.take(moment, begins(id, head, given)),
            Err(_) => plain(statuses::MEMORY),
        }
    }

    /// Renews the head of what the last look-up found stale.
    pub fn revalidate(
        &mut self,
        seconds: u64,
        nanoseconds: u64,
        id: u64,
        head: &[u8],
        given: u64,
        meta: &MetaWords,
        out: &mut CallAnswer,
    )
        ensures { IsRevalidate self.old seconds nanoseconds id head.now given meta.now out.new self.new }
    {
        *out = match moment_at(seconds, nanoseconds) {
            Some(moment) => match given_of(given, meta) {
                Some(given) => self.revalidate_by(moment, id, head, given),
                None => plain(statuses::BAD_CALL),
            },
            None => plain(statuses::BAD_CALL),
        };
    }

    fn revalidate_by(
        &mut self,
        moment: Moment,
        id: u64,
        head: &[u8],
        given: Option<GivenMeta>,
    ) -> CallAnswer
        ensures { IsAnswered self.old (record { moment = moment; action = Action.Revalidate id head.now given }) result self.new ⊎ IsRefused 13 self.old result self.new }
    {
        match copied(self.alloc, head) {
            Ok(head) => self.take(moment, renews(id, head, given)),
            Err(_) => plain(statuses::MEMORY),
        }
    }

    /// Adds bytes to the request's write. `last`: not 0 where they are its last.
    pub fn piece(&mut self, id: u64, last: u64, bytes: &[u8], out: &mut CallAnswer)
        ensures { IsPiece self.old id last bytes.now out.new self.new }
    {
        *out = if self.is_too_large(id, bytes.len()) {
            plain(statuses::BODY_TOO_LARGE)
        } else {
            match copied(self.alloc, bytes) {
                Ok(bytes) => self.piece_by(id, &bytes, last != 0),
                Err(_) => plain(statuses::MEMORY),
            }
        };
    }

    // Whether the body of the request's write would have more bytes than a body may have, with so many more.
    fn is_too_large(&self, id: u64, more: usize) -> bool
        ensures { result ≡ is_too_large self.now id more }
    {
        match self.tier.write_size(id) {
            Some(size) => passes(size, more as u64, self.most),
            None => false,
        }
    }

    /// Says that the request's response won't be stored: who waits goes on at once.
    pub fn give_up(&mut self, id: u64, out: &mut CallAnswer)
        ensures { IsGiveUp self.old id out.new self.new }
    {
        *out = match self.tier.give_up(id) {
            Some(outcome) => self.tell(outcome),
            None => plain(statuses::BAD_CALL),
        };
    }

    fn piece_by(&mut self, id: u64, bytes: &Bytes, end: bool) -> CallAnswer
        ensures { IsAnsweredAlways self.old (Action.Piece id bytes.now end) result self.new }
    {
        match self.tier.piece(id, bytes, end) {
            Some(outcome) => self.tell(outcome),
            None => plain(statuses::BAD_CALL),
        }
    }

    /// Ends the request's write: its bytes are the body.
    pub fn finish(&mut self, id: u64, out: &mut CallAnswer)
        ensures { IsFinish self.old id out.new self.new }
    {
        *out = match self.tier.finish(&mut self.rng, id) {
            Some(outcome) => self.tell(outcome),
            None => plain(statuses::BAD_CALL),
        };
    }

    /// Ends the request.
    pub fn drop_request(&mut self, id: u64, out: &mut CallAnswer)
        ensures { IsDrop self.old id out.new self.new }
    {
        *out = match self.tier.drop_request(id) {
            Some(outcome) => self.tell(outcome),
            None => plain(statuses::BAD_CALL),
        };
    }
}

// Whether a body of so many bytes passes the bound with so many more, whatever their sum.
pub(super) fn passes(size: u128, more: u64, most: u64) -> bool
    ensures { result ≡ nat_lt most (size + more) }
{
    more > most || size > (most - more) as u128
}

// How many bytes the body has outside by what is given of it.
pub(super) fn outside(given: &Option<GivenMeta>) -> u64
    ensures { result ≡ outside given.now }
{
    match given {
        Some(given) => given.external(),
        None => 0,
    }
}

fn begins(request: u64, head: Bytes, given: Option<GivenMeta>) -> Action
    ensures { result ≡ Action.Begin request head given }
{
    Action::Begin {
        request,
        head,
        given,
    }
}

fn renews(request: u64, head: Bytes, given: Option<GivenMeta>) -> Action
    ensures { result ≡ Action.Revalidate request head given }
{
    Action::Revalidate {
        request,
        head,
        given,
    }
}
