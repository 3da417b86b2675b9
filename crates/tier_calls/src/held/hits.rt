//! What hands bytes over with a look-up: finds, and hits.
ghost use Rattle.std.specs.Prelude.{◌≡◌, Ok, Err, Some, None};
ghost use Rattle.tier_calls.specs.Hits.{IsFind, IsFindBy, IsFindOut, IsLookUpStale, IsHit, IsHitBy, IsHitOut, IsOnlyAnswer};
ghost use Rattle.tier_calls.specs.Shown.{IsHeadOf, told_len};
ghost use Rattle.tier_calls.specs.Told.{told_of, evicted_in};

use super::TierHandle;
use super::finds::nothing_out;
use crate::arguments::{key_of, moment_at};
use crate::keeps::Keep;
use crate::lends::{head_shown, lent, nothing};
use crate::statuses;
use crate::structs::{CallAnswer, FoundShown};
use crate::told::{evicted_in, plain, told_of_answer, told_of_fault};
use cache_words::key::CacheKey;
use cache_words::time::Moment;
use tier_model::event::{Answer, Entries, LockGiven, TierFault};
use tier_single::{FoundMeta, Hit};

// Hands a head over.
fn meta_out(answer: CallAnswer, meta: FoundMeta, body_len: u64, out: &mut FoundShown) -> Keep
    ensures answer { out.new.answer ≡ answer }
    ensures head { IsHeadOf meta.head meta.internal meta.external body_len out.new.head }
    ensures kept { (out.new.body.len ≡ 0) × (result ≡ record { body = None; head = Some meta.head }) }
{
    *out = FoundShown {
        answer,
        head: head_shown(&meta.head, &meta.internal, meta.external, body_len),
        body: nothing(),
    };
    let FoundMeta {
        head,
        internal: _,
        external: _,
    } = meta;
    Keep::head(head, None)
}

// A length that is told.
fn told_len(len: Option<usize>) -> u64
    ensures { result ≡ told_len len }
{
    match len {
        Some(len) => len as u64,
        None => statuses::NONE,
    }
}

// Hands over what a find gave, of a body of that length.
fn find_out(
    answer: Answer,
    meta: Option<FoundMeta>,
    len: Option<usize>,
    out: &mut FoundShown,
) -> Keep
    ensures { IsFindOut (Ok (answer, meta)) len out.new result }
{
    let told = told_of_answer(&answer);
    match meta {
        Some(meta) => meta_out(told, meta, told_len(len), out),
        None => nothing_out(told, out),
    }
}

// Hands a body over with its head.
fn body_and_head_out(hit: Hit, out: &mut FoundShown) -> Keep
    ensures { IsHitOut (Ok (Some hit)) out.new result }
{
    *out = FoundShown {
        answer: told_of_answer(&Answer::Found {
            fresh: true,
            complete: true,
            lock: LockGiven::None,
        }),
        head: head_shown(
            &hit.meta.head,
            &hit.meta.internal,
            hit.meta.external,
            hit.body.len() as u64,
        ),
        body: lent(hit.body.as_slice()),
    };
    let Hit { body, meta } = hit;
    let FoundMeta {
        head,
        internal: _,
        external: _,
    } = meta;
    Keep::head(head, Some(body))
}

// Hands over what a hit gave.
fn hit_out(hit: Option<Hit>, out: &mut FoundShown) -> Keep
    ensures { IsHitOut (Ok hit) out.new result }
{
    match hit {
        Some(hit) => body_and_head_out(hit, out),
        None => nothing_out(plain(statuses::NO_HIT), out),
    }
}

impl TierHandle {
    /// Looks up what is stored for the request's key, and hands its head over.
    pub fn find(&mut self, seconds: u64, nanoseconds: u64, id: u64, out: &mut FoundShown) -> Keep
        ensures { IsFind self.old seconds nanoseconds id out.new self.new result }
    {
        match moment_at(seconds, nanoseconds) {
            Some(moment) => self.find_by(moment, id, out),
            None => nothing_out(plain(statuses::BAD_CALL), out),
        }
    }

    fn find_by(&mut self, moment: Moment, id: u64, out: &mut FoundShown) -> Keep
        ensures { IsFindBy self.old moment id out.new self.new result }
    {
        match self.tier.find(moment, id) {
            Some(Ok((answer, meta))) => {
                self.evicted = Entries::new(self.alloc);
                find_out(answer, meta, self.tier.found_len(id), out)
            }
            Some(Err(fault)) => self.refusal_out(fault, out),
            None => nothing_out(plain(statuses::BAD_CALL), out),
        }
    }

    /// Looks up whatever is stored for the request's key, as stale, and hands its head over.
    pub fn lookup_stale(&mut self, id: u64, out: &mut FoundShown) -> Keep
        ensures { IsLookUpStale self.old id out.new self.new result }
    {
        match self.tier.lookup_stale(id) {
            Some(Ok((answer, meta))) => {
                self.evicted = Entries::new(self.alloc);
                find_out(answer, meta, self.tier.found_len(id), out)
            }
            Some(Err(fault)) => self.refusal_out(fault, out),
            None => nothing_out(plain(statuses::BAD_CALL), out),
        }
    }

    /// Hands over what is stored under the key, if it is fresh and complete.
    pub fn hit(
        &mut self,
        seconds: u64,
        nanoseconds: u64,
        digested: u64,
        key: &[u8],
        tag: &[u8],
        out: &mut FoundShown,
    ) -> Keep
        ensures { IsHit self.old seconds nanoseconds digested key.now tag.now out.new self.new result }
    {
        match moment_at(seconds, nanoseconds) {
            Some(moment) => match key_of(self.alloc, digested, key, tag) {
                Ok(key) => self.hit_by(moment, &key, out),
                Err(status) => nothing_out(plain(status), out),
            },
            None => nothing_out(plain(statuses::BAD_CALL), out),
        }
    }

    fn hit_by(&mut self, moment: Moment, key: &CacheKey, out: &mut FoundShown) -> Keep
        ensures { IsHitBy self.old moment key.now out.new self.new result }
    {
        match self.tier.hit(moment, key) {
            Some(Ok(hit)) => {
                self.evicted = Entries::new(self.alloc);
                hit_out(hit, out)
            }
            Some(Err(fault)) => self.refusal_out(fault, out),
            None => nothing_out(plain(statuses::BAD_CALL), out),
        }
    }

    // Tells why nothing is handed over, and keeps the entries that went before.
    fn refusal_out(&mut self, fault: TierFault, out: &mut FoundShown) -> Keep
        ensures answer { out.new.answer ≡ told_of (Err fault) }
        ensures nothing { IsOnlyAnswer out.new result }
        ensures kept { self.new ≡ record self.old { evicted = evicted_in (Err fault) } }
    {
        let told = told_of_fault(&fault);
        self.evicted = evicted_in(self.alloc, Err(fault));
        nothing_out(told, out)
    }
}
