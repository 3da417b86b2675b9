//! What the origin is asked, and what becomes of what it answers.
ghost use Rattle.std.specs.Prelude.{◌≡◌, Bool, true, false, not, is_some, ◌&&◌, ◌||◌};
ghost use Rattle.gateway_rows.specs.Bodies.{closed_row, is_awaiting, is_idle};
ghost use Rattle.gateway_steps.specs.Phases.{awaits_answer, is_undecided, is_sending, is_stored_fetch, lacks_end};
ghost use Rattle.gateway_steps.specs.Questions.{closed_of};
ghost use Rattle.gateway_steps.specs.Sides.{client_broken_off, origin_at_rest, without_request, without_request_if, release_of, release_if, release_by_close, client_sending};
ghost use Rattle.gateway_steps.specs.Steps.{asks, hears_head, takes_interim, takes_head, stores, relays, gives_up, stops, closes_origin};

use crate::exchange::Exchange;
use crate::state::{ClientSide, Ending, HeadFraming, OriginSide, Released, Source};
use gateway_rows::bodies::closed_row;
use gateway_types::bodies::{Closed, ClosedVerdict, Why};
use gateway_types::states::{Client, Fetch, Origin};

impl ClientSide {
    // What it is sent goes no further: it broke off, unless nothing of it is lacked.
    pub(crate) fn break_off(&mut self, lacks: bool)
        ensures { self.new ≡ client_broken_off lacks self.old }
    {
        if self.is_sent_more() {
            self.ending = if matches!(self.source, Source::Write) && !lacks {
                Ending::Whole
            } else {
                Ending::Truncated
            };
        }
    }

    // Whether it is sent a body of which more is to come.
    fn is_sent_more(&self) -> bool
        ensures { result ≡ (is_sending self.now.phase && lacks_end self.now) }
    {
        matches!(self.phase, Client::Sending)
            && matches!(self.source, Source::Write | Source::Relay)
            && matches!(self.ending, Ending::GoesOn)
    }
}

impl OriginSide {
    // Nothing is awaited any more.
    pub(crate) fn rest(&mut self)
        ensures { self.new ≡ origin_at_rest self.old }
    {
        self.phase = Origin::Idle;
        self.blocked = false;
    }
}

impl Exchange {
    /// The origin is asked, for the first time, or once more where a 304 was about something else. What isn't to be stored holds nothing at the tier.
    pub fn ask(&mut self, fetch: Fetch, now: u64, sequence: u64) -> Released
        requires { is_undecided self.old.state || is_awaiting self.old.state.origin.phase ≡ true }
        ensures left { self.new.state ≡ asks fetch now sequence self.old.state }
        ensures released { result ≡ release_if (not (is_stored_fetch fetch)) self.old.state.tier }
    {
        let released = self
            .state
            .tier
            .let_go_if(matches!(fetch, Fetch::Pass | Fetch::Unstored));
        self.state.origin.phase = Origin::AwaitingHead;
        self.state.origin.fetch = fetch;
        self.state.origin.sequence = sequence;
        self.state.origin.leads = self.state.tier.permit.is_some();
        self.state.origin.asked = now;
        self.state.origin.word = now;
        self.state.origin.came = None;
        self.state.origin.spoke = false;
        self.state.origin.sent_again = false;
        self.state.origin.blocked = false;
        self.state.origin.purged = false;
        self.state.origin.overtaken = false;
        self.state.origin.superseded = false;
        released
    }

    /// Bytes of a head came. The first of them are its arrival.
    pub fn hear_head(&mut self, now: u64)
        requires { is_awaiting self.old.state.origin.phase ≡ true }
        ensures { self.new.state ≡ hears_head now self.old.state }
    {
        let came = self.state.origin.came.unwrap_or(now);
        self.state.origin.came = Some(came);
        self.state.origin.word = now;
        self.state.origin.spoke = true;
        self.state.origin.blocked = false;
    }

    /// A head was read behind which another comes.
    pub fn take_interim(&mut self)
        requires { is_awaiting self.old.state.origin.phase ≡ true }
        ensures { self.new.state ≡ takes_interim self.old.state }
    {
        let origin = &mut self.state.origin;
        origin.came = None;
    }

    /// A final head was read: what it says of its body and its connection.
    pub fn take_head(&mut self, head: &HeadFraming)
        requires { is_awaiting self.old.state.origin.phase ≡ true }
        ensures { self.new.state ≡ takes_head head.now self.old.state }
    {
        self.state.origin.close_delimited = head.close_delimited;
        self.state.origin.reusable = head.reusable;
        self.state.origin.length = head.length;
        self.state.origin.size = 0;
        self.state.origin.unread = 0;
    }

    /// Its write at the tier has begun, under its own number. Who has no answer yet is answered by it as it comes.
    pub fn store(&mut self, number: u64)
        requires awaited { is_awaiting self.old.state.origin.phase ≡ true }
        requires held { self.old.state.tier.held ≡ true }
        ensures { self.new.state ≡ stores number self.old.state }
    {
        if self.awaits_answer() {
            self.state.client.send(Source::Write, Ending::GoesOn);
        }
        self.state.origin.phase = Origin::Storing;
        self.state.origin.blocked = false;
        self.state.tier.permit = None;
        self.state.tier.writes = true;
        self.state.tier.joinable = true;
        self.state.tier.writer = Some(number);
    }

    /// What was heard isn't stored. Who has no answer yet gets it, and of its body what it wants, if anything; else the origin's side is over.
    pub fn relay(&mut self, wanted: bool) -> Released
        requires { is_awaiting self.old.state.origin.phase ≡ true }
        ensures left { self.new.state ≡ relays wanted self.old.state }
        ensures released { result ≡ release_of self.old.state.tier }
    {
        let answered = self.awaits_answer();
        self.state.origin.rest();
        if answered && wanted {
            self.state.client.send(Source::Relay, Ending::GoesOn);
            self.state.origin.phase = Origin::Relaying;
        } else if answered {
            self.state.client.send(Source::Relay, Ending::Whole);
        }
        self.state.tier.let_go()
    }

    /// Of what was heard nothing more is wanted, and its client has its answer.
    pub fn give_up(&mut self) -> Released
        requires awaited { is_awaiting self.old.state.origin.phase ≡ true }
        requires answered { awaits_answer self.old.state.client.phase ≡ false }
        ensures left { self.new.state ≡ gives_up self.old.state }
        ensures released { result ≡ release_of self.old.state.tier }
    {
        let given_up = self.state.tier.let_go();
        self.state.origin.rest();
        given_up
    }

    /// The origin is late, what it says doesn't read, or what comes can't be kept: no head comes, or no more of the body; `lacks`: its own client lacks
    /// bytes of what is stored. Who has no answer yet is to be given one.
    pub fn stop(&mut self, lacks: bool) -> Released
        requires { is_idle self.old.state.origin.phase ≡ false }
        ensures left { self.new.state ≡ stops lacks self.old.state }
        ensures released { result ≡ release_of self.old.state.tier }
    {
        self.state.client.break_off(lacks);
        self.state.origin.rest();
        self.state.tier.let_go()
    }

    /// The origin's connection ended. Where the row says that the body ended with it, that is yet to be done; a request that is sent once more is as the
    /// first; else the origin's side is over, as by `stop`.
    pub fn close_origin(
        &mut self,
        why: Why,
        idempotent: bool,
        now: u64,
        lacks: bool,
    ) -> (ClosedVerdict, Released)
        requires { is_idle self.old.state.origin.phase ≡ false }
        ensures row { result.0 ≡ closed_row (closed_of why idempotent self.old.state) }
        ensures left { self.new.state ≡ closes_origin result.0 now lacks self.old.state }
        ensures released { result.1 ≡ release_by_close result.0 self.old.state.tier }
    {
        let verdict = closed_row(&self.closed_by(why, idempotent));
        match verdict {
            ClosedVerdict::SendAgain => {
                self.state.origin.sent_again = true;
                self.state.origin.word = now;
                (verdict, Released::nothing())
            }
            ClosedVerdict::End => (verdict, Released::nothing()),
            _ => (verdict, self.stop(lacks)),
        }
    }

    fn closed_by(&self, why: Why, idempotent: bool) -> Closed
        ensures { result ≡ closed_of why idempotent self.now.state }
    {
        Closed {
            origin: self.state.origin.phase,
            why,
            close_delimited: self.state.origin.close_delimited,
            idempotent,
            spoke: self.state.origin.spoke,
            body_sent: self.state.origin.body_sent,
            sent_again: self.state.origin.sent_again,
        }
    }

    fn awaits_answer(&self) -> bool
        ensures { result ≡ awaits_answer self.now.state.client.phase }
    {
        matches!(self.state.client.phase, Client::Awaiting)
    }
}
