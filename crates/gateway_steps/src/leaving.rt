//! How a client's side ends.
ghost use Rattle.std.specs.Prelude.{◌≡◌, Bool, true, false, not, ◌&&◌, ◌||◌};
ghost use Rattle.gateway_rows.specs.Bodies.{client_row, is_idle};
ghost use Rattle.gateway_steps.specs.Phases.{is_done, is_read_on, is_sending, lacks_end};
ghost use Rattle.gateway_steps.specs.Questions.{answer_end, leaving_of};
ghost use Rattle.gateway_steps.specs.Sides.{client_done, client_gone, origin_read_on, tier_without, release_if, release_by_leaving};
ghost use Rattle.gateway_steps.specs.Steps.{ends_answer, ends_client, is_at_end, release_by_end, leaves};

use crate::exchange::Exchange;
use crate::state::{AnswerEnd, ClientSide, Ending, OriginSide, Released, Source};
use gateway_rows::bodies::client_row;
use gateway_types::bodies::{ClientVerdict, Leaving};
use gateway_types::states::{Client, Origin};

impl ClientSide {
    // It is sent nothing more.
    fn end(&mut self)
        ensures { self.new ≡ client_done self.old }
    {
        self.phase = Client::Done;
        self.source = Source::Text;
    }
}

impl OriginSide {
    // If it was stopped, it is read on.
    fn resume(&mut self, now: u64)
        ensures { self.new ≡ origin_read_on now self.old }
    {
        if self.blocked {
            self.word = now;
        }
        self.blocked = false;
    }
}

impl Exchange {
    /// Its client was sent all that is there: where that is the whole answer, or its body broke off, the client's side ends. Else nothing changes.
    pub fn end_answer(&mut self) -> (AnswerEnd, Released)
        requires { is_sending self.old.state.client.phase ≡ true }
        ensures verdict { result.0 ≡ answer_end self.old.state }
        ensures left { self.new.state ≡ ends_answer result.0 self.old.state }
        ensures released { result.1 ≡ release_by_end result.0 self.old.state }
    {
        let end = self.answer_end();
        if matches!(end, AnswerEnd::GoesOn) {
            return (end, Released::nothing());
        }
        (end, self.end_client())
    }

    // The client was answered to the end.
    fn end_client(&mut self) -> Released
        requires sending { is_sending self.old.state.client.phase ≡ true }
        requires whole { lacks_end self.old.state.client ≡ false }
        ensures left { self.new.state ≡ ends_client self.old.state }
        ensures released { result ≡ release_if (is_at_end self.old.state) self.old.state.tier }
    {
        let ends = self.is_idle() && !self.is_read_on();
        self.state.client.end();
        self.state.origin.blocked = false;
        self.state.tier.pass_or_let_go(ends)
    }

    // How the answer stands, once its client was sent all that is there.
    fn answer_end(&self) -> AnswerEnd
        ensures { result ≡ answer_end self.now.state }
    {
        if self.lacks_end() {
            return AnswerEnd::GoesOn;
        }
        if matches!(self.state.client.ending, Ending::Truncated) {
            return AnswerEnd::Truncated;
        }
        if self.state.client.closes {
            AnswerEnd::Close
        } else {
            AnswerEnd::End
        }
    }

    /// Whether more of its answer's body may come.
    pub fn lacks_end(&self) -> bool
        ensures { result ≡ lacks_end self.now.state.client }
    {
        matches!(self.state.client.source, Source::Write | Source::Relay)
            && matches!(self.state.client.ending, Ending::GoesOn)
    }

    /// The client went away. What is stored for others goes on, and what must be heard; where that was stopped, it is read on. Others read on in what is
    /// stored in front of a tail.
    pub fn leave(&mut self, now: u64) -> (ClientVerdict, Released)
        requires { is_done self.old.state.client.phase ≡ false }
        ensures row { result.0 ≡ client_row (leaving_of self.old.state) }
        ensures left { self.new.state ≡ leaves result.0 now self.old.state }
        ensures released { result.1 ≡ release_by_leaving result.0 (is_read_on self.old.state) self.old.state.tier }
    {
        let verdict = client_row(&Leaving {
            origin: self.state.origin.phase,
            tailed: self.state.origin.tailed,
            owes_body: self.state.client.owes_body,
        });
        let read_on = self.is_read_on();
        self.state.client.end();
        self.state.client.owes_body = false;
        let released = match verdict {
            ClientVerdict::GoesOn => {
                self.state.origin.resume(now);
                Released::nothing()
            }
            ClientVerdict::Truncate => {
                self.state.origin.blocked = false;
                self.state.tier.pass_or_let_go(false)
            }
            ClientVerdict::Nothing => self.state.tier.pass_or_let_go(!read_on),
            _ => {
                self.state.origin.rest();
                self.state.tier.let_go()
            }
        };
        (verdict, released)
    }
}
