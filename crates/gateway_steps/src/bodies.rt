//! Bodies: what comes from the origin, what the client has of it, and the request's own.
ghost use Rattle.std.specs.Prelude.{◌≡◌, Bool, true, false, not, ◌&&◌, ◌||◌};
ghost use Rattle.gateway_rows.specs.Bodies.{is_idle, is_relaying, is_storing};
ghost use Rattle.gateway_steps.specs.Phases.{has_body_coming, is_pass, is_waiting, reads_write};
ghost use Rattle.gateway_steps.specs.Sides.{tier_after_write, client_refused, release_of, release_if};
ghost use Rattle.gateway_steps.specs.Steps.{hears_body, takes_piece, completes, finishes, ends_reading, passes_bytes, is_forwarded, forwards, breaks_request};

use crate::exchange::Exchange;
use crate::state::{AtTier, ClientSide, Ending, Piece, Released, Source};
use gateway_types::states::{Client, Fetch};

impl ClientSide {
    // Whether it reads what is being stored.
    pub(crate) fn reads_write(&self) -> bool
        ensures { result ≡ reads_write self.now }
    {
        matches!(self.phase, Client::Sending) && matches!(self.source, Source::Write)
    }

    // Its request's body doesn't read: where it has no answer, it gets one, and its connection ends.
    fn refuse(&mut self)
        ensures { self.new ≡ client_refused self.old }
    {
        if matches!(self.phase, Client::Waiting) {
            self.phase = Client::Awaiting;
        }
        self.closes = self.closes || !self.began;
        self.owes_body = false;
    }
}

impl AtTier {
    // All of its write came.
    fn end_write(&mut self, finished: bool)
        ensures { self.new ≡ tier_after_write finished self.old }
    {
        self.writes = !finished && self.writes;
        self.joinable = false;
    }
}

impl Exchange {
    /// Bytes of the response's body came.
    pub fn hear_body(&mut self, now: u64)
        requires { has_body_coming self.old.state ≡ true }
        ensures { self.new.state ≡ hears_body now self.old.state }
    {
        self.state.origin.word = now;
        self.state.origin.blocked = false;
    }

    /// A piece of the body went where its row says.
    pub fn take_piece(&mut self, piece: &Piece)
        requires { has_body_coming self.old.state ≡ true }
        ensures { self.new.state ≡ takes_piece piece.now self.old.state }
    {
        let origin = &mut self.state.origin;
        origin.size = origin.size.saturating_add(piece.bytes);
        origin.unread = if piece.read {
            0
        } else {
            origin.unread.saturating_add(piece.bytes)
        };
    }

    /// All came that its client gets of what is relayed to it.
    pub fn complete(&mut self)
        requires { is_relaying self.old.state.origin.phase ≡ true }
        ensures { self.new.state ≡ completes self.old.state }
    {
        self.state.client.ending = Ending::Whole;
        self.state.origin.rest();
    }

    /// All came that is stored; the tier has it whole, or a purge took the write away. Who reads it as it comes, of which its own client may be one, is to
    /// be woken.
    pub fn finish(&mut self, finished: bool) -> Released
        requires { is_storing self.old.state.origin.phase ≡ true }
        ensures left { self.new.state ≡ finishes finished self.old.state }
        ensures released { result ≡ release_if (not (reads_write self.old.state.client)) (tier_after_write finished self.old.state.tier) }
    {
        self.state.origin.rest();
        self.state.tier.end_write(finished);
        let reads = self.state.client.reads_write();
        self.state.tier.let_go_if(!reads)
    }

    /// Who reads what is stored has all that it wants of it, or finds that it broke off.
    pub fn end_reading(&mut self, truncated: bool)
        requires { reads_write self.old.state.client ≡ true }
        ensures { self.new.state ≡ ends_reading truncated self.old.state }
    {
        self.state.client.ending = if truncated {
            Ending::Truncated
        } else {
            Ending::Whole
        };
    }

    /// Its client was sent so many bytes more of the body.
    pub fn pass_bytes(&mut self, bytes: u64)
        ensures { self.new.state ≡ passes_bytes bytes self.old.state }
    {
        self.state.client.place = self.state.client.place.saturating_add(bytes);
    }

    /// Bytes of the request's body came, and perhaps its end. Whether they go to the origin, if there are any.
    pub fn forward_body(&mut self, now: u64, has_bytes: bool, over: bool) -> bool
        requires { self.old.state.client.owes_body ≡ true }
        ensures left { self.new.state ≡ forwards now has_bytes over self.old.state }
        ensures goes { result ≡ is_forwarded has_bytes self.old.state }
    {
        let goes = has_bytes && !self.is_idle() && matches!(self.state.origin.fetch, Fetch::Pass);
        self.state.client.owes_body = !over;
        if goes {
            self.state.origin.body_sent = true;
            if !self.state.origin.spoke {
                self.state.origin.word = now;
            }
        }
        goes
    }

    /// The request's body doesn't read: the origin's side is given up, and who has no answer yet is to be given one.
    pub fn break_request(&mut self, lacks: bool) -> Released
        requires { self.old.state.client.owes_body ≡ true }
        ensures left { self.new.state ≡ breaks_request lacks self.old.state }
        ensures released { result ≡ release_if (not (is_idle self.old.state.origin.phase && self.old.state.client.began)) self.old.state.tier }
    {
        if !self.is_idle() {
            let released = self.stop(lacks);
            self.state.client.refuse();
            return released;
        }
        if self.state.client.began {
            self.state.client.refuse();
            return Released::nothing();
        }
        self.state.client.refuse();
        self.state.tier.let_go()
    }
}
