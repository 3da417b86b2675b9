//! What is asked of an exchange. Nothing changes by it.
ghost use Rattle.std.specs.Prelude.{◌≡◌, ◌&&◌, Bool, true, false, not, Option, nat_le};
ghost use Rattle.gateway_rows.specs.Bodies.{body_row, end_row, is_idle, is_reusable};
ghost use Rattle.gateway_rows.specs.Responses.{may_store};
ghost use Rattle.gateway_steps.specs.Calls.{is_lawful};
ghost use Rattle.gateway_steps.specs.Phases.{has_body_coming, is_for_client, is_over, is_read_on, is_undecided, reads_stored, reads_write};
ghost use Rattle.gateway_steps.specs.Questions.{
  wait_end,
  origin_deadline,
  is_late,
  deadline,
  keeping_of,
  may_freshen,
  piece_of,
  end_of,
  connection_of,
  is_blocked,
  is_waiting_for,
  is_reading_from,
  write_size,
  grows_past,
  is_unread_past,
  is_half_there,
};

use crate::exchange::Exchange;
use crate::state::{Call, Timeouts};
use gateway_rows::bodies::{body_row, end_row, is_reusable};
use gateway_rows::responses::may_store;
use gateway_types::bodies::{BodyEnd, BodyVerdict, Connection, EndVerdict, Piece};
use gateway_types::responses::Keeping;
use gateway_types::states::{Client, Origin};

impl Exchange {
    /// Whether a call is lawful now.
    pub fn is_lawful(&self, call: Call) -> bool
        ensures { result ≡ is_lawful call self.now.state }
    {
        match call {
            Call::Poll => true,
            Call::RequestData => self.state.client.owes_body,
            Call::ResponseHead => matches!(self.state.origin.phase, Origin::AwaitingHead),
            Call::ResponseData => self.has_body_coming(),
            Call::OriginClosed => !self.is_idle(),
            Call::ClientClosed => !matches!(self.state.client.phase, Client::Done),
        }
    }

    // Whether nothing is asked of the origin.
    pub(crate) fn is_idle(&self) -> bool
        ensures { result ≡ is_idle self.now.state.origin.phase }
    {
        matches!(self.state.origin.phase, Origin::Idle)
    }

    fn has_body_coming(&self) -> bool
        ensures { result ≡ has_body_coming self.now.state }
    {
        matches!(self.state.origin.phase, Origin::Storing | Origin::Relaying)
    }

    /// Whether it is to be decided yet what is done for its client: within a call alone.
    pub fn is_undecided(&self) -> bool
        ensures { result ≡ is_undecided self.now.state }
    {
        matches!(self.state.client.phase, Client::Awaiting) && self.is_idle()
    }

    /// Whether others read on in what it stored of a body that grew too long to be stored.
    pub fn is_read_on(&self) -> bool
        ensures { result ≡ is_read_on self.now.state }
    {
        self.state.tier.writes && self.state.origin.tailed
    }

    /// Whether its client reads in what is stored: of what grew too long, what is stored in front of the tail.
    pub fn reads_stored(&self) -> bool
        ensures value { result ≡ reads_stored self.now.state }
        ensures reads { result ≡ true → reads_write self.now.state.client ≡ true }
    {
        self.state.client.reads_write() && (!self.state.tier.tailed || self.state.tier.passing)
    }

    /// Whether both sides ended, and nobody reads on in what it stored: then it is forgotten, and it holds nothing at the tier.
    pub fn is_over(&self) -> bool
        ensures value { result ≡ is_over self.now.state }
        ensures holds_nothing { result ≡ true → self.now.state.tier.held ≡ false }
    {
        matches!(self.state.client.phase, Client::Done) && self.is_idle() && !self.is_read_on()
    }

    // Whether it has waited as long as an exchange may, in all.
    pub(crate) fn is_wait_over(&self, now: u64, timeouts: &Timeouts) -> bool
        ensures { result ≡ nat_le (wait_end timeouts.now self.now.state) now }
    {
        self.wait_end(timeouts) <= now
    }

    fn wait_end(&self, timeouts: &Timeouts) -> u64
        ensures { result ≡ wait_end timeouts.now self.now.state }
    {
        let since = self.state.tier.since.unwrap_or(0);
        since.saturating_add(timeouts.lock_timeout)
    }

    fn origin_deadline(&self, timeouts: &Timeouts) -> Option<u64>
        ensures { result ≡ origin_deadline timeouts.now self.now.state }
    {
        if self.is_idle() || self.state.origin.blocked {
            return None;
        }
        let most = if self.state.origin.spoke {
            timeouts.between_bytes
        } else {
            timeouts.first_byte
        };
        Some(self.state.origin.word.saturating_add(most))
    }

    /// Whether the origin is late.
    pub fn is_late(&self, now: u64, timeouts: &Timeouts) -> bool
        ensures value { result ≡ is_late now timeouts.now self.now.state }
        ensures asked { result ≡ true → is_idle self.now.state.origin.phase ≡ false }
    {
        match self.origin_deadline(timeouts) {
            Some(due) => due <= now,
            None => false,
        }
    }

    /// The next moment at which something is due on either side; `permit`: since when the exchange has its permit for which this one waits.
    pub fn deadline(&self, timeouts: &Timeouts, permit: Option<u64>) -> Option<u64>
        ensures { result ≡ deadline timeouts.now permit self.now.state }
    {
        if !matches!(self.state.client.phase, Client::Waiting) {
            return self.origin_deadline(timeouts);
        }
        let end = self.wait_end(timeouts);
        match permit {
            Some(since) => Some(end.min(since.saturating_add(timeouts.lock_age))),
            None => Some(end),
        }
    }

    /// Whether what the rules keep is stored, by what came since it was asked.
    pub fn may_store(&self, kept: bool, too_long: bool, too_much: bool) -> bool
        ensures { result ≡ may_store (keeping_of kept too_long too_much self.now.state) }
    {
        may_store(&Keeping {
            kept,
            purged: self.state.origin.purged,
            superseded: self.state.origin.superseded,
            too_long,
            too_much,
        })
    }

    /// Whether what is stored takes the fields that the rules would have it take, by what came since it was asked.
    pub fn may_freshen(&self, kept: bool) -> bool
        ensures { result ≡ may_freshen kept self.now.state }
    {
        let origin = self.state.origin;
        kept && self.state.tier.held && !(origin.purged || origin.overtaken || origin.superseded)
    }

    /// Where a piece of the body goes; `reads`: its own client lacks bytes of it.
    pub fn body_verdict(
        &self,
        grows_past: bool,
        reads: bool,
        unread_past: bool,
        refused: bool,
    ) -> BodyVerdict
        ensures { result ≡ body_row (piece_of grows_past reads unread_past refused self.now.state) }
    {
        body_row(&Piece {
            origin: self.state.origin.phase,
            tailed: self.state.origin.tailed,
            grows_past,
            reads,
            unread_past,
            refused,
        })
    }

    /// What the end of the body does.
    pub fn end_verdict(&self, refused: bool) -> EndVerdict
        ensures { result ≡ end_row (end_of refused self.now.state) }
    {
        end_row(&BodyEnd {
            origin: self.state.origin.phase,
            tailed: self.state.origin.tailed,
            refused,
        })
    }

    /// Whether the origin's connection may serve another exchange.
    pub fn is_reusable(&self, whole: bool, bytes_left: bool) -> bool
        ensures { result ≡ is_reusable (connection_of whole bytes_left self.now.state) }
    {
        is_reusable(&Connection {
            response_closes: !self.state.origin.reusable,
            whole_response: whole,
            bytes_left,
            owes_body: self.state.client.owes_body,
        })
    }

    /// Whether its client lacks so much of what comes for it that nothing more is taken.
    pub fn is_blocked(&self, untaken: u64, most: u64) -> bool
        ensures value { result ≡ is_blocked untaken most self.now.state }
        ensures comes { result ≡ true → is_for_client self.now.state ≡ true }
    {
        self.is_for_client() && most <= untaken
    }

    fn is_for_client(&self) -> bool
        ensures { result ≡ is_for_client self.now.state }
    {
        match self.state.origin.phase {
            Origin::Relaying => matches!(self.state.client.phase, Client::Sending),
            Origin::AwaitingHead => matches!(self.state.client.phase, Client::Awaiting),
            _ => false,
        }
    }

    /// Whether it waits for that exchange's permit.
    pub fn is_waiting_for(&self, number: u64) -> bool
        ensures { result ≡ is_waiting_for number self.now.state }
    {
        matches!(self.state.client.phase, Client::Waiting)
            && matches!(self.state.tier.holder, Some(holder) if holder == number)
    }

    /// Whether it reads what that exchange stores.
    pub fn is_reading_from(&self, number: u64) -> bool
        ensures { result ≡ is_reading_from number self.now.state }
    {
        self.state.client.reads_write()
            && matches!(self.state.tier.writer, Some(writer) if writer == number)
    }

    /// How many bytes its write takes, as far as is known: of a body that grew too long, what was stored of it.
    pub fn write_size(&self) -> u64
        ensures { result ≡ write_size self.now.state }
    {
        if self.is_read_on() {
            self.state.origin.stored
        } else if self.state.tier.writes {
            let length = self.state.origin.length.unwrap_or(0);
            self.state.origin.size.max(length)
        } else {
            0
        }
    }

    /// Whether with so many bytes more its body is longer than may be stored, or with others' writes there is too much in flight.
    pub fn grows_past(&self, bytes: u64, most: u64, others: u64, most_in_flight: u64) -> bool
        ensures { result ≡ grows_past bytes most others most_in_flight self.now.state }
    {
        let size = self.state.origin.size.saturating_add(bytes);
        let length = self.state.origin.length.unwrap_or(0);
        size > most || others.saturating_add(size.max(length)) > most_in_flight
    }

    /// Whether with so many bytes more too many came for nobody, and not half of the body.
    pub fn is_unread_past(&self, bytes: u64, most: u64) -> bool
        ensures { result ≡ is_unread_past bytes most self.now.state }
    {
        let unread = self.state.origin.unread.saturating_add(bytes);
        unread > most && !self.is_half_there(bytes)
    }

    // Whether with so many bytes more half of the body is there.
    fn is_half_there(&self, bytes: u64) -> bool
        ensures { result ≡ is_half_there bytes self.now.state }
    {
        let size = self.state.origin.size.saturating_add(bytes);
        match self.state.origin.length {
            Some(length) => length > 0 && size >= length - length / 2,
            None => false,
        }
    }
}
