//! Of a body that grew too long to be stored: who reads it goes on in a tail.
ghost use Rattle.std.specs.Prelude.{◌≡◌, ◌&&◌, true, false, not};
ghost use Rattle.gateway_rows.specs.Bodies.{is_relaying, is_storing};
ghost use Rattle.gateway_steps.specs.Phases.{is_read_on, reads_write};
ghost use Rattle.gateway_steps.specs.Sides.{release_if};
ghost use Rattle.gateway_steps.specs.Steps.{begins_tail, joins_tail, passes_stored, ends_tailed_write, release_by_last, ends_tail};

use crate::exchange::Exchange;
use crate::state::Released;
use gateway_types::states::Origin;

impl Exchange {
    /// What is stored of its body is all that will be: nobody finds it any more, and its own client goes on in a tail, once it has passed that.
    pub fn begin_tail(&mut self)
        requires storing { is_storing self.old.state.origin.phase ≡ true }
        requires reads { reads_write self.old.state.client ≡ true }
        ensures { self.new.state ≡ begins_tail self.old.state }
    {
        self.state.origin.phase = Origin::Relaying;
        self.state.origin.tailed = true;
        self.state.origin.stored = self.state.origin.size;
        self.state.tier.joinable = false;
        self.state.tier.tailed = true;
        self.state.tier.passing = true;
    }

    /// What it reads, which another stored, goes on in a tail.
    pub fn join_tail(&mut self)
        requires { reads_write self.old.state.client ≡ true }
        ensures { self.new.state ≡ joins_tail self.old.state }
    {
        if !self.state.tier.writes {
            self.state.tier.tailed = true;
            self.state.tier.passing = self.state.tier.held;
        }
    }

    /// It has passed what was stored: its request at the tier ends, unless that is its own write, in which others read on.
    pub fn pass_stored(&mut self) -> Released
        requires { self.old.state.tier.passing ≡ true }
        ensures left { self.new.state ≡ passes_stored self.old.state }
        ensures released { result ≡ release_if (not (is_read_on self.old.state)) self.old.state.tier }
    {
        let read_on = self.is_read_on();
        self.state.tier.pass_or_let_go(!read_on)
    }

    /// The last one has passed what it stored: its request at the tier ends.
    pub fn end_tailed_write(&mut self) -> Released
        ensures left { self.new.state ≡ ends_tailed_write self.old.state }
        ensures released { result ≡ release_by_last self.old.state }
    {
        let read_on = self.is_read_on();
        self.state.tier.let_go_passed(read_on)
    }

    /// All came of what is kept in its tail.
    pub fn end_tail(&mut self)
        requires relaying { is_relaying self.old.state.origin.phase ≡ true }
        requires tailed { self.old.state.origin.tailed ≡ true }
        ensures { self.new.state ≡ ends_tail self.old.state }
    {
        self.state.origin.rest();
    }
}
