//! What others do to an exchange, and what its client does to what comes.
ghost use Rattle.std.specs.Prelude.{◌≡◌, Bool, true, false, not, is_some, ◌&&◌, ◌||◌};
ghost use Rattle.gateway_rows.specs.Bodies.{is_awaiting, is_idle};
ghost use Rattle.gateway_steps.specs.Phases.{is_for_client, is_waiting};
ghost use Rattle.gateway_steps.specs.Steps.{loses_permit, hides_write, moves_on, meets_purge, release_by_purge, overtakes, supersedes, closes_behind, blocks, reads_on};

use crate::exchange::Exchange;
use crate::state::Released;
use gateway_types::states::{Client, Origin};

impl Exchange {
    /// Another has the permit now, since it was past its age.
    pub fn lose_permit(&mut self)
        ensures { self.new.state ≡ loses_permit self.old.state }
    {
        self.state.tier.permit = None;
    }

    /// Nobody finds its write any more; who reads it gets all of it.
    pub fn hide_write(&mut self)
        ensures { self.new.state ≡ hides_write self.old.state }
    {
        self.state.tier.joinable = false;
    }

    /// What it waits for, if it waits, has begun, or goes on under another key.
    pub fn move_on(&mut self)
        ensures { self.new.state ≡ moves_on self.old.state }
    {
        if matches!(self.state.client.phase, Client::Waiting) {
            self.state.tier.moved = true;
        }
    }

    /// A purge names its key: what is fetched isn't stored, and a permit to fetch ends.
    pub fn meet_purge(&mut self) -> Released
        ensures left { self.new.state ≡ meets_purge self.old.state }
        ensures released { result ≡ release_by_purge self.old.state }
    {
        let leads = self.leads_yet();
        if !self.is_idle() {
            self.state.origin.purged = true;
        }
        self.state.tier.let_go_if(leads)
    }

    // Whether it awaits a head with the permit.
    fn leads_yet(&self) -> bool
        ensures { result ≡ (is_awaiting self.now.state.origin.phase && is_some self.now.state.tier.permit) }
    {
        matches!(self.state.origin.phase, Origin::AwaitingHead) && self.state.tier.permit.is_some()
    }

    /// What it validates was freshened, or replaced.
    pub fn overtake(&mut self)
        ensures { self.new.state ≡ overtakes self.old.state }
    {
        self.state.origin.overtaken = true;
    }

    /// The answer to what was asked later has come.
    pub fn supersede(&mut self)
        ensures { self.new.state ≡ supersedes self.old.state }
    {
        self.state.origin.superseded = true;
    }

    /// Its head says that the connection ends behind the answer.
    pub fn close_behind(&mut self)
        ensures { self.new.state ≡ closes_behind self.old.state }
    {
        self.state.client.closes = true;
    }

    /// Its client lacks so much that nothing more is taken.
    pub fn block(&mut self)
        requires { is_for_client self.old.state ≡ true }
        ensures { self.new.state ≡ blocks self.old.state }
    {
        self.state.origin.blocked = true;
    }

    /// Its client took enough: what comes is read on.
    pub fn read_on(&mut self, now: u64)
        ensures { self.new.state ≡ reads_on now self.old.state }
    {
        self.state.origin.blocked = false;
        self.state.origin.word = now;
    }
}
