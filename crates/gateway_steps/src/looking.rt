//! What a request finds, and what is done by that.
ghost use Rattle.std.specs.Prelude.{◌≡◌, Bool, true, false, not, is_some, ◌&&◌, ◌||◌, nat_le};
ghost use Rattle.gateway_rows.specs.Bodies.{is_awaiting, is_idle};
ghost use Rattle.gateway_rows.specs.Waits.{wait_row};
ghost use Rattle.gateway_steps.specs.Phases.{awaits_answer, is_undecided, is_waiting, is_stored_fetch, is_at_hand};
ghost use Rattle.gateway_steps.specs.Questions.{may_hold, wait_of};
ghost use Rattle.gateway_steps.specs.Sides.{release_of, release_if, client_sending};
ghost use Rattle.gateway_steps.specs.Steps.{holds, lets_go, takes_permit, waits_for, ends_wait, answers, looks_again, collapses};

use crate::exchange::Exchange;
use crate::state::{ClientSide, Ending, Released, Source, Timeouts};
use gateway_rows::waits::wait_row;
use gateway_types::states::Client;
use gateway_types::waits::{Ended, WaitVerdict, Waiting};

impl ClientSide {
    // Its head is made.
    pub(crate) fn send(&mut self, source: Source, ending: Ending)
        ensures { self.new ≡ client_sending source ending self.old }
    {
        self.phase = Client::Sending;
        self.began = true;
        self.source = source;
        self.ending = ending;
        self.place = 0;
    }
}

impl Exchange {
    /// Its request at the tier is open.
    pub fn hold(&mut self)
        requires { may_hold self.old.state ≡ true }
        ensures { self.new.state ≡ holds self.old.state }
    {
        self.state.tier.held = true;
    }

    /// Its request at the tier ends: it is looked up again, or fetched and not stored.
    pub fn let_go(&mut self) -> Released
        requires { is_undecided self.old.state || is_awaiting self.old.state.origin.phase ≡ true }
        ensures left { self.new.state ≡ lets_go self.old.state }
        ensures released { result ≡ release_of self.old.state.tier }
    {
        self.state.tier.let_go()
    }

    /// The tier gives it the permit to fetch.
    pub fn take_permit(&mut self, now: u64)
        requires undecided { is_undecided self.old.state ≡ true }
        requires held { self.old.state.tier.held ≡ true }
        requires beside { self.old.state.tier.alone ≡ false }
        ensures { self.new.state ≡ takes_permit now self.old.state }
    {
        self.state.tier.permit = Some(now);
    }

    /// It waits for another's permit, which that exchange has.
    pub fn wait(&mut self, now: u64, holder: Option<u64>)
        requires undecided { is_undecided self.old.state ≡ true }
        requires held { self.old.state.tier.held ≡ true }
        requires without { is_some self.old.state.tier.permit ≡ false }
        ensures { self.new.state ≡ waits_for now holder self.old.state }
    {
        let since = self.state.tier.since.unwrap_or(now);
        self.state.client.phase = Client::Waiting;
        self.state.tier.collapsed = true;
        self.state.tier.since = Some(since);
        self.state.tier.holder = holder;
    }

    /// What becomes of its wait, by what the tier said of it or had no memory to say; `shares`: the fetch that it waits for got no answer. Unless the wait
    /// goes on, its request at the tier has ended, and is to be closed: it looks up again.
    pub fn poll_wait(
        &mut self,
        now: u64,
        timeouts: &Timeouts,
        shares: bool,
        refused: bool,
        ended: Option<Ended>,
    ) -> WaitVerdict
        requires { is_waiting self.old.state.client.phase ≡ true }
        ensures row { result ≡ wait_row (wait_of now timeouts.now shares refused ended self.old.state) }
        ensures left { self.new.state ≡ ends_wait (wait_row (wait_of now timeouts.now shares refused ended self.old.state)) self.old.state }
    {
        let verdict = wait_row(&Waiting {
            shares,
            over: self.is_wait_over(now, timeouts),
            moved: self.state.tier.moved,
            refused,
            ended,
        });
        match verdict {
            WaitVerdict::Wait => {}
            WaitVerdict::Again => self.look_again(false),
            WaitVerdict::Alone | WaitVerdict::Share => self.look_again(true),
        }
        verdict
    }

    // It looks up again.
    fn look_again(&mut self, alone: bool)
        requires { is_waiting self.old.state.client.phase ≡ true }
        ensures { self.new.state ≡ looks_again alone self.old.state }
    {
        self.state.client.phase = Client::Awaiting;
        let tier = &mut self.state.tier;
        let _ = tier.let_go();
        tier.alone = alone;
    }

    /// It is answered by what is at hand: a text, or a whole body. Where nothing is asked of the origin, its request at the tier ends.
    pub fn answer(&mut self, source: Source) -> Released
        requires awaits { awaits_answer self.old.state.client.phase ≡ true }
        requires at_hand { is_at_hand source ≡ true }
        ensures left { self.new.state ≡ answers source self.old.state }
        ensures released { result ≡ release_if (is_idle self.old.state.origin.phase) self.old.state.tier }
    {
        let idle = self.is_idle();
        self.state.client.send(source, Ending::GoesOn);
        self.state.origin.blocked = false;
        self.state.tier.let_go_if(idle)
    }

    /// It is answered by what another is storing, which it reads by its own request at the tier.
    pub fn collapse(&mut self, writer: u64)
        requires undecided { is_undecided self.old.state ≡ true }
        requires held { self.old.state.tier.held ≡ true }
        requires without { is_some self.old.state.tier.permit ≡ false }
        ensures { self.new.state ≡ collapses writer self.old.state }
    {
        self.state.client.send(Source::Write, Ending::GoesOn);
        self.state.tier.writer = Some(writer);
    }
}
