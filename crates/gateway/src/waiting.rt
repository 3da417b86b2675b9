//! A wait for another's fetch: how it ends, and the look-up behind it.
ghost use Rattle.std.specs.Prelude.{◌≡◌, true, false, IfOk, OnOk};
ghost use Rattle.rand_core.specs.Stream.{Stream};
ghost use Rattle.gateway_state.specs.Frames.{HasSameButTier};
ghost use Rattle.gateway_steps.specs.Phases.{is_undecided, is_waiting};
ghost use Rattle.gateway.specs.Waits.{ended_in, ended_of, AsksOfWait};

use crate::lookups::look_up;
use cache_lock::LockStatus;
use gateway_exchanges::exchange::{Exchange, nanoseconds};
use gateway_exchanges::outs::Out;
use gateway_rules::moments::Moment;
use gateway_state::state::Gateway;
use gateway_types::waits::{Ended, WaitVerdict};
use rand_core::Rng;
use rand_pcg::Pcg64;
use rules_ffi_arguments::bad::Bad;
use std::alloc::AllocError;
use tier_model::event::{Action, Answer};

fn ended_of(status: LockStatus) -> Option<Ended>
    ensures { result ≡ ended_of status }
{
    match status {
        LockStatus::Waiting => None,
        LockStatus::Done => Some(Ended::Done),
        LockStatus::TransientError => Some(Ended::TransientError),
        LockStatus::GiveUp => Some(Ended::GiveUp),
        LockStatus::Dangling => Some(Ended::Dangling),
        LockStatus::WaitTimeout => Some(Ended::WaitTimeout),
        LockStatus::AgeTimeout => Some(Ended::AgeTimeout),
    }
}

fn ended_in(told: &Option<Answer>) -> Option<Ended>
    ensures { result ≡ ended_in told.now }
{
    match told {
        Some(Answer::Waited(Some(status))) => ended_of(*status),
        _ => None,
    }
}

/// Whether its wait has ended; then it looks again. A permit past its age is taken in the same call.
#[tactic(auto, using(crate::proofs::Decided::waiting_decided))]
pub fn poll_wait(g: &mut Gateway, e: &mut Exchange, now: Moment, out: &mut Out) -> Result<(), Bad>
    requires { is_waiting e.old.steps.state.client.phase ≡ true }
    ensures { OnOk result (is_undecided e.new.steps.state ≡ false) }
{
    let does = ask_of_wait(g, e, now, out)?;
    if matches!(does, WaitVerdict::Wait) {
        return Ok(());
    }
    g.drop_at(e.x);
    look_up(g, e, now, out)?;
    e.shares = None;
    Ok(())
}

// What the tier says of a wait, and by that and its time what becomes of it.
fn ask_of_wait(
    g: &mut Gateway,
    e: &mut Exchange,
    now: Moment,
    out: &mut Out,
) -> Result<WaitVerdict, AllocError>
    requires { is_waiting e.old.steps.state.client.phase ≡ true }
    ensures asked { IfOk result (λ does. AsksOfWait now (⟦<Pcg64 as Rng>⟧.stream g.old.rng) (⟦<Pcg64 as Rng>⟧.stream g.new.rng) g.old g.new e.old e.new does) }
    ensures gateway { HasSameButTier g.old g.new }
{
    let told = g.event(now, Action::Poll { request: e.x }, out)?;
    let ended = ended_in(&told);
    let shares = e.shares.is_some();
    let refused = !told.is_some();
    Ok(
        e.steps
            .poll_wait(nanoseconds(now), &g.timeouts, shares, refused, ended),
    )
}
