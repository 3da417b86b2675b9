//! Where a body's next bytes go: into what is stored, into a tail, or to its client.
ghost use Rattle.std.specs.Prelude.{◌≡◌, true, false, length, IfOk, OnOk};
ghost use Rattle.gateway_rows.specs.Bodies.{body_row, is_relaying, is_storing};
ghost use Rattle.gateway_types.specs.declared.bodies.BodyVerdict.{BodyVerdict};
ghost use Rattle.gateway_steps.specs.Phases.{has_body_coming, reads_write};
ghost use Rattle.gateway_steps.specs.Questions.{piece_of};
ghost use Rattle.rules_ffi_arguments.specs.Moments.{moment_at};
ghost use Rattle.gateway_responses.specs.Bodies.{body_verdict, growth_of, GoesOn, IsKept, IsTaken};
ghost use Rattle.gateway_state.specs.Frames.{HasSameButPredicted};

use crate::growth::{Grown, grows_long, growth_of};
use bytes::Bytes;
use gateway_exchanges::exchange::Exchange;
use gateway_exchanges::outs::{OriginAction, Out};
use gateway_rules::moments::{Moment, moment_at};
use gateway_sides::origin_side::{is_whole, predict_unstored};
use gateway_sides::parts::{end_relay, relay_bytes};
use gateway_sides::tails::{begin_tail, take_into_tail};
use gateway_state::state::Gateway;
use gateway_tier::at_tier::count_flying;
use gateway_tier::waking::wake_readers;
use gateway_types::bodies::BodyVerdict;
use rules_ffi_arguments::bad::Bad;
use std::alloc::AllocError;

/// Whether a body's next bytes went where its row says: where they didn't, or that couldn't be done, it is to break off.
pub(crate) fn take_piece(
    g: &mut Gateway,
    e: &mut Exchange,
    piece: Vec<u8>,
    out: &mut Out,
) -> Result<bool, Bad>
    requires { has_body_coming e.old.steps.state ≡ true }
    ensures goes_on { GoesOn e.old.steps.state e.new.steps.state }
    ensures taken { IfOk result (λ took. took ≡ true → IsTaken (body_verdict (growth_of g.old e.old (length piece.items)) e.old.steps.state)
        (growth_of g.old e.old (length piece.items)).piece e.old.steps.state e.new.steps.state) }
{
    let grown = growth_of(g, e, piece.len() as u64);
    match verdict_of(e, grown, false) {
        BodyVerdict::Store => store_piece(g, e, piece, grown, out),
        BodyVerdict::BeginTail => grow_tail(g, e, piece.as_slice(), grown, out),
        BodyVerdict::Tail => add_to_tail(g, e, piece.as_slice(), grown, out),
        BodyVerdict::Relay => relay_piece(g, e, piece.as_slice(), grown, out),
        BodyVerdict::Truncate => Ok(false),
    }
}

// The row of its next bytes; `refused`: the tier had no memory for them.
fn verdict_of(e: &Exchange, grown: Grown, refused: bool) -> BodyVerdict
    ensures { result ≡ body_row (piece_of grown.past grown.reads grown.unread_past refused e.now.steps.state) }
{
    e.steps
        .body_verdict(grown.past, grown.reads, grown.unread_past, refused)
}

// Whether they are stored.
fn store_piece(
    g: &mut Gateway,
    e: &mut Exchange,
    piece: Vec<u8>,
    grown: Grown,
    out: &mut Out,
) -> Result<bool, Bad>
    requires { has_body_coming e.old.steps.state ≡ true }
    ensures goes_on { GoesOn e.old.steps.state e.new.steps.state }
    ensures taken { IfOk result (λ took. took ≡ true → IsTaken BodyVerdict.Store grown.piece e.old.steps.state e.new.steps.state) }
    ensures kept { g.new.tails ≡ g.old.tails }
{
    let bytes = Bytes::from_vec(piece)?;
    let (done, _) = g.write_at(e.x, &bytes, false, out)?;
    if !matches!(verdict_of(e, grown, !done), BodyVerdict::Store) {
        return Ok(false);
    }
    e.steps.take_piece(&grown.piece);
    count_written(g, e, out)?;
    Ok(true)
}

/// What is written counts by its size, and who reads it is woken.
pub(crate) fn count_written(
    g: &mut Gateway,
    e: &mut Exchange,
    out: &mut Out,
) -> Result<(), AllocError>
    ensures steps { e.new.steps ≡ e.old.steps }
    ensures gateway { g.new ≡ record g.old { flying = g.new.flying } }
{
    let size = e.steps.write_size();
    count_flying(g, e, size);
    wake_readers(g, e, out)
}

// With them the body is too long to be stored, and its own client reads it: a tail begins with them.
fn grow_tail(
    g: &mut Gateway,
    e: &mut Exchange,
    piece: &[u8],
    grown: Grown,
    out: &mut Out,
) -> Result<bool, Bad>
    requires storing { is_storing e.old.steps.state.origin.phase ≡ true }
    requires reads { reads_write e.old.steps.state.client ≡ true }
    ensures goes_on { GoesOn e.old.steps.state e.new.steps.state }
    ensures taken { IfOk result (λ took. IsTaken BodyVerdict.BeginTail grown.piece e.old.steps.state e.new.steps.state) }
    ensures kept { OnOk result (IsKept BodyVerdict.BeginTail piece.now g.old e.old g.new) }
{
    let is_long = grows_long(g, e, grown);
    begin_tail(g, e, is_long, last_word_of(e))?;
    let _kept = add_to_tail(g, e, piece, grown, out)?;
    Ok(true)
}

// They are kept in its tail.
fn add_to_tail(
    g: &mut Gateway,
    e: &mut Exchange,
    piece: &[u8],
    grown: Grown,
    out: &mut Out,
) -> Result<bool, Bad>
    requires { has_body_coming e.old.steps.state ≡ true }
    ensures goes_on { GoesOn e.old.steps.state e.new.steps.state }
    ensures taken { IfOk result (λ took. IsTaken BodyVerdict.Tail grown.piece e.old.steps.state e.new.steps.state) }
    ensures kept { OnOk result (IsKept BodyVerdict.Tail piece.now g.old e.old g.new) }
{
    take_into_tail(g, e, piece, out)?;
    e.steps.take_piece(&grown.piece);
    Ok(true)
}

// When the origin said something last.
fn last_word_of(e: &Exchange) -> Moment
    ensures { result ≡ moment_at e.now.steps.state.origin.word }
{
    moment_at(e.steps.state.origin.word)
}

// Its client is sent what it gets of them.
fn relay_piece(
    g: &mut Gateway,
    e: &mut Exchange,
    piece: &[u8],
    grown: Grown,
    out: &mut Out,
) -> Result<bool, Bad>
    requires { is_relaying e.old.steps.state.origin.phase ≡ true }
    ensures goes_on { GoesOn e.old.steps.state e.new.steps.state }
    ensures taken { IfOk result (λ took. IsTaken BodyVerdict.Relay grown.piece e.old.steps.state e.new.steps.state) }
    ensures kept { g.new.tails ≡ g.old.tails }
{
    learn_long(g, e, grown)?;
    let done = relay_bytes(e, piece, out)?;
    e.steps.take_piece(&grown.piece);
    // All that its client gets has come: where that is all of the body, its end is said by that.
    if done && !is_whole(g, e)? {
        end_relay(e, out)?;
        e.steps.complete();
        out.origin = OriginAction::CloseOrigin;
    }
    Ok(true)
}

// What could be stored, but for its length, won't be the next time either.
fn learn_long(g: &mut Gateway, e: &Exchange, grown: Grown) -> Result<(), AllocError>
    ensures { HasSameButPredicted g.old g.new }
{
    if let Some(key) = e.key
        && e.asks.storable
        && grows_long(g, e, grown)
    {
        predict_unstored(g, &key, last_word_of(e))?;
    }
    Ok(())
}
