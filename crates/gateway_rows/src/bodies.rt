//! Where a piece of a body goes, what its end does, and what becomes of the connections.
ghost use Rattle.std.specs.Prelude.{◌≡◌, if◌then◌else◌};
ghost use Rattle.gateway_types.specs.declared.bodies.BodyVerdict.{BodyVerdict};
ghost use Rattle.gateway_rows.specs.Bodies.{
  body_row,
  end_row,
  closed_row,
  client_row,
  may_send_again,
  is_reusable,
  is_idle,
  is_awaiting,
  is_storing,
  is_relaying,
  is_unused,
  is_timeout,
  is_clean,
};

use gateway_types::bodies::{
    BodyEnd, BodyVerdict, ClientVerdict, Closed, ClosedVerdict, Connection, EndVerdict, Leaving,
    Piece, Why,
};
use gateway_types::states::Origin;

/// Where a piece of a body goes.
pub fn body_row(piece: &Piece) -> BodyVerdict
    ensures { result ≡ body_row piece.now }
{
    if piece.tailed {
        return of_reader(piece.reads, BodyVerdict::Tail);
    }
    if is_relaying(piece.origin) {
        return BodyVerdict::Relay;
    }
    if piece.refused || piece.unread_past {
        return BodyVerdict::Truncate;
    }
    if !piece.grows_past {
        return BodyVerdict::Store;
    }
    of_reader(piece.reads, BodyVerdict::BeginTail)
}

// What is done where its own client reads the body: else it breaks off.
fn of_reader(reads: bool, verdict: BodyVerdict) -> BodyVerdict
    ensures { result ≡ (if reads then verdict else BodyVerdict.Truncate) }
{
    if reads {
        verdict
    } else {
        BodyVerdict::Truncate
    }
}

/// What the end of a body does.
pub fn end_row(end: &BodyEnd) -> EndVerdict
    ensures { result ≡ end_row end.now }
{
    if end.tailed {
        return EndVerdict::EndTail;
    }
    if is_relaying(end.origin) {
        return EndVerdict::Complete;
    }
    if end.refused {
        EndVerdict::Truncate
    } else {
        EndVerdict::Finish
    }
}

/// What the end of a connection to the origin does.
pub fn closed_row(closed: &Closed) -> ClosedVerdict
    ensures { result ≡ closed_row closed.now }
{
    if !is_awaiting(closed.origin) {
        return if closed.close_delimited && is_clean(closed.why) {
            ClosedVerdict::End
        } else {
            ClosedVerdict::Truncate
        };
    }
    if may_send_again(closed) {
        return ClosedVerdict::SendAgain;
    }
    if is_timeout(closed.why) {
        ClosedVerdict::Timeout
    } else {
        ClosedVerdict::NoAnswer
    }
}

fn may_send_again(closed: &Closed) -> bool
    ensures { result ≡ may_send_again closed.now }
{
    is_unused(closed.why)
        && closed.idempotent
        && !closed.spoke
        && !closed.body_sent
        && !closed.sent_again
}

/// What becomes of the origin's side when its client goes.
pub fn client_row(leaving: &Leaving) -> ClientVerdict
    ensures { result ≡ client_row leaving.now }
{
    if is_idle(leaving.origin) {
        return ClientVerdict::Nothing;
    }
    if is_storing(leaving.origin) || is_awaiting(leaving.origin) && !leaving.owes_body {
        return ClientVerdict::GoesOn;
    }
    if leaving.tailed {
        ClientVerdict::Truncate
    } else {
        ClientVerdict::CloseOrigin
    }
}

/// Whether a connection to the origin may serve another exchange (RFC 9112, 9.3).
pub fn is_reusable(connection: &Connection) -> bool
    ensures { result ≡ is_reusable connection.now }
{
    connection.whole_response
        && !connection.response_closes
        && !connection.bytes_left
        && !connection.owes_body
}

fn is_idle(origin: Origin) -> bool
    ensures { result ≡ is_idle origin }
{
    matches!(origin, Origin::Idle)
}

fn is_awaiting(origin: Origin) -> bool
    ensures { result ≡ is_awaiting origin }
{
    matches!(origin, Origin::AwaitingHead)
}

fn is_storing(origin: Origin) -> bool
    ensures { result ≡ is_storing origin }
{
    matches!(origin, Origin::Storing)
}

fn is_relaying(origin: Origin) -> bool
    ensures { result ≡ is_relaying origin }
{
    matches!(origin, Origin::Relaying)
}

fn is_unused(why: Why) -> bool
    ensures { result ≡ is_unused why }
{
    matches!(why, Why::Unused)
}

fn is_timeout(why: Why) -> bool
    ensures { result ≡ is_timeout why }
{
    matches!(why, Why::Timeout)
}

fn is_clean(why: Why) -> bool
    ensures { result ≡ is_clean why }
{
    matches!(why, Why::Clean)
}
