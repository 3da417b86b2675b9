//! A body that comes, how it ends, and how the connections on both sides do.

use crate::states::Origin;

/// What is known once a piece of a body was decoded.
#[derive(Clone, Copy)]
pub struct Piece {
    /// What becomes of the body.
    pub origin: Origin,
    /// It grew past what is stored of it: the rest is kept for those who read it.
    pub tailed: bool,
    /// With this piece it is longer than may be stored, or more is in flight than may be.
    pub grows_past: bool,
    /// Its own client is sent it.
    pub reads: bool,
    /// Too much has come for nobody.
    pub unread_past: bool,
    /// The tier had no memory for the piece.
    pub refused: bool,
}

/// Where the piece goes.
#[derive(Clone, Copy)]
pub enum BodyVerdict {
    /// Into the tail.
    Tail,
    /// Nowhere: the body breaks off.
    Truncate,
    /// To the client.
    Relay,
    /// Into the tail that begins here; nobody finds the body any more.
    BeginTail,
    /// Into what is stored.
    Store,
}

/// What is known at the end of a body.
#[derive(Clone, Copy)]
pub struct BodyEnd {
    /// What became of the body.
    pub origin: Origin,
    /// The rest of it is in a tail.
    pub tailed: bool,
    /// The tier had no memory for the end.
    pub refused: bool,
}

/// What the end of a body does.
#[derive(Clone, Copy)]
pub enum EndVerdict {
    /// The client has it whole.
    Complete,
    /// Those who read the tail have it whole.
    EndTail,
    /// The body breaks off.
    Truncate,
    /// It is stored.
    Finish,
}

/// How a connection to the origin ended.
#[derive(Clone, Copy)]
pub enum Why {
    /// By its own end.
    Clean,
    /// It failed.
    Failed,
    /// The origin was late.
    Timeout,
    /// It was kept from an earlier exchange, and no byte came on it.
    Unused,
}

/// What is known once a connection to the origin ended.
#[derive(Clone, Copy)]
pub struct Closed {
    /// What was awaited on it.
    pub origin: Origin,
    /// How it ended.
    pub why: Why,
    /// The body ends with the connection.
    pub close_delimited: bool,
    /// The request may be sent twice (RFC 9110, 9.2.2).
    pub idempotent: bool,
    /// Bytes of a response came.
    pub spoke: bool,
    /// Bytes of the request's body went.
    pub body_sent: bool,
    /// The request was sent twice already.
    pub sent_again: bool,
}

/// What the end of a connection to the origin does.
#[derive(Clone, Copy)]
pub enum ClosedVerdict {
    /// The request is sent once more.
    SendAgain,
    /// No answer in time: 504, or what is stale.
    Timeout,
    /// No answer: 502, or what is stale.
    NoAnswer,
    /// The body is whole.
    End,
    /// The body breaks off.
    Truncate,
}

/// What is known when a client goes.
#[derive(Clone, Copy)]
pub struct Leaving {
    /// What goes on for it.
    pub origin: Origin,
    /// The body is in a tail.
    pub tailed: bool,
    /// Its request's body isn't over.
    pub owes_body: bool,
}

/// What becomes of the origin's side.
#[derive(Clone, Copy)]
pub enum ClientVerdict {
    /// There is none.
    Nothing,
    /// It goes on: what is stored, and what must be heard.
    GoesOn,
    /// The body breaks off, for those who read it too.
    Truncate,
    /// Its connection is closed.
    CloseOrigin,
}

/// What is known of a connection to the origin at the end of an exchange.
#[derive(Clone, Copy)]
pub struct Connection {
    /// The response says that it is the last.
    pub response_closes: bool,
    /// All of the response came.
    pub whole_response: bool,
    /// Bytes came behind it.
    pub bytes_left: bool,
    /// The request's body isn't over.
    pub owes_body: bool,
}
