//! What of an exchange its decisions go by. Moments are nanoseconds; exchanges are named by their numbers.

use gateway_types::states::{Client, Fetch, Origin};

/// Where the bytes come from that the client is sent.
#[derive(Clone, Copy)]
pub enum Source {
    /// All is there: a text.
    Text,
    /// A whole body that was found.
    Body,
    /// What is being stored, by this exchange or by another.
    Write,
    /// What comes from the origin for this client alone.
    Relay,
}

/// Whether a body that the client is sent goes on.
#[derive(Clone, Copy)]
pub enum Ending {
    /// More of it may come.
    GoesOn,
    /// All of it is there.
    Whole,
    /// It broke off.
    Truncated,
}

/// The client's side.
#[derive(Clone, Copy)]
pub struct ClientSide {
    /// How far it is.
    pub phase: Client,
    /// A final head was made.
    pub began: bool,
    /// Its connection ends behind the answer.
    pub closes: bool,
    /// Where the answer's bytes come from.
    pub source: Source,
    /// Whether the body goes on.
    pub ending: Ending,
    /// The next byte of the body that it is sent.
    pub place: u64,
    /// Its request's body isn't over.
    pub owes_body: bool,
}

/// The origin's side.
#[derive(Clone, Copy)]
pub struct OriginSide {
    /// How far it is.
    pub phase: Origin,
    /// What was asked.
    pub fetch: Fetch,
    /// Which of the gateway's requests to the origin it was.
    pub sequence: u64,
    /// It was asked with the permit, for what is to be stored.
    pub leads: bool,
    /// When it was asked.
    pub asked: u64,
    /// When it was told something last, or said something.
    pub word: u64,
    /// When its head began to come.
    pub came: Option<u64>,
    /// Bytes of its response came.
    pub spoke: bool,
    /// Bytes of the request's body went.
    pub body_sent: bool,
    /// The request was sent twice.
    pub sent_again: bool,
    /// It isn't read on, since the client lacks so much.
    pub blocked: bool,
    /// A purge named its key since it was asked.
    pub purged: bool,
    /// What it validates was freshened since, or replaced.
    pub overtaken: bool,
    /// The answer to what was asked later has come.
    pub superseded: bool,
    /// The body ends with the connection.
    pub close_delimited: bool,
    /// The response doesn't say that it is the last on its connection.
    pub reusable: bool,
    /// The body's length, where it is said.
    pub length: Option<u64>,
    /// So many bytes of it came.
    pub size: u64,
    /// So many of these, the last ones, for nobody.
    pub unread: u64,
    /// It grew too long to be stored: what comes past that is kept in a tail, for those who read it.
    pub tailed: bool,
    /// So many bytes of it were stored before.
    pub stored: u64,
}

/// What it holds at the tier, where it has one request at most.
#[derive(Clone, Copy)]
pub struct AtTier {
    /// Its request is open.
    pub held: bool,
    /// Its write is in flight.
    pub writes: bool,
    /// And others find it.
    pub joinable: bool,
    /// Since when it has the permit to fetch.
    pub permit: Option<u64>,
    /// It fetches without a permit.
    pub alone: bool,
    /// It waited for another's fetch.
    pub collapsed: bool,
    /// When it began to wait.
    pub since: Option<u64>,
    /// For whose permit it waits.
    pub holder: Option<u64>,
    /// What it waits for has begun, or goes on under another key.
    pub moved: bool,
    /// Whose write it reads.
    pub writer: Option<u64>,
    /// What it reads there goes on in a tail.
    pub tailed: bool,
    /// And it hasn't passed what is stored of it yet.
    pub passing: bool,
}

/// An exchange's state.
#[derive(Clone, Copy)]
pub struct State {
    /// The client's side.
    pub client: ClientSide,
    /// The origin's side.
    pub origin: OriginSide,
    /// What it holds at the tier.
    pub tier: AtTier,
}

/// What ended at the tier by a step. Where `request` is true, the request there is to be closed.
#[derive(Clone, Copy)]
pub struct Released {
    /// Its request.
    pub request: bool,
    /// Its permit: who waits for it is woken.
    pub permit: bool,
    /// Its unfinished write: who reads it is woken.
    pub write: bool,
}

/// Times in nanoseconds.
#[derive(Clone, Copy)]
pub struct Timeouts {
    /// Within which the origin says something at all.
    pub first_byte: u64,
    /// Within which it says more.
    pub between_bytes: u64,
    /// For which a permit holds.
    pub lock_age: u64,
    /// For which an exchange waits for others' permits, in all.
    pub lock_timeout: u64,
}

/// What a final head says of its body and its connection.
#[derive(Clone, Copy)]
pub struct HeadFraming {
    /// The body ends with the connection.
    pub close_delimited: bool,
    /// The response doesn't say that it is the last on its connection.
    pub reusable: bool,
    /// The body's length, where it is said.
    pub length: Option<u64>,
}

/// A piece of a body that came.
#[derive(Clone, Copy)]
pub struct Piece {
    /// Its bytes.
    pub bytes: u64,
    /// Some client lacks bytes of the body.
    pub read: bool,
}

/// Calls about an exchange.
#[derive(Clone, Copy)]
pub enum Call {
    /// What its client is sent next.
    Poll,
    /// Bytes of its request's body.
    RequestData,
    /// Bytes of its response's head.
    ResponseHead,
    /// Bytes of its response's body.
    ResponseData,
    /// The end of the origin's connection.
    OriginClosed,
    /// The end of the client's connection.
    ClientClosed,
}

/// How an answer stands, once all was sent that is there.
#[derive(Clone, Copy)]
pub enum AnswerEnd {
    /// More of it may come.
    GoesOn,
    /// It is whole.
    End,
    /// It is whole, and its connection ends.
    Close,
    /// It broke off, and its connection ends.
    Truncated,
}
