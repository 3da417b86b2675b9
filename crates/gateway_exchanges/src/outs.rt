//! What a call answers.
ghost use Rattle.std.specs.Prelude.{◌≡◌, ◌==◌, OnOk, OnErr, if◌then◌else◌, length, vec_len};
ghost use Rattle.gateway_exchanges.specs.Replies.{reply_of, blank_reply, with_wake, with_event, with_piece};

use bytes::Bytes;
use cache_words::key::HashBinary;
use gateway_rules::moments::Moment;
use gateway_types::looks::Reuse;
use gateway_types::states::Fetch;
use indexmap::IndexSet;
use std::alloc::{AllocError, Global};

/// How a call ended. In the last four nothing was changed.
#[derive(Clone, Copy, Debug, PartialEq, Eq)]
pub enum Status {
    Done,
    /// Come again with more bytes.
    More,
    /// The client lacks so much that nothing more is taken.
    Blocked,
    NoExchange,
    WrongPhase,
    BadArgument,
    Memory,
}

/// What comes behind the pieces for the client.
#[derive(Clone, Copy, Debug, PartialEq, Eq)]
pub enum ClientEnd {
    Nothing,
    Wait,
    End,
    /// The client's connection ends too.
    Close,
    /// It is closed: the answer isn't whole.
    Truncated,
}

/// What is to be done on the origin's connection.
#[derive(Clone, Copy, Debug, PartialEq, Eq)]
pub enum OriginAction {
    Nothing,
    /// `to_origin` goes on a connection.
    SendRequest,
    /// `to_origin` goes on it.
    SendData,
    /// What comes next is a body.
    ReceiveBody,
    /// It is read on.
    Continue,
    /// The exchange with it is over, and it may be kept.
    Reusable,
    /// It is to be closed.
    CloseOrigin,
}

/// A piece for the client.
#[derive(Drop)]
pub enum Piece {
    Text(Vec<u8>),
    /// Bytes of a body, which is shared with the tier.
    Shared(Bytes),
}

/// What was done. A key is named by its digest.
#[derive(Clone, Copy)]
pub enum Event {
    Requested {
        fetch: Fetch,
        key: Option<HashBinary>,
        leads: bool,
    },
    Hit(Reuse),
    Waiting,
    Collapsed(Reuse),
    StaleOnError,
    Stored(HashBinary),
    Completed(HashBinary),
    Truncated,
    Relayed(u64),
    Revalidated,
    Freshened(HashBinary),
    Generated(u64, u64),
    Purged(HashBinary),
    /// A new Vary index stands under a first key.
    VaryIndex(HashBinary),
    PurgedAll,
}

/// What a call answers.
#[derive(Drop)]
pub struct Out {
    pub status: Status,
    /// Of `start`: its number.
    pub exchange: u64,
    /// Bytes that are done with.
    pub used: u64,
    pub client: ClientEnd,
    /// Pieces for the client.
    pub pieces: Vec<Piece>,
    pub origin: OriginAction,
    pub to_origin: Vec<u8>,
    /// Of `start`: the request's body, by `request_data`.
    pub body_follows: bool,
    /// Of `request_data`: the request's body is over.
    pub last: bool,
    /// Call `poll` at that moment.
    pub at: Option<Moment>,
    /// Of `purge`: something was there.
    pub found: bool,
    /// Exchanges for which `poll` is to be called. Their numbers are the gateway's own: nobody chooses some that are slow to look up.
    pub wakes: IndexSet<u64>,
    /// Stored keys that went for room.
    pub evicted: Vec<HashBinary>,
    /// Keys to purge in other partitions.
    pub purges: Vec<Vec<u8>>,
    /// What was done, for logs and counts.
    pub events: Vec<Event>,
}

impl Out {
    /// Nothing yet. It takes no memory.
    pub fn new(alloc: Global, status: Status) -> Out
        ensures { reply_of result ≡ blank_reply status }
    {
        Out {
            status,
            exchange: 0,
            used: 0,
            client: ClientEnd::Nothing,
            pieces: Vec::new(alloc),
            origin: OriginAction::Nothing,
            to_origin: Vec::new(alloc),
            body_follows: false,
            last: false,
            at: None,
            found: false,
            wakes: IndexSet::new(alloc),
            evicted: Vec::new(alloc),
            purges: Vec::new(alloc),
            events: Vec::new(alloc),
        }
    }

    /// Adds an exchange for which there is something new, once.
    pub fn wake(&mut self, x: u64) -> Result<(), AllocError>
        ensures ok { OnOk result (reply_of self.new ≡ with_wake x (reply_of self.old)) }
        ensures err { OnErr result (reply_of self.new ≡ reply_of self.old) }
    {
        self.wakes.insert(x)?;
        Ok(())
    }

    /// Adds what was done.
    pub fn tell(&mut self, event: Event) -> Result<(), AllocError>
        ensures ok { OnOk result (reply_of self.new ≡ with_event event (reply_of self.old)) }
        ensures err { OnErr result (reply_of self.new ≡ reply_of self.old) }
    {
        self.events.push(event)?;
        Ok(())
    }

    /// Adds a piece of text, unless it is empty.
    pub fn add_text(&mut self, text: Vec<u8>) -> Result<(), AllocError>
        ensures ok { OnOk result (reply_of self.new ≡ (if vec_len text == 0 then reply_of self.old else with_piece (Piece.Text text) (reply_of self.old))) }
        ensures err { OnErr result (reply_of self.new ≡ reply_of self.old) }
    {
        if !text.is_empty() {
            self.pieces.push(Piece::Text(text))?;
        }
        Ok(())
    }

    /// Adds shared bytes, unless there are none.
    pub fn add_shared(&mut self, bytes: Bytes) -> Result<(), AllocError>
        ensures ok { OnOk result (reply_of self.new ≡ (if length bytes == 0 then reply_of self.old else with_piece (Piece.Shared bytes) (reply_of self.old))) }
        ensures err { OnErr result (reply_of self.new ≡ reply_of self.old) }
    {
        if !bytes.is_empty() {
            self.pieces.push(Piece::Shared(bytes))?;
        }
        Ok(())
    }
}
