//! Which bytes of a body a client is sent next, as they come.
ghost use Rattle.std.specs.Prelude.{◌≡◌};
ghost use Rattle.gateway_frames.specs.Pieces.{next_piece, relayed_bytes, end_there, is_sent};

/// How far a body has come.
#[derive(Clone, Copy)]
pub enum Came {
    /// More of it comes.
    GoesOn,
    /// All of it is there.
    Complete,
    /// It broke off.
    Truncated,
}

/// What is known of a body, and of the part of it that a client is sent.
#[derive(Clone, Copy)]
pub struct Sending {
    /// The place of the next byte that the client is sent.
    pub place: u64,
    /// The place behind the part's last byte; none: it ends with the body.
    pub to: Option<u64>,
    /// So many bytes of the body are there.
    pub there: u64,
    /// Whether more come.
    pub came: Came,
    /// The most bytes that are wanted now.
    pub most: u64,
}

/// What the client is sent next.
#[derive(Clone, Copy)]
pub enum NextPiece {
    /// The bytes of the body from a place up to, and without, another.
    Bytes(u64, u64),
    /// What ends the body.
    End,
    /// Nothing yet.
    Wait,
    /// Nothing more: the body broke off, and nothing says that it ended.
    Truncate,
}

/// Which bytes are sent next.
pub fn next_piece(sending: &Sending) -> NextPiece
    ensures { result ≡ next_piece sending.now }
{
    if is_sent(sending) {
        return NextPiece::End;
    }
    let end = end_there(sending);
    if sending.place < end {
        return if sending.most == 0 {
            NextPiece::Wait
        } else {
            let size = sending.most.min(end - sending.place);
            NextPiece::Bytes(sending.place, sending.place + size)
        };
    }
    match (sending.came, sending.to) {
        (Came::GoesOn, _) => NextPiece::Wait,
        (Came::Complete, None) => NextPiece::End,
        _ => NextPiece::Truncate,
    }
}

fn is_sent(sending: &Sending) -> bool
    ensures { result ≡ is_sent sending.now }
{
    match sending.to {
        Some(to) => to <= sending.place,
        None => false,
    }
}

fn end_there(sending: &Sending) -> u64
    ensures { result ≡ end_there sending.now }
{
    match sending.to {
        Some(to) => sending.there.min(to),
        None => sending.there,
    }
}

/// Of a body's next bytes, those of a part.
#[derive(Clone, Copy)]
pub struct Relayed {
    /// The first of them.
    pub from: u64,
    /// The place behind the last; no greater than `from` where there are none.
    pub to: u64,
    /// The part ends with them, or before them.
    pub is_last: bool,
}

/// Which of a body's next bytes the client gets, who is sent a part of it: so many bytes came before, and so many come now.
pub fn relayed_bytes(from: u64, to: Option<u64>, before: u64, len: u64) -> Relayed
    ensures { result ≡ relayed_bytes from to before len }
{
    let first = from.saturating_sub(before).min(len);
    match to {
        None => Relayed {
            from: first,
            to: len,
            is_last: false,
        },
        Some(to) => {
            let left = to.saturating_sub(before);
            Relayed {
                from: first,
                to: left.min(len),
                is_last: left <= len,
            }
        }
    }
}
