//! Bodies as they come.
ghost use Rattle.std.specs.Prelude.{◌≡◌, ◌+◌, ◌^◌, ◌<◌, length, IfOk, OnErr};
ghost use Rattle.rules_ffi_arguments.specs.Given.{Gives};
ghost use Rattle.rules_ffi_results.specs.Bodies.{LiesIn, decoded};
ghost use Rattle.gateway_rules.specs.Bodies.{body_of, unread, piece_of, decoding_of, ending, with_content, decoded_in};
ghost use Rattle.gateway_rules.specs.Options.{options_of};
ghost use Rattle.gateway_rules.specs.Rooms.{GivesWithin};

use crate::Rules;
use crate::rooms::text_in;
use crate::values::Body;
use rules_ffi_arguments::bad::Bad;
use rules_ffi_arguments::shapes::{BodyShape, PieceShape};
use rules_ffi_results::body::decode;
use rules_ffi_results::laws::pieces_lie_in_the_bytes;
use rules_ffi_results::marks::{DATA, NO_ROOM, NOWHERE, OVER, REFUSED};

/// All that bytes have of a body.
#[derive(Drop)]
pub struct Decoded {
    /// The data.
    pub piece: Vec<u8>,
    /// How many bytes are done with.
    pub used: u64,
    /// Whether it is over.
    pub over: bool,
    /// Why it is broken, or 0.
    pub bad: u64,
}

/// The next piece of a body: the text of its trailers, what is told, and how far it was read then.
#[derive(Drop)]
pub struct Piece {
    text: Vec<u8>,
    told: PieceShape,
    shape: BodyShape,
}

fn no_piece() -> PieceShape {
    PieceShape {
        status: 0,
        needed: 0,
        reason: 0,
        from: 0,
        to: 0,
        used: 0,
        trailers: NOWHERE,
    }
}

impl Rules {
    /// A body of this framing, none of which came.
    pub fn decoder(&self, framing: u64, length: u64) -> Body
        ensures { body_of result ≡ unread (options_of self.now) framing length }
    {
        Body {
            shape: BodyShape {
                framing,
                length,
                most: self.max_head_bytes(),
                state: 0,
                size: 0,
                extensions: 0,
                scanned: 0,
                reserved: 0,
            },
            trailers: Vec::new(self.alloc),
        }
    }

    // The next piece of a body, whose trailers alone want a room: of so many bytes, or how many they have.
    fn piece_within(
        &self,
        body: &BodyShape,
        bytes: &[u8],
        size: usize,
    ) -> Result<Result<Piece, u64>, Bad>
        ensures { GivesWithin piece_of result size (decoded body.now bytes.now) }
    {
        let mut room = vec![in self.alloc; 0u8; size]?;
        let mut shape = *body;
        let mut told = no_piece();
        decode(
            self.alloc,
            &mut shape,
            bytes,
            room.as_mut_slice(),
            &mut told,
        );
        if told.status == NO_ROOM {
            return Ok(Err(told.needed));
        }
        match text_in(room, told.status, told.trailers.to) {
            Ok(text) => Ok(Ok(Piece { text, told, shape })),
            Err(bad) => Err(bad),
        }
    }

    // The next piece of a body.
    fn piece(&self, body: &BodyShape, bytes: &[u8]) -> Result<Piece, Bad>
        ensures { Gives piece_of result (decoded body.now bytes.now) }
    {
        match self.piece_within(body, bytes, 0)? {
            Ok(piece) => Ok(piece),
            Err(needed) => match self.piece_within(body, bytes, needed as usize)? {
                Ok(piece) => Ok(piece),
                Err(_) => Err(Bad::Call),
            },
        }
    }

    // The same; data takes a byte at least, and all of it lies in the bytes.
    fn next_piece(&self, body: &BodyShape, bytes: &[u8]) -> Result<Piece, Bad>
        ensures gives { Gives piece_of result (decoded body.now bytes.now) }
        ensures lies { IfOk result (λ p. LiesIn p.told (length bytes.now)) }
        ensures takes { IfOk result (λ p. p.told.status ≡ 71 → 0 < p.told.used) }
    {
        pieces_lie_in_the_bytes();
        self.piece(body, bytes)
    }

    /// All that these bytes have of a body. Without memory the body is as it was.
    pub fn decoded(&self, body: &mut Body, given: &[u8]) -> Result<Decoded, Bad>
        ensures gives { Gives (λ d. (decoding_of d, body_of body.new)) result (decoded_in (body_of body.old) given.now) }
        ensures same { OnErr result (body.new ≡ body.old) }
    {
        let mut content = Vec::new(self.alloc);
        let mut used: usize = 0;
        let mut piece = match self.next_piece(&body.shape, given) {
            Ok(piece) => piece,
            Err(bad) => return Err(bad),
        };
        while piece.told.status == DATA {
            let left = &given[used..];
            content.extend_from_slice(&left[piece.told.from as usize..piece.told.to as usize])?;
            used += piece.told.used as usize;
            piece = match self.next_piece(&piece.shape, &given[used..]) {
                Ok(piece) => piece,
                Err(bad) => return Err(bad),
            };
        }
        Ok(ended(body, piece, content, used))
    }
}

// The body behind a piece without data, and what was read in front of that.
fn ended(body: &mut Body, piece: Piece, content: Vec<u8>, used: usize) -> Decoded
    requires { used + piece.told.used < 2 ^ 64 }
    ensures { (decoding_of result, body_of body.new) ≡ with_content content.items used (ending (body_of body.old).0 (piece_of piece)) }
{
    let Piece { text, told, shape } = piece;
    body.shape = shape;
    if told.status == OVER {
        body.trailers = text;
    }
    Decoded {
        piece: content,
        used: used as u64 + told.used,
        over: told.status == OVER,
        bad: if told.status == REFUSED {
            told.reason.max(1)
        } else {
            0
        },
    }
}
