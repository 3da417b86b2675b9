//! Responses whose bytes come in pieces.
ghost use Rattle.std.specs.Prelude.{◌≡◌, ◌≤◌, ◌++◌, ℕ, [], List, length, drop, IfOk, OnOk, OnErr};
ghost use Rattle.head_parse.specs.Response.{Gives};
ghost use Rattle.head_parse.specs.Parse.{ParserHolds, IsAt, held_progress, in_body, announced, limited};
ghost use Rattle.head_parse.specs.Stages.{held_of, IsNext};

use crate::begun::BegunHead;
use crate::collected::Collected;
use crate::front::{Front, read_front};
use crate::head::Head;
use crate::read::read_response;
use crate::response::{Parsed, Progress};
use bytes::Bytes;
use std::alloc::{AllocError, Global};
use std::marker::Model;

// How far a response has come, with what is needed of it.
#[derive(Drop)]
pub(crate) enum Stage {
    Head(BegunHead),
    Body(Collected),
    BadHead,
}

/// A response that is read as its bytes come, in pieces that are cut anywhere. What it gives is what the joined pieces give.
///
/// The parser is asked of the first piece, and then where an empty line comes. What comes after the head is shared and not copied,
/// but for a body in more than one piece, whose bytes are copied once. So the cost is linear in the bytes.
#[derive(Drop)]
pub struct ResponseParse {
    alloc: Global,
    stage: Stage,
}

impl Model for ResponseParse {
    ghost use Rattle.head_parse.specs.Parse.{ParserState, held_code};
    ghost use Rattle.head_parse.specs.Stages.{held_of};

    ghost Value = { ParserState };

    ghost coded = { held_code };

    ghost view = { λ p. held_of p.stage };
}

// The stage after a head that is whole in the first piece.
fn found_in(alloc: Global, found: Head, piece: Bytes) -> Stage
    requires { found.len ≤ length piece }
    ensures { held_of result ≡ in_body found.header (limited (announced found.header) (drop found.len piece)) }
{
    let mut rest = piece;
    rest.advance(found.len);
    Stage::Body(Collected::new(found.header, Vec::new(alloc), rest))
}

// The stage after one more piece of a head of which bytes are kept, where it is another.
fn after_more(
    alloc: Global,
    head: &mut BegunHead,
    piece: Bytes,
) -> Result<Option<Stage>, AllocError>
    ensures next { IfOk result (λ next. (bytes : List ℕ) → ParserHolds bytes (held_of (Stage.Head head.old))
        → IsNext (bytes ++ piece) head.new next) }
    ensures err { OnErr result (head.new ≡ head.old) }
{
    let (len, front) = head.take(alloc, piece.as_slice())?;
    match front {
        Front::Begun => Ok(None),
        Front::Refused => Ok(Some(Stage::BadHead)),
        Front::Found(found) => {
            let first = head.split_after(alloc, found.len);
            let mut rest = piece;
            rest.advance(len);
            let body = Collected::new(found.header, first, rest);
            Ok(Some(Stage::Body(body)))
        }
    }
}

// The stage after one more piece of a head, where it is another. A first piece is read where it is, so that the bytes of a head
// that is whole in it are not kept.
fn after_head(
    alloc: Global,
    head: &mut BegunHead,
    piece: Bytes,
) -> Result<Option<Stage>, AllocError>
    ensures next { IfOk result (λ next. (bytes : List ℕ) → ParserHolds bytes (held_of (Stage.Head head.old))
        → IsNext (bytes ++ piece) head.new next) }
    ensures err { OnErr result (head.new ≡ head.old) }
{
    if !head.is_empty() {
        return after_more(alloc, head, piece);
    }
    match read_front(alloc, piece.as_slice())? {
        Front::Begun => after_more(alloc, head, piece),
        Front::Refused => Ok(Some(Stage::BadHead)),
        Front::Found(found) => Ok(Some(found_in(alloc, found, piece))),
    }
}

impl ResponseParse {
    /// Makes a parser to which nothing has come. It takes no memory.
    pub fn new(alloc: Global) -> ResponseParse
        ensures { ParserHolds [] result }
    {
        ResponseParse {
            alloc,
            stage: Stage::Head(BegunHead::new(alloc)),
        }
    }

    // How far the response has come.
    fn progress(&self) -> Progress
        ensures { result ≡ held_progress self.now }
    {
        match &self.stage {
            Stage::Head(_) => Progress::Head,
            Stage::Body(body) => body.progress(),
            Stage::BadHead => Progress::BadHead,
        }
    }

    /// Takes the next piece, and returns how far the response has come. Bytes after the body are ignored. A head is kept until it
    /// ends, however long: a caller that reads from attackers bounds how many bytes come before its end.
    ///
    /// # Errors
    ///
    /// `AllocError` where memory runs out: the parser is as before.
    pub fn inject_data(&mut self, piece: Bytes) -> Result<Progress, AllocError>
        ensures holds { OnOk result ((bytes : List ℕ) → ParserHolds bytes self.old → ParserHolds (bytes ++ piece) self.new) }
        ensures progress { IfOk result (λ progress. (bytes : List ℕ) → ParserHolds bytes self.old → IsAt (bytes ++ piece) progress) }
        ensures err { OnErr result (self.new ≡ self.old) }
    {
        let next = match &mut self.stage {
            Stage::Head(head) => after_head(self.alloc, head, piece)?,
            Stage::Body(body) => {
                body.push(piece)?;
                return Ok(body.progress());
            }
            Stage::BadHead => return Ok(Progress::BadHead),
        };
        let Some(stage) = next else {
            return Ok(Progress::Head);
        };
        self.stage = stage;
        Ok(self.progress())
    }

    /// Returns what the pieces give, where no more come.
    ///
    /// # Errors
    ///
    /// `AllocError` where memory runs out: the parser is spent.
    pub fn finish(self) -> Result<Parsed, AllocError>
        ensures { IfOk result (λ parsed. (bytes : List ℕ) → ParserHolds bytes self → Gives bytes parsed) }
    {
        let ResponseParse { alloc, stage } = self;
        match stage {
            Stage::Head(head) => {
                let bytes = Bytes::from_vec(head.into_bytes())?;
                read_response(alloc, bytes)
            }
            Stage::Body(body) => body.finish(),
            Stage::BadHead => Ok(Parsed::BadHead),
        }
    }
}
