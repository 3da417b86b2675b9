//! A head that goes on.
ghost use Rattle.std.specs.Prelude.{◌≡◌, ◌≢◌, ◌<◌, ◌≤◌, ◌++◌, ℕ, [], List, length, take, drop, true, IfOk, OnErr};
ghost use Rattle.httparse.specs.Grammar.{HasNoResponse};
ghost use Rattle.head_parse.specs.Heads.{IsToldFront};

use crate::front::{Front, read_front};
use crate::position::{Position, scan};
use std::alloc::{AllocError, Global};
use std::marker::Model;
use std::mem;

// The bytes that came of a head that isn't whole.
#[derive(Drop)]
pub(crate) struct BegunHead {
    bytes: Vec<u8>,
    position: Position,
}

impl Model for BegunHead {
    ghost use Rattle.std.specs.Prelude.{◌≡◌, ℕ, List};
    ghost use Rattle.head_parse.specs.Positions.{position_after};
    ghost use Rattle.head_parse.specs.declared.position.Position.TheVariants.{BeforeText};

    ghost Value = { List ℕ };

    ghost view = { λ b. b.bytes.items };

    ghost invariant = { λ b. b.position ≡ position_after BeforeText b.bytes.items };
}

impl BegunHead {
    // Makes one without bytes.
    pub(crate) fn new(alloc: Global) -> BegunHead
        ensures { result ≡ [] }
    {
        BegunHead {
            bytes: Vec::new(alloc),
            position: Position::BeforeText,
        }
    }

    // Whether no byte came.
    pub(crate) fn is_empty(&self) -> bool
        ensures { result ≡ true → self.now ≡ [] }
    {
        self.bytes.is_empty()
    }

    // Returns the bytes.
    pub(crate) fn into_bytes(self) -> Vec<u8>
        ensures { result.items ≡ self }
    {
        self.bytes
    }

    // Takes the bytes out, and returns those after the first n.
    pub(crate) fn split_after(&mut self, alloc: Global, n: usize) -> Vec<u8>
        requires { n ≤ length self.old }
        ensures { result.items ≡ drop n self.old }
    {
        let mut tail = mem::replace(&mut self.bytes, Vec::new(alloc));
        self.position = Position::BeforeText;
        let left = tail.len() - n;
        tail.rotate_left(n);
        tail.truncate(left);
        tail.shrink_to_fit();
        tail
    }

    // Takes bytes up to the first empty line, or all, and asks the parser after an empty line. Returns how many it took, and
    // what the front of all is.
    fn push(&mut self, alloc: Global, piece: &[u8]) -> Result<(usize, Front), AllocError>
        ensures within { IfOk result (λ r. r.0 ≤ length piece.now) }
        ensures some { IfOk result (λ r. 0 < length piece.now → 0 < r.0) }
        ensures ok { IfOk result (λ r. self.new ≡ self.old ++ take r.0 piece.now) }
        ensures told { IfOk result (λ r. IsToldFront self.new r.1) }
        ensures none { IfOk result (λ r. r.1 ≡ Front.Begun → HasNoResponse self.old → HasNoResponse self.new) }
        ensures err { OnErr result ((more : List ℕ) × (self.new ≡ self.old ++ more)) }
    {
        let (len, position) = scan(self.position, piece);
        self.bytes.extend_from_slice(&piece[..len])?;
        self.position = position;
        if position != Position::AfterEmptyLine {
            return Ok((len, Front::Begun));
        }
        let front = read_front(alloc, &self.bytes)?;
        Ok((len, front))
    }

    // Takes a piece as far as the head goes. Returns how many bytes it took, all where the head goes on, and what the front
    // of all is.
    pub(crate) fn take(&mut self, alloc: Global, piece: &[u8]) -> Result<(usize, Front), AllocError>
        ensures within { IfOk result (λ r. r.0 ≤ length piece.now) }
        ensures ok { IfOk result (λ r. self.new ≡ self.old ++ take r.0 piece.now) }
        ensures told { IfOk result (λ r. IsToldFront self.new r.1) }
        ensures none { IfOk result (λ r. r.1 ≡ Front.Begun → HasNoResponse self.old → HasNoResponse self.new) }
        ensures all { IfOk result (λ r. r.1 ≡ Front.Begun → r.0 ≡ length piece.now) }
        ensures err { OnErr result (self.new ≡ self.old) }
    {
        let (old_len, old_position) = (self.bytes.len(), self.position);
        let mut taken = 0;
        while taken < piece.len() {
            match self.push(alloc, &piece[taken..]) {
                Ok((len, Front::Begun)) => taken += len,
                Ok((len, Front::Found(head))) => return Ok((taken + len, Front::Found(head))),
                Ok((len, Front::Refused)) => return Ok((taken + len, Front::Refused)),
                Err(AllocError) => {
                    self.bytes.truncate(old_len);
                    self.position = old_position;
                    return Err(AllocError);
                }
            }
        }
        Ok((taken, Front::Begun))
    }
}
