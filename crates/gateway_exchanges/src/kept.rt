//! Bytes that are kept for a while.
ghost use Rattle.std.specs.Prelude.{◌≡◌, ◌≤◌, ◌++◌, [], length, drop, OnOk, OnErr};

use std::alloc::{AllocError, Global};
use std::marker::Model;

/// Bytes of which the first may go. Those stay for a while in front of the others, so that each byte is moved once at most on an average.
#[derive(Drop)]
pub struct KeptBytes {
    bytes: Vec<u8>,
    // So many in front are gone.
    gone: usize,
}

impl Model for KeptBytes {
    ghost use Rattle.std.specs.Prelude.{◌≤◌, ℕ, List, drop, length};

    ghost Value = { List ℕ };

    ghost view = { λ k. drop k.gone k.bytes.items };

    ghost invariant = { λ k. k.gone ≤ length k.bytes.items };
}

impl KeptBytes {
    /// None. It takes no memory.
    pub fn new(alloc: Global) -> KeptBytes
        ensures { result ≡ [] }
    {
        KeptBytes {
            bytes: Vec::new(alloc),
            gone: 0,
        }
    }

    /// How many there are.
    pub fn len(&self) -> usize
        ensures { result ≡ length self.now }
    {
        self.bytes.len() - self.gone
    }

    /// Adds bytes.
    pub fn add(&mut self, piece: &[u8]) -> Result<(), AllocError>
        ensures ok { OnOk result (self.new ≡ self.old ++ piece.now) }
        ensures err { OnErr result (self.new ≡ self.old) }
    {
        self.bytes.extend_from_slice(piece)?;
        Ok(())
    }

    /// Lets the first ones go.
    pub fn drop_front(&mut self, count: usize)
        ensures { self.new ≡ drop count self.old }
    {
        let gone = self.gone + count.min(self.bytes.len() - self.gone);
        if gone < self.bytes.len() - gone {
            self.gone = gone;
        } else {
            self.gone = 0;
            cut_front(&mut self.bytes, gone);
        }
    }

    /// Those from a place on.
    pub fn from(&self, place: usize) -> &[u8]
        ensures { result.now ≡ drop place self.now }
    {
        let place = self.gone + place.min(self.bytes.len() - self.gone);
        &self.bytes.as_slice()[place..]
    }
}

// Moves the bytes behind the first ones to the front.
fn cut_front(bytes: &mut Vec<u8>, count: usize)
    requires { count ≤ length bytes.old.items }
    ensures { bytes.new.items ≡ drop count bytes.old.items }
{
    let left = bytes.len() - count;
    bytes.copy_within(count.., 0);
    bytes.truncate(left);
}
