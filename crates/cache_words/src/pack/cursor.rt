//! A place in bytes that are read from left to right.
ghost use Rattle.std.specs.Prelude.{◌≡◌, ◌<◌, ℕ, slice_index};
ghost use Rattle.cache_words.specs.BorrowedKey.{borrowed_view};
ghost use Rattle.cache_words.specs.Cursor.{IsTaken, IsPassed, Advances, Passes};
ghost use Rattle.cache_words.specs.Forms.{Stands, StandsBelow, numbers, arrays};
ghost use Rattle.cache_words.specs.Items.{SpellsByte, SpellsSeconds, SpellThere, byte_at, seconds_at, there_at};
ghost use Rattle.cache_words.specs.Pack.{SpellOptional, SpellsText, SpellsBytes, SpellsHash, SpellsOptionalHash, SpellsMoment, SpellsOptionalMoment, SpellsKey, IsNil};
ghost use Rattle.cache_words.specs.Reading.{number_at, below_at, array_of_at, text_at, bytes_at, nil_at, hash_at, optional_at, optional_hash_at, moment_at, optional_moment_at, key_at};

use super::fault::PackFault;
use super::{BorrowedKey, reading};
use crate::key::HashBinary;
use crate::time::Moment;

/// The bytes that are still to be read. Each method takes the value at their front, in any of the forms that spell it,
/// and allocates nothing: texts, byte strings and tags are borrowed from the bytes. After a fault the bytes are those
/// before the call.
#[derive(Clone, Copy, Debug)]
pub struct Cursor<'a> {
    /// The bytes that are still to be read.
    pub rest: &'a [u8],
}

impl<'a> Cursor<'a> {
    /// Takes the head of an array, and returns how many items follow.
    pub fn array(&mut self) -> Result<u64, PackFault>
        ensures { IsTaken (λ n. n) (number_at arrays) (Stands arrays) self.old.rest.now self.new.rest.now result }
    {
        self.advance(reading::array(checked(self.rest)))
    }

    /// Takes the head of an array of this length. Another length is `Length`.
    pub fn array_of(&mut self, count: u64) -> Result<(), PackFault>
        ensures { IsPassed (array_of_at count) (Stands arrays count) self.old.rest.now self.new.rest.now result }
    {
        self.pass(reading::array_of(checked(self.rest), count))
    }

    /// Takes a number.
    pub fn number(&mut self) -> Result<u64, PackFault>
        ensures { IsTaken (λ n. n) (number_at numbers) (Stands numbers) self.old.rest.now self.new.rest.now result }
    {
        self.advance(reading::number(checked(self.rest)))
    }

    /// Takes a number below the limit. A greater one is `Range`.
    pub fn number_below(&mut self, limit: u64) -> Result<u64, PackFault>
        ensures { IsTaken (λ n. n) (below_at limit) (StandsBelow limit) self.old.rest.now self.new.rest.now result }
    {
        self.advance(reading::number_below(checked(self.rest), limit))
    }

    /// Takes a number, or nil as `None`.
    pub fn optional_number(&mut self) -> Result<Option<u64>, PackFault>
        ensures { IsTaken (λ n. n) (optional_at (number_at numbers)) (SpellOptional (Stands numbers)) self.old.rest.now self.new.rest.now result }
    {
        self.advance(reading::optional_number(checked(self.rest)))
    }

    /// Takes a number below 2^32. A greater one is `Range`.
    pub fn seconds(&mut self) -> Result<u32, PackFault>
        ensures { IsTaken (λ n. n) seconds_at SpellsSeconds self.old.rest.now self.new.rest.now result }
    {
        self.advance(reading::seconds(checked(self.rest)))
    }

    /// Takes a number that is one byte below 0x80.
    pub fn byte(&mut self) -> Result<u8, PackFault>
        ensures { IsTaken (λ n. n) byte_at SpellsByte self.old.rest.now self.new.rest.now result }
    {
        self.advance(reading::byte(checked(self.rest)))
    }

    /// Takes a text, borrowed.
    pub fn text(&mut self) -> Result<&'a str, PackFault>
        ensures { IsTaken (λ s. s.now) text_at SpellsText self.old.rest.now self.new.rest.now result }
    {
        self.advance(reading::text(checked(self.rest)))
    }

    /// Takes a byte string, borrowed.
    pub fn byte_string(&mut self) -> Result<&'a [u8], PackFault>
        ensures { IsTaken (λ s. s.now) bytes_at SpellsBytes self.old.rest.now self.new.rest.now result }
    {
        self.advance(reading::byte_string(checked(self.rest)))
    }

    /// Takes a hash.
    pub fn hash(&mut self) -> Result<HashBinary, PackFault>
        ensures { IsTaken (λ h. h) hash_at SpellsHash self.old.rest.now self.new.rest.now result }
    {
        self.advance(reading::hash(checked(self.rest)))
    }

    /// Takes a hash, or nil as `None`.
    pub fn optional_hash(&mut self) -> Result<Option<HashBinary>, PackFault>
        ensures { IsTaken (λ h. h) optional_hash_at SpellsOptionalHash self.old.rest.now self.new.rest.now result }
    {
        self.advance(reading::optional_hash(checked(self.rest)))
    }

    /// Takes a moment.
    pub fn moment(&mut self) -> Result<Moment, PackFault>
        ensures { IsTaken (λ m. m) moment_at SpellsMoment self.old.rest.now self.new.rest.now result }
    {
        match reading::moment(checked(self.rest)) {
            Ok((moment, rest)) => {
                self.rest = rest;
                Ok(moment)
            }
            Err(fault) => Err(fault),
        }
    }

    /// Takes a moment, or nil as `None`.
    pub fn optional_moment(&mut self) -> Result<Option<Moment>, PackFault>
        ensures { IsTaken (λ m. m) optional_moment_at SpellsOptionalMoment self.old.rest.now self.new.rest.now result }
    {
        match reading::optional_moment(checked(self.rest)) {
            Ok((moment, rest)) => {
                self.rest = rest;
                Ok(moment)
            }
            Err(fault) => Err(fault),
        }
    }

    /// Takes a kept key, with its tag borrowed.
    pub fn key(&mut self) -> Result<BorrowedKey<'a>, PackFault>
        ensures { IsTaken borrowed_view key_at SpellsKey self.old.rest.now self.new.rest.now result }
    {
        self.advance(reading::key(checked(self.rest)))
    }

    /// Takes nil.
    pub fn nil(&mut self) -> Result<(), PackFault>
        ensures { IsPassed nil_at IsNil self.old.rest.now self.new.rest.now result }
    {
        self.pass(reading::nil(checked(self.rest)))
    }

    /// Takes a hash, or nil as `None`, where one is present. Where none is, takes nothing and returns `None`.
    pub fn hash_there(&mut self, is_there: bool) -> Result<Option<HashBinary>, PackFault>
        ensures { IsTaken (λ h. h) (there_at is_there optional_hash_at) (SpellThere is_there SpellsOptionalHash) self.old.rest.now self.new.rest.now result }
    {
        if is_there {
            self.optional_hash()
        } else {
            Ok(None)
        }
    }

    /// Takes a moment, or nil as `None`, where one is present. Where none is, takes nothing and returns `None`.
    pub fn moment_there(&mut self, is_there: bool) -> Result<Option<Moment>, PackFault>
        ensures { IsTaken (λ m. m) (there_at is_there optional_moment_at) (SpellThere is_there SpellsOptionalMoment) self.old.rest.now self.new.rest.now result }
    {
        if is_there {
            self.optional_moment()
        } else {
            Ok(None)
        }
    }

    // Leaves what a reader left, and returns its value. After its fault nothing is taken.
    fn advance<T: Drop>(&mut self, read: Result<(T, &'a [u8]), PackFault>) -> Result<T, PackFault>
        ensures { Advances (λ y. y.now) self.old.rest.now self.new.rest.now read.entry result }
    {
        let (value, rest) = read?;
        self.rest = rest;
        Ok(value)
    }

    // The same of a reader without a value.
    fn pass(&mut self, read: Result<&'a [u8], PackFault>) -> Result<(), PackFault>
        ensures { Passes (λ y. y.now) self.old.rest.now self.new.rest.now read.entry result }
    {
        self.rest = read?;
        Ok(())
    }
}

// The bytes, with the fact that each is below 256.
fn checked(bytes: &[u8]) -> &[u8]
    ensures same { result.now ≡ bytes.now }
    ensures fits { (i : ℕ) → slice_index result.now i < 256 }
{
    bytes
}
