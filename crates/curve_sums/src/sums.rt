//! A list of numbers whose first ones are summed.
ghost use Rattle.std.specs.Prelude.{◌≡◌, ◌+◌, ◌-◌, ◌<◌, ◌≤◌, ◌^◌, [], length, sum, take, slice_index, slice_set, MatchOption, IfOk};

use crate::level::{BLOCK, between, blocks_of, first_from, lower, raise};
use std::alloc::{AllocError, Global};
use std::marker::Model;

/// Numbers, which add up to less than 2^64. A clause sees them as a list.
#[derive(Drop)]
pub struct BlockSums {
    cells: Vec<u64>,
    // Sums of blocks of cells, of blocks of these, and so on.
    blocks: Vec<u64>,
    seconds: Vec<u64>,
    thirds: Vec<u64>,
    fourths: Vec<u64>,
    total: u64,
}

impl Model for BlockSums {
    ghost use Rattle.std.specs.Prelude.{ℕ, List, ◌<◌, ◌^◌};
    ghost use Rattle.curve_sums.specs.Levels.{AreLevels};

    ghost Value = { List ℕ };

    ghost view = { λ s. s.cells.items };

    ghost invariant = { λ s. AreLevels s.cells.items s.blocks.items s.seconds.items s.thirds.items s.fourths.items s.total × (s.total < 2 ^ 64) };
}

impl BlockSums {
    /// No numbers.
    pub fn new(alloc: Global) -> BlockSums
        ensures { result ≡ [] }
    {
        BlockSums {
            cells: Vec::new(alloc),
            blocks: Vec::new(alloc),
            seconds: Vec::new(alloc),
            thirds: Vec::new(alloc),
            fourths: Vec::new(alloc),
            total: 0,
        }
    }

    /// These numbers.
    pub fn of(alloc: Global, cells: Vec<u64>) -> Result<BlockSums, AllocError>
        requires { sum cells.items < 2 ^ 64 }
        ensures { IfOk result (λ sums. sums ≡ cells.items) }
    {
        let blocks = blocks_of(alloc, cells.as_slice())?;
        let seconds = blocks_of(alloc, blocks.as_slice())?;
        let thirds = blocks_of(alloc, seconds.as_slice())?;
        let fourths = blocks_of(alloc, thirds.as_slice())?;
        let total = between(fourths.as_slice(), 0, fourths.len());
        Ok(BlockSums {
            cells,
            blocks,
            seconds,
            thirds,
            fourths,
            total,
        })
    }

    /// Their sum.
    pub fn total(&self) -> u64
        ensures { result ≡ sum self.now }
    {
        self.total
    }

    /// The number at a place.
    pub fn get(&self, at: usize) -> u64
        requires { at < length self.now }
        ensures { result ≡ slice_index self.now at }
    {
        self.cells[at]
    }

    /// Adds to the number at a place.
    pub fn add(&mut self, at: usize, more: u64)
        requires within { at < length self.old }
        requires fits { sum self.old + more < 2 ^ 64 }
        ensures { self.new ≡ slice_set self.old at (slice_index self.old at + more) }
    {
        let block = at / BLOCK;
        let second = block / BLOCK;
        let third = second / BLOCK;
        let fourth = third / BLOCK;
        raise(&mut self.cells, at, more);
        raise(&mut self.blocks, block, more);
        raise(&mut self.seconds, second, more);
        raise(&mut self.thirds, third, more);
        raise(&mut self.fourths, fourth, more);
        self.total += more;
    }

    /// Takes from the number at a place.
    pub fn take(&mut self, at: usize, less: u64)
        requires within { at < length self.old }
        requires enough { less ≤ slice_index self.old at }
        ensures { self.new ≡ slice_set self.old at (slice_index self.old at - less) }
    {
        let block = at / BLOCK;
        let second = block / BLOCK;
        let third = second / BLOCK;
        let fourth = third / BLOCK;
        lower(&mut self.cells, at, less);
        lower(&mut self.blocks, block, less);
        lower(&mut self.seconds, second, less);
        lower(&mut self.thirds, third, less);
        lower(&mut self.fourths, fourth, less);
        self.total -= less;
    }

    /// The sum of the numbers up to a place and at it.
    pub fn through(&self, at: usize) -> u64
        requires { at < length self.now }
        ensures { result ≡ sum (take (at + 1) self.now) }
    {
        let block = at / BLOCK;
        let second = block / BLOCK;
        let third = second / BLOCK;
        let fourth = third / BLOCK;
        let fourths = between(self.fourths.as_slice(), 0, fourth);
        let thirds = fourths + between(self.thirds.as_slice(), BLOCK * fourth, third);
        let seconds = thirds + between(self.seconds.as_slice(), BLOCK * third, second);
        let blocks = seconds + between(self.blocks.as_slice(), BLOCK * second, block);
        blocks + between(self.cells.as_slice(), BLOCK * block, at + 1)
    }

    /// The first place whose number isn't 0.
    pub fn first(&self) -> Option<usize>
        ensures { MatchOption result (sum self.now ≡ 0) (λ at. (at < length self.now) × (sum (take at self.now) ≡ 0) × (0 < slice_index self.now at)) }
    {
        if self.total == 0 {
            return None;
        }
        let fourth = first_from(self.fourths.as_slice(), 0);
        let third = first_from(self.thirds.as_slice(), BLOCK * fourth);
        let second = first_from(self.seconds.as_slice(), BLOCK * third);
        let block = first_from(self.blocks.as_slice(), BLOCK * second);
        Some(first_from(self.cells.as_slice(), BLOCK * block))
    }
}
