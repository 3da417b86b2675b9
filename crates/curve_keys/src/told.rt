//! Lifetimes that keys were told.
ghost use Rattle.std.specs.Prelude.{◌≡◌, ℕ, List, OnOk, OnErr};
ghost use Rattle.curve_keys.specs.Pasts.{told_in, IsTold};

use seeded_hashing::SeededState;
use std::alloc::{AllocError, Global};
use std::collections::HashMap;

/// The lifetime that each key was told last.
#[derive(Drop)]
pub struct Lifetimes {
    table: HashMap<Vec<u8>, u64, SeededState>,
}

impl Lifetimes {
    /// No key was told one.
    pub fn new(alloc: Global, hasher: SeededState) -> Lifetimes
        ensures { (key : List ℕ) → told_in result key ≡ 0 }
    {
        Lifetimes {
            table: HashMap::with_hasher(alloc, hasher),
        }
    }

    /// The lifetime of a key; 0 where it was told none.
    pub fn of(&self, key: &[u8]) -> u64
        ensures { result ≡ told_in self.now key.now }
    {
        match self.table.get(key) {
            None => 0,
            Some(lifetime) => *lifetime,
        }
    }

    /// Tells a key a lifetime. Without memory each key keeps its own.
    pub fn tell(&mut self, alloc: Global, key: &[u8], lifetime: u64) -> Result<(), AllocError>
        ensures told { OnOk result (IsTold self.old self.new key.now lifetime) }
        ensures err { OnErr result ((other : List ℕ) → told_in self.new other ≡ told_in self.old other) }
    {
        let mut owned = Vec::with_capacity(alloc, key.len())?;
        owned.extend_from_slice(key)?;
        self.table.insert(owned, lifetime)?;
        Ok(())
    }
}
