//! The numbers of a key's alive writes. Nearly every key has at most one.
ghost use Rattle.std.specs.Prelude.{◌≡◌, ◌==◌, ℕ, ◌≤◌, ◌||◌, ◌&&◌, not, true, false, IfSome, IfNone, IfOk, IfErr, OnOk, OnErr};
ghost use Rattle.std.specs.Ordering.{nat_cmp};
ghost use Rattle.std.specs.BTreeSet.{contains};
ghost use Rattle.cache_store.specs.declared.storage.StoreFault.{StoreFault as Fault};
ghost use Rattle.store_memory.specs.Alive.{is_among};

use cache_store::storage::StoreFault;
use std::alloc::Global;
use std::collections::BTreeSet;

#[derive(Drop)]
pub(crate) enum Numbers {
    One(u64),
    Several(BTreeSet<u64>),
}

// Returns the set of two numbers.
fn pair(alloc: Global, one: u64, other: u64) -> Result<BTreeSet<u64>, StoreFault>
    ensures fault { IfErr result (λ f. f ≡ Fault.Memory) }
    ensures ok { IfOk result (λ s. (n : ℕ) → contains nat_cmp s n ≡ ((one == n) || (other == n))) }
{
    let mut numbers = BTreeSet::new(alloc);
    if numbers.insert(one).is_err() || numbers.insert(other).is_err() {
        return Err(StoreFault::Memory);
    }
    Ok(numbers)
}

impl Numbers {
    // Adds a number.
    pub(crate) fn add(&mut self, alloc: Global, number: u64) -> Result<(), StoreFault>
        ensures ok { OnOk result ((n : ℕ) → is_among self.new n ≡ (is_among self.old n || (number == n))) }
        ensures err { OnErr result ((n : ℕ) → is_among self.new n ≡ is_among self.old n) }
        ensures fault { IfErr result (λ f. f ≡ Fault.Memory) }
    {
        match self {
            Numbers::One(one) => match pair(alloc, *one, number) {
                Ok(numbers) => {
                    *self = Numbers::Several(numbers);
                    Ok(())
                }
                Err(fault) => Err(fault),
            },
            Numbers::Several(numbers) => match numbers.insert(number) {
                Ok(_) => Ok(()),
                Err(_) => Err(StoreFault::Memory),
            },
        }
    }

    // Takes a number out, and returns whether another is left. Where none is, the numbers are not to be used again.
    pub(crate) fn take_out(&mut self, number: u64) -> bool
        ensures left { result ≡ true → (n : ℕ) → is_among self.new n ≡ (is_among self.old n && not (number == n)) }
        ensures none { result ≡ false → (n : ℕ) → (is_among self.old n && not (number == n)) ≡ false }
    {
        match self {
            Numbers::One(one) => *one != number,
            Numbers::Several(numbers) => {
                numbers.remove(&number);
                !numbers.is_empty()
            }
        }
    }

    // Returns whether a number is among them.
    pub(crate) fn contains(&self, number: u64) -> bool
        ensures { result ≡ is_among self.now number }
    {
        match self {
            Numbers::One(one) => *one == number,
            Numbers::Several(numbers) => numbers.contains(&number),
        }
    }

    // Returns the least.
    pub(crate) fn first(&self) -> Option<u64>
        ensures some { IfSome result (λ n. (is_among self.now n ≡ true) × ((m : ℕ) → is_among self.now m ≡ true → n ≤ m)) }
        ensures none { IfNone result ((m : ℕ) → is_among self.now m ≡ false) }
    {
        match self {
            Numbers::One(one) => Some(*one),
            Numbers::Several(numbers) => numbers.first().copied(),
        }
    }
}
