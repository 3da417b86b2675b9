//! Calls of the table from keys to indexes, by what a look-up gives.

ghost use Rattle.std.specs.Prelude.{◌≡◌, ℕ, ◌<◌, ◌≤◌, None, Some, OnOk, OnErr, nat_eq};
ghost use Rattle.std.specs.HashMap.{get, spare};

use std::alloc::AllocError;
use std::collections::HashMap;
use std::hash::BuildHasher;

pub(super) fn index_of<S: BuildHasher>(table: &HashMap<u64, usize, S>, key: u64) -> Option<usize>
    ensures { result ≡ get nat_eq table.now key }
{
    table.get(&key).copied()
}

pub(super) fn take_key<S: BuildHasher>(
    table: &mut HashMap<u64, usize, S>,
    key: u64,
) -> Option<usize>
    ensures value { result ≡ get nat_eq table.old key }
    ensures gone { get nat_eq table.new key ≡ None }
    ensures kept { (q : ℕ) → (q ≡ key → ⊥) → get nat_eq table.new q ≡ get nat_eq table.old q }
{
    table.remove(&key)
}

pub(super) fn put_key<S: BuildHasher>(table: &mut HashMap<u64, usize, S>, key: u64, i: usize)
    requires { 0 < spare table.old }
    ensures here { get nat_eq table.new key ≡ Some i }
    ensures kept { (q : ℕ) → (q ≡ key → ⊥) → get nat_eq table.new q ≡ get nat_eq table.old q }
{
    let inserted: Result<_, _> = table.insert(key, i);
    let _old = inserted.unwrap();
}

pub(super) fn room_for<S: BuildHasher>(
    table: &mut HashMap<u64, usize, S>,
    additional: usize,
) -> Result<(), AllocError>
    ensures same { (q : ℕ) → get nat_eq table.new q ≡ get nat_eq table.old q }
    ensures ok { OnOk result (additional ≤ spare table.new) }
    ensures refused { OnErr result (0 < additional) }
{
    table.reserve(additional)
}
