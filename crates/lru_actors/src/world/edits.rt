//! Messages, each applied to its shard.

ghost use Rattle.std.specs.Prelude.{◌≡◌, ◌%◌, IfErr, OnOk, OnErr};
ghost use Rattle.lru_core.specs.Cores.{shard_of, shard_bound};
ghost use Rattle.lru_actors.specs.Messages.{hash_of, lost, IsReason};
ghost use Rattle.lru_actors.specs.Steps.{applied};

use crate::message::Message;
use lru_core::LruCore;
use lru_core::lru_unit::LruFault;
use std::hash::BuildHasher;

// Applies a message to the shard of its hash. A refusal changes nothing, and hands the message back.
pub(super) fn apply<K: Drop, const N: usize, S: BuildHasher>(
    core: &mut LruCore<K, N, S>,
    message: Message<K>,
) -> Result<(), LruFault<Message<K>>>
    ensures after { OnOk result (core.new ≡ applied N core.old message) }
    ensures err { OnErr result (core.new ≡ core.old) }
    ensures back { IfErr result (λ fault. lost fault ≡ message) }
    ensures reason { IfErr result (λ fault. IsReason message (shard_bound N) (shard_of N core.old (hash_of message)) fault) }
{
    match message {
        Message::Admit(hash, key, weight) => admit(core, hash, key, weight),
        Message::InsertTail(hash, key, weight) => insert_tail(core, hash, key, weight),
        Message::Promote(hash) => {
            let _found = core.promote(hash);
            Ok(())
        }
        Message::Remove(hash) => {
            let _gone = core.remove(hash);
            Ok(())
        }
        Message::IncrementWeight(hash, key, delta, cap) => {
            increment_weight(core, hash, key, delta, cap)
        }
    }
}

fn admit<K: Drop, const N: usize, S: BuildHasher>(
    core: &mut LruCore<K, N, S>,
    hash: u64,
    key: K,
    weight: usize,
) -> Result<(), LruFault<Message<K>>>
    ensures after { OnOk result (core.new ≡ applied N core.old (Message.Admit hash key weight)) }
    ensures err { OnErr result (core.new ≡ core.old) }
    ensures back { IfErr result (λ fault. lost fault ≡ Message.Admit hash key weight) }
    ensures reason { IfErr result (λ fault. IsReason (Message.Admit hash key weight) (shard_bound N) (shard_of N core.old hash) fault) }
{
    match core.admit(hash, key, weight) {
        Ok(_) => Ok(()),
        Err(LruFault::Memory(key)) => Err(LruFault::Memory(Message::Admit(hash, key, weight))),
        Err(LruFault::Weight(key)) => Err(LruFault::Weight(Message::Admit(hash, key, weight))),
        Err(LruFault::Length(key)) => Err(LruFault::Length(Message::Admit(hash, key, weight))),
    }
}

fn insert_tail<K: Drop, const N: usize, S: BuildHasher>(
    core: &mut LruCore<K, N, S>,
    hash: u64,
    key: K,
    weight: usize,
) -> Result<(), LruFault<Message<K>>>
    ensures after { OnOk result (core.new ≡ applied N core.old (Message.InsertTail hash key weight)) }
    ensures err { OnErr result (core.new ≡ core.old) }
    ensures back { IfErr result (λ fault. lost fault ≡ Message.InsertTail hash key weight) }
    ensures reason { IfErr result (λ fault. IsReason (Message.InsertTail hash key weight) (shard_bound N) (shard_of N core.old hash) fault) }
{
    let _n = core.shards();
    match core.insert_tail(hash, key, weight) {
        Ok(_) => Ok(()),
        Err(LruFault::Memory(key)) => Err(LruFault::Memory(Message::InsertTail(hash, key, weight))),
        Err(LruFault::Weight(key)) => Err(LruFault::Weight(Message::InsertTail(hash, key, weight))),
        Err(LruFault::Length(key)) => Err(LruFault::Length(Message::InsertTail(hash, key, weight))),
    }
}

fn increment_weight<K: Drop, const N: usize, S: BuildHasher>(
    core: &mut LruCore<K, N, S>,
    hash: u64,
    key: K,
    delta: usize,
    cap: Option<usize>,
) -> Result<(), LruFault<Message<K>>>
    ensures after { OnOk result (core.new ≡ applied N core.old (Message.IncrementWeight hash key delta cap)) }
    ensures err { OnErr result (core.new ≡ core.old) }
    ensures back { IfErr result (λ fault. lost fault ≡ Message.IncrementWeight hash key delta cap) }
    ensures reason { IfErr result (λ fault. IsReason (Message.IncrementWeight hash key delta cap) (shard_bound N) (shard_of N core.old hash) fault) }
{
    match core.increment_weight(hash, move || key, delta, cap) {
        Ok(_) => Ok(()),
        Err(LruFault::Memory(back)) => {
            let message = Message::IncrementWeight(hash, back(), delta, cap);
            Err(LruFault::Memory(message))
        }
        Err(LruFault::Weight(back)) => {
            let message = Message::IncrementWeight(hash, back(), delta, cap);
            Err(LruFault::Weight(message))
        }
        Err(LruFault::Length(back)) => {
            let message = Message::IncrementWeight(hash, back(), delta, cap);
            Err(LruFault::Length(message))
        }
    }
}
