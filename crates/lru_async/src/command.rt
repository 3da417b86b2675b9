//! What travels to an actor.

use crossbeam_channel::Sender;
use lru_actors::Message;
use lru_core::lru_unit::LruFault;
use std::alloc::AllocError;

// A command to the actor of a shard. Replies go to the sender with it.
#[derive(Drop)]
pub(crate) enum Command<K> {
    // Apply the message.
    Apply(Message<K>),
    // Put the key under a new hash at the back, and say whether it was new, or why it was refused.
    InsertTail(u64, K, usize, Sender<Result<bool, LruFault<K>>>),
    // Move the hash to the front, and say whether it was there.
    Promote(u64, Sender<bool>),
    // Tell the weight of the hash.
    PeekWeight(u64, Sender<Option<usize>>),
    // Tell the last row.
    PeekLru(Sender<Result<Option<(K, usize)>, AllocError>>),
    // Tell all rows, most recent first.
    Snapshot(Sender<Result<Vec<(K, usize)>, AllocError>>),
    // Tell the weight of all rows.
    Weigh(Sender<usize>),
    // Take last rows out while a limit is passed, into the room that is handed over.
    Evict(Vec<(K, usize)>, Sender<Vec<(K, usize)>>),
}
