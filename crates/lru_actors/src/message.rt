//! Messages to the actors of shards.

ghost use Rattle.std.specs.Prelude.{◌≡◌};
ghost use Rattle.lru_actors.specs.Messages.{hash_of};

/// A change of a shard, as it travels to the shard's actor. A shard's rows are keyed by the hashes of their keys, so two keys of one
/// hash share a row.
#[derive(Debug, Drop)]
pub enum Message<K> {
    /// Puts the key under its hash at the front, with that weight, of 1 at least, in place of what the hash had.
    Admit(u64, K, usize),
    /// Puts the key under a new hash at the back, with its weight as it is. Nothing changes if the hash is there.
    InsertTail(u64, K, usize),
    /// Moves the hash to the front.
    Promote(u64),
    /// Takes the row of the hash out.
    Remove(u64),
    /// Adds to the weight of the hash, up to a cap, if there is one, but never down, or puts the key under its hash with that weight,
    /// of 1 at least. The hash moves to the front.
    IncrementWeight(u64, K, usize, Option<usize>),
}

impl<K> Message<K> {
    /// Returns the hash that the message names.
    pub fn hash(&self) -> u64
        ensures { result ≡ hash_of self.now }
    {
        match self {
            Message::Admit(hash, _, _) => *hash,
            Message::InsertTail(hash, _, _) => *hash,
            Message::Promote(hash) => *hash,
            Message::Remove(hash) => *hash,
            Message::IncrementWeight(hash, _, _, _) => *hash,
        }
    }
}
