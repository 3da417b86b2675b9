//! Hashes of keys.

ghost use Rattle.std.specs.Prelude.{◌≡◌};
ghost use Rattle.lru_async.specs.Hashes.{key_hash};

use std::hash::{FoldHasher, Hash, Hasher};

/// Returns the hash of a key, which names its row and its shard. It starts at a fixed place: attackers who choose keys can choose
/// some of one hash, which share a row.
pub fn hash_key<K: Hash>(key: &K) -> u64
    ensures { result ≡ key_hash (K.hash_input key.now) }
{
    let mut state = FoldHasher::default();
    key.hash(&mut state);
    state.finish()
}
