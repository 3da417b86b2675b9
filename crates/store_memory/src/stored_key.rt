//! Stored keys as keys of maps.
ghost use Rattle.std.specs.Prelude.{◌≡◌, ◌∷◌, [], take, drop, nat_eq};
ghost use Rattle.std.specs.Cmp.Lexicographic.{pointwise, nat_list_eq_equiv};
ghost use Rattle.std.specs.Cmp.{partial_equiv_from_equiv};
ghost use Rattle.std.specs.Cmp.Rules.{hashing};
ghost use Rattle.std.proofs.Common.{rules};

use cache_words::key::HashBinary;
use std::hash::{Hash, Hasher};
use std::marker::Model;

// A stored key whose bytes are hashed in two writes, and not one by one as those of an array are.
#[derive(Drop)]
pub(crate) struct StoredKey {
    bytes: HashBinary,
}

impl Model for StoredKey {
    ghost use Rattle.std.specs.Prelude.{ℕ, List};

    ghost Value = { List ℕ };

    ghost view = { λ k. k.bytes };
}

impl StoredKey {
    pub(crate) fn new(bytes: HashBinary) -> StoredKey
        ensures { result ≡ bytes }
    {
        StoredKey { bytes }
    }
}

impl PartialEq for StoredKey {
    ghost eq = { pointwise nat_eq };

    ghost laws = { partial_equiv_from_equiv nat_list_eq_equiv };

    fn eq(&self, other: &StoredKey) -> bool {
        self.bytes == other.bytes
    }
}

impl Eq for StoredKey {
    ghost laws = { nat_list_eq_equiv };
}

impl Hash for StoredKey {
    ghost hash_input = { λ k. take 8 k ∷ drop 8 k ∷ [] };

    ghost respects_eq = { Prim.search (hashing, rules) };

    fn hash<H: Hasher>(&self, state: &mut H) {
        // In one write of both halves std's hasher multiplies them, so that whoever chooses one can make the product 0.
        let (front, back) = self.bytes.split_at(8);
        state.write(front);
        state.write(back);
    }
}
