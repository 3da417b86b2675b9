//! What bytes are written to.
ghost use Rattle.std.specs.Prelude.{◌≡◌, ◌+◌, ◌≤◌, ◌++◌, ℕ, List, length, OnOk, IsOk, vec_len, vec_capacity};
ghost use Rattle.std.proofs.Common.{◌∙◌, ap, append_assoc, arith, refl, subst};
ghost use Rattle.cache_words.specs.Hasher.{Hasher, Holds};

use crate::blake::Blake2b128;
use std::alloc::AllocError;

/// What takes bytes: a `Vec` keeps them, a hasher adds them to its message.
pub trait Sink {
    // The first became the second by taking these bytes.
    ghost adds: { Self → List ℕ → Self → Type 0 };

    // The second holds what the first did.
    ghost same: { Self → Self → Type 0 };

    // It has memory for so many more bytes.
    ghost has_room: { Self → ℕ → Type 0 };

    /// Makes room for that many more bytes.
    fn reserve(&mut self, count: usize) -> Result<(), AllocError>
        ensures same { same self.old self.new }
        ensures room { OnOk result (has_room self.new count) }
        ensures succeeds { has_room self.old count → IsOk result };

    /// Takes the bytes, for which there is room.
    fn put(&mut self, bytes: &[u8])
        requires { has_room self.old (length bytes.now) }
        ensures adds { adds self.old bytes.now self.new }
        ensures room { (n : ℕ) → has_room self.old (length bytes.now + n) → has_room self.new n };

    ghost joins: { (a b c : Self) (x y : List ℕ) → adds a x b → adds b y c → adds a (x ++ y) c };

    ghost follows_same: { (a b c : Self) (x : List ℕ) → same a b → adds b x c → adds a x c };

    ghost same_self: { (s : Self) → same s s };

    ghost less_room: { (s : Self) (m n : ℕ) → m ≤ n → has_room s n → has_room s m };
}

impl Sink for Vec<u8> {
    ghost adds = { λ a x b. b.items ≡ a.items ++ x };

    ghost same = { λ a b. b.items ≡ a.items };

    ghost has_room = { λ v n. vec_len v + n ≤ vec_capacity v };

    ghost joins = { λ a b c x y p q. q ∙ (ap (λ (t : List ℕ). t ++ y) p ∙ append_assoc a.items x y) };

    ghost follows_same = { λ a b c x p q. q ∙ ap (λ (t : List ℕ). t ++ x) p };

    ghost same_self = { λ s. refl };

    ghost less_room = { λ s m n le fits. Prim.omega arith };

    fn reserve(&mut self, count: usize) -> Result<(), AllocError> {
        Vec::reserve(self, count)
    }

    fn put(&mut self, bytes: &[u8]) {
        let _ = self.extend_from_slice(bytes);
    }
}

impl Sink for Blake2b128 {
    ghost adds = { λ a x b. (m : List ℕ) → Holds a m → Holds b (m ++ x) };

    ghost same = { λ a b. (m : List ℕ) → Holds a m → Holds b m };

    ghost has_room = { λ s n. Unit {0} };

    ghost joins = { λ a b c x y p q m h. subst (λ (t : List ℕ). Holds c t) (append_assoc m x y) (q (m ++ x) (p m h)) };

    ghost follows_same = { λ a b c x p q m h. q m (p m h) };

    ghost same_self = { λ s m h. h };

    ghost less_room = { λ s m n le fits. tt };

    fn reserve(&mut self, _count: usize) -> Result<(), AllocError> {
        Ok(())
    }

    fn put(&mut self, bytes: &[u8]) {
        self.update(bytes);
    }
}
