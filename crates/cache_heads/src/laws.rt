//! Laws of metas. Each is the contract of a function with an empty body.
ghost use Rattle.std.specs.Prelude.{◌≡◌, ◌++◌, List, ℕ, Ok};
ghost use Rattle.head_metas.specs.Head.{written_head};
ghost use Rattle.head_metas.specs.Internal.{written_meta};
ghost use Rattle.cache_heads.specs.declared.meta.CacheMeta.{CacheMeta};
ghost use Rattle.cache_heads.specs.MetaBytes.{BeginWithMeta, CanBeWritten, cache_meta_at, plain_meta};

/// `deserialize` reads what `serialize` wrote as the same meta with plain values, whatever follows the halves.
pub fn meta_is_read_again()
    ensures begins { (m : CacheMeta) (a b : List ℕ) → CanBeWritten m → BeginWithMeta (written_meta m.internal ++ a) (written_head m.header ++ b) (plain_meta m) }
    ensures read { (m : CacheMeta) (a b : List ℕ) → CanBeWritten m → cache_meta_at (written_meta m.internal ++ a) (written_head m.header ++ b) ≡ Ok (plain_meta m) }
{}

/// Two halves begin with at most one meta.
pub fn one_meta()
    ensures { (v w : CacheMeta) (a b : List ℕ) → BeginWithMeta a b v → BeginWithMeta a b w → v ≡ w }
{}
