//! Laws of metas. Each is the contract of a function with an empty body.
ghost use Rattle.std.specs.Prelude.{◌≡◌, ◌++◌, List, [], ℕ, Ok};
ghost use Rattle.http_header.specs.HeaderMap.{Entries, append_all, pairs, IsHeaderMap};
ghost use Rattle.http_header.specs.FieldValue.{FieldValue};
ghost use Rattle.head_lines.specs.declared.header.ResponseHeader.{ResponseHeader};
ghost use Rattle.head_metas.specs.declared.versions.InternalMetaV2.{InternalMetaV2};
ghost use Rattle.head_metas.specs.Internal.{SpellsMeta, IsLongEnough, IsMeta, IsWritable, written_meta};
ghost use Rattle.head_metas.specs.InternalReading.{meta_at};
ghost use Rattle.head_metas.specs.Head.{SpellsHead, IsHead, IsCountable, plain_head, written_head};
ghost use Rattle.head_metas.specs.HeadReading.{head_at};

/// What `internal::write` writes is read back as the same meta, whatever follows it.
pub fn internal_is_read_again()
    ensures spelled { (m : InternalMetaV2) → IsMeta m → IsWritable m → SpellsMeta m (written_meta m) }
    ensures long_enough { (m : InternalMetaV2) (rest : List ℕ) → IsMeta m → IsWritable m → IsLongEnough (written_meta m ++ rest) }
    ensures read { (m : InternalMetaV2) (rest : List ℕ) → IsMeta m → IsWritable m → meta_at (written_meta m ++ rest) ≡ Ok (m, rest) }
{}

/// No spelling of one meta's moments and numbers begins a spelling of another's.
pub fn one_internal()
    ensures { (v w : InternalMetaV2) (a b x y : List ℕ) → SpellsMeta v a → SpellsMeta w b → a ++ x ≡ b ++ y → (v ≡ w) × (x ≡ y) }
{}

/// What `head::write` writes is read back as the same head, whatever follows it, except that no value is sensitive.
pub fn head_is_read_again()
    ensures spelled { (h : ResponseHeader) → IsHead h → IsCountable h.headers → SpellsHead (plain_head h) (written_head h) }
    ensures read { (h : ResponseHeader) (rest : List ℕ) → IsHead h → IsCountable h.headers → head_at (written_head h ++ rest) ≡ Ok (plain_head h, rest) }
{}

/// No spelling of one head begins a spelling of another.
pub fn one_head()
    ensures { (v w : ResponseHeader) (a b x y : List ℕ) → SpellsHead v a → SpellsHead w b → a ++ x ≡ b ++ y → (v ≡ w) × (x ≡ y) }
{}

/// A map is what its values give when they are added one by one in its order.
pub fn map_of_its_lines()
    ensures { (m : Entries FieldValue) → IsHeaderMap m → append_all [] (pairs m) ≡ m }
{}
