//! Names of directives.
ghost use Rattle.std.specs.Char.{to_ascii_lowercase};
ghost use Rattle.std.specs.Prelude.{◌≡◌, ◌↔◌, map, IsTrue, IfOk, OnErr, IfSome, IfNone, Some, false, is_some, nat_eq, slice_get, string_bytes};
ghost use Rattle.std.specs.Str.{is_utf8};
ghost use Rattle.std.specs.Hash as fed;
ghost use Rattle.std.specs.Cmp.{on_equiv, on_per, partial_equiv_from_equiv};
ghost use Rattle.std.specs.Cmp.Lexicographic.{pointwise, nat_list_eq_equiv};
ghost use Rattle.std.specs.Cmp.Rules.{hashing};
ghost use Rattle.std.proofs.Common.{rules};
ghost use Rattle.head_directives.specs.Names.{name_of, own_names, place_of, has_own_variant, is_unknown, IsOwnKey};

use std::alloc::{AllocError, Global};
use std::hash::{Hash, Hasher};
use std::{fmt, str};

/// A directive's name, in lower case.
#[derive(Clone, Debug, Drop)]
pub enum DirectiveKey {
    MaxAge,
    SMaxAge,
    NoCache,
    NoStore,
    Private,
    Public,
    MustRevalidate,
    ProxyRevalidate,
    MustUnderstand,
    NoTransform,
    Immutable,
    StaleWhileRevalidate,
    StaleIfError,
    OnlyIfCached,
    /// A name that this crate gives no meaning.
    Unknown(String),
}

impl DirectiveKey {
    // The place of its name among the names with a variant of their own, if it has such a variant.
    pub(crate) fn place(&self) -> Option<u8>
        ensures at { IfSome result (λ n. slice_get own_names n ≡ Some (name_of self.now)) }
        ensures first { IfSome result (λ n. place_of (name_of self.now) ≡ Some n) }
    {
        match self {
            DirectiveKey::MaxAge => Some(0),
            DirectiveKey::SMaxAge => Some(1),
            DirectiveKey::NoCache => Some(2),
            DirectiveKey::NoStore => Some(3),
            DirectiveKey::Private => Some(4),
            DirectiveKey::Public => Some(5),
            DirectiveKey::MustRevalidate => Some(6),
            DirectiveKey::ProxyRevalidate => Some(7),
            DirectiveKey::MustUnderstand => Some(8),
            DirectiveKey::NoTransform => Some(9),
            DirectiveKey::Immutable => Some(10),
            DirectiveKey::StaleWhileRevalidate => Some(11),
            DirectiveKey::StaleIfError => Some(12),
            DirectiveKey::OnlyIfCached => Some(13),
            DirectiveKey::Unknown(_) => None,
        }
    }

    /// The name as text.
    pub fn as_str(&self) -> &str
        ensures { result.now ≡ name_of self.now }
    {
        match self {
            DirectiveKey::MaxAge => "max-age",
            DirectiveKey::SMaxAge => "s-maxage",
            DirectiveKey::NoCache => "no-cache",
            DirectiveKey::NoStore => "no-store",
            DirectiveKey::Private => "private",
            DirectiveKey::Public => "public",
            DirectiveKey::MustRevalidate => "must-revalidate",
            DirectiveKey::ProxyRevalidate => "proxy-revalidate",
            DirectiveKey::MustUnderstand => "must-understand",
            DirectiveKey::NoTransform => "no-transform",
            DirectiveKey::Immutable => "immutable",
            DirectiveKey::StaleWhileRevalidate => "stale-while-revalidate",
            DirectiveKey::StaleIfError => "stale-if-error",
            DirectiveKey::OnlyIfCached => "only-if-cached",
            DirectiveKey::Unknown(text) => text.as_str(),
        }
    }

    // One of the names with a variant of its own, which are in lower case. At most three are as long.
    #[tactic(auto, unfolding(crate::specs::Names::has_own_variant))]
    pub(crate) fn known(name: &[u8]) -> Option<Self>
        ensures name { IfSome result (λ key. name_of key ≡ name.now) }
        ensures lower { IfSome result (λ key. name_of key ≡ map to_ascii_lowercase name.now) }
        ensures own { IfSome result IsOwnKey }
        ensures variant { IfSome result (λ key. is_unknown key ≡ false) }
        ensures none { IfNone result (has_own_variant name.now ≡ false) }
    {
        match name.len() {
            6 => (name == b"public".as_slice()).then_some(DirectiveKey::Public),
            7 if name == b"max-age".as_slice() => Some(DirectiveKey::MaxAge),
            7 => (name == b"private".as_slice()).then_some(DirectiveKey::Private),
            8 if name == b"s-maxage".as_slice() => Some(DirectiveKey::SMaxAge),
            8 if name == b"no-cache".as_slice() => Some(DirectiveKey::NoCache),
            8 => (name == b"no-store".as_slice()).then_some(DirectiveKey::NoStore),
            9 => (name == b"immutable".as_slice()).then_some(DirectiveKey::Immutable),
            12 => (name == b"no-transform".as_slice()).then_some(DirectiveKey::NoTransform),
            14 if name == b"stale-if-error".as_slice() => Some(DirectiveKey::StaleIfError),
            14 => (name == b"only-if-cached".as_slice()).then_some(DirectiveKey::OnlyIfCached),
            15 if name == b"must-revalidate".as_slice() => Some(DirectiveKey::MustRevalidate),
            15 => (name == b"must-understand".as_slice()).then_some(DirectiveKey::MustUnderstand),
            16 => (name == b"proxy-revalidate".as_slice()).then_some(DirectiveKey::ProxyRevalidate),
            22 => (name == b"stale-while-revalidate".as_slice()).then_some(
                DirectiveKey::StaleWhileRevalidate,
            ),
            _ => None,
        }
    }

    /// The key of a name in lower case.
    ///
    /// # Errors
    ///
    /// `AllocError` where there is no memory for a name without a variant of its own.
    pub fn from_lowercase(alloc: Global, name: &str) -> Result<Self, AllocError>
        ensures name { IfOk result (λ key. name_of key ≡ name.now) }
        ensures own { IfOk result IsOwnKey }
        ensures memory { OnErr result (has_own_variant name.now ≡ false) }
    {
        match DirectiveKey::known(name.as_bytes()) {
            Some(key) => Ok(key),
            None => Ok(DirectiveKey::Unknown(String::from_str(alloc, name)?)),
        }
    }

    /// The key of a name in lower case, which takes no memory.
    pub fn from_lowercase_owned(name: String) -> Self
        ensures name { name_of result ≡ string_bytes name }
        ensures own { IsOwnKey result }
    {
        match DirectiveKey::known(name.as_bytes()) {
            Some(key) => key,
            None => DirectiveKey::Unknown(name),
        }
    }

    // The key of a name in any case; `None` where it is no text. One of the names above takes no memory
    // where it is in lower case.
    #[tactic(auto, using(crate::proofs::Texts::is_text, crate::proofs::Texts::no_text))]
    pub(crate) fn from_any_case(alloc: Global, name: &[u8]) -> Result<Option<Self>, AllocError>
        ensures text { IfOk result (λ key. is_some key ≡ is_utf8 name.now) }
        ensures name { IfOk result (λ key. IfSome key (λ key. name_of key ≡ map to_ascii_lowercase name.now)) }
        ensures own { IfOk result (λ key. IfSome key IsOwnKey) }
    {
        if let Some(key) = DirectiveKey::known(name) {
            return Ok(Some(key));
        }
        let Ok(name) = str::from_utf8(name) else {
            return Ok(None);
        };
        let mut name = String::from_str(alloc, name)?;
        name.make_ascii_lowercase();
        Ok(Some(DirectiveKey::from_lowercase_owned(name)))
    }

    /// Whether the name is this text.
    pub fn is_text(&self, text: &str) -> bool
        ensures { IsTrue result ↔ (name_of self.now ≡ text.now) }
    {
        self.as_str() == text
    }
}

impl fmt::Display for DirectiveKey {
    ghost output = { λ key. Some (name_of key) };

    fn fmt<W: fmt::Write>(&self, f: &mut fmt::Formatter<W>) -> fmt::Result {
        f.write_str(self.as_str())
    }
}

impl PartialEq for DirectiveKey {
    ghost eq = { λ a b. pointwise nat_eq (name_of a) (name_of b) };

    ghost laws = { on_per name_of (partial_equiv_from_equiv nat_list_eq_equiv) };

    #[tactic(auto, using(crate::proofs::Places::same_place))]
    fn eq(&self, other: &DirectiveKey) -> bool {
        match (self.place(), other.place()) {
            (Some(place), Some(other_place)) => place == other_place,
            _ => self.as_str() == other.as_str(),
        }
    }
}

impl Eq for DirectiveKey {
    ghost laws = { on_equiv name_of nat_list_eq_equiv };
}

impl Hash for DirectiveKey {
    ghost hash_input = { λ key. fed.str (name_of key) };

    ghost respects_eq = { Prim.search (hashing, rules) };

    fn hash<H: Hasher>(&self, state: &mut H) {
        self.as_str().hash(state);
    }
}
