//! Cache-Control as a cache asks it.
ghost use Rattle.std.specs.Prelude.{◌≡◌, ◌↔◌, ◌<◌, map, codes, length, IfOk, IfSome, IsSome, IsNone, IfErr, option_map, Option, Some, None};
ghost use Rattle.std.specs.Result.{result_ok};
ghost use Rattle.http_header.specs.HeaderMap.{get_all};
ghost use Rattle.http_header.specs.Token.{lowercase};
ghost use Rattle.head_directives.specs.Names.{name_of};
ghost use Rattle.head_directives.specs.Keeps.{kept, value_named, value_under, has, is_alone, IsKept};
ghost use Rattle.head_directives.specs.Seconds.{unquoted, read_seconds};
ghost use Rattle.head_directives.specs.Listed.{listed};
ghost use Rattle.head_directives.specs.NamesLeft.{names_left};
ghost use Rattle.head_directives.specs.Control.{directives_of, lines_under, named, HasOwnVariants};

use crate::key::DirectiveKey;
use crate::listed_names::ListValueIter;
use crate::map::DirectiveMap;
use crate::value::DirectiveValue;
use head_lines::{Error, ErrorType};

/// The directives of one header.
#[derive(Debug, Drop)]
pub struct CacheControl {
    /// The directives by name, in the order in which the names first came.
    pub directives: DirectiveMap,
}

// As many directives are compared one by one, which takes less time than to hash a name.
const FEW: usize = 8;

impl CacheControl {
    // The value under a key, found without a comparison of texts. `None` where a name without a place
    // comes before it. No name is there twice, so those with a place are few.
    #[tactic(auto, using(crate::proofs::Places::same_place))]
    fn by_place(&self, key: &DirectiveKey) -> Option<Option<Option<&DirectiveValue>>>
        ensures { IfSome result (λ found. option_map (λ o. option_map (λ v. v.now.0.items) o) found ≡ value_named (name_of key.now) (directives_of self.now)) }
    {
        let place = key.place()?;
        for (name, value) in self.directives.iter() {
            if name.place()? == place {
                return Some(Some(value.as_ref()));
            }
        }
        Some(None)
    }

    // The value under a key.
    fn lookup(&self, key: &DirectiveKey) -> Option<Option<&DirectiveValue>>
        ensures { option_map (λ o. option_map (λ v. v.now.0.items) o) result ≡ value_named (name_of key.now) (directives_of self.now) }
    {
        match self.by_place(key) {
            Some(found) => found,
            None => self.by_text(key),
        }
    }

    // The value under a key of any kind, among names of any kind.
    fn by_text(&self, key: &DirectiveKey) -> Option<Option<&DirectiveValue>>
        ensures { option_map (λ o. option_map (λ v. v.now.0.items) o) result ≡ value_named (name_of key.now) (directives_of self.now) }
    {
        if self.directives.len() <= FEW {
            self.first_of(key)
        } else {
            self.hashed(key)
        }
    }

    // The value under a key, found by its hash.
    fn hashed(&self, key: &DirectiveKey) -> Option<Option<&DirectiveValue>>
        ensures { option_map (λ o. option_map (λ v. v.now.0.items) o) result ≡ value_named (name_of key.now) (directives_of self.now) }
    {
        match self.directives.get(key) {
            Some(Some(value)) => Some(Some(value)),
            Some(None) => Some(None),
            None => None,
        }
    }

    // The value under a key, found by going over all.
    fn first_of(&self, key: &DirectiveKey) -> Option<Option<&DirectiveValue>>
        ensures { option_map (λ o. option_map (λ v. v.now.0.items) o) result ≡ value_named (name_of key.now) (directives_of self.now) }
    {
        for (name, value) in self.directives.iter() {
            if key == name {
                return Some(value.as_ref());
            }
        }
        None
    }

    // The value under a key, where it has one.
    fn value(&self, key: &DirectiveKey) -> Option<&DirectiveValue>
        ensures { option_map (λ v. v.now.0.items) result ≡ value_under (name_of key.now) (directives_of self.now) }
    {
        self.lookup(key)?
    }

    // Whether the directive is there without a value.
    fn has_key_without_value(&self, key: &DirectiveKey) -> bool
        ensures { result ≡ is_alone (name_of key.now) (directives_of self.now) }
    {
        matches!(self.lookup(key), Some(None))
    }

    // The names that the value under a key lists.
    fn get_field_names(&self, key: &DirectiveKey) -> Option<ListValueIter<'_>>
        ensures { option_map names_left result ≡ option_map (λ v. listed (unquoted v)) (value_under (name_of key.now) (directives_of self.now)) }
    {
        Some(ListValueIter::from(self.value(key)?))
    }

    // The seconds under a key.
    fn delta_seconds(&self, key: &DirectiveKey) -> Result<Option<u32>, Error>
        ensures value { result_ok result ≡ read_seconds (value_under (name_of key.now) (directives_of self.now)) }
        ensures kind { IfErr result (λ e. e.etype ≡ ErrorType.InternalError) }
    {
        match self.value(key) {
            Some(value) => Ok(Some(value.parse_as_delta_seconds()?)),
            None => Ok(None),
        }
    }

    /// Whether the directive is there. It takes no memory: a name without a variant of its own is
    /// looked for among all.
    pub fn has_key(&self, key: &str) -> bool
        ensures { result ≡ has key.now (directives_of self.now) }
    {
        match DirectiveKey::known(key.as_bytes()) {
            Some(known) => self.has_directive(&known),
            None => self.has_unknown(key),
        }
    }

    /// Whether the directive is there.
    pub fn has_directive(&self, key: &DirectiveKey) -> bool
        ensures { result ≡ has (name_of key.now) (directives_of self.now) }
    {
        match self.by_place(key) {
            Some(found) => found.is_some(),
            None => self.by_text(key).is_some(),
        }
    }

    /// Whether `public` is there (RFC 9111, 5.2.2.9).
    pub fn public(&self) -> bool
        ensures { result ≡ has (codes "public") (directives_of self.now) }
    {
        self.has_directive(&DirectiveKey::Public)
    }

    /// Whether `private` is there without a value: with one it speaks only of the fields that it
    /// lists (RFC 9111, 5.2.2.7).
    pub fn private(&self) -> bool
        ensures { result ≡ is_alone (codes "private") (directives_of self.now) }
    {
        self.has_key_without_value(&DirectiveKey::Private)
    }

    /// The field names that `private` lists.
    pub fn private_field_names(&self) -> Option<ListValueIter<'_>>
        ensures { option_map names_left result ≡ option_map (λ v. listed (unquoted v)) (value_under (codes "private") (directives_of self.now)) }
    {
        self.get_field_names(&DirectiveKey::Private)
    }

    /// Whether `no-cache` is there without a value: with one it speaks only of the fields that it
    /// lists (RFC 9111, 5.2.2.4).
    pub fn no_cache(&self) -> bool
        ensures { result ≡ is_alone (codes "no-cache") (directives_of self.now) }
    {
        self.has_key_without_value(&DirectiveKey::NoCache)
    }

    /// The field names that `no-cache` lists.
    pub fn no_cache_field_names(&self) -> Option<ListValueIter<'_>>
        ensures { option_map names_left result ≡ option_map (λ v. listed (unquoted v)) (value_under (codes "no-cache") (directives_of self.now)) }
    {
        self.get_field_names(&DirectiveKey::NoCache)
    }

    /// Whether `no-store` is there (RFC 9111, 5.2.2.5).
    pub fn no_store(&self) -> bool
        ensures { result ≡ has (codes "no-store") (directives_of self.now) }
    {
        self.has_directive(&DirectiveKey::NoStore)
    }

    /// The seconds of `max-age` (RFC 9111, 5.2.2.1); `None` where it has no value.
    ///
    /// # Errors
    ///
    /// `InternalError` where its value cannot be read.
    pub fn max_age(&self) -> Result<Option<u32>, Error>
        ensures value { result_ok result ≡ read_seconds (value_under (codes "max-age") (directives_of self.now)) }
        ensures kind { IfErr result (λ e. e.etype ≡ ErrorType.InternalError) }
    {
        self.delta_seconds(&DirectiveKey::MaxAge)
    }

    /// The seconds of `s-maxage` (RFC 9111, 5.2.2.10); `None` where it has no value.
    ///
    /// # Errors
    ///
    /// `InternalError` where its value cannot be read.
    pub fn s_maxage(&self) -> Result<Option<u32>, Error>
        ensures value { result_ok result ≡ read_seconds (value_under (codes "s-maxage") (directives_of self.now)) }
        ensures kind { IfErr result (λ e. e.etype ≡ ErrorType.InternalError) }
    {
        self.delta_seconds(&DirectiveKey::SMaxAge)
    }

    /// The seconds of `stale-while-revalidate` (RFC 5861, 3); `None` where it has no value.
    ///
    /// # Errors
    ///
    /// `InternalError` where its value cannot be read.
    pub fn stale_while_revalidate(&self) -> Result<Option<u32>, Error>
        ensures value { result_ok result ≡ read_seconds (value_under (codes "stale-while-revalidate") (directives_of self.now)) }
        ensures kind { IfErr result (λ e. e.etype ≡ ErrorType.InternalError) }
    {
        self.delta_seconds(&DirectiveKey::StaleWhileRevalidate)
    }

    /// The seconds of `stale-if-error` (RFC 5861, 4); `None` where it has no value.
    ///
    /// # Errors
    ///
    /// `InternalError` where its value cannot be read.
    pub fn stale_if_error(&self) -> Result<Option<u32>, Error>
        ensures value { result_ok result ≡ read_seconds (value_under (codes "stale-if-error") (directives_of self.now)) }
        ensures kind { IfErr result (λ e. e.etype ≡ ErrorType.InternalError) }
    {
        self.delta_seconds(&DirectiveKey::StaleIfError)
    }

    /// Whether `must-revalidate` is there (RFC 9111, 5.2.2.2).
    pub fn must_revalidate(&self) -> bool
        ensures { result ≡ has (codes "must-revalidate") (directives_of self.now) }
    {
        self.has_directive(&DirectiveKey::MustRevalidate)
    }

    /// Whether `proxy-revalidate` is there (RFC 9111, 5.2.2.8).
    pub fn proxy_revalidate(&self) -> bool
        ensures { result ≡ has (codes "proxy-revalidate") (directives_of self.now) }
    {
        self.has_directive(&DirectiveKey::ProxyRevalidate)
    }

    /// Whether `only-if-cached` is there (RFC 9111, 5.2.1.7).
    pub fn only_if_cached(&self) -> bool
        ensures { result ≡ has (codes "only-if-cached") (directives_of self.now) }
    {
        self.has_directive(&DirectiveKey::OnlyIfCached)
    }

    // Whether a name is among all.
    fn has_unknown(&self, key: &str) -> bool
        ensures { result ≡ has key.now (directives_of self.now) }
    {
        for (name, _) in self.directives.iter() {
            if name.is_text(key) {
                return true;
            }
        }
        false
    }
}
