//! What directives mean for a shared cache.
ghost use Rattle.std.specs.Prelude.{◌≡◌, ℕ, List, Option, codes, [], option_map, unwrap_or};
ghost use Rattle.std.specs.Result.{result_ok};
ghost use Rattle.cache_words.specs.Time.{span_of};
ghost use Rattle.head_directives.specs.Written.{Written};
ghost use Rattle.head_directives.specs.Control.{directives_of};
ghost use Rattle.head_directives.specs.Cacheable.{cacheable_by};
ghost use Rattle.head_directives.specs.Lifetime.{allows_authorized, lifetime, stale_window, stripped, without, forbids_stale, given_seconds};
ghost use Rattle.head_directives.specs.NamesLeft.{names_left};

use crate::control::CacheControl;
use crate::key::DirectiveKey;
use crate::listed_names::ListValueIter;
use cache_words::time::Duration;
use head_lines::{Error, ResponseHeader};

/// Whether a response may be stored, by its directives alone.
#[derive(Clone, Copy, Debug, PartialEq, Eq)]
pub enum Cacheable {
    /// They allow it in so many words.
    Yes,
    /// They forbid it.
    No,
    /// They leave it open.
    Default,
}

/// What a shared cache asks of a response's directives.
pub trait InterpretCacheControl {
    // The directives, each name once.
    ghost directives: { Self → List Written };

    /// Whether the response may be stored (RFC 9111, 3).
    fn is_cacheable(&self) -> Cacheable
        ensures { result ≡ cacheable_by (directives self.now) };

    /// Whether the response to a request with Authorization may be stored (RFC 9111, 3.5).
    fn allow_caching_authorized_req(&self) -> bool
        ensures { result ≡ allows_authorized (directives self.now) };

    /// How long the response is fresh (RFC 9111, 4.2.1); `None` where the directives don't say.
    fn fresh_duration(&self) -> Option<Duration>
        ensures { result ≡ option_map span_of (lifetime (directives self.now)) };

    /// How long a stale response may be served while it is validated (RFC 5861, 3).
    fn serve_stale_while_revalidate_duration(&self) -> Option<Duration>
        ensures { result ≡ option_map span_of (stale_window (codes "stale-while-revalidate") (directives self.now)) };

    /// How long a stale response may be served on errors (RFC 5861, 4).
    fn serve_stale_if_error_duration(&self) -> Option<Duration>
        ensures { result ≡ option_map span_of (stale_window (codes "stale-if-error") (directives self.now)) };

    /// Removes the fields that `private` and `no-cache` list from a head (RFC 9111, 5.2.2.4 and
    /// 5.2.2.7).
    fn strip_private_headers(&self, resp_header: &mut ResponseHeader)
        ensures stripped { resp_header.new.headers ≡ stripped resp_header.old.headers (directives self.now) }
        ensures status { resp_header.new.status ≡ resp_header.old.status };
}

// The whole seconds that a directive gave.
fn whole(seconds: Result<Option<u32>, Error>) -> Option<Duration>
    ensures { result ≡ option_map span_of (given_seconds (result_ok seconds)) }
{
    match seconds {
        Ok(Some(seconds)) => Some(Duration::from_seconds(seconds as u64)),
        _ => None,
    }
}

// Without the fields of these names.
fn strip_listed_headers(resp_header: &mut ResponseHeader, field_names: Option<ListValueIter<'_>>)
    ensures removed { resp_header.new.headers ≡ without resp_header.old.headers (unwrap_or (option_map names_left field_names.entry) []) }
    ensures status { resp_header.new.status ≡ resp_header.old.status }
{
    let Some(field_names) = field_names else {
        return;
    };
    for name in field_names {
        let _ = resp_header.headers.remove(name);
    }
}

impl CacheControl {
    // Whether stale responses may not be served at all (RFC 9111, 4.2.4).
    fn forbids_stale(&self) -> bool
        ensures { result ≡ forbids_stale (directives_of self.now) }
    {
        self.must_revalidate()
            || self.proxy_revalidate()
            || self.has_directive(&DirectiveKey::SMaxAge)
    }
}

impl InterpretCacheControl for CacheControl {
    ghost directives = { directives_of };

    fn is_cacheable(&self) -> Cacheable {
        if self.no_store() || self.private() {
            return Cacheable::No;
        }
        if self.has_directive(&DirectiveKey::SMaxAge)
            || self.has_directive(&DirectiveKey::MaxAge)
            || self.public()
        {
            return Cacheable::Yes;
        }
        Cacheable::Default
    }

    fn allow_caching_authorized_req(&self) -> bool {
        self.must_revalidate() || self.public() || self.has_directive(&DirectiveKey::SMaxAge)
    }

    fn fresh_duration(&self) -> Option<Duration> {
        if self.no_cache() {
            return Some(Duration::zero());
        }
        match self.s_maxage() {
            Ok(Some(seconds)) => Some(Duration::from_seconds(seconds as u64)),
            Ok(None) => whole(self.max_age()),
            Err(_) => None,
        }
    }

    fn serve_stale_while_revalidate_duration(&self) -> Option<Duration> {
        if self.forbids_stale() {
            return Some(Duration::zero());
        }
        whole(self.stale_while_revalidate())
    }

    fn serve_stale_if_error_duration(&self) -> Option<Duration> {
        if self.forbids_stale() {
            return Some(Duration::zero());
        }
        whole(self.stale_if_error())
    }

    fn strip_private_headers(&self, resp_header: &mut ResponseHeader) {
        strip_listed_headers(resp_header, self.private_field_names());
        strip_listed_headers(resp_header, self.no_cache_field_names());
    }
}
