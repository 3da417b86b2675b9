//! How the directives of a head are read.
ghost use Rattle.std.specs.Prelude.{◌≡◌, [], map, codes, Ok, None, IfOk, IfSome, OnOk, option_map};
ghost use Rattle.head_directives.specs.Found.{written};
ghost use Rattle.head_directives.specs.Entries.{entries_of, HasOwnKeys};
ghost use Rattle.head_directives.specs.Keeps.{keep, keep_line, keep_lines, kept, IsKept};
ghost use Rattle.head_directives.specs.Control.{directives_of, lines_under, named, HasOwnVariants};

use crate::control::CacheControl;
use crate::key::DirectiveKey;
use crate::line::{RawDirective, Scan};
use crate::map::{BuildDirectiveHasher, DirectiveMap};
use crate::value::DirectiveValue;
use head_lines::{RequestHeader, ResponseHeader};
use http_header::{GetAll, HeaderMap, HeaderValue};
use std::alloc::{AllocError, Global};

impl CacheControl {
    /// The directives of all lines under a name, whatever its case; `None` without such a line, which takes no memory.
    /// A name that comes again takes its last value: RFC 9111, 4.2.1 would take the first, or none.
    ///
    /// # Errors
    ///
    /// `AllocError` where there is no memory for them.
    pub fn from_headers_named(
        alloc: Global,
        header_name: &str,
        headers: &HeaderMap,
    ) -> Result<Option<Self>, AllocError>
        ensures is { IfOk result (λ o. option_map directives_of o ≡ named (lines_under header_name.now headers.now)) }
        ensures absent { lines_under header_name.now headers.now ≡ [] → result ≡ Ok None }
        ensures read { IfOk result (λ o. IfSome o (λ c. IsKept (lines_under header_name.now headers.now) (directives_of c))) }
        ensures own { IfOk result (λ o. IfSome o HasOwnVariants) }
    {
        let lines = headers.get_all(header_name);
        if lines.iter().next().is_none() {
            return Ok(None);
        }
        let mut control = CacheControl {
            directives: DirectiveMap::with_hasher(alloc, BuildDirectiveHasher::of_lines(&lines)),
        };
        add_lines(alloc, &mut control.directives, &lines)?;
        Ok(Some(control))
    }

    /// The directives of a request's lines under a name, whatever its case; `None` without such a
    /// line, which takes no memory.
    ///
    /// # Errors
    ///
    /// `AllocError` where there is no memory for them.
    pub fn from_req_headers_named(
        alloc: Global,
        header_name: &str,
        req_header: &RequestHeader,
    ) -> Result<Option<Self>, AllocError>
        ensures is { IfOk result (λ o. option_map directives_of o ≡ named (lines_under header_name.now req_header.now.headers)) }
        ensures absent { lines_under header_name.now req_header.now.headers ≡ [] → result ≡ Ok None }
        ensures own { IfOk result (λ o. IfSome o HasOwnVariants) }
    {
        CacheControl::from_headers_named(alloc, header_name, &req_header.headers)
    }

    /// The directives of a request's Cache-Control; `None` without one, which takes no memory.
    ///
    /// # Errors
    ///
    /// `AllocError` where there is no memory for them.
    pub fn from_req_headers(
        alloc: Global,
        req_header: &RequestHeader,
    ) -> Result<Option<Self>, AllocError>
        ensures is { IfOk result (λ o. option_map directives_of o ≡ named (lines_under (codes "cache-control") req_header.now.headers)) }
        ensures absent { lines_under (codes "cache-control") req_header.now.headers ≡ [] → result ≡ Ok None }
        ensures own { IfOk result (λ o. IfSome o HasOwnVariants) }
    {
        CacheControl::from_req_headers_named(alloc, "cache-control", req_header)
    }

    /// The directives of a response's lines under a name, whatever its case; `None` without such a
    /// line, which takes no memory.
    ///
    /// # Errors
    ///
    /// `AllocError` where there is no memory for them.
    pub fn from_resp_headers_named(
        alloc: Global,
        header_name: &str,
        resp_header: &ResponseHeader,
    ) -> Result<Option<Self>, AllocError>
        ensures is { IfOk result (λ o. option_map directives_of o ≡ named (lines_under header_name.now resp_header.now.headers)) }
        ensures absent { lines_under header_name.now resp_header.now.headers ≡ [] → result ≡ Ok None }
        ensures own { IfOk result (λ o. IfSome o HasOwnVariants) }
    {
        CacheControl::from_headers_named(alloc, header_name, &resp_header.headers)
    }

    /// The directives of a response's Cache-Control; `None` without one, which takes no memory.
    ///
    /// # Errors
    ///
    /// `AllocError` where there is no memory for them.
    pub fn from_resp_headers(
        alloc: Global,
        resp_header: &ResponseHeader,
    ) -> Result<Option<Self>, AllocError>
        ensures is { IfOk result (λ o. option_map directives_of o ≡ named (lines_under (codes "cache-control") resp_header.now.headers)) }
        ensures absent { lines_under (codes "cache-control") resp_header.now.headers ≡ [] → result ≡ Ok None }
        ensures own { IfOk result (λ o. IfSome o HasOwnVariants) }
    {
        CacheControl::from_resp_headers_named(alloc, "cache-control", resp_header)
    }
}

// Adds a directive: a name that is there takes the new value.
#[tactic(auto, using(crate::proofs::Texts::is_text, crate::proofs::Texts::no_text, crate::proofs::Texts::seen_insert, crate::proofs::Texts::own_insert))]
fn insert(alloc: Global, all: &mut DirectiveMap, found: RawDirective<'_>) -> Result<(), AllocError>
    ensures read { OnOk result (entries_of all.new.entries ≡ keep (entries_of all.old.entries) (written found.entry)) }
    ensures own { OnOk result (HasOwnKeys all.old.entries → HasOwnKeys all.new.entries) }
{
    let Some(key) = DirectiveKey::from_any_case(alloc, found.name)? else {
        return Ok(());
    };
    let value = match found.value {
        Some(bytes) => Some(DirectiveValue(bytes.to_vec(alloc)?)),
        None => None,
    };
    all.insert(key, value)?;
    Ok(())
}

// Adds the directives of a line, each as it is found.
fn add_line(alloc: Global, all: &mut DirectiveMap, line: &[u8]) -> Result<(), AllocError>
    ensures read { OnOk result (entries_of all.new.entries ≡ keep_line (entries_of all.old.entries) line.now) }
    ensures own { OnOk result (HasOwnKeys all.old.entries → HasOwnKeys all.new.entries) }
{
    for found in Scan::of(line) {
        insert(alloc, all, found)?;
    }
    Ok(())
}

// Adds the directives of all these lines.
fn add_lines(
    alloc: Global,
    all: &mut DirectiveMap,
    lines: &GetAll<'_, HeaderValue>,
) -> Result<(), AllocError>
    ensures read { OnOk result (entries_of all.new.entries ≡ keep_lines (entries_of all.old.entries) (map (λ line. line.bytes) lines.now)) }
    ensures own { OnOk result (HasOwnKeys all.old.entries → HasOwnKeys all.new.entries) }
{
    for line in lines.iter() {
        add_line(alloc, all, line.as_bytes())?;
    }
    Ok(())
}
