//! URLs as people write them.
ghost use Rattle.std.specs.Prelude.{◌≡◌, ◌++◌, option_map, IfOk, OnOk};
ghost use Rattle.std.specs.List.{list_any};
ghost use Rattle.rules_ffi_arguments.specs.Given.{Gives};
ghost use Rattle.gateway_rules.specs.Options.{options_of};
ghost use Rattle.gateway_rules.specs.Requests.{parsed_of};
ghost use Rattle.gateway_rules.specs.Urls.{before, begins_with_slashes, behind_scheme, host_of, with_scheme, request_line, host_line, request_to, url_request, breaks_text, key_read, key_asked, url_key_in};

use crate::Rules;
use crate::requests::ParsedRequest;
use rules_ffi_arguments::bad::Bad;
use std::alloc::{AllocError, Global};

impl Rules {
    /// The first key of a URL as people write it; none of one that can't be read.
    pub fn url_key(&self, url: &[u8]) -> Result<Option<Vec<u8>>, Bad>
        ensures { Gives (λ key. option_map (λ k. k.items) key) result (url_key_in (options_of self.now) url.now) }
    {
        let url = before(url, b'#');
        if breaks_text(url) {
            return Ok(None);
        }
        self.key_asked(url)
    }

    // The first key of a request for it.
    fn key_asked(&self, url: &[u8]) -> Result<Option<Vec<u8>>, Bad>
        ensures { Gives (λ key. option_map (λ k. k.items) key) result (key_asked (options_of self.now) url.now) }
    {
        let text = self.url_request(url)?;
        let parsed = self.parse_request(text.as_slice(), 0)?;
        Ok(key_read(self.alloc, &parsed)?)
    }

    // The URL, behind the operator's scheme where it has none.
    fn with_scheme(&self, url: &[u8]) -> Result<Vec<u8>, AllocError>
        ensures { IfOk result (λ t. t.items ≡ with_scheme (options_of self.now) url.now) }
    {
        let mut text = Vec::new(self.alloc);
        if behind_scheme(url).is_none() {
            text.extend_from_slice(self.scheme())?;
            text.extend_from_slice(b"://")?;
        }
        text.extend_from_slice(url)?;
        Ok(text)
    }

    // A request for a URL.
    fn url_request(&self, url: &[u8]) -> Result<Vec<u8>, AllocError>
        ensures { IfOk result (λ t. t.items ≡ url_request (options_of self.now) url.now) }
    {
        let whole = self.with_scheme(url)?;
        request_to(self.alloc, whole.as_slice())
    }
}

fn add_request_line(text: &mut Vec<u8>, url: &[u8]) -> Result<(), AllocError>
    ensures { OnOk result (text.new.items ≡ text.old.items ++ request_line url.now) }
{
    text.extend_from_slice(b"GET ")?;
    text.extend_from_slice(url)?;
    text.extend_from_slice(b" HTTP/1.1\r\n")?;
    Ok(())
}

fn add_host_line(text: &mut Vec<u8>, url: &[u8]) -> Result<(), AllocError>
    ensures { OnOk result (text.new.items ≡ text.old.items ++ host_line url.now) }
{
    text.extend_from_slice(b"Host: ")?;
    text.extend_from_slice(host_of(url))?;
    text.extend_from_slice(b"\r\n\r\n")
}

// A request for a URL with a scheme.
#[tactic(auto, unfolding(crate::specs::Urls::request_to))]
fn request_to(alloc: Global, url: &[u8]) -> Result<Vec<u8>, AllocError>
    ensures { IfOk result (λ t. t.items ≡ request_to url.now) }
{
    let mut text = Vec::new(alloc);
    add_request_line(&mut text, url)?;
    add_host_line(&mut text, url)?;
    Ok(text)
}

// The first key of a request that was read.
fn key_read(alloc: Global, parsed: &ParsedRequest) -> Result<Option<Vec<u8>>, AllocError>
    ensures { IfOk result (λ key. option_map (λ k. k.items) key ≡ key_read (parsed_of parsed.now)) }
{
    match parsed {
        ParsedRequest::More => Ok(None),
        ParsedRequest::Head(head) => {
            let key = head.key();
            if head.is_rejected() || key.is_empty() {
                return Ok(None);
            }
            Ok(Some(Vec::from_slice(alloc, key)?))
        }
    }
}

// Whether a byte stands in it that stands in no URL.
fn breaks_text(url: &[u8]) -> bool
    ensures { result ≡ list_any breaks_text url.now }
{
    for b in url {
        if *b <= 32 || *b == 127 {
            return true;
        }
    }
    false
}

// The host of a URL with a scheme, and its port.
fn host_of(url: &[u8]) -> &[u8]
    ensures { result.now ≡ host_of url.now }
{
    match behind_scheme(url) {
        Some(rest) => before(before(rest, b'/'), b'?'),
        None => &[],
    }
}

// What stands in front of a byte.
fn before(text: &[u8], wanted: u8) -> &[u8]
    ensures { result.now ≡ before wanted text.now }
{
    let mut n = 0;
    for b in text {
        if *b == wanted {
            break;
        }
        n += 1;
    }
    &text[..n]
}

fn begins_with_slashes(text: &[u8]) -> bool
    ensures { result ≡ begins_with_slashes text.now }
{
    match text {
        [first, second, ..] => *first == b'/' && *second == b'/',
        _ => false,
    }
}

// What stands behind `://`, where that is.
fn behind_scheme(text: &[u8]) -> Option<&[u8]>
    ensures { option_map (λ t. t.now) result ≡ behind_scheme text.now }
{
    let mut left = text;
    while let [first, rest @ ..] = left {
        if *first == b':' && begins_with_slashes(rest) {
            return Some(&rest[2..]);
        }
        left = rest;
    }
    None
}
