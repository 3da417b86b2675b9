//! Cases of directives: the lines of a header in hex, between commas.
use crate::fields::add;
use crate::words::{list_or_dash, number, push_word};
use head_directives::{
    CacheControl, Cacheable, DirectiveKey, DirectiveValue, InterpretCacheControl, ListValueIter,
};
use head_lines::Error;
use http_header::HeaderMap;
use std::alloc::{AllocError, Global};

/// What the directives of a case say.
pub fn outcome(alloc: Global, case: &str) -> Result<String, AllocError> {
    let mut headers = HeaderMap::new(alloc);
    for line in case.split(',') {
        add(alloc, &mut headers, "cache-control", line)?;
    }
    match CacheControl::from_headers_named(alloc, "Cache-Control", &headers)? {
        Some(control) => shown(alloc, &control),
        None => String::from_str(alloc, "-"),
    }
}

fn shown(alloc: Global, control: &CacheControl) -> Result<String, AllocError> {
    let mut text = directives(alloc, control)?;
    push_interpretation(alloc, &mut text, control)?;
    for seconds in [
        control.max_age(),
        control.s_maxage(),
        control.stale_while_revalidate(),
        control.stale_if_error(),
    ] {
        push_word(&mut text, ' ', seconds_or_error(alloc, seconds)?.as_str())?;
    }
    for flag in [control.private(), control.no_cache()] {
        push_word(&mut text, ' ', digit(flag))?;
    }
    push_word(
        &mut text,
        ' ',
        names(alloc, control.private_field_names())?.as_str(),
    )?;
    push_word(
        &mut text,
        ' ',
        names(alloc, control.no_cache_field_names())?.as_str(),
    )?;
    Ok(text)
}

fn push_interpretation(
    alloc: Global,
    text: &mut String,
    control: &CacheControl,
) -> Result<(), AllocError> {
    let cacheable = match control.is_cacheable() {
        Cacheable::Yes => "Yes",
        Cacheable::No => "No",
        Cacheable::Default => "Default",
    };
    for word in [cacheable, digit(control.allow_caching_authorized_req())] {
        push_word(text, ' ', word)?;
    }
    for time in [
        control.fresh_duration(),
        control.serve_stale_while_revalidate_duration(),
        control.serve_stale_if_error_duration(),
    ] {
        let seconds = time.map(|duration| duration.seconds());
        push_word(text, ' ', number(alloc, seconds)?.as_str())?;
    }
    Ok(())
}

fn directives(alloc: Global, control: &CacheControl) -> Result<String, AllocError> {
    let mut list = String::new(alloc);
    for (key, value) in control.directives.iter() {
        push_word(&mut list, ';', directive(alloc, key, value)?.as_str())?;
    }
    list_or_dash(alloc, list)
}

// A directive's name, and its value in hex.
fn directive(
    alloc: Global,
    key: &DirectiveKey,
    value: &Option<DirectiveValue>,
) -> Result<String, AllocError> {
    let name = key.as_str();
    match value {
        Some(value) => {
            let value = hex::encode(alloc, value.as_ref())?;
            format!(in alloc; "{name}:={value}")
        }
        None => format!(in alloc; "{name}:-"),
    }
}

fn digit(flag: bool) -> &'static str {
    if flag { "1" } else { "0" }
}

fn seconds_or_error(
    alloc: Global,
    seconds: Result<Option<u32>, Error>,
) -> Result<String, AllocError> {
    match seconds {
        Ok(seconds) => number(alloc, seconds.map(|seconds| seconds as u64)),
        Err(_) => String::from_str(alloc, "!"),
    }
}

// The listed names in hex, between brackets. A name may be empty.
fn names(alloc: Global, names: Option<ListValueIter<'_>>) -> Result<String, AllocError> {
    let Some(names) = names else {
        return String::from_str(alloc, "-");
    };
    let mut list = String::from_str(alloc, "[")?;
    let mut is_first = true;
    for name in names {
        if !is_first {
            list.push(',')?;
        }
        is_first = false;
        list.push_str(hex::encode(alloc, name)?.as_str())?;
    }
    list.push(']')?;
    Ok(list)
}
