//! The options of a call: those that it names, and the usual ones.
use crate::values::{list, number, optional};
use rules_fields::types::{Options, StatusLifetime};
use serde_json::Value;
use std::alloc::{AllocError, Global};

/// The lists that options lend.
#[derive(Drop)]
pub struct OptionLists<'a> {
    targeted: Vec<&'a [u8]>,
    drops: Vec<&'a [u8]>,
    hosts: Vec<&'a [u8]>,
    refuses: Vec<&'a [u8]>,
    lifetimes: Vec<StatusLifetime>,
    never_stored: Vec<u16>,
    query_drops: Vec<&'a [u8]>,
    encodings: Vec<&'a [u8]>,
    cookie_keeps: Option<Vec<&'a [u8]>>,
    response_drops: Vec<&'a [u8]>,
    forced_lifetimes: Vec<StatusLifetime>,
}

/// The lists that a call's options have.
pub fn lists(alloc: Global, chosen: &Value) -> Result<OptionLists<'_>, AllocError> {
    let usual = Options::usual();
    Ok(OptionLists {
        targeted: list_or(alloc, chosen, "targeted", usual.targeted)?,
        drops: list(alloc, chosen, "drops")?,
        hosts: list(alloc, chosen, "hosts")?,
        refuses: list_or(alloc, chosen, "refuses", usual.refuses)?,
        lifetimes: lifetimes(alloc, chosen, "lifetimes")?,
        never_stored: statuses(alloc, chosen, usual.never_stored)?,
        query_drops: list(alloc, chosen, "query_drops")?,
        encodings: list(alloc, chosen, "encodings")?,
        cookie_keeps: list_if(alloc, chosen, "cookie_keeps")?,
        response_drops: list(alloc, chosen, "response_drops")?,
        forced_lifetimes: lifetimes(alloc, chosen, "forced_lifetimes")?,
    })
}

// The texts of a list, or the usual ones where the call has none.
fn list_or<'a>(
    alloc: Global,
    chosen: &'a Value,
    name: &str,
    usual: &[&'static [u8]],
) -> Result<Vec<&'a [u8]>, AllocError> {
    if chosen.get(name).is_some() {
        return list(alloc, chosen, name);
    }
    let mut texts: Vec<&'a [u8]> = Vec::new(alloc);
    for text in usual {
        texts.push(*text)?;
    }
    Ok(texts)
}

// The texts of a list, where the call has it.
fn list_if<'a>(
    alloc: Global,
    chosen: &'a Value,
    name: &str,
) -> Result<Option<Vec<&'a [u8]>>, AllocError> {
    if chosen.get(name).is_some() {
        Ok(Some(list(alloc, chosen, name)?))
    } else {
        Ok(None)
    }
}

// Pairs of a status and its seconds.
fn lifetimes(alloc: Global, chosen: &Value, name: &str) -> Result<Vec<StatusLifetime>, AllocError> {
    let mut rows = Vec::new(alloc);
    if let Some(list) = chosen.get(name)
        && let Some(members) = list.as_array()
    {
        for member in members {
            rows.push(lifetime(member))?;
        }
    }
    Ok(rows)
}

// The statuses that are never stored, or the usual ones where the call has none.
fn statuses(alloc: Global, chosen: &Value, usual: &[u16]) -> Result<Vec<u16>, AllocError> {
    let Some(list) = chosen.get("never_stored") else {
        return usual.to_vec(alloc);
    };
    let mut rows = Vec::new(alloc);
    if let Some(members) = list.as_array() {
        for member in members {
            rows.push(status_in(member))?;
        }
    }
    Ok(rows)
}

fn status_in(member: &Value) -> u16 {
    member
        .as_u64()
        .and_then(|n| u16::try_from(n).ok())
        .unwrap_or(0)
}

fn lifetime(row: &Value) -> StatusLifetime {
    StatusLifetime {
        status: place(row, 0)
            .and_then(|n| u16::try_from(n).ok())
            .unwrap_or(0),
        seconds: place(row, 1).unwrap_or(0),
    }
}

fn place(row: &Value, i: usize) -> Option<u64> {
    match row.get(i) {
        Some(member) => member.as_u64(),
        None => None,
    }
}

fn flag(chosen: &Value, name: &str, usual: bool) -> bool {
    match chosen.get(name) {
        Some(member) => member.as_bool().unwrap_or(usual),
        None => usual,
    }
}

fn limit(chosen: &Value, name: &str, usual: u64) -> u64 {
    optional(chosen, name).unwrap_or(usual)
}

fn text<'a>(chosen: &'a Value, name: &str, usual: &'static [u8]) -> &'a [u8] {
    match chosen.get(name) {
        Some(member) => match member.as_str() {
            Some(text) => text.as_bytes(),
            None => usual,
        },
        None => usual,
    }
}

/// The options, over their lists.
pub fn options<'a>(chosen: &'a Value, lists: &'a OptionLists<'a>) -> Options<'a> {
    with_lists(texts_of(chosen), lists)
}

fn kept_of<'a>(names: &'a Option<Vec<&'a [u8]>>) -> Option<&'a [&'a [u8]]> {
    match names {
        None => None,
        Some(names) => Some(names.as_slice()),
    }
}

fn with_lists<'a>(options: Options<'a>, lists: &'a OptionLists<'a>) -> Options<'a> {
    Options {
        targeted: lists.targeted.as_slice(),
        lifetimes: lists.lifetimes.as_slice(),
        never_stored: lists.never_stored.as_slice(),
        drops: lists.drops.as_slice(),
        hosts: lists.hosts.as_slice(),
        refuses: lists.refuses.as_slice(),
        query_drops: lists.query_drops.as_slice(),
        encodings: lists.encodings.as_slice(),
        cookie_keeps: kept_of(&lists.cookie_keeps),
        response_drops: lists.response_drops.as_slice(),
        forced_lifetimes: lists.forced_lifetimes.as_slice(),
        ..options
    }
}

fn texts_of(chosen: &Value) -> Options<'_> {
    let options = flags_of(chosen);
    Options {
        name: text(chosen, "name", options.name),
        scheme: text(chosen, "scheme", options.scheme),
        origin_host: text(chosen, "origin_host", options.origin_host),
        origin_prefix: text(chosen, "origin_prefix", options.origin_prefix),
        ..options
    }
}

fn flags_of(chosen: &Value) -> Options<'static> {
    let options = limits_of(chosen);
    Options {
        heeds_requests: flag(chosen, "heeds_requests", options.heeds_requests),
        authorized_reads: flag(chosen, "authorized_reads", options.authorized_reads),
        stores_cookies: flag(chosen, "stores_cookies", options.stores_cookies),
        fills_ranges: flag(chosen, "fills_ranges", options.fills_ranges),
        fills_heads: flag(chosen, "fills_heads", options.fills_heads),
        fills_conditions: flag(chosen, "fills_conditions", options.fills_conditions),
        folds_percent: flag(chosen, "folds_percent", options.folds_percent),
        heuristic_tenth: flag(chosen, "heuristic_tenth", options.heuristic_tenth),
        s_maxage_lets_stale: flag(chosen, "s_maxage_lets_stale", options.s_maxage_lets_stale),
        forwards_for: flag(chosen, "forwards_for", options.forwards_for),
        trusts_date: flag(chosen, "trusts_date", options.trusts_date),
        query_sorts: flag(chosen, "query_sorts", options.query_sorts),
        forces_private: flag(chosen, "forces_private", options.forces_private),
        ..options
    }
}

fn limits_of(chosen: &Value) -> Options<'static> {
    let usual = Options::usual();
    Options {
        most_head: limit(chosen, "most_head", usual.most_head),
        most_target: limit(chosen, "most_target", usual.most_target),
        most_lines: limit(chosen, "most_lines", usual.most_lines),
        most_line: limit(chosen, "most_line", usual.most_line),
        most_heuristic: limit(chosen, "most_heuristic", usual.most_heuristic),
        stale_while_revalidate: number(chosen, "stale_while_revalidate"),
        stale_if_error: number(chosen, "stale_if_error"),
        stale_if_down: number(chosen, "stale_if_down"),
        most_ranges: limit(chosen, "most_ranges", usual.most_ranges),
        ..usual
    }
}
