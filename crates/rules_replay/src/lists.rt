//! Calls over lists of variants.
use crate::show;
use crate::values::{bytes, number, plain};
use rules_ffi::listing::list_for;
use rules_ffi::variants::keys_of;
use rules_ffi_results::marks::DONE;
use rules_fields::Line;
use rules_fields::types::{Options, Request};
use serde_json::Value;
use std::alloc::{AllocError, Global};

/// The second keys of a request by a list.
pub fn second_keys(
    alloc: Global,
    value: &Value,
    request: &Request<'_>,
    options: &Options<'_>,
    out: &mut String,
) -> Result<(), AllocError> {
    let list = bytes(alloc, value, "list")?;
    let keys = keys_of(alloc, request, list.bytes(), options)?;
    show::begin(out, "keys")?;
    for key in keys.iter() {
        show::add_text(out, key.before.as_slice())?;
    }
    show::end(out)
}

/// The place of a response's set in a list, or the list that it is put into.
pub fn listing(
    alloc: Global,
    value: &Value,
    lines: &[Line<'_>],
    out: &mut String,
) -> Result<(), AllocError> {
    let list = bytes(alloc, value, "list")?;
    let token = plain(value, "token");
    let (text, told) = list_for(alloc, lines, list.bytes(), token, number(value, "now"))?;
    if told.status == DONE {
        show::begin(out, "place")?;
        show::add_number(out, told.place)?;
    } else {
        show::begin(out, "list")?;
        let from = (told.body.from as usize).min(text.len());
        show::add_text(out, &text.as_slice()[from..])?;
    }
    show::end(out)
}
