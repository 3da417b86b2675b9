//! Calls over texts and lines.
use crate::calls::TextCall;
use crate::values::{bytes, kept, number, plain, rows};
use crate::{lists, reading, show, twice};
use http1_message_parts::end::head_end;
use http1_message_parts::text::lines_of;
use rules_fields::Line;
use rules_fields::dates::date_of;
use rules_fields::directive::Directive;
use rules_fields::lines::elements;
use rules_fields::number::{digits, seconds};
use rules_fields::reading::directives;
use rules_fields::tags::{Tag, tag_of, tags_of};
use rules_fields::targeted::targeted;
use rules_fields::types::Options;
use rules_response::ranges::{Span, ranges};
use rules_reuse::using::error_of;
use rules_storage::age::arrival;
use rules_storage::selecting::selecting;
use serde_json::Value;
use std::alloc::{AllocError, Global};

/// What a call over texts gives.
pub fn answer(
    alloc: Global,
    call: TextCall,
    value: &Value,
    options: &Options<'_>,
    out: &mut String,
) -> Result<(), AllocError> {
    match call {
        TextCall::HeadEnd
        | TextCall::Digits
        | TextCall::Seconds
        | TextCall::Date
        | TextCall::Tag
        | TextCall::Ranges => of_text(alloc, call, value, options, out),
        TextCall::ReadRequest => reading::request(alloc, value, options, out),
        TextCall::ReadResponse => reading::response(alloc, value, options, out),
        TextCall::TwiceRequest => twice::request(alloc, value, options, out),
        TextCall::TwiceResponse => twice::response(alloc, value, options, out),
        TextCall::ErrorOf => error_status(alloc, value, options, out),
        _ => of_lines(alloc, call, value, options, out),
    }
}

fn of_text(
    alloc: Global,
    call: TextCall,
    value: &Value,
    options: &Options<'_>,
    out: &mut String,
) -> Result<(), AllocError> {
    let text = bytes(alloc, value, "text")?;
    let text = text.bytes();
    match call {
        TextCall::HeadEnd => number_or_none(out, end_of(text, number(value, "from"))),
        TextCall::Digits => number_or_none(out, digits(text)),
        TextCall::Seconds => number_or_none(out, seconds(text)),
        TextCall::Date => number_or_none(out, date_of(alloc, text)?),
        TextCall::Tag => tag(out, tag_of(text)),
        _ => parts(alloc, text, number(value, "length"), options, out),
    }
}

fn end_of(text: &[u8], from: u64) -> Option<u64> {
    match head_end(text, usize::try_from(from).unwrap_or(usize::MAX)) {
        Some(end) => Some(end as u64),
        None => None,
    }
}

fn number_or_none(out: &mut String, number: Option<u64>) -> Result<(), AllocError> {
    match number {
        None => show::word(out, "none"),
        Some(number) => {
            show::begin(out, "number")?;
            show::add_number(out, number)?;
            show::end(out)
        }
    }
}

fn tag(out: &mut String, tag: Option<Tag<'_>>) -> Result<(), AllocError> {
    match tag {
        None => show::word(out, "none"),
        Some(tag) => {
            show::begin(out, "tag")?;
            add_tag(out, tag)?;
            show::end(out)
        }
    }
}

fn add_tag(out: &mut String, tag: Tag<'_>) -> Result<(), AllocError> {
    let kind: &[u8] = if tag.is_weak { b"weak" } else { b"strong" };
    show::add_text(out, kind)?;
    show::add_text(out, tag.text)
}

fn parts(
    alloc: Global,
    text: &[u8],
    length: u64,
    options: &Options<'_>,
    out: &mut String,
) -> Result<(), AllocError> {
    match ranges(alloc, text, length, options.most_ranges)? {
        None => show::word(out, "none"),
        Some(parts) => spans(out, parts.as_slice()),
    }
}

fn spans(out: &mut String, parts: &[Span]) -> Result<(), AllocError> {
    show::begin(out, "parts")?;
    for part in parts {
        show::add_number(out, part.from)?;
        show::add_number(out, part.to)?;
    }
    show::end(out)
}

fn of_lines(
    alloc: Global,
    call: TextCall,
    value: &Value,
    options: &Options<'_>,
    out: &mut String,
) -> Result<(), AllocError> {
    let rows = rows(alloc, value, "lines")?;
    let lines = lines_of(alloc, rows.as_slice())?;
    let lines = lines.as_slice();
    let name = plain(value, "name");
    match call {
        TextCall::Tags => tags(alloc, lines, name, out),
        TextCall::Elements => list(alloc, lines, name, out),
        TextCall::Directives => all_directives(alloc, lines, name, out),
        TextCall::Targeted => all_targeted(alloc, lines, name, out),
        TextCall::Selecting => names(alloc, lines, out),
        TextCall::Listing => lists::listing(alloc, value, lines, out),
        _ => born(alloc, lines, value, options, out),
    }
}

fn tags(
    alloc: Global,
    lines: &[Line<'_>],
    name: &[u8],
    out: &mut String,
) -> Result<(), AllocError> {
    match tags_of(alloc, lines, name)? {
        None => show::word(out, "none"),
        Some(tags) => {
            show::begin(out, "tags")?;
            for tag in tags.iter() {
                add_tag(out, *tag)?;
            }
            show::end(out)
        }
    }
}

fn list(
    alloc: Global,
    lines: &[Line<'_>],
    name: &[u8],
    out: &mut String,
) -> Result<(), AllocError> {
    let found = elements(alloc, lines, name)?;
    show::begin(out, "elements")?;
    show::add_texts(out, found.as_slice())?;
    show::end(out)
}

fn all_directives(
    alloc: Global,
    lines: &[Line<'_>],
    name: &[u8],
    out: &mut String,
) -> Result<(), AllocError> {
    let found = directives(alloc, lines, name)?;
    shown_directives(out, found.as_slice())
}

fn all_targeted(
    alloc: Global,
    lines: &[Line<'_>],
    name: &[u8],
    out: &mut String,
) -> Result<(), AllocError> {
    match targeted(alloc, lines, name)? {
        None => show::word(out, "none"),
        Some(found) => shown_directives(out, found.as_slice()),
    }
}

// Their names, and their values; `null` where there is none.
fn shown_directives(out: &mut String, found: &[Directive<'_>]) -> Result<(), AllocError> {
    show::begin(out, "directives")?;
    for directive in found {
        show::add_small(out, directive.name.bytes())?;
        match &directive.value {
            Some(value) => show::add_text(out, value.bytes())?,
            None => show::add_optional(out, None)?,
        }
    }
    show::end(out)
}

fn names(alloc: Global, lines: &[Line<'_>], out: &mut String) -> Result<(), AllocError> {
    let names = selecting(alloc, lines)?;
    show::begin(out, "names")?;
    for name in names.iter() {
        show::add_text(out, name.as_slice())?;
    }
    show::end(out)
}

fn born(
    alloc: Global,
    lines: &[Line<'_>],
    value: &Value,
    options: &Options<'_>,
    out: &mut String,
) -> Result<(), AllocError> {
    let (asked, came) = (number(value, "asked"), number(value, "came"));
    let moment = arrival(alloc, lines, asked, came, options)?;
    show::begin(out, "moment")?;
    show::add_moment(out, moment)?;
    show::end(out)
}

fn error_status(
    alloc: Global,
    value: &Value,
    options: &Options<'_>,
    out: &mut String,
) -> Result<(), AllocError> {
    let status = match value.get("kept") {
        None => error_of(alloc, None, options)?,
        Some(member) => error_of_kept(alloc, member, options)?,
    };
    number_or_none(out, Some(status as u64))
}

fn error_of_kept(alloc: Global, value: &Value, options: &Options<'_>) -> Result<u16, AllocError> {
    let rows = rows(alloc, value, "lines")?;
    let lines = lines_of(alloc, rows.as_slice())?;
    let kept = kept(value, lines.as_slice());
    error_of(alloc, Some(&kept), options)
}
