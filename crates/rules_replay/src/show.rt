//! What a call gives, as a list of JSON: a word, and what belongs to it.
use http1_message_parts::text::MadeLine;
use itoa::Buffer;
use rules_fields::Line;
use rules_fields::types::Framing;
use rules_response::lines::SentLine;
use std::alloc::AllocError;

/// Begins a list by its word.
pub fn begin(out: &mut String, word: &str) -> Result<(), AllocError> {
    out.push_str("[\"")?;
    out.push_str(word)?;
    out.push('"')?;
    Ok(())
}

/// Ends a list.
pub fn end(out: &mut String) -> Result<(), AllocError> {
    out.push(']')?;
    Ok(())
}

/// A list of a word alone.
pub fn word(out: &mut String, word: &str) -> Result<(), AllocError> {
    begin(out, word)?;
    end(out)
}

/// A list of `true` or `false`.
pub fn truth(out: &mut String, holds: bool) -> Result<(), AllocError> {
    word(out, if holds { "true" } else { "false" })
}

/// Adds a number.
pub fn add_number(out: &mut String, number: u64) -> Result<(), AllocError> {
    let mut buffer = Buffer::new();
    out.push_str(", ")?;
    out.push_str(buffer.format(number))
}

/// Adds a moment.
pub fn add_moment(out: &mut String, moment: i128) -> Result<(), AllocError> {
    let mut buffer = Buffer::new();
    out.push_str(", ")?;
    out.push_str(buffer.format(moment))
}

/// Adds a number, or `null`.
pub fn add_optional(out: &mut String, number: Option<u64>) -> Result<(), AllocError> {
    match number {
        Some(number) => add_number(out, number),
        None => out.push_str(", null"),
    }
}

/// Adds a text.
pub fn add_text(out: &mut String, text: &[u8]) -> Result<(), AllocError> {
    out.push_str(", ")?;
    push_text(out, text)
}

/// Adds a text in small letters.
pub fn add_small(out: &mut String, text: &[u8]) -> Result<(), AllocError> {
    out.push_str(", ")?;
    push_small(out, text)
}

fn push_small(out: &mut String, text: &[u8]) -> Result<(), AllocError> {
    out.push('"')?;
    for b in text {
        push_byte(out, b.to_ascii_lowercase())?;
    }
    out.push('"')?;
    Ok(())
}

fn push_text(out: &mut String, text: &[u8]) -> Result<(), AllocError> {
    out.push('"')?;
    for b in text {
        push_byte(out, *b)?;
    }
    out.push('"')?;
    Ok(())
}

// A byte as the character of its number.
fn push_byte(out: &mut String, b: u8) -> Result<(), AllocError> {
    if b < b' ' || b > b'~' || b == b'"' || b == b'\\' {
        out.push_str("\\u00")?;
        out.push(hex_digit(b / 16))?;
        out.push(hex_digit(b % 16))?;
    } else {
        out.push(b as char)?;
    }
    Ok(())
}

fn hex_digit(n: u8) -> char {
    if n < 10 {
        (b'0'.wrapping_add(n)) as char
    } else {
        (b'a'.wrapping_add(n.wrapping_sub(10))) as char
    }
}

/// Adds a list of texts.
pub fn add_texts(out: &mut String, texts: &[&[u8]]) -> Result<(), AllocError> {
    out.push_str(", [")?;
    let mut is_first = true;
    for text in texts {
        separate(out, is_first)?;
        push_text(out, text)?;
        is_first = false;
    }
    end(out)
}

fn separate(out: &mut String, is_first: bool) -> Result<(), AllocError> {
    if is_first { Ok(()) } else { out.push_str(", ") }
}

fn push_pair(
    out: &mut String,
    is_first: bool,
    name: &[u8],
    value: &[u8],
) -> Result<(), AllocError> {
    separate(out, is_first)?;
    out.push('[')?;
    push_text(out, name)?;
    add_text(out, value)?;
    end(out)
}

/// Adds a list of names, in small letters.
pub fn add_names(out: &mut String, names: &[&[u8]]) -> Result<(), AllocError> {
    out.push_str(", [")?;
    let mut is_first = true;
    for name in names {
        separate(out, is_first)?;
        push_small(out, name)?;
        is_first = false;
    }
    end(out)
}

/// Adds lines.
pub fn add_lines(out: &mut String, lines: &[Line<'_>]) -> Result<(), AllocError> {
    out.push_str(", [")?;
    let mut is_first = true;
    for line in lines {
        push_pair(out, is_first, line.name, line.value)?;
        is_first = false;
    }
    end(out)
}

/// Adds lines that may be made.
pub fn add_made(out: &mut String, lines: &[MadeLine<'_>]) -> Result<(), AllocError> {
    out.push_str(", [")?;
    let mut is_first = true;
    for line in lines {
        push_pair(out, is_first, line.name, line.value.bytes())?;
        is_first = false;
    }
    end(out)
}

/// Adds lines as they are sent.
pub fn add_sent(out: &mut String, lines: &[SentLine<'_>]) -> Result<(), AllocError> {
    out.push_str(", [")?;
    let mut is_first = true;
    for line in lines {
        push_pair(out, is_first, line.name, line.value.bytes())?;
        is_first = false;
    }
    end(out)
}

/// Adds how a body ends.
pub fn add_framing(out: &mut String, framing: Framing) -> Result<(), AllocError> {
    add_text(out, framing_word(framing))?;
    add_optional(out, framing.stated())
}

fn framing_word(framing: Framing) -> &'static [u8] {
    match framing {
        Framing::None => b"none",
        Framing::Length(_) => b"length",
        Framing::Chunked => b"chunked",
        Framing::Close => b"close",
        Framing::HeadLength(_) => b"head_length",
    }
}
