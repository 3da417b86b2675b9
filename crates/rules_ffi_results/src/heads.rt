//! Whole heads, as they are sent.
ghost use Rattle.std.specs.Prelude.{◌≡◌, ◌++◌, OnOk};
ghost use Rattle.std.specs.Fmt.{decimal};
ghost use Rattle.http1_message_parts.specs.Views.{made_fields};
ghost use Rattle.rules_response.specs.Sent.{sent_fields};
ghost use Rattle.rules_ffi_arguments.specs.Rooms.{block};
ghost use Rattle.rules_ffi_results.specs.Heads.{status_line, counted, sent_framing, coding, closing, ending};

use crate::phrases::phrase;
use http1_message_parts::text::MadeLine;
use itoa::Buffer;
use rules_ffi_arguments::room::add_line;
use rules_response::lines::SentLine;
use std::alloc::AllocError;

/// Adds a number in decimal digits.
pub fn add_number(text: &mut Vec<u8>, number: u64) -> Result<(), AllocError>
    ensures { OnOk result (text.new.items ≡ text.old.items ++ decimal number) }
{
    let mut buffer = Buffer::new();
    text.extend_from_slice(buffer.format(number).as_bytes())
}

/// Adds a status line.
#[tactic(auto, unfolding(crate::specs::Heads::status_line))]
pub fn add_status(text: &mut Vec<u8>, code: u16) -> Result<(), AllocError>
    ensures { OnOk result (text.new.items ≡ text.old.items ++ status_line code) }
{
    text.extend_from_slice(b"HTTP/1.1 ")?;
    add_number(text, code as u64)?;
    text.push(b' ')?;
    text.extend_from_slice(phrase(code))?;
    text.extend_from_slice(b"\r\n")
}

/// Adds a line with a number.
pub fn add_counted(text: &mut Vec<u8>, name: &[u8], number: u64) -> Result<(), AllocError>
    ensures { OnOk result (text.new.items ≡ text.old.items ++ counted name.now number) }
{
    text.extend_from_slice(name)?;
    text.extend_from_slice(b": ")?;
    add_number(text, number)?;
    text.extend_from_slice(b"\r\n")
}

/// Adds the lines that a client is sent.
pub fn add_sent(text: &mut Vec<u8>, lines: &[SentLine<'_>]) -> Result<(), AllocError>
    ensures { OnOk result (text.new.items ≡ text.old.items ++ block (sent_fields lines.now)) }
{
    for line in lines {
        add_line(text, line.name, line.value.bytes())?;
    }
    Ok(())
}

/// Adds the lines that an origin is sent.
pub fn add_made(text: &mut Vec<u8>, lines: &[MadeLine<'_>]) -> Result<(), AllocError>
    ensures { OnOk result (text.new.items ≡ text.old.items ++ block (made_fields lines.now)) }
{
    for line in lines {
        add_line(text, line.name, line.value.bytes())?;
    }
    Ok(())
}

/// How a body is sent, as a form and a length: by its length where that is known, else by chunks, but to HTTP/1.0 till the end of the connection.
pub fn sent_framing(has_body: bool, length: Option<u64>, minor: u64) -> (u64, u64)
    ensures { (result.0, result.1) ≡ sent_framing has_body length minor }
{
    if !has_body {
        return (0, u64::MAX);
    }
    match length {
        Some(n) => (1, n),
        None => {
            if minor == 1 {
                (2, u64::MAX)
            } else {
                (3, u64::MAX)
            }
        }
    }
}

fn add_coding(text: &mut Vec<u8>, form: u64) -> Result<(), AllocError>
    ensures { OnOk result (text.new.items ≡ text.old.items ++ coding form) }
{
    if form == 2 {
        return text.extend_from_slice(b"Transfer-Encoding: chunked\r\n");
    }
    Ok(())
}

fn add_closing(text: &mut Vec<u8>, closes: bool) -> Result<(), AllocError>
    ensures { OnOk result (text.new.items ≡ text.old.items ++ closing closes) }
{
    if closes {
        return text.extend_from_slice(b"Connection: close\r\n");
    }
    Ok(())
}

/// Ends a head: Transfer-Encoding of chunks, Connection where it closes, and an empty line.
pub fn add_end(text: &mut Vec<u8>, form: u64, closes: bool) -> Result<(), AllocError>
    ensures { OnOk result (text.new.items ≡ text.old.items ++ ending form closes) }
{
    add_coding(text, form)?;
    add_closing(text, closes)?;
    text.extend_from_slice(b"\r\n")
}
