//! Texts that are written: lines, heads, and where they go.
ghost use Rattle.std.specs.Prelude.{◌≡◌, ◌++◌, length, OnOk, IfOk};
ghost use Rattle.rules_fields.specs.Fields.{fields};
ghost use Rattle.rules_ffi_arguments.specs.Rooms.{line_text, block, behind, Fits};

use crate::shapes::Span;
use rules_fields::Line;
use std::alloc::AllocError;

/// Adds a line: `name: value`, CR and LF.
pub fn add_line(text: &mut Vec<u8>, name: &[u8], value: &[u8]) -> Result<(), AllocError>
    ensures { OnOk result (text.new.items ≡ text.old.items ++ line_text (name.now, value.now)) }
{
    text.extend_from_slice(name)?;
    text.extend_from_slice(b": ")?;
    text.extend_from_slice(value)?;
    text.extend_from_slice(b"\r\n")
}

/// Adds lines.
pub fn add_lines(text: &mut Vec<u8>, lines: &[Line<'_>]) -> Result<(), AllocError>
    ensures { OnOk result (text.new.items ≡ text.old.items ++ block (fields lines.now)) }
{
    for line in lines {
        add_line(text, line.name, line.value)?;
    }
    Ok(())
}

/// Adds lines, and tells where they stand.
pub fn add_block(text: &mut Vec<u8>, lines: &[Line<'_>]) -> Result<Span, AllocError>
    ensures text { OnOk result (text.new.items ≡ text.old.items ++ block (fields lines.now)) }
    ensures span { IfOk result (λ s. s ≡ behind (length text.old.items) (block (fields lines.now))) }
{
    let from = text.len() as u64;
    add_lines(text, lines)?;
    Ok(Span {
        from,
        to: text.len() as u64,
    })
}

/// Adds a text, and tells where it stands.
pub fn add_text(text: &mut Vec<u8>, more: &[u8]) -> Result<Span, AllocError>
    ensures text { OnOk result (text.new.items ≡ text.old.items ++ more.now) }
    ensures span { IfOk result (λ s. s ≡ behind (length text.old.items) more.now) }
{
    let from = text.len() as u64;
    text.extend_from_slice(more)?;
    Ok(Span {
        from,
        to: text.len() as u64,
    })
}

/// Writes a text at the front of a room, if it fits.
pub fn put(room: &mut [u8], text: &[u8]) -> bool
    ensures { Fits room.old text.now room.new result }
{
    if room.len() < text.len() {
        return false;
    }
    room[..text.len()].copy_from_slice(text);
    true
}
