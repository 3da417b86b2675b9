//! Stored rows, as an answer sends them.
ghost use Rattle.std.specs.Prelude.{◌≡◌, ◌++◌, ◌||◌, codes, bytes_eq, option_map, Ok, IfOk, OnOk};
ghost use Rattle.rules_fields.specs.Texts.{small};
ghost use Rattle.rules_fields.specs.Fields.{field};
ghost use Rattle.http1_message_parts.specs.Lines.{field_of};
ghost use Rattle.rules_ffi_arguments.specs.Rooms.{line_text};
ghost use Rattle.rules_serving.specs.Whole.{StandsAs, behind_colon, with_text, behind, copied_row, copied};

use http1_message_parts::rows::{field_of, first_line, row_of};
use rules_ffi_arguments::room::add_line;
use rules_fields::Line;
use rules_fields::blanks::is_small;
use std::alloc::AllocError;

// Whether a name is one that each answer writes itself and that isn't gathered.
fn is_own(name: &[u8]) -> bool
    ensures { result ≡ (bytes_eq (small name.now) (codes "age") || bytes_eq (small name.now) (codes "content-length")) }
{
    is_small(name, b"age") || is_small(name, b"content-length")
}

// What stands behind a colon and a space.
fn behind_colon(text: &[u8]) -> Option<&[u8]>
    ensures { option_map (λ rest. rest.now) result ≡ behind_colon text.now }
{
    match text {
        [b':', b' ', rest @ ..] => Some(rest),
        _ => None,
    }
}

// Whether a row that is a line stands as an answer writes it: a space behind the colon, and no other blank round the value.
fn stands_as(row: &[u8], line: &Line<'_>) -> bool
    requires { field_of row.now ≡ Ok (field line.now) }
    ensures { StandsAs row.now (field line.now) result }
{
    let (_, after) = row.split_at(line.name.len());
    match behind_colon(after) {
        Some(value) => value.len() == line.value.len(),
        None => false,
    }
}

// Adds a row that is a line, by one copy where it stands as it is written.
fn add_stored(text: &mut Vec<u8>, row: &[u8], line: &Line<'_>) -> Result<(), AllocError>
    requires { field_of row.now ≡ Ok (field line.now) }
    ensures { OnOk result (text.new.items ≡ text.old.items ++ line_text (field line.now)) }
{
    if stands_as(row, line) {
        text.extend_from_slice(row)?;
        return text.extend_from_slice(b"\r\n");
    }
    add_line(text, line.name, line.value)
}

// Adds a stored row, where it isn't one that the answer writes itself, and tells whether it is an Accept-Ranges; none of a wrong one and of a Cache-Status.
fn add_row(text: &mut Vec<u8>, row: &[u8]) -> Result<Option<bool>, AllocError>
    ensures { IfOk result (λ r. option_map (with_text text.new.items) r ≡ option_map (behind text.old.items) (copied_row row.now)) }
{
    let Ok(line) = field_of(row) else {
        return Ok(None);
    };
    if is_small(line.name, b"cache-status") {
        return Ok(None);
    }
    if is_own(line.name) {
        return Ok(Some(false));
    }
    add_stored(text, row, &line)?;
    Ok(Some(is_small(line.name, b"accept-ranges")))
}

/// Adds the stored rows, but for those that the answer writes itself, and tells whether an Accept-Ranges is among them; none where one is wrong or a
/// Cache-Status.
pub fn add_rows(text: &mut Vec<u8>, block: &[u8]) -> Result<Option<bool>, AllocError>
    ensures { IfOk result (λ r. option_map (with_text text.new.items) r ≡ option_map (behind text.old.items) (copied block.now)) }
{
    let mut says = false;
    let mut left = Some(block);
    while let Some(rest) = left {
        let (line, more) = first_line(rest);
        left = more;
        let row = row_of(line);
        if row.is_empty() {
            return Ok(Some(says));
        }
        match add_row(text, row)? {
            None => return Ok(None),
            Some(it) => says = says || it,
        }
    }
    Ok(Some(says))
}
