//! Lists with one more element, and Via (RFC 9110, 7.6.3).
ghost use Rattle.std.specs.Prelude.{◌≡◌, ◌++◌, IfOk, OnOk};
ghost use Rattle.rules_fields.specs.Fields.{fields, all};
ghost use Rattle.http1_message_parts.specs.Via.{listed, via_value};

use itoa::Buffer;
use rules_fields::Line;
use rules_fields::blanks::is_small;
use std::alloc::{AllocError, Global};

/// Adds the values of all lines of a name, each with a comma and a blank after it.
pub fn add_listed(text: &mut Vec<u8>, lines: &[Line<'_>], name: &[u8]) -> Result<(), AllocError>
    ensures { OnOk result (text.new.items ≡ text.old.items ++ listed (all name.now (fields lines.now))) }
{
    for line in lines {
        if is_small(line.name, name) {
            text.extend_from_slice(line.value)?;
            text.extend_from_slice(b", ")?;
        }
    }
    Ok(())
}

/// The value of Via with one more element: of the version by which the head came, and of this proxy's name.
pub fn via_value(
    alloc: Global,
    lines: &[Line<'_>],
    minor: u8,
    name: &[u8],
) -> Result<Vec<u8>, AllocError>
    ensures { IfOk result (λ value. value.items ≡ via_value minor name.now (fields lines.now)) }
{
    let mut buffer = Buffer::new();
    let mut value = Vec::new(alloc);
    add_listed(&mut value, lines, b"via")?;
    value.extend_from_slice(b"1.")?;
    value.extend_from_slice(buffer.format(minor).as_bytes())?;
    value.push(b' ')?;
    value.extend_from_slice(name)?;
    Ok(value)
}
