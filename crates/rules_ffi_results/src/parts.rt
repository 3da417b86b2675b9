//! The parts of a body that are sent.
ghost use Rattle.std.specs.Prelude.{◌≡◌, ◌++◌, map, length, IfOk, OnOk};
ghost use Rattle.rules_response.specs.Reply.{piece_of};
ghost use Rattle.rules_ffi_results.specs.Parts.{Puts, befores, part_shapes};

use crate::marks::NONE;
use rules_ffi_arguments::room::add_text;
use rules_ffi_arguments::shapes::PartShape;
use rules_response::answering::Part;
use std::alloc::{AllocError, Global};

/// Adds the texts in front of parts, and tells of each where it stands.
pub fn add_parts(
    alloc: Global,
    text: &mut Vec<u8>,
    parts: &[Part],
) -> Result<Vec<PartShape>, AllocError>
    ensures text { OnOk result (text.new.items ≡ text.old.items ++ befores (map piece_of parts.now)) }
    ensures shapes { IfOk result (λ v. v.items ≡ part_shapes (length text.old.items) (map piece_of parts.now)) }
{
    let mut shapes = Vec::new(alloc);
    for part in parts {
        let before = add_text(text, part.before.as_slice())?;
        shapes.push(PartShape {
            before,
            from: part.from,
            to: part.to.unwrap_or(NONE),
        })?;
    }
    Ok(shapes)
}

/// Writes parts at the front of a table, if they fit.
pub fn put_parts(table: &mut [PartShape], parts: &[PartShape]) -> bool
    ensures { Puts table.old parts.now table.new result }
{
    if table.len() < parts.len() {
        return false;
    }
    table[..parts.len()].copy_from_slice(parts);
    true
}
