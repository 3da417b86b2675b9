//! The lines that are for all recipients (RFC 9110, 7.6.1).
ghost use Rattle.std.specs.Prelude.{◌≡◌, map, IfOk};
ghost use Rattle.rules_fields.specs.Texts.{small};
ghost use Rattle.rules_fields.specs.Tables.{among};
ghost use Rattle.rules_fields.specs.Fields.{fields};
ghost use Rattle.http1_message_parts.specs.EndToEnd.{is_hop_name, kept_lines};

use rules_fields::Line;
use rules_fields::blanks::{is_same, is_small};
use rules_fields::tables::{is_hop, is_needed};
use std::alloc::{AllocError, Global};

// Whether a name is one of these, both in any case.
fn is_listed(names: &[&[u8]], name: &[u8]) -> bool
    ensures { result ≡ among (map small (map (λ n. n.now) names.now)) (small name.now) }
{
    for n in names {
        if is_same(name, n) {
            return true;
        }
    }
    false
}

// Whether a field is of this hop, by the names that Connection has.
fn is_hop_name(connection: &[&[u8]], name: &[u8]) -> bool
    ensures { result ≡ is_hop_name (map small (map (λ n. n.now) connection.now)) (small name.now) }
{
    is_hop(name)
        || (is_listed(connection, name) && !(is_needed(name) || is_small(name, b"set-cookie")))
}

/// The lines without those of this hop, by the names that Connection has.
pub fn kept_lines<'a>(
    alloc: Global,
    lines: &[Line<'a>],
    connection: &[&[u8]],
) -> Result<Vec<Line<'a>>, AllocError>
    ensures { IfOk result (λ kept. fields kept.items ≡ kept_lines (map small (map (λ n. n.now) connection.now)) (fields lines.now)) }
{
    let mut kept = Vec::with_capacity(alloc, lines.len())?;
    for line in lines {
        if !is_hop_name(connection, line.name) {
            kept.push(*line)?;
        }
    }
    Ok(kept)
}
