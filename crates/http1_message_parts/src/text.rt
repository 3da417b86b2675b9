//! Field lines whose values may be made.
ghost use Rattle.std.specs.Prelude.{◌≡◌, IfOk};
ghost use Rattle.rules_fields.specs.Fields.{field, fields};
ghost use Rattle.http1_message_parts.specs.Views.{made_field, made_fields};

use rules_fields::Line;
use rules_fields::directive::Text;
use std::alloc::{AllocError, Global};

/// A field line whose value may be made.
#[derive(Drop)]
pub struct MadeLine<'a> {
    /// The name.
    pub name: &'a [u8],
    /// The value.
    pub value: Text<'a>,
}

impl MadeLine<'_> {
    /// The line.
    pub fn line(&self) -> Line<'_>
        ensures { field result ≡ made_field self.now }
    {
        Line {
            name: self.name,
            value: self.value.bytes(),
        }
    }
}

/// The lines, lent.
pub fn lines_of<'a>(alloc: Global, made: &'a [MadeLine<'a>]) -> Result<Vec<Line<'a>>, AllocError>
    ensures { IfOk result (λ lines. fields lines.items ≡ made_fields made.now) }
{
    let mut lines = Vec::with_capacity(alloc, made.len())?;
    for line in made {
        lines.push(line.line())?;
    }
    Ok(lines)
}
