//! What counts of a response's head.
ghost use Rattle.std.specs.Prelude.{◌≡◌, IfOk};
ghost use Rattle.rules_fields.specs.Fields.{fields};
ghost use Rattle.rules_fields.specs.Says.{says, said};
ghost use Rattle.rules_fields.specs.Types.{chosen};

use crate::Line;
use crate::directive::Directive;
use crate::lines::first;
use crate::reading::directives;
use crate::targeted::preferred;
use crate::types::Options;
use std::alloc::{AllocError, Global};

/// What counts of a head: its directives, and the first Expires.
#[derive(Drop)]
pub struct Says<'a> {
    /// The directives.
    pub directives: Vec<Directive<'a>>,
    /// The value of Expires.
    pub expires: Option<&'a [u8]>,
    /// They are those of a targeted field.
    pub is_targeted: bool,
}

/// What counts of a response's head (RFC 9213, 2.2): the first targeted field that reads, alone, else Cache-Control and the first Expires.
pub fn say_of<'a>(
    alloc: Global,
    lines: &[Line<'a>],
    options: &Options<'_>,
) -> Result<Says<'a>, AllocError>
    ensures { IfOk result (λ s. said s ≡ says (fields lines.now) (chosen options.now)) }
{
    if let Some(directives) = preferred(alloc, lines, options.targeted)? {
        return Ok(Says {
            directives,
            expires: None,
            is_targeted: true,
        });
    }
    Ok(Says {
        directives: directives(alloc, lines, b"cache-control")?,
        expires: first(lines, b"expires"),
        is_targeted: false,
    })
}
