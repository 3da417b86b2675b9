//! Texts and lines that spans name.
ghost use Rattle.std.specs.Prelude.{◌≡◌};
ghost use Rattle.rules_fields.specs.Fields.{fields};
ghost use Rattle.rules_ffi_arguments.specs.Given.{Gives, NeedsNoMemory};
ghost use Rattle.rules_ffi_arguments.specs.Spans.{text_in, block_lines, lines_in, value_in};

use crate::bad::Bad;
use crate::shapes::Span;
use http1_message_parts::rows::read_fields;
use httparse::is_header_value;
use rules_fields::Line;
use std::alloc::Global;

/// The text that a span names, which lies within the bytes.
pub fn text_in<'a>(text: &'a [u8], span: Span) -> Result<&'a [u8], Bad>
    ensures gives { Gives (λ t. t.now) result (text_in text.now span) }
    ensures memory { NeedsNoMemory result }
{
    if span.from <= span.to && span.to <= text.len() as u64 {
        Ok(&text[span.from as usize..span.to as usize])
    } else {
        Err(Bad::Call)
    }
}

/// The lines of a block: each `name: value`, CR and LF.
pub fn block_lines<'a>(alloc: Global, block: &'a [u8]) -> Result<Vec<Line<'a>>, Bad>
    ensures { Gives (λ v. fields v.items) result (block_lines block.now) }
{
    match read_fields(alloc, block, u64::MAX)? {
        Ok(lines) => Ok(lines),
        Err(_) => Err(Bad::Call),
    }
}

/// The lines of the block that a span names.
pub fn lines_in<'a>(alloc: Global, text: &'a [u8], span: Span) -> Result<Vec<Line<'a>>, Bad>
    ensures { Gives (λ v. fields v.items) result (lines_in text.now span) }
{
    let block = text_in(text, span)?;
    block_lines(alloc, block)
}

/// A text that can stand in a field's value (RFC 9110, 5.5).
pub fn value_in(text: &[u8]) -> Result<&[u8], Bad>
    ensures gives { Gives (λ t. t.now) result (value_in text.now) }
    ensures memory { NeedsNoMemory result }
{
    if is_header_value(text) {
        Ok(text)
    } else {
        Err(Bad::Call)
    }
}
