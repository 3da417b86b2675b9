//! A request's lines as they are sent on (RFC 9110, 7.6).
ghost use Rattle.std.specs.Prelude.{◌≡◌, ◌++◌, ◌∷◌, [], map, IfOk, OnOk};
ghost use Rattle.rules_fields.specs.Tables.{among};
ghost use Rattle.rules_fields.specs.Texts.{small};
ghost use Rattle.rules_fields.specs.Fields.{field, fields, without};
ghost use Rattle.rules_fields.specs.Types.{asked_of, chosen};
ghost use Rattle.http1_message_parts.specs.Views.{made_field, made_fields};
ghost use Rattle.rules_fields.specs.Meaning.{text_bytes};
ghost use Rattle.rules_forward.specs.Forward.{is_counted, one_less, counted, rewritten, for_line, trailers_lines, passed, forward};

use http1_message_parts::text::MadeLine;
use http1_message_parts::via::{add_listed, via_value};
use itoa::Buffer;
use rules_fields::Line;
use rules_fields::blanks::is_small;
use rules_fields::directive::Text;
use rules_fields::lines::without;
use rules_fields::number::digits;
use rules_fields::tables::FRAMES;
use rules_fields::types::{Options, Request};
use std::alloc::{AllocError, Global};

fn is_counted(method: &[u8]) -> bool
    ensures { result ≡ is_counted method.now }
{
    method == b"TRACE".as_slice() || method == b"OPTIONS".as_slice()
}

fn one_less<'a>(alloc: Global, value: &'a [u8]) -> Result<Text<'a>, AllocError>
    ensures { IfOk result (λ text. text_bytes text ≡ one_less value.now) }
{
    match digits(value) {
        None => Ok(Text::Lent(value)),
        Some(n) => {
            let mut buffer = Buffer::new();
            let less = Vec::from_slice(alloc, buffer.format(n.saturating_sub(1)).as_bytes())?;
            Ok(Text::Owned(less))
        }
    }
}

// Max-Forwards one less.
fn counted<'a>(alloc: Global, counts: bool, line: Line<'a>) -> Result<MadeLine<'a>, AllocError>
    ensures { IfOk result (λ made. made_field made ≡ counted counts (field line.entry)) }
{
    if counts && is_small(line.name, b"max-forwards") {
        return Ok(MadeLine {
            name: line.name,
            value: one_less(alloc, line.value)?,
        });
    }
    Ok(MadeLine {
        name: line.name,
        value: Text::Lent(line.value),
    })
}

// Whether a line is written anew.
fn is_rewritten(forwards_for: bool, name: &[u8]) -> bool
    ensures { result ≡ among (rewritten forwards_for) (small name.now) }
{
    is_small(name, b"via") || (forwards_for && is_small(name, b"x-forwarded-for"))
}

// Adds the lines that aren't written anew.
fn add_counted<'a>(
    alloc: Global,
    made: &mut Vec<MadeLine<'a>>,
    lines: &[Line<'a>],
    counts: bool,
    forwards_for: bool,
) -> Result<(), AllocError>
    ensures { OnOk result (made_fields made.new.items ≡ made_fields made.old.items ++ map (counted counts) (without (rewritten forwards_for) (fields lines.now))) }
{
    for line in lines {
        if !is_rewritten(forwards_for, line.name) {
            made.push(counted(alloc, counts, *line)?)?;
        }
    }
    Ok(())
}

// Adds X-Forwarded-For.
fn add_for<'a>(
    alloc: Global,
    made: &mut Vec<MadeLine<'a>>,
    lines: &[Line<'a>],
    peer: &[u8],
    forwards_for: bool,
) -> Result<(), AllocError>
    ensures { OnOk result (made_fields made.new.items ≡ made_fields made.old.items ++ for_line forwards_for peer.now (fields lines.now)) }
{
    if !forwards_for {
        return Ok(());
    }
    let mut value = Vec::new(alloc);
    add_listed(&mut value, lines, b"x-forwarded-for")?;
    value.extend_from_slice(peer)?;
    made.push(MadeLine {
        name: b"X-Forwarded-For",
        value: Text::Owned(value),
    })?;
    Ok(())
}

fn add_trailers(made: &mut Vec<MadeLine<'_>>, takes: bool) -> Result<(), AllocError>
    ensures { OnOk result (made_fields made.new.items ≡ made_fields made.old.items ++ trailers_lines takes) }
{
    if takes {
        made.push(MadeLine {
            name: b"TE",
            value: Text::Lent(b"trailers"),
        })?;
        made.push(MadeLine {
            name: b"Connection",
            value: Text::Lent(b"TE"),
        })?;
    }
    Ok(())
}

fn passed<'a>(
    alloc: Global,
    options: &Options<'_>,
    lines: &[Line<'a>],
) -> Result<Vec<Line<'a>>, AllocError>
    ensures { IfOk result (λ kept. fields kept.items ≡ passed (chosen options.now) (fields lines.now)) }
{
    let own = without(alloc, lines, FRAMES)?;
    without(alloc, own.as_slice(), options.drops)
}

/// The lines of a request as they are sent on; `peer` is the client's address. The length or coding of its body comes to them.
#[tactic(auto, unfolding(crate::specs::Forward::forward))]
pub fn forward<'a>(
    alloc: Global,
    request: &Request<'a>,
    peer: &[u8],
    options: &Options<'_>,
) -> Result<Vec<MadeLine<'a>>, AllocError>
    ensures { IfOk result (λ made. made_fields made.items ≡ forward (asked_of request.now) peer.now (chosen options.now)) }
{
    let lines = passed(alloc, options, request.lines)?;
    let via = via_value(alloc, lines.as_slice(), request.minor, options.name)?;
    let counts = is_counted(request.method);
    let mut made = Vec::with_capacity(alloc, lines.len().saturating_add(5))?;
    made.push(MadeLine {
        name: b"Host",
        value: Text::Lent(request.host),
    })?;
    add_counted(
        alloc,
        &mut made,
        lines.as_slice(),
        counts,
        options.forwards_for,
    )?;
    add_for(
        alloc,
        &mut made,
        lines.as_slice(),
        peer,
        options.forwards_for,
    )?;
    made.push(MadeLine {
        name: b"Via",
        value: Text::Owned(via),
    })?;
    add_trailers(&mut made, request.takes_trailers)?;
    Ok(made)
}
