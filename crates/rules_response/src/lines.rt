//! The lines that a client is sent.
ghost use Rattle.std.specs.Prelude.{◌≡◌, ◌++◌, ◌∷◌, [], map, filter, IfOk, OnOk};
ghost use Rattle.std.specs.Fmt.{decimal};
ghost use Rattle.rules_fields.specs.Texts.{small};
ghost use Rattle.rules_fields.specs.Tables.{among};
ghost use Rattle.rules_fields.specs.Fields.{fields, without};
ghost use Rattle.rules_fields.specs.Types.{chosen};
ghost use Rattle.rules_response.specs.Lines.{status_element, cache_status, age_seconds, sent};
ghost use Rattle.rules_response.specs.Sent.{sent_fields};

use itoa::Buffer;
use rules_fields::Line;
use rules_fields::directive::Text;
use rules_fields::lines::all;
use rules_fields::number::MOST_SECONDS;
use rules_fields::tables::among;
use rules_fields::types::Options;
use rules_storage::age::{SECOND, age};
use std::alloc::{AllocError, Global};

/// A line that is sent: lent from a head, or written for the answer.
#[derive(Drop)]
pub struct SentLine<'a> {
    /// The name.
    pub name: &'a [u8],
    /// The value.
    pub value: Text<'a>,
}

/// Adds lines without these names, which are in small letters.
pub fn add_without<'a>(
    sent: &mut Vec<SentLine<'a>>,
    lines: &[Line<'a>],
    names: &[&[u8]],
) -> Result<(), AllocError>
    ensures { OnOk result (sent_fields sent.new.items ≡ sent_fields sent.old.items ++ without (map (λ n. n.now) names.now) (fields lines.now)) }
{
    for line in lines {
        if !among(names, line.name) {
            add_lent(sent, line)?;
        }
    }
    Ok(())
}

/// Adds the lines of these names, which are in small letters.
pub fn add_among<'a>(
    sent: &mut Vec<SentLine<'a>>,
    lines: &[Line<'a>],
    names: &[&[u8]],
) -> Result<(), AllocError>
    ensures { OnOk result (sent_fields sent.new.items ≡ sent_fields sent.old.items ++ filter (λ f. among (map (λ n. n.now) names.now) (small f.0)) (fields lines.now)) }
{
    for line in lines {
        if among(names, line.name) {
            add_lent(sent, line)?;
        }
    }
    Ok(())
}

fn add_lent<'a>(sent: &mut Vec<SentLine<'a>>, line: &Line<'a>) -> Result<(), AllocError>
    ensures { OnOk result (sent_fields sent.new.items ≡ sent_fields sent.old.items ++ ((line.now.name.now, line.now.value.now) ∷ [])) }
{
    sent.push(SentLine {
        name: line.name,
        value: Text::Lent(line.value),
    })?;
    Ok(())
}

/// Adds a line with a text of its own.
pub fn add_own<'a>(
    sent: &mut Vec<SentLine<'a>>,
    name: &'a [u8],
    value: Vec<u8>,
) -> Result<(), AllocError>
    ensures { OnOk result (sent_fields sent.new.items ≡ sent_fields sent.old.items ++ ((name.now, value.items) ∷ [])) }
{
    sent.push(SentLine {
        name,
        value: Text::Owned(value),
    })?;
    Ok(())
}

/// Adds a line with a number.
pub fn add_number<'a>(
    alloc: Global,
    sent: &mut Vec<SentLine<'a>>,
    name: &'a [u8],
    number: u64,
) -> Result<(), AllocError>
    ensures { OnOk result (sent_fields sent.new.items ≡ sent_fields sent.old.items ++ ((name.now, decimal number) ∷ [])) }
{
    let mut text = Vec::new(alloc);
    write_number(&mut text, number)?;
    add_own(sent, name, text)
}

/// Writes a number in decimal digits.
pub fn write_number(text: &mut Vec<u8>, number: u64) -> Result<(), AllocError>
    ensures { OnOk result (text.new.items ≡ text.old.items ++ decimal number) }
{
    let mut buffer = Buffer::new();
    text.extend_from_slice(buffer.format(number).as_bytes())
}

// The nanoseconds of the greatest age: they fit in a word, so that no division is of two.
const MOST_AGE: u64 = 2_147_483_648_000_000_000;

/// The age in whole seconds, from 2^31 on that.
pub fn age_seconds(arrival: i128, now: u64) -> u64
    ensures { result ≡ age_seconds arrival now }
{
    let age = age(arrival, now);
    if age < MOST_AGE as u128 {
        age as u64 / SECOND
    } else {
        MOST_SECONDS
    }
}

/// Adds one Cache-Status: the elements that the lines have, and the own one, with what is said of it.
#[tactic(auto, using(crate::proofs::Joined::joined_by_more))]
pub fn add_cache_status<'a>(
    alloc: Global,
    sent: &mut Vec<SentLine<'a>>,
    values: &[&[u8]],
    how: &[&[u8]],
    options: &Options<'_>,
) -> Result<(), AllocError>
    ensures { OnOk result (sent_fields sent.new.items ≡ sent_fields sent.old.items ++ (cache_status (map (λ v. v.now) values.now) (map (λ h. h.now) how.now) (chosen options.now) ∷ [])) }
{
    let mut text = Vec::new(alloc);
    for value in values {
        text.extend_from_slice(value)?;
        text.extend_from_slice(b", ")?;
    }
    add_element(&mut text, how, options)?;
    add_own(sent, b"Cache-Status", text)
}

// Adds the own element.
fn add_element(text: &mut Vec<u8>, how: &[&[u8]], options: &Options<'_>) -> Result<(), AllocError>
    ensures { OnOk result (text.new.items ≡ text.old.items ++ status_element (map (λ h. h.now) how.now) (chosen options.now)) }
{
    text.extend_from_slice(options.name)?;
    for parameter in how {
        text.extend_from_slice(b"; ")?;
        text.extend_from_slice(parameter)?;
    }
    Ok(())
}

/// The lines without these names, which are in small letters, then more lines, and one Cache-Status.
pub fn send<'a>(
    alloc: Global,
    lines: &[Line<'a>],
    left_out: &[&[u8]],
    mut more: Vec<SentLine<'a>>,
    how: &[&[u8]],
    options: &Options<'_>,
) -> Result<Vec<SentLine<'a>>, AllocError>
    ensures { IfOk result (λ s. sent_fields s.items ≡ sent (map (λ n. n.now) left_out.now) (fields lines.now) (sent_fields more.entry.items) (map (λ h. h.now) how.now) (chosen options.now)) }
{
    let mut sent = Vec::new(alloc);
    add_without(&mut sent, lines, left_out)?;
    sent.append(&mut more)?;
    let values = all(alloc, lines, b"cache-status")?;
    add_cache_status(alloc, &mut sent, values.as_slice(), how, options)?;
    Ok(sent)
}
