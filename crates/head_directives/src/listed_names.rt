//! The names that a directive's value lists.
ghost use Rattle.std.specs.Prelude.{◌≡◌, ◌∷◌, [], Option, Some, None};
ghost use Rattle.std.specs.Option.{option_map_or};
ghost use Rattle.head_directives.specs.Listed.{is_blank, trim_front, trim_end, trimmed, parts};

use crate::value::DirectiveValue;

/// The field names that a directive's value lists: the parts between commas, without the spaces
/// and tabs around them (RFC 9111, 5.2.2.4 and 5.2.2.7), of a quoted and of an unquoted value alike.
#[derive(Drop)]
pub struct ListValueIter<'a> {
    rest: Option<&'a [u8]>,
}

impl<'a> ListValueIter<'a> {
    ghost use Rattle.head_directives.specs.Listed.{listed};
    ghost use Rattle.head_directives.specs.Seconds.{unquoted};
    ghost use Rattle.head_directives.specs.NamesLeft.{names_left};

    /// The names in a value.
    pub fn from(value: &'a DirectiveValue) -> Self
        ensures { names_left result ≡ listed (unquoted value.now.0.items) }
    {
        ListValueIter {
            rest: Some(value.parse_as_bytes()),
        }
    }
}

impl<'a> Iterator for ListValueIter<'a> {
    ghost use Rattle.std.specs.Iterator.{YieldsFirstBy, item_count};
    ghost use Rattle.head_directives.specs.NamesLeft.{names_left};

    type Item = &'a [u8];

    ghost next_gives = { YieldsFirstBy (λ name. name.now) names_left };

    ghost remaining = { item_count names_left };

    fn next(&mut self) -> Option<&'a [u8]> {
        let (part, rest) = cut(self.rest?);
        self.rest = rest;
        Some(trimmed(part))
    }
}

// The part before the first comma, and what follows the comma.
fn cut(bytes: &[u8]) -> (&[u8], Option<&[u8]>)
    ensures { parts bytes.now ≡ result.0.now ∷ option_map_or (λ rest. parts rest.now) result.1 [] }
{
    for (i, b) in bytes.iter().enumerate() {
        if *b == b',' {
            return (&bytes[..i], Some(&bytes[i + 1..]));
        }
    }
    (bytes, None)
}

// Without the spaces and tabs at both ends.
fn trimmed(bytes: &[u8]) -> &[u8]
    ensures { result.now ≡ trimmed bytes.now }
{
    without_end(without_front(bytes))
}

fn without_front(bytes: &[u8]) -> &[u8]
    ensures { result.now ≡ trim_front bytes.now }
{
    let mut rest = bytes;
    while let Some((b, after)) = rest.split_first() {
        if !blank(*b) {
            return rest;
        }
        rest = after;
    }
    rest
}

#[tactic(auto, using(crate::proofs::Listing::trim_last_blank, crate::proofs::Listing::trim_last_other))]
fn without_end(bytes: &[u8]) -> &[u8]
    ensures { result.now ≡ trim_end bytes.now }
{
    let mut rest = bytes;
    while let Some((b, front)) = rest.split_last() {
        if !blank(*b) {
            return rest;
        }
        rest = front;
    }
    rest
}

fn blank(b: u8) -> bool
    ensures { result ≡ is_blank b }
{
    b == b' ' || b == b'\t'
}
