//! Blanks, and texts in small letters.
ghost use Rattle.std.specs.Prelude.{◌≡◌, reverse, bytes_eq};
ghost use Rattle.rules_fields.specs.Texts.{is_blank, skip_blanks, trimmed, small};

/// A space or a tab.
pub fn is_blank(b: u8) -> bool
    ensures { result ≡ is_blank b }
{
    b == b' ' || b == b'\t'
}

/// Without the blanks in front.
pub fn skip_blanks(mut text: &[u8]) -> &[u8]
    ensures { result.now ≡ skip_blanks text.now }
{
    while let [first, rest @ ..] = text
        && is_blank(*first)
    {
        text = rest;
    }
    text
}

fn without_end(mut text: &[u8]) -> &[u8]
    ensures { result.now ≡ reverse (skip_blanks (reverse text.now)) }
{
    while let [rest @ .., last] = text
        && is_blank(*last)
    {
        text = rest;
    }
    text
}

/// Without the blanks at both ends.
#[tactic(auto, unfolding(crate::specs::Texts::trimmed))]
pub fn trimmed(text: &[u8]) -> &[u8]
    ensures { result.now ≡ trimmed text.now }
{
    without_end(skip_blanks(text))
}

/// Whether a text is this one, which has small letters only, but for the case of its letters.
pub fn is_small(text: &[u8], wanted: &[u8]) -> bool
    ensures { result ≡ bytes_eq (small text.now) wanted.now }
{
    if text.len() != wanted.len() {
        return false;
    }
    for (i, b) in text.iter().enumerate() {
        if b.to_ascii_lowercase() != wanted[i] {
            return false;
        }
    }
    true
}

/// Whether two texts are the same but for the case of their letters.
pub fn is_same(a: &[u8], b: &[u8]) -> bool
    ensures { result ≡ bytes_eq (small a.now) (small b.now) }
{
    if a.len() != b.len() {
        return false;
    }
    for (i, x) in a.iter().enumerate() {
        if x.to_ascii_lowercase() != b[i].to_ascii_lowercase() {
            return false;
        }
    }
    true
}
