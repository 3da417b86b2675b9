//! Lines as most are written: `name: value`, CR and LF.
ghost use Rattle.std.specs.Prelude.{◌≡◌, ◌++◌, ◌∷◌, ◌<◌, true, false, length, IfSome};
ghost use Rattle.std.specs.List.{list_all};
ghost use Rattle.httparse.specs.Grammar.{is_token, is_value_byte};
ghost use Rattle.rules_fields.specs.Texts.{trimmed};

use http1_message_parts::scan::place_of;
use httparse::{is_header_value, is_token};
use memchr::memchr;
use rules_fields::Line;
use rules_fields::blanks::is_blank;

/// What stands before the first LF, without the CR that stands before that, and what follows.
pub fn cut_line(text: &[u8]) -> Option<(&[u8], &[u8])>
    ensures is { IfSome result (λ r. text.now ≡ r.0.now ++ (13 ∷ 10 ∷ r.1.now)) }
    ensures shorter { IfSome result (λ r. length r.1.now < length text.now) }
{
    let i = memchr(b'\n', text)?;
    match &text[..i] {
        [row @ .., b'\r'] => Some((row, &text[i + 1..])),
        _ => None,
    }
}

// Whether a blank stands at an end, or nothing at all.
fn has_blank_end(value: &[u8]) -> bool
    ensures { result ≡ false → trimmed value.now ≡ value.now }
{
    match value {
        [] => true,
        [only] => is_blank(*only),
        [first, .., last] => is_blank(*first) || is_blank(*last),
    }
}

/// The line that a row is: a token, a colon, a space, and a value without blanks round it.
pub fn plain_line(row: &[u8]) -> Option<Line<'_>>
    ensures is { IfSome result (λ l. row.now ≡ l.name.now ++ (58 ∷ 32 ∷ l.value.now)) }
    ensures name { IfSome result (λ l. is_token l.name.now ≡ true) }
    ensures value { IfSome result (λ l. (list_all is_value_byte l.value.now ≡ true) × (trimmed l.value.now ≡ l.value.now)) }
{
    let (name, after) = row.split_at(place_of(row, b':'));
    let [b':', b' ', value @ ..] = after else {
        return None;
    };
    if is_token(name) && is_header_value(value) && !has_blank_end(value) {
        Some(Line { name, value })
    } else {
        None
    }
}
