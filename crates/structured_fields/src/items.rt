//! The keys and items of a dictionary (RFC 8941, 3.1.2, 3.2, 3.3): how long each is.
ghost use Rattle.std.specs.Prelude.{◌≡◌, ◌≤◌, ◌+◌, length, option_map, false, IfSome};
ghost use Rattle.structured_fields.specs.Items.{run_of, starts_with, skip_spaces, starts_key, is_key_byte, is_token_byte, is_base64_byte, is_some_of, unsigned_len, number_len, string_len, boolean_len, base64_len, item_len, after_key, pair_at};
ghost use Rattle.std.specs.Char.{is_ascii_digit};

fn starts_with(text: &[u8], wanted: u8) -> bool
    ensures { result ≡ starts_with wanted text.now }
{
    match text {
        [b, ..] => *b == wanted,
        [] => false,
    }
}

/// Without the spaces in front.
pub fn skip_spaces(mut text: &[u8]) -> &[u8]
    ensures { result.now ≡ skip_spaces text.now }
{
    while let [b' ', rest @ ..] = text {
        text = rest;
    }
    text
}

fn starts_key(b: u8) -> bool
    ensures { result ≡ starts_key b }
{
    b.is_ascii_lowercase() || b == b'*'
}

fn is_key_byte(b: u8) -> bool
    ensures { result ≡ is_key_byte b }
{
    b.is_ascii_lowercase() || b.is_ascii_digit() || b == b'_' || b == b'-' || b == b'.' || b == b'*'
}

fn is_token_byte(b: u8) -> bool
    ensures { result ≡ is_token_byte b }
{
    b.is_ascii_alphanumeric()
        || matches!(
            b,
            b'!' | b'#'
                | b'$'
                | b'%'
                | b'&'
                | b'\''
                | b'*'
                | b'+'
                | b'-'
                | b'.'
                | b'^'
                | b'_'
                | b'`'
                | b'|'
                | b'~'
                | b':'
                | b'/'
        )
}

fn is_base64_byte(b: u8) -> bool
    ensures { result ≡ is_base64_byte b }
{
    b.is_ascii_alphanumeric() || b == b'+' || b == b'/' || b == b'='
}

fn digits_len(text: &[u8]) -> usize
    ensures is { result ≡ run_of is_ascii_digit text.now }
    ensures within { result ≤ length text.now }
{
    for (i, b) in text.iter().enumerate() {
        if !b.is_ascii_digit() {
            return i;
        }
    }
    text.len()
}

fn key_len(text: &[u8]) -> usize
    ensures is { result ≡ run_of is_key_byte text.now }
    ensures within { result ≤ length text.now }
{
    for (i, b) in text.iter().enumerate() {
        if !is_key_byte(*b) {
            return i;
        }
    }
    text.len()
}

fn token_len(text: &[u8]) -> usize
    ensures is { result ≡ run_of is_token_byte text.now }
    ensures within { result ≤ length text.now }
{
    for (i, b) in text.iter().enumerate() {
        if !is_token_byte(*b) {
            return i;
        }
    }
    text.len()
}

fn base64_run(text: &[u8]) -> usize
    ensures is { result ≡ run_of is_base64_byte text.now }
    ensures within { result ≤ length text.now }
{
    for (i, b) in text.iter().enumerate() {
        if !is_base64_byte(*b) {
            return i;
        }
    }
    text.len()
}

fn is_some_of(n: usize, most: usize) -> bool
    ensures { result ≡ is_some_of n most }
{
    1 <= n && n <= most
}

fn unsigned_len(text: &[u8]) -> Option<usize>
    ensures is { result ≡ unsigned_len text.now }
    ensures within { IfSome result (λ n. n ≤ length text.now) }
{
    let whole = digits_len(text);
    match &text[whole..] {
        [b'.', rest @ ..] => {
            let part = digits_len(rest);
            if is_some_of(whole, 12) && is_some_of(part, 3) {
                Some(whole + 1 + part)
            } else {
                None
            }
        }
        _ => {
            if is_some_of(whole, 15) {
                Some(whole)
            } else {
                None
            }
        }
    }
}

fn number_len(text: &[u8]) -> Option<usize>
    ensures is { result ≡ number_len text.now }
    ensures within { IfSome result (λ n. n ≤ length text.now) }
{
    match text {
        [] => None,
        [b'-', rest @ ..] => {
            let n = unsigned_len(rest)?;
            Some(n + 1)
        }
        _ => unsigned_len(text),
    }
}

// Up to and with the quote that ends a string.
fn string_len(text: &[u8]) -> Option<usize>
    ensures is { result ≡ string_len false text.now }
    ensures within { IfSome result (λ n. n ≤ length text.now) }
{
    let mut escaped = false;
    for (i, b) in text.iter().enumerate() {
        if escaped {
            if *b != b'"' && *b != b'\\' {
                return None;
            }
            escaped = false;
        } else if *b == b'"' {
            return Some(i + 1);
        } else if *b == b'\\' {
            escaped = true;
        } else if *b < b' ' || *b > b'~' {
            return None;
        }
    }
    None
}

fn boolean_len(text: &[u8]) -> Option<usize>
    ensures is { result ≡ boolean_len text.now }
    ensures within { IfSome result (λ n. n ≤ length text.now + 1) }
{
    match text {
        [b'0' | b'1', ..] => Some(2),
        _ => None,
    }
}

fn base64_len(text: &[u8]) -> Option<usize>
    ensures is { result ≡ base64_len text.now }
    ensures within { IfSome result (λ n. n ≤ length text.now + 1) }
{
    let n = base64_run(text);
    match &text[n..] {
        [b':', ..] => Some(n + 2),
        _ => None,
    }
}

/// The length of the item at the front.
pub fn item_len(text: &[u8]) -> Option<usize>
    ensures is { result ≡ item_len text.now }
    ensures within { IfSome result (λ n. n ≤ length text.now) }
{
    match text {
        [] => None,
        [b'"', rest @ ..] => {
            let n = string_len(rest)?;
            Some(n + 1)
        }
        [b, rest @ ..] => {
            if b.is_ascii_alphabetic() || *b == b'*' {
                Some(token_len(rest) + 1)
            } else if *b == b'?' {
                boolean_len(rest)
            } else if *b == b':' {
                base64_len(rest)
            } else {
                number_len(text)
            }
        }
    }
}

/// A key, the item after its `=` where there is one, and what is left.
pub type Pair<'a> = (&'a [u8], Option<&'a [u8]>, &'a [u8]);

fn after_key<'a>(key: &'a [u8], text: &'a [u8]) -> Option<Pair<'a>>
    ensures { option_map (λ p. (p.0.now, option_map (λ v. v.now) p.1, p.2.now)) result ≡ after_key key.now text.now }
{
    match text {
        [b'=', rest @ ..] => {
            let n = item_len(rest)?;
            let (item, rest) = rest.split_at(n);
            Some((key, Some(item), rest))
        }
        _ => Some((key, None, text)),
    }
}

/// The key and the item at the front.
pub fn pair_at(text: &[u8]) -> Option<Pair<'_>>
    ensures { option_map (λ p. (p.0.now, option_map (λ v. v.now) p.1, p.2.now)) result ≡ pair_at text.now }
{
    match text {
        [b, rest @ ..] if starts_key(*b) => {
            let (key, rest) = text.split_at(key_len(rest) + 1);
            after_key(key, rest)
        }
        _ => None,
    }
}
