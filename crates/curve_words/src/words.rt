//! Words between blanks.
ghost use Rattle.std.specs.Prelude.{◌≡◌, ◌≤◌, length};
ghost use Rattle.std.specs.List.{prefix_len};
ghost use Rattle.curve_words.specs.Words.{is_blank, is_dark, after_blanks, word_of, after_word, number_from};

fn is_blank(byte: u8) -> bool
    ensures { result ≡ is_blank byte }
{
    byte == b' ' || byte == b'\t' || byte == b'\r'
}

/// A text after its first blanks.
pub fn after_blanks(text: &[u8]) -> &[u8]
    ensures { result.now ≡ after_blanks text.now }
{
    let mut count = 0;
    for byte in text {
        if !is_blank(*byte) {
            break;
        }
        count += 1;
    }
    &text[count..]
}

// How many bytes the first word has.
fn word_len(text: &[u8]) -> usize
    ensures len { result ≡ prefix_len is_dark text.now }
    ensures within { result ≤ length text.now }
{
    let mut count = 0;
    for byte in text {
        if is_blank(*byte) {
            break;
        }
        count += 1;
    }
    count
}

/// A text after its first word and the blanks that follow.
pub fn after_word(text: &[u8]) -> &[u8]
    ensures { result.now ≡ after_word text.now }
{
    after_blanks(&text[word_len(text)..])
}

/// The first word of a text.
pub fn word_of(text: &[u8]) -> &[u8]
    ensures { result.now ≡ word_of text.now }
{
    &text[..word_len(text)]
}

/// The number that digits give.
pub fn number(word: &[u8]) -> Option<u64>
    ensures { result ≡ number_from 0 word.now }
{
    let mut number: u64 = 0;
    for digit in word {
        if *digit < b'0' || *digit > b'9' {
            return None;
        }
        number = number
            .checked_mul(10)?
            .checked_add(u64::from(*digit - b'0'))?;
    }
    Some(number)
}
