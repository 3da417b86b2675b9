//! Lists of words, as the tables write them.
use std::alloc::{AllocError, Global};

/// Appends a word, after a separator unless it is the first.
pub fn push_word(list: &mut String, separator: char, word: &str) -> Result<(), AllocError> {
    if !list.is_empty() {
        list.push(separator)?;
    }
    list.push_str(word)
}

/// Returns the list, or `-` for an empty one.
pub fn list_or_dash(alloc: Global, list: String) -> Result<String, AllocError> {
    if list.is_empty() {
        return String::from_str(alloc, "-");
    }
    Ok(list)
}

/// Returns the number, or `-` without one.
pub fn number(alloc: Global, number: Option<u64>) -> Result<String, AllocError> {
    match number {
        Some(number) => format!(in alloc; "{number}"),
        None => String::from_str(alloc, "-"),
    }
}
