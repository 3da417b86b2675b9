//! What is written of a row.
use crate::answer::Answer;
use std::alloc::{AllocError, Global};

/// A text, to which nothing more is appended once memory ran out.
#[derive(Drop)]
pub struct Text {
    text: String,
    is_cut: bool,
}

impl Text {
    pub fn new(alloc: Global) -> Text {
        Text {
            text: String::new(alloc),
            is_cut: false,
        }
    }

    pub fn push(&mut self, word: &str) {
        if !self.is_cut {
            self.is_cut = self.text.push_str(word).is_err();
        }
    }

    pub fn push_answer(&mut self, answer: Answer) {
        if !self.is_cut {
            self.is_cut = answer.push_to(&mut self.text).is_err();
        }
    }

    /// The text, if memory sufficed for all of it.
    pub fn finish(self) -> Result<String, AllocError> {
        if self.is_cut {
            return Err(AllocError);
        }
        Ok(self.text)
    }
}
