//! Texts in the making.
use std::alloc::{AllocError, Global};
use std::fmt::{Display, Write};

/// A text in the making.
#[derive(Drop)]
pub struct TextBuilder {
    text: String,
    is_refused: bool,
}

impl TextBuilder {
    /// Nothing yet.
    pub fn new(alloc: Global) -> TextBuilder {
        TextBuilder {
            text: String::new(alloc),
            is_refused: false,
        }
    }

    /// The text; the error says that there was no memory for all of it.
    pub fn finish(self) -> Result<String, AllocError> {
        let TextBuilder { text, is_refused } = self;
        if is_refused {
            drop(text);
            return Err(AllocError);
        }
        Ok(text)
    }

    /// Memory was refused for what was to be told.
    pub fn refuse(&mut self) {
        self.is_refused = true;
    }

    /// Writes a text.
    pub fn push_str(&mut self, words: &str) {
        if !self.is_refused {
            self.is_refused = self.text.push_str(words).is_err();
        }
    }

    /// Writes a character.
    pub fn push(&mut self, character: char) {
        if !self.is_refused {
            self.is_refused = self.text.push(character).is_err();
        }
    }

    /// Writes a number's digits.
    pub fn push_number(&mut self, number: u64) {
        if !self.is_refused {
            self.is_refused = write!(self.text, "{number}").is_err();
        }
    }

    /// Writes what writes itself.
    pub fn push_shown<D: Display + Drop>(&mut self, shown: D) {
        if !self.is_refused {
            self.is_refused = write!(self.text, "{shown}").is_err();
        }
    }

    /// Writes a count's digits.
    pub fn push_count(&mut self, count: usize) {
        self.push_number(count as u64);
    }
}
