//! A picture in the making.
use crate::words::{write_colour, write_microseconds, write_name, write_whole};
use std::alloc::{AllocError, Global};
use std::fmt::Write;

/// A picture in the making: what comes after memory was refused is left out, and at the end that is said.
#[derive(Drop)]
pub(crate) struct Canvas {
    text: String,
    is_refused: bool,
}

impl Canvas {
    /// Nothing yet.
    pub(crate) fn new(alloc: Global) -> Canvas {
        Canvas {
            text: String::new(alloc),
            is_refused: false,
        }
    }

    /// The text of the picture; the error says that there was no memory for all of it.
    pub(crate) fn finish(self) -> Result<String, AllocError> {
        let Canvas { text, is_refused } = self;
        if is_refused {
            drop(text);
            return Err(AllocError);
        }
        Ok(text)
    }

    /// Writes a text.
    pub(crate) fn words(&mut self, words: &str) {
        if !self.is_refused {
            self.is_refused = self.text.push_str(words).is_err();
        }
    }

    /// Writes a number behind a text.
    pub(crate) fn number(&mut self, words: &str, number: u64) {
        self.words(words);
        if !self.is_refused {
            self.is_refused = write!(self.text, "{number}").is_err();
        }
    }

    /// Writes an octet as two hexadecimal digits.
    pub(crate) fn octet(&mut self, octet: u8) {
        if !self.is_refused {
            self.is_refused = write!(self.text, "{octet:02X}").is_err();
        }
    }

    /// Writes a name of at most so many letters, as `write_name` does.
    pub(crate) fn name(&mut self, name: &str, most: usize) {
        if !self.is_refused {
            self.is_refused = write_name(&mut self.text, name, most).is_err();
        }
    }

    /// Writes a whole name.
    pub(crate) fn whole(&mut self, name: &str) {
        if !self.is_refused {
            self.is_refused = write_whole(&mut self.text, name).is_err();
        }
    }

    /// Writes an instant in microseconds behind a text.
    pub(crate) fn microseconds(&mut self, words: &str, instant: u64) {
        self.words(words);
        if !self.is_refused {
            self.is_refused = write_microseconds(&mut self.text, instant).is_err();
        }
    }

    /// Writes the colour of a stream.
    pub(crate) fn colour(&mut self, stream: usize) {
        if !self.is_refused {
            self.is_refused = write_colour(&mut self.text, stream).is_err();
        }
    }

    /// Begins a rectangle, up to its fill.
    pub(crate) fn begin_rect(&mut self, x: u64, y: u64, wide: u64, high: u64) {
        self.number("<rect x=\"", x);
        self.number("\" y=\"", y);
        self.number("\" width=\"", wide);
        self.number("\" height=\"", high);
        self.words("\" fill=\"");
    }

    /// Begins a line, up to its colour.
    pub(crate) fn begin_line(&mut self, from: (u64, u64), to: (u64, u64)) {
        self.number("<line x1=\"", from.0);
        self.number("\" y1=\"", from.1);
        self.number("\" x2=\"", to.0);
        self.number("\" y2=\"", to.1);
        self.words("\" stroke=\"");
    }

    /// Begins a text that stands there.
    pub(crate) fn begin_text(&mut self, x: u64, y: u64) {
        self.number("<text x=\"", x);
        self.number("\" y=\"", y);
        self.words("\"");
    }
}
