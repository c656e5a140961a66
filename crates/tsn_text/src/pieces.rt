//! Pieces of a line: words, and behind them a number, a name or what writes itself.
use crate::shown::Shown;
use crate::text::TextBuilder;

/// Writes words and a number.
pub fn push_number(text: &mut TextBuilder, words: &str, number: u64) {
    text.push_str(words);
    text.push_number(number);
}

/// Writes words and a count.
pub fn push_count(text: &mut TextBuilder, words: &str, count: usize) {
    text.push_str(words);
    text.push_count(count);
}

/// Writes words and a number that may be below 0.
pub fn push_signed(text: &mut TextBuilder, words: &str, number: i128) {
    text.push_str(words);
    text.push_shown(number);
}

/// Writes words and a name, in quotes where it is none.
pub fn push_name(text: &mut TextBuilder, words: &str, name: &str) {
    text.push_str(words);
    text.push_shown(Shown(name));
}
