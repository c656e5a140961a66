//! Names and other texts of files, on one line.

use crate::text::TextBuilder;
use std::alloc::Global;
use std::fmt;

// The most characters that are shown of a text that is no name.
const MOST_SHOWN: usize = 40;

/// A line that begins with a file's name.
pub fn line_of(alloc: Global, file: &str) -> TextBuilder {
    let mut text = TextBuilder::new(alloc);
    push_line(&mut text, file);
    text.push_str(": ");
    text
}

/// Writes a text, with marks for what doesn't show or would end the line.
pub fn push_line(text: &mut TextBuilder, words: &str) {
    for character in words.chars() {
        text.push(visible(character));
    }
}

/// A name; a text that is none is quoted, and its end left out where it is long.
#[derive(Clone, Copy)]
pub struct Shown<'a>(pub &'a str);

impl fmt::Display for Shown<'_> {
    fn fmt<W: fmt::Write>(&self, f: &mut fmt::Formatter<W>) -> fmt::Result {
        if is_name(self.0) {
            return f.write_str(self.0);
        }
        f.write_char('"')?;
        let mut room = MOST_SHOWN;
        for character in self.0.chars() {
            if room == 0 {
                f.write_str("..")?;
                break;
            }
            room -= 1;
            f.write_char(visible(character))?;
        }
        f.write_char('"')
    }
}

// The character, or a mark for one that doesn't show.
fn visible(character: char) -> char {
    match character {
        '\0'..='\x1f' | '\x7f'..='\u{9f}' => '?',
        '\u{200b}'..='\u{200f}' | '\u{2028}'..='\u{202e}' => '?',
        '\u{2060}'..='\u{206f}' | '\u{feff}' => '?',
        _ => character,
    }
}

/// Whether a text may be a name in a network file.
pub fn is_name(text: &str) -> bool {
    !text.is_empty() && text.len() <= 32 && are_name_bytes(text.as_bytes())
}

fn are_name_bytes(bytes: &[u8]) -> bool {
    bytes.iter().all(|byte| matches!(*byte, b'A'..=b'Z' | b'a'..=b'z' | b'0'..=b'9' | b'_' | b'-'))
}
