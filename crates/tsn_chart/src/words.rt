//! Texts of a picture: names, instants in microseconds, and colours.

use std::alloc::AllocError;
use std::fmt::Write;

// How wide a letter is, in hundredths of the letters' height: those of names are all of one width.
const LETTER: u64 = 62;

/// How many letters of that height have room.
pub(crate) fn letters_in(width: u64, font: u64) -> usize {
    let letter = (font.min(1000) * LETTER / 100).max(1);
    (width.min(100_000) / letter) as usize
}

/// Writes a name of at most so many letters: a longer one is cut, with an ellipsis at its end.
pub fn write_name(text: &mut String, name: &str, most: usize) -> Result<(), AllocError> {
    let is_long = has_more(name, most);
    let mut room = if is_long {
        most.saturating_sub(1)
    } else {
        most
    };
    for character in name.chars() {
        if room == 0 {
            break;
        }
        room -= 1;
        write_character(text, character)?;
    }
    if is_long {
        text.push_str("&#8230;")?;
    }
    Ok(())
}

/// Writes a whole name.
pub fn write_whole(text: &mut String, name: &str) -> Result<(), AllocError> {
    for character in name.chars() {
        write_character(text, character)?;
    }
    Ok(())
}

// Whether a name has more letters than that.
fn has_more(name: &str, most: usize) -> bool {
    let mut room = most;
    for _ in name.chars() {
        if room == 0 {
            return true;
        }
        room -= 1;
    }
    false
}

// Writes a character so that XML may hold it.
fn write_character(text: &mut String, character: char) -> Result<(), AllocError> {
    match character {
        '&' => text.push_str("&amp;"),
        '<' => text.push_str("&lt;"),
        '>' => text.push_str("&gt;"),
        '"' => text.push_str("&quot;"),
        '\'' => text.push_str("&#39;"),
        '\t' | '\n' | '\r' => text.push(' '),
        '\0'..='\x1f' | '\u{fffe}' | '\u{ffff}' => text.push_str("&#65533;"),
        _ => text.push(character),
    }
}

/// Writes an instant in microseconds, with as few decimals as can be.
pub fn write_microseconds(text: &mut String, instant: u64) -> Result<(), AllocError> {
    let whole = instant / 1000;
    let rest = instant % 1000;
    if rest == 0 {
        write!(text, "{whole}")
    } else if rest % 100 == 0 {
        let tenths = rest / 100;
        write!(text, "{whole}.{tenths}")
    } else if rest % 10 == 0 {
        let hundredths = rest / 10;
        write!(text, "{whole}.{hundredths:02}")
    } else {
        write!(text, "{whole}.{rest:03}")
    }
}

/// The colour of a stream: neighbours have hues that are far apart, and letters on it can be read.
pub(crate) fn write_colour(text: &mut String, stream: usize) -> Result<(), AllocError> {
    let hue = hue_of(stream);
    let least = if is_bright(hue) { 50 } else { 32 };
    let lightness = least + stream % 3 * 5;
    write!(text, "hsl({hue},65%,{lightness}%)")
}

/// The colour of letters on that of a stream.
pub(crate) fn letters_on(stream: usize) -> &'static str {
    if is_bright(hue_of(stream)) {
        "#000000"
    } else {
        "#ffffff"
    }
}

// The hue of a stream, in degrees.
fn hue_of(stream: usize) -> usize {
    stream % 360 * 137 % 360
}

// Whether a hue is so bright that dark letters are read better on it: from orange over green to cyan.
fn is_bright(hue: usize) -> bool {
    (30..200).contains(&hue)
}
