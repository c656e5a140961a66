//! The texts of a table: changes that are made to them, and marks that stand for bytes and for repeated text.

use anyhow::{Context, Result, anyhow, bail, ensure};
use std::alloc::{AllocError, Global};

/// The text with the changes `OLD => NEW` made to it, in turn; ` | ` stands between two.
pub fn changed(alloc: Global, text: &str, changes: &str) -> Result<String> {
    let mut text = String::from_str(alloc, text)?;
    for change in changes.split(" | ") {
        let (old, new) = change.split_once("=>").context("a change without `=>`")?;
        text = replaced(alloc, text.as_str(), old.trim_ascii(), new.trim_ascii())?;
    }
    Ok(text)
}

// The text with another text for `old`, which stands there exactly once.
fn replaced(alloc: Global, text: &str, old: &str, new: &str) -> Result<String> {
    ensure!(!old.is_empty(), "a change of nothing");
    let Some((before, behind)) = text.split_once(old) else {
        bail!("`{old}` isn't there");
    };
    ensure!(!behind.contains(old), "`{old}` is there more than once");
    Ok(format!(in alloc; "{before}{new}{behind}")?)
}

/// The bytes of a text with its marks: `<0a>` is that byte, `<3*text #>` is the text three times with the numbers 0, 1 and 2
/// for its `#`, and `<>` is nothing.
pub fn expanded(alloc: Global, text: &str) -> Result<Vec<u8>> {
    let mut bytes = Vec::new(alloc);
    for (k, part) in text.split('<').enumerate() {
        if k == 0 {
            bytes.extend_from_slice(part.as_bytes())?;
        } else {
            let (mark, behind) = part.split_once('>').context("a `<` without its `>`")?;
            push_mark(alloc, &mut bytes, mark)?;
            bytes.extend_from_slice(behind.as_bytes())?;
        }
    }
    Ok(bytes)
}

// Writes what a mark stands for.
fn push_mark(alloc: Global, bytes: &mut Vec<u8>, mark: &str) -> Result<()> {
    if mark.is_empty() {
        return Ok(());
    }
    if let Some((count, text)) = mark.split_once('*') {
        let count = count.parse::<usize>().context("a count that is no number")?;
        return Ok(push_times(alloc, bytes, count, text)?);
    }
    let byte = u8::from_str_radix(mark, 16).context("a mark that is no byte")?;
    bytes.push(byte)?;
    Ok(())
}

// Writes a text so many times, each time with its number for `#`.
fn push_times(
    alloc: Global,
    bytes: &mut Vec<u8>,
    count: usize,
    text: &str,
) -> Result<(), AllocError> {
    for number in 0..count {
        for (k, part) in text.split('#').enumerate() {
            if k > 0 {
                bytes.extend_from_slice(format!(in alloc; "{number}")?.as_bytes())?;
            }
            bytes.extend_from_slice(part.as_bytes())?;
        }
    }
    Ok(())
}

/// The words of a command: the program's name, and those of a text, with their marks.
pub fn words_of(alloc: Global, text: &str) -> Result<Vec<String>> {
    let mut words = Vec::new(alloc);
    words.push(String::from_str(alloc, "tsn")?)?;
    for word in text.split(' ') {
        if !word.is_empty() {
            let bytes = expanded(alloc, word)?;
            words.push(String::from_utf8(bytes).map_err(|_| anyhow!("a word that is no text"))?)?;
        }
    }
    Ok(words)
}
