//! Parts of texts.

use std::test::Fail;

/// What stands before a text's first blank, and what stands behind it.
pub fn parted(text: &str) -> Result<(&str, &str), Fail> {
    Ok(text.split_once(" ").ok_or("there is no blank")?)
}

pub fn number(text: &str) -> Result<u64, Fail> {
    Ok(text.parse()?)
}

/// The number of a link or a stream.
pub fn place(text: &str) -> Result<usize, Fail> {
    Ok(text.parse()?)
}
