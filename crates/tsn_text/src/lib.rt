//! Texts and lists in the making, of which what comes after memory was refused is left out, and at the end that is said; and fields of
//! comma-separated values (RFC 4180).
#![tactic(auto)]

mod field;
mod list;
pub mod pieces;
mod shown;
mod text;

pub use field::write_quoted;
pub use list::ListBuilder;
pub use shown::{Shown, line_of, push_line};
pub use text::TextBuilder;
