//! Why what a command read is refused, in a line of words: what is wrong in a file or in offsets, by how much a leaf of a tree misses
//! what it has to show, and which step of an argument is the first that is wrong.
#![tactic(auto)]

mod argument;
mod claim;
mod file_words;
mod names;
mod offsets;
mod tree;
mod wrong;

pub use argument::line_on_argument;
pub use claim::{Claim, line_on_plan};
pub use file_words::{file_line, network_line};
pub use offsets::{Schedule, offsets_line};
pub use tree::line_on_tree;
use tsn_model::NoMemory;

/// The line, from the name of the file at fault on and without its end; None where nothing is refused. The error says that
/// there was no memory.
pub type Reason = Result<Option<String>, NoMemory>;
