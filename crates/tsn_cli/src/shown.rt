//! What is shown.

use tsn_outcome::Answer;

/// What is shown: a text that was asked for, with remarks on it for standard error, a line each, of which nothing is claimed; or an
/// answer in a line, such as why a file is refused.
#[derive(Drop)]
pub enum Shown {
    Text(String, Option<String>),
    Said(Answer),
}
