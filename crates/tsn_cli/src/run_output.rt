//! What a run that searches prints.

use tsn_book::Spelling;
use tsn_cert::Argument;
use tsn_outcome::Answer;

/// A certificate that is to be written.
#[derive(Drop)]
pub enum Written {
    /// A tree, of format 2, whose nodes are given one at a time.
    Spelled(Spelling),
    /// An argument, of format 3.
    Argued(Argument),
}

/// What a run that searches prints: an answer, and what goes to its two files. That is the text of a plan, and its certificate, where
/// one is written; and for `prove` the texts of a certificate and of a better plan.
#[derive(Drop)]
pub struct RunOutput<S> {
    pub answer: Answer,
    pub first: String,
    pub second: S,
}
