//! What a command answers, with its line, before any of it is written.
ghost use Rattle.std.specs.Prelude.{◌≡◌, ◌<◌, string_bytes};
ghost use Rattle.tsn_outcome.specs.Said.{line_of, status_of};

use crate::outcome::Outcome;

/// An outcome, and its line.
#[derive(Drop)]
pub struct Answer {
    pub outcome: Outcome,
    pub line: String,
    /// Why it is this one, in words for standard error, of which nothing is claimed; None where no more is told, or there was no
    /// memory for them.
    pub reason: Option<String>,
    pub ghost line_is: { string_bytes line ≡ line_of outcome },
    pub ghost not_device: { status_of outcome < 8 },
}
