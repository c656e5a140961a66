//! By what a plan is undercut, in a line of words.

use std::alloc::{AllocError, Global};
use tsn_outcome::Outcome;
use tsn_text::line_of;

/// The line on a plan of the file of this name that a valid schedule undercuts; None where none does, or where there is no memory
/// for the line.
pub(crate) fn undercut_line(alloc: Global, name: &str, outcome: Outcome) -> Option<String> {
    let Outcome::Undercut { stated, better, .. } = outcome else {
        return None;
    };
    undercut_text(alloc, name, stated, better).ok()
}

// The text on a plan of the file of this name and of this flowspan, if it is a schedule, and on that of the better one, in nanoseconds.
fn undercut_text(
    alloc: Global,
    name: &str,
    stated: Option<u64>,
    better: u64,
) -> Result<String, AllocError> {
    let mut text = line_of(alloc, name);
    text.push_str("a schedule of flowspan ");
    text.push_number(better);
    text.push_str(" is valid");
    if let Some(flowspan) = stated {
        text.push_str(", which is ");
        text.push_number(flowspan.saturating_sub(better));
        text.push_str(" ns less");
    }
    text.finish()
}
