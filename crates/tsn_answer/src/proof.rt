//! What is found of a plan.

use tsn_cert::{Argument, Plan};

/// What is found of a plan.
#[derive(Drop)]
pub enum Proof {
    /// No valid schedule undercuts it, or there is none where it says so; the argument that shows it, and how many steps that has.
    Proved(Argument, usize),
    /// A valid schedule that undercuts it, and how many conflicts there were before it was found.
    Undercut(Plan, usize),
    /// The budget is used up: the flowspan in nanoseconds that no valid schedule undercuts, at most the cycle, and how many
    /// conflicts there were.
    Stopped(u64, usize),
}
