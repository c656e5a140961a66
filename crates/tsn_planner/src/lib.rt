//! The planner, for users of the crates: a network's first optimal schedule, or that there is none, each with its certificate. The program
//! goes by what `tsn_worker` finds, writes certificates piece by piece, and doesn't make these calls.
#![tactic(auto)]

mod answering;
mod planning;

pub use answering::answer_of;
pub use planning::{Planned, plan, plan_by, plan_over};
