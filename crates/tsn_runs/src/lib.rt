//! Commands over one sink, for users of the crates: each reads its sources, one after another, writes what it prints, and answers its
//! status. The program doesn't make these calls.
#![tactic(auto)]

mod check;
mod plan;
mod shown;
mod tables;
mod valid;

pub use check::check_run;
pub use plan::{PlanEnd, plan_run};
pub use tables::{gates_run, replay_run};
pub use valid::valid_run;
