//! The run of `plan`, which searches, over readers and writers of bytes. And any command by its words, over whatever it is given:
//! `plan` gets its files, options and output here, and the others one layer below.
#![tactic(auto)]

mod command;
mod explained;
pub mod laws;
mod plan;
pub mod planning;

pub use command::{run, run_to};
pub use plan::plan_answer;
pub use tsn_cli::NO_SCHEDULE;
