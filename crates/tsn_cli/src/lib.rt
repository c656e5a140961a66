//! The runs of the commands that judge or show what they read, over readers and writers of bytes; and these commands by their words, over
//! whatever they are given.
//!
//! And the two that search: what `plan` prints and writes of what its search found, and `prove`, which searches for a proof of a plan. What
//! commands read before a plan is dealt with: a network and a plan, or the answer that refuses them.
#![tactic(auto)]

mod certificate_view;
mod check;
pub mod commands;
pub mod ended;
pub mod files;
mod inputs;
pub mod laws;
mod network;
pub mod options;
pub mod plan_output;
pub mod prove_command;
mod prove_plan;
mod reason;
pub mod run_output;
mod shown;
mod tables;
mod untaken;
pub mod unwritten;
mod valid;
mod write_certificate;
pub mod write_files;

pub use certificate_view::{CertificateView, certified_shown};
pub use check::VerdictLine;
pub use ended::{SearchEnd, end_search, progress_of, stop_or};
pub use files::{Files, plan_files};
pub use inputs::{NetworkRead, PlanRead, read_network, read_plan};
pub use network::{NetworkView, network_shown};
pub use options::{GatesOptions, ReplayOptions, Table};
pub use plan_output::{alone, output_for};
pub use prove_command::prove;
pub use prove_plan::prove_answer;
pub use run_output::{RunOutput, Written};
pub use shown::Shown;
pub use tables::{plan_shown, table_shown};
pub use tsn_outcome::run::NO_SCHEDULE;
pub use tsn_timing::Problem;
pub use tsn_words::{GatesFormat, ReplayFormat, StreamsFormat};
pub use unwritten::{Unwritten, unwritable};
pub use valid::Offsets;
pub use write_files::write_plan;
