//! What a command is given, what it answers, as a value and in a line, and how any command ends: what is told, on which output, and with
//! which status, an outcome as an object of JSON too, for whoever reads it by a program.
//!
//! What the system gives a command (`System`): files and standard streams; and what is told where no command runs (`no_command`).
#![tactic(auto)]

mod answer;
mod answering;
pub mod devices;
mod doubled;
mod files;
pub mod json;
pub mod no_command;
mod object;
mod outcome;
pub mod reason;
mod refusals;
pub mod run;
pub mod stop;
mod system;
pub mod told;

pub use answer::Answer;
pub use answering::outcome_of;
pub use devices::{Given, Made, Opened};
pub use doubled::doubled_in;
pub use no_command::{no_memory, refuse, show};
pub use outcome::{FileKind, Outcome};
pub use reason::failure_line;
pub use refusals::{cert_rejection, file_refusal, refusal, rejection};
pub use stop::Stop;
pub use system::System;
pub use told::Ran;
pub use tsn_device::{FileSink, FileSource, WriterSink};
