//! Sources and sinks in memory, for tests: they move a piece at a time, and fail at one call.
#![tactic(auto)]

mod devices;

pub use devices::{EndlessSource, MemorySink, MemorySource, NEVER};
