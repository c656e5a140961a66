//! The laws: of the definitions; of the search (what every legal history and every run of the shared search keeps, and what a finished
//! search shows); of network files, gate lists, replays, tellers and answers. Each function does nothing: its contract is the law, which
//! stands in `specs/` of the crate that defines its words. Nothing calls them, so the program is built without this crate.
#![tactic(auto)]

pub mod answers;
pub mod definitions;
pub mod gates;
pub mod listeners;
pub mod network_files;
pub mod replays;
pub mod search;
pub mod tellers;
