//! The shared search without threads: the atomic steps of its tellers on one state, and what is so of it when all is quiet. No
//! program calls it. It says what several workers do together, and `tsn_incumbent` says of the steps of a worker's teller that each is one of these.
#![tactic(auto)]

pub mod shared;

pub use shared::{Core, Reply, Step};
