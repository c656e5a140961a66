//! Least offsets of streams under arcs, each of which says that one stream starts at least so much
//! after another: a system of difference constraints, solved by label correcting.
#![tactic(auto)]

pub mod forest;
mod labels;
mod listing;
mod solve;
mod spread;
mod stack;
mod trail;

pub use forest::{Forest, MAX_STREAMS, Step, Walk};
pub use solve::{Feasibility, Least, MAX_RELEASE, MAX_WEIGHT, Net};
pub use stack::ArcStack;
