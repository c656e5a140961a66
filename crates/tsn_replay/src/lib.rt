//! Cycles of a network, replayed by gate control lists (`cycles`).
#![tactic(auto)]

mod alternation;
pub mod background;
mod conditions;
mod csv;
pub mod cycles;
mod engine;
mod feed;
mod openings;
mod port;
mod queue;
pub mod replay_fault;
mod rows;
pub mod starts;
pub mod table;
mod tournament;
pub mod trace;
mod visits;

pub use background::{Background, BackgroundFrame};
pub use cycles::{replay, replay_early, replay_rows};
pub use replay_fault::ReplayFault;
pub use starts::Sent;
pub use table::ReplayTable;
pub use trace::{Row, Trace};
pub use tsn_model::NoMemory;
