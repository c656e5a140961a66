//! When the frames of a problem's streams are where, and whether offsets are a no-wait schedule.
#![tactic(auto)]

pub mod arc;
mod between;
mod ends;
pub mod frames;
mod neighbours;
mod overlaps;
pub mod problem;
pub mod solved;
mod tables;
pub mod timing;
pub mod users;
pub mod valid;
pub mod window;

pub use arc::{ChainSum, arc_of};
pub use ends::{arrival_words, end_count, has_several, is_heard, several_ends};
pub use frames::is_conflict;
pub use problem::Problem;
pub use solved::Solved;
pub use timing::{Timing, Validity};
pub use tsn_model::{NoMemory, Triple, Violation};
pub use users::User;
pub use valid::Valid;
pub use window::Window;
