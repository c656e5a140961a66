//! The conflict-driven search for schedules: it begins with the numbers of a network and a first schedule, finds the first of the optimal
//! schedules, or that there is none, and writes why as an argument. Nothing is claimed of it but that it is safe and returns: no
//! answer counts before its argument is checked.
#![tactic(auto)]

mod best;
mod course;
mod learning;
mod least;
mod quota;
mod turn;

pub use learning::{BestSoFar, Budget, CourseNews, Hear, LearnAnswer, LearnedPlan, learn};
pub use least::{LeastAnswer, show_least};
