//! What a planner is asked, what it knows while it searches, and what it answers; and the proof of a plan, whoever made it, by the
//! conflict-driven search, with how that search is watched and how much it may do.
#![tactic(auto)]

pub mod answer;
pub mod effort;
pub mod found;
pub mod hearer;
pub mod known;
pub mod proof;
pub mod proving;

pub use answer::Answer;
pub use effort::{Effort, FILE_ORDER_LIMIT, MAX_LIMIT, MAX_WORKERS};
pub use found::{Found, plan_of};
pub use hearer::{Hearer, budget_of, count_of};
pub use known::Known;
pub use proof::Proof;
pub use proving::prove;
pub use tsn_words::Method;
