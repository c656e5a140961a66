//! The planner's search: until no node is open, by one worker or by several, or until it finds what an argument shows, which it checks.
//! It hands out the book, or the plan with its argument. Several work in threads of their own over a book that they share: each walks
//! below nodes of a bag.
#![tactic(auto)]

mod batch;
mod best_copy;
mod board;
pub mod context;
mod deque;
mod learned;
pub mod planning;
mod searched;
mod settler;
mod start;
mod task;
mod team;
mod telling;
pub mod threads;
mod worker;

pub use deque::DequeBag;
pub use planning::{search_by, search_in_bags};
pub use searched::Searched;
pub use tsn_answer::{
    Answer, Effort, FILE_ORDER_LIMIT, Found, Known, MAX_LIMIT, MAX_WORKERS, Method, plan_of,
};
pub use tsn_branch::{LearnedNews, News, NoSupervisor, Phase, Supervisor};
pub use tsn_walk::Bag;
