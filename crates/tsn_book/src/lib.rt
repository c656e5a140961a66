//! The book of a search: what was settled and by whom, what is still open, and the certificate of it all.
#![tactic(auto)]

mod arena;
pub mod batch;
pub mod book;
pub mod event;
pub mod fault;
mod ledger;
mod log;
pub mod looks;
pub mod refusal;
pub mod spelling;
mod statuses;
mod ties;

pub use book::Book;
pub use event::Event;
pub use fault::BookFault;
pub use looks::Looks;
pub use refusal::{BatchRefusal, EventRefusal, WalkRefusal};
pub use spelling::Spelling;
