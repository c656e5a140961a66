//! The walk below an open node of a book, by batches of nodes that are looked at together; and the search of one who settles them
//! alone, in which nothing is shared, until no node is open or the limit is met.
#![tactic(auto)]

mod bag;
mod below;
mod best;
pub mod news;
mod open_nodes;
pub mod search;

pub use bag::Bag;
pub use below::{BATCH, Batch, Below};
pub use best::SeenBest;
pub use open_nodes::OpenNodes;
