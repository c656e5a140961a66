//! Sums of works: what some of them fill of a room, as tables tell of all rooms up to a limit, and where others may lie then.
#![tactic(auto)]

mod divisor;
mod places;
mod rows;
mod shelf;
mod table;

pub use divisor::common_divisor;
pub use places::{Room, Told, first_open};
pub use rows::Rows;
pub use shelf::Shelf;
pub use table::{MOST_UNITS, Table};
