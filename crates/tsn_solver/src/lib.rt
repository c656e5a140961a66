//! The conflict-driven search itself (lazy clause generation): it asks whether there is a schedule in which some literals hold, and
//! learns a clause from each contradiction. It is made of the rules by which it goes on from what it knows. Nothing is claimed of it
//! but that it is safe and returns. Each error says that there was no memory.
#![tactic(auto)]

mod analysis;
pub mod ask;
pub mod choice;
mod fill;
mod found;
mod gaps;
mod line;
mod overload;
pub mod pace;
mod propagate;
pub mod ranks;
pub mod rooms;
mod round;
mod rows;
pub mod search;
mod sums;
