//! Both ends of the conflict-driven search: a problem becomes the numbers that it goes by; and what it found out becomes an argument, as
//! the checker reads it. Nothing is claimed of this but that it is safe and returns. Each error says that there was no memory.
#![tactic(auto)]

mod need;
mod orders;
pub mod table;
mod view;
pub mod writing;
