//! First schedules, and schedules near another one. Streams are placed at offsets one after another; who is in the way is taken out and
//! placed again. Nothing is claimed of this but that it is safe and returns: what it finds is to be judged. Each error says that there
//! was no memory. Times are in nanoseconds.
#![tactic(auto)]

mod aim;
mod dice;
pub mod effort;
mod eject;
mod first;
mod lane;
mod least;
mod network;
pub mod notice;
mod orders;
pub mod placement;
mod rank;
pub mod repair;
mod rivals;
mod uses;
