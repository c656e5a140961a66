//! The planner by several workers: over supervisors that watch, hold or stop them, and over bags that lose, double, refuse or make up
//! nodes.

mod accounts;
mod bags;
mod methods;
mod over;
mod planner;
mod witness;
