//! Tests of the search: looks at nodes, the shared word by seats called in turn and by two threads, tellers that share a book, the
//! planner over supervisors and bags that misbehave, and what is told of its progress. A crate with tests is proved twice, so they
//! stand apart.
#![tactic(auto)]

#[cfg(test)]
mod nodes;
#[cfg(test)]
mod progress;
#[cfg(test)]
mod shares;
#[cfg(test)]
mod word;
#[cfg(test)]
mod workers;
