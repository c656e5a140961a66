//! What a search over bounds knows: the numbers of a network, literals over bounds, why a bound was narrowed, the changes that led to
//! the bounds, the links to look at by these, the clauses, and what was shown. Nothing is claimed of it but that it is safe and returns.
//! Each error says that there was no memory.
#![tactic(auto)]

pub mod calls;
pub mod clauses;
pub mod known;
pub mod literal;
pub mod number;
pub mod reason;
pub mod record;
pub mod side;
pub mod table;
pub mod trail;
