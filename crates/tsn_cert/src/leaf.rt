//! What shows that a path of decisions needs no look.

use crate::chain::Chain;
use crate::entry::Entries;

/// Why no valid schedule on a path has a lesser flowspan than some bound. A chain names decisions of the path by their depths.
#[derive(Drop)]
pub enum LowerBound {
    /// The stream arrives too late: the chain's sum and its arrival are at least the bound.
    Late(usize, Chain),
    /// The link is busy for too long: the least head of the entries, their occupancies of the link and the least tail are
    /// at least the bound.
    Load(usize, Entries),
}

/// Why no valid schedule on a path has a lesser flowspan than some bound, or why there is none.
#[derive(Drop)]
pub enum Leaf {
    /// None has a lesser flowspan.
    Bound(LowerBound),
    /// The stream ends behind its period: the chain's sum and its span are above the period.
    Overrun(usize, Chain),
    /// The decisions contradict one another: the chain is closed, and its sum is above 0.
    Cycle(Chain),
    /// The link is busy behind the cycle: the least head of the entries and their occupancies of the link are above the
    /// cycle.
    Overload(usize, Entries),
}
