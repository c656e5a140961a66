//! What a look at a node finds.
use tsn_cert::{Leaf, LowerBound};
use tsn_diff::Forest;
use tsn_model::Triple;
use tsn_timing::Solved;

/// What a look at a node finds.
#[derive(Drop)]
pub enum Look {
    /// A conflict to decide.
    Split(Triple),
    /// A valid schedule with its flowspan, the leaf that shows it least on the path, and the chains of all streams, which show
    /// its offsets.
    Solved {
        solved: Solved,
        leaf: LowerBound,
        chains: Forest,
    },
    /// What no flowspan on the path is below, in nanoseconds, and the leaf that shows it.
    Pruned {
        bound: u64,
        leaf: LowerBound,
    },
    /// What no flowspan on the path is below, in nanoseconds, the leaf that shows it, and the chains of the first streams, which
    /// show that no schedule on the path comes before the best one.
    Tied {
        bound: u64,
        leaf: LowerBound,
        chains: Forest,
    },
    /// A leaf that shows that no valid schedule is on the path.
    Refuted(Leaf),
}
