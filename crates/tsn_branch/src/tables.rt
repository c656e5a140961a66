//! What looks at nodes read, and what they are to reach.
ghost use Rattle.std.proofs.Props.{props};
ghost use Rattle.tsn_conflict.specs.Kept.{AreConflictsOf};
ghost use Rattle.tsn_branch.specs.Loads.{AreLoadsOf};
ghost use Rattle.tsn_branch.specs.Rates.{rate-prop};

use crate::loads::Loads;
use tsn_conflict::sharing::Conflicts;
use tsn_timing::{Solved, Timing};

/// What looks at nodes read: the times of a network, its conflicts and the loads of its links.
#[derive(Clone, Copy)]
pub struct Tables<'a> {
    pub timing: &'a Timing,
    pub conflicts: &'a Conflicts,
    pub loads: &'a Loads,
    pub ghost right_conflicts: { AreConflictsOf timing.now conflicts.now } by { Prim.hlevel (props, rate-prop) },
    pub ghost right_loads: { AreLoadsOf timing.now loads.now },
}

/// What a schedule is to reach: a flowspan below the target, and to be better than the best one so far.
#[derive(Clone, Copy)]
pub struct Aim<'a> {
    /// In nanoseconds.
    pub target: u64,
    /// The best schedule so far, if there is one.
    pub best: Option<&'a Solved>,
}
