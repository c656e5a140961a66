//! A look at one node of the search: what the decisions on its path leave open, or why nothing is left. And what a search of any kind
//! is given: the tables that it reads and the supervisor that it passes, such as one that tells how far it has got; and a flowspan that
//! no schedule undercuts.
#![tactic(auto)]

ghost use Rattle.std.specs.Prelude.{IfOk, IfSome, option_copied};
ghost use Rattle.tsn_timing.specs.Solution.{IsSolved};
ghost use Rattle.tsn_conflict.specs.Kept.{AreConflictsOf};
ghost use Rattle.tsn_conflict.specs.Outcome.{outcome_of};
ghost use Rattle.tsn_conflict.specs.Path.{Fits};
ghost use Rattle.tsn_branch.specs.Look.{IsLook, SplitsAmong, PrunesFrom, TiesWith};
ghost use Rattle.tsn_conflict.specs.Right.{HasProof, SplitsUndecided};
ghost use Rattle.tsn_branch.specs.Least.{IsLeastAbove, ComesWithSplit};

mod arcs;
pub mod bound;
mod chains;
pub mod descent;
mod heard;
mod instants;
mod judge;
mod judgement;
mod loads;
pub mod prepared;
pub mod progress;
pub mod setting;
pub mod supervisor;
mod tables;

use crate::arcs::least_at;
use crate::judge::judge;
pub use arcs::fits;
pub use bound::{FEW_STREAMS, least_arrival, lower_bound};
pub use descent::Descent;
pub use loads::Loads;
pub use prepared::Prepared;
pub use progress::ProgressWriter;
pub use setting::Setting;
use std::alloc::Global;
pub use supervisor::{LearnedNews, News, NoSupervisor, Phase, Supervisor};
pub use tables::{Aim, Tables};
use tsn_conflict::Node;
use tsn_conflict::outcome::Look;
use tsn_conflict::sharing::Conflicts;
pub use tsn_diff::Least;
use tsn_model::NoMemory;
use tsn_timing::{Solved, Timing};

/// Looks at a node: the first of these cases that holds.
///
/// 1. No offsets hold the arcs of its path: refuted by a cycle of them.
/// 2. By the least offsets that do and put no stream before its release, some stream isn't done within its period, or
///    arrives after its latest instant: refuted by the first such stream.
/// 3. By these the flowspan is at least the target: pruned with that bound, by the first stream that arrives then.
/// 4. By these the first frames of some shared link's streams keep it busy behind the cycle: refuted. Or else they do for so
///    long that the flowspan is at least the target: pruned with that bound. Of the first such link, the first frames of all
///    streams in order show it.
/// 5. Of the best schedule so far, if there is one: by these the flowspan, or else the load of a shared link, is at least that of
///    the best schedule, and they aren't lexicographically less than it: tied with that bound, by the first stream that arrives
///    then, or else by the first frames on the first such link. The chains go to the first stream at which the two lists differ,
///    or else to the last.
/// 6. By these no two streams' frames overlap on a link: solved, with that flowspan and the chains of all streams.
/// 7. Else the node is to be split on the first triple whose frames overlap.
///
/// The target is in nanoseconds. The error says that there was no memory.
pub fn look(
    alloc: Global,
    timing: &Timing,
    conflicts: &Conflicts,
    node: &Node,
    target: u64,
    best: Option<&Solved>,
) -> Result<Look, NoMemory>
    requires conflicts { AreConflictsOf timing.now conflicts.now }
    requires best { IfSome (option_copied best) (IsSolved timing.now) }
    requires fits { Fits conflicts.now.triples node.now }
    ensures first_case { IfOk result (λ look. IsLook timing.now node.now target (option_copied best.entry) (outcome_of look)) }
    ensures proof { IfOk result (λ look. HasProof timing.now node.now (outcome_of look)) }
    ensures undecided { IfOk result (λ look. SplitsUndecided timing.now node.now (outcome_of look)) }
    ensures among { IfOk result (λ look. SplitsAmong conflicts.now.triples (outcome_of look)) }
    ensures met { IfOk result (λ look. PrunesFrom target (outcome_of look)) }
    ensures ties { IfOk result (λ look. TiesWith timing.now node.now (option_copied best.entry) (outcome_of look)) }
{
    let (look, least) = look_from(alloc, timing, conflicts, node, None, target, best)?;
    drop(least);
    Ok(look)
}

/// Looks at a node as `look` does, from the least offsets of the node above it where they are at hand: `parent`, by the path
/// without its last decision. A look that finds a split comes with the least offsets of the node, from which its children may
/// be looked at. Which of several chains shows an offset may depend on what was at hand.
///
/// The target is in nanoseconds. The error says that there was no memory.
pub fn look_from(
    alloc: Global,
    timing: &Timing,
    conflicts: &Conflicts,
    node: &Node,
    parent: Option<&Least>,
    target: u64,
    best: Option<&Solved>,
) -> Result<(Look, Option<Least>), NoMemory>
    requires conflicts { AreConflictsOf timing.now conflicts.now }
    requires best { IfSome (option_copied best) (IsSolved timing.now) }
    requires fits { Fits conflicts.now.triples node.now }
    requires parent { IfSome (option_copied parent) (IsLeastAbove timing.now node.now) }
    ensures first_case { IfOk result (λ found. IsLook timing.now node.now target (option_copied best.entry) (outcome_of found.0)) }
    ensures proof { IfOk result (λ found. HasProof timing.now node.now (outcome_of found.0)) }
    ensures undecided { IfOk result (λ found. SplitsUndecided timing.now node.now (outcome_of found.0)) }
    ensures among { IfOk result (λ found. SplitsAmong conflicts.now.triples (outcome_of found.0)) }
    ensures met { IfOk result (λ found. PrunesFrom target (outcome_of found.0)) }
    ensures ties { IfOk result (λ found. TiesWith timing.now node.now (option_copied best.entry) (outcome_of found.0)) }
    ensures least { IfOk result (λ found. ComesWithSplit timing.now node.now (outcome_of found.0) found.1) }
{
    let loads = Loads::of(alloc, timing)?;
    let tables = Tables {
        timing,
        conflicts,
        loads: &loads,
    };
    let found = look_with(alloc, tables, node, parent, Aim { target, best });
    drop(loads);
    found
}

// The same with tables at hand.
fn look_with(
    alloc: Global,
    tables: Tables<'_>,
    node: &Node,
    parent: Option<&Least>,
    aim: Aim<'_>,
) -> Result<(Look, Option<Least>), NoMemory>
    requires best { IfSome (option_copied aim.best) (IsSolved tables.timing.now) }
    requires fits { Fits tables.conflicts.now.triples node.now }
    requires parent { IfSome (option_copied parent) (IsLeastAbove tables.timing.now node.now) }
    ensures first_case { IfOk result (λ found. IsLook tables.entry.timing.now node.now aim.entry.target (option_copied aim.entry.best) (outcome_of found.0)) }
    ensures least { IfOk result (λ found. ComesWithSplit tables.entry.timing.now node.now (outcome_of found.0) found.1) }
{
    let outcome = least_at(alloc, tables.timing, tables.conflicts, node, parent)?;
    judge(alloc, tables, outcome, aim)
}
