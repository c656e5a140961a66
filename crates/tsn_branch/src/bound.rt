//! A flowspan that no schedule undercuts.
ghost use Rattle.std.specs.Prelude.{◌≡◌, IfOk};
ghost use Rattle.tsn_conflict.specs.Outcome.{outcome_of};
ghost use Rattle.tsn_branch.specs.Bound.{IsLowerBound, HasBoundAt};

use crate::descent::Descent;
use crate::tables::{Aim, Tables};
use std::alloc::Global;
use tsn_conflict::NoMemory;
use tsn_conflict::outcome::Look;
use tsn_timing::Timing;

/// The most streams that are searched in the order of the file.
pub const FEW_STREAMS: usize = 128;

// How often a greater bound is sought, at most: more often than a network has links and streams.
const ROUNDS: usize = 1_000_000;

/// What no valid schedule's flowspan is below, in nanoseconds: the latest arrival of a stream that starts at its release, or,
/// where that is greater, the load of a shared link. The error says that there was no memory.
pub fn lower_bound(alloc: Global, tables: Tables<'_>) -> Result<u64, NoMemory>
    ensures { IfOk result (IsLowerBound tables.entry.timing.now) }
{
    let mut bound = 0u64;
    for _ in 0..ROUNDS {
        let higher = bound_at(alloc, tables, bound.saturating_add(1))?;
        if higher <= bound {
            break;
        }
        bound = higher;
    }
    Ok(bound)
}

/// What no valid schedule's flowspan is below, in nanoseconds: the latest arrival of a stream that starts at its release.
pub fn least_arrival(timing: &Timing) -> u64
    ensures { IsLowerBound timing.now result }
{
    // The network is within its limits.
    let _limits = timing.cycle();
    let mut bound = 0u64;
    for stream in 0..timing.streams() {
        bound = bound.max(timing.release(stream) + timing.arrival(stream));
    }
    bound
}

// The bound with which the root is pruned at a target; 0 where it isn't.
fn bound_at(alloc: Global, tables: Tables<'_>, target: u64) -> Result<u64, NoMemory>
    ensures { IfOk result (IsLowerBound tables.entry.timing.now) }
{
    let mut descent = Descent::root(alloc, tables.timing)?;
    let aim = Aim { target, best: None };
    let looked = descent.look(alloc, tables, aim);
    drop(descent);
    let look = looked?;
    let bound = bound_of(&look);
    drop(look);
    Ok(bound)
}

// The bound of a pruned node, else 0.
fn bound_of(look: &Look) -> u64
    ensures { HasBoundAt (outcome_of look.now) result }
{
    match look {
        Look::Pruned { bound, .. } => *bound,
        Look::Split(_) => 0,
        Look::Solved { .. } => 0,
        Look::Tied { .. } => 0,
        Look::Refuted(_) => 0,
    }
}
