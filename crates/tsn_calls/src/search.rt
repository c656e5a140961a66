//! Looks at the root and its two children, a book of these nodes, and the same as the steps of two tellers.
ghost use Rattle.tsn_conflict.specs.Kept.{AreConflictsOf};

use crate::{looks, settlements, steps};
use std::alloc::Global;
use tsn_conflict::sharing::Conflicts;
use tsn_conflict::{Node, Side, Triple};
use tsn_model::NoMemory;
use tsn_timing::Timing;

/// How many tellers there are, and how many nodes may be settled.
pub const TELLERS: usize = 2;

pub const LIMIT: usize = 10;

pub fn call<R: Print + AllocGlobal>(
    rt: &R,
    timing: &Timing,
    shared: &Conflicts,
) -> Result<(), NoMemory>
    requires { AreConflictsOf timing.now shared.now }
{
    looks::look_at_root(rt, timing, shared)?;
    match looks::first_split(rt.alloc(), timing, shared)? {
        Some(triple) => call_below(rt, timing, shared, triple),
        None => Ok(()),
    }
}

// The calls with the children of the root, which is split on that triple.
fn call_below<R: Print + AllocGlobal>(
    rt: &R,
    timing: &Timing,
    shared: &Conflicts,
    triple: Triple,
) -> Result<(), NoMemory>
    requires { AreConflictsOf timing.now shared.now }
{
    looks::look_at_children(rt, timing, shared, triple)?;
    settlements::call(rt, timing, shared, triple)?;
    steps::call(rt, timing, shared, triple)
}

/// A child of the root.
pub fn child(alloc: Global, triple: Triple, side: Side) -> Result<Node, NoMemory> {
    Node::root(alloc).child(triple, side)
}

/// What is worse than each flowspan.
pub fn worst(timing: &Timing) -> u64 {
    timing.cycle() + 1
}
