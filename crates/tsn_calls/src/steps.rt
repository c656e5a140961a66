//! The steps of two tellers: the root, what was posted, and both children.
ghost use Rattle.std.specs.Prelude.{◌≡◌, ◌++◌, ◌∷◌, [], All, IfOk, OnOk};
ghost use Rattle.tsn_conflict.specs.Kept.{AreConflictsOf};
ghost use Rattle.tsn_core.specs.Shared.{IsProved};

use crate::looks::event_at;
use crate::search::{LIMIT, TELLERS, child};
use crate::told::{NO_MEMORY, tell, tell_quiet};
use std::alloc::Global;
use tsn_conflict::sharing::Conflicts;
use tsn_conflict::{Node, Side, Triple};
use tsn_core::{Core, Step};
use tsn_model::NoMemory;
use tsn_timing::Timing;

// A node that a teller settles.
#[derive(Drop)]
struct Settlement {
    teller: usize,
    node: Node,
}

/// Takes the steps, once more from the first one on where memory was wanting: those that were taken are refused then.
pub fn call<R: Print + AllocGlobal>(
    rt: &R,
    timing: &Timing,
    shared: &Conflicts,
    triple: Triple,
) -> Result<(), NoMemory>
    requires { AreConflictsOf timing.now shared.now }
{
    let mut core = core_of(rt.alloc(), timing)?;
    let answer = take_and_tell(rt, timing, shared, &mut core, triple);
    drop(core);
    answer
}

fn core_of(alloc: Global, timing: &Timing) -> Result<Core, NoMemory>
    ensures { IfOk result (λ core. core.network ≡ timing.now) }
{
    Core::new(alloc, timing, TELLERS, LIMIT)
}

fn take_and_tell<R: Print + AllocGlobal>(
    rt: &R,
    timing: &Timing,
    shared: &Conflicts,
    core: &mut Core,
    triple: Triple,
) -> Result<(), NoMemory>
    requires conflicts { AreConflictsOf timing.now shared.now }
    requires network { core.old.network ≡ timing.now }
{
    take_steps(rt, timing, shared, core, triple)?;
    tell_quiet(rt, core.quiet());
    Ok(())
}

fn take_steps<R: Print + AllocGlobal>(
    rt: &R,
    timing: &Timing,
    shared: &Conflicts,
    core: &mut Core,
    triple: Triple,
) -> Result<(), NoMemory>
    requires conflicts { AreConflictsOf timing.now shared.now }
    requires network { core.old.network ≡ timing.now }
{
    if take_once(rt.alloc(), timing, shared, core, triple)? {
        return Ok(());
    }
    tell(rt, "run", NO_MEMORY);
    if take_once(rt.alloc(), timing, shared, core, triple)? {
        return Ok(());
    }
    Err(NoMemory)
}

// Takes the steps: whether there was memory for them.
fn take_once(
    alloc: Global,
    timing: &Timing,
    shared: &Conflicts,
    core: &mut Core,
    triple: Triple,
) -> Result<bool, NoMemory>
    requires conflicts { AreConflictsOf timing.now shared.now }
    requires network { core.old.network ≡ timing.now }
    ensures { core.new.network ≡ timing.now }
{
    let steps = steps_of(alloc, timing, shared, triple)?;
    Ok(take(alloc, core, steps))
}

fn take(alloc: Global, core: &mut Core, steps: Vec<Step>) -> bool
    requires { All (IsProved core.old.network) steps.items }
    ensures { core.new.network ≡ core.old.network }
{
    core.run(alloc, steps).is_ok()
}

fn steps_of(
    alloc: Global,
    timing: &Timing,
    shared: &Conflicts,
    triple: Triple,
) -> Result<Vec<Step>, NoMemory>
    requires { AreConflictsOf timing.now shared.now }
    ensures { IfOk result (λ steps. All (IsProved timing.now) steps.items) }
{
    let mut steps = Vec::new(alloc);
    add_root(alloc, timing, shared, &mut steps)?;
    add_children(alloc, timing, shared, &mut steps, triple)?;
    Ok(steps)
}

fn add_root(
    alloc: Global,
    timing: &Timing,
    shared: &Conflicts,
    steps: &mut Vec<Step>,
) -> Result<(), NoMemory>
    requires conflicts { AreConflictsOf timing.now shared.now }
    requires proved { All (IsProved timing.now) steps.old.items }
    ensures { OnOk result (All (IsProved timing.now) steps.new.items) }
{
    let root = Settlement {
        teller: 0,
        node: Node::root(alloc),
    };
    add_at(alloc, timing, shared, steps, root)?;
    add(steps, Step::Observe(1))
}

fn add_children(
    alloc: Global,
    timing: &Timing,
    shared: &Conflicts,
    steps: &mut Vec<Step>,
    triple: Triple,
) -> Result<(), NoMemory>
    requires conflicts { AreConflictsOf timing.now shared.now }
    requires proved { All (IsProved timing.now) steps.old.items }
    ensures { OnOk result (All (IsProved timing.now) steps.new.items) }
{
    let left = Settlement {
        teller: 1,
        node: child(alloc, triple, Side::Left)?,
    };
    add_at(alloc, timing, shared, steps, left)?;
    let right = Settlement {
        teller: 0,
        node: child(alloc, triple, Side::Right)?,
    };
    add_at(alloc, timing, shared, steps, right)
}

// Adds that a teller settles what a look finds at a node.
fn add_at(
    alloc: Global,
    timing: &Timing,
    shared: &Conflicts,
    steps: &mut Vec<Step>,
    settlement: Settlement,
) -> Result<(), NoMemory>
    requires conflicts { AreConflictsOf timing.now shared.now }
    requires proved { All (IsProved timing.now) steps.old.items }
    ensures { OnOk result (All (IsProved timing.now) steps.new.items) }
{
    let Settlement { teller, node } = settlement;
    match event_at(alloc, timing, shared, node)? {
        Some(event) => add(steps, Step::Settle(teller, event)),
        None => Ok(()),
    }
}

fn add(steps: &mut Vec<Step>, step: Step) -> Result<(), NoMemory>
    ensures { OnOk result (steps.new.items ≡ steps.old.items ++ step ∷ []) }
{
    match steps.push(step) {
        Ok(()) => Ok(()),
        Err(refused) => {
            drop(refused);
            Err(NoMemory)
        }
    }
}
