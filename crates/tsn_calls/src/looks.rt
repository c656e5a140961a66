//! Looks at the root and its two children.
ghost use Rattle.std.specs.Prelude.{IfOk, IfSome};
ghost use Rattle.tsn_conflict.specs.Kept.{AreConflictsOf};
ghost use Rattle.tsn_conflict.specs.Right.{HasProof};
ghost use Rattle.tsn_conflict.specs.Outcome.{outcome_of};
ghost use Rattle.tsn_conflict.specs.Path.{Fits};

use crate::search::{child, worst};
use crate::told::{NO_MEMORY, tell, tell_offsets};
use std::alloc::Global;
use tsn_book::Event;
use tsn_branch::{Least, fits, look, look_from};
use tsn_conflict::outcome::Look;
use tsn_conflict::sharing::Conflicts;
use tsn_conflict::{Node, Side, Triple};
use tsn_model::NoMemory;
use tsn_timing::Timing;

/// Looks at the root, and tells its least offsets too.
pub fn look_at_root<R: Print + AllocGlobal>(
    rt: &R,
    timing: &Timing,
    shared: &Conflicts,
) -> Result<(), NoMemory>
    requires { AreConflictsOf timing.now shared.now }
{
    let root = Node::root(rt.alloc());
    if !fits(shared, &root) {
        return Ok(());
    }
    match look_from_once(rt, timing, shared, &root) {
        Ok(()) => Ok(()),
        Err(NoMemory) => {
            tell(rt, "look_from", NO_MEMORY);
            look_from_once(rt, timing, shared, &root)
        }
    }
}

fn look_from_once<R: Print + AllocGlobal>(
    rt: &R,
    timing: &Timing,
    shared: &Conflicts,
    node: &Node,
) -> Result<(), NoMemory>
    requires conflicts { AreConflictsOf timing.now shared.now }
    requires fits { Fits shared.now.triples node.now }
{
    let found = look_from(rt.alloc(), timing, shared, node, None, worst(timing), None)?;
    tell_found(rt, &found);
    drop(found);
    Ok(())
}

fn tell_found<R: Print>(rt: &R, found: &(Look, Option<Least>)) {
    tell(rt, "look_from", word_for(&found.0));
    if let Some(least) = &found.1 {
        tell_offsets(rt, "its offsets", least.offsets());
    }
}

fn word_for(found: &Look) -> &'static str {
    match found {
        Look::Split(_) => "split",
        Look::Solved { .. } => "solved",
        Look::Pruned { .. } => "pruned",
        Look::Tied { .. } => "tied",
        Look::Refuted(_) => "refuted",
    }
}

/// The triple on which the root is split.
pub fn first_split(
    alloc: Global,
    timing: &Timing,
    shared: &Conflicts,
) -> Result<Option<Triple>, NoMemory>
    requires { AreConflictsOf timing.now shared.now }
{
    let root = Node::root(alloc);
    if !fits(shared, &root) {
        return Ok(None);
    }
    split_at(alloc, timing, shared, &root)
}

fn split_at(
    alloc: Global,
    timing: &Timing,
    shared: &Conflicts,
    node: &Node,
) -> Result<Option<Triple>, NoMemory>
    requires conflicts { AreConflictsOf timing.now shared.now }
    requires fits { Fits shared.now.triples node.now }
{
    let found = look(alloc, timing, shared, node, worst(timing), None)?;
    let split = split_of(&found);
    drop(found);
    Ok(split)
}

fn split_of(found: &Look) -> Option<Triple> {
    match found {
        Look::Split(triple) => Some(*triple),
        _ => None,
    }
}

/// Looks at both children.
pub fn look_at_children<R: Print + AllocGlobal>(
    rt: &R,
    timing: &Timing,
    shared: &Conflicts,
    triple: Triple,
) -> Result<(), NoMemory>
    requires { AreConflictsOf timing.now shared.now }
{
    look_at(rt, timing, shared, &child(rt.alloc(), triple, Side::Left)?)?;
    look_at(rt, timing, shared, &child(rt.alloc(), triple, Side::Right)?)
}

fn look_at<R: Print + AllocGlobal>(
    rt: &R,
    timing: &Timing,
    shared: &Conflicts,
    node: &Node,
) -> Result<(), NoMemory>
    requires { AreConflictsOf timing.now shared.now }
{
    if !fits(shared, node) {
        return Ok(());
    }
    match look_once(rt, timing, shared, node) {
        Ok(()) => Ok(()),
        Err(NoMemory) => {
            tell(rt, "look", NO_MEMORY);
            look_once(rt, timing, shared, node)
        }
    }
}

fn look_once<R: Print + AllocGlobal>(
    rt: &R,
    timing: &Timing,
    shared: &Conflicts,
    node: &Node,
) -> Result<(), NoMemory>
    requires conflicts { AreConflictsOf timing.now shared.now }
    requires fits { Fits shared.now.triples node.now }
{
    let found = look(rt.alloc(), timing, shared, node, worst(timing), None)?;
    tell(rt, "look", word_for(&found));
    drop(found);
    Ok(())
}

/// A node with what a look finds there, where it is one of the search.
pub fn event_at(
    alloc: Global,
    timing: &Timing,
    shared: &Conflicts,
    node: Node,
) -> Result<Option<Event>, NoMemory>
    requires { AreConflictsOf timing.now shared.now }
    ensures proof { IfOk result (λ found. IfSome found (λ event. HasProof timing.now event.node (outcome_of event.look))) }
{
    if !fits(shared, &node) {
        return Ok(None);
    }
    let look = looked(alloc, timing, shared, &node)?;
    Ok(Some(Event { node, look }))
}

fn looked(alloc: Global, timing: &Timing, shared: &Conflicts, node: &Node) -> Result<Look, NoMemory>
    requires conflicts { AreConflictsOf timing.now shared.now }
    requires fits { Fits shared.now.triples node.now }
    ensures { IfOk result (λ look. HasProof timing.now node.now (outcome_of look)) }
{
    look(alloc, timing, shared, node, worst(timing), None)
}
