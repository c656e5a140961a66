//! Lists with fewer and longer entries, which keep the gates that a schedule asks for.
ghost use Rattle.std.specs.Prelude.{◌≡◌, ◌≤◌, ◌<◌, length, All, IfOk};
ghost use Rattle.tsn_model.specs.Schedule.{IsValid};
ghost use Rattle.tsn_model.specs.Gates.{cycle_of};
ghost use Rattle.tsn_model.specs.Kept.{KeepsWantedGates};
ghost use Rattle.tsn_gate.specs.Entries.{IsGateList};
ghost use Rattle.tsn_gate.specs.Merged.{IsMerged, AreMerged, AreMergedLists, AreListsBy, IsWidened};

use crate::kept::times_kept;
use crate::list::{GateList, all_last};
use crate::lists::gate_lists;
use crate::widened::widened;
use std::alloc::{AllocError, Global};
use tsn_model::{GateEntry, NoMemory};
use tsn_timing::{Problem, Valid};

/// The lists that a schedule asks for, or with `merge` lists that keep them with entries of no less than so many
/// nanoseconds where that can be done.
///
/// # Errors
///
/// There was no memory.
pub fn lists_by(
    alloc: Global,
    problem: &Problem,
    valid: &Valid,
    merge: Option<u64>,
) -> Result<Vec<GateList>, NoMemory>
    requires { IsValid problem.now.network valid.now }
    ensures lists { IfOk result (λ lists. AreListsBy merge problem.now.network valid.now lists.items) }
    ensures gates { IfOk result (λ lists. KeepsWantedGates problem.now.network valid.now lists.items) }
    ensures exist { IfOk result (λ lists. All (λ list. list.link < length problem.now.network.links) lists.items) }
{
    match merge {
        None => gate_lists(alloc, problem, valid),
        Some(least) => merged_lists(alloc, problem, valid, least),
    }
}

/// For each directed link that a stream uses, by link number, a list that keeps the gates that the schedule asks for, in
/// entries of no less than `least` nanoseconds where that can be done: background that is shorter is closed; windows with
/// nothing but a guard between them are joined; a guard that is shorter, and what a shorter window lacks, is given to the
/// scheduled class. Nothing is opened to the background. With 0 they are the lists that the schedule asks for.
///
/// # Errors
///
/// There was no memory.
pub fn merged_lists(
    alloc: Global,
    problem: &Problem,
    valid: &Valid,
    least: u64,
) -> Result<Vec<GateList>, NoMemory>
    requires { IsValid problem.now.network valid.now }
    ensures lists { IfOk result (λ lists. AreMergedLists problem.now.network valid.now least lists.items) }
    ensures gates { IfOk result (λ lists. KeepsWantedGates problem.now.network valid.now lists.items) }
    ensures exist { IfOk result (λ lists. All (λ list. list.link < length problem.now.network.links) lists.items) }
{
    // The network is within its limits.
    let _limits = problem.cycle();
    let wanted = gate_lists(alloc, problem, valid)?;
    Ok(merge_all(alloc, &wanted, least)?)
}

fn merge_all(alloc: Global, lists: &[GateList], least: u64) -> Result<Vec<GateList>, AllocError>
    ensures { IfOk result (λ merged. AreMerged least lists.now merged.items) }
{
    let mut merged = Vec::new(alloc);
    for list in lists {
        merged.push(merge(alloc, list, least)?)?;
    }
    Ok(merged)
}

fn merge(alloc: Global, list: &GateList, least: u64) -> Result<GateList, AllocError>
    ensures { IfOk result (IsMerged least list.now) }
{
    let entries = list.entries();
    let cycle = list.cycle();
    if all_last(entries, least) {
        let same = Vec::from_slice(alloc, entries)?;
        return Ok(GateList::of(list.link(), same));
    }
    let new = changed(alloc, entries, least, cycle)?;
    Ok(GateList::of(list.link(), new))
}

// The entries of a list that doesn't stay as it is.
fn changed(
    alloc: Global,
    entries: &[GateEntry],
    least: u64,
    cycle: u64,
) -> Result<Vec<GateEntry>, AllocError>
    requires whole { cycle ≡ cycle_of entries.now }
    requires list { IsGateList entries.now }
    requires some { 1 ≤ least }
    ensures widened { IfOk result (λ new. IsWidened least entries.now new.items) }
    ensures list { IfOk result (λ new. IsGateList new.items) }
{
    let kept = times_kept(alloc, entries, least, cycle)?;
    widened(alloc, entries, &kept, least, cycle)
}
