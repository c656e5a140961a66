//! Least offsets, where the left stream of each conflict goes first.
ghost use Rattle.std.specs.Prelude.{All, length};
ghost use Rattle.tsn_diff.specs.Limits.{IsArcAmong};

use crate::told::{NO_MEMORY, tell, tell_offsets};
use std::alloc::Global;
use tsn_conflict::sharing::Conflicts;
use tsn_diff::{Feasibility, Least, MAX_STREAMS, Net};
use tsn_model::{Arc, NoMemory, Side};

/// Solves all arcs at once, and again with the last one added to the solution for the others.
pub fn call<R: Print + AllocGlobal>(
    rt: &R,
    shared: &Conflicts,
    streams: usize,
) -> Result<(), NoMemory> {
    let arcs = left_arcs(rt.alloc(), shared)?;
    solve(rt, &Net::new(streams.min(MAX_STREAMS)), &arcs)
}

fn left_arcs(alloc: Global, shared: &Conflicts) -> Result<Vec<Arc>, NoMemory> {
    let mut arcs = Vec::new(alloc);
    for triple in shared.triples() {
        if shared.has(*triple) {
            if arcs.push(shared.arc(*triple, Side::Left)).is_err() {
                return Err(NoMemory);
            }
        }
    }
    Ok(arcs)
}

fn solve<R: Print + AllocGlobal>(rt: &R, net: &Net, arcs: &[Arc]) -> Result<(), NoMemory> {
    solve_all(rt, net, arcs)?;
    match arcs.split_last() {
        Some((last, others)) => solve_with(rt, net, others, *last),
        None => Ok(()),
    }
}

fn solve_all<R: Print + AllocGlobal>(rt: &R, net: &Net, arcs: &[Arc]) -> Result<(), NoMemory> {
    if !net.takes(arcs) {
        return Ok(());
    }
    match solve_once(rt, net, arcs) {
        Ok(()) => Ok(()),
        Err(NoMemory) => {
            tell(rt, "least", NO_MEMORY);
            solve_once(rt, net, arcs)
        }
    }
}

fn solve_once<R: Print + AllocGlobal>(rt: &R, net: &Net, arcs: &[Arc]) -> Result<(), NoMemory>
    requires { All (IsArcAmong (length net.now)) arcs.now }
{
    let outcome = net.least(rt.alloc(), arcs)?;
    tell_outcome(rt, "least", &outcome);
    Ok(())
}

// Solves the others, and adds the last arc to that.
fn solve_with<R: Print + AllocGlobal>(
    rt: &R,
    net: &Net,
    others: &[Arc],
    last: Arc,
) -> Result<(), NoMemory> {
    if !net.takes(others) || !net.takes(&[last]) {
        return Ok(());
    }
    add_last(rt, net, others, last)
}

fn add_last<R: Print + AllocGlobal>(
    rt: &R,
    net: &Net,
    others: &[Arc],
    last: Arc,
) -> Result<(), NoMemory>
    requires others { All (IsArcAmong (length net.now)) others.now }
    requires last { IsArcAmong (length net.now) last }
{
    match net.least(rt.alloc(), others)? {
        Feasibility::Least(least) => add(rt, &least, last),
        Feasibility::Positive(_) => Ok(()),
    }
}

fn add<R: Print + AllocGlobal>(rt: &R, least: &Least, last: Arc) -> Result<(), NoMemory>
    requires { IsArcAmong (length least.now.releases) last }
{
    match add_once(rt, least, last) {
        Ok(()) => Ok(()),
        Err(NoMemory) => {
            tell(rt, "with_arc", NO_MEMORY);
            add_once(rt, least, last)
        }
    }
}

fn add_once<R: Print + AllocGlobal>(rt: &R, least: &Least, last: Arc) -> Result<(), NoMemory>
    requires { IsArcAmong (length least.now.releases) last }
{
    let outcome = least.with_arc(rt.alloc(), last)?;
    tell_outcome(rt, "with_arc", &outcome);
    Ok(())
}

fn tell_outcome<R: Print>(rt: &R, name: &str, outcome: &Feasibility) {
    match outcome {
        Feasibility::Least(least) => tell_offsets(rt, name, least.offsets()),
        Feasibility::Positive(_) => tell(rt, name, "none"),
    }
}
