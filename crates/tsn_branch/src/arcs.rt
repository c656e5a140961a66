//! The arcs of a path, and what they come to.
ghost use Rattle.std.specs.Prelude.{◌≡◌, ◌↔◌, IsTrue, IfOk, IfSome, All, length, option_copied};
ghost use Rattle.tsn_model.specs.Network.{HasFewStreams, Network};
ghost use Rattle.tsn_model.specs.Arcs as model;
ghost use Rattle.tsn_conflict.specs.Kept.{AreConflictsOf};
ghost use Rattle.tsn_diff.specs.Limits.{IsArcAmong};
ghost use Rattle.tsn_diff.specs.Answers.{Answers};
ghost use Rattle.tsn_conflict.specs.Path.{Fits};
ghost use Rattle.tsn_branch.specs.Releases.{releases_of};
ghost use Rattle.tsn_branch.specs.Least.{IsLeastAbove};

use std::alloc::{AllocError, Global};
use tsn_conflict::Node;
use tsn_conflict::sharing::Conflicts;
use tsn_diff::{Feasibility, Least, Net};
use tsn_model::{Arc, Decision, NoMemory};
use tsn_timing::Timing;

/// Whether each triple of the node's path is one of the conflicts. It takes no memory.
pub fn fits(conflicts: &Conflicts, node: &Node) -> bool
    ensures { IsTrue result ↔ Fits conflicts.now.triples node.now }
{
    let path = node.path();
    for decision in path {
        if !conflicts.has(decision.triple) {
            return false;
        }
    }
    true
}

/// The streams, with the release of each.
pub fn net_of(alloc: Global, timing: &Timing) -> Result<Net, AllocError>
    requires { HasFewStreams timing.now }
    ensures { IfOk result (λ net. net ≡ releases_of timing.now) }
{
    let mut releases = Vec::with_capacity(alloc, timing.streams())?;
    for stream in 0..timing.streams() {
        releases.push(timing.release(stream))?;
    }
    Ok(Net::released(releases))
}

/// What each decision of a path asks of the offsets.
pub fn arcs_of(
    alloc: Global,
    conflicts: &Conflicts,
    path: &[Decision],
) -> Result<Vec<Arc>, AllocError>
    requires { Fits conflicts.now.triples path.now }
    ensures value { (network : Network) → AreConflictsOf network conflicts.now →
        IfOk result (λ arcs. arcs.items ≡ model.arcs_of network path.now) }
    ensures among { IfOk result (λ arcs. All (IsArcAmong (length conflicts.now.uses)) arcs.items) }
{
    let mut arcs = Vec::with_capacity(alloc, path.len())?;
    for decision in path {
        arcs.push(conflicts.arc(decision.triple, decision.side))?;
    }
    Ok(arcs)
}

/// What the arcs of the node's path come to, from the least offsets of the node above where they are at hand.
pub fn least_at(
    alloc: Global,
    timing: &Timing,
    conflicts: &Conflicts,
    node: &Node,
    parent: Option<&Least>,
) -> Result<Feasibility, NoMemory>
    requires conflicts { AreConflictsOf timing.now conflicts.now }
    requires fits { Fits conflicts.now.triples node.now }
    requires parent { IfSome (option_copied parent) (IsLeastAbove timing.now node.now) }
    ensures { IfOk result (Answers (releases_of timing.now) (model.arcs_of timing.now node.now)) }
{
    let path = node.path();
    if let Some(above) = parent {
        if let Some(last) = path.last() {
            let arc = conflicts.arc(last.triple, last.side);
            return above.with_arc(alloc, arc);
        }
    }
    let arcs = arcs_of(alloc, conflicts, path)?;
    let found = least_by(alloc, timing, &arcs);
    drop(arcs);
    found
}

// What the arcs come to.
fn least_by(alloc: Global, timing: &Timing, arcs: &[Arc]) -> Result<Feasibility, NoMemory>
    requires few { HasFewStreams timing.now }
    requires among { All (IsArcAmong (length (releases_of timing.now))) arcs.now }
    ensures { IfOk result (Answers (releases_of timing.now) arcs.now) }
{
    let net = net_of(alloc, timing)?;
    let found = net.least(alloc, arcs);
    drop(net);
    found
}
