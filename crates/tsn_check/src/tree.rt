//! The nodes of a certificate, walked in their order.
ghost use Rattle.std.specs.Prelude.{◌≡◌, ◌⊎◌, ◌≤◌, ℕ, List, Option, [], ◌∷◌, map, IfOk, IfErr, OnOk};
ghost use Rattle.tsn_cert.specs.Leaf.{bound_leaf, leaf_of};
ghost use Rattle.tsn_cert.specs.Node.{tree_node};
ghost use Rattle.tsn_model.specs.declared.Decision.{Decision};
ghost use Rattle.tsn_model.specs.Network.{Network};
ghost use Rattle.tsn_model.specs.Places.{Fills, next_places, pending};
ghost use Rattle.tsn_model.specs.Certificate.{Leaf as TreeLeaf, IsNodeShown, leaf_node};
ghost use Rattle.tsn_check.specs.Claims.{IsWellPosed};
ghost use Rattle.tsn_check.specs.Plans.{offsets_in};
ghost use Rattle.tsn_check.specs.Faults.{IsWrongTree};
ghost use Rattle.tsn_check.specs.Turns.{AreTurns, decisions, places_at};
ghost use Rattle.tsn_check.specs.Steps.{Judges, FindsBound, IsBranchOf};

use crate::claim::Claim;
use crate::leaf::{judge_cycle, judge_late, judge_overrun};
use crate::load::{judge_load, judge_overload};
use crate::path::{Turn, next_place, turn_to};
use crate::tie::{judge_tie, span_of};
use crate::why::{NodeFault, Shortfall, TreeFault};
use std::alloc::Global;
use tsn_cert::plan::MAX_TIME;
use tsn_cert::{Leaf, LowerBound, Node};
use tsn_model::Side;
use tsn_timing::{Timing, is_conflict};

/// Whether the bound is at least the target; else what it is.
fn judge_bound(
    timing: &Timing,
    target: u64,
    path: &[Turn],
    bound: &LowerBound,
) -> Result<Option<Shortfall>, NodeFault>
    requires turns { AreTurns timing.now path.now }
    requires target { target ≤ MAX_TIME }
    ensures { FindsBound timing.now target (decisions path.now) (bound_leaf bound.now) result }
{
    match bound {
        LowerBound::Late(stream, chain) => judge_late(timing, target, path, *stream, chain),
        LowerBound::Load(link, entries) => judge_load(timing, target, path, *link, entries),
    }
}

/// Whether the leaf's bound is at least the target, or it shows that there is no valid schedule on the path; else what it comes to.
fn judge_leaf(
    timing: &Timing,
    target: u64,
    path: &[Turn],
    leaf: &Leaf,
) -> Result<Option<Shortfall>, NodeFault>
    requires turns { AreTurns timing.now path.now }
    requires target { target ≤ MAX_TIME }
    ensures { FindsBound timing.now target (decisions path.now) (leaf_of leaf.now) result }
{
    match leaf {
        Leaf::Bound(bound) => judge_bound(timing, target, path, bound),
        Leaf::Overrun(stream, chain) => judge_overrun(timing, path, *stream, chain),
        Leaf::Cycle(chain) => judge_cycle(timing, path, chain),
        Leaf::Overload(link, entries) => judge_overload(timing, path, *link, entries),
    }
}

/// Whether a leaf is right, of which this is found.
fn is_shown(found: Result<Option<Shortfall>, NodeFault>) -> Result<(), NodeFault>
    ensures { (network : Network) (target : ℕ) (planned : Option (List ℕ)) (path : List Decision) (proof : TreeLeaf) → FindsBound network target path proof found
        → Judges network target planned path (leaf_node proof) result }
{
    match found {
        Ok(None) => Ok(()),
        Ok(Some(short)) => Err(NodeFault::TooLow(short)),
        Err(fault) => Err(fault),
    }
}

/// Whether the node is right at the end of the path.
fn judge(claim: &Claim<'_>, path: &[Turn], node: &Node) -> Result<(), NodeFault>
    requires posed { IsWellPosed claim.now }
    requires turns { AreTurns claim.now.timing.now path.now }
    ensures { Judges claim.now.timing.now claim.now.target (offsets_in claim.now.plan.now) (decisions path.now) (tree_node node.now) result }
{
    let Claim {
        timing,
        target,
        plan,
    } = *claim;
    match node {
        Node::Branch(triple) => {
            if is_conflict(timing, *triple) {
                Ok(())
            } else {
                Err(NodeFault::NotConflict)
            }
        }
        Node::Leaf(leaf) => is_shown(judge_leaf(timing, target, path, leaf)),
        Node::Tie(bound, chains) => {
            let found = judge_bound(timing, span_of(plan), path, bound);
            judge_tie(timing, path, found, chains, plan)
        }
    }
}

/// Goes on from a node at the end of the path to the next open place: a branch's left side, or past a leaf. False where the
/// tree is at its end.
fn go_on(timing: &Timing, path: &mut Vec<Turn>, node: &Node) -> Result<bool, TreeFault>
    requires turns { AreTurns timing.now path.old.items }
    requires conflict { IsBranchOf timing.now (tree_node node.now) }
    ensures turns { OnOk result (AreTurns timing.now path.new.items) }
    ensures places { IfOk result (λ is_open.
        next_places (decisions path.old.items ∷ pending (decisions path.old.items)) (tree_node node.now)
        ≡ places_at is_open (decisions path.new.items)) }
    ensures memory { IfErr result (λ fault. fault ≡ TreeFault.Memory) }
{
    match node {
        Node::Branch(triple) => {
            path.push(turn_to(timing, *triple, Side::Left))?;
            Ok(true)
        }
        Node::Leaf(_) | Node::Tie(..) => Ok(next_place(timing, path)),
    }
}

/// Whether the nodes spell an accepted tree, or else their first fault.
pub fn check_tree(alloc: Global, claim: &Claim<'_>, nodes: &[Node]) -> Result<(), TreeFault>
    requires { IsWellPosed claim.now }
    ensures ok { OnOk result (Fills (IsNodeShown claim.now.timing.now claim.now.target (offsets_in claim.now.plan.now)) ([] ∷ []) (map tree_node nodes.now)) }
    ensures err { IfErr result (λ fault. (fault ≡ TreeFault.Memory)
        ⊎ IsWrongTree claim.now.timing.now claim.now.target (offsets_in claim.now.plan.now) (map tree_node nodes.now) fault) }
{
    let mut path = Vec::new(alloc);
    let mut open = true;
    for (number, node) in nodes.iter().enumerate() {
        if !open {
            return Err(TreeFault::TooLong(number));
        }
        if let Err(fault) = judge(claim, &path, node) {
            return Err(TreeFault::Node(number, fault));
        }
        open = go_on(claim.timing, &mut path, node)?;
    }
    if open {
        Err(TreeFault::Unfinished(nodes.len()))
    } else {
        Ok(())
    }
}
