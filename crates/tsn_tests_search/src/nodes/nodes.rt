//! The nodes of these tests, and what looks find there. What calls a look does nothing else: all that its contract says
//! would stand in the way of each further proof. What has many fields goes to `drop`, here and in the other modules, so that
//! how it is let go is no part of a test's own proof.
ghost use Rattle.std.specs.Prelude.{◌≡◌, ◌-◌, IfSome, length, option_copied, take};
ghost use Rattle.tsn_branch.specs.Least.{ComesWithSplit, IsLeastAbove};
ghost use Rattle.tsn_conflict.specs.Kept.{AreConflictsOf};
ghost use Rattle.tsn_conflict.specs.Path.{IsUndecided};
ghost use Rattle.tsn_timing.specs.Solution.{IsSolved};
ghost use Rattle.tsn_conflict.specs.Outcome.{outcome_of};
ghost use Rattle.tsn_conflict.specs.Right.{HasProof, SplitsUndecided};

use crate::nodes::rows::{cut, number, numbers, place};
use std::process::Abort;
use tsn_book::Event;
use tsn_branch::{Least, fits, look, look_from};
use tsn_conflict::outcome::Look;
use tsn_conflict::sharing::Conflicts;
use tsn_conflict::{Node, Side, Triple, conflicts};
use tsn_timing::{Solved, Timing};

/// Which of the first two streams goes first on a link, with a lag of 0.
pub fn first_two(link: usize) -> Triple {
    Triple {
        left: 0,
        right: 1,
        link,
        lag: 0,
    }
}

pub fn side_of(rt: &impl Abort, name: &str) -> Side {
    match name {
        "Left" => Side::Left,
        "Right" => Side::Right,
        _ => panic!(rt; "no side"),
    }
}

/// The node one decision below, on which of the first two streams goes first on a link.
fn below(rt: &impl Abort, node: &Node, link: usize, side: Side) -> Node {
    let triple = first_two(link);
    assert!(rt; node.path().iter().all(|decision| decision.triple != triple));
    node.child(triple, side).expect(rt, "memory")
}

/// The node one turn below, as `Left 4`.
fn turned(rt: &impl Abort, node: &Node, turn: &str) -> Node {
    let (side, link) = cut(rt, turn, " ");
    below(rt, node, place(rt, link), side_of(rt, side))
}

/// The node of a path, as `root` or `Left 4;Right 12`.
pub fn node_at<R: Abort + AllocGlobal>(rt: &R, path: &str) -> Node {
    let mut node = Node::root(rt.alloc());
    for turn in path.split(';') {
        if turn != "root" {
            node = turned(rt, &node, turn);
        }
    }
    node
}

/// A schedule of these offsets.
fn schedule<R: Abort + AllocGlobal>(rt: &R, timing: &Timing, offsets: Vec<u64>) -> Solved
    ensures { IsSolved timing.now result }
{
    match timing.valid(offsets) {
        Ok(valid) => Solved::of(timing, valid),
        Err(_) => panic!(rt; "the offsets are no schedule"),
    }
}

/// What a look at a node finds, with a best schedule or none.
fn look_at<R: Abort + AllocGlobal>(
    rt: &R,
    timing: &Timing,
    node: &Node,
    target: u64,
    best: Option<&Solved>,
) -> Look
    requires { IfSome (option_copied best) (IsSolved timing.now) }
    ensures { HasProof timing.now node.now (outcome_of result) }
{
    assert!(rt; timing.streams() <= 128);
    let shared = conflicts(rt.alloc(), timing).expect(rt, "memory");
    assert!(rt; fits(&shared, node));
    let found = look(rt.alloc(), timing, &shared, node, target, best).expect(rt, "memory");
    drop(shared);
    found
}

/// What a look at a node finds beside the schedule of these offsets.
fn look_beside<R: Abort + AllocGlobal>(
    rt: &R,
    timing: &Timing,
    node: &Node,
    target: u64,
    offsets: &str,
) -> Look
    ensures { HasProof timing.now node.now (outcome_of result) }
{
    let best = schedule(rt, timing, numbers(rt, offsets));
    let found = look_at(rt, timing, node, target, Some(&best));
    drop(best);
    found
}

/// What a look at a node finds, as below the target `2925`, or below `2925 beside 0 672`.
pub fn looked<R: Abort + AllocGlobal>(rt: &R, timing: &Timing, node: &Node, asked: &str) -> Look
    ensures { HasProof timing.now node.now (outcome_of result) }
{
    match asked.split_once(" beside ") {
        Some((target, offsets)) => look_beside(rt, timing, node, number(rt, target), offsets),
        None => look_at(rt, timing, node, number(rt, asked), None),
    }
}

/// What is found at a node: a split as `split 4`, or what a look finds.
fn found<R: Abort + AllocGlobal>(rt: &R, timing: &Timing, node: &Node, asked: &str) -> Look
    ensures { HasProof timing.now node.now (outcome_of result) }
{
    match asked.strip_prefix("split ") {
        Some(link) => Look::Split(first_two(place(rt, link))),
        None => looked(rt, timing, node, asked),
    }
}

/// A node with what is found there, as `Left 4: split 12` or `Left 4: 2925 beside 0 672`.
pub fn event_of<R: Abort + AllocGlobal>(rt: &R, timing: &Timing, asked: &str) -> Event
    ensures { HasProof timing.now result.node (outcome_of result.look) }
{
    let (path, asked) = cut(rt, asked, ": ");
    let node = node_at(rt, path);
    let look = found(rt, timing, &node, asked);
    Event { node, look }
}

/// What a look finds, and what the children of its node are looked at from.
type Found = (Look, Option<Least>);

fn find_at<R: Abort + AllocGlobal>(
    rt: &R,
    timing: &Timing,
    shared: &Conflicts,
    node: &Node,
    parent: Option<&Least>,
    target: u64,
) -> Found
    requires conflicts { AreConflictsOf timing.now shared.now }
    requires parent { IfSome (option_copied parent) (IsLeastAbove timing.now node.now) }
    ensures undecided { SplitsUndecided timing.now node.now (outcome_of result.0) }
    ensures least { ComesWithSplit timing.now node.now (outcome_of result.0) result.1 }
{
    assert!(rt; fits(shared, node));
    look_from(rt.alloc(), timing, shared, node, parent, target, None).expect(rt, "memory")
}

/// The node one decision below.
fn child(rt: &impl Abort, node: &Node, triple: Triple, side: Side) -> Node
    requires { IsUndecided node.now triple }
    ensures { take (length result - 1) result ≡ node.now }
{
    match node.child(triple, side) {
        Ok(child) => child,
        Err(_) => panic!(rt; "memory"),
    }
}

/// What is found on that side of a node that is split.
fn find_below<R: Abort + AllocGlobal>(
    rt: &R,
    timing: &Timing,
    shared: &Conflicts,
    above: &Node,
    found: &Found,
    side: Side,
    target: u64,
) -> Found
    requires conflicts { AreConflictsOf timing.now shared.now }
    requires undecided { SplitsUndecided timing.now above.now (outcome_of found.now.0) }
    requires least { ComesWithSplit timing.now above.now (outcome_of found.now.0) found.now.1 }
{
    match found {
        (Look::Split(triple), Some(least)) => {
            let node = child(rt, above, *triple, side);
            find_at(rt, timing, shared, &node, Some(least), target)
        }
        _ => panic!(rt; "no split"),
    }
}

/// What a look finds on a side of the root below the target, from the root's least offsets.
pub fn looked_from<R: Abort + AllocGlobal>(
    rt: &R,
    timing: &Timing,
    side: &str,
    target: u64,
) -> Look {
    assert!(rt; timing.streams() <= 128);
    let shared = conflicts(rt.alloc(), timing).expect(rt, "memory");
    let root = Node::root(rt.alloc());
    let above = find_at(rt, timing, &shared, &root, None, target);
    let (look, least) = find_below(
        rt,
        timing,
        &shared,
        &root,
        &above,
        side_of(rt, side),
        target,
    );
    drop(least);
    drop(above);
    drop(shared);
    look
}
