//! A way down to a node of the search, for looks that go on from what is known of the nodes above.
ghost use Rattle.std.specs.Prelude.{◌≡◌, ◌-◌, ◌≤◌, List, [], ◌∷◌, take, IfOk, IfNone, IfSome, OnOk, OnErr, length, Contains, MatchBool, MatchOption, option_copied};
ghost use Rattle.tsn_timing.specs.Solution.{IsSolved};
ghost use Rattle.tsn_model.specs.declared.Side.TheVariants.{Left};
ghost use Rattle.tsn_model.specs.declared.Triple.{Triple};
ghost use Rattle.tsn_model.specs.Network.{HasFewStreams, Network};
ghost use Rattle.tsn_model.specs.Places.{pending};
ghost use Rattle.tsn_model.specs.Arcs.{arcs_of};
ghost use Rattle.tsn_model.specs.Certificate.{decided};
ghost use Rattle.tsn_diff.specs.Answers.{Refutes};
ghost use Rattle.tsn_conflict.specs.Kept.{AreConflictsOf};
ghost use Rattle.tsn_conflict.specs.Outcome.{outcome_of};
ghost use Rattle.tsn_conflict.specs.Path.{Fits, IsUndecided};
ghost use Rattle.tsn_branch.specs.Look.{HasNoOffsets, IsLook, SplitsAmong, PrunesFrom, SolvesBelow, TiesWith};
ghost use Rattle.tsn_conflict.specs.Right.{HasProof, SplitsUndecided};
ghost use Rattle.tsn_branch.specs.Releases.{releases_of};
ghost use Rattle.tsn_branch.specs.Descent.{Stands, Splits, IsAfter, Leads, IsJudgement};

use crate::arcs::net_of;
use crate::chains::chain_along;
use crate::judge::{judge_least, judge_raised};
use crate::judgement::{Judgement, SplitPoint};
use crate::tables::{Aim, Tables};
use std::alloc::Global;
use std::marker::Model;
use tsn_cert::Leaf;
use tsn_conflict::Node;
use tsn_conflict::outcome::Look;
use tsn_conflict::sharing::Conflicts;
use tsn_diff::ArcStack;
use tsn_model::{Decision, NoMemory, Side, Triple};
use tsn_timing::Timing;

/// A node with what is known of the nodes above it: the arcs of their decisions with the least offsets, when the streams are
/// done by these, and where each was split.
#[derive(Drop)]
pub struct Descent {
    node: Node,
    stack: ArcStack,
    splits: Vec<SplitPoint>,
    found: Option<SplitPoint>,
}

impl Model for Descent {
    ghost use Rattle.tsn_branch.specs.Descent.{Position};

    ghost Value = { Position };

    ghost view = { λ d. record { path = d.node; stack = d.stack; splits = d.splits.items; found = d.found } };
}

impl Descent {
    /// At the root, of at most 128 streams. The error says that there was no memory.
    pub fn root(alloc: Global, timing: &Timing) -> Result<Descent, NoMemory>
        requires { HasFewStreams timing.now }
        ensures path { IfOk result (λ position. position.path ≡ []) }
        ensures stands { IfOk result (Stands timing.now) }
    {
        let stack = ArcStack::new(alloc, net_of(alloc, timing)?)?;
        Ok(Descent {
            node: Node::root(alloc),
            stack,
            splits: Vec::new(alloc),
            found: None,
        })
    }

    /// At a node. None where the decisions above its last one contradict one another. The error says that there was no memory.
    pub fn at(
        alloc: Global,
        timing: &Timing,
        conflicts: &Conflicts,
        node: Node,
    ) -> Result<Option<Descent>, NoMemory>
        requires conflicts { AreConflictsOf timing.now conflicts.now }
        requires fits { Fits conflicts.now.triples node }
        ensures none { IfOk result (λ found. IfNone found (HasNoOffsets timing.now (take (length node - 1) node))) }
        ensures path { IfOk result (λ found. MatchOption found (Unit {0}) (λ position. position.path ≡ node)) }
        ensures stands { IfOk result (λ found. MatchOption found (Unit {0}) (Stands timing.now)) }
    {
        match stack_above(alloc, timing, conflicts, node.path()) {
            Ok(Some(stack)) => Ok(Some(Descent {
                node,
                stack,
                splits: Vec::new(alloc),
                found: None,
            })),
            Ok(None) => {
                drop(node);
                Ok(None)
            }
            Err(error) => {
                drop(node);
                Err(error)
            }
        }
    }

    /// The node.
    pub fn node(&self) -> &Node
        ensures { result.now ≡ self.now.path }
    {
        &self.node
    }

    /// Looks at the node: what `look` says of it.
    pub fn look(
        &mut self,
        alloc: Global,
        tables: Tables<'_>,
        aim: Aim<'_>,
    ) -> Result<Look, NoMemory>
        requires best { IfSome (option_copied aim.best) (IsSolved tables.timing.now) }
        requires fits { Fits tables.conflicts.now.triples self.old.path }
        requires stands { Stands tables.timing.now self.old }
        ensures path { self.new.path ≡ self.old.path }
        ensures first_case { IfOk result (λ look. IsLook tables.entry.timing.now self.old.path aim.entry.target (option_copied aim.entry.best) (outcome_of look)) }
        ensures proof { IfOk result (λ look. HasProof tables.entry.timing.now self.old.path (outcome_of look)) }
        ensures undecided { IfOk result (λ look. SplitsUndecided tables.entry.timing.now self.old.path (outcome_of look)) }
        ensures among { IfOk result (λ look. SplitsAmong tables.entry.conflicts.now.triples (outcome_of look)) }
        ensures met { IfOk result (λ look. PrunesFrom aim.entry.target (outcome_of look)) }
        ensures below { IfOk result (λ look. SolvesBelow aim.entry.target (outcome_of look)) }
        ensures ties { IfOk result (λ look. TiesWith tables.entry.timing.now self.old.path (option_copied aim.entry.best) (outcome_of look)) }
        ensures after { IfOk result (λ look. IsAfter tables.entry.timing.now (outcome_of look) self.new) }
        ensures err { OnErr result (Stands tables.entry.timing.now self.new) }
    {
        if let Some(cycle) = self.lead(tables.timing, tables.conflicts)? {
            return Ok(Look::Refuted(Leaf::Cycle(chain_along(alloc, cycle)?)));
        }
        match self.find(alloc, tables, aim) {
            Ok(Judgement::Split(point)) => {
                self.found = Some(point);
                Ok(Look::Split(tables.conflicts.triples()[point.triple]))
            }
            Ok(Judgement::Closed(look)) => {
                self.draw_back();
                Ok(look)
            }
            Err(error) => {
                self.draw_back();
                Err(error)
            }
        }
    }

    /// Goes down to the left child of a node that is to be split on the triple. The error says that there was no memory; the
    /// descent is then as it was.
    pub fn down(&mut self, triple: Triple) -> Result<(), NoMemory>
        requires splits { (network : Network) × Splits network triple self.old }
        requires undecided { IsUndecided self.old.path triple }
        ensures path { OnOk result (self.new.path ≡ decided self.old.path triple Left) }
        ensures stands { OnOk result ((network : Network) → Splits network triple self.old → Stands network self.new) }
        ensures fits { OnOk result ((triples : List Triple) → Contains triples triple → Fits triples self.old.path → Fits triples self.new.path) }
        ensures err { OnErr result (self.new ≡ self.old) }
    {
        let Some(point) = self.found else {
            unreachable!();
        };
        if self.splits.reserve(1).is_err() {
            return Err(NoMemory);
        }
        self.node.push(triple, Side::Left)?;
        self.splits.push_reserved(point);
        Ok(())
    }

    /// Goes on to the right side of the last left turn of the path. False where it has none.
    pub fn next(&mut self) -> bool
        ensures stands { (network : Network) → Stands network self.old → Stands network self.new }
        ensures fits { (triples : List Triple) → Fits triples self.old.path → Fits triples self.new.path }
        ensures next { MatchBool result
            (pending self.old.path ≡ self.new.path ∷ pending self.new.path)
            (pending self.old.path ≡ []) }
    {
        self.next_under(0)
    }

    /// Goes on to the right side of the last left turn of the path that is at this depth or further down; the decisions before
    /// it stay. False where there is none; the way then ends at that depth, where it was longer.
    pub fn next_under(&mut self, floor: usize) -> bool
        ensures stands { (network : Network) → Stands network self.old → Stands network self.new }
        ensures fits { (triples : List Triple) → Fits triples self.old.path → Fits triples self.new.path }
        ensures kept { take floor self.new.path ≡ take floor self.old.path }
        ensures next { MatchBool result (pending self.old.path ≡ self.new.path ∷ pending self.new.path) (Unit {0}) }
        ensures none { MatchBool result (Unit {0}) ((pending self.old.path ≡ pending self.new.path) × (length self.new.path ≤ floor)) }
    {
        while let Some(side) = self.node.last_side() {
            if self.node.path().len() <= floor {
                return false;
            }
            match side {
                Side::Left => {
                    self.node.turn();
                    return true;
                }
                Side::Right => self.up(),
            }
        }
        false
    }

    // Goes up to the node above.
    fn up(&mut self)
        ensures path { self.new.path ≡ take (length self.old.path - 1) self.old.path }
        ensures stands { (network : Network) → Stands network self.old → Stands network self.new }
    {
        self.node.pop();
        self.splits.pop();
        let arcs = self.stack.arcs().len();
        if arcs > 0 {
            self.stack.pop();
        }
    }

    // Puts in the arc of the last decision, where there is one. An answer is a closed chain of positive sum; then, and on an
    // error, the arc isn't in.
    fn lead(
        &mut self,
        timing: &Timing,
        conflicts: &Conflicts,
    ) -> Result<Option<Vec<usize>>, NoMemory>
        requires conflicts { AreConflictsOf timing.now conflicts.now }
        requires fits { Fits conflicts.now.triples self.old.path }
        requires stands { Stands timing.now self.old }
        ensures path { self.new.path ≡ self.old.path }
        ensures led { IfOk result (λ found. MatchOption found (Leads timing.now self.new)
            (λ chain. Stands timing.now self.new × Refutes (length (releases_of timing.now)) (arcs_of timing.now self.old.path) chain.items)) }
        ensures err { OnErr result (Stands timing.now self.new) }
    {
        let Some(decision) = self.node.path().last() else {
            return Ok(None);
        };
        let arc = conflicts.arc(decision.triple, decision.side);
        self.stack.push(arc)
    }

    // Takes out the arc of the last decision, where there is one.
    fn draw_back(&mut self)
        requires { (network : Network) × Leads network self.old }
        ensures path { self.new.path ≡ self.old.path }
        ensures stands { (network : Network) → Leads network self.old → Stands network self.new }
    {
        let depth = self.node.path().len();
        if depth > 0 {
            self.stack.pop();
        }
    }

    // What is found at the node by its least offsets.
    fn find(&self, alloc: Global, tables: Tables<'_>, aim: Aim<'_>) -> Result<Judgement, NoMemory>
        requires best { IfSome (option_copied aim.best) (IsSolved tables.timing.now) }
        requires leads { Leads tables.timing.now self.now }
        ensures { IfOk result (IsJudgement tables.entry.timing.now self.now.path aim.entry.target (option_copied aim.entry.best)) }
    {
        match self.splits.last() {
            Some(parent) => judge_raised(alloc, tables, &self.stack, *parent, aim),
            None => judge_least(alloc, tables, self.stack.least(), aim),
        }
    }
}

// The arcs of all decisions of the path but the last. None where they contradict one another.
fn stack_above(
    alloc: Global,
    timing: &Timing,
    conflicts: &Conflicts,
    path: &[Decision],
) -> Result<Option<ArcStack>, NoMemory>
    requires conflicts { AreConflictsOf timing.now conflicts.now }
    requires fits { Fits conflicts.now.triples path.now }
    ensures none { IfOk result (λ found. IfNone found (HasNoOffsets timing.now (take (length path.now - 1) path.now))) }
    ensures releases { IfOk result (λ found. IfSome found (λ stack. stack.least.releases ≡ releases_of timing.now)) }
    ensures arcs { IfOk result (λ found. IfSome found (λ stack. stack.least.arcs ≡ arcs_of timing.now (take (length path.now - 1) path.now))) }
{
    let mut stack = ArcStack::new(alloc, net_of(alloc, timing)?)?;
    match put_above(&mut stack, timing, conflicts, path) {
        Ok(true) => Ok(Some(stack)),
        Ok(false) => {
            drop(stack);
            Ok(None)
        }
        Err(error) => {
            drop(stack);
            Err(error)
        }
    }
}

// Puts these arcs in. False where they contradict one another.
fn put_above(
    stack: &mut ArcStack,
    timing: &Timing,
    conflicts: &Conflicts,
    path: &[Decision],
) -> Result<bool, NoMemory>
    requires conflicts { AreConflictsOf timing.now conflicts.now }
    requires fits { Fits conflicts.now.triples path.now }
    requires releases { stack.old.least.releases ≡ releases_of timing.now }
    requires empty { stack.old.least.arcs ≡ [] }
    ensures releases { OnOk result (stack.new.least.releases ≡ releases_of timing.now) }
    ensures arcs { IfOk result (λ led. MatchBool led (stack.new.least.arcs ≡ arcs_of timing.now (take (length path.now - 1) path.now))
        (HasNoOffsets timing.now (take (length path.now - 1) path.now))) }
{
    // The network stands in the contract alone.
    let _ = timing;
    let above = path.len().saturating_sub(1);
    for depth in 0..above {
        let decision = path[depth];
        let arc = conflicts.arc(decision.triple, decision.side);
        if let Some(_closed) = stack.push(arc)? {
            return Ok(false);
        }
    }
    Ok(true)
}
