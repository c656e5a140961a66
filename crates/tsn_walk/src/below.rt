//! What is open below a node, walked depth first and looked at by batches.
ghost use Rattle.std.specs.Prelude.{◌≡◌, ◌≤◌, true, false, None, map, IfOk, IfSome, OnOk, IsTrue, ◌↔◌, MatchBool, MatchOption, option_copied};
ghost use Rattle.tsn_model.specs.Network.{HasFewStreams};
ghost use Rattle.tsn_timing.specs.Solution.{IsSolved};
ghost use Rattle.tsn_conflict.specs.Kept.{AreConflictsOf};
ghost use Rattle.tsn_conflict.specs.Outcome.{outcome_of};
ghost use Rattle.tsn_model.specs.Certificate.{beyond};
ghost use Rattle.tsn_model.specs.Search.{split};
ghost use Rattle.tsn_branch.specs.Look.{PrunesFrom};
ghost use Rattle.tsn_conflict.specs.Path.{IsUndecided};
ghost use Rattle.tsn_branch.specs.Descent.{Closes};
ghost use Rattle.tsn_book.specs.Below.{next_path, path_after};
ghost use Rattle.tsn_conflict.specs.Outcome.{IsUnsolved};
ghost use Rattle.tsn_walk.specs.Below.{StandsAt, IsBelow, IsBatch, IsProved, HoldsSchedule, IsScheduleOf};

use crate::bag::Bag;
use crate::best::SeenBest;
use std::alloc::Global;
use std::mem;
use tsn_book::{Book, Looks};
use tsn_branch::{Aim, Descent, Tables, fits};
use tsn_conflict::outcome::Look;
use tsn_conflict::sharing::Conflicts;
use tsn_conflict::{Decision, NoMemory, Node, Side, Triple};
use tsn_timing::{Solved, Timing};

/// How many nodes are settled at a time, at most.
pub const BATCH: usize = 64;

/// What is left open below a node: all that a walk from where it stands comes to, but for the right sides of turns above the
/// floor, which are others'.
#[derive(Drop)]
pub struct Below {
    pub(crate) descent: Descent,
    /// Where the walk stands; while nodes are looked at, where it stood when these were begun.
    pub from: Node,
    pub(crate) floor: usize,
    /// Whether the node where it stands is to be looked at without the best schedule.
    pub untied: bool,
}

/// Nodes that are settled together.
#[derive(Drop)]
pub struct Batch {
    /// What was found at them, in preorder. At most the last is solved.
    pub looks: Looks,
    /// The schedule of the last one, where that is solved.
    pub solved: Option<Solved>,
    /// Whether the walk goes on.
    pub more: bool,
}

/// What was found at one node.
#[derive(Drop)]
pub struct NodeResult {
    pub(crate) look: Look,
    pub(crate) solved: Option<Solved>,
    pub(crate) more: bool,
}

impl NodeResult {
    // Whether a batch ends with it.
    fn is_last(&self) -> bool
        ensures { result ≡ false → (self.now.solved ≡ None) × (self.now.more ≡ true) }
    {
        self.solved.is_some() || !self.more
    }
}

impl Below {
    /// All that is open below the root, of at most 128 streams.
    pub fn root(alloc: Global, timing: &Timing) -> Result<Below, NoMemory>
        requires { HasFewStreams timing.now }
        ensures { IfOk result (λ below. (triples : _) → IsBelow timing.now triples below) }
    {
        Ok(Below {
            descent: Descent::root(alloc, timing)?,
            from: Node::root(alloc),
            floor: 0,
            untied: false,
        })
    }

    /// All that is open below a node. None where the node decides what is no conflict, or decisions that contradict one another.
    /// For want of memory the node comes back.
    pub fn at(
        alloc: Global,
        timing: &Timing,
        conflicts: &Conflicts,
        node: Node,
    ) -> Result<Option<Below>, Node>
        requires conflicts { AreConflictsOf timing.now conflicts.now }
        ensures { IfOk result (λ found. IfSome found (IsBelow timing.now conflicts.now.triples)) }
    {
        match descent_at(alloc, timing, conflicts, &node) {
            Ok(Some(descent)) => {
                let floor = node.path().len();
                Ok(Some(Below {
                    descent,
                    from: node,
                    floor,
                    untied: false,
                }))
            }
            Ok(None) => Ok(None),
            Err(_) => Err(node),
        }
    }

    /// Begins again at the node where the walk stands, which is then looked at without the best schedule. False where that can't
    /// be for want of memory.
    pub fn begin_again(&mut self, alloc: Global, timing: &Timing, conflicts: &Conflicts) -> bool
        requires conflicts { AreConflictsOf timing.now conflicts.now }
        ensures { result ≡ true → IsBelow timing.now conflicts.now.triples self.new }
    {
        let Ok(Some(descent)) = descent_at(alloc, timing, conflicts, &self.from) else {
            return false;
        };
        self.descent = descent;
        self.untied = true;
        true
    }

    /// Goes to the side of the last decision, which is to the left, that a schedule keeps to, and gives the other one to the bag.
    pub fn choose_side<B: Bag>(
        &mut self,
        alloc: Global,
        tables: Tables<'_>,
        known: &[u64],
        bag: &mut B,
    ) -> Result<(), NoMemory>
        requires below { IsBelow tables.timing.now tables.conflicts.now.triples self.old }
        ensures { OnOk result (IsBelow tables.entry.timing.now tables.entry.conflicts.now.triples self.new) }
    {
        let depth = self.from.path().len().saturating_sub(1);
        let Some(right) = self.from.other_side(depth)? else {
            return Ok(());
        };
        if keeps_left(tables.conflicts, known, self.from.path().last()) {
            let _ = bag.push(right);
            return Ok(());
        }
        match Below::at(alloc, tables.timing, tables.conflicts, right) {
            Ok(Some(below)) => {
                let _ = bag.push(self.cross(below));
                Ok(())
            }
            Ok(None) => Ok(()),
            Err(node) => {
                drop(node);
                Err(NoMemory)
            }
        }
    }

    // Goes on as another walk. The node where it stood comes back.
    fn cross(&mut self, other: Below) -> Node
        ensures { self.new ≡ other }
    {
        let Below {
            descent,
            from,
            floor: _,
            untied: _,
        } = mem::replace(self, other);
        drop(descent);
        from
    }

    /// Whether so many nodes or more are open.
    pub fn has_open(&self, enough: usize) -> bool {
        let path = self.from.path();
        let lefts = path[self.floor.min(path.len())..]
            .iter()
            .filter(|decision| decision.side == Side::Left)
            .count();
        enough <= lefts.saturating_add(1)
    }

    /// Gives the right side of the first left turn, at the floor or below, to the bag, and is then rid of it.
    pub fn share<B: Bag>(&mut self, bag: &mut B)
        ensures { (self.new.descent ≡ self.old.descent) × (self.new.from ≡ self.old.from) }
    {
        for depth in self.floor..self.from.path().len() {
            match self.from.other_side(depth) {
                Ok(Some(node)) => {
                    if bag.push(node).is_ok() {
                        self.floor = depth + 1;
                    }
                    return;
                }
                Ok(None) => self.floor = depth + 1,
                Err(_) => return,
            }
        }
    }

    /// Gives all that is open to the bag, what is first in preorder last.
    pub fn leave<B: Bag>(self, bag: &mut B) {
        let Below {
            descent,
            from,
            floor,
            untied: _,
        } = self;
        drop(descent);
        for depth in floor..from.path().len() {
            if let Ok(Some(node)) = from.other_side(depth) {
                let _ = bag.push(node);
            }
        }
        let _ = bag.push(from);
    }

    /// Looks at up to so many nodes in preorder, up to a solved one. The target is beyond what was seen. The error says that there
    /// was no memory.
    pub fn collect(
        &mut self,
        alloc: Global,
        tables: Tables<'_>,
        incumbent: SeenBest<'_>,
        most: usize,
    ) -> Result<Batch, NoMemory>
        requires best { IfSome (option_copied incumbent.best) (IsSolved tables.timing.now) }
        requires below { IsBelow tables.timing.now tables.conflicts.now.triples self.old }
        requires most { (1 ≤ most) × (most ≤ BATCH) }
        ensures from { self.new.from ≡ self.old.from }
        ensures batch { IfOk result (IsBatch tables.entry.timing.now incumbent.entry.seen self.old.from) }
        ensures goes_on { IfOk result (λ batch. MatchBool batch.more
            (StandsAt tables.entry.timing.now tables.entry.conflicts.now.triples (path_after self.old.from (map outcome_of batch.looks)) self.new.descent) (Unit {0})) }
    {
        let target = beyond(tables.timing, incumbent.seen);
        let aim = Aim {
            target,
            best: incumbent.best,
        };
        let mut looks = Looks::with_capacity(alloc, most)?;
        for _ in 0..most {
            let found = look_on(alloc, tables, &mut self.descent, self.floor, aim)?;
            let last = found.is_last();
            looks.push(found.look)?;
            if last {
                return Ok(Batch {
                    looks,
                    solved: found.solved,
                    more: found.more,
                });
            }
        }
        Ok(Batch {
            looks,
            solved: None,
            more: true,
        })
    }
}

// Whether a schedule keeps to a decision to the left.
fn keeps_left(conflicts: &Conflicts, known: &[u64], last: Option<&Decision>) -> bool {
    match last {
        Some(decision) => goes_left(conflicts, known, decision.triple),
        None => true,
    }
}

// Whether a schedule keeps to the left side of a triple.
fn goes_left(conflicts: &Conflicts, known: &[u64], triple: Triple) -> bool {
    if !conflicts.has(triple) {
        return true;
    }
    let raise = conflicts.arc(triple, Side::Left).weight;
    match (known.get(triple.left), known.get(triple.right)) {
        (Some(left), Some(right)) => left.saturating_add_signed(raise) <= *right,
        _ => true,
    }
}

/// The node below all splits in a book by which a schedule goes, each by the side that it keeps to.
pub fn node_along(
    alloc: Global,
    conflicts: &Conflicts,
    book: &Book,
    known: &[u64],
) -> Result<Node, NoMemory> {
    let mut node = Node::root(alloc);
    for _ in 0..u64::MAX {
        let Some(triple) = book.split_at(node.path()) else {
            break;
        };
        if !is_undecided(node.path(), triple) {
            break;
        }
        let side = if goes_left(conflicts, known, triple) {
            Side::Left
        } else {
            Side::Right
        };
        node.push(triple, side)?;
    }
    Ok(node)
}

// Whether a path decides something else than the triple.
fn is_undecided(path: &[Decision], triple: Triple) -> bool
    ensures { IsTrue result ↔ IsUndecided path.now triple }
{
    path.iter().all(|decision| decision.triple != triple)
}

// A way down to a node. None where the node decides what is no conflict, or decisions that contradict one another.
fn descent_at(
    alloc: Global,
    timing: &Timing,
    conflicts: &Conflicts,
    node: &Node,
) -> Result<Option<Descent>, NoMemory>
    requires conflicts { AreConflictsOf timing.now conflicts.now }
    ensures { IfOk result (λ found. IfSome found (StandsAt timing.now conflicts.now.triples node.now)) }
{
    if fits(conflicts, node) {
        Descent::at(alloc, timing, conflicts, node.copy()?)
    } else {
        Ok(None)
    }
}

fn look_on(
    alloc: Global,
    tables: Tables<'_>,
    descent: &mut Descent,
    floor: usize,
    aim: Aim<'_>,
) -> Result<NodeResult, NoMemory>
    requires best { IfSome (option_copied aim.best) (IsSolved tables.timing.now) }
    requires stands { StandsAt tables.timing.now tables.conflicts.now.triples descent.old.path descent.old }
    ensures proof { IfOk result (λ found. IsProved tables.entry.timing.now descent.old.path (outcome_of found.look)) }
    ensures prunes { IfOk result (λ found. PrunesFrom aim.entry.target (outcome_of found.look)) }
    ensures solved { IfOk result (λ found. HoldsSchedule tables.entry.timing.now aim.entry.target (outcome_of found.look) found.solved) }
    ensures next { IfOk result (λ found. MatchBool found.more
        (StandsAt tables.entry.timing.now tables.entry.conflicts.now.triples (next_path descent.old.path (outcome_of found.look)) descent.new) (Unit {0})) }
{
    let look = descent.look(alloc, tables, aim)?;
    let solved = match schedule_of(&look) {
        Ok(solved) => solved,
        Err(fault) => {
            drop(look);
            return Err(fault);
        }
    };
    match split_of(&look) {
        Some(triple) => match descent.down(triple) {
            Ok(()) => Ok(NodeResult {
                look,
                solved,
                more: true,
            }),
            Err(fault) => {
                drop(look);
                drop(solved);
                Err(fault)
            }
        },
        None => {
            let more = descent.next_under(floor);
            Ok(NodeResult { look, solved, more })
        }
    }
}

// A copy of the schedule of a solved node.
fn schedule_of(look: &Look) -> Result<Option<Solved>, NoMemory>
    ensures { IfOk result (λ schedule. MatchOption schedule (IsUnsolved (outcome_of look.now)) (IsScheduleOf (outcome_of look.now))) }
{
    match look {
        Look::Solved { solved, .. } => Ok(Some(solved.copy()?)),
        Look::Split(_) => Ok(None),
        Look::Pruned { .. } => Ok(None),
        Look::Tied { .. } => Ok(None),
        Look::Refuted(_) => Ok(None),
    }
}

/// The triple of a split.
pub fn split_of(look: &Look) -> Option<Triple>
    ensures { MatchOption result (Closes (outcome_of look.now)) (λ triple. outcome_of look.now ≡ split triple) }
{
    match look {
        Look::Split(triple) => Some(*triple),
        Look::Solved { .. } => None,
        Look::Pruned { .. } => None,
        Look::Tied { .. } => None,
        Look::Refuted(_) => None,
    }
}

/// The least bound, in nanoseconds, by which a node may be pruned where this is the least flowspan solved.
pub fn beyond(timing: &Timing, best: u64) -> u64
    ensures { result ≡ beyond timing.now best }
{
    best.min(timing.cycle()) + 1
}
