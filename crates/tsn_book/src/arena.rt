//! The tree of a search, in an arena. A place is known by its number, and the root has number 0.
ghost use Rattle.std.specs.Prelude.{◌≡◌, ◌<◌, ◌≤◌, ◌+◌, ◌^◌, ◌++◌, false, ◌∷◌, [], ◌↔◌, IsTrue, MatchBool, length, IfOk, MatchResult, OnOk, MatchOption, None, Some, All, Any, Contains, drop, vec_len, vec_capacity};
ghost use Rattle.tsn_model.specs.declared.Decision.{Decision};
ghost use Rattle.tsn_model.specs.Schedule.{IsConflict};
ghost use Rattle.tsn_timing.specs.Solution.{IsSolved};
ghost use Rattle.tsn_model.specs.Certificate.{AreChains};
ghost use Rattle.tsn_model.specs.Search.{split, made_paths, open_paths, best_bound, kept_of, IsNoBetter, IsRight, IsAllowed, IsFirstOpen};
ghost use Rattle.tsn_model.specs.Replies.{IsUnmet};
ghost use Rattle.tsn_model.specs.Walk.{path_made};
ghost use Rattle.tsn_conflict.specs.Outcome.{outcome_of};
ghost use Rattle.tsn_conflict.specs.Right.{HasProof, SplitsUndecided};
ghost use Rattle.tsn_book.specs.Event.{event_of};
ghost use Rattle.tsn_book.specs.Below.{IsAbove};
ghost use Rattle.tsn_book.specs.Book.{IsFault, IsMet, IsKept, is_better};
ghost use Rattle.tsn_book.specs.Log.{next_of};
ghost use Rattle.tsn_book.specs.Arena.{IsArena, IsPathEnd, settled_in, path_in, IsOpenPlace, IsLeafOutcome, HasRoom, AreClosed, IsAhead, IsNewLeaf, IsClosing, IsParent, IsParentClosed, flag_at};

use crate::event::Event;
use crate::fault::BookFault;
use crate::log::Log;
use crate::statuses::{Origin, Places, Status};
use crate::ties::{comes_before, shows_after};
use std::alloc::{AllocError, Global};
use tsn_conflict::outcome::Look;
use tsn_conflict::{Decision, NoMemory, Node, Side, Triple};
use tsn_diff::Forest;
use tsn_timing::{Solved, Timing, is_conflict};

/// Where a walk along a path ends: at an open place, at one that an event settled, or outside the tree.
#[derive(Clone, Copy)]
pub enum PathEnd {
    Open(usize),
    Settled(usize),
    Outside,
}

/// What is asked of an event beside its place: at most `limit` events, and no leaf pruned or tied that may be better than
/// what is kept.
#[derive(Clone, Copy)]
pub struct Bounds {
    pub limit: usize,
    /// The least flowspan solved, in nanoseconds.
    pub best: u64,
    /// The number of the event that solved it by the first offsets in their order.
    pub kept: Option<usize>,
}

/// The places and what was settled, oldest first.
#[derive(Drop)]
pub struct Tree {
    pub network: Timing,
    pub places: Places,
    pub events: Log,
}

impl Tree {
    /// The place at the end of a path.
    pub fn find(&self, path: &[Decision]) -> PathEnd
        requires { IsArena self.now }
        ensures { IsPathEnd self.now.places.origins self.now.places.statuses self.now.events.items path.now result }
    {
        let mut place = 0;
        for decision in path {
            let Some(child) = self.child(place, *decision) else {
                return PathEnd::Outside;
            };
            place = child;
        }
        self.stop_at(place)
    }

    /// The triple of a split that was settled, by its number.
    pub fn split_by(&self, number: usize) -> Option<Triple> {
        if number >= self.events.len() {
            return None;
        }
        match self.events.get(number).look {
            Look::Split(triple) => Some(triple),
            Look::Solved { .. } => None,
            Look::Pruned { .. } => None,
            Look::Tied { .. } => None,
            Look::Refuted(_) => None,
        }
    }

    fn stop_at(&self, place: usize) -> PathEnd
        requires tree { IsArena self.now }
        requires place { place < length self.now.places.origins }
        ensures { IsPathEnd self.now.places.origins self.now.places.statuses self.now.events.items (path_in self.now place) result }
    {
        let status = self.places.status(place);
        match status {
            Status::Open => PathEnd::Open(place),
            Status::Split { event, .. } => PathEnd::Settled(event),
            Status::Leaf(event) => PathEnd::Settled(event),
        }
    }

    // The place one decision below another.
    fn child(&self, place: usize, decision: Decision) -> Option<usize>
        requires tree { IsArena self.now }
        requires place { place < length self.now.places.origins }
        ensures { MatchOption result
            (Contains (made_paths (settled_in self.now)) (path_in self.now place ++ decision ∷ []) → ⊥)
            (λ child. (child < length self.now.places.origins) × (path_in self.now child ≡ path_in self.now place ++ decision ∷ [])) }
    {
        let status = self.places.status(place);
        match status {
            Status::Open => None,
            Status::Leaf(_) => None,
            Status::Split {
                triple,
                children,
                ..
            } => {
                if !same_triple(triple, decision.triple) {
                    return None;
                }
                match decision.side {
                    Side::Left => Some(children),
                    Side::Right => Some(children + 1),
                }
            }
        }
    }

    /// The place above another one, and the side by which that is below it; none for the root.
    pub fn above(&self, place: usize) -> Option<(usize, Side)>
        requires tree { IsArena self.now }
        requires place { place < length self.now.places.origins }
        ensures above { let history = settled_in self.now in
            MatchOption result (path_made history place ≡ []) (λ up. IsAbove history place up.0 up.1) }
        ensures few { place < 18446744073709551615 }
    {
        let origin = self.places.origin(place);
        // All places can be counted, so each has a next number.
        let _count = self.places.len();
        match origin {
            Origin::Root => None,
            Origin::Child(parent, decision) => Some((parent, decision.side)),
        }
    }

    /// The open node that is first in preorder; `closed` marks each place with nothing open at it or below it.
    pub fn first_open(&self, alloc: Global, closed: &[bool]) -> Result<Option<Node>, NoMemory>
        requires tree { IsArena self.now }
        requires closed { AreClosed self.now.places.statuses closed.now }
        ensures { let history = settled_in self.now in
            IfOk result (λ first. MatchOption first (open_paths history ≡ []) (IsFirstOpen history)) }
    {
        if closed[0] {
            return Ok(None);
        }
        let mut node = Node::root(alloc);
        let mut place = 0;
        while let Some((child, decision)) = self.first_child(closed, place) {
            node.push(decision.triple, decision.side)?;
            place = child;
        }
        Ok(Some(node))
    }

    // The first child of a place that isn't closed, or none where the place is open itself.
    fn first_child(&self, closed: &[bool], place: usize) -> Option<(usize, Decision)>
        requires tree { IsArena self.now }
        requires closed { AreClosed self.now.places.statuses closed.now }
        requires place { place < length self.now.places.origins }
        requires some { flag_at closed.now place ≡ false }
        ensures { let history = settled_in self.now in
            MatchOption result (IsOpenPlace self.now.places.statuses place)
            (λ next. (place < next.0) × (next.0 < length self.now.places.origins) × (path_in self.now next.0 ≡ path_in self.now place ++ next.1 ∷ [])
            × (flag_at closed.now next.0 ≡ false) × (IsAhead history (path_in self.now place) → IsAhead history (path_in self.now next.0))) }
    {
        let status = self.places.status(place);
        match status {
            Status::Open => None,
            Status::Leaf(_) => None,
            Status::Split {
                triple,
                children,
                ..
            } => {
                let (child, side) = if closed[children] {
                    (children + 1, Side::Right)
                } else {
                    (children, Side::Left)
                };
                Some((child, Decision { triple, side }))
            }
        }
    }

    /// Makes room for the places of one more split. A refusal changes nothing.
    pub fn reserve(&mut self, closed: &mut Vec<bool>) -> Result<(), AllocError>
        ensures network { self.new.network ≡ self.old.network }
        ensures origins { self.new.places.origins ≡ self.old.places.origins }
        ensures statuses { self.new.places.statuses ≡ self.old.places.statuses }
        ensures events { self.new.events ≡ self.old.events }
        ensures closed { closed.new.items ≡ closed.old.items }
        ensures small { length self.new.places.origins < 2 ^ 63 }
        ensures room { OnOk result (1 ≤ self.new.places.room) }
        ensures room_closed { OnOk result (vec_len closed.new + 2 ≤ vec_capacity closed.new) }
    {
        self.places.reserve()?;
        closed.try_reserve(2)
    }

    // Settles an open place as the split that waits first.
    fn split(&mut self, closed: &mut Vec<bool>, place: usize, teller: usize, triple: Triple)
        requires tree { IsArena self.old }
        requires closed { AreClosed self.old.places.statuses closed.old.items }
        requires room { HasRoom self.old }
        requires room_closed { vec_len closed.old + 2 ≤ vec_capacity closed.old }
        requires open { IsOpenPlace self.old.places.statuses place }
        requires next { next_of self.old.events ≡ Look.Split triple }
        requires right { IsRight self.old.network (settled_in self.old) (path_in self.old place) (split triple) }
        ensures tree { IsArena self.new }
        ensures network { self.new.network ≡ self.old.network }
        ensures history { settled_in self.new ≡ settled_in self.old
            ++ record { teller = teller; event = record { path = path_in self.old place; outcome = split triple } } ∷ [] }
        ensures closed { AreClosed self.new.places.statuses closed.new.items }
        ensures waiting { self.new.events.waiting ≡ drop 1 self.old.events.waiting }
    {
        self.places.split(place, triple, self.events.len());
        closed.push_reserved(false);
        closed.push_reserved(false);
        self.events.settle_next(teller, place);
    }

    // Settles an open place as the leaf that waits first.
    fn close(&mut self, closed: &mut Vec<bool>, place: usize, teller: usize)
        requires tree { IsArena self.old }
        requires closed { AreClosed self.old.places.statuses closed.old.items }
        requires room { HasRoom self.old }
        requires open { IsOpenPlace self.old.places.statuses place }
        requires right { IsRight self.old.network (settled_in self.old) (path_in self.old place) (outcome_of (next_of self.old.events)) }
        requires leaf { IsLeafOutcome (outcome_of (next_of self.old.events)) }
        ensures tree { IsArena self.new }
        ensures network { self.new.network ≡ self.old.network }
        ensures history { settled_in self.new ≡ settled_in self.old
            ++ record { teller = teller; event = record { path = path_in self.old place; outcome = outcome_of (next_of self.old.events) } } ∷ [] }
        ensures closed { AreClosed self.new.places.statuses closed.new.items }
        ensures waiting { self.new.events.waiting ≡ drop 1 self.old.events.waiting }
    {
        self.places.close(place, self.events.len());
        self.events.settle_next(teller, place);
        self.mark(closed, place);
    }

    // Marks a new leaf as closed, and each place above it whose children are both closed now.
    fn mark(&self, closed: &mut [bool], leaf: usize)
        requires tree { IsArena self.now }
        requires leaf { IsNewLeaf self.now.places.statuses closed.old leaf }
        ensures { AreClosed self.now.places.statuses closed.new }
    {
        let mut place = leaf;
        closed[place] = true;
        while let Some(parent) = self.next_closed(closed, place) {
            closed[parent] = true;
            place = parent;
        }
    }

    // The parent of a place, where both its children are closed.
    fn next_closed(&self, closed: &[bool], place: usize) -> Option<usize>
        requires tree { IsArena self.now }
        requires closing { IsClosing self.now.places.statuses closed.now place }
        ensures { MatchOption result (AreClosed self.now.places.statuses closed.now)
            (λ parent. (parent < place) × IsParentClosed self.now.places.statuses closed.now parent place) }
    {
        let Some((parent, children)) = self.parent(place) else {
            return None;
        };
        if closed[children] && closed[children + 1] {
            Some(parent)
        } else {
            None
        }
    }

    // The place that was split into this one and another, and the first of the two; none for the root.
    fn parent(&self, place: usize) -> Option<(usize, usize)>
        requires tree { IsArena self.now }
        requires place { place < length self.now.places.statuses }
        ensures { MatchOption result (path_in self.now place ≡ []) (λ parent. IsParent self.now.places.statuses parent.0 parent.1 place) }
    {
        let origin = self.places.origin(place);
        let Origin::Child(parent, _) = origin else {
            return None;
        };
        let status = self.places.status(parent);
        let Status::Split { children, .. } = status else {
            unreachable!();
        };
        Some((parent, children))
    }

    /// Settles an open place as the look that waits first found it.
    pub fn settle(&mut self, closed: &mut Vec<bool>, place: usize, teller: usize)
        requires tree { IsArena self.old }
        requires closed { AreClosed self.old.places.statuses closed.old.items }
        requires room { HasRoom self.old }
        requires room_closed { vec_len closed.old + 2 ≤ vec_capacity closed.old }
        requires open { IsOpenPlace self.old.places.statuses place }
        requires right { IsRight self.old.network (settled_in self.old) (path_in self.old place) (outcome_of (next_of self.old.events)) }
        ensures tree { IsArena self.new }
        ensures network { self.new.network ≡ self.old.network }
        ensures history { settled_in self.new ≡ settled_in self.old
            ++ record { teller = teller; event = record { path = path_in self.old place; outcome = outcome_of (next_of self.old.events) } } ∷ [] }
        ensures closed { AreClosed self.new.places.statuses closed.new.items }
        ensures waiting { self.new.events.waiting ≡ drop 1 self.old.events.waiting }
    {
        match split_of(self.events.next()) {
            Some(triple) => self.split(closed, place, teller, triple),
            None => self.close(closed, place, teller),
        }
    }

    /// The open place of an event that may be settled within the bounds; else the first reason why it may not.
    pub fn place_for(&self, bounds: Bounds, event: &Event) -> Result<usize, BookFault>
        requires tree { IsArena self.now }
        requires limit { length self.now.events.items ≤ bounds.limit }
        requires best { bounds.best ≡ best_bound self.now.network (settled_in self.now) }
        requires kept { IsKept self.now.network (settled_in self.now) bounds.kept }
        requires proof { HasProof self.now.network event.now.node (outcome_of event.now.look) }
        ensures { let history = settled_in self.now in MatchResult result
            (λ place. IsOpenPlace self.now.places.statuses place × (path_in self.now place ≡ event.now.node)
            × (length history < bounds.limit) × IsAllowed self.now.network history (event_of event.now))
            (λ fault. IsFault self.now.network bounds.limit history (event_of event.now) fault) }
    {
        let path = event.node.path();
        let stop = self.find(path);
        let place = self.admit(bounds, stop, path, &event.look)?;
        if let Look::Split(triple) = &event.look {
            if !is_conflict(&self.network, *triple) {
                return Err(BookFault::NotConflict);
            }
            if decides(path, *triple) {
                return Err(BookFault::AlreadyDecided);
            }
        }
        Ok(place)
    }

    /// Whether what was found at a place may be settled within the bounds; else the first reason why it may not. The triple of
    /// a split isn't tested: it's a conflict that the path doesn't decide.
    pub fn admit_at(
        &self,
        bounds: Bounds,
        place: usize,
        path: &[Decision],
        look: &Look,
    ) -> Result<(), BookFault>
        requires tree { IsArena self.now }
        requires place { place < length self.now.places.origins }
        requires path { path.now ≡ path_in self.now place }
        requires best { bounds.best ≡ best_bound self.now.network (settled_in self.now) }
        requires kept { IsKept self.now.network (settled_in self.now) bounds.kept }
        requires proof { HasProof self.now.network (path_in self.now place) (outcome_of look.now) }
        requires undecided { SplitsUndecided self.now.network (path_in self.now place) (outcome_of look.now) }
        ensures { let history = settled_in self.now in MatchResult result
            (λ done. (length history < bounds.limit) × IsAllowed self.now.network history (record { path = path_in self.now place; outcome = outcome_of look.now }))
            (λ fault. IsFault self.now.network bounds.limit history (record { path = path_in self.now place; outcome = outcome_of look.now }) fault) }
    {
        self.admit(bounds, self.stop_at(place), path, look)?;
        Ok(())
    }

    // The open place where a walk along the path ended, for what is within the limit and no better than what is kept; else the
    // first reason.
    fn admit(
        &self,
        bounds: Bounds,
        stop: PathEnd,
        path: &[Decision],
        look: &Look,
    ) -> Result<usize, BookFault>
        requires tree { IsArena self.now }
        requires best { bounds.best ≡ best_bound self.now.network (settled_in self.now) }
        requires kept { IsKept self.now.network (settled_in self.now) bounds.kept }
        requires proof { HasProof self.now.network path.now (outcome_of look.now) }
        requires stop { IsPathEnd self.now.places.origins self.now.places.statuses self.now.events.items path.now stop }
        ensures { let history = settled_in self.now in MatchResult result
            (λ place. (stop ≡ PathEnd.Open place) × (length history < bounds.limit) × IsMet self.now.network history path.now (outcome_of look.now))
            (λ fault. IsFault self.now.network bounds.limit history (record { path = path.now; outcome = outcome_of look.now }) fault) }
    {
        let place = match stop {
            PathEnd::Open(place) => place,
            PathEnd::Settled(number) => return Err(BookFault::NotOpen(Some(number))),
            PathEnd::Outside => return Err(BookFault::NotOpen(None)),
        };
        if self.events.len() >= bounds.limit {
            return Err(BookFault::Limit(self.events.len()));
        }
        if self.is_met(bounds, path, look) {
            Ok(place)
        } else {
            Err(BookFault::NotMet(bounds.best))
        }
    }

    // Whether a pruned or tied leaf is shown to be no better than what is kept.
    fn is_met(&self, bounds: Bounds, path: &[Decision], look: &Look) -> bool
        requires tree { IsArena self.now }
        requires best { bounds.best ≡ best_bound self.now.network (settled_in self.now) }
        requires kept { IsKept self.now.network (settled_in self.now) bounds.kept }
        requires decided { All (λ decision. IsConflict self.now.network decision.triple) path.now }
        requires proof { HasProof self.now.network path.now (outcome_of look.now) }
        ensures { let history = settled_in self.now in MatchBool result
            (IsMet self.now.network history path.now (outcome_of look.now)) (IsUnmet self.now.network history path.now (outcome_of look.now)) }
    {
        match look {
            Look::Split(_) => true,
            Look::Solved { .. } => true,
            Look::Pruned { bound, .. } => *bound > bounds.best.min(self.network.cycle()),
            Look::Tied { bound, chains, .. } => self.is_no_better(bounds, path, *bound, chains),
            Look::Refuted(_) => true,
        }
    }

    // Whether the bound is above that of what is kept, or equal to it while the chains show that no schedule on the path comes
    // before it.
    fn is_no_better(&self, bounds: Bounds, path: &[Decision], bound: u64, chains: &Forest) -> bool
        requires tree { IsArena self.now }
        requires best { bounds.best ≡ best_bound self.now.network (settled_in self.now) }
        requires kept { IsKept self.now.network (settled_in self.now) bounds.kept }
        requires decided { All (λ decision. IsConflict self.now.network decision.triple) path.now }
        requires chains { AreChains self.now.network path.now chains.now }
        ensures { let history = settled_in self.now in MatchBool result
            (IsNoBetter self.now.network history path.now bound chains.now) (IsNoBetter self.now.network history path.now bound chains.now → ⊥) }
    {
        let Some(best_solved) = self.kept(bounds.kept) else {
            return false;
        };
        if bound != bounds.best {
            return bounds.best < bound;
        }
        shows_after(&self.network, path, chains, best_solved.valid().offsets())
    }

    /// The schedule of the event that is kept.
    pub fn kept(&self, kept: Option<usize>) -> Option<&Solved>
        requires tree { IsArena self.now }
        requires kept { IsKept self.now.network (settled_in self.now) kept }
        ensures { MatchOption result (kept_of self.now.network (settled_in self.now) ≡ None)
            (λ solved. (kept_of self.now.network (settled_in self.now) ≡ Some solved.now.offsets) × IsSolved self.now.network solved.now
            × (solved.now.flowspan ≡ best_bound self.now.network (settled_in self.now))) }
    {
        let number = kept?;
        match &self.events.get(number).look {
            Look::Solved { solved, .. } => Some(solved),
            Look::Split(_) => None,
            Look::Pruned { .. } => None,
            Look::Tied { .. } => None,
            Look::Refuted(_) => None,
        }
    }

    /// Whether what was found solves a lesser flowspan than what is kept, or the same one by offsets that come before.
    pub fn is_better(&self, bounds: Bounds, look: &Look) -> bool
        requires tree { IsArena self.now }
        requires kept { IsKept self.now.network (settled_in self.now) bounds.kept }
        ensures { result ≡ is_better (kept_of self.now.network (settled_in self.now)) bounds.best (outcome_of look.now) }
    {
        let Look::Solved { solved, .. } = look else {
            return false;
        };
        if solved.flowspan() != bounds.best {
            return solved.flowspan() < bounds.best;
        }
        let Some(best_solved) = self.kept(bounds.kept) else {
            return false;
        };
        comes_before(solved.valid().offsets(), best_solved.valid().offsets())
    }

    /// A tree of a network whose root is open. The error says that there was no memory.
    pub fn new(alloc: Global, network: &Timing) -> Result<Tree, NoMemory>
        ensures tree { IfOk result (λ tree. IsArena tree) }
        ensures network { IfOk result (λ tree. tree.network ≡ network.now) }
        ensures history { IfOk result (λ tree. settled_in tree ≡ []) }
        ensures events { IfOk result (λ tree. tree.events.items ≡ []) }
        ensures waiting { IfOk result (λ tree. tree.events.waiting ≡ []) }
        ensures statuses { IfOk result (λ tree. tree.places.statuses ≡ Status.Open ∷ []) }
    {
        let places = Places::new(alloc)?;
        let network = network.copy(alloc)?;
        Ok(Tree {
            network,
            places,
            events: Log::new(alloc),
        })
    }
}

/// The triple of a split.
pub fn split_of(look: &Look) -> Option<Triple>
    ensures { MatchOption result (IsLeafOutcome (outcome_of look.now)) (λ triple. look.now ≡ Look.Split triple) }
{
    match look {
        Look::Split(triple) => Some(*triple),
        Look::Solved { .. } => None,
        Look::Pruned { .. } => None,
        Look::Tied { .. } => None,
        Look::Refuted(_) => None,
    }
}

fn decides(path: &[Decision], triple: Triple) -> bool
    ensures { IsTrue result ↔ Any (λ decision. decision.triple ≡ triple) path.now }
{
    for decision in path {
        if same_triple(decision.triple, triple) {
            return true;
        }
    }
    false
}

fn same_triple(a: Triple, b: Triple) -> bool
    ensures { IsTrue result ↔ (a ≡ b) }
{
    a == b
}
