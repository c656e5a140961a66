//! What a book is made of, and how it settles what waits in its log.
ghost use Rattle.std.specs.Prelude.{◌≡◌, ◌<◌, ◌≤◌, ◌+◌, ◌^◌, [], length, map, take, drop, fold, min, All, IfOk, IfErr, OnOk, OnErr, MatchResult, slice_index_or, vec_len, vec_capacity};
ghost use Rattle.tsn_cert.specs.declared.cert.Format.{Format};
ghost use Rattle.tsn_model.specs.declared.Side.TheVariants.{Left};
ghost use Rattle.tsn_model.specs.Certificate.{decided};
ghost use Rattle.tsn_model.specs.Search.{made_paths, open_paths, best_bound, kept_of, solved_bound, split, tally_as, IsAllowed};
ghost use Rattle.tsn_model.specs.Walk.{path_made, IsPlaceOf};
ghost use Rattle.tsn_conflict.specs.declared.outcome.Look.{Look};
ghost use Rattle.tsn_conflict.specs.Outcome.{outcome_of};
ghost use Rattle.tsn_conflict.specs.Right.{HasProof, SplitsUndecided};
ghost use Rattle.tsn_book.specs.Arena.{HasRoom, settled_in};
ghost use Rattle.tsn_book.specs.Book.{IsFault, IsPlanOf, SpellsAccepted, AreNodesOf, child_count, is_better, kept_after, tally_after};
ghost use Rattle.tsn_book.specs.Below.{events_below, path_after, next_path, after_leaf, IsFaultAt};
ghost use Rattle.tsn_book.specs.Log.{next_of};
ghost use Rattle.tsn_book.specs.Spelling.{IsOrder};
ghost use Rattle.tsn_book.specs.Ledger.{IsLedger, progress_of, next_outcome, with_one, with_all};

use crate::arena::{Bounds, Tree, split_of};
use crate::fault::BookFault;
use crate::refusal::WalkRefusal;
use crate::spelling::{Spelling, order_of};
use tsn_conflict::outcome::Look;
use tsn_conflict::{Decision, NoMemory, Node, Side, Triple};
use tsn_model::Tally;
use tsn_timing::Solved;

/// The tree of a search, and what is known of it all.
#[derive(Drop)]
pub struct Ledger {
    pub tree: Tree,
    // Of each place of the tree, whether nothing is open at it and below it.
    pub closed: Vec<bool>,
    pub open_nodes: usize,
    pub bounds: Bounds,
    pub tallies: Vec<Tally>,
}

// What is kept of the history beside the places, with one teller's tally.
#[derive(Clone, Copy)]
struct Summary {
    open_nodes: usize,
    best: u64,
    kept: Option<usize>,
    tally: Tally,
}

impl Ledger {
    /// Settles at a place what waits first, which may be settled there, and for which there is room.
    pub fn record(&mut self, teller: usize, place: usize)
        requires agrees { IsLedger self.old }
        requires room { HasRoom self.old.tree }
        requires room_closed { vec_len self.old.closed + 2 ≤ vec_capacity self.old.closed }
        requires small { length self.old.tree.places.origins < 2 ^ 63 }
        requires teller { teller < length self.old.tallies.items }
        requires limit { length (settled_in self.old.tree) < self.old.bounds.limit }
        requires place { place < length (made_paths (settled_in self.old.tree)) }
        requires allowed { IsAllowed self.old.tree.network (settled_in self.old.tree)
            (record { path = path_made (settled_in self.old.tree) place; outcome = next_outcome self.old }) }
        ensures agrees { IsLedger self.new }
        ensures ok { progress_of self.new ≡ with_one self.old teller (path_made (settled_in self.old.tree) place) (next_outcome self.old) }
        ensures waiting { self.new.tree.events.waiting ≡ drop 1 self.old.tree.events.waiting }
    {
        let after = self.after_next(teller);
        self.open_nodes = after.open_nodes;
        self.bounds.best = after.best;
        self.bounds.kept = after.kept;
        self.tallies[teller] = after.tally;
        self.tree.settle(&mut self.closed, place, teller);
    }

    // What is known once what waits first is settled.
    fn after_next(&self, teller: usize) -> Summary
        requires agrees { IsLedger self.now }
        requires some { 1 ≤ length self.now.tree.events.waiting }
        requires open { 1 ≤ self.now.open_nodes }
        requires small { length self.now.tree.places.origins < 2 ^ 63 }
        requires teller { teller < length self.now.tallies.items }
        ensures open_nodes { result.open_nodes + 1 ≡ self.now.open_nodes + child_count (next_outcome self.now) }
        ensures best { result.best ≡ fold min self.now.bounds.best (solved_bound (next_outcome self.now)) }
        ensures kept { result.kept ≡ kept_after (is_better (kept_of self.now.tree.network (settled_in self.now.tree)) self.now.bounds.best (next_outcome self.now))
            self.now.bounds.kept (length self.now.tree.events.items) }
        ensures tally { result.tally ≡ tally_after (slice_index_or self.now.tallies.items teller (tally_as 0 0 0)) (next_outcome self.now) }
    {
        let look = self.tree.events.next();
        let better = self.tree.is_better(self.bounds, look);
        Summary {
            open_nodes: open_after(self.open_nodes, look),
            best: best_after(self.bounds.best, look),
            kept: kept_after(better, self.bounds.kept, self.tree.events.len()),
            tally: tally_after(self.tallies[teller], look),
        }
    }

    /// Settles the nodes that a walk comes to, from a place on, as the looks that wait found them. It ends at the first node that
    /// may not be settled: a refusal tells how many were settled, and why the next one wasn't, where the walk stands then.
    pub fn settle_waiting(
        &mut self,
        teller: usize,
        place: usize,
        walk: &mut Node,
    ) -> Result<(), WalkRefusal>
        requires agrees { IsLedger self.old }
        requires teller { teller < length self.old.tallies.items }
        requires at { IsPlaceOf (settled_in self.old.tree) walk.old place }
        requires proofs { All (λ event. HasProof self.old.tree.network event.path event.outcome × SplitsUndecided self.old.tree.network event.path event.outcome)
            (events_below walk.old (map outcome_of self.old.tree.events.waiting)) }
        ensures agrees { IsLedger self.new }
        ensures all { OnOk result (progress_of self.new
            ≡ with_all self.old teller (events_below walk.old (map outcome_of self.old.tree.events.waiting))) }
        ensures walk { OnOk result (walk.new ≡ path_after walk.old (map outcome_of self.old.tree.events.waiting)) }
        ensures some { IfErr result (λ refusal. (refusal.settled < length self.old.tree.events.waiting)
            × (progress_of self.new ≡ with_all self.old teller (take refusal.settled (events_below walk.old (map outcome_of self.old.tree.events.waiting))))
            × (walk.new ≡ path_after walk.old (take refusal.settled (map outcome_of self.old.tree.events.waiting)))) }
        ensures fault { IfErr result (λ refusal. IsFaultAt self.old.tree.network self.old.bounds.limit (settled_in self.new.tree)
            (events_below walk.old (map outcome_of self.old.tree.events.waiting)) refusal.settled refusal.fault) }
    {
        let before = self.tree.events.len();
        let mut place = place;
        while self.tree.events.is_waiting() {
            place = match self.settle_next(teller, place, walk) {
                Ok(next) => next,
                Err(fault) => {
                    return Err(WalkRefusal {
                        settled: self.tree.events.len() - before,
                        fault,
                    });
                }
            };
        }
        Ok(())
    }

    // Settles the node where a walk stands, at its place, as the look that waits first found it, and goes on with the walk, to the
    // place that it gives; else the first reason why not. A refusal changes nothing.
    fn settle_next(
        &mut self,
        teller: usize,
        place: usize,
        walk: &mut Node,
    ) -> Result<usize, BookFault>
        requires agrees { IsLedger self.old }
        requires some { 1 ≤ length self.old.tree.events.waiting }
        requires teller { teller < length self.old.tallies.items }
        requires at { IsPlaceOf (settled_in self.old.tree) walk.old place }
        requires proof { HasProof self.old.tree.network walk.old (next_outcome self.old) }
        requires undecided { SplitsUndecided self.old.tree.network walk.old (next_outcome self.old) }
        ensures agrees { IsLedger self.new }
        ensures ok { OnOk result (progress_of self.new ≡ with_one self.old teller walk.old (next_outcome self.old)) }
        ensures waiting { OnOk result (self.new.tree.events.waiting ≡ drop 1 self.old.tree.events.waiting) }
        ensures walk { OnOk result (walk.new ≡ next_path walk.old (next_outcome self.old)) }
        ensures at { IfOk result (IsPlaceOf (settled_in self.new.tree) walk.new) }
        ensures refused { OnErr result (progress_of self.new ≡ progress_of self.old) }
        ensures stays { OnErr result (walk.new ≡ walk.old) }
        ensures fault { IfErr result (IsFault self.old.tree.network self.old.bounds.limit (settled_in self.old.tree) (record { path = walk.old; outcome = next_outcome self.old })) }
    {
        if let Some(triple) = split_of(self.tree.events.next()) {
            return self.split_at(teller, place, walk, triple);
        }
        match self.settle_here(teller, place, walk.path()) {
            Ok(()) => Ok(self.go_on(place, walk)),
            Err(fault) => Err(fault),
        }
    }

    // Settles the node where a walk stands as the split that waits first, and goes down to its Left child.
    fn split_at(
        &mut self,
        teller: usize,
        place: usize,
        walk: &mut Node,
        triple: Triple,
    ) -> Result<usize, BookFault>
        requires agrees { IsLedger self.old }
        requires some { 1 ≤ length self.old.tree.events.waiting }
        requires teller { teller < length self.old.tallies.items }
        requires next { next_of self.old.tree.events ≡ Look.Split triple }
        requires at { IsPlaceOf (settled_in self.old.tree) walk.old place }
        requires undecided { SplitsUndecided self.old.tree.network walk.old (split triple) }
        ensures agrees { IsLedger self.new }
        ensures ok { OnOk result (progress_of self.new ≡ with_one self.old teller walk.old (split triple)) }
        ensures waiting { OnOk result (self.new.tree.events.waiting ≡ drop 1 self.old.tree.events.waiting) }
        ensures walk { OnOk result (walk.new ≡ decided walk.old triple Left) }
        ensures at { IfOk result (IsPlaceOf (settled_in self.new.tree) walk.new) }
        ensures refused { OnErr result (progress_of self.new ≡ progress_of self.old) }
        ensures stays { OnErr result (walk.new ≡ walk.old) }
        ensures fault { IfErr result (IsFault self.old.tree.network self.old.bounds.limit (settled_in self.old.tree) (record { path = walk.old; outcome = split triple })) }
    {
        // The walk goes down first, since only that can be taken back.
        if let Err(NoMemory) = walk.push(triple, Side::Left) {
            return Err(self.fault_at(place, walk.path()));
        }
        let depth = walk.path().len() - 1;
        let path = &walk.path()[..depth];
        if let Err(fault) = self.settle_here(teller, place, path) {
            walk.pop();
            return Err(fault);
        }
        Ok(self.tree.places.len() - 2)
    }

    // Settles the node at a place as the look that waits first found it, where it may be; else the first reason why not. A
    // refusal changes nothing.
    fn settle_here(
        &mut self,
        teller: usize,
        place: usize,
        path: &[Decision],
    ) -> Result<(), BookFault>
        requires agrees { IsLedger self.old }
        requires some { 1 ≤ length self.old.tree.events.waiting }
        requires teller { teller < length self.old.tallies.items }
        requires at { IsPlaceOf (settled_in self.old.tree) path.now place }
        requires proof { HasProof self.old.tree.network path.now (next_outcome self.old) }
        requires undecided { SplitsUndecided self.old.tree.network path.now (next_outcome self.old) }
        ensures agrees { IsLedger self.new }
        ensures ok { OnOk result (progress_of self.new ≡ with_one self.old teller path.now (next_outcome self.old)) }
        ensures waiting { OnOk result (self.new.tree.events.waiting ≡ drop 1 self.old.tree.events.waiting) }
        ensures refused { OnErr result (progress_of self.new ≡ progress_of self.old) }
        ensures fault { IfErr result (IsFault self.old.tree.network self.old.bounds.limit (settled_in self.old.tree) (record { path = path.now; outcome = next_outcome self.old })) }
    {
        self.admit(place, path)?;
        if self.tree.reserve(&mut self.closed).is_err() {
            return Err(BookFault::Memory);
        }
        self.record(teller, place);
        Ok(())
    }

    // The first reason why what waits first isn't settled at a place where there is no memory for it.
    fn fault_at(&self, place: usize, path: &[Decision]) -> BookFault
        requires agrees { IsLedger self.now }
        requires some { 1 ≤ length self.now.tree.events.waiting }
        requires at { IsPlaceOf (settled_in self.now.tree) path.now place }
        requires proof { HasProof self.now.tree.network path.now (next_outcome self.now) }
        requires undecided { SplitsUndecided self.now.tree.network path.now (next_outcome self.now) }
        ensures { IsFault self.now.tree.network self.now.bounds.limit (settled_in self.now.tree) (record { path = path.now; outcome = next_outcome self.now }) result }
    {
        match self.admit(place, path) {
            Ok(()) => BookFault::Memory,
            Err(fault) => fault,
        }
    }

    // Whether what waits first may be settled at a place; else the first reason why not.
    fn admit(&self, place: usize, path: &[Decision]) -> Result<(), BookFault>
        requires agrees { IsLedger self.now }
        requires some { 1 ≤ length self.now.tree.events.waiting }
        requires at { IsPlaceOf (settled_in self.now.tree) path.now place }
        requires proof { HasProof self.now.tree.network path.now (next_outcome self.now) }
        requires undecided { SplitsUndecided self.now.tree.network path.now (next_outcome self.now) }
        ensures { let history = settled_in self.now.tree in MatchResult result
            (λ done. (length history < self.now.bounds.limit) × IsAllowed self.now.tree.network history (record { path = path.now; outcome = next_outcome self.now }))
            (λ fault. IsFault self.now.tree.network self.now.bounds.limit history (record { path = path.now; outcome = next_outcome self.now }) fault) }
    {
        let look = self.tree.events.next();
        self.tree.admit_at(self.bounds, place, path, look)
    }

    /// The certificate of a finished search.
    pub fn into_spelling(self) -> Result<Spelling, NoMemory>
        requires agrees { IsLedger self }
        requires finished { open_paths (settled_in self.tree) ≡ [] }
        ensures format { IfOk result (λ cert. cert.format ≡ Format.Two) }
        ensures target { IfOk result (λ cert. cert.target ≡ best_bound self.tree.network (settled_in self.tree)) }
        ensures accepted { IfOk result (λ cert.
            SpellsAccepted self.tree.network (kept_of self.tree.network (settled_in self.tree)) cert.nodes) }
        ensures nodes { IfOk result (λ cert. AreNodesOf self.tree.network (settled_in self.tree) cert.nodes) }
        ensures counted { IfOk result (λ cert. length cert.nodes ≡ length (settled_in self.tree)) }
    {
        match self.plan_and_order() {
            Ok((plan, order)) => Ok(self.spelled(plan, order)),
            Err(error) => {
                drop(self);
                Err(error)
            }
        }
    }

    // A copy of the schedule that is kept, and the order of the events' nodes.
    fn plan_and_order(&self) -> Result<(Option<Solved>, Vec<usize>), NoMemory>
        requires agrees { IsLedger self.now }
        requires finished { open_paths (settled_in self.now.tree) ≡ [] }
        ensures plan { IfOk result (λ found. IsPlanOf self.now.tree.network (settled_in self.now.tree) found.0) }
        ensures order { IfOk result (λ found. IsOrder self.now.tree.network (settled_in self.now.tree) found.1.items) }
    {
        let order = order_of(*self.tree.events.allocator(), &self.tree)?;
        let plan = self.plan()?;
        Ok((plan, order))
    }

    // The certificate by these.
    fn spelled(self, plan: Option<Solved>, order: Vec<usize>) -> Spelling
        requires agrees { IsLedger self }
        requires plan { IsPlanOf self.tree.network (settled_in self.tree) plan }
        requires order { IsOrder self.tree.network (settled_in self.tree) order.items }
        ensures format { result.format ≡ Format.Two }
        ensures target { result.target ≡ best_bound self.tree.network (settled_in self.tree) }
        ensures accepted { SpellsAccepted self.tree.network (kept_of self.tree.network (settled_in self.tree)) result.nodes }
        ensures nodes { AreNodesOf self.tree.network (settled_in self.tree) result.nodes }
        ensures counted { length result.nodes ≡ length (settled_in self.tree) }
    {
        let Ledger { tree, bounds, .. } = self;
        let Tree {
            network,
            events,
            ..
        } = tree;
        Spelling::of(network, events, plan, bounds.best, order)
    }

    // A copy of the schedule that is kept.
    fn plan(&self) -> Result<Option<Solved>, NoMemory>
        requires agrees { IsLedger self.now }
        ensures { IfOk result (IsPlanOf self.now.tree.network (settled_in self.now.tree)) }
    {
        match self.tree.kept(self.bounds.kept) {
            None => Ok(None),
            Some(solved) => Ok(Some(solved.copy()?)),
        }
    }

    // Goes on with a walk from a leaf at a place.
    fn go_on(&self, place: usize, walk: &mut Node) -> usize
        requires agrees { IsLedger self.now }
        requires at { IsPlaceOf (settled_in self.now.tree) walk.old place }
        ensures walk { walk.new ≡ after_leaf walk.old }
        ensures at { IsPlaceOf (settled_in self.now.tree) walk.new result }
    {
        let mut place = place;
        while let Some((parent, side)) = self.tree.above(place) {
            match side {
                Side::Left => {
                    walk.turn();
                    return place + 1;
                }
                Side::Right => {
                    walk.pop();
                    place = parent;
                }
            }
        }
        place
    }
}

fn open_after(count: usize, look: &Look) -> usize
    requires some { 1 ≤ count }
    requires few { count < 18446744073709551615 }
    ensures { result + 1 ≡ count + child_count (outcome_of look.now) }
{
    match look {
        Look::Split(_) => count + 1,
        Look::Solved { .. } => count - 1,
        Look::Pruned { .. } => count - 1,
        Look::Tied { .. } => count - 1,
        Look::Refuted(_) => count - 1,
    }
}

#[tactic(auto, unfolding(tsn_model::specs::Search::solved_bound, tsn_model::specs::Search::pruned_bound))]
fn best_after(best: u64, look: &Look) -> u64
    ensures { result ≡ fold min best (solved_bound (outcome_of look.now)) }
{
    match look {
        Look::Solved { solved, .. } => best.min(solved.flowspan()),
        Look::Split(_) => best,
        Look::Pruned { .. } => best,
        Look::Tied { .. } => best,
        Look::Refuted(_) => best,
    }
}

#[tactic(auto, unfolding(tsn_model::specs::Search::solved_bound, tsn_model::specs::Search::pruned_bound))]
fn tally_after(tally: Tally, look: &Look) -> Tally
    requires { tally.events < 18446744073709551615 }
    ensures { result ≡ tally_after tally (outcome_of look.now) }
{
    let one_more = Tally {
        events: tally.events + 1,
        ..tally
    };
    match look {
        Look::Solved { solved, .. } => Tally {
            solved: tally.solved.min(solved.flowspan()),
            ..one_more
        },
        Look::Pruned { bound, .. } => Tally {
            pruned: tally.pruned.min(*bound),
            ..one_more
        },
        Look::Split(_) => one_more,
        Look::Tied { .. } => one_more,
        Look::Refuted(_) => one_more,
    }
}

// The number of the event that is kept, after one more.
fn kept_after(better: bool, kept: Option<usize>, number: usize) -> Option<usize>
    ensures { result ≡ kept_after better kept number }
{
    if better { Some(number) } else { kept }
}
