//! The book of a search, as its callers see it: what was settled so far.
ghost use Rattle.std.specs.Prelude.{◌≡◌, ◌<◌, ◌+◌, ◌++◌, ◌∷◌, [], false, length, replicate, IfOk, IfErr, OnErr, OnOk, MatchOption, MatchResult, Some, None, IsTrue, ◌↔◌, Any, Contains};
ghost use Rattle.tsn_cert.specs.declared.cert.Format.{Format};
ghost use Rattle.tsn_timing.specs.Solution.{IsSolved};
ghost use Rattle.tsn_model.specs.Search.{Outcome, made_paths, open_paths, best_bound, kept_of, tally_of, solved_bounds, settled_by, tally_as, IsAllowed, IsFirstOpen};
ghost use Rattle.tsn_conflict.specs.Outcome.{outcome_of};
ghost use Rattle.tsn_conflict.specs.Right.{HasProof, SplitsUndecided};
ghost use Rattle.tsn_book.specs.Event.{event_of};
ghost use Rattle.tsn_model.specs.SearchLaws.{IsBelowBounds};
ghost use Rattle.tsn_model.specs.Walk.{path_made, IsPlaceOf};
ghost use Rattle.tsn_book.specs.Book.{Progress, IsLawful, IsFault, SpellsAccepted, AreNodesOf};
ghost use Rattle.tsn_book.specs.Solving.{IsSolvedBy};

use crate::arena::{Bounds, PathEnd, Tree};
use crate::event::Event;
use crate::fault::BookFault;
use crate::ledger::Ledger;
use crate::log::{Log, Settled};
use crate::refusal::EventRefusal;
use crate::spelling::Spelling;
use std::alloc::{AllocError, Global};
use std::marker::Model;
use tsn_cert::Cert;
use tsn_conflict::outcome::Look;
use tsn_conflict::{Decision, NoMemory, Node, Triple};
use tsn_model::Tally;
use tsn_timing::{Solved, Timing};

/// What was settled of a search, by tellers with numbers from 0, at most as many events as its limit says.
#[derive(Drop)]
pub struct Book {
    pub(crate) ledger: Ledger,
}

impl Model for Book {
    ghost use Rattle.tsn_book.specs.Book.{Progress};
    ghost use Rattle.tsn_book.specs.Ledger.{progress_of, IsWhole};

    ghost Value = { Progress };

    ghost view = { λ b. progress_of b.ledger };

    ghost invariant = { λ b. IsWhole b.ledger };
}

impl Book {
    /// A book of the problem's search, with nothing settled and the root open. The error says that there was no memory.
    pub fn new(
        alloc: Global,
        timing: &Timing,
        tellers: usize,
        limit: usize,
    ) -> Result<Book, NoMemory>
        ensures { IfOk result (λ book. book ≡ record { network = timing.now; tellers = tellers; limit = limit; history = [] }) }
    {
        let past_cycle = timing.cycle() + 1;
        let closed = one_open(alloc)?;
        let tallies = tallies_of(alloc, tellers, past_cycle)?;
        let tree = Tree::new(alloc, timing)?;
        Ok(Book {
            ledger: Ledger {
                tree,
                closed,
                open_nodes: 1,
                bounds: Bounds {
                    limit,
                    best: past_cycle,
                    kept: None,
                },
                tallies,
            },
        })
    }

    /// Settles an event, where it may be; else the first reason why not, with the event. A refusal changes nothing.
    ///
    /// A leaf's proof has to be right for its own bound, and a solved leaf's bound is the flowspan of its schedule: a look
    /// at the node gives such.
    pub fn settle(&mut self, teller: usize, event: Event) -> Result<(), EventRefusal>
        requires teller { teller < self.old.tellers }
        requires proof { HasProof self.old.network event.node (outcome_of event.look) }
        ensures ok { OnOk result (self.new ≡ record self.old { history = self.old.history ++ record { teller = teller; event = event_of event } ∷ [] }) }
        ensures lawful { OnOk result (IsLawful self.new) }
        ensures network { self.new.network ≡ self.old.network }
        ensures tellers { self.new.tellers ≡ self.old.tellers }
        ensures limit { self.new.limit ≡ self.old.limit }
        ensures refused { OnErr result (self.new ≡ self.old) }
        ensures fault { IfErr result (λ refusal. IsFault self.old.network self.old.limit self.old.history (event_of event) refusal.fault) }
        ensures returned { IfErr result (λ refusal. refusal.event ≡ event) }
    {
        let placed = self.ledger.tree.place_for(self.ledger.bounds, &event);
        let place = match placed {
            Ok(place) => place,
            Err(fault) => return Err(EventRefusal { fault, event }),
        };
        let Event { node, look } = event;
        match self.enter(teller, place, look) {
            Ok(()) => Ok(()),
            Err(look) => Err(EventRefusal {
                fault: BookFault::Memory,
                event: Event { node, look },
            }),
        }
    }

    /// The first reason why what was found at a place isn't settled where there is no memory for it.
    pub(crate) fn fault_at(&self, place: usize, path: &[Decision], look: &Look) -> BookFault
        requires place { place < length (made_paths self.now.history) }
        requires proof { HasProof self.now.network (path_made self.now.history place) (outcome_of look.now) }
        requires path { path.now ≡ path_made self.now.history place }
        requires undecided { SplitsUndecided self.now.network (path_made self.now.history place) (outcome_of look.now) }
        ensures { IsFault self.now.network self.now.limit self.now.history
            (record { path = path_made self.now.history place; outcome = outcome_of look.now }) result }
    {
        let admitted = self
            .ledger
            .tree
            .admit_at(self.ledger.bounds, place, path, look);
        match admitted {
            Ok(()) => BookFault::Memory,
            Err(fault) => fault,
        }
    }

    /// The open place at the end of a path, or why nothing is settled there.
    pub(crate) fn open_place(&self, path: &[Decision]) -> Result<usize, BookFault>
        ensures { let book = self.now in MatchResult result (IsPlaceOf book.history path.now)
            (λ fault. (outcome : Outcome) → IsFault book.network book.limit book.history (record { path = path.now; outcome = outcome }) fault) }
    {
        match self.ledger.tree.find(path) {
            PathEnd::Open(place) => Ok(place),
            PathEnd::Settled(number) => Err(BookFault::NotOpen(Some(number))),
            PathEnd::Outside => Err(BookFault::NotOpen(None)),
        }
    }

    // Settles at a place what may be settled there, where there is memory for it; else gives it back.
    fn enter(&mut self, teller: usize, place: usize, look: Look) -> Result<(), Look>
        requires teller { teller < self.old.tellers }
        requires limit { length self.old.history < self.old.limit }
        requires place { place < length (made_paths self.old.history) }
        requires allowed { IsAllowed self.old.network self.old.history (record { path = path_made self.old.history place; outcome = outcome_of look }) }
        ensures ok { OnOk result (self.new ≡ record self.old {
          history = self.old.history
              ++ record { teller = teller; event = record { path = path_made self.old.history place; outcome = outcome_of look } } ∷ [];
        }) }
        ensures lawful { OnOk result (IsLawful self.new) }
        ensures network { self.new.network ≡ self.old.network }
        ensures tellers { self.new.tellers ≡ self.old.tellers }
        ensures limit { self.new.limit ≡ self.old.limit }
        ensures refused { OnErr result (self.new ≡ self.old) }
        ensures returned { IfErr result (λ back. back ≡ look) }
    {
        if self.ledger.tree.events.reserve().is_err() {
            return Err(look);
        }
        if self.ledger.tree.reserve(&mut self.ledger.closed).is_err() {
            return Err(look);
        }
        self.ledger.tree.events.put(look);
        self.ledger.record(teller, place);
        Ok(())
    }

    /// How many events were settled.
    pub fn count(&self) -> usize
        ensures count { result ≡ length self.now.history }
        ensures lawful { IsLawful self.now }
    {
        self.ledger.tree.events.len()
    }

    /// How many nodes are open.
    pub fn open_count(&self) -> usize
        ensures count { result ≡ length (open_paths self.now.history) }
        ensures lawful { IsLawful self.now }
    {
        self.ledger.open_nodes
    }

    /// The open node that is first in preorder, a node's Left child before its Right one. The error says that there was no
    /// memory.
    pub fn first_open(&self, alloc: Global) -> Result<Option<Node>, NoMemory>
        ensures first { IfOk result (λ first. MatchOption first (open_paths self.now.history ≡ []) (IsFirstOpen self.now.history)) }
        ensures lawful { IsLawful self.now }
    {
        self.ledger.tree.first_open(alloc, &self.ledger.closed)
    }

    /// What a teller settled.
    pub fn tally(&self, teller: usize) -> Tally
        requires { teller < self.now.tellers }
        ensures tally { result ≡ tally_of self.now.network teller self.now.history }
        ensures lawful { IsLawful self.now }
    {
        self.ledger.tallies[teller]
    }

    /// Whether a teller settled a solved leaf of that flowspan, in nanoseconds.
    pub fn has_solved(&self, teller: usize, flowspan: u64) -> bool
        ensures solved { IsTrue result ↔ Contains (solved_bounds (settled_by teller self.now.history)) flowspan }
        ensures lawful { IsLawful self.now }
    {
        any_solved(&self.ledger.tree.events, teller, flowspan)
    }

    /// The triple on which the node at the end of a path was split; none where it wasn't, or where the path leads outside the tree.
    pub fn split_at(&self, path: &[Decision]) -> Option<Triple> {
        match self.ledger.tree.find(path) {
            PathEnd::Settled(number) => self.ledger.tree.split_by(number),
            PathEnd::Open(_) => None,
            PathEnd::Outside => None,
        }
    }

    /// What the network says of times.
    pub fn timing(&self) -> &Timing
        ensures { result.now ≡ self.now.network }
    {
        &self.ledger.tree.network
    }

    /// The least flowspan solved, in nanoseconds, or one more than the cycle where none is: a target for the certificate.
    pub fn best(&self) -> u64
        ensures best { result ≡ best_bound self.now.network self.now.history }
        ensures target { IsBelowBounds self.now.network result self.now.history }
        ensures lawful { IsLawful self.now }
    {
        self.ledger.bounds.best
    }

    /// The lexicographically least schedule of the solved leaves of least flowspan.
    pub fn kept(&self) -> Option<&Solved>
        ensures kept { MatchOption result (kept_of self.now.network self.now.history ≡ None)
            (λ solved. kept_of self.now.network self.now.history ≡ Some solved.now.offsets) }
        ensures best { MatchOption result (best_bound self.now.network self.now.history ≡ self.now.network.cycle + 1)
            (λ solved. IsSolved self.now.network solved.now × (solved.now.flowspan ≡ best_bound self.now.network self.now.history)) }
        ensures lawful { IsLawful self.now }
    {
        self.ledger.tree.kept(self.ledger.bounds.kept)
    }

    /// The certificate of a finished search, in format 2 for what is kept: one node for each event. The error says that there
    /// was no memory.
    pub fn into_cert(self) -> Result<Cert, NoMemory>
        requires finished { open_paths self.history ≡ [] }
        ensures format { IfOk result (λ cert. cert.format ≡ Format.Two) }
        ensures target { IfOk result (λ cert. cert.target ≡ best_bound self.network self.history) }
        ensures accepted { IfOk result (λ cert. SpellsAccepted self.network (kept_of self.network self.history) cert.nodes) }
        ensures nodes { IfOk result (λ cert. AreNodesOf self.network self.history cert.nodes) }
        ensures counted { IfOk result (λ cert. length cert.nodes ≡ length self.history) }
    {
        self.into_spelling()?.into_cert()
    }

    /// The same certificate, whose nodes are given one at a time. The error says that there was no memory.
    pub fn into_spelling(self) -> Result<Spelling, NoMemory>
        requires finished { open_paths self.history ≡ [] }
        ensures format { IfOk result (λ cert. cert.format ≡ Format.Two) }
        ensures target { IfOk result (λ cert. cert.target ≡ best_bound self.network self.history) }
        ensures accepted { IfOk result (λ cert. SpellsAccepted self.network (kept_of self.network self.history) cert.nodes) }
        ensures nodes { IfOk result (λ cert. AreNodesOf self.network self.history cert.nodes) }
        ensures counted { IfOk result (λ cert. length cert.nodes ≡ length self.history) }
    {
        let Book { ledger } = self;
        ledger.into_spelling()
    }
}

// Of the one place of a new tree, that it isn't closed.
fn one_open(alloc: Global) -> Result<Vec<bool>, AllocError>
    ensures { IfOk result (λ closed. closed.items ≡ false ∷ []) }
{
    Ok(vec![in alloc; false]?)
}

// The tallies of tellers that have settled nothing.
fn tallies_of(alloc: Global, tellers: usize, past_cycle: u64) -> Result<Vec<Tally>, AllocError>
    ensures { IfOk result (λ tallies. tallies.items ≡ replicate tellers (tally_as 0 past_cycle past_cycle)) }
{
    let mut tallies = Vec::with_capacity(alloc, tellers)?;
    for _ in 0..tellers {
        tallies.push(Tally {
            events: 0,
            pruned: past_cycle,
            solved: past_cycle,
        })?;
    }
    Ok(tallies)
}

// Whether a solved leaf of that teller and flowspan was settled.
fn any_solved(events: &Log, teller: usize, flowspan: u64) -> bool
    ensures { IsTrue result ↔ Any (IsSolvedBy teller flowspan) events.now.items }
{
    for number in 0..events.len() {
        if is_solved_by(events.get(number), teller, flowspan) {
            return true;
        }
    }
    false
}

// Whether what was settled is a solved leaf of that teller and flowspan.
fn is_solved_by(settled: &Settled, teller: usize, flowspan: u64) -> bool
    ensures { IsTrue result ↔ IsSolvedBy teller flowspan settled.now }
{
    match &settled.look {
        Look::Solved { solved, .. } => settled.teller == teller && solved.flowspan() == flowspan,
        Look::Split(_) => false,
        Look::Pruned { .. } => false,
        Look::Tied { .. } => false,
        Look::Refuted(_) => false,
    }
}
