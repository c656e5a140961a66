//! What lies behind the lock: the book, and one half of each number's tally.
ghost use Rattle.std.specs.Prelude.{◌≡◌, ◌<◌, ◌++◌, false, length, map, take, All, IfOk, IfErr, OnOk};
ghost use Rattle.tsn_model.specs.Search.{tally_of};
ghost use Rattle.tsn_conflict.specs.Outcome.{outcome_of};
ghost use Rattle.tsn_conflict.specs.Right.{HasProof, SplitsUndecided};
ghost use Rattle.tsn_incumbent.specs.Halves.{half};
ghost use Rattle.tsn_book.specs.Book.{IsLawful};
ghost use Rattle.tsn_book.specs.Below.{path_after, events_below, settlements_by, IsFaultAt};
ghost use Rattle.tsn_incumbent.specs.Names.{IsBookOf};
ghost use Rattle.tsn_incumbent.specs.Desk.{AreCounts, IsKeptOf};
ghost use Rattle.tsn_incumbent.specs.Teller.{tally_with_all};

use crate::halves::{Half, Halves};
use crate::names::Named;
use std::alloc::Global;
use std::marker::{Model, PhantomData};
use tsn_book::{Book, Looks, WalkRefusal};
use tsn_conflict::{NoMemory, Node};
use tsn_timing::Solved;

/// Whose tally it is: the table of halves, and the number of the teller in it.
#[derive(Clone, Copy)]
pub struct Owner<'a> {
    pub halves: &'a Halves,
    pub teller: usize,
}

/// How many events were settled, how many nodes are open, and the open node that is first in preorder.
#[derive(Drop)]
pub struct Counts {
    pub count: usize,
    pub open_nodes: usize,
    pub first: Option<Node>,
}

/// The book of the search, and one half of each number. Contracts see the book.
#[derive(Drop)]
pub struct Desk<K: Named> {
    pub(crate) book: Book,
    pub(crate) halves: Vec<Half>,
    pub(crate) names: PhantomData<K>,
}

impl<K: Named> Model for Desk<K> {
    ghost use Rattle.tsn_book.specs.Book.{Progress};
    ghost use Rattle.tsn_incumbent.specs.Names.{IsBookOf};
    ghost use Rattle.tsn_incumbent.specs.Desk.{Halved};

    ghost Value = { Progress };

    ghost view = { λ d. d.book };

    ghost invariant = { λ d. IsBookOf K.names d.book × Halved K.names d.halves.items d.book.history };
}

impl<K: Named> Desk<K> {
    /// Settles the nodes of a walk from a node on, up to the first refusal, and sets both halves of the teller's tally.
    pub fn settle_below(
        &mut self,
        owner: Owner<'_>,
        share: &mut Half,
        from: &mut Node,
        looks: Looks,
    ) -> Result<(), WalkRefusal>
        requires table { owner.halves.now ≡ K.names.halves }
        requires share { share.old ≡ half K.names.halves owner.teller false share.old.tally }
        requires within { owner.teller < K.names.race.tellers }
        requires proofs { All (λ event. HasProof K.names.race.network event.path event.outcome × SplitsUndecided K.names.race.network event.path event.outcome)
            (events_below from.old (map outcome_of looks)) }
        ensures all { OnOk result (share.new ≡ half K.names.halves owner.entry.teller false (tally_with_all share.old.tally (map outcome_of looks))) }
        ensures from { OnOk result (from.new ≡ path_after from.old (map outcome_of looks)) }
        ensures some { IfErr result (λ refusal. (refusal.settled < length looks)
            × (share.new ≡ half K.names.halves owner.entry.teller false (tally_with_all share.old.tally (take refusal.settled (map outcome_of looks))))
            × (from.new ≡ path_after from.old (take refusal.settled (map outcome_of looks)))) }
        ensures history { OnOk result (self.new.history ≡ self.old.history ++ settlements_by owner.entry.teller (events_below from.old (map outcome_of looks))) }
        ensures history_of_some { IfErr result (λ refusal. self.new.history
            ≡ self.old.history ++ settlements_by owner.entry.teller (take refusal.settled (events_below from.old (map outcome_of looks)))) }
        ensures fault { IfErr result (λ refusal. IsFaultAt K.names.race.network K.names.limit self.new.history (events_below from.old (map outcome_of looks)) refusal.settled refusal.fault) }
        ensures agrees { tally_of K.names.race.network owner.entry.teller self.new.history ≡ share.new.tally }
        ensures book { IsBookOf K.names self.new }
        ensures lawful { IsLawful self.new }
    {
        let settled = self.book.settle_below(owner.teller, from, looks);
        let tally = self.book.tally(owner.teller);
        let mine = &mut self.halves[owner.teller];
        owner.halves.set_in_place(share, mine, tally);
        settled
    }

    /// Tells that the teller's share is its tally in the book.
    pub fn agree(&mut self, owner: Owner<'_>, share: &mut Half)
        requires table { owner.halves.now ≡ K.names.halves }
        requires share { share.old ≡ half K.names.halves owner.teller false share.old.tally }
        requires within { owner.teller < K.names.race.tellers }
        ensures agrees { share.old.tally ≡ tally_of K.names.race.network owner.entry.teller self.old.history }
        ensures same { (share.new ≡ share.old) × (self.new ≡ self.old) }
    {
        let tally = self.book.tally(owner.teller);
        let mine = &mut self.halves[owner.teller];
        owner.halves.set_in_place(share, mine, tally);
    }

    /// The counts of the book.
    pub fn counts(&self, alloc: Global) -> Result<Counts, NoMemory>
        ensures counts { IfOk result (AreCounts self.now.history) }
        ensures book { IsBookOf K.names self.now }
        ensures lawful { IsLawful self.now }
    {
        Ok(Counts {
            count: self.book.count(),
            open_nodes: self.book.open_count(),
            first: self.book.first_open(alloc)?,
        })
    }

    /// A copy of what is kept.
    pub fn best(&self) -> Result<Option<Solved>, NoMemory>
        ensures kept { IfOk result (IsKeptOf self.now.network self.now.history) }
        ensures book { IsBookOf K.names self.now }
        ensures lawful { IsLawful self.now }
    {
        match self.book.kept() {
            None => Ok(None),
            Some(solved) => Ok(Some(solved.copy()?)),
        }
    }

    /// The book.
    pub fn into_book(self) -> Book
        ensures same { result ≡ self }
        ensures book { IsBookOf K.names result }
        ensures lawful { IsLawful result }
    {
        let Desk {
            book,
            halves: _,
            names: _,
        } = self;
        // What is counted is lawful.
        let _count = book.count();
        book
    }
}
