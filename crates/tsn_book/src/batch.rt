//! Several events that are settled in one call.
ghost use Rattle.std.specs.Prelude.{◌≡◌, ◌<◌, ◌++◌, length, map, take, drop, All, IfErr, OnOk};
ghost use Rattle.tsn_conflict.specs.Outcome.{outcome_of};
ghost use Rattle.tsn_conflict.specs.Right.{HasProof, SplitsUndecided};
ghost use Rattle.tsn_book.specs.Event.{event_of};
ghost use Rattle.tsn_book.specs.Book.{IsLawful};
ghost use Rattle.tsn_book.specs.Below.{settlements_by, events_below, path_after, IsFaultAt};

use crate::book::Book;
use crate::event::Event;
use crate::looks::Looks;
use crate::refusal::{BatchRefusal, EventRefusal, WalkRefusal};
use tsn_conflict::Node;

impl Book {
    /// Settles events in order, up to the first that may not be settled. A refusal tells how many were settled, why the next
    /// one wasn't, and gives back that one and all after it.
    ///
    /// Each event has to be right as for `settle`.
    pub fn settle_all(&mut self, teller: usize, events: Vec<Event>) -> Result<(), BatchRefusal>
        requires teller { teller < self.old.tellers }
        requires proofs { All (λ event. HasProof self.old.network event.node (outcome_of event.look)) events.items }
        ensures all { OnOk result (self.new ≡ record self.old { history = self.old.history ++ settlements_by teller (map event_of events.items) }) }
        ensures some { IfErr result (λ refusal. (refusal.settled < length events.items)
            × (self.new ≡ record self.old { history = self.old.history ++ settlements_by teller (map event_of (take refusal.settled events.items)) })
            × (refusal.rest.items ≡ drop refusal.settled events.items)) }
        ensures fault { IfErr result (λ refusal. IsFaultAt self.old.network self.old.limit self.new.history (map event_of events.items) refusal.settled refusal.fault) }
        ensures lawful { IsLawful self.new }
        ensures network { self.new.network ≡ self.old.network }
        ensures tellers { self.new.tellers ≡ self.old.tellers }
        ensures limit { self.new.limit ≡ self.old.limit }
    {
        let before = self.count();
        let mut rest = events;
        // The last event is the cheapest to take out of a vector.
        rest.reverse();
        while let Some(event) = rest.pop() {
            if let Err(refused) = self.settle(teller, event) {
                let EventRefusal { fault, event } = refused;
                rest.push_reserved(event);
                rest.reverse();
                return Err(BatchRefusal {
                    settled: self.count() - before,
                    fault,
                    rest,
                });
            }
        }
        Ok(())
    }

    /// Settles the nodes that a walk comes to, depth first from a node on, as looks in that order found them: after a split
    /// its Left child, after a leaf the right side of the path's last left turn, or the root where there is none. The node
    /// goes along, and stands where the walk goes on. It ends at the first node that may not be settled: a refusal tells how
    /// many were settled, and why the next one wasn't, where the node stands then.
    ///
    /// Each look has to be right as for `settle`, and a split has to be on a conflict that the path doesn't decide: a look at
    /// the node gives such. Only the first node's path is walked, and what was found isn't moved.
    pub fn settle_below(
        &mut self,
        teller: usize,
        from: &mut Node,
        looks: Looks,
    ) -> Result<(), WalkRefusal>
        requires teller { teller < self.old.tellers }
        requires proofs { All (λ event. HasProof self.old.network event.path event.outcome × SplitsUndecided self.old.network event.path event.outcome)
            (events_below from.old (map outcome_of looks)) }
        ensures all { OnOk result (self.new ≡ record self.old {
          history = self.old.history ++ settlements_by teller (events_below from.old (map outcome_of looks));
        }) }
        ensures from { OnOk result (from.new ≡ path_after from.old (map outcome_of looks)) }
        ensures some { IfErr result (λ refusal. (refusal.settled < length looks)
            × (self.new ≡ record self.old { history = self.old.history ++ settlements_by teller (take refusal.settled (events_below from.old (map outcome_of looks))) })
            × (from.new ≡ path_after from.old (take refusal.settled (map outcome_of looks)))) }
        ensures fault { IfErr result (λ refusal. IsFaultAt self.old.network self.old.limit self.new.history (events_below from.old (map outcome_of looks))
            refusal.settled refusal.fault) }
        ensures lawful { IsLawful self.new }
        ensures network { self.new.network ≡ self.old.network }
        ensures tellers { self.new.tellers ≡ self.old.tellers }
        ensures limit { self.new.limit ≡ self.old.limit }
    {
        // What is counted is lawful, which holds of a book from which nothing is read too.
        let _count = self.count();
        if looks.len() == 0 {
            return Ok(());
        }
        let place = match self.open_place(from.path()) {
            Ok(place) => place,
            Err(fault) => return Err(WalkRefusal { settled: 0, fault }),
        };
        if let Err(looks) = self.ledger.tree.events.bring(looks) {
            let fault = self.fault_at(place, from.path(), looks.get(0));
            return Err(WalkRefusal { settled: 0, fault });
        }
        let settled = self.ledger.settle_waiting(teller, place, from);
        self.ledger.tree.events.dismiss();
        settled
    }
}
