//! Single events. The planner settles the nodes of a walk, by `settle_below_as`; these calls settle events that are handed in
//! one by one or as a list, for tellers that choose them by hand.
ghost use Rattle.std.specs.Prelude.{◌≡◌, ◌≤◌, ◌<◌, ◌++◌, ◌∷◌, [], false, length, map, take, drop, All, IfOk, IfErr, OnOk, OnErr};
ghost use Rattle.tsn_model.specs.Core.{IsAboveSeen};
ghost use Rattle.tsn_model.specs.Search.{tally_of};
ghost use Rattle.tsn_model.specs.Gathering.{tally_with};
ghost use Rattle.tsn_timing.specs.Solution.{IsSolved};
ghost use Rattle.tsn_conflict.specs.Outcome.{outcome_of};
ghost use Rattle.tsn_conflict.specs.Right.{HasProof};
ghost use Rattle.tsn_incumbent.specs.Flowspans.{IsIncumbent};
ghost use Rattle.tsn_incumbent.specs.Halves.{half};
ghost use Rattle.tsn_incumbent.specs.Standings.{put};
ghost use Rattle.tsn_book.specs.Event.{event_of};
ghost use Rattle.tsn_book.specs.Book.{IsLawful, IsFault};
ghost use Rattle.tsn_book.specs.Below.{settlements_by, IsFaultAt};
ghost use Rattle.tsn_incumbent.specs.Names.{IsBookOf};
ghost use Rattle.tsn_incumbent.specs.Teller.{IsEven, settled, settled_all, tally_with_all, OnlyLastSolved};
ghost use Rattle.tsn_conflict.specs.Outcome.{IsSolvedBy};
ghost use Rattle.tsn_incumbent.specs.Desk.{IsReading, IsRefused, IsRefusedAt};

use crate::desk::{Counts, Desk, Owner};
use crate::halves::{Half, Halves};
use crate::names::Named;
use crate::shared::{Shared, post_as};
use crate::teller::Teller;
use std::alloc::Global;
use std::sync::Wait;
use tsn_book::{BatchRefusal, Event, EventRefusal};
use tsn_conflict::NoMemory;
use tsn_timing::Solved;

/// Settles an event, where it may be, in one critical section; else a reason why not, with the event. A refusal changes
/// nothing of the teller.
///
/// A leaf's proof has to be right for its own bound, and a pruned leaf's bound worse than what the teller has seen: a look at
/// the node with a target beyond what it observed gives such.
pub fn settle_as<K: Named>(
    rt: &impl Wait,
    shared: &Shared<K>,
    teller: &mut Teller<K>,
    event: Event,
) -> Result<(), EventRefusal>
    requires proof { HasProof K.names.race.network event.node (outcome_of event.look) }
    requires seen { IsAboveSeen K.names.race.network teller.old.standing.seen (outcome_of event.look) }
    ensures settled { OnOk result (teller.new ≡ settled (outcome_of event.look) teller.old) }
    ensures refused { OnErr result (teller.new ≡ teller.old) }
    ensures returned { IfErr result (λ refusal. refusal.event ≡ event) }
    ensures fault { IfErr result (λ refusal. IsRefused K.names teller.new (event_of event) refusal.fault) }
{
    let mut desk = shared.desk.lock(rt);
    settle_at(&mut desk, &shared.halves, teller, event)
}

// Settles an event behind the lock, where it may be.
fn settle_at<K: Named>(
    desk: &mut Desk<K>,
    halves: &Halves,
    teller: &mut Teller<K>,
    event: Event,
) -> Result<(), EventRefusal>
    requires table { halves.now ≡ K.names.halves }
    requires proof { HasProof K.names.race.network event.node (outcome_of event.look) }
    requires seen { IsAboveSeen K.names.race.network teller.old.standing.seen (outcome_of event.look) }
    ensures settled { OnOk result (teller.new ≡ settled (outcome_of event.look) teller.old) }
    ensures history { OnOk result (desk.new.history ≡ desk.old.history ++ record { teller = teller.old.standing.number; event = event_of event } ∷ []) }
    ensures book { IsBookOf K.names desk.new }
    ensures lawful { IsLawful desk.new }
    ensures refused { OnErr result (teller.new ≡ teller.old) }
    ensures returned { IfErr result (λ refusal. refusal.event ≡ event) }
    ensures fault { IfErr result (λ refusal. IsRefused K.names teller.new (event_of event) refusal.fault) }
{
    let owner = Owner {
        halves,
        teller: teller.number,
    };
    desk.settle(owner, &mut teller.share, event)
}

/// Settles 1 to 64 events, of which at most the last is solved, in one critical section, in order, up to the first that may
/// not be settled; then how many were settled, the reason why the next one was not, and that one with all behind it. The
/// teller's share takes those that were settled.
///
/// Each event has to be such as `settle_as` asks for.
pub fn settle_all_as<K: Named>(
    rt: &impl Wait,
    shared: &Shared<K>,
    teller: &mut Teller<K>,
    events: Vec<Event>,
) -> Result<(), BatchRefusal>
    requires count { (1 ≤ length events.items) × (length events.items ≤ 64) }
    requires proofs { All (λ event. HasProof K.names.race.network event.node (outcome_of event.look)) events.items }
    requires seen { All (λ event. IsAboveSeen K.names.race.network teller.old.standing.seen (outcome_of event.look)) events.items }
    requires last_solved { OnlyLastSolved (map (λ event. outcome_of event.look) events.items) }
    ensures all { OnOk result (teller.new ≡ settled_all (map (λ event. outcome_of event.look) events.items) teller.old) }
    ensures some { IfErr result (λ refusal. (refusal.settled < length events.items)
        × (teller.new ≡ settled_all (take refusal.settled (map (λ event. outcome_of event.look) events.items)) teller.old)
        × (refusal.rest.items ≡ drop refusal.settled events.items)) }
    ensures fault { IfErr result (λ refusal. IsRefusedAt K.names teller.new (map event_of events.items) refusal.settled refusal.fault) }
{
    let owner = Owner {
        halves: &shared.halves,
        teller: teller.number,
    };
    shared
        .desk
        .lock(rt)
        .settle_all(owner, &mut teller.share, events)
}

/// Settles a solved leaf, where it may be, and then posts its schedule, which leaves the teller even; else a reason why not,
/// with the event, and nothing is posted. The answer is the shared word before it.
#[tactic(auto, using(crate::proofs::Tellers::above_solved, crate::proofs::Tellers::least_after))]
pub fn settle_and_post<K: Named>(
    rt: &impl Wait,
    shared: &Shared<K>,
    teller: &mut Teller<K>,
    event: Event,
    solved: &Solved,
) -> Result<u64, EventRefusal>
    requires proof { HasProof K.names.race.network event.node (outcome_of event.look) }
    requires solved { IsSolved K.names.race.network solved.now }
    requires schedule { IsSolvedBy solved.now.flowspan (outcome_of event.look) }
    requires lower { solved.now.flowspan ≤ teller.old.tally.solved }
    ensures settled { OnOk result (teller.new.tally ≡ tally_with teller.old.tally (outcome_of event.look)) }
    ensures posted { OnOk result (teller.new.standing ≡ put solved.now.flowspan teller.old.standing) }
    ensures even { OnOk result (IsEven teller.new) }
    ensures incumbent { IfOk result (IsIncumbent K.names.race.network) }
    ensures at_most { IfOk result (λ word. (word ≤ teller.old.standing.seen) × (word ≤ teller.old.standing.posted)) }
    ensures refused { OnErr result (teller.new ≡ teller.old) }
    ensures returned { IfErr result (λ refusal. refusal.event ≡ event) }
    ensures fault { IfErr result (λ refusal. IsRefused K.names teller.new (event_of event) refusal.fault) }
{
    settle_as(rt, shared, teller, event)?;
    Ok(post_as(shared, teller, solved))
}

/// The counts of the book, whose history has the teller's share for its tally. The error says that there was no memory.
pub fn with_book<K: Named>(
    rt: &impl Wait,
    alloc: Global,
    shared: &Shared<K>,
    teller: &mut Teller<K>,
) -> Result<Counts, NoMemory>
    ensures reading { IfOk result (IsReading K.names teller.old) }
    ensures same { teller.new ≡ teller.old }
{
    let owner = Owner {
        halves: &shared.halves,
        teller: teller.number,
    };
    let mut desk = shared.desk.lock(rt);
    desk.agree(owner, &mut teller.share);
    desk.counts(alloc)
}

impl<K: Named> Desk<K> {
    /// Settles an event, where it may be, and sets both halves of the teller's tally.
    pub fn settle(
        &mut self,
        owner: Owner<'_>,
        share: &mut Half,
        event: Event,
    ) -> Result<(), EventRefusal>
        requires table { owner.halves.now ≡ K.names.halves }
        requires share { share.old ≡ half K.names.halves owner.teller false share.old.tally }
        requires within { owner.teller < K.names.race.tellers }
        requires proof { HasProof K.names.race.network event.node (outcome_of event.look) }
        ensures history { OnOk result (self.new.history ≡ self.old.history ++ record { teller = owner.entry.teller; event = event_of event } ∷ []) }
        ensures share { OnOk result (share.new ≡ half K.names.halves owner.entry.teller false (tally_with share.old.tally (outcome_of event.look))) }
        ensures refused { OnErr result ((self.new ≡ self.old) × (share.new ≡ share.old)) }
        ensures returned { IfErr result (λ refusal. refusal.event ≡ event) }
        ensures fault { IfErr result (λ refusal. IsFault K.names.race.network K.names.limit self.new.history (event_of event) refusal.fault) }
        ensures agrees { tally_of K.names.race.network owner.entry.teller self.new.history ≡ share.new.tally }
        ensures book { IsBookOf K.names self.new }
        ensures lawful { IsLawful self.new }
    {
        let settled = self.book.settle(owner.teller, event);
        let tally = self.book.tally(owner.teller);
        let mine = &mut self.halves[owner.teller];
        owner.halves.set_in_place(share, mine, tally);
        settled
    }

    /// Settles events in order, up to the first refusal, and sets both halves of the teller's tally.
    pub fn settle_all(
        &mut self,
        owner: Owner<'_>,
        share: &mut Half,
        events: Vec<Event>,
    ) -> Result<(), BatchRefusal>
        requires table { owner.halves.now ≡ K.names.halves }
        requires share { share.old ≡ half K.names.halves owner.teller false share.old.tally }
        requires within { owner.teller < K.names.race.tellers }
        requires proofs { All (λ event. HasProof K.names.race.network event.node (outcome_of event.look)) events.items }
        ensures all { OnOk result (share.new ≡ half K.names.halves owner.entry.teller false (tally_with_all share.old.tally (map (λ event. outcome_of event.look) events.items))) }
        ensures some { IfErr result (λ refusal. (refusal.settled < length events.items)
            × (share.new ≡ half K.names.halves owner.entry.teller false (tally_with_all share.old.tally (take refusal.settled (map (λ event. outcome_of event.look) events.items))))
            × (refusal.rest.items ≡ drop refusal.settled events.items)) }
        ensures history { OnOk result (self.new.history ≡ self.old.history ++ settlements_by owner.entry.teller (map event_of events.items)) }
        ensures history_of_some { IfErr result (λ refusal. self.new.history
            ≡ self.old.history ++ settlements_by owner.entry.teller (map event_of (take refusal.settled events.items))) }
        ensures fault { IfErr result (λ refusal. IsFaultAt K.names.race.network K.names.limit self.new.history (map event_of events.items) refusal.settled refusal.fault) }
        ensures agrees { tally_of K.names.race.network owner.entry.teller self.new.history ≡ share.new.tally }
        ensures book { IsBookOf K.names self.new }
        ensures lawful { IsLawful self.new }
    {
        let settled = self.book.settle_all(owner.teller, events);
        let tally = self.book.tally(owner.teller);
        let mine = &mut self.halves[owner.teller];
        owner.halves.set_in_place(share, mine, tally);
        settled
    }
}
