//! What tellers share.
ghost use Rattle.std.specs.Prelude.{◌≡◌, ◌≤◌, ◌<◌, ◌++◌, length, map, take, All, IfOk, IfErr, OnOk, OnErr};
ghost use Rattle.tsn_model.specs.Core.{IsAboveSeen};
ghost use Rattle.tsn_timing.specs.Solution.{IsSolved};
ghost use Rattle.tsn_conflict.specs.Outcome.{outcome_of};
ghost use Rattle.tsn_conflict.specs.Right.{HasProof, SplitsUndecided};
ghost use Rattle.tsn_incumbent.specs.Flowspans.{IsIncumbent};
ghost use Rattle.tsn_incumbent.specs.Standings.{saw, put};
ghost use Rattle.tsn_book.specs.Book.{IsLawful};
ghost use Rattle.tsn_book.specs.Below.{path_after, events_below, settlements_by};
ghost use Rattle.tsn_incumbent.specs.Names.{IsBookOf};
ghost use Rattle.tsn_incumbent.specs.Teller.{IsEven, settled_all, OnlyLastSolved};
ghost use Rattle.tsn_incumbent.specs.Desk.{IsBest, IsRefusedAt};
ghost use Rattle.tsn_incumbent.specs.Steps.{TakesSettles};

use crate::desk::{Desk, Owner};
use crate::halves::Halves;
use crate::incumbent::Incumbent;
use crate::names::Named;
use crate::teller::Teller;
use std::hint::spin_loop;
use std::marker::Model;
use std::sync::{Mutex, MutexGuard, Wait};
use tsn_book::{Looks, WalkRefusal};
use tsn_conflict::{NoMemory, Node};
use tsn_timing::Solved;

// How often the lock is tried before a thread sleeps: for some tens of microseconds.
const TRIES: usize = 500;

/// The shared word, and behind a lock the book with one half of each teller's tally.
#[derive(Drop)]
pub struct Shared<K: Named> {
    pub(crate) incumbent: Incumbent,
    pub(crate) halves: Halves,
    pub(crate) desk: Mutex<Desk<K>>,
}

impl<K: Named> Model for Shared<K> {
    ghost use Rattle.std.specs.Prelude.{◌≡◌};
    ghost use Rattle.tsn_model.specs.Network.{IsWellFormed};
    ghost use Rattle.tsn_incumbent.specs.Standings.{Race};

    ghost Value = { Race };

    ghost view = { λ s. s.incumbent };

    ghost invariant = { λ s. (s.incumbent ≡ K.names.race) × (s.halves ≡ K.names.halves) × IsWellFormed K.names.race.network };
}

/// The shared word, by one load. It is at most all that the teller has seen or posted. This takes no memory, and waits for
/// nobody.
#[tactic(auto, using(crate::proofs::Tellers::beyond_seen))]
pub fn observe_as<K: Named>(shared: &Shared<K>, teller: &mut Teller<K>) -> u64
    ensures standing { teller.new.standing ≡ saw result teller.old.standing }
    ensures tally { teller.new.tally ≡ teller.old.tally }
    ensures incumbent { IsIncumbent K.names.race.network result }
    ensures at_most { (result ≤ teller.old.standing.seen) × (result ≤ teller.old.standing.posted) }
{
    shared.incumbent.observe(&mut teller.seat)
}

/// Lowers the shared word to the teller's least solved flowspan, by one fetch-min, and answers the word before it. This takes
/// no memory, and waits for nobody.
#[tactic(auto, using(crate::proofs::Tellers::beyond_seen))]
pub fn post_as<K: Named>(shared: &Shared<K>, teller: &mut Teller<K>, solved: &Solved) -> u64
    requires solved { IsSolved K.names.race.network solved.now }
    requires least { solved.now.flowspan ≡ teller.old.tally.solved }
    ensures standing { teller.new.standing ≡ put solved.now.flowspan teller.old.standing }
    ensures tally { teller.new.tally ≡ teller.old.tally }
    ensures even { IsEven teller.new }
    ensures incumbent { IsIncumbent K.names.race.network result }
    ensures at_most { (result ≤ teller.old.standing.seen) × (result ≤ teller.old.standing.posted) }
{
    shared.incumbent.post(&mut teller.seat, solved)
}

/// Settles the nodes of a walk depth first from a node on, of which 1 to 64 looks are given in that order and at most the last
/// is solved, in one critical section, up to the first that may not be settled; then how many were settled, and the reason why
/// the next one was not. The node then stands where the walk goes on, and the teller's share takes what was settled.
///
/// After a split the walk goes on at the Left child, and after a leaf at the right side of the path's last left turn, or at the
/// root where there is none. A leaf's proof has to be right for its own bound, a pruned leaf's bound worse than what the teller
/// has seen, and a split on a conflict that the path doesn't decide: a look at the node with a target beyond what it observed
/// gives such.
pub fn settle_below_as<K: Named>(
    rt: &impl Wait,
    shared: &Shared<K>,
    teller: &mut Teller<K>,
    from: &mut Node,
    looks: Looks,
) -> Result<(), WalkRefusal>
    requires count { (1 ≤ length looks) × (length looks ≤ 64) }
    requires proofs { All (λ event. HasProof K.names.race.network event.path event.outcome × SplitsUndecided K.names.race.network event.path event.outcome)
        (events_below from.old (map outcome_of looks)) }
    requires seen { All (IsAboveSeen K.names.race.network teller.old.standing.seen) (map outcome_of looks) }
    requires last_solved { OnlyLastSolved (map outcome_of looks) }
    ensures all { OnOk result (teller.new ≡ settled_all (map outcome_of looks) teller.old) }
    ensures from { OnOk result (from.new ≡ path_after from.old (map outcome_of looks)) }
    ensures some { IfErr result (λ refusal. (refusal.settled < length looks)
        × (teller.new ≡ settled_all (take refusal.settled (map outcome_of looks)) teller.old)
        × (from.new ≡ path_after from.old (take refusal.settled (map outcome_of looks)))) }
    ensures fault { IfErr result (λ refusal. IsRefusedAt K.names teller.new (events_below from.old (map outcome_of looks)) refusal.settled refusal.fault) }
{
    let mut desk = desk_of(rt, shared);
    settle_below_at(&mut desk, &shared.halves, teller, from, looks)
}

// Settles the nodes of a walk behind the lock: so many steps that settle, one after another.
fn settle_below_at<K: Named>(
    desk: &mut Desk<K>,
    halves: &Halves,
    teller: &mut Teller<K>,
    from: &mut Node,
    looks: Looks,
) -> Result<(), WalkRefusal>
    requires table { halves.now ≡ K.names.halves }
    requires proofs { All (λ event. HasProof K.names.race.network event.path event.outcome × SplitsUndecided K.names.race.network event.path event.outcome)
        (events_below from.old (map outcome_of looks)) }
    requires seen { All (IsAboveSeen K.names.race.network teller.old.standing.seen) (map outcome_of looks) }
    ensures all { OnOk result (teller.new ≡ settled_all (map outcome_of looks) teller.old) }
    ensures from { OnOk result (from.new ≡ path_after from.old (map outcome_of looks)) }
    ensures history { OnOk result (desk.new.history ≡ desk.old.history ++ settlements_by teller.old.standing.number (events_below from.old (map outcome_of looks))) }
    ensures some { IfErr result (λ refusal. (refusal.settled < length looks)
        × (teller.new ≡ settled_all (take refusal.settled (map outcome_of looks)) teller.old)
        × (from.new ≡ path_after from.old (take refusal.settled (map outcome_of looks)))) }
    ensures history_of_some { IfErr result (λ refusal. desk.new.history
        ≡ desk.old.history ++ settlements_by teller.old.standing.number (take refusal.settled (events_below from.old (map outcome_of looks)))) }
    ensures steps { OnOk result (TakesSettles K.names teller.old teller.new desk.old.history (events_below from.old (map outcome_of looks)) desk.new.history) }
    ensures steps_of_some { IfErr result (λ refusal.
        TakesSettles K.names teller.old teller.new desk.old.history (take refusal.settled (events_below from.old (map outcome_of looks))) desk.new.history) }
    ensures book { IsBookOf K.names desk.new }
    ensures lawful { IsLawful desk.new }
    ensures fault { IfErr result (λ refusal. IsRefusedAt K.names teller.new (events_below from.old (map outcome_of looks)) refusal.settled refusal.fault) }
{
    let owner = Owner {
        halves,
        teller: teller.number,
    };
    desk.settle_below(owner, &mut teller.share, from, looks)
}

// Takes the lock. A section is much shorter than the sleep of a thread, so it is tried for a while before the thread sleeps.
fn desk_of<'a, K: Named>(rt: &impl Wait, shared: &'a Shared<K>) -> MutexGuard<'a, Desk<K>> {
    for _ in 0..TRIES {
        if let Some(desk) = shared.desk.try_lock() {
            return desk;
        }
        spin_loop();
    }
    shared.desk.lock(rt)
}

/// Copies what the book keeps, of a history that has the teller's share for its tally: nothing only where the teller solved
/// nothing, and else a schedule no worse than what it solved. It takes the place of the copy that was lent, unless there was
/// no memory, as the error says.
pub fn best_as<K: Named>(
    rt: &impl Wait,
    shared: &Shared<K>,
    teller: &mut Teller<K>,
    best: &mut Option<Solved>,
) -> Result<(), NoMemory>
    ensures best { OnOk result (IsBest K.names teller.old best.new) }
    ensures refused { OnErr result (best.new ≡ best.old) }
    ensures same { teller.new ≡ teller.old }
{
    *best = kept_as(rt, shared, teller)?;
    Ok(())
}

// A copy of what is kept. The lock is held no longer than this takes.
fn kept_as<K: Named>(
    rt: &impl Wait,
    shared: &Shared<K>,
    teller: &mut Teller<K>,
) -> Result<Option<Solved>, NoMemory>
    ensures best { IfOk result (IsBest K.names teller.old) }
    ensures same { teller.new ≡ teller.old }
{
    let owner = Owner {
        halves: &shared.halves,
        teller: teller.number,
    };
    let mut desk = shared.desk.lock(rt);
    desk.agree(owner, &mut teller.share);
    desk.best()
}
