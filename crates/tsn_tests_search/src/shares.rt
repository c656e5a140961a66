//! Two tellers that share a book settle single events and lists of them, called in turn, and come back in another order. A step that
//! fails ends the test, so none has an error to hand on. What has many fields goes to `drop`, so that how it is let go is no part of
//! the test's own proof.
ghost use Rattle.std.specs.Prelude.{◌≡◌, ◌+◌, ◌<◌, ◌≤◌, ◌++◌, ◌∷◌, [], IfSome, option_copied};
ghost use Rattle.tsn_model.specs.Search.{split};
ghost use Rattle.tsn_timing.specs.Solution.{IsSolved};
ghost use Rattle.tsn_conflict.specs.Outcome.{outcome_of, IsSolvedBy};
ghost use Rattle.tsn_conflict.specs.Right.{HasProof};
ghost use Rattle.tsn_branch.specs.Look.{IsLook};
ghost use Rattle.tsn_incumbent.specs.Teller.{IsEven, fresh_teller};
ghost use Rattle.tsn_tests_search.specs.Solving.{IsTied, the_conflict};

use std::marker::Brand;
use std::process::Abort;
use std::sync::Wait;
use std::test::*;
use tsn_book::{Book, Event};
use tsn_branch::{fits, look};
use tsn_cert::Cert;
use tsn_codec::cert_to_json;
use tsn_conflict::outcome::Look;
use tsn_conflict::{Node, Side, Triple, conflicts};
use tsn_incumbent::{
    Counts, EndedWord, Named, Parts, Shared, Teller, best_as, gather_unordered, observe_as,
    settle_all_as, settle_and_post, settle_as, with_book,
};
use tsn_networks::TWO;
use tsn_timing::{Solved, Timing};

/// Adds an item.
fn put<T>(rt: &impl Abort, list: &mut Vec<T>, item: T)
    ensures { list.new.items ≡ list.old.items ++ item ∷ [] }
{
    list.try_reserve(1).expect(rt, "memory");
    list.push_reserved(item);
}

/// The link on which the two streams meet.
fn conflict() -> Triple
    ensures { result ≡ the_conflict }
{
    Triple {
        left: 0,
        right: 1,
        link: 4,
        lag: 0,
    }
}

/// A node below the root.
fn below_root<R: Abort + AllocGlobal>(rt: &R, side: Side) -> Node {
    let root = Node::root(rt.alloc());
    let triple = conflict();
    assert!(rt; root.path().iter().all(|decision| decision.triple != triple));
    root.child(triple, side).expect(rt, "memory")
}

/// What two tellers have.
#[tactic(auto, using(crate::proofs::Solving::two_popped))]
fn two_of<K: Named, R: Abort + AllocGlobal>(
    rt: &R,
    parts: Parts,
) -> (Shared<K>, Teller<K>, Teller<K>)
    requires names { parts ≡ K.names }
    requires tellers { K.names.race.tellers ≡ 2 }
    ensures zero { result.1 ≡ fresh_teller K.names.race.network 0 }
    ensures one { result.2 ≡ fresh_teller K.names.race.network 1 }
{
    let (shared, mut tellers) = parts.share::<K>(rt.alloc()).expect(rt, "memory");
    let Some(one) = tellers.pop() else {
        panic!(rt; "no teller")
    };
    match tellers.pop() {
        Some(zero) => (shared, zero, one),
        None => panic!(rt; "one teller"),
    }
}

/// Splits the root, which has to be open.
#[tactic(auto, unfolding(tsn_model::specs::Gathering::tally_with))]
fn split_root<K: Named, R: Wait + Abort + AllocGlobal>(
    rt: &R,
    shared: &Shared<K>,
    teller: &mut Teller<K>,
)
    ensures standing { teller.new.standing ≡ teller.old.standing }
    ensures solved { teller.new.tally.solved ≡ teller.old.tally.solved }
{
    let event = Event {
        node: Node::root(rt.alloc()),
        look: Look::Split(conflict()),
    };
    match settle_as(rt, shared, teller, event) {
        Ok(()) => (),
        Err(refusal) => {
            drop(refusal);
            panic!(rt; "not settled")
        }
    }
}

/// What the book has after its first event.
fn expect_first_counts<K: Named, R: Wait + Abort + AllocGlobal>(
    rt: &R,
    shared: &Shared<K>,
    teller: &mut Teller<K>,
)
    ensures { teller.new ≡ teller.old }
{
    let counts = with_book(rt, rt.alloc(), shared, teller).expect(rt, "memory");
    expect_counts(rt, &counts);
    drop(counts);
}

fn expect_counts<R: Abort + AllocGlobal>(rt: &R, counts: &Counts) {
    assert_eq!(rt; (counts.count, counts.open_nodes), (1, 2));
    match &counts.first {
        Some(first) => expect_same_path(rt, first, &below_root(rt, Side::Left)),
        None => panic!(rt; "nothing is open"),
    }
}

fn expect_same_path(rt: &impl Abort, node: &Node, wanted: &Node) {
    assert!(rt; node.path() == wanted.path());
}

fn expect_word(rt: &impl Abort, word: u64, wanted: u64) {
    assert_eq!(rt; word, wanted);
}

/// The least bound by which a node may be pruned after that was seen.
fn beyond(timing: &Timing, seen: u64) -> u64
    ensures { result ≤ timing.now.cycle + 1 }
{
    seen.min(timing.cycle()) + 1
}

/// What a look at a node finds.
fn look_at<R: Abort + AllocGlobal>(
    rt: &R,
    timing: &Timing,
    node: &Node,
    target: u64,
    best: Option<&Solved>,
) -> Look
    requires best { IfSome (option_copied best) (IsSolved timing.now) }
    ensures proof { HasProof timing.now node.now (outcome_of result) }
    ensures found { IsLook timing.now node.now target (option_copied best.entry) (outcome_of result) }
{
    assert!(rt; timing.streams() <= 128);
    let shared = conflicts(rt.alloc(), timing).expect(rt, "memory");
    assert!(rt; fits(&shared, node));
    let found = look(rt.alloc(), timing, &shared, node, target, best).expect(rt, "memory");
    drop(shared);
    found
}

/// The schedule by which a look solved its node.
fn schedule_of(rt: &impl Abort, timing: &Timing, node: &Node, look: &Look) -> Solved
    requires proof { HasProof timing.now node.now (outcome_of look.now) }
    ensures solved { IsSolved timing.now result }
    ensures by { IsSolvedBy result.flowspan (outcome_of look.now) }
{
    let _ = (timing, node);
    match look {
        Look::Solved { solved, .. } => solved.copy().expect(rt, "memory"),
        _ => panic!(rt; "not solved"),
    }
}

/// The Left child of the root, which a look solves below the target, with its schedule.
#[tactic(auto, using(crate::proofs::Solving::solved_below))]
fn solved_left<R: Abort + AllocGlobal>(rt: &R, timing: &Timing, target: u64) -> (Event, Solved)
    ensures proof { HasProof timing.now result.0.node (outcome_of result.0.look) }
    ensures solved { IsSolved timing.now result.1 }
    ensures by { IsSolvedBy result.1.flowspan (outcome_of result.0.look) }
    ensures below { result.1.flowspan < target }
{
    let node = below_root(rt, Side::Left);
    let look = look_at(rt, timing, &node, target, None);
    let schedule = schedule_of(rt, timing, &node, &look);
    (Event { node, look }, schedule)
}

/// Observes that nothing is posted, settles the Left node as solved, and posts its schedule.
fn solve_left<K: Named, R: Wait + Abort + AllocGlobal>(
    rt: &R,
    timing: &Timing,
    shared: &Shared<K>,
    teller: &mut Teller<K>,
)
    requires network { timing.now ≡ K.names.race.network }
    requires fresh { teller.old.tally.solved ≡ K.names.race.network.cycle + 1 }
    ensures number { teller.new.standing.number ≡ teller.old.standing.number }
    ensures even { IsEven teller.new }
{
    let seen = observe_as(shared, teller);
    expect_word(rt, seen, 1_000_001);
    let (event, best) = solved_left(rt, timing, beyond(timing, seen));
    match settle_and_post(rt, shared, teller, event, &best) {
        Ok(word) => expect_word(rt, word, 1_000_001),
        Err(refusal) => {
            drop(refusal);
            panic!(rt; "not settled")
        }
    }
    drop(best);
}

/// A copy of what the book keeps.
fn best_of<K: Named, R: Wait + Abort>(
    rt: &R,
    timing: &Timing,
    shared: &Shared<K>,
    teller: &mut Teller<K>,
) -> Option<Solved>
    requires network { timing.now ≡ K.names.race.network }
    ensures same { teller.new ≡ teller.old }
    ensures solved { IfSome result (IsSolved timing.now) }
{
    let _ = timing;
    let mut best = None;
    best_as(rt, shared, teller, &mut best).expect(rt, "memory");
    best
}

/// A look has to have tied its node.
fn expect_tied(rt: &impl Abort, look: &Look)
    ensures { IsTied (outcome_of look.now) }
{
    match look {
        Look::Tied { .. } => (),
        _ => panic!(rt; "not tied"),
    }
}

/// A look that ties its node with what the book keeps.
fn tied_look<K: Named, R: Wait + Abort + AllocGlobal>(
    rt: &R,
    timing: &Timing,
    shared: &Shared<K>,
    teller: &mut Teller<K>,
    node: &Node,
) -> Look
    requires network { timing.now ≡ K.names.race.network }
    ensures number { teller.new.standing.number ≡ teller.old.standing.number }
    ensures posted { teller.new.standing.posted ≡ teller.old.standing.posted }
    ensures tally { teller.new.tally ≡ teller.old.tally }
    ensures proof { HasProof timing.now node.now (outcome_of result) }
    ensures tied { IsTied (outcome_of result) }
{
    let seen = observe_as(shared, teller);
    expect_word(rt, seen, 2_924);
    let best = best_of(rt, timing, shared, teller);
    let look = look_at(rt, timing, node, beyond(timing, seen), best.as_ref());
    expect_tied(rt, &look);
    drop(best);
    look
}

/// One event.
fn one<R: Abort + AllocGlobal>(rt: &R, event: Event) -> Vec<Event>
    ensures { result.items ≡ event ∷ [] }
{
    let mut events = Vec::new(rt.alloc());
    put(rt, &mut events, event);
    events
}

/// Settles the Right node as tied, as the only one of its section.
#[tactic(auto, using(crate::proofs::Solving::tied_above, crate::proofs::Solving::tied_least))]
fn tie_right<K: Named, R: Wait + Abort + AllocGlobal>(
    rt: &R,
    timing: &Timing,
    shared: &Shared<K>,
    teller: &mut Teller<K>,
)
    requires network { timing.now ≡ K.names.race.network }
    requires even { IsEven teller.old }
    ensures number { teller.new.standing.number ≡ teller.old.standing.number }
    ensures even { IsEven teller.new }
{
    let node = below_root(rt, Side::Right);
    let look = tied_look(rt, timing, shared, teller, &node);
    let events = one(rt, Event { node, look });
    match settle_all_as(rt, shared, teller, events) {
        Ok(()) => (),
        Err(refusal) => {
            drop(refusal);
            panic!(rt; "not settled")
        }
    }
}

fn pair<K: Named, R: Abort + AllocGlobal>(
    rt: &R,
    first: Teller<K>,
    second: Teller<K>,
) -> Vec<Teller<K>>
    ensures { result.items ≡ first ∷ second ∷ [] }
{
    let mut tellers = Vec::new(rt.alloc());
    put(rt, &mut tellers, first);
    put(rt, &mut tellers, second);
    tellers
}

/// Gathers two tellers, the second one first.
#[tactic(auto, using(crate::proofs::Solving::two_even))]
fn gather_reversed<K: Named, R: Abort + AllocGlobal>(
    rt: &R,
    shared: Shared<K>,
    zero: Teller<K>,
    one: Teller<K>,
) -> (EndedWord, Book)
    requires tellers { K.names.race.tellers ≡ 2 }
    requires numbers { (zero.standing.number ≡ 0) × (one.standing.number ≡ 1) }
    requires even { IsEven zero × IsEven one }
{
    gather_unordered(shared, pair(rt, one, zero))
}

fn certificate<R: Abort + AllocGlobal>(rt: &R, book: Book) -> Cert {
    match book.first_open(rt.alloc()).expect(rt, "memory") {
        Some(_) => panic!(rt; "a node is open"),
        None => book.into_cert().expect(rt, "memory"),
    }
}

fn expect_certificate<R: Abort + AllocGlobal>(rt: &R, cert: &Cert) {
    let text = cert_to_json(rt.alloc(), cert).expect(rt, "memory");
    assert_eq!(rt;
        text.as_str(),
        "{\"format\":2,\"nodes\":[[\"branch\",0,1,4],[\"tie\",1,[0],[[],[0]]],[\"tie\",0,[0],[[0]]]],\"target\":2924}\n"
    );
}

fn expect_kept(rt: &impl Abort, book: &Book) {
    match book.kept() {
        Some(kept) => assert_eq!(rt; kept.valid().offsets(), [0, 672].as_slice()),
        None => panic!(rt; "nothing is kept"),
    }
}

/// The search is finished: by offsets 0 and 672, and three settlements.
fn expect_finished<R: Abort + AllocGlobal>(rt: &R, end: (EndedWord, Book)) {
    let (ended, book) = end;
    let word = ended.word();
    drop(ended);
    assert_eq!(rt; (word, book.count()), (2_924, 3));
    expect_kept(rt, &book);
    let cert = certificate(rt, book);
    expect_certificate(rt, &cert);
    drop(cert);
}

fn finish<K: Named, R: Wait + Abort + AllocGlobal>(rt: &R, timing: &Timing, parts: Parts)
    requires names { parts ≡ K.names }
    requires network { timing.now ≡ K.names.race.network }
    requires tellers { K.names.race.tellers ≡ 2 }
{
    let (shared, mut zero, mut one) = two_of::<K, _>(rt, parts);
    split_root(rt, &shared, &mut zero);
    expect_first_counts(rt, &shared, &mut zero);
    solve_left(rt, timing, &shared, &mut zero);
    tie_right(rt, timing, &shared, &mut one);
    expect_finished(rt, gather_reversed(rt, shared, zero, one));
}

#[test]
fn two_tellers_finish_a_search(rt: HostRuntime) {
    let timing = TWO.timing(rt.alloc(), 1_000_000).expect(&rt, "a network");
    let parts = Parts::new(rt.alloc(), &timing, 2, 10).expect(&rt, "memory");
    finish::<Brand, _>(&rt, &timing, parts);
    drop(timing);
}
