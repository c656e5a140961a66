//! Workers over bags that are handed in, which begin, share and settle by batches; that are stopped; and whose bags spoil nodes: what
//! is left open the caller settles, and the plan stays the same.

use crate::workers::bags::{Spoil, node_on, noting_bags, spoiled_bags};
use crate::workers::planner::{expect, planned_over};
use crate::workers::witness::{Order, Witness};
use std::sync::atomic::{AtomicU64, Ordering};
use std::test::*;
use tsn_conflict::Node;
use tsn_networks::{TEN, TWO};
use tsn_worker::{Bag, DequeBag, NoSupervisor};

const WORKERS: usize = 4;

/// The least flowspan of the star of ten.
const LEAST: u64 = 8_300;

/// Each of two workers holds its first settling until both have begun.
#[test]
fn two_workers_meet(rt: HostRuntime) -> Result<(), Fail> {
    let witness = Witness::new(rt, 2, Order::Meet);
    let found = planned_over(&rt, TWO, &witness, DequeBag::make(rt.alloc(), 2)?)?;
    assert!(&rt; !witness.account().went_alone);
    expect(&rt, &found, 2_924);
    Ok(())
}

/// The caller settles one node less than there are workers, and leaves the others to them. Open node n in preorder goes to bag n: of
/// the root's split, of that of its Left child, and of that one's Left child.
#[test]
fn the_caller_begins_and_fills_the_bags(rt: HostRuntime) -> Result<(), Fail> {
    let notes = [
        AtomicU64::new(0),
        AtomicU64::new(0),
        AtomicU64::new(0),
        AtomicU64::new(0),
    ];
    let witness = Witness::new(rt, WORKERS, Order::Work);
    let bags = noting_bags(rt.alloc(), &notes)?;
    expect(&rt, &planned_over(&rt, TEN, &witness, bags)?, LEAST);
    let account = witness.account();
    assert_eq!(&rt; (account.before, account.behind), (3, 0));
    for (note, first) in notes.iter().zip([111, 112, 12, 2]) {
        assert_eq!(&rt; note.load(Ordering::SeqCst), first);
    }
    Ok(())
}

/// A worker that passes the supervisor for each node would pass it as often as nodes are settled.
#[test]
fn a_batch_passes_the_supervisor_once(rt: HostRuntime) -> Result<(), Fail> {
    let witness = Witness::new(rt, 2, Order::Work);
    let found = planned_over(&rt, TEN, &witness, DequeBag::make(rt.alloc(), 2)?)?;
    expect(&rt, &found, LEAST);
    let passes = witness.account().all_passes();
    assert!(&rt; 0 < passes && passes < found.settled as u64, "{passes}");
    Ok(())
}

/// A worker that doesn't start passes the supervisor never, and one that doesn't go on once at most.
#[test]
fn stopped_workers_leave_the_rest_to_others(rt: HostRuntime) -> Result<(), Fail> {
    for (order, most) in [
        (Order::StopOne(2), 0),
        (Order::StopAll, 0),
        (Order::StopBatches, 4),
    ] {
        let witness = Witness::new(rt, WORKERS, order);
        let found = planned_over(&rt, TEN, &witness, DequeBag::make(rt.alloc(), WORKERS)?)?;
        expect(&rt, &found, LEAST);
        let account = witness.account();
        let by_stopped = match order {
            Order::StopOne(worker) => account.passes_of(worker),
            _ => account.passes_below(WORKERS),
        };
        assert!(&rt; by_stopped <= most, "{order:?}");
    }
    Ok(())
}

#[test]
fn bags_may_spoil_nodes(rt: HostRuntime) -> Result<(), Fail> {
    for spoil in [Spoil::Loses, Spoil::Doubles, Spoil::Refuses, Spoil::MakesUp] {
        let bags = spoiled_bags(rt.alloc(), WORKERS, spoil)?;
        expect(&rt, &planned_over(&rt, TEN, &NoSupervisor, bags)?, LEAST);
    }
    Ok(())
}

fn link_of(node: Option<Node>) -> Option<usize> {
    let node = node?;
    let first = node.path().first()?;
    Some(first.triple.link)
}

#[test]
fn the_owner_takes_the_last_and_a_thief_the_first(rt: HostRuntime) -> Result<(), Fail> {
    let alloc = rt.alloc();
    let mut bags = DequeBag::make(alloc, 2)?;
    let mut thief = bags.pop().ok_or("no second bag")?;
    let mut owner = bags.pop().ok_or("no first bag")?;
    for link in 1..4 {
        let pushed = owner.push(node_on(alloc, link)?);
        assert!(rt; pushed.is_ok());
    }
    assert_eq!(rt; link_of(owner.pop()), Some(3));
    assert_eq!(rt; link_of(thief.steal()), Some(1));
    Ok(())
}
